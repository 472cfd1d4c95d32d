//! A page: items in a vector that the page alone has, or in one that several pages share.

ghost use Rattle.std.specs.Prelude.{◌≡◌, [], true, false, IfOk, OnOk, slice_get};
ghost use Rattle.std.specs.Option.{option_copied};
ghost use Rattle.paged_list.specs.Pages.{items_of, is_own};

use crate::copies::Copies;
use std::alloc::Global;
use std::mem::replace;
use std::sync::Arc;
use wfs_ends::{Mem, OutOfMemory};

/// Items in a vector that the page alone has, or in one that several pages share.
#[derive(Drop)]
pub(crate) enum Page<T> {
    Own(Vec<T>),
    Shared(Arc<Vec<T>>),
}

impl<T> Page<T> {
    /// The page without items. It takes no memory.
    pub(crate) fn new(alloc: Global) -> Page<T>
        ensures items { items_of result ≡ [] }
    {
        Page::Own(Vec::new(alloc))
    }

    /// The items, in order.
    pub(crate) fn items(&self) -> &[T]
        ensures { result.now ≡ items_of self.now }
    {
        match self {
            Page::Own(items) => items.as_slice(),
            Page::Shared(items) => items.as_slice(),
        }
    }

    /// The item at a place.
    pub(crate) fn get(&self, place: usize) -> Option<&T>
        ensures { option_copied result ≡ slice_get (items_of self.now) place }
    {
        self.items().get(place)
    }
}

impl<T: Drop> Page<T> {
    /// Makes the items such as pages share. It copies none.
    pub(crate) fn freeze(&mut self, alloc: Global) -> Mem<()>
        ensures items { items_of self.new ≡ items_of self.old }
        ensures shared { OnOk result (is_own self.new ≡ false) }
    {
        match replace(self, Page::new(alloc)) {
            Page::Own(items) => match Arc::new(alloc, items) {
                Ok(items) => {
                    *self = Page::Shared(items);
                    Ok(())
                }
                Err(failed) => {
                    *self = Page::Own(failed.value);
                    Err(OutOfMemory)
                }
            },
            Page::Shared(items) => {
                *self = Page::Shared(items);
                Ok(())
            }
        }
    }
}

// Copies of items, and room for one more.
fn copy_all<T: Copies>(alloc: Global, items: &[T]) -> Mem<Vec<T>>
    ensures { IfOk result (λ all. all.items ≡ items.now) }
{
    let mut all = Vec::with_capacity(alloc, items.len().saturating_add(1))?;
    for item in items {
        all.push(item.copy(alloc)?)?;
    }
    Ok(all)
}

impl<T: Copies> Page<T> {
    /// A page with the same items. Where they are shared, one more page shares them; else each is copied.
    pub(crate) fn copy(&self, alloc: Global) -> Mem<Page<T>>
        ensures { IfOk result (λ page. items_of page ≡ items_of self.now) }
    {
        match self {
            Page::Own(items) => Ok(Page::Own(copy_all(alloc, items)?)),
            Page::Shared(items) => Ok(Page::Shared(Arc::try_clone(items)?)),
        }
    }

    /// Makes the items the page's own. Where other pages share them, each is copied.
    pub(crate) fn own(&mut self, alloc: Global) -> Mem<()>
        ensures items { items_of self.new ≡ items_of self.old }
        ensures own { OnOk result (is_own self.new ≡ true) }
    {
        match replace(self, Page::new(alloc)) {
            Page::Own(items) => {
                *self = Page::Own(items);
                Ok(())
            }
            Page::Shared(items) => match Arc::try_unwrap(items) {
                Ok(items) => {
                    *self = Page::Own(items);
                    Ok(())
                }
                Err(shared) => match copy_all(alloc, &shared) {
                    Ok(items) => {
                        *self = Page::Own(items);
                        Ok(())
                    }
                    Err(OutOfMemory) => {
                        *self = Page::Shared(shared);
                        Err(OutOfMemory)
                    }
                },
            },
        }
    }
}
