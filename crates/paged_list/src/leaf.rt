//! A leaf: a page of items.

ghost use Rattle.std.specs.Prelude.{◌≡◌, ◌-◌, ◌<◌, ◌++◌, ◌∷◌, [], Some, IfOk, OnOk, OnErr, length, take, drop, slice_get, slice_set};
ghost use Rattle.std.specs.Option.{option_copied};

use crate::copies::Copies;
use crate::freeze::Freeze;
use crate::page::Page;
use std::alloc::Global;
use std::marker::Model;
use std::mem::replace;
use wfs_ends::Mem;

/// How many items a leaf has, if it is not the last one with items.
pub(crate) const LEAF: usize = 64;

/// A page of items. Contracts see the items.
#[derive(Drop)]
pub(crate) struct Leaf<T> {
    page: Page<T>,
}

impl<T> Model for Leaf<T> {
    ghost use Rattle.std.specs.Prelude.{List};
    ghost use Rattle.std.specs.Coded.{coded_list};
    ghost use Rattle.paged_list.specs.Pages.{items_of};

    ghost Value = { List T };

    ghost coded = { coded_list T.code };

    ghost view = { λ leaf. items_of leaf.page };
}

impl<T> Leaf<T> {
    /// The leaf without items. It takes no memory.
    pub(crate) fn new(alloc: Global) -> Leaf<T>
        ensures { result ≡ [] }
    {
        Leaf {
            page: Page::new(alloc),
        }
    }

    /// The item at a place.
    pub(crate) fn get(&self, place: usize) -> Option<&T>
        ensures { option_copied result ≡ slice_get self.now place }
    {
        self.page.get(place)
    }

    /// The items from a place on.
    pub(crate) fn items_from(&self, place: usize) -> &[T]
        ensures { result.now ≡ drop place self.now }
    {
        let items = self.page.items();
        let from = place.min(items.len());
        &items[from..]
    }
}

impl<T: Drop> Freeze for Leaf<T> {
    fn freeze(&mut self, alloc: Global) -> Mem<()> {
        self.page.freeze(alloc)
    }
}

impl<T: Copies> Copies for Leaf<T> {
    fn copy(&self, alloc: Global) -> Mem<Leaf<T>> {
        Ok(Leaf {
            page: self.page.copy(alloc)?,
        })
    }
}

impl<T: Copies> Leaf<T> {
    /// Puts an item in the place of another, which it gives back.
    pub(crate) fn replace(&mut self, alloc: Global, place: usize, item: T) -> Mem<T>
        requires { place < length self.old }
        ensures was { IfOk result (λ old. slice_get self.old place ≡ Some old) }
        ensures items { OnOk result (self.new ≡ slice_set self.old place item) }
        ensures err { OnErr result (self.new ≡ self.old) }
    {
        self.page.own(alloc)?;
        match &mut self.page {
            Page::Own(items) => Ok(replace(&mut items[place], item)),
            Page::Shared(_) => unreachable!(),
        }
    }

    /// Adds an item at the end.
    pub(crate) fn push(&mut self, alloc: Global, item: T) -> Mem<()>
        ensures items { OnOk result (self.new ≡ self.old ++ item ∷ []) }
        ensures err { OnErr result (self.new ≡ self.old) }
    {
        self.page.own(alloc)?;
        match &mut self.page {
            Page::Own(items) => Ok(items.push(item)?),
            Page::Shared(_) => unreachable!(),
        }
    }

    /// Takes the last item out.
    pub(crate) fn pop(&mut self, alloc: Global) -> Mem<T>
        requires { 0 < length self.old }
        ensures was { IfOk result (λ old. slice_get self.old (length self.old - 1) ≡ Some old) }
        ensures items { OnOk result (self.new ≡ take (length self.old - 1) self.old) }
        ensures err { OnErr result (self.new ≡ self.old) }
    {
        self.page.own(alloc)?;
        match &mut self.page {
            Page::Own(items) => match items.pop() {
                Some(item) => Ok(item),
                None => unreachable!(),
            },
            Page::Shared(_) => unreachable!(),
        }
    }
}
