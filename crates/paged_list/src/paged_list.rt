//! The list: a page of branches.

ghost use Rattle.std.specs.Prelude.{◌≡◌, ◌-◌, ◌%◌, ◌<◌, ◌≤◌, ◌++◌, ◌∷◌, [], false, Some, IfOk, OnOk, OnErr, length, take, drop, get_or, slice_get, slice_set};
ghost use Rattle.std.specs.Option.{option_copied};
ghost use Rattle.paged_list.specs.Flat.{added_at};
ghost use Rattle.paged_list.specs.Pages.{items_of, is_own};

use crate::branch::{BRANCH, Branch};
use crate::copies::Copies;
use crate::freeze::freeze_page;
use crate::page::Page;
use std::alloc::Global;
use std::marker::Model;
use std::sync::Arc;
use wfs_ends::{Mem, OutOfMemory};

/// A list whose versions share the pages that they have in common. Contracts see the items.
#[derive(Drop)]
pub struct PagedList<T> {
    branches: Page<Branch<T>>,
    len: usize,
}

impl<T> Model for PagedList<T> {
    ghost use Rattle.std.specs.Prelude.{List};
    ghost use Rattle.std.specs.Coded.{coded_list};
    ghost use Rattle.paged_list.specs.Flat.{flat, IsEven};
    ghost use Rattle.paged_list.specs.Pages.{items_of};

    ghost Value = { List T };

    ghost coded = { coded_list T.code };

    ghost view = { λ list. flat (items_of list.branches) };

    ghost invariant = { λ list. IsEven 8192 list.len (items_of list.branches) };
}

impl<T> PagedList<T> {
    /// The list without items. It takes no memory.
    pub fn new(alloc: Global) -> PagedList<T>
        ensures { result ≡ [] }
    {
        PagedList {
            branches: Page::new(alloc),
            len: 0,
        }
    }

    /// How many items there are.
    #[tactic(auto, using(crate::proofs::Flats::length_is))]
    pub fn len(&self) -> usize
        ensures { result ≡ length self.now }
    {
        self.len
    }

    /// The item at a place: three reads, one a level.
    pub fn get(&self, place: usize) -> Option<&T>
        ensures { option_copied result ≡ slice_get self.now place }
    {
        match self.branches.get(place / BRANCH) {
            None => None,
            Some(branch) => branch.get(place % BRANCH),
        }
    }

    /// The items from a place on that stand in its leaf, at least one where the place has an item. A walk by the end of each such slice
    /// takes the time of its items, and three reads a leaf.
    pub fn items_from(&self, place: usize) -> &[T]
        ensures { result.now ≡ take (64 - place % 64) (drop place self.now) }
    {
        match self.branches.get(place / BRANCH) {
            None => &[],
            Some(branch) => branch.items_from(place % BRANCH),
        }
    }
}

// A page of the same branches, which shares them.
fn share_page<T: Drop>(branches: &mut Page<Branch<T>>, alloc: Global) -> Mem<Page<Branch<T>>>
    ensures stays { items_of branches.new ≡ items_of branches.old }
    ensures same { IfOk result (λ page. items_of page ≡ items_of branches.old) }
    ensures shared { OnOk result (is_own branches.new ≡ false) }
{
    freeze_page(branches, alloc)?;
    match branches {
        Page::Own(_) => unreachable!(),
        Page::Shared(all) => Ok(Page::Shared(Arc::try_clone(all)?)),
    }
}

impl<T: Drop> PagedList<T> {
    /// The same list, which shares all pages with this one. It copies no item. Where nothing was written since the last share, it counts one
    /// user more. Else it takes a little memory for each page that was written since, and looks at the pages beside those.
    pub fn share(&mut self, alloc: Global) -> Mem<PagedList<T>>
        ensures stays { self.new ≡ self.old }
        ensures same { IfOk result (λ other. other ≡ self.old) }
    {
        Ok(PagedList {
            branches: share_page(&mut self.branches, alloc)?,
            len: self.len,
        })
    }
}

// Puts an item in the place of another in a branch.
fn replace_in<T: Copies>(
    branches: &mut Page<Branch<T>>,
    alloc: Global,
    branch: usize,
    place: usize,
    item: T,
) -> Mem<T>
    requires { place < length (get_or (items_of branches.old) branch []) }
    ensures was { IfOk result (λ old. slice_get (get_or (items_of branches.old) branch []) place
        ≡ Some old) }
    ensures items { OnOk result (items_of branches.new ≡ slice_set (items_of branches.old) branch
        (slice_set (get_or (items_of branches.old) branch []) place item)) }
    ensures err { OnErr result (items_of branches.new ≡ items_of branches.old) }
{
    branches.own(alloc)?;
    match branches {
        Page::Own(all) => all[branch].replace(alloc, place, item),
        Page::Shared(_) => unreachable!(),
    }
}

// Adds an item to a branch that is not full, or in a new branch behind all others.
#[tactic(auto, using(crate::proofs::Flats::added_last))]
fn push_in<T: Copies>(
    branches: &mut Page<Branch<T>>,
    alloc: Global,
    branch: usize,
    item: T,
) -> Mem<()>
    requires there { branch ≤ length (items_of branches.old) }
    requires room { length (get_or (items_of branches.old) branch []) < 8192 }
    ensures items { OnOk result (items_of branches.new
        ≡ added_at (items_of branches.old) branch item) }
    ensures err { OnErr result (items_of branches.new ≡ items_of branches.old) }
{
    branches.own(alloc)?;
    match branches {
        Page::Own(all) => {
            if branch < all.len() {
                return all[branch].push(alloc, item);
            }
            let mut last = Branch::new(alloc);
            last.push(alloc, item)?;
            Ok(all.push(last)?)
        }
        Page::Shared(_) => unreachable!(),
    }
}

// Takes the last item of a branch out.
fn pop_in<T: Copies>(branches: &mut Page<Branch<T>>, alloc: Global, branch: usize) -> Mem<T>
    requires { 0 < length (get_or (items_of branches.old) branch []) }
    ensures was { IfOk result (λ old. slice_get (get_or (items_of branches.old) branch [])
        (length (get_or (items_of branches.old) branch []) - 1) ≡ Some old) }
    ensures items { OnOk result (items_of branches.new ≡ slice_set (items_of branches.old) branch
        (take (length (get_or (items_of branches.old) branch []) - 1)
        (get_or (items_of branches.old) branch []))) }
    ensures err { OnErr result (items_of branches.new ≡ items_of branches.old) }
{
    branches.own(alloc)?;
    match branches {
        Page::Own(all) => all[branch].pop(alloc),
        Page::Shared(_) => unreachable!(),
    }
}

/// Each of these calls copies the pages on its way that others share: at most a leaf's items, and a count for each leaf of a branch and for each
/// branch. Where no page on its way is shared, it copies none. After `OutOfMemory` the list is as before.
impl<T: Copies> PagedList<T> {
    /// Puts an item in the place of another, which it gives back.
    pub fn replace(&mut self, alloc: Global, place: usize, item: T) -> Mem<T>
        requires { place < length self.old }
        ensures was { IfOk result (λ old. slice_get self.old place ≡ Some old) }
        ensures items { OnOk result (self.new ≡ slice_set self.old place item) }
        ensures err { OnErr result (self.new ≡ self.old) }
    {
        let old = replace_in(
            &mut self.branches,
            alloc,
            place / BRANCH,
            place % BRANCH,
            item,
        )?;
        Ok(old)
    }

    /// Adds an item at the end.
    pub fn push(&mut self, alloc: Global, item: T) -> Mem<()>
        ensures items { OnOk result (self.new ≡ self.old ++ item ∷ []) }
        ensures err { OnErr result (self.new ≡ self.old) }
    {
        if self.len == usize::MAX {
            return Err(OutOfMemory);
        }
        push_in(&mut self.branches, alloc, self.len / BRANCH, item)?;
        self.len += 1;
        Ok(())
    }

    /// Takes the last item out.
    pub fn pop(&mut self, alloc: Global) -> Mem<T>
        requires { 0 < length self.old }
        ensures was { IfOk result (λ old. slice_get self.old (length self.old - 1) ≡ Some old) }
        ensures items { OnOk result (self.new ≡ take (length self.old - 1) self.old) }
        ensures err { OnErr result (self.new ≡ self.old) }
    {
        let place = self.len - 1;
        let item = pop_in(&mut self.branches, alloc, place / BRANCH)?;
        self.len = place;
        Ok(item)
    }
}
