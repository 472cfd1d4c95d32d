//! A branch: a page of leaves.

ghost use Rattle.std.specs.Prelude.{◌≡◌, ◌-◌, ◌%◌, ◌<◌, ◌≤◌, ◌++◌, ◌∷◌, [], Some, IfOk, OnOk, OnErr, length, take, drop, get_or, slice_get, slice_set};
ghost use Rattle.std.specs.Option.{option_copied};
ghost use Rattle.paged_list.specs.Flat.{added_at};
ghost use Rattle.paged_list.specs.Pages.{items_of};

use crate::copies::Copies;
use crate::freeze::{Freeze, freeze_page};
use crate::leaf::{LEAF, Leaf};
use crate::page::Page;
use std::alloc::Global;
use std::marker::Model;
use wfs_ends::Mem;

/// How many items a branch has, if it is not the last one with items: those of 128 leaves.
pub(crate) const BRANCH: usize = 8192;

/// A page of leaves. Contracts see the items.
#[derive(Drop)]
pub(crate) struct Branch<T> {
    leaves: Page<Leaf<T>>,
    len: usize,
}

impl<T> Model for Branch<T> {
    ghost use Rattle.std.specs.Prelude.{List};
    ghost use Rattle.std.specs.Coded.{coded_list};
    ghost use Rattle.paged_list.specs.Flat.{flat, IsEven};
    ghost use Rattle.paged_list.specs.Pages.{items_of};

    ghost Value = { List T };

    ghost coded = { coded_list T.code };

    ghost view = { λ branch. flat (items_of branch.leaves) };

    ghost invariant = { λ branch. IsEven 64 branch.len (items_of branch.leaves) };
}

impl<T> Branch<T> {
    /// The branch without items. It takes no memory.
    pub(crate) fn new(alloc: Global) -> Branch<T>
        ensures { result ≡ [] }
    {
        Branch {
            leaves: Page::new(alloc),
            len: 0,
        }
    }

    /// The item at a place.
    pub(crate) fn get(&self, place: usize) -> Option<&T>
        ensures { option_copied result ≡ slice_get self.now place }
    {
        match self.leaves.get(place / LEAF) {
            None => None,
            Some(leaf) => leaf.get(place % LEAF),
        }
    }

    /// The items from a place on that stand in its leaf.
    pub(crate) fn items_from(&self, place: usize) -> &[T]
        ensures { result.now ≡ take (64 - place % 64) (drop place self.now) }
    {
        match self.leaves.get(place / LEAF) {
            None => &[],
            Some(leaf) => leaf.items_from(place % LEAF),
        }
    }
}

impl<T: Drop> Freeze for Branch<T> {
    fn freeze(&mut self, alloc: Global) -> Mem<()> {
        freeze_page(&mut self.leaves, alloc)
    }
}

impl<T: Copies> Copies for Branch<T> {
    fn copy(&self, alloc: Global) -> Mem<Branch<T>> {
        Ok(Branch {
            leaves: self.leaves.copy(alloc)?,
            len: self.len,
        })
    }
}

// Puts an item in the place of another in a leaf.
fn replace_in<T: Copies>(
    leaves: &mut Page<Leaf<T>>,
    alloc: Global,
    leaf: usize,
    place: usize,
    item: T,
) -> Mem<T>
    requires { place < length (get_or (items_of leaves.old) leaf []) }
    ensures was { IfOk result (λ old. slice_get (get_or (items_of leaves.old) leaf []) place
        ≡ Some old) }
    ensures items { OnOk result (items_of leaves.new ≡ slice_set (items_of leaves.old) leaf
        (slice_set (get_or (items_of leaves.old) leaf []) place item)) }
    ensures err { OnErr result (items_of leaves.new ≡ items_of leaves.old) }
{
    leaves.own(alloc)?;
    match leaves {
        Page::Own(all) => all[leaf].replace(alloc, place, item),
        Page::Shared(_) => unreachable!(),
    }
}

// Adds an item to a leaf, or in a new leaf behind all others.
#[tactic(auto, using(crate::proofs::Flats::added_last))]
fn push_in<T: Copies>(leaves: &mut Page<Leaf<T>>, alloc: Global, leaf: usize, item: T) -> Mem<()>
    requires { leaf ≤ length (items_of leaves.old) }
    ensures items { OnOk result (items_of leaves.new ≡ added_at (items_of leaves.old) leaf item) }
    ensures err { OnErr result (items_of leaves.new ≡ items_of leaves.old) }
{
    leaves.own(alloc)?;
    match leaves {
        Page::Own(all) => {
            if leaf < all.len() {
                return all[leaf].push(alloc, item);
            }
            let mut last = Leaf::new(alloc);
            last.push(alloc, item)?;
            Ok(all.push(last)?)
        }
        Page::Shared(_) => unreachable!(),
    }
}

// Takes the last item of a leaf out.
fn pop_in<T: Copies>(leaves: &mut Page<Leaf<T>>, alloc: Global, leaf: usize) -> Mem<T>
    requires { 0 < length (get_or (items_of leaves.old) leaf []) }
    ensures was { IfOk result (λ old. slice_get (get_or (items_of leaves.old) leaf [])
        (length (get_or (items_of leaves.old) leaf []) - 1) ≡ Some old) }
    ensures items { OnOk result (items_of leaves.new ≡ slice_set (items_of leaves.old) leaf
        (take (length (get_or (items_of leaves.old) leaf []) - 1)
        (get_or (items_of leaves.old) leaf []))) }
    ensures err { OnErr result (items_of leaves.new ≡ items_of leaves.old) }
{
    leaves.own(alloc)?;
    match leaves {
        Page::Own(all) => all[leaf].pop(alloc),
        Page::Shared(_) => unreachable!(),
    }
}

impl<T: Copies> Branch<T> {
    /// Puts an item in the place of another, which it gives back.
    pub(crate) fn replace(&mut self, alloc: Global, place: usize, item: T) -> Mem<T>
        requires { place < length self.old }
        ensures was { IfOk result (λ old. slice_get self.old place ≡ Some old) }
        ensures items { OnOk result (self.new ≡ slice_set self.old place item) }
        ensures err { OnErr result (self.new ≡ self.old) }
    {
        let old = replace_in(&mut self.leaves, alloc, place / LEAF, place % LEAF, item)?;
        Ok(old)
    }

    /// Adds an item at the end of a branch that is not full.
    pub(crate) fn push(&mut self, alloc: Global, item: T) -> Mem<()>
        requires { length self.old < 8192 }
        ensures items { OnOk result (self.new ≡ self.old ++ item ∷ []) }
        ensures err { OnErr result (self.new ≡ self.old) }
    {
        push_in(&mut self.leaves, alloc, self.len / LEAF, item)?;
        self.len += 1;
        Ok(())
    }

    /// Takes the last item out.
    pub(crate) fn pop(&mut self, alloc: Global) -> Mem<T>
        requires { 0 < length self.old }
        ensures was { IfOk result (λ old. slice_get self.old (length self.old - 1) ≡ Some old) }
        ensures items { OnOk result (self.new ≡ take (length self.old - 1) self.old) }
        ensures err { OnErr result (self.new ≡ self.old) }
    {
        let place = self.len - 1;
        let item = pop_in(&mut self.leaves, alloc, place / LEAF)?;
        self.len = place;
        Ok(item)
    }
}
