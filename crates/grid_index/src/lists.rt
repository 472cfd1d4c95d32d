//! The pairs that stand in each cell, and on the wide list.

ghost use Rattle.std.specs.Prelude.{◌≡◌, ◌+◌, ◌-◌, ◌≤◌, ◌++◌, ◌∷◌, ◌&&◌, [], None, OnOk, cond};
ghost use Rattle.std.specs.HashMap.{get};
ghost use Rattle.std.specs.Vec.{vec_len, vec_capacity};
ghost use Rattle.grid_index.specs.Counts.{one_if, is_pair, times};
ghost use Rattle.grid_index.specs.Found.{AreMarked, FindsAlso};
ghost use Rattle.grid_index.specs.Lists.{listed_at, spare_at, AreSame, IsRoomier};
ghost use Rattle.grid_index.specs.Near.{Placed};
ghost use Rattle.grid_index.specs.Places.{Place as ThePlace, same_place};

use crate::found::Found;
use crate::search::index_of;
use feature_values::Rid;
use geom_core::Box2;
use std::alloc::Global;
use std::collections::HashMap;
use wfs_ends::{Mem, OutOfMemory};

// A place that a pair takes: in a cell, or in none, which is the wide list.
pub type Place = Option<(i32, i32)>;

// The pairs of each place where there are some, or room for some.
#[derive(Drop)]
pub struct Lists {
    pub alloc: Global,
    pub by_place: HashMap<Place, Vec<(Rid, Box2)>>,
    // how many of the lists have no pairs
    pub empty: usize,
}

// Adds a pair to a list that has room for it, and tells whether it is the first.
fn push_on(list: &mut Vec<(Rid, Box2)>, id: Rid, area: Box2) -> bool
    requires { vec_len list.old + 1 ≤ vec_capacity list.old }
    ensures items { list.new.items ≡ list.old.items ++ (id, area) ∷ [] }
    ensures len { vec_len list.new ≡ vec_len list.old + 1 }
    ensures capacity { vec_capacity list.old ≤ vec_capacity list.new }
{
    let is_first = list.is_empty();
    match list.push((id, area)) {
        Ok(()) => is_first,
        Err(_) => unreachable!(),
    }
}

// Takes one such pair out of a list, where there is one, and tells whether it was the last.
fn take_from(list: &mut Vec<(Rid, Box2)>, id: Rid, area: Box2) -> bool
    ensures pairs { (p : Placed) → times p list.new.items
        ≡ times p list.old.items - one_if (is_pair p (id, area)) }
    ensures len { vec_len list.new ≤ vec_len list.old }
    ensures capacity { vec_capacity list.new ≡ vec_capacity list.old }
{
    match index_of(list.as_slice(), id, area) {
        Some(i) => {
            list.swap_remove(i);
            list.is_empty()
        }
        None => false,
    }
}

impl Lists {
    pub fn new(alloc: Global) -> Lists
        ensures { result.by_place.entries ≡ [] }
    {
        Lists {
            alloc,
            by_place: HashMap::new(alloc),
            empty: 0,
        }
    }

    // Begins the list of a place, with room for so many pairs.
    fn begin(&mut self, place: Place, more: usize) -> Mem<()>
        requires { get same_place self.old.by_place place ≡ None }
        ensures same { AreSame self.old self.new }
        ensures room { OnOk result (more ≤ spare_at self.new place) }
        ensures kept { IsRoomier self.old self.new }
    {
        let mut list = Vec::new(self.alloc);
        list.reserve(more)?;
        match self.by_place.insert(place, list) {
            Ok(_) => {
                self.empty = self.empty.saturating_add(1);
                Ok(())
            }
            Err(_) => Err(OutOfMemory),
        }
    }

    // Makes room for so many more pairs at a place.
    pub fn make_room(&mut self, place: Place, more: usize) -> Mem<()>
        ensures same { AreSame self.old self.new }
        ensures room { OnOk result (more ≤ spare_at self.new place) }
        ensures kept { IsRoomier self.old self.new }
    {
        match self.by_place.get_mut(&place) {
            Some(list) => Ok(list.reserve(more)?),
            None => self.begin(place, more),
        }
    }

    // Puts a pair at a place, where there is room for it.
    pub fn push(&mut self, place: Place, id: Rid, area: Box2)
        requires { 1 ≤ spare_at self.old place }
        ensures pairs { (q : ThePlace) → listed_at self.new q
            ≡ cond (same_place place q) (listed_at self.old q ++ (id, area) ∷ [])
            (listed_at self.old q) }
        ensures room { (q : ThePlace) → spare_at self.old q ≤ spare_at self.new q + one_if
            (same_place place q) }
    {
        if let Some(list) = self.by_place.get_mut(&place) {
            let is_first = push_on(list, id, area);
            if is_first {
                self.empty = self.empty.saturating_sub(1);
            }
        }
    }

    // Takes one such pair from a place, where there is one.
    pub fn take(&mut self, place: Place, id: Rid, area: Box2)
        ensures pairs { (q : ThePlace) (p : Placed)
            → times p (listed_at self.new q)
            ≡ times p (listed_at self.old q) - one_if (same_place place q && is_pair p (id, area)) }
        ensures room { IsRoomier self.old self.new }
    {
        if let Some(list) = self.by_place.get_mut(&place) {
            let was_last = take_from(list, id, area);
            if was_last {
                self.empty = self.empty.saturating_add(1);
            }
        }
    }

    // Forgets the places that have no pairs, where they are more than the others. What room they had is lost.
    pub fn sweep(&mut self)
        ensures { AreSame self.old self.new }
    {
        if self.empty > self.by_place.len() / 2 {
            self.by_place.retain(|_, list| !list.is_empty());
            self.empty = 0;
        }
    }

    // Finds the features of a place.
    pub fn collect(&self, place: Place, found: &mut Found) -> Mem<()>
        requires { AreMarked found.old.marks found.old.ids.items }
        ensures marked { OnOk result (AreMarked found.new.marks found.new.ids.items) }
        ensures finds { OnOk result (FindsAlso (listed_at self.now place) found.old.ids.items
            found.new.ids.items) }
    {
        match self.by_place.get(&place) {
            Some(list) => found.add_all(list.as_slice()),
            None => Ok(()),
        }
    }
}
