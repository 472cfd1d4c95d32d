//! Room for boxes: how many of them take each place is counted first.

ghost use Rattle.std.specs.Prelude.{◌≡◌, ◌+◌, ◌≤◌, IfOk, OnOk};
ghost use Rattle.std.specs.List.{sum_by};
ghost use Rattle.std.specs.HashMap.{get};
ghost use Rattle.grid_index.specs.Counts.{one_if};
ghost use Rattle.grid_index.specs.Lists.{spare_at, AreSame, IsRoomier, count_in};
ghost use Rattle.grid_index.specs.Places.{Place as ThePlace, same_place, taking};

use crate::cells;
use crate::lists::{Lists, Place};
use crate::places::place_at;
use geom_core::Box2;
use std::alloc::Global;
use std::collections::HashMap;
use wfs_ends::{Mem, OutOfMemory};

// Counts a place once more.
fn count_one(counts: &mut HashMap<Place, usize>, place: Place) -> Mem<()>
    ensures { OnOk result ((q : ThePlace) → count_in counts.new q
        ≡ count_in counts.old q + one_if (same_place place q)) }
{
    let count = counts.get(&place).copied().unwrap_or(0);
    let Some(more) = count.checked_add(1) else {
        return Err(OutOfMemory);
    };
    match counts.insert(place, more) {
        Ok(_) => Ok(()),
        Err(_) => Err(OutOfMemory),
    }
}

// Counts each place that a box takes.
fn count_box(counts: &mut HashMap<Place, usize>, area: &Box2) -> Mem<()>
    ensures { OnOk result ((q : ThePlace) → count_in counts.new q
        ≡ count_in counts.old q + taking q area.now) }
{
    for i in 0..cells::places(area) {
        count_one(counts, place_at(area, i))?;
    }
    Ok(())
}

// How many of some boxes take each place.
fn counts_of(alloc: Global, areas: &[Box2]) -> Mem<HashMap<Place, usize>>
    ensures { IfOk result (λ counts. (q : ThePlace)
        → count_in counts q ≡ sum_by (taking q) areas.now) }
{
    let mut counts = HashMap::new(alloc);
    for area in areas {
        count_box(&mut counts, area)?;
    }
    Ok(counts)
}

// Makes room for a box.
fn reserve_one(lists: &mut Lists, area: &Box2) -> Mem<()>
    ensures same { AreSame lists.old lists.new }
    ensures kept { IsRoomier lists.old lists.new }
    ensures room { OnOk result ((q : ThePlace) → taking q area.now ≤ spare_at lists.new q) }
{
    for i in 0..cells::places(area) {
        lists.make_room(place_at(area, i), 1)?;
    }
    Ok(())
}

// Makes room for as many pairs at each place as are counted there.
fn reserve_counts(lists: &mut Lists, counts: &HashMap<Place, usize>) -> Mem<()>
    ensures same { AreSame lists.old lists.new }
    ensures kept { IsRoomier lists.old lists.new }
    ensures room { OnOk result ((q : ThePlace) → count_in counts.now q ≤ spare_at lists.new q) }
{
    for (place, count) in counts.iter() {
        lists.make_room(*place, *count)?;
    }
    Ok(())
}

// Makes room for boxes.
pub fn reserve(lists: &mut Lists, areas: &[Box2]) -> Mem<()>
    ensures same { AreSame lists.old lists.new }
    ensures kept { IsRoomier lists.old lists.new }
    ensures room { OnOk result ((q : ThePlace)
        → sum_by (taking q) areas.now ≤ spare_at lists.new q) }
{
    if areas.len() == 1 {
        return reserve_one(lists, &areas[0]);
    }
    let counts = counts_of(lists.alloc, areas)?;
    reserve_counts(lists, &counts)
}
