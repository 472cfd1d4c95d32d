//! The places that a box takes, and those where pairs near a box are asked for.

ghost use Rattle.std.specs.Prelude.{◌≡◌, ◌+◌, ◌-◌, ◌<◌, ◌≤◌, ◌&&◌, ◌++◌, ◌∷◌, [], OnOk, cond};
ghost use Rattle.geom_core.specs.Plane.{IsUpright};
ghost use Rattle.grid_index.specs.Counts.{one_if, is_pair, times};
ghost use Rattle.grid_index.specs.Found.{AreMarked, FindsAsked};
ghost use Rattle.grid_index.specs.Lists.{listed_at, spare_at, IsRoomier};
ghost use Rattle.grid_index.specs.Near.{Placed};
ghost use Rattle.grid_index.specs.Places.{Place as ThePlace, takes, taking, place_at};
ghost use Rattle.grid_index.specs.Room.{places};

use crate::cells;
use crate::found::Found;
use crate::lists::{Lists, Place};
use feature_values::Rid;
use geom_core::Box2;
use wfs_ends::Mem;

// The place of a number among those that a box takes.
#[tactic(auto, unfolding(crate::specs::Room::places))]
pub fn place_at(area: &Box2, i: usize) -> Place
    requires { i < places area.now }
    ensures { result ≡ place_at area.now i }
{
    if cells::is_wide(area) {
        None
    } else {
        Some(cells::cell_at(area, i))
    }
}

// Puts a pair at each of its places, where there is room for it.
pub fn put_in(lists: &mut Lists, id: Rid, area: Box2)
    requires { (q : ThePlace) → taking q area ≤ spare_at lists.old q }
    ensures pairs { (q : ThePlace) → listed_at lists.new q
        ≡ cond (takes area q) (listed_at lists.old q ++ (id, area) ∷ []) (listed_at lists.old q) }
    ensures room { (q : ThePlace) → spare_at lists.old q ≤ spare_at lists.new q + taking q area }
    ensures upright { IsUpright area }
{
    for i in 0..cells::places(&area) {
        lists.push(place_at(&area, i), id, area);
    }
}

// Takes one such pair from each of its places, where there is one.
pub fn take_out(lists: &mut Lists, id: Rid, area: Box2)
    ensures pairs { (q : ThePlace) (p : Placed)
        → times p (listed_at lists.new q)
        ≡ times p (listed_at lists.old q) - one_if (takes area q && is_pair p (id, area)) }
    ensures room { IsRoomier lists.old lists.new }
{
    for i in 0..cells::places(&area) {
        lists.take(place_at(&area, i), id, area);
    }
}

// Finds the features on the wide list and in the cells of a box.
pub fn collect_near(lists: &Lists, asked: &Box2, found: &mut Found) -> Mem<()>
    requires marked { AreMarked found.old.marks found.old.ids.items }
    requires none { found.old.ids.items ≡ [] }
    ensures marked { OnOk result (AreMarked found.new.marks found.new.ids.items) }
    ensures finds { OnOk result (FindsAsked (listed_at lists.now) asked.now found.new.ids.items) }
{
    lists.collect(None, found)?;
    for i in 0..cells::cell_count(asked) {
        lists.collect(Some(cells::cell_at(asked, i)), found)?;
    }
    Ok(())
}
