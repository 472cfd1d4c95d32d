//! What follows for lists of boxes that are spare.

ghost use Rattle.std.specs.Prelude.{◌+◌, ◌≤◌, ◌++◌, ◌∷◌, []};
ghost use Rattle.geom_core.specs.Plane.{Bounds};
ghost use Rattle.grid_index.specs.Gridded.{Gridded, room_at};
ghost use Rattle.grid_index.specs.Places.{taking};
ghost use Rattle.grid_index.specs.Room.{IsSpare};

/// A law: each box of a spare list is spare by itself.
pub fn spare_alone()
    ensures { (grid : Gridded) (before after : _) (area : Bounds)
        → IsSpare (before ++ area ∷ after) grid → IsSpare (area ∷ []) grid }
{}

/// A law: where a list is spare, `add` of a box of it leaves the list without that box once spare.
pub fn spare_without()
    ensures { (old new : Gridded) (before after : _) (area : Bounds)
        → ((place : _) → room_at old.room place ≤ room_at new.room place + taking place area)
        → IsSpare (before ++ area ∷ after) old → IsSpare (before ++ after) new }
{}
