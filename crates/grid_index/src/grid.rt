//! The grid: pairs of a feature and a box that it has, and what is near a box.

ghost use Rattle.std.specs.Prelude.{◌+◌, ◌≤◌, ◌++◌, ◌∷◌, [], All, IfOk, OnOk};
ghost use Rattle.grid_index.specs.Gridded.{pairs_at, room_at, IsGridOf, IsTakenOut, HasNoLessRoom};
ghost use Rattle.grid_index.specs.Near.{AreNear, IsMet};
ghost use Rattle.grid_index.specs.Places.{taking};
ghost use Rattle.grid_index.specs.Room.{IsSpare};

use crate::lists::Lists;
use crate::places::{put_in, take_out};
use crate::reserving::reserve;
use crate::search::{among_all, in_cells, is_for_all};
use feature_values::Rid;
use geom_core::Box2;
use std::alloc::Global;
use std::marker::Model;
use wfs_ends::{List, Mem};

/// Which features lie near a box. The plane is cut into cells, squares of side 65,536; a coordinate's cell is its
/// quotient by the side, rounded down. A box over more than 64 cells stands on the wide list, in no cell. Contracts
/// see the pairs of a feature and a box that stand at each place, in a cell or on the wide list, and for how many more
/// there is room there.
#[derive(Drop)]
pub struct Grid {
    lists: Lists,
}

impl Model for Grid {
    ghost use Rattle.grid_index.specs.Gridded.{Gridded};

    ghost Value = { Gridded };

    ghost use Rattle.grid_index.specs.Lists.{all_pairs, all_room};

    ghost view = { λ g. record { pairs = all_pairs g.lists; room = all_room g.lists } };
}

impl Grid {
    /// The grid with no pairs. It takes no memory.
    pub fn new(alloc: Global) -> Grid
        ensures { IsGridOf (pairs_at result) [] }
    {
        Grid {
            lists: Lists::new(alloc),
        }
    }

    /// Makes room to add these boxes. `OutOfMemory`: memory ran out, and the pairs are as before.
    pub fn reserve(&mut self, areas: &List<Box2>) -> Mem<()>
        ensures pairs { (pairs : _) → IsGridOf (pairs_at self.old) pairs
            → IsGridOf (pairs_at self.new) pairs }
        ensures spare { OnOk result (IsSpare areas.now self.new) }
        ensures room { HasNoLessRoom self.old.room self.new.room }
    {
        reserve(&mut self.lists, areas.items())
    }

    /// Adds a pair of a feature and a box that it has, for which there is room. It takes no memory.
    pub fn add(&mut self, id: Rid, area: Box2)
        requires { IsSpare (area ∷ []) self.old }
        ensures pairs { (pairs : _) → IsGridOf (pairs_at self.old) pairs
            → IsGridOf (pairs_at self.new) (pairs ++ (id, area) ∷ []) }
        ensures room { (place : _) → room_at self.old.room place ≤ room_at self.new.room place +
            taking place area }
    {
        put_in(&mut self.lists, id, area);
    }

    /// Takes out one such pair, where there is one.
    pub fn remove(&mut self, id: Rid, area: Box2)
        ensures pairs { (before after : _) → IsGridOf (pairs_at self.old)
            (before ++ (id, area) ∷ after) → IsGridOf (pairs_at self.new) (before ++ after) }
        ensures others { IsTakenOut (id, area) (pairs_at self.old) (pairs_at self.new) }
        ensures room { HasNoLessRoom self.old.room self.new.room }
    {
        take_out(&mut self.lists, id, area);
    }

    /// Forgets the places where no pair stands any more, if they are more than the others. Room may be lost there.
    pub fn sweep(&mut self)
        ensures { (pairs : _) → IsGridOf (pairs_at self.old) pairs
            → IsGridOf (pairs_at self.new) pairs }
    {
        self.lists.sweep();
    }

    /// The features near a box, each once: those with a box that shares a cell with it, and those on the wide list;
    /// for a box over more than 65,536 cells all features. `OutOfMemory`: memory ran out.
    pub fn near(&self, alloc: Global, area: &Box2) -> Mem<List<Rid>>
        ensures exact { IfOk result (λ ids. (pairs : _) → IsGridOf (pairs_at self.now) pairs
            → AreNear area.now pairs ids) }
        ensures meeting { IfOk result (λ ids. (pairs : _) → IsGridOf (pairs_at self.now) pairs
            → All (IsMet area.now ids) pairs) }
    {
        if is_for_all(self.lists.by_place.len(), area) {
            return Ok(List::of(among_all(alloc, &self.lists, area)?));
        }
        Ok(List::of(in_cells(alloc, &self.lists, area)?))
    }
}
