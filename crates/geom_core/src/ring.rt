//! Closed rings.
ghost use Rattle.std.specs.Prelude.{◌≡◌, ◌<◌, ◌≤◌, length, slice_get, IsTrue};
ghost use Rattle.geom_core.specs.Shapes.{ring_of, is_closed, IsRing};
ghost use Rattle.geom_core.specs.Plane.{least_box};
ghost use Rattle.geom_core.specs.Extents.{IsLeastBox};
ghost use Rattle.geom_core.specs.Places.{place_of};
ghost use Rattle.geom_core.specs.Blocks.{AreBoxes};

use crate::blocks::{MOST_BLOCKS, boxes_of, place_by_boxes};
use crate::path::Path;
use crate::placing::{Place, place_in};
use crate::position::is_same;
use crate::{Box2, GeomFault, MOST_POSITIONS, Pos};
use std::marker::Model;

/// A closed path of four to 10,000 positions, the last of which is the first. It may cross itself.
#[derive(Debug, Drop)]
pub struct Ring {
    path: Path,
}

impl Model for Ring {
    ghost use Rattle.std.specs.Prelude.{List};
    ghost use Rattle.geom_core.specs.Plane.{Point};
    ghost use Rattle.geom_core.specs.Shapes.{IsRing};

    ghost Value = { List Point };

    ghost view = { λ r. r.path };

    ghost invariant = { λ r. IsRing r.path };
}

impl Ring {
    /// The ring through these positions, kept as given. `TooMany`: over 10,000; `TooFew`: fewer
    /// than four; `NotClosed`: the last is not the first.
    pub fn new(positions: Vec<Pos>) -> Result<Ring, GeomFault>
        ensures { result ≡ ring_of positions.items }
    {
        let all = positions.as_slice();
        if all.len() > MOST_POSITIONS {
            return Err(GeomFault::TooMany);
        }
        if all.len() < 4 {
            return Err(GeomFault::TooFew);
        }
        if !is_closed(all) {
            return Err(GeomFault::NotClosed);
        }
        Ok(Ring {
            path: Path::new(positions),
        })
    }

    /// The positions, in order.
    pub fn positions(&self) -> &[Pos]
        ensures { result.now ≡ self.now }
    {
        self.path.positions()
    }

    /// How many positions it has.
    pub fn count(&self) -> usize
        ensures value { result ≡ length self.now }
        ensures many { result ≤ 10_000 }
        ensures ring { IsRing self.now }
    {
        self.path.positions().len()
    }

    /// Where a position lies in the ring.
    pub fn place(&self, p: Pos) -> Place
        ensures { result ≡ place_of p self.now }
    {
        place_in(p, self.path.positions())
    }

    /// The least boxes of the blocks of its edges.
    pub(crate) fn boxes(&self) -> [Box2; MOST_BLOCKS]
        ensures { AreBoxes result self.now }
    {
        boxes_of(self.path.positions())
    }

    /// Where a position lies in the ring, by the boxes of its blocks.
    pub(crate) fn place_by(&self, p: Pos, boxes: &[Box2; MOST_BLOCKS]) -> Place
        requires { AreBoxes boxes.now self.now }
        ensures { result ≡ place_of p self.now }
    {
        place_by_boxes(p, self.path.positions(), boxes)
    }

    /// The first position.
    pub fn first(&self) -> Pos
        ensures { slice_get self.now 0 ≡ Some result }
    {
        self.path.first()
    }

    /// The least box that holds the ring.
    pub fn bounds(&self) -> Box2
        ensures value { result ≡ least_box self.now }
        ensures least { IsLeastBox result self.now }
        ensures closed { IsTrue (is_closed self.now) }
        ensures some { 0 < length self.now }
    {
        self.path.bounds()
    }
}

/// Whether the last of these positions is the first.
fn is_closed(positions: &[Pos]) -> bool
    requires { 0 < length positions.now }
    ensures { result ≡ is_closed positions.now }
{
    is_same(positions[0], positions[positions.len() - 1])
}

impl PartialEq for Ring {
    ghost use Rattle.std.specs.Cmp.Lexicographic.{pointwise};
    ghost use Rattle.std.proofs.Common.{rules};
    ghost use Rattle.std.specs.Cmp.Rules.{comparing};
    ghost use Rattle.geom_core.specs.Shapes.{same_point};

    ghost eq = { pointwise same_point };

    ghost laws = { Prim.search (comparing, rules) };

    fn eq(&self, other: &Ring) -> bool {
        self.path == other.path
    }
}

impl Eq for Ring {
    ghost use Rattle.std.proofs.Common.{rules};
    ghost use Rattle.std.specs.Cmp.Rules.{comparing};

    ghost laws = { Prim.search (comparing, rules) };
}
