//! Positions in order beside their least box, which lines and rings are made of.
ghost use Rattle.std.specs.Prelude.{◌≡◌, ◌<◌, length, slice_get};
ghost use Rattle.geom_core.specs.Plane.{least_box};
ghost use Rattle.geom_core.specs.Extents.{IsLeastBox};

use crate::extent::least_box;
use crate::{Box2, Pos};
use std::marker::Model;

/// One or more positions in order, beside the least box that holds them: what a line and a ring
/// keep.
#[derive(Debug, Drop)]
pub struct Path {
    positions: Vec<Pos>,
    bounds: Box2,
}

impl Model for Path {
    ghost use Rattle.std.specs.Prelude.{List, ◌≡◌, ◌<◌, length};
    ghost use Rattle.geom_core.specs.Plane.{Point, least_box};

    ghost Value = { List Point };

    ghost view = { λ p. p.positions.items };

    ghost invariant = { λ p. (0 < length p.positions.items)
        × (p.bounds ≡ least_box p.positions.items) };
}

impl Path {
    /// The path through these positions, kept as given.
    pub fn new(positions: Vec<Pos>) -> Path
        requires { 0 < length positions.items }
        ensures { result ≡ positions.items }
    {
        let bounds = least_box(positions.as_slice());
        Path { positions, bounds }
    }

    /// The positions, in order.
    pub fn positions(&self) -> &[Pos]
        ensures { result.now ≡ self.now }
    {
        self.positions.as_slice()
    }

    /// The first position.
    pub fn first(&self) -> Pos
        ensures { slice_get self.now 0 ≡ Some result }
    {
        self.positions[0]
    }

    /// The least box that holds the path.
    pub fn bounds(&self) -> Box2
        ensures value { result ≡ least_box self.now }
        ensures least { IsLeastBox result self.now }
    {
        self.bounds
    }
}

impl PartialEq for Path {
    ghost use Rattle.std.specs.Cmp.Lexicographic.{pointwise};
    ghost use Rattle.std.proofs.Common.{rules};
    ghost use Rattle.std.specs.Cmp.Rules.{comparing};
    ghost use Rattle.geom_core.specs.Shapes.{same_point};

    ghost eq = { pointwise same_point };

    ghost laws = { Prim.search (comparing, rules) };

    fn eq(&self, other: &Path) -> bool {
        self.positions.as_slice() == other.positions.as_slice()
    }
}

impl Eq for Path {
    ghost use Rattle.std.proofs.Common.{rules};
    ghost use Rattle.std.specs.Cmp.Rules.{comparing};

    ghost laws = { Prim.search (comparing, rules) };
}
