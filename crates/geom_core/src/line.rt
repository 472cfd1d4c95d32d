//! Line strings.
ghost use Rattle.std.specs.Prelude.{◌≡◌, slice_get, length};
ghost use Rattle.geom_core.specs.Shapes.{line_of, IsLine};
ghost use Rattle.geom_core.specs.Plane.{least_box};
ghost use Rattle.geom_core.specs.Extents.{IsLeastBox};

use crate::path::Path;
use crate::{Box2, GeomFault, MOST_POSITIONS, Pos};
use std::marker::Model;

/// A path of two to 10,000 positions, joined by straight segments.
#[derive(Debug, Drop)]
pub struct Line {
    path: Path,
}

impl Model for Line {
    ghost use Rattle.std.specs.Prelude.{List};
    ghost use Rattle.geom_core.specs.Plane.{Point};
    ghost use Rattle.geom_core.specs.Shapes.{IsLine};

    ghost Value = { List Point };

    ghost view = { λ l. l.path };

    ghost invariant = { λ l. IsLine l.path };
}

impl Line {
    /// The line through these positions, kept as given. `TooMany`: over 10,000; `TooFew`: fewer
    /// than two.
    pub fn new(positions: Vec<Pos>) -> Result<Line, GeomFault>
        ensures { result ≡ line_of positions.items }
    {
        if positions.len() > MOST_POSITIONS {
            return Err(GeomFault::TooMany);
        }
        if positions.len() < 2 {
            return Err(GeomFault::TooFew);
        }
        Ok(Line {
            path: Path::new(positions),
        })
    }

    /// The positions, in order.
    pub fn positions(&self) -> &[Pos]
        ensures { result.now ≡ self.now }
    {
        self.path.positions()
    }

    /// How many positions it has.
    pub fn count(&self) -> usize
        ensures value { result ≡ length self.now }
        ensures line { IsLine self.now }
    {
        self.path.positions().len()
    }

    /// The first position.
    pub fn first(&self) -> Pos
        ensures { slice_get self.now 0 ≡ Some result }
    {
        self.path.first()
    }

    /// The least box that holds the line.
    pub fn bounds(&self) -> Box2
        ensures value { result ≡ least_box self.now }
        ensures least { IsLeastBox result self.now }
    {
        self.path.bounds()
    }
}

impl PartialEq for Line {
    ghost use Rattle.std.specs.Cmp.Lexicographic.{pointwise};
    ghost use Rattle.std.proofs.Common.{rules};
    ghost use Rattle.std.specs.Cmp.Rules.{comparing};
    ghost use Rattle.geom_core.specs.Shapes.{same_point};

    ghost eq = { pointwise same_point };

    ghost laws = { Prim.search (comparing, rules) };

    fn eq(&self, other: &Line) -> bool {
        self.path == other.path
    }
}

impl Eq for Line {
    ghost use Rattle.std.proofs.Common.{rules};
    ghost use Rattle.std.specs.Cmp.Rules.{comparing};

    ghost laws = { Prim.search (comparing, rules) };
}
