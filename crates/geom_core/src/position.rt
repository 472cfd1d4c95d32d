//! Positions with bounded coordinates, and the limits of shapes.
ghost use Rattle.std.specs.Prelude.{◌≡◌};
ghost use Rattle.geom_core.specs.Shapes.{position_of, same_point};

use crate::GeomFault;
use std::marker::Model;

/// A position in the plane, in whole units of the service's reference system: each coordinate
/// lies from -1,000,000,000 to 1,000,000,000.
#[derive(Clone, Copy, Debug, PartialEq, Eq)]
pub struct Pos {
    pub x: i32,
    pub y: i32,
}

impl Model for Pos {
    ghost use Rattle.geom_core.specs.Plane.{Point, IsPosition};

    ghost Value = { Point };

    ghost view = { λ p. record { x = p.x; y = p.y } };

    ghost inverse = { λ p. record { x = p.x; y = p.y } };

    ghost invariant = { λ p. IsPosition (record { x = p.x; y = p.y }) };
}

/// The greatest magnitude of a coordinate.
pub const FARTHEST: i64 = 1_000_000_000;

/// The greatest number of positions of a line, a ring or a polygon in all.
pub const MOST_POSITIONS: usize = 10_000;

impl Pos {
    /// The position at these coordinates. `OutOfRange`: one of them is beyond 1,000,000,000
    /// in magnitude.
    pub fn new(x: i64, y: i64) -> Result<Pos, GeomFault>
        ensures { result ≡ position_of x y }
    {
        if x < -FARTHEST || x > FARTHEST || y < -FARTHEST || y > FARTHEST {
            return Err(GeomFault::OutOfRange);
        }
        Ok(Pos {
            x: x as i32,
            y: y as i32,
        })
    }
}

/// Whether two positions are the same.
pub fn is_same(a: Pos, b: Pos) -> bool
    ensures { result ≡ same_point a b }
{
    a == b
}
