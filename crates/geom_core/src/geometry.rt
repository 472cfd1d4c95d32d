//! The geometry of a feature, its bounds, and the positions that a polygon covers.
ghost use Rattle.std.specs.Prelude.{◌≡◌, IfOk, IsTrue};
ghost use Rattle.geom_core.specs.Rings.{is_in_area};
ghost use Rattle.geom_core.specs.Extents.{IsLeastBox, positions_of, bounds_of, is_covered};
ghost use Rattle.geom_core.specs.Plane.{Point, IsInBox};
ghost use Rattle.geom_core.specs.Places.{place_in_holes, area_holds};

use crate::placing::Place;
use crate::{Box2, Line, Polygon, Pos, Ring};
use wfs_ends::{Mem, Shared};

/// A geometry of a feature (GML 3.2, OGC 07-036, section 10): a point, a line string or a polygon.
#[derive(Debug, PartialEq, Eq, Drop)]
pub enum Geometry {
    /// A point.
    At(Pos),
    /// A line string.
    Along(Shared<Line>),
    /// A polygon.
    Over(Shared<Polygon>),
}

impl Geometry {
    /// An equal geometry, which shares its positions.
    pub fn copy(&self) -> Mem<Geometry>
        ensures { IfOk result (λ g. g ≡ self.now) }
    {
        match self {
            Geometry::At(p) => Ok(Geometry::At(*p)),
            Geometry::Along(line) => Ok(Geometry::Along(line.copy()?)),
            Geometry::Over(area) => Ok(Geometry::Over(area.copy()?)),
        }
    }
}

/// The least box that holds a geometry: each of its positions lies in the box, and each side of the
/// box is touched by one. A polygon's area lies in it too.
pub fn bounds(g: &Geometry) -> Box2
    ensures value { result ≡ bounds_of g.now }
    ensures least { IsLeastBox result (positions_of g.now) }
    ensures area { (p : Point) → IsTrue (is_covered p g.now) → IsInBox p result }
{
    match g {
        Geometry::At(p) => Box2::at(*p),
        Geometry::Along(line) => line.item().bounds(),
        Geometry::Over(area) => area.item().bounds(),
    }
}

/// Whether a position lies in a polygon's area: on an edge of one of its rings, or within its shell
/// and strictly within none of its holes.
pub fn in_area(p: Pos, area: &Polygon) -> bool
    ensures { result ≡ is_in_area p area.now }
{
    area_holds(area.shell().place(p), place_in_holes(p, area.holes()))
}

/// Whether an area holds a position with these places in the shell and in the holes.
fn area_holds(in_shell: Place, in_holes: Place) -> bool
    ensures { result ≡ area_holds in_shell in_holes }
{
    match in_shell {
        Place::On => true,
        Place::Within => match in_holes {
            Place::Within => false,
            Place::On | Place::Outside => true,
        },
        Place::Outside => match in_holes {
            Place::On => true,
            Place::Within | Place::Outside => false,
        },
    }
}

/// Where a position lies in the holes: on a ring of one, or else strictly within one, or in none.
fn place_in_holes(p: Pos, holes: &[Ring]) -> Place
    ensures { result ≡ place_in_holes p holes.now }
{
    let mut place = Place::Outside;
    for hole in holes {
        match hole.place(p) {
            Place::On => return Place::On,
            Place::Within => place = Place::Within,
            Place::Outside => {}
        }
    }
    place
}
