//! Whether geometries share a position, and whether one shares a position with a box.
ghost use Rattle.std.specs.Prelude.{◌≡◌, not, slice_get};
ghost use Rattle.geom_core.specs.Extents.{is_covered, positions_of};
ghost use Rattle.spatial_tests.specs.Sharing.{do_intersect, do_meet_box, covers_first, is_in_box, is_in_width, is_in_height, is_first, sides, segments_of, do_any_meet};

use crate::segments::{do_any_meet, meets_geometry};
use geom_core::{Box2, Geometry, Pos, bounds, in_area};

/// Whether the geometries share a position: two of their segments meet, or the first vertex of one
/// lies in the area of the other. It does not matter which is named first.
pub fn intersects(a: &Geometry, b: &Geometry) -> bool
    ensures value { result ≡ do_intersect a.now b.now }
    ensures symmetric { result ≡ do_intersect b.now a.now }
{
    if bounds(a).is_apart(&bounds(b)) {
        return false;
    }
    do_share(a, b)
}

/// Whether the geometries share a position, without a look at their bounds.
#[tactic(auto, unfolding(crate::specs::Sharing::do_intersect))]
fn do_share(a: &Geometry, b: &Geometry) -> bool
    ensures { result ≡ do_intersect a.now b.now }
{
    do_any_meet(a, b) || (covers_first(a, b) || covers_first(b, a))
}

/// Whether the geometries share no position.
pub fn disjoint(a: &Geometry, b: &Geometry) -> bool
    ensures value { result ≡ not (do_intersect a.now b.now) }
    ensures symmetric { result ≡ not (do_intersect b.now a.now) }
{
    !intersects(a, b)
}

/// Whether the geometry shares a position with the box: a segment of it meets a side of the box,
/// or its first vertex lies in the box, or the box's low corner lies in its area.
#[tactic(auto, unfolding(crate::specs::Sharing::do_meet_box))]
pub fn meets_box(g: &Geometry, area: &Box2) -> bool
    ensures { result ≡ do_meet_box g.now area.now }
{
    let low = area.low;
    if bounds(g).is_apart(area) {
        return false;
    }
    meets_side(g, area) || (is_first_in_box(g, area) || covers(g, low))
}

/// Whether the first vertex of `b` lies in the area of `a`.
fn covers_first(a: &Geometry, b: &Geometry) -> bool
    ensures { result ≡ covers_first a.now b.now }
{
    covers(a, first(b))
}

/// Whether the position lies in the area of the geometry.
fn covers(g: &Geometry, p: Pos) -> bool
    ensures { result ≡ is_covered p g.now }
{
    match g {
        Geometry::At(_) | Geometry::Along(_) => false,
        Geometry::Over(area) => in_area(p, area.item()),
    }
}

/// The first vertex of the geometry.
fn first(g: &Geometry) -> Pos
    ensures { slice_get (positions_of g.now) 0 ≡ Some result }
{
    match g {
        Geometry::At(p) => *p,
        Geometry::Along(line) => line.item().first(),
        Geometry::Over(area) => area.item().shell().first(),
    }
}

/// Whether the first vertex of the geometry lies in the box.
fn is_first_in_box(g: &Geometry, area: &Box2) -> bool
    ensures { result ≡ is_first (λ p. is_in_box p area.now) (positions_of g.now) }
{
    is_in_box(first(g), area.low, area.high)
}

/// Whether the position lies between these corners of a box.
fn is_in_box(p: Pos, low: Pos, high: Pos) -> bool
    ensures { result ≡ is_in_box p (record { low = low; high = high }) }
{
    is_in_width(p, low, high) && is_in_height(p, low, high)
}

/// Whether the position lies between these corners by its x.
fn is_in_width(p: Pos, low: Pos, high: Pos) -> bool
    ensures { result ≡ is_in_width p (record { low = low; high = high }) }
{
    low.x <= p.x && p.x <= high.x
}

/// Whether the position lies between these corners by its y.
fn is_in_height(p: Pos, low: Pos, high: Pos) -> bool
    ensures { result ≡ is_in_height p (record { low = low; high = high }) }
{
    low.y <= p.y && p.y <= high.y
}

/// Whether a side of the box meets a segment of the geometry.
fn meets_side(g: &Geometry, area: &Box2) -> bool
    ensures { result ≡ do_any_meet (sides area.now) (segments_of g.now) }
{
    let right = corner(area.high, area.low);
    let left = corner(area.low, area.high);
    meets_geometry(area.low, right, g)
        || (meets_geometry(right, area.high, g)
            || (meets_geometry(area.high, left, g) || meets_geometry(left, area.low, g)))
}

/// The position at the x of one and the y of another.
fn corner(x_of: Pos, y_of: Pos) -> Pos
    ensures { result ≡ record { x = x_of.x; y = y_of.y } }
{
    Pos {
        x: x_of.x,
        y: y_of.y,
    }
}
