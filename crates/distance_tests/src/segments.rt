//! Whether a segment is near one of a geometry, and whether any two of theirs are near.
ghost use Rattle.std.specs.Prelude.{◌≡◌, ◌≤◌};
ghost use Rattle.std.specs.List.{list_any};
ghost use Rattle.geom_core.specs.Rings.{edges, edges_from};
ghost use Rattle.spatial_tests.specs.Sharing.{segments_of, segments_of_area};
ghost use Rattle.distance_tests.specs.Gaps.{reach_of};
ghost use Rattle.distance_tests.specs.Within.{are_near, near_some, are_any_near};

use crate::gaps::{Reach, are_farther};
use crate::near::are_near;
use geom_core::{Box2, Geometry, Polygon, Pos, Ring, bounds};

/// Whether the segment from `a` to `b` is near a segment of the geometry. Its bounds are compared with
/// the geometry's first.
fn is_near_geometry(a: Pos, b: Pos, other: &Geometry, d: u64) -> bool
    requires { d ≤ 4_000_000_000 }
    ensures { result ≡ near_some d (record { from = a; to = b }) (segments_of other.now) }
{
    if are_farther(&Box2::between(a, b), &bounds(other), d) {
        return false;
    }
    match other {
        Geometry::At(p) => are_near(a, b, *p, *p, d),
        Geometry::Along(line) => is_near_path(a, b, line.item().positions(), d),
        Geometry::Over(area) => is_near_rings(a, b, area.item(), d),
    }
}

/// Whether the segment from `a` to `b` is near an edge of a ring of the polygon.
fn is_near_rings(a: Pos, b: Pos, area: &Polygon, d: u64) -> bool
    requires { d ≤ 4_000_000_000 }
    ensures { result ≡ near_some d (record { from = a; to = b }) (segments_of_area area.now) }
{
    is_near_path(a, b, area.shell().positions(), d) || is_near_holes(a, b, area.holes(), d)
}

/// Whether the segment from `a` to `b` is near an edge of one of the holes.
fn is_near_holes(a: Pos, b: Pos, holes: &[Ring], d: u64) -> bool
    requires { d ≤ 4_000_000_000 }
    ensures { result ≡ list_any (λ hole. near_some d (record { from = a; to = b }) (edges hole))
        holes.now }
{
    holes
        .iter()
        .any(|hole| is_near_path(a, b, hole.positions(), d))
}

/// Whether the segment from `a` to `b` is near a segment of the path.
fn is_near_path(a: Pos, b: Pos, path: &[Pos], d: u64) -> bool
    requires { d ≤ 4_000_000_000 }
    ensures { result ≡ near_some d (record { from = a; to = b }) (edges path.now) }
{
    if path.is_empty() {
        return false;
    }
    is_near_path_from(a, b, path[0], &path[1..], d)
}

/// Whether an end of one of the segments from `a` to `b` and from `e` to `f` is near the other, by what the first
/// reaches at first.
fn are_reached_near(reach: &Reach, a: Pos, b: Pos, e: Pos, f: Pos, d: u64) -> bool
    requires reach { reach.now ≡ reach_of d (record { from = a; to = b }) }
    requires d { d ≤ 4_000_000_000 }
    ensures { result ≡ are_near d (record { from = a; to = b }) (record { from = e; to = f }) }
{
    if reach.is_short_of(e, f) {
        return false;
    }
    are_near(a, b, e, f, d)
}

/// Whether the segment from `a` to `b` is near a segment of the path from `last` on.
fn is_near_path_from(a: Pos, b: Pos, mut last: Pos, path: &[Pos], d: u64) -> bool
    requires { d ≤ 4_000_000_000 }
    ensures { result ≡ near_some d (record { from = a; to = b }) (edges_from last path.now) }
{
    let reach = Reach::of(a, b, d);
    for next in path {
        if are_reached_near(&reach, a, b, last, *next, d) {
            return true;
        }
        last = *next;
    }
    false
}

/// Whether a segment of the one geometry is near a segment of the other.
pub fn are_any_near(a: &Geometry, b: &Geometry, d: u64) -> bool
    requires { d ≤ 4_000_000_000 }
    ensures { result ≡ are_any_near d (segments_of a.now) (segments_of b.now) }
{
    match a {
        Geometry::At(p) => is_near_geometry(*p, *p, b, d),
        Geometry::Along(line) => is_path_near(line.item().positions(), b, d),
        Geometry::Over(area) => are_rings_near(area.item(), b, d),
    }
}

/// Whether an edge of a ring of the polygon is near a segment of the geometry.
fn are_rings_near(area: &Polygon, other: &Geometry, d: u64) -> bool
    requires { d ≤ 4_000_000_000 }
    ensures { result ≡ are_any_near d (segments_of_area area.now) (segments_of other.now) }
{
    is_path_near(area.shell().positions(), other, d) || are_holes_near(area.holes(), other, d)
}

/// Whether an edge of one of the holes is near a segment of the geometry.
fn are_holes_near(holes: &[Ring], other: &Geometry, d: u64) -> bool
    requires { d ≤ 4_000_000_000 }
    ensures { result ≡ list_any (λ hole. are_any_near d (edges hole) (segments_of other.now))
        holes.now }
{
    holes
        .iter()
        .any(|hole| is_path_near(hole.positions(), other, d))
}

/// Whether a segment of the path is near a segment of the geometry.
fn is_path_near(path: &[Pos], other: &Geometry, d: u64) -> bool
    requires { d ≤ 4_000_000_000 }
    ensures { result ≡ are_any_near d (edges path.now) (segments_of other.now) }
{
    if path.is_empty() {
        return false;
    }
    is_path_from_near(path[0], &path[1..], other, d)
}

/// Whether a segment of the path from `last` on is near a segment of the geometry.
fn is_path_from_near(mut last: Pos, path: &[Pos], other: &Geometry, d: u64) -> bool
    requires { d ≤ 4_000_000_000 }
    ensures { result ≡ are_any_near d (edges_from last path.now) (segments_of other.now) }
{
    for next in path {
        if is_near_geometry(last, *next, other, d) {
            return true;
        }
        last = *next;
    }
    false
}
