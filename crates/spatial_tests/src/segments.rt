//! Whether a segment meets a segment of a geometry, and whether any two of theirs meet.
ghost use Rattle.std.specs.Prelude.{◌≡◌};
ghost use Rattle.std.specs.List.{list_any};
ghost use Rattle.geom_core.specs.Rings.{edges, edges_from};
ghost use Rattle.spatial_tests.specs.Sharing.{segments_of, segments_of_area, meets_some, do_any_meet};

use geom_core::{Box2, Geometry, Polygon, Pos, Ring, bounds, segments_meet};

/// Whether the segment from `a` to `b` meets a segment of the geometry. Its bounds are compared
/// with the geometry's first.
pub fn meets_geometry(a: Pos, b: Pos, other: &Geometry) -> bool
    ensures { result ≡ meets_some (record { from = a; to = b }) (segments_of other.now) }
{
    if Box2::between(a, b).is_apart(&bounds(other)) {
        return false;
    }
    match other {
        Geometry::At(p) => segments_meet(a, b, *p, *p),
        Geometry::Along(line) => meets_path(a, b, line.item().positions()),
        Geometry::Over(area) => meets_rings(a, b, area.item()),
    }
}

/// Whether the segment from `a` to `b` meets an edge of a ring of the polygon.
fn meets_rings(a: Pos, b: Pos, area: &Polygon) -> bool
    ensures { result ≡ meets_some (record { from = a; to = b }) (segments_of_area area.now) }
{
    meets_path(a, b, area.shell().positions()) || meets_holes(a, b, area.holes())
}

/// Whether the segment from `a` to `b` meets an edge of one of the holes.
fn meets_holes(a: Pos, b: Pos, holes: &[Ring]) -> bool
    ensures { result ≡ list_any (λ hole. meets_some (record { from = a; to = b }) (edges hole))
        holes.now }
{
    holes.iter().any(|hole| meets_path(a, b, hole.positions()))
}

/// Whether the segment from `a` to `b` meets a segment of the path.
fn meets_path(a: Pos, b: Pos, path: &[Pos]) -> bool
    ensures { result ≡ meets_some (record { from = a; to = b }) (edges path.now) }
{
    if path.is_empty() {
        return false;
    }
    meets_path_from(a, b, path[0], &path[1..])
}

/// Whether the segment from `a` to `b` meets a segment of the path from `last` on.
fn meets_path_from(a: Pos, b: Pos, mut last: Pos, path: &[Pos]) -> bool
    ensures { result ≡ meets_some (record { from = a; to = b }) (edges_from last path.now) }
{
    for next in path {
        if segments_meet(a, b, last, *next) {
            return true;
        }
        last = *next;
    }
    false
}

/// Whether a segment of the one geometry meets a segment of the other.
pub fn do_any_meet(a: &Geometry, b: &Geometry) -> bool
    ensures { result ≡ do_any_meet (segments_of a.now) (segments_of b.now) }
{
    match a {
        Geometry::At(p) => meets_geometry(*p, *p, b),
        Geometry::Along(line) => does_path_meet(line.item().positions(), b),
        Geometry::Over(area) => do_rings_meet(area.item(), b),
    }
}

/// Whether an edge of a ring of the polygon meets a segment of the geometry.
fn do_rings_meet(area: &Polygon, other: &Geometry) -> bool
    ensures { result ≡ do_any_meet (segments_of_area area.now) (segments_of other.now) }
{
    does_path_meet(area.shell().positions(), other) || do_holes_meet(area.holes(), other)
}

/// Whether an edge of one of the holes meets a segment of the geometry.
fn do_holes_meet(holes: &[Ring], other: &Geometry) -> bool
    ensures { result ≡ list_any (λ hole. do_any_meet (edges hole) (segments_of other.now))
        holes.now }
{
    holes
        .iter()
        .any(|hole| does_path_meet(hole.positions(), other))
}

/// Whether a segment of the path meets a segment of the geometry.
fn does_path_meet(path: &[Pos], other: &Geometry) -> bool
    ensures { result ≡ do_any_meet (edges path.now) (segments_of other.now) }
{
    if path.is_empty() {
        return false;
    }
    does_path_from_meet(path[0], &path[1..], other)
}

/// Whether a segment of the path from `last` on meets a segment of the geometry.
fn does_path_from_meet(mut last: Pos, path: &[Pos], other: &Geometry) -> bool
    ensures { result ≡ do_any_meet (edges_from last path.now) (segments_of other.now) }
{
    for next in path {
        if meets_geometry(last, *next, other) {
            return true;
        }
        last = *next;
    }
    false
}
