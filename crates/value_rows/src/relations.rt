//! Pairs of shapes, and whether they share a position, worked out by hand.

use crate::places::{FAR, Place, at, path, sides, square};
use geom_core::{Box2, GeomFault, Geometry, Line, Polygon, Ring, in_area, segments_meet};
use spatial_tests::{disjoint, intersects, meets_box};
use std::alloc::Global;
use wfs_ends::{Mem, Shared};

/// A shape of the table.
#[derive(Clone, Copy)]
enum Sketch {
    At(Place),
    Along(Place, Place),
    /// A box by its low and its high corner.
    Between(Place, Place),
    /// The line from the origin to the field's far corner, and that along the last x.
    Rising,
    Way,
    Field,
    /// The field with a small hole, and with a large one.
    Gapped,
    Pitted,
    Isle,
    Diamond,
    Star,
    Bow,
}

use Sketch::{Along, At, Between, Bow, Diamond, Field, Gapped, Isle, Pitted, Rising, Star, Way};

/// Two shapes, and whether they share a position.
static ROWS: [(&str, Sketch, Sketch, bool); 57] = [
    ("crossing", Rising, Along((0, 10), (10, 0)), true),
    ("end on end", Rising, Along((10, 10), (19, 0)), true),
    ("end on side", Rising, Along((5, 5), (5, 9)), true),
    ("collinear, apart", Rising, Along((11, 11), (19, 19)), false),
    (
        "collinear, end on end",
        Rising,
        Along((10, 10), (19, 19)),
        true,
    ),
    ("overlapping", Rising, Along((5, 5), (19, 19)), true),
    ("overlapping whole", Rising, Along((3, 3), (5, 5)), true),
    ("parallel", Rising, Along((0, 1), (9, 10)), false),
    ("bounds meet alone", Rising, Along((6, 5), (10, 0)), false),
    ("disjoint", Rising, Along((20, 0), (30, 10)), false),
    ("point on a line", Rising, At((4, 4)), true),
    ("point beside a line", Rising, At((4, 5)), false),
    ("point beyond a line", Rising, At((11, 11)), false),
    ("same point", At((4, 4)), At((4, 4)), true),
    ("two points", At((4, 4)), At((4, 5)), false),
    (
        "far edges, crossing",
        Along((-FAR, -FAR), (FAR, FAR)),
        Along((-FAR, FAR), (FAR, -FAR)),
        true,
    ),
    (
        "far edges, near miss",
        Along((-FAR, -FAR), (FAR, FAR - 1)),
        At((0, 0)),
        false,
    ),
    ("way, box on it", Way, Between((FAR, 5), (FAR, 5)), true),
    (
        "way, box beside it",
        Way,
        Between((FAR - 1, 5), (FAR - 1, 5)),
        false,
    ),
    (
        "way, box over all",
        Way,
        Between((-FAR, -FAR), (FAR, FAR)),
        true,
    ),
    ("box at a corner", Gapped, Between((10, 10), (12, 12)), true),
    ("box in a hole", Gapped, Between((3, 3), (3, 3)), false),
    ("box of a hole", Gapped, Between((2, 2), (4, 4)), true),
    (
        "box round a field",
        Gapped,
        Between((-5, -5), (20, 20)),
        true,
    ),
    ("box within a field", Gapped, Between((5, 5), (6, 6)), true),
    (
        "box beside a field",
        Gapped,
        Between((11, 0), (12, 10)),
        false,
    ),
    (
        "through a box's right side",
        Along((15, 5), (5, 5)),
        Between((0, 0), (10, 10)),
        true,
    ),
    (
        "through its top",
        Along((5, 15), (5, 5)),
        Between((0, 0), (10, 10)),
        true,
    ),
    (
        "through its left side",
        Along((-5, 5), (5, 5)),
        Between((0, 0), (10, 10)),
        true,
    ),
    (
        "through its foot",
        Along((5, -5), (5, 5)),
        Between((0, 0), (10, 10)),
        true,
    ),
    (
        "from above a box, past it",
        Along((5, 30), (30, 0)),
        Between((0, 0), (10, 10)),
        false,
    ),
    (
        "from beside a box, past it",
        Along((30, 5), (0, 30)),
        Between((0, 0), (10, 10)),
        false,
    ),
    ("in a hole", Gapped, At((3, 3)), false),
    ("on a hole's ring", Gapped, At((2, 3)), true),
    ("hole's corner", Gapped, At((4, 4)), true),
    ("hole's corners on ray", Gapped, At((1, 2)), true),
    ("past a hole", Gapped, At((5, 3)), true),
    ("field's corner", Gapped, At((10, 10)), true),
    ("field's edge", Gapped, At((5, 0)), true),
    ("beside the field", Gapped, At((11, 5)), false),
    ("before the field", Gapped, At((-1, 2)), false),
    (
        "line ends on a corner",
        Field,
        Along((20, 20), (10, 10)),
        true,
    ),
    (
        "line passes a corner",
        Field,
        Along((11, 9), (9, 12)),
        false,
    ),
    ("line within", Field, Along((3, 3), (4, 6)), true),
    ("polygon within", Field, Isle, true),
    ("polygon in a hole", Pitted, Isle, false),
    ("point in a hole", Pitted, At((5, 5)), false),
    ("line to a hole's ring", Pitted, Along((5, 5), (8, 5)), true),
    ("two corners on ray", Diamond, At((-1, 0)), false),
    ("one corner on ray", Diamond, At((5, 0)), true),
    ("top on ray", Diamond, At((-1, 5)), false),
    ("foot on ray", Diamond, At((-1, -5)), false),
    ("star, its middle", Star, At((0, 0)), false),
    ("star, its top", Star, At((0, 8)), true),
    ("bow, within", Bow, At((9, 5)), true),
    ("bow, between its halves", Bow, At((5, 1)), false),
    ("bow, its knot", Bow, At((5, 5)), true),
];

/// The line between two places.
fn line(alloc: Global, from: Place, to: Place) -> Mem<Option<Geometry>> {
    match Line::new(path(alloc, &[from, to])?) {
        Ok(line) => Ok(Some(Geometry::Along(Shared::new(alloc, line)?))),
        Err(_) => Ok(None),
    }
}

/// The polygon of a shell and, if it has places, a hole.
fn polygon(alloc: Global, shell: &[Place], hole: &[Place]) -> Mem<Option<Geometry>> {
    let mut holes = Vec::new(alloc);
    if let Ok(ring) = Ring::new(path(alloc, hole)?) {
        holes.push(ring)?;
    }
    match Ring::new(path(alloc, shell)?) {
        Ok(shell) => over(alloc, Polygon::new(shell, holes)),
        Err(_) => Ok(None),
    }
}

/// The geometry of a polygon that is none or one.
fn over(alloc: Global, area: Result<Polygon, GeomFault>) -> Mem<Option<Geometry>> {
    match area {
        Ok(area) => Ok(Some(Geometry::Over(Shared::new(alloc, area)?))),
        Err(_) => Ok(None),
    }
}

/// The sketched shape; of a box the polygon of its sides.
fn shape(alloc: Global, sketch: Sketch) -> Mem<Option<Geometry>> {
    match sketch {
        At(place) => Ok(at(place).map(|p| Geometry::At(p))),
        Along(from, to) => line(alloc, from, to),
        Rising => line(alloc, (0, 0), (10, 10)),
        Way => line(alloc, (FAR, 0), (FAR, FAR)),
        Between(low, high) => polygon(alloc, &sides(low, high), &[]),
        Field => polygon(alloc, &square(0, 10), &[]),
        Gapped => polygon(alloc, &square(0, 10), &square(2, 4)),
        Pitted => polygon(alloc, &square(0, 10), &square(2, 8)),
        Isle => polygon(alloc, &square(4, 6), &[]),
        Diamond => polygon(alloc, &[(0, 0), (5, -5), (10, 0), (5, 5), (0, 0)], &[]),
        Star => polygon(
            alloc,
            &[(0, 10), (6, -8), (-10, 3), (10, 3), (-6, -8), (0, 10)],
            &[],
        ),
        Bow => polygon(alloc, &[(0, 0), (10, 10), (10, 0), (0, 10), (0, 0)], &[]),
    }
}

/// What the narrower tests say of a pair that they speak of.
fn narrow(a: &Geometry, b: &Geometry, other: Sketch) -> Option<bool> {
    if let Between(low, high) = other {
        let area = Box2::new(at(low)?, at(high)?).ok()?;
        return Some(meets_box(a, &area));
    }
    match (a, b) {
        (Geometry::Over(area), Geometry::At(p)) => Some(in_area(*p, area.item())),
        (Geometry::Along(first), Geometry::Along(second)) => {
            match (first.item().positions(), second.item().positions()) {
                ([a, b], [c, d]) => Some(segments_meet(*a, *b, *c, *d)),
                _ => None,
            }
        }
        _ => None,
    }
}

/// Whether the shapes share a position, where all that is asked says the same.
fn share(alloc: Global, one: Sketch, other: Sketch) -> Mem<Option<bool>> {
    match (shape(alloc, one)?, shape(alloc, other)?) {
        (Some(a), Some(b)) => {
            let shared = intersects(&a, &b);
            let agree = intersects(&b, &a) == shared
                && disjoint(&a, &b) != shared
                && disjoint(&b, &a) != shared
                && narrow(&a, &b, other).unwrap_or(shared) == shared;
            Ok(if agree { Some(shared) } else { None })
        }
        _ => Ok(None),
    }
}

/// The first row of the table that does not hold.
fn first_wrong(alloc: Global) -> Mem<Option<&'static str>> {
    for (name, one, other, want) in &ROWS {
        if share(alloc, *one, *other)? != Some(*want) {
            return Ok(Some(*name));
        }
    }
    Ok(None)
}

#[test]
fn shapes_by_table(rt: HostRuntime) {
    assert_eq!(rt; first_wrong(rt.alloc()), Ok(None));
}
