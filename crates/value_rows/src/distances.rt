//! Pairs of shapes, and the least whole distance within which they lie. The distances were worked out by exact
//! fractions: 0 where they share a position, or else the least, over pairs of segments, of the way from an end
//! of one to the place on the other that the end's perpendicular, cut off at the ends, falls on.

use crate::places::{FAR, Place, at, path, sides, square};
use distance_tests::{FARTHEST_DISTANCE, within_distance};
use geom_core::{Geometry, Line, Polygon, Ring};
use std::alloc::Global;
use std::test::Fail;
use wfs_ends::{Mem, Shared};

/// A shape of the table.
#[derive(Clone, Copy)]
enum Sketch {
    At(Place),
    Along(Place, Place),
    /// A box by its low and its high corner.
    Between(Place, Place),
    /// A slope, and a line that turns once.
    Rising,
    Bent,
    Field,
    /// A field with one hole, one with two, and what lies in the one.
    Pitted,
    Twin,
    Isle,
    Diamond,
    /// A ring that crosses itself.
    Bow,
}

use Sketch::{Along, At, Bent, Between, Bow, Diamond, Field, Isle, Pitted, Rising, Twin};

/// Two shapes, and the least whole distance within which they lie.
static ROWS: [(&str, Sketch, Sketch, u64); 47] = [
    ("before a line", At((0, 0)), Along((3, 4), (10, 4)), 5),
    ("beside a slope", At((0, 0)), Along((0, 5), (5, 0)), 4),
    (
        "the far corners",
        At((-FAR, -FAR)),
        At((FAR, FAR)),
        2_828_427_125,
    ),
    (
        "far edges",
        Along((-FAR, -FAR), (FAR, -FAR)),
        Along((-FAR, FAR), (FAR, FAR)),
        2_000_000_000,
    ),
    (
        "far corner and slope",
        At((FAR, FAR)),
        Along((-FAR, FAR), (FAR, -FAR)),
        1_414_213_563,
    ),
    ("same point", At((4, 4)), At((4, 4)), 0),
    ("two points", At((4, 4)), At((4, 5)), 1),
    ("points by 3 and 4", At((1, 1)), At((4, 5)), 5),
    ("points by 1 and 1", At((1, 1)), At((2, 2)), 2),
    ("on a line", At((4, 4)), Rising, 0),
    ("beside a line", At((4, 5)), Rising, 1),
    ("behind a line", At((13, 14)), Rising, 5),
    ("level with an end", At((10, -7)), Along((0, 0), (10, 0)), 7),
    ("past an end", At((13, -4)), Along((0, 0), (10, 0)), 5),
    ("over the middle", At((5, 9)), Along((0, 0), (10, 0)), 9),
    (
        "line far off its end",
        At((100, 0)),
        Along((0, 0), (10, 0)),
        90,
    ),
    ("line of no length", Along((3, 4), (3, 4)), At((0, 0)), 5),
    ("crossing", Rising, Along((0, 10), (10, 0)), 0),
    ("touching by an end", Rising, Along((10, 10), (19, 0)), 0),
    ("touching by a side", Rising, Along((5, 5), (5, 9)), 0),
    ("parallel", Along((0, 0), (10, 0)), Along((2, 3), (8, 3)), 3),
    ("parallel, slanting", Rising, Along((0, 1), (9, 10)), 1),
    ("in one line, apart", Rising, Along((13, 14), (19, 20)), 5),
    (
        "the other's end",
        Along((5, 3), (5, 8)),
        Along((0, 0), (10, 0)),
        3,
    ),
    (
        "one's end",
        Along((0, 0), (10, 0)),
        Along((5, 3), (5, 8)),
        3,
    ),
    ("bent, second edge", At((15, 5)), Bent, 5),
    ("bent, in its elbow", At((7, 3)), Bent, 3),
    ("bounds meet alone", Rising, Along((6, 3), (10, 0)), 3),
    ("in a field", At((5, 5)), Field, 0),
    ("on its edge", At((5, 0)), Field, 0),
    ("off its corner", At((13, 14)), Field, 5),
    ("off its side", At((-6, 5)), Field, 6),
    ("line in a field", Along((3, 3), (4, 6)), Field, 0),
    ("fields apart", Field, Between((13, 14), (20, 20)), 5),
    ("fields side by side", Field, Between((12, 2), (15, 8)), 2),
    ("fields touching", Field, Between((10, 10), (20, 20)), 0),
    ("in a hole", At((10, 10)), Pitted, 6),
    ("in a hole, near its side", At((6, 9)), Pitted, 2),
    ("isle in a hole", Isle, Pitted, 5),
    ("line in a hole", Along((7, 8), (13, 8)), Pitted, 3),
    ("line out of a hole", Along((10, 10), (30, 10)), Pitted, 0),
    ("in the second hole", At((27, 10)), Twin, 3),
    ("isle in the first hole", Isle, Twin, 5),
    ("beside a diamond", At((10, 5)), Diamond, 4),
    ("in a diamond", At((5, 0)), Diamond, 0),
    ("between a bow's halves", At((5, 1)), Bow, 3),
    ("in a bow", At((9, 5)), Bow, 0),
];

/// The line through some places.
fn line(alloc: Global, places: &[Place]) -> Mem<Option<Geometry>> {
    match Line::new(path(alloc, places)?) {
        Ok(line) => Ok(Some(Geometry::Along(Shared::new(alloc, line)?))),
        Err(_) => Ok(None),
    }
}

/// The polygon of a shell and of the holes that have places.
fn polygon(alloc: Global, shell: &[Place], holes: &[[Place; 5]]) -> Mem<Option<Geometry>> {
    let mut rings = Vec::new(alloc);
    for hole in holes {
        if let Ok(ring) = Ring::new(path(alloc, hole)?) {
            rings.push(ring)?;
        }
    }
    match Ring::new(path(alloc, shell)?) {
        Ok(shell) => over(alloc, shell, rings),
        Err(_) => Ok(None),
    }
}

/// The geometry of a polygon, if its rings make one.
fn over(alloc: Global, shell: Ring, holes: Vec<Ring>) -> Mem<Option<Geometry>> {
    match Polygon::new(shell, holes) {
        Ok(area) => Ok(Some(Geometry::Over(Shared::new(alloc, area)?))),
        Err(_) => Ok(None),
    }
}

/// The sketched shape; of a box the polygon of its sides.
fn shape(alloc: Global, sketch: Sketch) -> Mem<Option<Geometry>> {
    match sketch {
        At(place) => Ok(at(place).map(|p| Geometry::At(p))),
        Along(from, to) => line(alloc, &[from, to]),
        Rising => line(alloc, &[(0, 0), (10, 10)]),
        Bent => line(alloc, &[(0, 0), (10, 0), (10, 10)]),
        Between(low, high) => polygon(alloc, &sides(low, high), &[]),
        Field => polygon(alloc, &square(0, 10), &[]),
        Pitted => polygon(alloc, &square(0, 20), &[square(4, 16)]),
        Twin => polygon(
            alloc,
            &sides((0, 0), (40, 20)),
            &[square(4, 16), sides((24, 4), (36, 16))],
        ),
        Isle => polygon(alloc, &square(9, 11), &[]),
        Diamond => polygon(alloc, &[(0, 0), (5, -5), (10, 0), (5, 5), (0, 0)], &[]),
        Bow => polygon(alloc, &[(0, 0), (10, 10), (10, 0), (0, 10), (0, 0)], &[]),
    }
}

/// Whether this is the least whole distance within which the geometries lie, whichever is first.
fn is_least(a: &Geometry, b: &Geometry, least: u64) -> bool {
    if least > FARTHEST_DISTANCE || !within_distance(a, b, least) || !within_distance(b, a, least) {
        return false;
    }
    least == 0 || !(within_distance(a, b, least - 1) || within_distance(b, a, least - 1))
}

/// Whether it is that of the sketched shapes.
fn is_least_of(alloc: Global, one: Sketch, other: Sketch, least: u64) -> Mem<bool> {
    match (shape(alloc, one)?, shape(alloc, other)?) {
        (Some(a), Some(b)) => Ok(is_least(&a, &b, least)),
        _ => Ok(false),
    }
}

/// The first row of the table that does not hold.
fn first_wrong(alloc: Global) -> Mem<Option<&'static str>> {
    for (name, one, other, least) in &ROWS {
        if !is_least_of(alloc, *one, *other, *least)? {
            return Ok(Some(*name));
        }
    }
    Ok(None)
}

// The longest slope, and a corner beside it, within the greatest distance.
fn lie_within_the_farthest(alloc: Global) -> Mem<bool> {
    match (
        shape(alloc, At((FAR, FAR)))?,
        shape(alloc, Along((-FAR, FAR), (FAR, -FAR)))?,
    ) {
        (Some(a), Some(b)) => Ok(within_distance(&a, &b, FARTHEST_DISTANCE)),
        _ => Ok(false),
    }
}

#[test]
fn least_distances_by_table(rt: HostRuntime) -> Result<(), Fail> {
    assert_eq!(rt; first_wrong(rt.alloc())?, None);
    assert!(rt; lie_within_the_farthest(rt.alloc())?);
    assert_eq!(rt; FARTHEST_DISTANCE, 4_000_000_000);
    Ok(())
}
