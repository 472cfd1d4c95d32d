//! Faults, signs and copies by rows whose answers were worked out by hand.

use crate::places::{FAR, Place, path};
use geom_core::{Box2, GeomFault, Geometry, Line, Polygon, Pos, Ring, bounds, orient};
use std::alloc::{AllocError, Global};
use std::test::Fail;
use wfs_ends::{Mem, Shared};

static FIELD: [Place; 5] = [(0, 0), (10, 0), (10, 10), (0, 10), (0, 0)];

static GAP: [Place; 5] = [(2, 2), (4, 2), (4, 4), (2, 4), (2, 2)];

static BOW: [Place; 5] = [(0, 0), (10, 10), (10, 0), (0, 10), (0, 0)];

fn at(place: Place) -> Result<Pos, GeomFault> {
    Pos::new(place.0, place.1)
}

/// The ring through these places, the last of them this many times.
fn ring(
    alloc: Global,
    places: &[Place],
    times: usize,
) -> Result<Result<Ring, GeomFault>, AllocError> {
    let mut positions = Vec::new(alloc);
    for place in places {
        match at(*place) {
            Ok(p) => positions.push(p)?,
            Err(fault) => return Ok(Err(fault)),
        }
    }
    if let Some(last) = positions.last().copied() {
        for _ in 1..times {
            positions.push(last)?;
        }
    }
    Ok(Ring::new(positions))
}

/// The polygon of a shell and, if it has places, a hole, whose last place stands this many times.
fn polygon(
    alloc: Global,
    shell: &[Place],
    hole: &[Place],
    times: usize,
) -> Result<Result<Polygon, GeomFault>, AllocError> {
    let mut holes = Vec::new(alloc);
    if !hole.is_empty() {
        match ring(alloc, hole, times)? {
            Ok(hole) => holes.push(hole)?,
            Err(fault) => return Ok(Err(fault)),
        }
    }
    match ring(alloc, shell, 1)? {
        Ok(shell) => Ok(Polygon::new(shell, holes)),
        Err(fault) => Ok(Err(fault)),
    }
}

static AWAY: [Place; 4] = [(20, 20), (21, 20), (21, 21), (20, 20)];

static PARTLY: [Place; 4] = [(8, 8), (12, 8), (8, 9), (8, 8)];

// A field with a part left open at its top, and a hole whose corners lie to both sides of that part.
static YARD: [Place; 9] = [
    (0, 0),
    (10, 0),
    (10, 10),
    (8, 10),
    (8, 2),
    (2, 2),
    (2, 10),
    (0, 10),
    (0, 0),
];

static ACROSS: [Place; 4] = [(1, 9), (9, 9), (9, 1), (1, 9)];

// What is left of a square behind its corner at (10, -10), and a hole to the left of that square.
static SIDES: [Place; 4] = [(10, 10), (-10, 10), (-10, -10), (10, -10)];

static LEFT: [Place; 4] = [(-20, -5), (-15, -5), (-15, 5), (-20, -5)];

fn fault_of(
    alloc: Global,
    shell: &[Place],
    hole: &[Place],
    times: usize,
) -> Result<Option<GeomFault>, AllocError> {
    Ok(polygon(alloc, shell, hole, times)?.err())
}

// The fault of that square with a hole. Its first corner stands 64 times, so that the edge behind it ends a block of edges.
fn fault_in_square(alloc: Global, hole: &[Place]) -> Result<Option<GeomFault>, AllocError> {
    let mut shell = Vec::new(alloc);
    for _ in 0..64 {
        shell.push((10, -10))?;
    }
    shell.extend_from_slice(&SIDES)?;
    fault_of(alloc, &shell, hole, 1)
}

#[test]
fn holes_beside_a_block(rt: HostRuntime) -> Result<(), Fail> {
    assert_eq!(rt; fault_in_square(rt.alloc(), &GAP)?, None);
    assert_eq!(rt;
        fault_in_square(rt.alloc(), &LEFT)?,
        Some(GeomFault::HoleOutside)
    );
    Ok(())
}

// The first of the polygons, by a shell and a hole whose last place stands so many times, with another first fault.
fn first_misjudged(alloc: Global) -> Result<Option<&'static str>, AllocError> {
    for (name, shell, hole, times, want) in [
        ("no hole", &FIELD as &[Place], &[] as &[Place], 1, None),
        ("a hole", &FIELD, &GAP, 1, None),
        (
            "three corners",
            &[(0, 0), (1, 0), (1, 1), (0, 0)],
            &[],
            1,
            None,
        ),
        ("the hole's corners on the shell", &FIELD, &BOW, 1, None),
        (
            "far away",
            &[(0, 0), (FAR + 1, 0)],
            &[],
            1,
            Some(GeomFault::OutOfRange),
        ),
        (
            "far below",
            &[(0, 0), (0, -FAR - 1)],
            &[],
            1,
            Some(GeomFault::OutOfRange),
        ),
        (
            "far to the left",
            &[(0, 0), (-FAR - 1, 0)],
            &[],
            1,
            Some(GeomFault::OutOfRange),
        ),
        (
            "far above",
            &[(0, 0), (0, FAR + 1)],
            &[],
            1,
            Some(GeomFault::OutOfRange),
        ),
        (
            "few",
            &[(0, 0), (1, 0), (0, 0)],
            &[],
            1,
            Some(GeomFault::TooFew),
        ),
        (
            "few before not closed",
            &[(0, 0), (1, 0), (1, 1)],
            &[],
            1,
            Some(GeomFault::TooFew),
        ),
        (
            "same x",
            &[(0, 0), (1, 0), (1, 1), (0, 1)],
            &[],
            1,
            Some(GeomFault::NotClosed),
        ),
        (
            "same y",
            &[(0, 0), (1, 1), (0, 1), (1, 0)],
            &[],
            1,
            Some(GeomFault::NotClosed),
        ),
        (
            "ring of many",
            &FIELD,
            &GAP,
            9_997,
            Some(GeomFault::TooMany),
        ),
        (
            "many before not closed",
            &FIELD,
            &[(3, 3), (2, 3)],
            10_000,
            Some(GeomFault::TooMany),
        ),
        ("many in all", &FIELD, &GAP, 9_992, Some(GeomFault::TooMany)),
        ("10,000 in all", &FIELD, &GAP, 9_991, None),
        (
            "many before outside",
            &FIELD,
            &AWAY,
            9_993,
            Some(GeomFault::TooMany),
        ),
        (
            "outside",
            &FIELD,
            &AWAY,
            9_992,
            Some(GeomFault::HoleOutside),
        ),
        (
            "partly outside",
            &FIELD,
            &PARTLY,
            1,
            Some(GeomFault::HoleOutside),
        ),
        ("outside by an edge alone", &YARD, &ACROSS, 1, None),
        (
            "shell in the hole",
            &GAP,
            &FIELD,
            1,
            Some(GeomFault::HoleOutside),
        ),
    ] {
        if fault_of(alloc, shell, hole, times)? != want {
            return Ok(Some(name));
        }
    }
    Ok(None)
}

#[test]
fn first_fault_of_a_polygon(rt: HostRuntime) -> Result<(), Fail> {
    assert_eq!(rt; first_misjudged(rt.alloc())?, None);
    Ok(())
}

// Whether the field with two holes has this fault. The last place of the second hole stands so many times.
fn is_fault_of_two(
    alloc: Global,
    second: &[Place],
    times: usize,
    want: Option<GeomFault>,
) -> Result<bool, AllocError> {
    let mut holes = Vec::new(alloc);
    for (places, times) in [(&GAP as &[Place], 1), (second, times)] {
        if let Ok(hole) = ring(alloc, places, times)? {
            holes.push(hole)?;
        }
    }
    match ring(alloc, &FIELD, 1)? {
        Ok(shell) => Ok(holes.len() == 2 && Polygon::new(shell, holes).err() == want),
        Err(_) => Ok(false),
    }
}

#[test]
fn faults_of_a_second_hole(rt: HostRuntime) -> Result<(), Fail> {
    for (second, times, want) in [
        (&AWAY as &[Place], 1, Some(GeomFault::HoleOutside)),
        (&GAP, 9_986, None),
        (&GAP, 9_987, Some(GeomFault::TooMany)),
    ] {
        assert!(rt; is_fault_of_two(rt.alloc(), second, times, want)?);
    }
    Ok(())
}

#[test]
fn rings_of_many(rt: HostRuntime) -> Result<(), Fail> {
    assert_eq!(rt; ring(rt.alloc(), &FIELD, 9_996)?.err(), None);
    assert_eq!(rt;
        ring(rt.alloc(), &FIELD, 9_997)?.err(),
        Some(GeomFault::TooMany)
    );
    Ok(())
}

#[test]
fn lines_and_boxes(rt: HostRuntime) -> Result<(), Fail> {
    let alloc = rt.alloc();
    if let (Ok(low), Ok(high)) = (at((0, 4)), at((1, 5))) {
        for (count, want) in [
            (1, Some(GeomFault::TooFew)),
            (2, None),
            (10_000, None),
            (10_001, Some(GeomFault::TooMany)),
        ] {
            assert_eq!(rt; Line::new(vec![in alloc; low; count]?).err(), want);
        }
        let beside = at((0, 5)).unwrap_or(low);
        assert!(rt; Box2::new(low, high).is_ok() && Box2::new(low, low).is_ok());
        assert!(rt; Box2::new(high, beside) == Err(GeomFault::Turned));
        assert!(rt; Box2::new(beside, low) == Err(GeomFault::Turned));
    } else {
        assert!(rt; false);
    }
    Ok(())
}

#[test]
fn sides_of_a_line(rt: HostRuntime) {
    for (a, b, c, want) in [
        ((-FAR, -FAR), (FAR, FAR), (FAR, -FAR), -1),
        ((FAR, FAR), (-FAR, -FAR), (FAR, -FAR), 1),
        ((-FAR, -FAR), (FAR, FAR), (7, 7), 0),
        ((-FAR, -FAR), (FAR, FAR), (FAR - 1, FAR), 1),
        ((3, 3), (3, 3), (7, 9), 0),
    ] {
        if let (Ok(a), Ok(b), Ok(c)) = (at(a), at(b), at(c)) {
            assert_eq!(rt; orient(a, b, c), want);
        } else {
            assert!(rt; false);
        }
    }
}

/// Whether a copy is equal and has these rings, and the bounds are the shell's.
fn is_field(g: &Geometry) -> bool {
    let box_is_right = match (at((0, 0)), at((10, 10))) {
        (Ok(low), Ok(high)) => bounds(g).low == low && bounds(g).high == high,
        _ => false,
    };
    match g {
        Geometry::Over(area) => {
            let area = area.item();
            let shell = area.shell().positions();
            let holes = area.holes();
            box_is_right
                && stands_at(shell, &FIELD)
                && holes.iter().all(|hole| stands_at(hole.positions(), &GAP))
        }
        _ => false,
    }
}

/// Whether the positions are at these places.
fn stands_at(positions: &[Pos], places: &[Place]) -> bool {
    positions.len() == places.len()
        && positions
            .iter()
            .zip(places.iter())
            .all(|(p, place)| at(*place) == Ok(*p))
}

// The field with this gap.
fn field(alloc: Global, gap: &[Place]) -> Mem<Option<Geometry>> {
    match polygon(alloc, &FIELD, gap, 1)? {
        Ok(area) => Ok(Some(Geometry::Over(Shared::new(alloc, area)?))),
        Err(_) => Ok(None),
    }
}

// The line that stands twice at a place.
fn standing(alloc: Global, p: Pos) -> Mem<Option<Geometry>> {
    match Line::new(vec![in alloc; p; 2]?) {
        Ok(line) => Ok(Some(Geometry::Along(Shared::new(alloc, line)?))),
        Err(_) => Ok(None),
    }
}

fn is_copied(g: &Geometry) -> Mem<bool> {
    let copy = g.copy()?;
    Ok(copy == *g)
}

fn is_field_copied(g: &Geometry) -> Mem<bool> {
    let copy = g.copy()?;
    Ok(is_field(g) && is_field(&copy) && copy == *g)
}

// Whether the field is copied, and is neither the field with no gap or with another one nor a point.
fn field_holds(alloc: Global, p: Pos) -> Mem<bool> {
    match field(alloc, &GAP)? {
        None => Ok(false),
        Some(field) => Ok(is_field_copied(&field)? && differs(alloc, &field, p)?),
    }
}

fn differs(alloc: Global, other: &Geometry, p: Pos) -> Mem<bool> {
    let point = Geometry::At(p);
    Ok(point != *other && has_not(alloc, other, &[])? && has_not(alloc, other, &BOW)?)
}

// Whether a field differs from that with this gap.
fn has_not(alloc: Global, other: &Geometry, gap: &[Place]) -> Mem<bool> {
    match field(alloc, gap)? {
        None => Ok(false),
        Some(whole) => Ok(whole != *other && *other != whole),
    }
}

// Whether the lines through these places are equal, if they are lines.
fn are_equal(alloc: Global, one: &[Place], other: &[Place]) -> Mem<Option<bool>> {
    match (Line::new(path(alloc, one)?), Line::new(path(alloc, other)?)) {
        (Ok(one), Ok(other)) => Ok(Some(one == other)),
        _ => Ok(None),
    }
}

static BEND: [Place; 3] = [(0, 0), (2, 2), (1, 1)];

// What differs from it by one coordinate, and by its order.
static OTHERS: [[Place; 3]; 4] = [
    [(0, 0), (2, 2), (1, 2)],
    [(0, 0), (2, 2), (2, 1)],
    [(1, 0), (2, 2), (1, 1)],
    [(2, 2), (0, 0), (1, 1)],
];

#[test]
fn lines_that_differ(rt: HostRuntime) {
    for other in OTHERS.iter() {
        assert_eq!(rt; are_equal(rt.alloc(), &BEND, other), Ok(Some(false)));
    }
    assert_eq!(rt; are_equal(rt.alloc(), &BEND, &BEND[..2]), Ok(Some(false)));
}

// Whether a line is copied, and is no point.
fn line_holds(alloc: Global, p: Pos) -> Mem<bool> {
    match standing(alloc, p)? {
        None => Ok(false),
        Some(line) => Ok(is_copied(&line)? && line != Geometry::At(p)),
    }
}

fn point_holds(p: Pos) -> Mem<bool> {
    is_copied(&Geometry::At(p))
}

fn copies_hold(alloc: Global) -> Mem<bool> {
    let Ok(p) = at((7, 7)) else {
        return Ok(false);
    };
    Ok(field_holds(alloc, p)? && line_holds(alloc, p)? && point_holds(p)?)
}

#[test]
fn copies_are_equal(rt: HostRuntime) -> Result<(), Fail> {
    assert!(rt; copies_hold(rt.alloc())?);
    Ok(())
}
