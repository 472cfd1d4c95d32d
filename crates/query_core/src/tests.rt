//! A few marks, a field and a path, what queries give of them, and lists that are joined and cut. What is expected was worked out by
//! hand.
use super::*;
use feature_values::{Feature, Rid, Value};
use fes_filter::SortKey;
use geom_core::{Geometry, Line, Pos};
use std::alloc::Global;
use wfs_ends::{List, Mem, Shared, Text};

mod boxes;
mod selects;
mod sorts;
mod views;

/// The number of a type, and a feature's number within it.
type Place = (u32, u64);

// The properties of each feature: a text, and a whole number and a course that may be null.
const LABEL: u32 = 0;

const SIZE: u32 = 1;

const COURSE: u32 = 2;

/// The coordinates of two positions.
type Ends = (i64, i64, i64, i64);

static FEATURES: [(Place, &str, Option<i64>, Option<Ends>); 6] = [
    ((0, 1), "B", None, Some((0, 0, 0, 4))),
    ((0, 2), "A", Some(2), Some((0, 0, 8, 8))),
    ((0, 3), "A", None, None),
    ((0, 4), "b", Some(1), Some((2, 2, 9, 2))),
    ((1, 1), "A", None, Some((6, 1, 6, 9))),
    ((2, 3), "C", None, Some((7, 0, 9, 0))),
];

fn ids(alloc: Global, wanted: &[Place]) -> Mem<List<Rid>> {
    let mut all = Vec::new(alloc);
    for pair in wanted {
        let (kind, number) = *pair;
        all.push(Rid { kind, number })?;
    }
    Ok(List::of(all))
}

fn keys(alloc: Global, wanted: &[(u32, bool)]) -> Mem<List<SortKey>> {
    let mut all = Vec::new(alloc);
    for pair in wanted {
        let (property, descending) = *pair;
        all.push(SortKey {
            property,
            descending,
        })?;
    }
    Ok(List::of(all))
}

fn words(alloc: Global, text: &str) -> Mem<Value> {
    Ok(Value::Words(Text::of(alloc, text)?))
}

fn size_of(size: Option<i64>) -> Value {
    match size {
        None => Value::Null,
        Some(size) => Value::Whole(size),
    }
}

fn positions(ends: Ends) -> Option<(Pos, Pos)> {
    let (x, y, u, v) = ends;
    Some((Pos::new(x, y).ok()?, Pos::new(u, v).ok()?))
}

/// A line between two positions; where there is none, a null.
fn course_of(alloc: Global, ends: Option<Ends>) -> Mem<Value> {
    let Some(ends) = ends else {
        return Ok(Value::Null);
    };
    let Some((first, last)) = positions(ends) else {
        return Ok(Value::Null);
    };
    let mut course = Vec::new(alloc);
    course.push(first)?;
    course.push(last)?;
    match Line::new(course) {
        Ok(line) => Ok(Value::Shape(Geometry::Along(Shared::new(alloc, line)?))),
        Err(_) => Ok(Value::Null),
    }
}

fn feature(
    alloc: Global,
    place: Place,
    label: &str,
    size: Option<i64>,
    ends: Option<Ends>,
) -> Mem<Feature> {
    let (kind, number) = place;
    let mut values = Vec::new(alloc);
    values.push(words(alloc, label)?)?;
    values.push(size_of(size))?;
    values.push(course_of(alloc, ends)?)?;
    Feature::of(alloc, Rid { kind, number }, values)
}

fn features(alloc: Global) -> Mem<Vec<Feature>> {
    let mut all = Vec::new(alloc);
    for row in FEATURES.iter() {
        let (place, label, size, ends) = *row;
        all.push(feature(alloc, place, label, size, ends)?)?;
    }
    Ok(all)
}

/// Whether a list holds just these, in this order.
fn are(found: &List<Rid>, wanted: &[Place]) -> bool {
    let found = found.items();
    if found.len() != wanted.len() {
        return false;
    }
    for i in 0..found.len() {
        if (found[i].kind, found[i].number) != wanted[i] {
            return false;
        }
    }
    true
}

/// What is listed, what comes behind it, and what is joined of both.
static JOINED: [(&str, &[Place], &[Place], &[Place]); 2] = [
    (
        "some are there",
        &[(0, 3), (0, 2)],
        &[(0, 1), (0, 2), (1, 2), (0, 3)],
        &[(0, 3), (0, 2), (0, 1), (1, 2)],
    ),
    ("behind none", &[], &[(0, 2)], &[(0, 2)]),
];

fn is_joined(alloc: Global, first: &[Place], more: &[Place], wanted: &[Place]) -> Mem<bool> {
    let first = ids(alloc, first)?;
    let more = ids(alloc, more)?;
    let all = join_rows(alloc, first, more)?;
    Ok(are(&all, wanted))
}

fn first_misjoined(alloc: Global) -> Mem<Option<&'static str>> {
    for row in JOINED.iter() {
        let (what, first, more, wanted) = *row;
        if !is_joined(alloc, first, more, wanted)? {
            return Ok(Some(what));
        }
    }
    Ok(None)
}

#[test]
fn joins_each_feature_at_its_first_place(rt: HostRuntime) {
    assert_eq!(rt; first_misjoined(rt.alloc()), Ok(None));
}

/// Where a page of two features begins, how many it has at most, and which it has.
static PAGES: [(&str, u32, Option<u32>, &[Place]); 4] = [
    ("past the end", 2, Some(5), &[]),
    ("the second", 1, Some(1), &[(0, 2)]),
    ("of no members", 0, Some(0), &[]),
    ("all the rest", 1, None, &[(0, 2)]),
];

fn is_page(alloc: Global, start: u32, count: Option<u32>, wanted: &[Place]) -> Mem<bool> {
    let two = ids(alloc, &[(0, 1), (0, 2)])?;
    let found = page(alloc, &two, start, count)?;
    Ok(are(&found, wanted))
}

fn first_miscut(alloc: Global) -> Mem<Option<&'static str>> {
    for row in PAGES.iter() {
        let (what, start, count, wanted) = *row;
        if !is_page(alloc, start, count, wanted)? {
            return Ok(Some(what));
        }
    }
    Ok(None)
}

#[test]
fn cuts_pages_out(rt: HostRuntime) {
    assert_eq!(rt; first_miscut(rt.alloc()), Ok(None));
}
