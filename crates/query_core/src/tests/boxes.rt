//! What queries with a box select. The course of (0, 2) runs past the box, which its bounds meet; those of (0, 4) and (1, 1) run
//! through it.

use super::selects::{listed, of_label, pair, selects};
use super::views::{SampleView, sample};
use super::{COURSE, Ends, Place, positions};
use fes_filter::Filter;
use geom_core::Box2;
use std::alloc::Global;
use wfs_ends::{Mem, OutOfMemory};

const AREA: Ends = (5, 1, 7, 3);

const OTHER: Ends = (8, 2, 9, 9);

/// A box; where it has no such corners, as if there were no memory.
fn in_box(property: Option<u32>, corners: Ends) -> Mem<Filter> {
    let Some((low, high)) = positions(corners) else {
        return Err(OutOfMemory);
    };
    let Ok(area) = Box2::new(low, high) else {
        return Err(OutOfMemory);
    };
    Ok(Filter::InBox { property, area })
}

static ALONE: [(&str, Option<u32>, Option<u32>, &[Place]); 4] = [
    ("of all types", None, Some(COURSE), &[(0, 4), (1, 1)]),
    ("of a type", Some(0), Some(COURSE), &[(0, 4)]),
    ("of any property", None, None, &[(0, 4), (1, 1)]),
    ("of a type without features near", Some(2), None, &[]),
];

fn first_wrong_box(alloc: Global, view: &SampleView) -> Mem<Option<&'static str>> {
    for row in ALONE.iter() {
        let (what, kind, property, wanted) = *row;
        let filter = in_box(property, AREA)?;
        if !selects(alloc, view, kind, Some(filter), wanted)? {
            return Ok(Some(what));
        }
    }
    Ok(None)
}

fn wrong_box(alloc: Global) -> Mem<Option<&'static str>> {
    let view = sample(alloc)?;
    first_wrong_box(alloc, &view)
}

#[test]
fn selects_what_meets_a_box(rt: HostRuntime) {
    assert_eq!(rt; wrong_box(rt.alloc()), Ok(None));
}

/// How many features are walked over for those of a type in a box; none where others are selected than these.
fn walked_for_a_box(alloc: Global) -> Mem<Option<u64>> {
    let view = sample(alloc)?;
    let filter = in_box(None, AREA)?;
    let is_right = selects(alloc, &view, Some(0), Some(filter), &[(0, 4)])?;
    Ok(is_right.then_some(view.walked()))
}

#[test]
fn walks_over_nothing_for_a_box(rt: HostRuntime) {
    assert_eq!(rt; walked_for_a_box(rt.alloc()), Ok(Some(0)));
}

/// The box beside another part, both in a `Both`.
fn beside(alloc: Global, view: &SampleView, other: Filter, wanted: &[Place]) -> Mem<bool> {
    let area = in_box(Some(COURSE), AREA)?;
    let filter = Filter::Both(pair(alloc, other, area)?);
    selects(alloc, view, None, Some(filter), wanted)
}

/// The box beside another part, both in an `Either`.
fn or_else(alloc: Global, view: &SampleView, other: Filter, wanted: &[Place]) -> Mem<bool> {
    let area = in_box(Some(COURSE), AREA)?;
    let filter = Filter::Either(pair(alloc, other, area)?);
    selects(alloc, view, None, Some(filter), wanted)
}

fn first_wrong_pair(alloc: Global, view: &SampleView) -> Mem<Option<&'static str>> {
    if !beside(alloc, view, of_label(alloc, "A")?, &[(1, 1)])? {
        return Ok(Some("and a label"));
    }
    if !beside(alloc, view, in_box(None, OTHER)?, &[(0, 4)])? {
        return Ok(Some("and another box"));
    }
    if !beside(
        alloc,
        view,
        listed(alloc, &[(2, 3), (0, 4), (0, 2)])?,
        &[(0, 4)],
    )? {
        return Ok(Some("and a few identifiers"));
    }
    let many = listed(
        alloc,
        &[(0, 1), (0, 2), (0, 4), (0, 5), (1, 1), (1, 2), (2, 3)],
    )?;
    if !beside(alloc, view, many, &[(0, 4), (1, 1)])? {
        return Ok(Some("and many identifiers"));
    }
    if !or_else(
        alloc,
        view,
        of_label(alloc, "B")?,
        &[(0, 1), (0, 4), (1, 1)],
    )? {
        return Ok(Some("or a label"));
    }
    Ok(None)
}

fn wrong_pair(alloc: Global) -> Mem<Option<&'static str>> {
    let view = sample(alloc)?;
    first_wrong_pair(alloc, &view)
}

#[test]
fn selects_by_a_box_beside_other_parts(rt: HostRuntime) {
    assert_eq!(rt; wrong_pair(rt.alloc()), Ok(None));
}
