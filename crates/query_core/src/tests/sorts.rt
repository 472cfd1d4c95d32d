//! The order of what is selected.

use super::selects::selected;
use super::views::{SampleView, sample};
use super::{LABEL, Place, SIZE, are, ids, keys};
use crate::sort_rows;
use fes_filter::{Query, SortKey};
use std::alloc::Global;
use wfs_ends::{List, Mem};

/// Keys, by whether they descend, and the marks in their order. Nulls come first where a key ascends and last where it descends; ties
/// are in default order in both directions. Texts stand by their bytes.
static ORDERS: [(&str, &[(u32, bool)], &[Place]); 4] = [
    (
        "sizes ascend",
        &[(SIZE, false)],
        &[(0, 1), (0, 3), (0, 4), (0, 2)],
    ),
    (
        "sizes descend",
        &[(SIZE, true)],
        &[(0, 2), (0, 4), (0, 1), (0, 3)],
    ),
    (
        "labels descend",
        &[(LABEL, true)],
        &[(0, 4), (0, 1), (0, 2), (0, 3)],
    ),
    (
        "labels, then sizes ascend",
        &[(LABEL, false), (SIZE, false)],
        &[(0, 3), (0, 2), (0, 1), (0, 4)],
    ),
];

fn is_selected_so(alloc: Global, view: &SampleView, query: &Query, wanted: &[Place]) -> Mem<bool> {
    let found = selected(alloc, view, query)?;
    Ok(are(&found, wanted))
}

/// Whether the marks stand in this order.
fn is_order(alloc: Global, view: &SampleView, by: &[(u32, bool)], wanted: &[Place]) -> Mem<bool> {
    let query = Query {
        kind: Some(0),
        filter: None,
        sort: keys(alloc, by)?,
    };
    is_selected_so(alloc, view, &query, wanted)
}

fn first_misplaced(alloc: Global, view: &SampleView) -> Mem<Option<&'static str>> {
    for row in ORDERS.iter() {
        let (what, by, wanted) = *row;
        if !is_order(alloc, view, by, wanted)? {
            return Ok(Some(what));
        }
    }
    Ok(None)
}

fn misplaced(alloc: Global) -> Mem<Option<&'static str>> {
    let view = sample(alloc)?;
    first_misplaced(alloc, &view)
}

#[test]
fn sorts_what_is_selected(rt: HostRuntime) {
    assert_eq!(rt; misplaced(rt.alloc()), Ok(None));
}

fn are_sorted(alloc: Global, view: &SampleView, by: &List<SortKey>) -> Mem<bool> {
    let rows = ids(alloc, &[(0, 4), (0, 3), (0, 9), (0, 2)])?;
    let sorted = sort_rows(alloc, view, rows, by)?;
    Ok(are(&sorted, &[(0, 2), (0, 3), (0, 4)]))
}

fn are_sorted_by_label(alloc: Global, view: &SampleView) -> Mem<bool> {
    let by_label = keys(alloc, &[(LABEL, false)])?;
    are_sorted(alloc, view, &by_label)
}

fn is_sorted_by_label(alloc: Global) -> Mem<bool> {
    let view = sample(alloc)?;
    are_sorted_by_label(alloc, &view)
}

#[test]
fn sorts_rows_and_leaves_out_unknown_ones(rt: HostRuntime) {
    assert_eq!(rt; is_sorted_by_label(rt.alloc()), Ok(true));
}
