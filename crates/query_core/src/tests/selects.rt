//! What queries select.

ghost use Rattle.std.specs.Prelude.{◌≡◌, ◌<◌};

use super::views::{SampleView, sample};
use super::{LABEL, Place, SIZE, are, words};
use crate::select;
use feature_values::{Rid, Value};
use fes_filter::{By, Expr, Filter, IdRef, Query, Steps};
use std::alloc::Global;
use std::marker::Brand;
use std::sync::ledger::{Blank, Ledger};
use wfs_ends::{Boxed, List, Mem};

fn counted<L: Ledger>(
    alloc: Global,
    view: &SampleView,
    query: &Query,
    blank: Blank,
) -> Mem<List<Rid>>
    requires name { blank.name ≡ L.name }
    requires parts { blank.parts ≡ L.parts }
    requires some { 0 < blank.parts }
{
    let mut steps = Steps::<L>::new(blank);
    select(alloc, view, query, &mut steps)
}

/// What a query selects.
pub fn selected(alloc: Global, view: &SampleView, query: &Query) -> Mem<List<Rid>> {
    counted::<Brand>(alloc, view, query, Blank::new(1))
}

fn is_selected(alloc: Global, view: &SampleView, query: &Query, wanted: &[Place]) -> Mem<bool> {
    let found = selected(alloc, view, query)?;
    Ok(are(&found, wanted))
}

/// Whether a query without keys selects these.
pub fn selects(
    alloc: Global,
    view: &SampleView,
    kind: Option<u32>,
    filter: Option<Filter>,
    wanted: &[Place],
) -> Mem<bool> {
    let sort = List::of(Vec::new(alloc));
    let query = Query { kind, filter, sort };
    is_selected(alloc, view, &query, wanted)
}

static TYPES: [(&str, Option<u32>, &[Place]); 5] = [
    (
        "all types",
        None,
        &[(0, 1), (0, 2), (0, 3), (0, 4), (1, 1), (2, 3)],
    ),
    ("the first type", Some(0), &[(0, 1), (0, 2), (0, 3), (0, 4)]),
    ("a type between others", Some(1), &[(1, 1)]),
    ("the last type", Some(2), &[(2, 3)]),
    ("a type without features", Some(3), &[]),
];

fn first_wrong_type(alloc: Global, view: &SampleView) -> Mem<Option<&'static str>> {
    for row in TYPES.iter() {
        let (what, kind, wanted) = *row;
        if !selects(alloc, view, kind, None, wanted)? {
            return Ok(Some(what));
        }
    }
    Ok(None)
}

fn wrong_type(alloc: Global) -> Mem<Option<&'static str>> {
    let view = sample(alloc)?;
    first_wrong_type(alloc, &view)
}

#[test]
fn selects_the_features_of_a_type(rt: HostRuntime) {
    assert_eq!(rt; wrong_type(rt.alloc()), Ok(None));
}

fn equals(property: u32, value: Value) -> Filter {
    Filter::Compare {
        by: By::Equal,
        left: Expr::Property(property),
        right: Expr::Literal(value),
        fold: false,
    }
}

pub fn of_label(alloc: Global, label: &str) -> Mem<Filter> {
    Ok(equals(LABEL, words(alloc, label)?))
}

fn not(alloc: Global, filter: Filter) -> Mem<Filter> {
    Ok(Filter::Not(Boxed::new(alloc, filter)?))
}

/// Some identifiers, and among them nobody's.
pub fn listed(alloc: Global, places: &[Place]) -> Mem<Filter> {
    let mut all = Vec::new(alloc);
    all.push(IdRef::Nobody)?;
    for place in places {
        let (kind, number) = *place;
        all.push(IdRef::Known(Rid { kind, number }))?;
    }
    Ok(Filter::Ids(List::of(all)))
}

pub fn pair(alloc: Global, first: Filter, second: Filter) -> Mem<List<Filter>> {
    let mut parts = Vec::new(alloc);
    parts.push(first)?;
    parts.push(second)?;
    Ok(List::of(parts))
}

fn by_label(alloc: Global, view: &SampleView) -> Mem<bool> {
    let filter = of_label(alloc, "A")?;
    selects(alloc, view, None, Some(filter), &[(0, 2), (0, 3), (1, 1)])
}

/// A comparison with a null is false, and so its negation true.
fn by_other_size(alloc: Global, view: &SampleView) -> Mem<bool> {
    let filter = not(alloc, equals(SIZE, Value::Whole(1)))?;
    selects(
        alloc,
        view,
        Some(0),
        Some(filter),
        &[(0, 1), (0, 2), (0, 3)],
    )
}

/// In default order, and each once.
fn by_identifiers(alloc: Global, view: &SampleView) -> Mem<bool> {
    let filter = listed(alloc, &[(1, 1), (0, 3), (0, 9), (0, 1), (0, 3)])?;
    selects(alloc, view, None, Some(filter), &[(0, 1), (0, 3), (1, 1)])
}

fn by_no_identifier(alloc: Global, view: &SampleView) -> Mem<bool> {
    let filter = listed(alloc, &[])?;
    selects(alloc, view, None, Some(filter), &[])
}

fn by_other_identifiers(alloc: Global, view: &SampleView) -> Mem<bool> {
    let ids = listed(alloc, &[(0, 3), (0, 1)])?;
    let filter = not(alloc, ids)?;
    selects(alloc, view, Some(0), Some(filter), &[(0, 2), (0, 4)])
}

/// Identifiers that stand behind another part.
fn by_label_and_identifiers(alloc: Global, view: &SampleView) -> Mem<bool> {
    let label = of_label(alloc, "A")?;
    let ids = listed(alloc, &[(1, 1), (0, 1), (0, 2)])?;
    let filter = Filter::Both(pair(alloc, label, ids)?);
    selects(alloc, view, None, Some(filter), &[(0, 2), (1, 1)])
}

fn by_label_or_identifiers(alloc: Global, view: &SampleView) -> Mem<bool> {
    let label = of_label(alloc, "b")?;
    let ids = listed(alloc, &[(1, 1), (0, 1)])?;
    let filter = Filter::Either(pair(alloc, label, ids)?);
    selects(alloc, view, None, Some(filter), &[(0, 1), (0, 4), (1, 1)])
}

fn wrong_list(alloc: Global, view: &SampleView) -> Mem<Option<&'static str>> {
    if !by_identifiers(alloc, view)? {
        return Ok(Some("identifiers"));
    }
    if !by_no_identifier(alloc, view)? {
        return Ok(Some("no identifier"));
    }
    if !by_other_identifiers(alloc, view)? {
        return Ok(Some("other identifiers"));
    }
    Ok(None)
}

fn wrong_operator(alloc: Global, view: &SampleView) -> Mem<Option<&'static str>> {
    if !by_label(alloc, view)? {
        return Ok(Some("a label"));
    }
    if !by_other_size(alloc, view)? {
        return Ok(Some("another size"));
    }
    if !by_label_and_identifiers(alloc, view)? {
        return Ok(Some("a label and identifiers"));
    }
    if !by_label_or_identifiers(alloc, view)? {
        return Ok(Some("a label or identifiers"));
    }
    Ok(None)
}

fn wrong_among_lists(alloc: Global) -> Mem<Option<&'static str>> {
    let view = sample(alloc)?;
    wrong_list(alloc, &view)
}

fn wrong_among_operators(alloc: Global) -> Mem<Option<&'static str>> {
    let view = sample(alloc)?;
    wrong_operator(alloc, &view)
}

#[test]
fn selects_what_is_listed(rt: HostRuntime) {
    assert_eq!(rt; wrong_among_lists(rt.alloc()), Ok(None));
}

#[test]
fn selects_what_passes_a_filter(rt: HostRuntime) {
    assert_eq!(rt; wrong_among_operators(rt.alloc()), Ok(None));
}
