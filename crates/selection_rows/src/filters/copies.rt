//! Copies are equal.

use super::Side::{At, Open, Words};
use super::Sketch::{Apart, Between, Compare, Id, InBox, IsNull, Like, Meets};
use super::*;
use fes_filter::{Query, SortKey};

static KINDS: [Sketch; 8] = [
    Compare(By::NotEqual, At(LABEL), Words("a"), true),
    Like(LABEL),
    IsNull(DEPTH),
    Between(SIZE, Open, At(DEPTH)),
    Id(1, 7),
    InBox(None, (1, 2), (3, 4)),
    Meets(FIELD, (5, 6)),
    Apart(WAY, (7, 8)),
];

// Not of Or of each operator.
fn none(alloc: Global) -> Mem<Filter> {
    let mut parts = Vec::new(alloc);
    for sketch in KINDS.iter() {
        parts.push(filter(alloc, *sketch)?)?;
    }
    negated(alloc, Filter::Either(List::of(parts)))
}

// A filter with each operator.
fn whole(alloc: Global) -> Mem<Filter> {
    let mut parts = Vec::new(alloc);
    parts.push(none(alloc)?)?;
    parts.push(Filter::IsNull(NOTE))?;
    Ok(Filter::Both(List::of(parts)))
}

fn keys(alloc: Global) -> Mem<List<SortKey>> {
    let mut keys = Vec::new(alloc);
    keys.push(SortKey {
        property: SIZE,
        descending: true,
    })?;
    Ok(List::of(keys))
}

fn query(alloc: Global) -> Mem<Query> {
    let sort = keys(alloc)?;
    let filter = whole(alloc)?;
    Ok(Query {
        kind: Some(1),
        filter: Some(filter),
        sort,
    })
}

fn has_equal_copy(alloc: Global, query: &Query) -> Mem<bool> {
    let copy = query.copy(alloc)?;
    Ok(copy == *query)
}

fn is_query_copied(alloc: Global) -> Mem<bool> {
    let query = query(alloc)?;
    has_equal_copy(alloc, &query)
}

fn has_equal_filter(alloc: Global, filter: &Filter) -> Mem<bool> {
    let copy = filter.copy(alloc)?;
    Ok(copy == *filter)
}

fn is_filter_copied(alloc: Global) -> Mem<bool> {
    let filter = whole(alloc)?;
    has_equal_filter(alloc, &filter)
}

#[test]
fn copies_are_equal(rt: HostRuntime) {
    assert_eq!(rt; is_filter_copied(rt.alloc()), Ok(true));
    assert_eq!(rt; is_query_copied(rt.alloc()), Ok(true));
}
