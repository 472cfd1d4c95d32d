//! A link with the greatest numbers, copies and limits, with ample memory.

use feature_values::{Feature, Rid, Value};
use fes_filter::{By, Expr, Filter, Query, SortKey};
use std::alloc::Global;
use std::test::Fail;
use wfs_ends::{List, Mem, Text};
use wfs_model::{Change, Limits, Part, StoredQuery, page_link};

fn names(alloc: Global) -> Mem<List<Text>> {
    let mut all = Vec::new(alloc);
    all.push(Text::of(alloc, "urn:ogc:def:crs:EPSG::25832")?)?;
    all.push(Text::of(alloc, "l")?)?;
    Ok(List::of(all))
}

#[test]
fn a_link_has_the_greatest_numbers(rt: HostRuntime) -> Result<(), Fail> {
    let link = Text::of(rt.alloc(), "http://h/wfs?a=b")?;
    assert_eq!(rt;
        page_link(rt.alloc(), &link, 4_294_967_296, u64::MAX)?.as_str(),
        "http://h/wfs?a=b&startIndex=4294967296&count=18446744073709551615"
    );
    Ok(())
}

fn queries(alloc: Global) -> Mem<List<Query>> {
    let mut sort = Vec::new(alloc);
    sort.push(SortKey {
        property: 1,
        descending: true,
    })?;
    let mut all = Vec::new(alloc);
    all.push(Query {
        kind: Some(0),
        filter: Some(Filter::Compare {
            by: By::Equal,
            left: Expr::Property(0),
            right: Expr::Parameter(1),
            fold: false,
        }),
        sort: List::of(sort),
    })?;
    Ok(List::of(all))
}

fn stored(alloc: Global) -> Mem<StoredQuery> {
    Ok(StoredQuery {
        id: Text::of(alloc, "urn:x:by")?,
        title: Text::of(alloc, "By label")?,
        parameters: names(alloc)?,
        queries: queries(alloc)?,
        text: Text::of(alloc, "<wfs:Query/>")?,
    })
}

fn all_stored(alloc: Global) -> Mem<List<StoredQuery>> {
    let mut all = Vec::new(alloc);
    all.push(stored(alloc)?)?;
    Ok(List::of(all))
}

fn parts(alloc: Global) -> Mem<List<Part>> {
    let id = Rid { kind: 0, number: 7 };
    let mut values = Vec::new(alloc);
    values.push(Value::Words(Text::of(alloc, "A")?))?;
    values.push(Value::Null)?;
    let mut all = Vec::new(alloc);
    all.push(Part::Put(Feature::of(alloc, id, values)?))?;
    all.push(Part::Remove(id))?;
    Ok(List::of(all))
}

fn counters(alloc: Global) -> Mem<List<u64>> {
    let mut all = Vec::new(alloc);
    all.push(3)?;
    all.push(0)?;
    Ok(List::of(all))
}

// A change of each kind.
fn changes(alloc: Global) -> Mem<List<Change>> {
    let mut all = Vec::new(alloc);
    all.push(Change::Opening(2))?;
    all.push(Change::Rows(parts(alloc)?))?;
    all.push(Change::Created(all_stored(alloc)?))?;
    all.push(Change::Dropped(Text::of(alloc, "urn:x:by")?))?;
    all.push(Change::Base {
        opening: 1,
        counters: counters(alloc)?,
    })?;
    Ok(List::of(all))
}

// The first change whose copy is another.
fn first_miscopied(alloc: Global, changes: &[Change]) -> Mem<Option<usize>> {
    for i in 0..changes.len() {
        let copied = changes[i].copy(alloc)?;
        if copied != changes[i] {
            return Ok(Some(i));
        }
    }
    Ok(None)
}

fn first_wrong_copy(alloc: Global) -> Mem<Option<usize>> {
    let changes = changes(alloc)?;
    first_miscopied(alloc, changes.items())
}

#[test]
fn copies_are_equal(rt: HostRuntime) -> Result<(), Fail> {
    assert_eq!(rt; first_wrong_copy(rt.alloc()), Ok(None));
    Ok(())
}

#[test]
fn the_limits_are_those_stated(rt: HostRuntime) -> Result<(), Fail> {
    let stated = Limits {
        entries: 1_000_000,
        bytes: 268_435_456,
        features: 1_000_000,
        ids: 1_000_000_000_000,
        locks: 65_536,
        stored: 1_000,
        side: 268_435_456,
    };
    assert_eq!(rt; Limits::stated(), stated);
    Ok(())
}
