//! Replies that no request comes to: a lock beside links, features of a type that the schema does not have and ones with
//! a value too few, values of features of two types, the greatest lock, and a stored query without queries.

use crate::samples::{GML, XML, feature, flag, is_given, is_given_last, mark};
use feature_values::{Feature, Rid, Value};
use std::alloc::Global;
use wfs_ends::{List, Mem, Text};
use wfs_model::{LockId, Made, Reply, StoredQuery};

// A mark with a value fewer than properties.
fn short(alloc: Global) -> Mem<Feature> {
    let mut values = Vec::new(alloc);
    values.push(Value::Words(Text::of(alloc, "<\u{e9}\">")?))?;
    feature(alloc, 0, 9, values)
}

const LOCKED_BETWEEN: &str =
    "<?xml version=\"1.0\" encoding=\"UTF-8\"?><wfs:FeatureCollection xmlns:wfs=\"http://www.opengis.net/wfs/2.0\" xmlns:gml=\"http://www.opengis.net/gml/3.2\" xmlns:m=\"http://example.org/marks\" timeStamp=\"1970-01-01T00:16:40Z\" numberMatched=\"7\" numberReturned=\"3\" lockId=\"lock-3-14\" next=\"http://h/wfs?startIndex=2\" previous=\"http://h/wfs?startIndex=0\"><wfs:member><m:Flag gml:id=\"Flag.3\"/></wfs:member><wfs:member><m:Mark gml:id=\"Mark.9\"><m:label>&lt;\u{e9}\"&gt;</m:label></m:Mark></wfs:member></wfs:FeatureCollection>";

// A flag, a feature of a type that the schema does not have, and a short mark.
fn features(alloc: Global) -> Mem<List<Feature>> {
    let mut all = Vec::new(alloc);
    all.push(flag(alloc, 1, 3, Value::Null, Value::Null)?)?;
    all.push(flag(alloc, 2, 3, Value::Null, Value::Null)?)?;
    all.push(short(alloc)?)?;
    Ok(List::of(all))
}

fn locked_between_is_given(alloc: Global) -> Mem<bool> {
    let reply = Reply::Collection {
        moment: 1_000,
        matched: 7,
        features: features(alloc)?,
        lock: Some(LockId {
            opening: 3,
            number: 14,
        }),
        next: Some(Text::of(alloc, "http://h/wfs?startIndex=2")?),
        previous: Some(Text::of(alloc, "http://h/wfs?startIndex=0")?),
    };
    is_given(alloc, &reply, GML, 503, LOCKED_BETWEEN)
}

#[test]
fn a_page_names_its_lock_before_its_links(rt: HostRuntime) {
    assert_eq!(rt; locked_between_is_given(rt.alloc()), Ok(true));
}

const MIXED: &str =
    "<?xml version=\"1.0\" encoding=\"UTF-8\"?><wfs:ValueCollection xmlns:wfs=\"http://www.opengis.net/wfs/2.0\" xmlns:gml=\"http://www.opengis.net/gml/3.2\" xmlns:m=\"http://example.org/marks\" timeStamp=\"1970-01-01T00:16:40Z\" numberMatched=\"4\" numberReturned=\"4\"><wfs:member><m:size>5</m:size></wfs:member><wfs:member><m:lit>false</m:lit></wfs:member></wfs:ValueCollection>";

// The second values of a mark and of a flag. There is none of a type that the schema does not have, nor of a short mark.
fn mixed_are_given(alloc: Global) -> Mem<bool> {
    let mut all = Vec::new(alloc);
    all.push(mark(alloc, 1, "A", Value::Whole(5), Value::Null)?)?;
    all.push(flag(alloc, 1, 4, Value::Truth(true), Value::Truth(false))?)?;
    all.push(flag(alloc, 2, 3, Value::Truth(true), Value::Truth(true))?)?;
    all.push(short(alloc)?)?;
    let reply = Reply::Values {
        moment: 1_000,
        matched: 4,
        property: 1,
        features: List::of(all),
        next: None,
        previous: None,
    };
    is_given(alloc, &reply, GML, 360, MIXED)
}

#[test]
fn values_are_those_of_each_type(rt: HostRuntime) {
    assert_eq!(rt; mixed_are_given(rt.alloc()), Ok(true));
}

fn made(alloc: Global, kind: u32, number: u64, handle: Option<&str>) -> Mem<Made> {
    let handle = match handle {
        Some(handle) => Some(Text::of(alloc, handle)?),
        None => None,
    };
    Ok(Made {
        id: Rid { kind, number },
        handle,
    })
}

const CHANGED: &str =
    "<?xml version=\"1.0\" encoding=\"UTF-8\"?><wfs:TransactionResponse xmlns:wfs=\"http://www.opengis.net/wfs/2.0\" xmlns:fes=\"http://www.opengis.net/fes/2.0\" version=\"2.0.2\"><wfs:TransactionSummary><wfs:totalInserted>0</wfs:totalInserted><wfs:totalUpdated>1</wfs:totalUpdated><wfs:totalReplaced>2</wfs:totalReplaced><wfs:totalDeleted>3</wfs:totalDeleted></wfs:TransactionSummary><wfs:UpdateResults><wfs:Feature handle=\"a&quot;b&lt;\"><fes:ResourceId rid=\"Flag.7\"/></wfs:Feature></wfs:UpdateResults><wfs:ReplaceResults><wfs:Feature><fes:ResourceId rid=\"Mark.10\"/></wfs:Feature></wfs:ReplaceResults></wfs:TransactionResponse>";

// One of the features replaced is of a type that the schema does not have.
fn changed_is_given(alloc: Global) -> Mem<bool> {
    let mut updated = Vec::new(alloc);
    updated.push(made(alloc, 1, 7, Some("a\"b<"))?)?;
    let mut replaced = Vec::new(alloc);
    replaced.push(made(alloc, 0, 10, None)?)?;
    replaced.push(made(alloc, 2, 1, None)?)?;
    let reply = Reply::Transacted {
        deleted: 3,
        inserted: List::of(Vec::new(alloc)),
        updated: List::of(updated),
        replaced: List::of(replaced),
    };
    is_given_last(alloc, &reply, XML, 613, CHANGED)
}

#[test]
fn a_feature_of_no_type_is_counted_alone(rt: HostRuntime) {
    assert_eq!(rt; changed_is_given(rt.alloc()), Ok(true));
}

// A renewal of a lock that is left with no feature does not come, but it has an answer.
const ALONE: &str =
    "<?xml version=\"1.0\" encoding=\"UTF-8\"?><wfs:LockFeatureResponse xmlns:wfs=\"http://www.opengis.net/wfs/2.0\" xmlns:fes=\"http://www.opengis.net/fes/2.0\" lockId=\"lock-18446744073709551615-18446744073709551615\"/>";

fn alone_is_given(alloc: Global) -> Mem<bool> {
    let last = LockId {
        opening: u64::MAX,
        number: u64::MAX,
    };
    let reply = Reply::Locked {
        lock: Some(last),
        taken: List::of(Vec::new(alloc)),
        missed: List::of(Vec::new(alloc)),
    };
    is_given(alloc, &reply, XML, 206, ALONE)
}

#[test]
fn the_greatest_lock_is_named(rt: HostRuntime) {
    assert_eq!(rt; alone_is_given(rt.alloc()), Ok(true));
}

const LISTED: &str =
    "<?xml version=\"1.0\" encoding=\"UTF-8\"?><wfs:ListStoredQueriesResponse xmlns:wfs=\"http://www.opengis.net/wfs/2.0\" xmlns:m=\"http://example.org/marks\"><wfs:StoredQuery id=\"c\"/></wfs:ListStoredQueriesResponse>";

const DESCRIBED: &str =
    "<?xml version=\"1.0\" encoding=\"UTF-8\"?><wfs:DescribeStoredQueriesResponse xmlns:wfs=\"http://www.opengis.net/wfs/2.0\" xmlns:m=\"http://example.org/marks\" xmlns:xs=\"http://www.w3.org/2001/XMLSchema\"><wfs:StoredQueryDescription id=\"c\"><wfs:QueryExpressionText returnFeatureTypes=\"\" language=\"urn:ogc:def:queryLanguage:OGC-WFS::WFS_QueryExpression\" isPrivate=\"false\"/></wfs:StoredQueryDescription></wfs:DescribeStoredQueriesResponse>";

fn empty(alloc: Global) -> Mem<List<StoredQuery>> {
    let mut all = Vec::new(alloc);
    all.push(StoredQuery {
        id: Text::of(alloc, "c")?,
        title: Text::of(alloc, "")?,
        parameters: List::of(Vec::new(alloc)),
        queries: List::of(Vec::new(alloc)),
        text: Text::of(alloc, "")?,
    })?;
    Ok(List::of(all))
}

fn empty_is_given(alloc: Global) -> Mem<bool> {
    Ok(
        is_given(alloc, &Reply::StoredList(empty(alloc)?), XML, 204, LISTED)?
            && is_given(
                alloc,
                &Reply::StoredTexts(empty(alloc)?),
                XML,
                427,
                DESCRIBED,
            )?,
    )
}

#[test]
fn a_stored_query_may_be_empty(rt: HostRuntime) {
    assert_eq!(rt; empty_is_given(rt.alloc()), Ok(true));
}
