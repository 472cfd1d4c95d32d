//! Queries of features on one connection: by type, by ids, by box and by filter, sorted and page by page. What is expected is worked
//! out from OGC 09-025r2 (7.6.3 and 7.9), OGC 09-026r2 and the coordinates of the features below.

use found::{BY_BOX, BY_OTHER_OPERATORS, BY_TYPE_AND_ID, COMPARED, SORTED};
use program_samples::{INSERT, INSERT_END, add, add_post, refusal, talk, text_of};
use refused::UNFIT;
use std::alloc::Global;
use std::sync::Wait;
use std::thread::Threads;
use wfs_ends::{Mem, MemSink};

mod found;
mod refused;

// The Insert of four marks, two fields of which the first has a hole, and two ways.
static ALL: [&str; 10] = [
    INSERT,
    "<m:Mark><m:label>STRASSE</m:label><m:size>5</m:size><m:place><Point xmlns=\"http://www.opengis.net/gml/3.2\"><pos>10 10</pos></Point></m:place></m:Mark>",
    "<m:Mark><m:label>A*b</m:label></m:Mark>",
    "<m:Mark><m:label>Ab</m:label><m:size>-3</m:size><m:place><Point xmlns=\"http://www.opengis.net/gml/3.2\"><pos>3 3</pos></Point></m:place></m:Mark>",
    "<m:Mark><m:label>b</m:label><m:size>5</m:size><m:place><Point xmlns=\"http://www.opengis.net/gml/3.2\"><pos>0 5</pos></Point></m:place></m:Mark>",
    "<m:Field><m:name>north</m:name><m:area><Polygon xmlns=\"http://www.opengis.net/gml/3.2\"><exterior><LinearRing><posList>0 0 10 0 10 10 0 10 0 0</posList></LinearRing></exterior><interior><LinearRing><posList>2 2 4 2 4 4 2 4 2 2</posList></LinearRing></interior></Polygon></m:area></m:Field>",
    "<m:Field/>",
    "<m:Way><m:course><LineString xmlns=\"http://www.opengis.net/gml/3.2\"><posList>1000000000 0 1000000000 1000000000</posList></LineString></m:course></m:Way>",
    "<m:Way><m:course><LineString xmlns=\"http://www.opengis.net/gml/3.2\"><posList>0 0 5 5</posList></LineString></m:course></m:Way>",
    INSERT_END,
];

// What is asked: the pairs of a query, and what stands in its filter.
type Query = (&'static str, &'static str);

// What a query finds: how many features are matched, and those that come.
type Found = (Query, u64, &'static str);

// By what a query is refused: the row of the table of refusals, and the locator.
type Fault = (Query, u8, &'static str);

// Adds a text with each byte but letters and digits escaped.
fn push_escaped(line: &mut String, text: &str) -> Mem<()> {
    for byte in text.as_bytes() {
        if byte.is_ascii_alphanumeric() {
            line.push(char::from(*byte))?;
        } else {
            write!(line, "%{:02X}", *byte)?;
        }
    }
    Ok(())
}

// Adds the field of a query that gives its filter.
fn add_filter(line: &mut String, filter: &str) -> Mem<()> {
    line.push_str("&filter=")?;
    push_escaped(line, "<Filter xmlns=\"http://www.opengis.net/fes/2.0\">")?;
    push_escaped(line, filter)?;
    push_escaped(line, "</Filter>")
}

// Adds a message that asks a query.
fn add_query(text: &mut String, query: Query) -> Mem<()> {
    let (pairs, filter) = query;
    add(text, &["GET /wfs?service=WFS&request=GetFeature&", pairs])?;
    if !filter.is_empty() {
        add_filter(text, filter)?;
    }
    add(text, &[" HTTP/1.1\r\nHost: h\r\n\r\n"])
}

// A query behind the Insert of all features.
fn input_of(alloc: Global, query: Query) -> Mem<String> {
    let mut text = String::new(alloc);
    add_post(&mut text, "", &ALL)?;
    add_query(&mut text, query)?;
    Ok(text)
}

// What the program answers to a query behind the Insert of all features, and to this Insert.
fn answered<R: Threads + Wait + Sync>(rt: &R, alloc: Global, query: Query) -> Mem<MemSink> {
    let input = input_of(alloc, query)?;
    talk(rt, alloc, input.as_str())
}

// The identifier of the feature that a tag begins.
fn id_of(tag: &str) -> Option<&str> {
    let element = tag.strip_prefix("m:")?;
    let (_, rest) = element.split_once(" gml:id=\"")?;
    let (id, _) = rest.split_once('"')?;
    Some(id)
}

// The identifiers of the features of an answer, in order, each behind a space.
fn ids_in(alloc: Global, output: &str) -> Mem<String> {
    let mut ids = String::new(alloc);
    for tag in output.split('<') {
        if let Some(id) = id_of(tag) {
            add(&mut ids, &[" ", id])?;
        }
    }
    Ok(ids)
}

// Whether the features of an answer are those that are named, in order.
fn has_features(alloc: Global, output: &str, expected: &str) -> Mem<bool> {
    let ids = ids_in(alloc, output)?;
    Ok(ids.as_str().strip_prefix(' ').unwrap_or("") == expected)
}

// How many features an answer has.
fn count_in(output: &str) -> u64 {
    let mut count: u64 = 0;
    for tag in output.split('<') {
        if id_of(tag).is_some() {
            count = count.saturating_add(1);
        }
    }
    count
}

// Whether an answer says how many features are matched, and how many it has.
fn has_counts(alloc: Global, output: &str, matched: u64) -> Mem<bool> {
    let count = count_in(output);
    let counts = format!(in alloc; " numberMatched=\"{matched}\" numberReturned=\"{count}\"")?;
    Ok(output.contains(counts.as_str()))
}

// Whether a query finds what it should.
fn finds<R: Threads + Wait + Sync>(rt: &R, alloc: Global, row: &Found) -> Mem<bool> {
    let (query, matched, expected) = *row;
    let out = answered(rt, alloc, query)?;
    Ok(has_counts(alloc, text_of(&out), matched)? && has_features(alloc, text_of(&out), expected)?)
}

// The first query of a table that finds something else.
fn missed<R: Threads + Wait + Sync>(rt: &R, alloc: Global, rows: &[Found]) -> Mem<Option<Query>> {
    for row in rows {
        if !finds(rt, alloc, row)? {
            return Ok(Some(row.0));
        }
    }
    Ok(None)
}

// The status and phrase, the code and the text of a row of the table of refusals.
fn words_of_row(row: u8) -> (&'static str, &'static str, &'static str) {
    match row {
        8 => (
            "400 Bad Request",
            "OperationParsingFailed",
            "misplaced or malformed",
        ),
        10 => ("400 Bad Request", "MissingParameterValue", "value missing"),
        11 => ("400 Bad Request", "InvalidParameterValue", "value refused"),
        _ => (
            "501 Not Implemented",
            "OptionNotSupported",
            "option refused",
        ),
    }
}

fn ends_in_refusal(alloc: Global, output: &str, row: u8, locator: &str) -> Mem<bool> {
    let (status, code, text) = words_of_row(row);
    let refused = refusal(alloc, status, code, locator, text)?;
    Ok(output.ends_with(refused.as_str()))
}

// Whether a query is refused by this row and locator.
fn is_unfit<R: Threads + Wait + Sync>(rt: &R, alloc: Global, fault: &Fault) -> Mem<bool> {
    let (query, row, locator) = *fault;
    let out = answered(rt, alloc, query)?;
    ends_in_refusal(alloc, text_of(&out), row, locator)
}

// The first query of `UNFIT` that is answered otherwise.
fn judged_otherwise<R: Threads + Wait + Sync>(rt: &R, alloc: Global) -> Mem<Option<Query>> {
    for fault in UNFIT.iter() {
        if !is_unfit(rt, alloc, fault)? {
            return Ok(Some(fault.0));
        }
    }
    Ok(None)
}

#[test]
fn types_and_ids_choose_features_page_by_page(rt: HostRuntime) {
    assert_eq!(rt; missed(&rt, rt.alloc(), &BY_TYPE_AND_ID), Ok(None));
}

#[test]
fn a_box_meets_geometries_and_not_their_bounds(rt: HostRuntime) {
    assert_eq!(rt; missed(&rt, rt.alloc(), &BY_BOX), Ok(None));
}

#[test]
fn keys_put_features_in_order(rt: HostRuntime) {
    assert_eq!(rt; missed(&rt, rt.alloc(), &SORTED), Ok(None));
}

#[test]
fn comparisons_choose_features(rt: HostRuntime) {
    assert_eq!(rt; missed(&rt, rt.alloc(), &COMPARED), Ok(None));
}

#[test]
fn other_operators_choose_features(rt: HostRuntime) {
    assert_eq!(rt; missed(&rt, rt.alloc(), &BY_OTHER_OPERATORS), Ok(None));
}

#[test]
fn queries_are_refused_by_their_first_fault(rt: HostRuntime) {
    assert_eq!(rt; judged_otherwise(&rt, rt.alloc()), Ok(None));
}
