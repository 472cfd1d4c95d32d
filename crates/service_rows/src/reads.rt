//! Reads over three marks, stored queries with parameters, and the list of stored queries. What is expected was worked out by hand.
use crate::samples::{are_given, texts};
use feature_values::Schema;
use fes_filter::{By, Expr, Filter, IdRef, Query, SortKey};
use std::alloc::Global;
use stored_queries::{Stored, answer, expand};
use views::{SampleView, sample, schema};
use wfs_ends::{Boxed, List, Mem, OutOfMemory, Text};
use wfs_model::{Asked, Present, Reply, Request, StoredFault, StoredQuery};

mod views;

const BY_LABEL: &str = "urn:x:by";

const BY_PLACES: &str = "urn:x:at";

const BY_FOLDED: &str = "urn:x:folded";

const BY_EITHER: &str = "urn:x:either";

const ABOVE: &str = "urn:x:above";

/// The third mark, and then the first.
const AT_PLACES: &[(&str, &str)] = &[("not", "7"), ("low", "7"), ("high", "9"), ("id", "Mark.1")];

const BY_ID: &str = "urn:ogc:def:query:OGC-WFS::GetFeatureById";

const BY_ID_ADDRESS: &str = "http://www.opengis.net/def/query/OGC-WFS/0/GetFeatureById";

const LINK: &str = "http://localhost:8080/wfs?service=WFS&request=GetFeature&typeNames=Mark";

/// What is asked, by whether it is only counted, where the page begins and how many members it has.
enum Ask {
    Marks(bool, u32, Option<u32>),
    Use(bool, &'static str, &'static [(&'static str, &'static str)]),
    /// Uses of a query, with one parameter each.
    Uses(&'static str, &'static [(&'static str, &'static str)]),
    Sizes(bool, u32, Option<u32>),
    /// Values in a use, by the name of their property and not by the number that stands beside it.
    ValuesOf(&'static str, &'static [(&'static str, &'static str)]),
    Describe(&'static [&'static str]),
}

/// What is answered: a number matched, the numbers of features, and the ends of the links; or else.
enum Want {
    Features(u64, &'static [u64], &'static str, &'static str),
    Values(u64, &'static [u64], &'static str, &'static str),
    Bare(u64),
    Row(u8, &'static str),
    Described(&'static [&'static str]),
}

static ROWS: [(&str, Ask, Want); 43] = [
    (
        "counted",
        Ask::Marks(true, 1, Some(1)),
        Want::Features(3, &[], "", ""),
    ),
    (
        "a page past the end",
        Ask::Marks(false, 3, Some(5)),
        Want::Features(3, &[], "", "&startIndex=0&count=3"),
    ),
    (
        "the first page",
        Ask::Marks(false, 0, Some(1)),
        Want::Features(3, &[1], "&startIndex=1&count=1", ""),
    ),
    (
        "the second page",
        Ask::Marks(false, 1, Some(1)),
        Want::Features(3, &[2], "&startIndex=2&count=1", "&startIndex=0&count=1"),
    ),
    (
        "the last page",
        Ask::Marks(false, 2, Some(1)),
        Want::Features(3, &[3], "", "&startIndex=1&count=1"),
    ),
    (
        "without a count",
        Ask::Marks(false, 1, None),
        Want::Features(3, &[2, 3], "", "&startIndex=0&count=1"),
    ),
    (
        "without a count, behind two",
        Ask::Marks(false, 2, None),
        Want::Features(3, &[3], "", "&startIndex=0&count=2"),
    ),
    (
        "of no members",
        Ask::Marks(false, 1, Some(0)),
        Want::Features(3, &[], "", ""),
    ),
    (
        "by label, in another case",
        Ask::Use(false, BY_LABEL, &[("L", "B")]),
        Want::Features(1, &[2], "", ""),
    ),
    (
        "the first of two",
        Ask::Use(false, BY_LABEL, &[("l", "A"), ("L", "B")]),
        Want::Features(1, &[1], "", ""),
    ),
    (
        "without its parameter",
        Ask::Use(false, BY_LABEL, &[("x", "B")]),
        Want::Row(10, "l"),
    ),
    (
        "with another parameter",
        Ask::Use(false, BY_LABEL, &[("l", "B"), ("X", "1")]),
        Want::Row(11, "X"),
    ),
    (
        "by a label that is longer than labels may be",
        Ask::Use(false, BY_LABEL, &[("l", "12345678901")]),
        Want::Features(0, &[], "", ""),
    ),
    (
        "in another case, where case does not count",
        Ask::Use(false, BY_FOLDED, &[("p", "b")]),
        Want::Features(1, &[2], "", ""),
    ),
    (
        "several uses, each feature once",
        Ask::Uses(BY_LABEL, &[("l", "B"), ("l", "A"), ("l", "B")]),
        Want::Features(2, &[2, 1], "", ""),
    ),
    (
        "the first fault of several uses",
        Ask::Uses(BY_LABEL, &[("l", "B"), ("x", "A"), ("l", "A")]),
        Want::Row(10, "l"),
    ),
    (
        "several queries of one use, by all places of parameters",
        Ask::Use(false, BY_PLACES, AT_PLACES),
        Want::Features(2, &[3, 1], "", ""),
    ),
    (
        "an id that names nothing",
        Ask::Use(
            false,
            BY_PLACES,
            &[("not", "7"), ("low", "7"), ("high", "9"), ("id", "x")],
        ),
        Want::Features(1, &[3], "", ""),
    ),
    (
        "within And, Or and Not no number",
        Ask::Use(false, BY_PLACES, &[("NOT", "x")]),
        Want::Row(11, "not"),
    ),
    (
        "as lower bound no number",
        Ask::Use(false, BY_PLACES, &[("not", "7"), ("low", "x")]),
        Want::Row(11, "low"),
    ),
    (
        "as upper bound no number",
        Ask::Use(
            false,
            BY_PLACES,
            &[("not", "7"), ("low", "7"), ("high", "x")],
        ),
        Want::Row(11, "high"),
    ),
    (
        "the first parameter is missing, and the second is no number",
        Ask::Use(false, BY_PLACES, &[("low", "x")]),
        Want::Row(10, "not"),
    ),
    (
        "a parameter to the left, and what is selected in the query's order",
        Ask::Use(false, ABOVE, &[("p", "6")]),
        Want::Features(2, &[3, 2], "", ""),
    ),
    (
        "to the left no number",
        Ask::Use(false, ABOVE, &[("p", "x")]),
        Want::Row(11, "p"),
    ),
    (
        "no number at the second of two places",
        Ask::Use(false, BY_EITHER, &[("p", "x")]),
        Want::Row(11, "p"),
    ),
    (
        "no such query",
        Ask::Use(false, "urn:x:no", &[]),
        Want::Row(24, "storedQuery_id"),
    ),
    (
        "no feature by that id",
        Ask::Use(false, BY_ID, &[("id", "Mark.9")]),
        Want::Row(23, "id"),
    ),
    (
        "by no id",
        Ask::Use(false, BY_ID, &[("id", "Mark")]),
        Want::Row(23, "id"),
    ),
    (
        "a feature by its id",
        Ask::Use(false, BY_ID_ADDRESS, &[("ID", "Mark.2")]),
        Want::Bare(2),
    ),
    (
        "two features by their ids",
        Ask::Uses(BY_ID, &[("id", "Mark.2"), ("id", "Mark.1")]),
        Want::Features(2, &[2, 1], "", ""),
    ),
    (
        "a feature without its id",
        Ask::Use(false, BY_ID, &[]),
        Want::Row(10, "id"),
    ),
    (
        "by its id, with another parameter",
        Ask::Use(false, BY_ID, &[("id", "Mark.2"), ("x", "1")]),
        Want::Row(11, "x"),
    ),
    (
        "by its id, counted",
        Ask::Use(true, BY_ID, &[("id", "Mark.2")]),
        Want::Features(1, &[], "", ""),
    ),
    (
        "values",
        Ask::Sizes(false, 0, Some(1)),
        Want::Values(2, &[2], "&startIndex=1&count=1", ""),
    ),
    (
        "the last page of values",
        Ask::Sizes(false, 1, Some(1)),
        Want::Values(2, &[3], "", "&startIndex=0&count=1"),
    ),
    (
        "values, counted",
        Ask::Sizes(true, 0, None),
        Want::Values(2, &[], "", ""),
    ),
    (
        "values in a use",
        Ask::ValuesOf(BY_LABEL, &[("l", "B"), ("", "size")]),
        Want::Values(1, &[2], "", ""),
    ),
    (
        "values of no property in a use",
        Ask::ValuesOf(BY_LABEL, &[("l", "B"), ("", "nope")]),
        Want::Row(11, "nope"),
    ),
    (
        "values by an id that is not there",
        Ask::ValuesOf(BY_ID, &[("id", "Mark.9"), ("", "size")]),
        Want::Values(0, &[], "", ""),
    ),
    (
        "values by no id",
        Ask::ValuesOf(BY_ID, &[("id", "Mark"), ("", "m:size")]),
        Want::Row(11, "m:size"),
    ),
    (
        "all described",
        Ask::Describe(&[]),
        Want::Described(&[BY_ID, BY_LABEL, BY_PLACES, BY_FOLDED, BY_EITHER, ABOVE]),
    ),
    (
        "described in the order of all",
        Ask::Describe(&[BY_LABEL, BY_ID_ADDRESS, BY_ID]),
        Want::Described(&[BY_ID, BY_LABEL]),
    ),
    (
        "an unknown one",
        Ask::Describe(&[BY_LABEL, "urn:x:no"]),
        Want::Row(24, "storedQuery_id"),
    ),
];

fn present(alloc: Global, hits: bool, start: u32, count: Option<u32>) -> Mem<Present> {
    let link = Text::of(alloc, LINK)?;
    Ok(Present {
        start,
        count,
        hits,
        link: Some(link),
    })
}

fn marks(alloc: Global, filter: Option<Filter>) -> Query {
    Query {
        kind: Some(0),
        filter,
        sort: List::of(Vec::new(alloc)),
    }
}

fn pair(alloc: Global, name: &str, value: &str) -> Mem<(Text, Text)> {
    let name = Text::of(alloc, name)?;
    let value = Text::of(alloc, value)?;
    Ok((name, value))
}

fn given(alloc: Global, pairs: &[(&str, &str)]) -> Mem<List<(Text, Text)>> {
    let mut all = Vec::new(alloc);
    for one in pairs {
        let (name, value) = *one;
        all.push(pair(alloc, name, value)?)?;
    }
    Ok(List::of(all))
}

fn use_of(alloc: Global, id: &str, pairs: &[(&str, &str)]) -> Mem<Asked> {
    let id = Text::of(alloc, id)?;
    let given = given(alloc, pairs)?;
    Ok(Asked::Stored { id, given })
}

fn only(alloc: Global, asked: Asked) -> Mem<List<Asked>> {
    let mut all = Vec::new(alloc);
    all.push(asked)?;
    Ok(List::of(all))
}

fn uses_of(alloc: Global, id: &str, pairs: &[(&str, &str)]) -> Mem<List<Asked>> {
    let mut all = Vec::new(alloc);
    for one in pairs {
        let (name, value) = *one;
        all.push(use_of(alloc, id, &[(name, value)])?)?;
    }
    Ok(List::of(all))
}

fn features_of(
    alloc: Global,
    asked: List<Asked>,
    hits: bool,
    start: u32,
    count: Option<u32>,
) -> Mem<Request> {
    let present = present(alloc, hits, start, count)?;
    Ok(Request::GetFeatures(present, asked))
}

fn sizes_of(alloc: Global, hits: bool, start: u32, count: Option<u32>) -> Mem<Request> {
    let present = present(alloc, hits, start, count)?;
    Ok(Request::GetValues(present, Asked::Plain(marks(alloc, None)), 1))
}

fn values_of(alloc: Global, id: &str, pairs: &[(&str, &str)]) -> Mem<Request> {
    let present = present(alloc, false, 0, None)?;
    Ok(Request::GetValues(present, use_of(alloc, id, pairs)?, 0))
}

fn request_of(alloc: Global, ask: &Ask) -> Mem<Request> {
    match ask {
        Ask::Marks(hits, start, count) => {
            let asked = only(alloc, Asked::Plain(marks(alloc, None)))?;
            features_of(alloc, asked, *hits, *start, *count)
        }
        Ask::Use(hits, id, pairs) => {
            let asked = only(alloc, use_of(alloc, *id, *pairs)?)?;
            features_of(alloc, asked, *hits, 0, None)
        }
        Ask::Uses(id, pairs) => features_of(alloc, uses_of(alloc, *id, *pairs)?, false, 0, None),
        Ask::Sizes(hits, start, count) => sizes_of(alloc, *hits, *start, *count),
        Ask::ValuesOf(id, pairs) => values_of(alloc, *id, *pairs),
        Ask::Describe(ids) => Ok(Request::DescribeStored(texts(alloc, *ids)?)),
    }
}

/// Whether a link ends so behind its beginning, or is not there where nothing is wanted.
fn ends_so(link: &Option<Text>, wanted: &str) -> bool {
    match link {
        None => wanted.is_empty(),
        Some(text) => text.as_str().strip_prefix(LINK) == Some(wanted) && !wanted.is_empty(),
    }
}

fn are_called(found: &[StoredQuery], wanted: &[&str]) -> bool {
    if found.len() != wanted.len() {
        return false;
    }
    for i in 0..found.len() {
        if found[i].id.as_str() != wanted[i] {
            return false;
        }
    }
    true
}

fn is_wanted(reply: &Reply, want: &Want) -> bool {
    match (reply, want) {
        (
            Reply::Collection {
                moment: 1000,
                matched,
                features,
                lock: None,
                next,
                previous,
            },
            Want::Features(number, found, behind, before),
        ) => {
            *matched == *number
                && are_given(features.items(), *found)
                && ends_so(next, *behind)
                && ends_so(previous, *before)
        }
        (
            Reply::Values {
                moment: 1000,
                matched,
                property: 1,
                features,
                next,
                previous,
            },
            Want::Values(number, found, behind, before),
        ) => {
            *matched == *number
                && are_given(features.items(), *found)
                && ends_so(next, *behind)
                && ends_so(previous, *before)
        }
        (Reply::Bare(feature), Want::Bare(number)) => feature.id.number == *number,
        (Reply::Refused(refusal), Want::Row(row, locator)) => {
            refusal.row == *row && refusal.locator.as_str() == *locator
        }
        (Reply::StoredTexts(found), Want::Described(wanted)) => are_called(found.items(), *wanted),
        _ => false,
    }
}

/// A property equals the first parameter.
fn equal(property: u32) -> Filter {
    Filter::Compare {
        by: By::Equal,
        left: Expr::Property(property),
        right: Expr::Parameter(0),
        fold: false,
    }
}

fn definition(
    alloc: Global,
    id: &str,
    parameters: &[&str],
    queries: Vec<Query>,
) -> Mem<StoredQuery> {
    let id = Text::of(alloc, id)?;
    let title = Text::of(alloc, "")?;
    let parameters = texts(alloc, parameters)?;
    let text = Text::of(alloc, "")?;
    Ok(StoredQuery {
        id,
        title,
        parameters,
        queries: List::of(queries),
        text,
    })
}

/// The query by label, with the parameter `l`.
fn by_label(alloc: Global) -> Mem<StoredQuery> {
    let mut queries = Vec::new(alloc);
    queries.push(marks(alloc, Some(equal(0))))?;
    definition(alloc, BY_LABEL, &["l"], queries)
}

/// Either there is no size, or it is not the first parameter.
fn other_or_none(alloc: Global) -> Mem<Filter> {
    let mut parts = Vec::new(alloc);
    parts.push(Filter::IsNull(1))?;
    parts.push(Filter::Not(Boxed::new(alloc, equal(1))?))?;
    Ok(Filter::Either(List::of(parts)))
}

/// The same, and a size from the second parameter to the third.
fn other_between(alloc: Global) -> Mem<Filter> {
    let mut parts = Vec::new(alloc);
    parts.push(other_or_none(alloc)?)?;
    parts.push(Filter::Between {
        property: 1,
        low: Expr::Parameter(1),
        high: Expr::Parameter(2),
    })?;
    Ok(Filter::Both(List::of(parts)))
}

/// The fourth parameter is the identifier.
fn of_id(alloc: Global) -> Mem<Filter> {
    let mut ids = Vec::new(alloc);
    ids.push(IdRef::Parameter(3))?;
    Ok(Filter::Ids(List::of(ids)))
}

/// Two queries, in which parameters stand wherever they may.
fn by_places(alloc: Global) -> Mem<StoredQuery> {
    let mut queries = Vec::new(alloc);
    queries.push(marks(alloc, Some(other_between(alloc)?)))?;
    queries.push(marks(alloc, Some(of_id(alloc)?)))?;
    definition(alloc, BY_PLACES, &["not", "low", "high", "id"], queries)
}

/// A label equals the first parameter, whatever the case of their letters is.
fn folded(alloc: Global) -> Query {
    let filter = Filter::Compare {
        by: By::Equal,
        left: Expr::Property(0),
        right: Expr::Parameter(0),
        fold: true,
    };
    marks(alloc, Some(filter))
}

/// A label or a size equals the first parameter.
fn either(alloc: Global) -> Mem<Query> {
    let mut parts = Vec::new(alloc);
    parts.push(equal(0))?;
    parts.push(equal(1))?;
    Ok(marks(alloc, Some(Filter::Either(List::of(parts)))))
}

/// The first parameter is less than a size, and the greatest size comes first.
fn above(alloc: Global) -> Mem<Query> {
    let mut sort = Vec::new(alloc);
    sort.push(SortKey {
        property: 1,
        descending: true,
    })?;
    Ok(Query {
        kind: Some(0),
        filter: Some(Filter::Compare {
            by: By::Less,
            left: Expr::Parameter(0),
            right: Expr::Property(1),
            fold: false,
        }),
        sort: List::of(sort),
    })
}

/// A stored query for one query, with the parameter `p`.
fn of_one(alloc: Global, id: &str, query: Query) -> Mem<StoredQuery> {
    let mut queries = Vec::new(alloc);
    queries.push(query)?;
    definition(alloc, id, &["p"], queries)
}

fn definitions(alloc: Global, times: u32) -> Mem<List<StoredQuery>> {
    let mut all = Vec::new(alloc);
    for _ in 0..times {
        all.push(by_label(alloc)?)?;
    }
    Ok(List::of(all))
}

fn create(stored: &mut Stored, definitions: List<StoredQuery>) -> Mem<Option<Text>> {
    match stored.create(definitions) {
        Ok(()) => Ok(None),
        Err(StoredFault::DuplicateId(id)) => Ok(Some(id)),
        Err(_) => Err(OutOfMemory),
    }
}

/// All stored queries but the built-in one.
fn all_stored(alloc: Global) -> Mem<List<StoredQuery>> {
    let mut all = Vec::new(alloc);
    all.push(by_label(alloc)?)?;
    all.push(by_places(alloc)?)?;
    all.push(of_one(alloc, BY_FOLDED, folded(alloc))?)?;
    all.push(of_one(alloc, BY_EITHER, either(alloc)?)?)?;
    all.push(of_one(alloc, ABOVE, above(alloc)?)?)?;
    Ok(List::of(all))
}

fn stored(alloc: Global) -> Mem<Stored> {
    let mut stored = Stored::new(alloc);
    stored.reserve(5)?;
    create(&mut stored, all_stored(alloc)?)?;
    Ok(stored)
}

fn is_answer(
    alloc: Global,
    view: &SampleView,
    stored: &Stored,
    request: &Request,
    want: &Want,
) -> Mem<bool> {
    if request.is_change() {
        return Ok(false);
    }
    let reply = answer(alloc, view, stored, view.schema(), 1000, request)?;
    Ok(is_wanted(&reply, want))
}

fn is_answered(
    alloc: Global,
    view: &SampleView,
    stored: &Stored,
    ask: &Ask,
    want: &Want,
) -> Mem<bool> {
    let request = request_of(alloc, ask)?;
    is_answer(alloc, view, stored, &request, want)
}

fn first_wrong(alloc: Global, view: &SampleView, stored: &Stored) -> Mem<Option<&'static str>> {
    for row in ROWS.iter() {
        let (what, ask, want) = row;
        if !is_answered(alloc, view, stored, ask, want)? {
            return Ok(Some(*what));
        }
    }
    Ok(None)
}

fn wrong_over(alloc: Global, view: &SampleView) -> Mem<Option<&'static str>> {
    let stored = stored(alloc)?;
    first_wrong(alloc, view, &stored)
}

fn wrong_answer(alloc: Global) -> Mem<Option<&'static str>> {
    let view = sample(alloc)?;
    wrong_over(alloc, &view)
}

#[test]
fn answers_reads(rt: HostRuntime) {
    assert_eq!(rt; wrong_answer(rt.alloc()), Ok(None));
}

fn is_twice(alloc: Global, stored: &mut Stored, times: u32) -> Mem<bool> {
    let definitions = definitions(alloc, times)?;
    match create(stored, definitions)? {
        None => Ok(false),
        Some(id) => Ok(id.as_str() == BY_LABEL),
    }
}

fn is_dropped(alloc: Global, stored: &mut Stored) -> Mem<bool> {
    let id = Text::of(alloc, BY_LABEL)?;
    Ok(stored.drop_query(id).is_ok())
}

/// What is wrong first with a list that is made, changed and emptied.
fn wrong_change(alloc: Global) -> Mem<Option<&'static str>> {
    let mut stored = stored(alloc)?;
    if !is_twice(alloc, &mut stored, 1)? {
        return Ok(Some("there already"));
    }
    if !is_dropped(alloc, &mut stored)? {
        return Ok(Some("dropped"));
    }
    if is_dropped(alloc, &mut stored)? {
        return Ok(Some("dropped again"));
    }
    if !is_twice(alloc, &mut stored, 2)? {
        return Ok(Some("twice in one request"));
    }
    Ok(None)
}

#[test]
fn changes_the_list(rt: HostRuntime) {
    assert_eq!(rt; wrong_change(rt.alloc()), Ok(None));
}

/// For how many queries one stands.
fn expanded(alloc: Global, stored: &Stored, asked: &Asked, schema: &Schema) -> Option<usize> {
    match expand(alloc, stored, asked, schema) {
        Ok(queries) => Some(queries.items().len()),
        Err(_) => None,
    }
}

/// For how many queries a use of the query by places stands.
fn use_expanded(alloc: Global, stored: &Stored, schema: &Schema) -> Mem<Option<usize>> {
    let asked = use_of(alloc, BY_PLACES, AT_PLACES)?;
    Ok(expanded(alloc, stored, &asked, schema))
}

fn of_places(alloc: Global, schema: &Schema) -> Mem<Option<usize>> {
    let stored = stored(alloc)?;
    use_expanded(alloc, &stored, schema)
}

fn number_expanded(alloc: Global) -> Mem<Option<usize>> {
    let schema = schema(alloc)?;
    of_places(alloc, &schema)
}

#[test]
fn expands_a_use(rt: HostRuntime) {
    assert_eq!(rt; number_expanded(rt.alloc()), Ok(Some(2)));
}
