//! The types of what stored queries give.

ghost use Rattle.std.specs.Prelude.{◌≡◌, ◌++◌, if◌then◌else◌};
ghost use Rattle.std.specs.List.{flat_map};
ghost use Rattle.std.specs.Option.{option_copied};
ghost use Rattle.wfs_ends.specs.Ends.{Writes};
ghost use Rattle.wfs_model.specs.Stored.{is_id_query};
ghost use Rattle.reply_documents.specs.StoredQueries.{is_same_kind, is_asked_before, type_asked, types_asked, type_between, asked_text, still_none, types_between, return_types_text};

use doc_tree::put_plain;
use feature_values::{FeatureType, Schema};
use fes_filter::{Query, type_in};
use wfs_ends::{Sink, put_on};
use wfs_model::{StoredQuery, is_id_query};

// Whether two queries ask for the same type.
fn is_same_kind(a: Option<u32>, b: Option<u32>) -> bool
    ensures { result ≡ is_same_kind a b }
{
    match (a, b) {
        (None, None) => true,
        (Some(a), Some(b)) => a == b,
        _ => false,
    }
}

// Whether a query before asks for the same type. It looks from the end, so that a type that comes again and again is
// soon found.
fn is_asked_before(earlier: &[Query], query: &Query) -> bool
    ensures { result ≡ is_asked_before earlier.now query.now }
{
    for behind in 0..earlier.len() {
        if is_same_kind(earlier[earlier.len() - 1 - behind].kind, query.kind) {
            return true;
        }
    }
    false
}

// The type that a query asks for, where none before it asks for the same.
fn type_asked<'a>(schema: &'a Schema, earlier: &[Query], query: &Query) -> Option<&'a FeatureType>
    ensures { option_copied result ≡ type_asked schema.now earlier.now query.now }
{
    if is_asked_before(earlier, query) {
        None
    } else {
        type_in(schema, query.kind)
    }
}

// Gives a type by its name, between two texts.
fn put_type<S: Sink>(
    sink: &mut S,
    failed: bool,
    start: &[u8],
    schema: &Schema,
    end: &[u8],
    of_type: &FeatureType,
) -> bool
    ensures { Writes (record { shown = S.sink sink.old; failed = failed })
        (type_between start.now schema.now end.now of_type.now)
        (record { shown = S.sink sink.new; failed = result }) }
{
    let failed = put_on(sink, failed, start);
    let failed = put_plain(sink, failed, &schema.prefix);
    let failed = put_on(sink, failed, b":");
    let failed = put_plain(sink, failed, &of_type.name);
    put_on(sink, failed, end)
}

// Gives a type, where there is one, behind the first text or behind the other one.
fn put_asked<S: Sink>(
    sink: &mut S,
    failed: bool,
    is_first: bool,
    first: &[u8],
    later: &[u8],
    schema: &Schema,
    end: &[u8],
    asked: Option<&FeatureType>,
) -> bool
    ensures { Writes (record { shown = S.sink sink.old; failed = failed })
        (asked_text (if is_first then first.now else later.now) schema.now end.now
        (option_copied asked.entry)) (record { shown = S.sink sink.new; failed = result }) }
{
    match asked {
        None => put_on(sink, failed, b""),
        Some(of_type) => {
            let start = if is_first { first } else { later };
            put_type(sink, failed, start, schema, end, of_type)
        }
    }
}

// Whether there was no type before and is none now.
fn still_none(none: bool, asked: Option<&FeatureType>) -> bool
    ensures { result ≡ still_none none (option_copied asked.entry) }
{
    match asked {
        None => none,
        Some(_) => false,
    }
}

// Gives the types that some queries ask for, each at its first place.
fn put_asked_types<S: Sink>(
    sink: &mut S,
    failed: bool,
    first: &[u8],
    later: &[u8],
    schema: &Schema,
    end: &[u8],
    queries: &[Query],
) -> bool
    ensures { Writes (record { shown = S.sink sink.old; failed = failed })
        (types_between first.now later.now schema.now end.now (types_asked schema.now queries.now))
        (record { shown = S.sink sink.new; failed = result }) }
{
    let mut failed = put_on(sink, failed, b"");
    let mut is_first = true;
    for at in 0..queries.len() {
        let asked = type_asked(schema, &queries[..at], &queries[at]);
        failed = put_asked(sink, failed, is_first, first, later, schema, end, asked);
        is_first = still_none(is_first, asked);
    }
    failed
}

fn put_other_types<S: Sink>(
    sink: &mut S,
    failed: bool,
    later: &[u8],
    schema: &Schema,
    end: &[u8],
    types: &[FeatureType],
) -> bool
    ensures { Writes (record { shown = S.sink sink.old; failed = failed })
        (flat_map (type_between later.now schema.now end.now) types.now)
        (record { shown = S.sink sink.new; failed = result }) }
{
    let mut failed = put_on(sink, failed, b"");
    for of_type in types {
        failed = put_type(sink, failed, later, schema, end, of_type);
    }
    failed
}

fn put_some_types<S: Sink>(
    sink: &mut S,
    failed: bool,
    first: &[u8],
    later: &[u8],
    schema: &Schema,
    end: &[u8],
    of_type: &FeatureType,
    others: &[FeatureType],
) -> bool
    ensures { Writes (record { shown = S.sink sink.old; failed = failed })
        (type_between first.now schema.now end.now of_type.now
        ++ flat_map (type_between later.now schema.now end.now) others.now)
        (record { shown = S.sink sink.new; failed = result }) }
{
    let failed = put_type(sink, failed, first, schema, end, of_type);
    put_other_types(sink, failed, later, schema, end, others)
}

fn put_first_types<S: Sink>(
    sink: &mut S,
    failed: bool,
    first: &[u8],
    later: &[u8],
    schema: &Schema,
    end: &[u8],
    types: &[FeatureType],
) -> bool
    ensures { Writes (record { shown = S.sink sink.old; failed = failed })
        (types_between first.now later.now schema.now end.now types.now)
        (record { shown = S.sink sink.new; failed = result }) }
{
    match types {
        [] => put_on(sink, failed, b""),
        [of_type, others @ ..] => {
            put_some_types(sink, failed, first, later, schema, end, of_type, others)
        }
    }
}

// Gives the types of what a stored query gives: the first behind one text, the others behind another, and each before a
// third.
#[tactic(auto, unfolding(crate::specs::StoredQueries::return_types_text, crate::specs::StoredQueries::types_of))]
pub(crate) fn put_return_types<S: Sink>(
    sink: &mut S,
    failed: bool,
    first: &[u8],
    later: &[u8],
    schema: &Schema,
    end: &[u8],
    stored: &StoredQuery,
) -> bool
    ensures { Writes (record { shown = S.sink sink.old; failed = failed })
        (return_types_text first.now later.now schema.now end.now stored.now)
        (record { shown = S.sink sink.new; failed = result }) }
{
    if is_id_query(stored.id.as_str()) {
        put_first_types(
            sink,
            failed,
            first,
            later,
            schema,
            end,
            schema.types.items(),
        )
    } else {
        put_asked_types(
            sink,
            failed,
            first,
            later,
            schema,
            end,
            stored.queries.items(),
        )
    }
}
