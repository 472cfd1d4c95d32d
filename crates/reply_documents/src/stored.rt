//! The bodies of answers with stored queries.

ghost use Rattle.std.specs.Prelude.{◌≡◌, Bool};
ghost use Rattle.std.specs.List.{flat_map};
ghost use Rattle.wfs_ends.specs.Ends.{Writes};
ghost use Rattle.wfs_model.specs.Stored.{is_id_query};
ghost use Rattle.reply_documents.specs.Features.{truth_text};
ghost use Rattle.reply_documents.specs.StoredQueries.{some_title_text, title_text, is_plain, some_named_text, inside_named_text, named_text, parameter_text, some_expression_text, expression_text, whole_text, declared_text, some_named_list, named_list, stored_list_body, some_whole_list, whole_list, stored_texts_body};

use crate::stored_types::put_return_types;
use crate::value::put_truth;
use doc_tree::{put_escaped, put_plain};
use feature_values::Schema;
use wfs_ends::{List, Sink, Text, put_on};
use wfs_model::{StoredQuery, is_id_query};

// The starts of both documents (OGC 09-025r2, 14.3 and 14.4).
const LIST_START: &[u8] =
    b"<?xml version=\"1.0\" encoding=\"UTF-8\"?><wfs:ListStoredQueriesResponse xmlns:wfs=\"http://www.opengis.net/wfs/2.0\" xmlns:";

const TEXTS_START: &[u8] =
    b"<?xml version=\"1.0\" encoding=\"UTF-8\"?><wfs:DescribeStoredQueriesResponse xmlns:wfs=\"http://www.opengis.net/wfs/2.0\" xmlns:";

const LANGUAGE: &[u8] =
    b"\" language=\"urn:ogc:def:queryLanguage:OGC-WFS::WFS_QueryExpression\" isPrivate=\"";

const RETURNED: &[u8] = b"<wfs:ReturnFeatureType>";

// ---- what both have

// Gives the start of a root, with the namespace of the service's types.
fn put_declared<S: Sink>(sink: &mut S, failed: bool, start: &[u8], schema: &Schema) -> bool
    ensures { Writes (record { shown = S.sink sink.old; failed = failed })
        (declared_text start.now schema.now) (record { shown = S.sink sink.new; failed = result }) }
{
    let failed = put_on(sink, failed, start);
    let failed = put_plain(sink, failed, &schema.prefix);
    let failed = put_on(sink, failed, b"=\"");
    let failed = put_escaped(sink, failed, &schema.space, true);
    put_on(sink, failed, b"\"")
}

fn put_some_title<S: Sink>(sink: &mut S, failed: bool, title: &Text) -> bool
    ensures { Writes (record { shown = S.sink sink.old; failed = failed })
        (some_title_text title.now) (record { shown = S.sink sink.new; failed = result }) }
{
    let failed = put_on(sink, failed, b"<wfs:Title>");
    let failed = put_escaped(sink, failed, title, false);
    put_on(sink, failed, b"</wfs:Title>")
}

// Gives the title, where it is not empty.
#[tactic(auto, unfolding(crate::specs::StoredQueries::title_text))]
fn put_title<S: Sink>(sink: &mut S, failed: bool, title: &Text) -> bool
    ensures { Writes (record { shown = S.sink sink.old; failed = failed }) (title_text title.now)
        (record { shown = S.sink sink.new; failed = result }) }
{
    if title.as_str().is_empty() {
        put_on(sink, failed, b"")
    } else {
        put_some_title(sink, failed, title)
    }
}

// ---- stored queries by their names

fn put_some_named<S: Sink>(
    sink: &mut S,
    failed: bool,
    schema: &Schema,
    stored: &StoredQuery,
) -> bool
    ensures { Writes (record { shown = S.sink sink.old; failed = failed })
        (some_named_text schema.now stored.now)
        (record { shown = S.sink sink.new; failed = result }) }
{
    let failed = put_on(sink, failed, b">");
    let failed = put_title(sink, failed, &stored.title);
    let failed = put_return_types(
        sink,
        failed,
        RETURNED,
        RETURNED,
        schema,
        b"</wfs:ReturnFeatureType>",
        stored,
    );
    put_on(sink, failed, b"</wfs:StoredQuery>")
}

// Whether a stored query has neither a title nor queries, and is not the built-in one.
fn is_plain(stored: &StoredQuery) -> bool
    ensures { result ≡ is_plain stored.now }
{
    !is_id_query(stored.id.as_str())
        && stored.title.as_str().is_empty()
        && stored.queries.items().is_empty()
}

#[tactic(auto, unfolding(crate::specs::StoredQueries::inside_named_text))]
fn put_inside_named<S: Sink>(
    sink: &mut S,
    failed: bool,
    schema: &Schema,
    stored: &StoredQuery,
) -> bool
    ensures { Writes (record { shown = S.sink sink.old; failed = failed })
        (inside_named_text schema.now stored.now)
        (record { shown = S.sink sink.new; failed = result }) }
{
    if is_plain(stored) {
        put_on(sink, failed, b"/>")
    } else {
        put_some_named(sink, failed, schema, stored)
    }
}

fn put_named<S: Sink>(sink: &mut S, failed: bool, schema: &Schema, stored: &StoredQuery) -> bool
    ensures { Writes (record { shown = S.sink sink.old; failed = failed })
        (named_text schema.now stored.now) (record { shown = S.sink sink.new; failed = result }) }
{
    let failed = put_on(sink, failed, b"<wfs:StoredQuery id=\"");
    let failed = put_escaped(sink, failed, &stored.id, true);
    let failed = put_on(sink, failed, b"\"");
    put_inside_named(sink, failed, schema, stored)
}

fn put_each_named<S: Sink>(
    sink: &mut S,
    failed: bool,
    schema: &Schema,
    all: &List<StoredQuery>,
) -> bool
    ensures { Writes (record { shown = S.sink sink.old; failed = failed })
        (flat_map (named_text schema.now) all.now)
        (record { shown = S.sink sink.new; failed = result }) }
{
    let mut failed = put_on(sink, failed, b"");
    for stored in all.items() {
        failed = put_named(sink, failed, schema, stored);
    }
    failed
}

fn put_some_named_list<S: Sink>(
    sink: &mut S,
    failed: bool,
    schema: &Schema,
    all: &List<StoredQuery>,
) -> bool
    ensures { Writes (record { shown = S.sink sink.old; failed = failed })
        (some_named_list schema.now all.now) (record { shown = S.sink sink.new; failed = result }) }
{
    let failed = put_on(sink, failed, b">");
    let failed = put_each_named(sink, failed, schema, all);
    put_on(sink, failed, b"</wfs:ListStoredQueriesResponse>")
}

#[tactic(auto, unfolding(crate::specs::StoredQueries::named_list))]
fn put_named_list<S: Sink>(
    sink: &mut S,
    failed: bool,
    schema: &Schema,
    all: &List<StoredQuery>,
) -> bool
    ensures { Writes (record { shown = S.sink sink.old; failed = failed })
        (named_list schema.now all.now) (record { shown = S.sink sink.new; failed = result }) }
{
    if all.items().is_empty() {
        put_on(sink, failed, b"/>")
    } else {
        put_some_named_list(sink, failed, schema, all)
    }
}

// Gives the body of an answer with the stored queries by their names.
pub(crate) fn put_stored_list<S: Sink>(
    sink: &mut S,
    failed: bool,
    schema: &Schema,
    all: &List<StoredQuery>,
) -> bool
    ensures { Writes (record { shown = S.sink sink.old; failed = failed })
        (stored_list_body schema.now all.now)
        (record { shown = S.sink sink.new; failed = result }) }
{
    let failed = put_declared(sink, failed, LIST_START, schema);
    put_named_list(sink, failed, schema, all)
}

// ---- stored queries whole

fn put_parameter<S: Sink>(sink: &mut S, failed: bool, name: &Text) -> bool
    ensures { Writes (record { shown = S.sink sink.old; failed = failed }) (parameter_text name.now)
        (record { shown = S.sink sink.new; failed = result }) }
{
    let failed = put_on(sink, failed, b"<wfs:Parameter name=\"");
    let failed = put_escaped(sink, failed, name, true);
    put_on(sink, failed, b"\" type=\"xs:string\"/>")
}

fn put_parameters<S: Sink>(sink: &mut S, failed: bool, names: &List<Text>) -> bool
    ensures { Writes (record { shown = S.sink sink.old; failed = failed })
        (flat_map parameter_text names.now) (record { shown = S.sink sink.new; failed = result }) }
{
    let mut failed = put_on(sink, failed, b"");
    for name in names.items() {
        failed = put_parameter(sink, failed, name);
    }
    failed
}

fn put_some_expression<S: Sink>(sink: &mut S, failed: bool, text: &Text) -> bool
    ensures { Writes (record { shown = S.sink sink.old; failed = failed })
        (some_expression_text text.now) (record { shown = S.sink sink.new; failed = result }) }
{
    let failed = put_on(sink, failed, b">");
    let failed = put_plain(sink, failed, text);
    put_on(sink, failed, b"</wfs:QueryExpressionText>")
}

// Gives the text of a stored query as it stands.
#[tactic(auto, unfolding(crate::specs::StoredQueries::expression_text))]
fn put_expression<S: Sink>(sink: &mut S, failed: bool, text: &Text) -> bool
    ensures { Writes (record { shown = S.sink sink.old; failed = failed })
        (expression_text text.now) (record { shown = S.sink sink.new; failed = result }) }
{
    if text.as_str().is_empty() {
        put_on(sink, failed, b"/>")
    } else {
        put_some_expression(sink, failed, text)
    }
}

// Says whether a stored query is the built-in one.
fn put_private<S: Sink>(sink: &mut S, failed: bool, id: &Text) -> bool
    ensures { Writes (record { shown = S.sink sink.old; failed = failed })
        (truth_text (is_id_query id.now)) (record { shown = S.sink sink.new; failed = result }) }
{
    put_truth(sink, failed, is_id_query(id.as_str()))
}

fn put_whole<S: Sink>(sink: &mut S, failed: bool, schema: &Schema, stored: &StoredQuery) -> bool
    ensures { Writes (record { shown = S.sink sink.old; failed = failed })
        (whole_text schema.now stored.now) (record { shown = S.sink sink.new; failed = result }) }
{
    let failed = put_on(sink, failed, b"<wfs:StoredQueryDescription id=\"");
    let failed = put_escaped(sink, failed, &stored.id, true);
    let failed = put_on(sink, failed, b"\">");
    let failed = put_title(sink, failed, &stored.title);
    let failed = put_parameters(sink, failed, &stored.parameters);
    let failed = put_on(
        sink,
        failed,
        b"<wfs:QueryExpressionText returnFeatureTypes=\"",
    );
    let failed = put_return_types(sink, failed, b"", b" ", schema, b"", stored);
    let failed = put_on(sink, failed, LANGUAGE);
    let failed = put_private(sink, failed, &stored.id);
    let failed = put_on(sink, failed, b"\"");
    let failed = put_expression(sink, failed, &stored.text);
    put_on(sink, failed, b"</wfs:StoredQueryDescription>")
}

fn put_each_whole<S: Sink>(
    sink: &mut S,
    failed: bool,
    schema: &Schema,
    all: &List<StoredQuery>,
) -> bool
    ensures { Writes (record { shown = S.sink sink.old; failed = failed })
        (flat_map (whole_text schema.now) all.now)
        (record { shown = S.sink sink.new; failed = result }) }
{
    let mut failed = put_on(sink, failed, b"");
    for stored in all.items() {
        failed = put_whole(sink, failed, schema, stored);
    }
    failed
}

fn put_some_whole_list<S: Sink>(
    sink: &mut S,
    failed: bool,
    schema: &Schema,
    all: &List<StoredQuery>,
) -> bool
    ensures { Writes (record { shown = S.sink sink.old; failed = failed })
        (some_whole_list schema.now all.now) (record { shown = S.sink sink.new; failed = result }) }
{
    let failed = put_on(sink, failed, b">");
    let failed = put_each_whole(sink, failed, schema, all);
    put_on(sink, failed, b"</wfs:DescribeStoredQueriesResponse>")
}

#[tactic(auto, unfolding(crate::specs::StoredQueries::whole_list))]
fn put_whole_list<S: Sink>(
    sink: &mut S,
    failed: bool,
    schema: &Schema,
    all: &List<StoredQuery>,
) -> bool
    ensures { Writes (record { shown = S.sink sink.old; failed = failed })
        (whole_list schema.now all.now) (record { shown = S.sink sink.new; failed = result }) }
{
    if all.items().is_empty() {
        put_on(sink, failed, b"/>")
    } else {
        put_some_whole_list(sink, failed, schema, all)
    }
}

// Gives the body of an answer with stored queries whole.
pub(crate) fn put_stored_texts<S: Sink>(
    sink: &mut S,
    failed: bool,
    schema: &Schema,
    all: &List<StoredQuery>,
) -> bool
    ensures { Writes (record { shown = S.sink sink.old; failed = failed })
        (stored_texts_body schema.now all.now)
        (record { shown = S.sink sink.new; failed = result }) }
{
    let failed = put_declared(sink, failed, TEXTS_START, schema);
    let failed = put_on(
        sink,
        failed,
        b" xmlns:xs=\"http://www.w3.org/2001/XMLSchema\"",
    );
    put_whole_list(sink, failed, schema, all)
}
