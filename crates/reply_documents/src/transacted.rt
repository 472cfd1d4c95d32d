//! The body of an answer to a transaction.

ghost use Rattle.std.specs.Prelude.{◌≡◌, length};
ghost use Rattle.std.specs.List.{flat_map};
ghost use Rattle.wfs_ends.specs.Ends.{Writes};
ghost use Rattle.reply_documents.specs.Transacted.{some_handle_text, handle_text, typed_made_text, made_text, some_results_text, results_text, total_text, totals_text, all_results_text, transacted_body};

use crate::answer::put_number;
use crate::feature::{find_type, put_rid};
use doc_tree::put_escaped;
use feature_values::{FeatureType, Schema};
use wfs_ends::{List, Sink, Text, put_on};
use wfs_model::Made;

// The parts of a transaction's answer (OGC 09-025r2, 15.3) that are the same in each.
const START: &[u8] =
    b"<?xml version=\"1.0\" encoding=\"UTF-8\"?><wfs:TransactionResponse xmlns:wfs=\"http://www.opengis.net/wfs/2.0\" xmlns:fes=\"http://www.opengis.net/fes/2.0\" version=\"2.0.2\"><wfs:TransactionSummary>";

const RESULTS: &[u8] = b"</wfs:TransactionSummary>";

const END: &[u8] = b"</wfs:TransactionResponse>";

// Gives the body of a transaction's answer.
pub(crate) fn put_transacted<S: Sink>(
    sink: &mut S,
    failed: bool,
    schema: &Schema,
    deleted: u64,
    inserted: &List<Made>,
    updated: &List<Made>,
    replaced: &List<Made>,
) -> bool
    ensures { Writes (record { shown = S.sink sink.old; failed = failed })
        (transacted_body schema.now deleted inserted.now updated.now replaced.now)
        (record { shown = S.sink sink.new; failed = result }) }
{
    let failed = put_on(sink, failed, START);
    let failed = put_totals(sink, failed, inserted, updated, replaced, deleted);
    let failed = put_on(sink, failed, RESULTS);
    let failed = put_all_results(sink, failed, schema, inserted, updated, replaced);
    put_on(sink, failed, END)
}

// Gives how many features the actions of each kind made, changed or deleted.
fn put_totals<S: Sink>(
    sink: &mut S,
    failed: bool,
    inserted: &List<Made>,
    updated: &List<Made>,
    replaced: &List<Made>,
    deleted: u64,
) -> bool
    ensures { Writes (record { shown = S.sink sink.old; failed = failed })
        (totals_text (length inserted.now) (length updated.now) (length replaced.now) deleted)
        (record { shown = S.sink sink.new; failed = result }) }
{
    let failed = put_total(
        sink,
        failed,
        b"<wfs:totalInserted>",
        count(inserted),
        b"</wfs:totalInserted>",
    );
    let failed = put_total(
        sink,
        failed,
        b"<wfs:totalUpdated>",
        count(updated),
        b"</wfs:totalUpdated>",
    );
    let failed = put_total(
        sink,
        failed,
        b"<wfs:totalReplaced>",
        count(replaced),
        b"</wfs:totalReplaced>",
    );
    put_total(
        sink,
        failed,
        b"<wfs:totalDeleted>",
        deleted,
        b"</wfs:totalDeleted>",
    )
}

// How many features a list has.
fn count(made: &List<Made>) -> u64
    ensures { result ≡ length made.now }
{
    made.items().len() as u64
}

// Gives one total.
fn put_total<S: Sink>(sink: &mut S, failed: bool, start: &[u8], total: u64, end: &[u8]) -> bool
    ensures { Writes (record { shown = S.sink sink.old; failed = failed })
        (total_text start.now total end.now) (record { shown = S.sink sink.new; failed = result }) }
{
    let failed = put_on(sink, failed, start);
    let failed = put_number(sink, failed, total);
    put_on(sink, failed, end)
}

// Gives the features of all actions.
fn put_all_results<S: Sink>(
    sink: &mut S,
    failed: bool,
    schema: &Schema,
    inserted: &List<Made>,
    updated: &List<Made>,
    replaced: &List<Made>,
) -> bool
    ensures { Writes (record { shown = S.sink sink.old; failed = failed })
        (all_results_text schema.now inserted.now updated.now replaced.now)
        (record { shown = S.sink sink.new; failed = result }) }
{
    let failed = put_results(
        sink,
        failed,
        schema,
        b"<wfs:InsertResults>",
        inserted,
        b"</wfs:InsertResults>",
    );
    let failed = put_results(
        sink,
        failed,
        schema,
        b"<wfs:UpdateResults>",
        updated,
        b"</wfs:UpdateResults>",
    );
    put_results(
        sink,
        failed,
        schema,
        b"<wfs:ReplaceResults>",
        replaced,
        b"</wfs:ReplaceResults>",
    )
}

// Gives the features of one kind of action, where there are any.
#[tactic(auto, unfolding(crate::specs::Transacted::results_text))]
fn put_results<S: Sink>(
    sink: &mut S,
    failed: bool,
    schema: &Schema,
    start: &[u8],
    made: &List<Made>,
    end: &[u8],
) -> bool
    ensures { Writes (record { shown = S.sink sink.old; failed = failed })
        (results_text schema.now start.now made.now end.now)
        (record { shown = S.sink sink.new; failed = result }) }
{
    if made.items().is_empty() {
        put_on(sink, failed, b"")
    } else {
        put_some_results(sink, failed, schema, start, made, end)
    }
}

// Gives the features of one kind of action.
fn put_some_results<S: Sink>(
    sink: &mut S,
    failed: bool,
    schema: &Schema,
    start: &[u8],
    made: &List<Made>,
    end: &[u8],
) -> bool
    ensures { Writes (record { shown = S.sink sink.old; failed = failed })
        (some_results_text schema.now start.now made.now end.now)
        (record { shown = S.sink sink.new; failed = result }) }
{
    let failed = put_on(sink, failed, start);
    let failed = put_made_list(sink, failed, schema, made);
    put_on(sink, failed, end)
}

// Gives the features one after the other.
fn put_made_list<S: Sink>(sink: &mut S, failed: bool, schema: &Schema, made: &List<Made>) -> bool
    ensures { Writes (record { shown = S.sink sink.old; failed = failed })
        (flat_map (made_text schema.now) made.now)
        (record { shown = S.sink sink.new; failed = result }) }
{
    let mut failed = put_on(sink, failed, b"");
    for feature in made.items() {
        failed = put_made(sink, failed, schema, feature);
    }
    failed
}

// Gives a feature by its resource id, where its type is in the schema.
#[tactic(auto, unfolding(crate::specs::Transacted::made_text))]
fn put_made<S: Sink>(sink: &mut S, failed: bool, schema: &Schema, made: &Made) -> bool
    ensures { Writes (record { shown = S.sink sink.old; failed = failed })
        (made_text schema.now made.now) (record { shown = S.sink sink.new; failed = result }) }
{
    match find_type(schema, made.id.kind) {
        None => put_on(sink, failed, b""),
        Some(of_type) => put_typed_made(sink, failed, of_type, made),
    }
}

// Gives a feature of this type by its resource id.
fn put_typed_made<S: Sink>(sink: &mut S, failed: bool, of_type: &FeatureType, made: &Made) -> bool
    ensures { Writes (record { shown = S.sink sink.old; failed = failed })
        (typed_made_text of_type.now made.now)
        (record { shown = S.sink sink.new; failed = result }) }
{
    let failed = put_on(sink, failed, b"<wfs:Feature");
    let failed = put_handle(sink, failed, &made.handle);
    let failed = put_on(sink, failed, b"><fes:ResourceId rid=\"");
    let failed = put_rid(sink, failed, of_type, made.id.number);
    put_on(sink, failed, b"\"/></wfs:Feature>")
}

// Gives the handle of an action, where there is one.
fn put_handle<S: Sink>(sink: &mut S, failed: bool, handle: &Option<Text>) -> bool
    ensures { Writes (record { shown = S.sink sink.old; failed = failed }) (handle_text handle.now)
        (record { shown = S.sink sink.new; failed = result }) }
{
    match handle {
        None => put_on(sink, failed, b""),
        Some(handle) => put_some_handle(sink, failed, handle),
    }
}

// Gives the handle of an action.
fn put_some_handle<S: Sink>(sink: &mut S, failed: bool, handle: &Text) -> bool
    ensures { Writes (record { shown = S.sink sink.old; failed = failed })
        (some_handle_text handle.now) (record { shown = S.sink sink.new; failed = result }) }
{
    let failed = put_on(sink, failed, b" handle=\"");
    let failed = put_escaped(sink, failed, handle, true);
    put_on(sink, failed, b"\"")
}
