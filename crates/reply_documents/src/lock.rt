//! The body of an answer to a request for a lock.

ghost use Rattle.std.specs.Prelude.{◌≡◌};
ghost use Rattle.std.specs.List.{flat_map};
ghost use Rattle.wfs_ends.specs.Ends.{Writes};
ghost use Rattle.reply_documents.specs.Locks.{some_lock_text, lock_text, resource_text, id_text, some_ids_text, ids_text, some_features_text, features_text, locked_body};

use crate::answer::put_number;
use crate::feature::{find_type, put_rid};
use feature_values::{FeatureType, Rid, Schema};
use lock_table::LockId;
use wfs_ends::{List, Sink, put_on};

// The start of a lock's answer (OGC 09-025r2, 12.3).
const START: &[u8] =
    b"<?xml version=\"1.0\" encoding=\"UTF-8\"?><wfs:LockFeatureResponse xmlns:wfs=\"http://www.opengis.net/wfs/2.0\" xmlns:fes=\"http://www.opengis.net/fes/2.0\"";

// Gives the identifier of a lock as an attribute.
fn put_some_lock<S: Sink>(sink: &mut S, failed: bool, lock: &LockId) -> bool
    ensures { Writes (record { shown = S.sink sink.old; failed = failed }) (some_lock_text lock.now)
        (record { shown = S.sink sink.new; failed = result }) }
{
    let failed = put_on(sink, failed, b" lockId=\"lock-");
    let failed = put_number(sink, failed, lock.opening);
    let failed = put_on(sink, failed, b"-");
    let failed = put_number(sink, failed, lock.number);
    put_on(sink, failed, b"\"")
}

// Gives the identifier of a lock as an attribute, where there is a lock.
pub(crate) fn put_lock<S: Sink>(sink: &mut S, failed: bool, lock: &Option<LockId>) -> bool
    ensures { Writes (record { shown = S.sink sink.old; failed = failed }) (lock_text lock.now)
        (record { shown = S.sink sink.new; failed = result }) }
{
    match lock {
        None => put_on(sink, failed, b""),
        Some(lock) => put_some_lock(sink, failed, lock),
    }
}

// Gives a feature of this type by its id.
fn put_resource<S: Sink>(sink: &mut S, failed: bool, of_type: &FeatureType, number: u64) -> bool
    ensures { Writes (record { shown = S.sink sink.old; failed = failed })
        (resource_text of_type.now number) (record { shown = S.sink sink.new; failed = result }) }
{
    let failed = put_on(sink, failed, b"<fes:ResourceId rid=\"");
    let failed = put_rid(sink, failed, of_type, number);
    put_on(sink, failed, b"\"/>")
}

// Gives a feature by its id, where its type is in the schema.
#[tactic(auto, unfolding(crate::specs::Locks::id_text))]
fn put_id<S: Sink>(sink: &mut S, failed: bool, schema: &Schema, id: &Rid) -> bool
    ensures { Writes (record { shown = S.sink sink.old; failed = failed })
        (id_text schema.now id.now) (record { shown = S.sink sink.new; failed = result }) }
{
    match find_type(schema, id.kind) {
        None => put_on(sink, failed, b""),
        Some(of_type) => put_resource(sink, failed, of_type, id.number),
    }
}

fn put_each_id<S: Sink>(sink: &mut S, failed: bool, schema: &Schema, ids: &List<Rid>) -> bool
    ensures { Writes (record { shown = S.sink sink.old; failed = failed })
        (flat_map (id_text schema.now) ids.now)
        (record { shown = S.sink sink.new; failed = result }) }
{
    let mut failed = put_on(sink, failed, b"");
    for id in ids.items() {
        failed = put_id(sink, failed, schema, id);
    }
    failed
}

fn put_some_ids<S: Sink>(
    sink: &mut S,
    failed: bool,
    schema: &Schema,
    start: &[u8],
    ids: &List<Rid>,
    end: &[u8],
) -> bool
    ensures { Writes (record { shown = S.sink sink.old; failed = failed })
        (some_ids_text schema.now start.now ids.now end.now)
        (record { shown = S.sink sink.new; failed = result }) }
{
    let failed = put_on(sink, failed, start);
    let failed = put_each_id(sink, failed, schema, ids);
    put_on(sink, failed, end)
}

// Gives features by their ids, where there are any.
#[tactic(auto, unfolding(crate::specs::Locks::ids_text))]
fn put_ids<S: Sink>(
    sink: &mut S,
    failed: bool,
    schema: &Schema,
    start: &[u8],
    ids: &List<Rid>,
    end: &[u8],
) -> bool
    ensures { Writes (record { shown = S.sink sink.old; failed = failed })
        (ids_text schema.now start.now ids.now end.now)
        (record { shown = S.sink sink.new; failed = result }) }
{
    if ids.items().is_empty() {
        put_on(sink, failed, b"")
    } else {
        put_some_ids(sink, failed, schema, start, ids, end)
    }
}

fn put_some_features<S: Sink>(
    sink: &mut S,
    failed: bool,
    schema: &Schema,
    taken: &List<Rid>,
    missed: &List<Rid>,
) -> bool
    ensures { Writes (record { shown = S.sink sink.old; failed = failed })
        (some_features_text schema.now taken.now missed.now)
        (record { shown = S.sink sink.new; failed = result }) }
{
    let failed = put_on(sink, failed, b">");
    let failed = put_ids(
        sink,
        failed,
        schema,
        b"<wfs:FeaturesLocked>",
        taken,
        b"</wfs:FeaturesLocked>",
    );
    let failed = put_ids(
        sink,
        failed,
        schema,
        b"<wfs:FeaturesNotLocked>",
        missed,
        b"</wfs:FeaturesNotLocked>",
    );
    put_on(sink, failed, b"</wfs:LockFeatureResponse>")
}

// Gives the end of the root, with the features that were taken and those that were not before it.
#[tactic(auto, unfolding(crate::specs::Locks::features_text))]
fn put_features<S: Sink>(
    sink: &mut S,
    failed: bool,
    schema: &Schema,
    taken: &List<Rid>,
    missed: &List<Rid>,
) -> bool
    ensures { Writes (record { shown = S.sink sink.old; failed = failed })
        (features_text schema.now taken.now missed.now)
        (record { shown = S.sink sink.new; failed = result }) }
{
    if taken.items().is_empty() && missed.items().is_empty() {
        put_on(sink, failed, b"/>")
    } else {
        put_some_features(sink, failed, schema, taken, missed)
    }
}

// Gives the body of a lock's answer.
pub(crate) fn put_locked<S: Sink>(
    sink: &mut S,
    failed: bool,
    schema: &Schema,
    lock: &Option<LockId>,
    taken: &List<Rid>,
    missed: &List<Rid>,
) -> bool
    ensures { Writes (record { shown = S.sink sink.old; failed = failed })
        (locked_body schema.now lock.now taken.now missed.now)
        (record { shown = S.sink sink.new; failed = result }) }
{
    let failed = put_on(sink, failed, START);
    let failed = put_lock(sink, failed, lock);
    put_features(sink, failed, schema, taken, missed)
}
