//! A whole answer: the head and the body of a reply.

ghost use Rattle.std.specs.Prelude.{◌≡◌, length};
ghost use Rattle.wfs_ends.specs.Ends.{capped, Gives, Writes};
ghost use Rattle.reply_documents.specs.ReplyText.{reply_status, is_gml, reply_media, reply_body, reply_text};

use crate::answer::{finish, put_head};
use crate::collection::put_collection;
use crate::feature::put_bare;
use crate::lock::put_locked;
use crate::refusal::{put_refusal, refusal_status};
use crate::stored::{put_stored_list, put_stored_texts};
use crate::transacted::put_transacted;
use crate::values::put_values;
use feature_values::Schema;
use http::StatusCode;
use service_docs::{put_capabilities_on, put_schema_on};
use wfs_ends::{CountingSink, Sink, WriteFault, put_on};
use wfs_model::Reply;

// The answers to requests that stored queries be made, and that one be dropped (OGC 09-025r2, 14.5 and 14.6).
const CREATED: &[u8] =
    b"<?xml version=\"1.0\" encoding=\"UTF-8\"?><wfs:CreateStoredQueryResponse xmlns:wfs=\"http://www.opengis.net/wfs/2.0\" status=\"OK\"/>";

const DROPPED: &[u8] =
    b"<?xml version=\"1.0\" encoding=\"UTF-8\"?><wfs:DropStoredQueryResponse xmlns:wfs=\"http://www.opengis.net/wfs/2.0\" status=\"OK\"/>";

// The status of a reply.
fn status_of(reply: &Reply) -> StatusCode
    ensures { result ≡ reply_status reply.now }
{
    match reply {
        Reply::Refused(refusal) => refusal_status(refusal),
        _ => StatusCode::OK,
    }
}

// Whether a reply is GML: features, their values and their schema are.
fn is_gml(reply: &Reply) -> bool
    ensures { result ≡ is_gml reply.now }
{
    match reply {
        Reply::Types(_) => true,
        Reply::Collection { .. } => true,
        Reply::Values { .. } => true,
        Reply::Bare(_) => true,
        _ => false,
    }
}

// The media type of a reply.
fn media_of(reply: &Reply) -> &'static str
    ensures { result.now ≡ reply_media reply.now }
{
    if is_gml(reply) {
        "application/gml+xml; version=3.2"
    } else {
        "text/xml"
    }
}

// Gives the body of a reply.
fn put_body<S: Sink>(sink: &mut S, failed: bool, reply: &Reply, schema: &Schema) -> bool
    ensures { Writes (record { shown = S.sink sink.old; failed = failed })
        (reply_body reply.now schema.now) (record { shown = S.sink sink.new; failed = result }) }
{
    match reply {
        Reply::Capabilities => put_capabilities_on(sink, failed, schema),
        Reply::Types(types) => put_schema_on(sink, failed, types, schema),
        Reply::Collection {
            moment,
            matched,
            features,
            lock,
            next,
            previous,
        } => put_collection(
            sink, failed, schema, *moment, *matched, features, lock, next, previous,
        ),
        Reply::Values {
            moment,
            matched,
            property,
            features,
            next,
            previous,
        } => put_values(
            sink, failed, schema, *moment, *matched, *property, features, next, previous,
        ),
        Reply::Bare(feature) => put_bare(sink, failed, schema, feature),
        Reply::Locked {
            lock,
            taken,
            missed,
        } => put_locked(sink, failed, schema, lock, taken, missed),
        Reply::Transacted {
            deleted,
            inserted,
            updated,
            replaced,
        } => put_transacted(sink, failed, schema, *deleted, inserted, updated, replaced),
        Reply::StoredList(all) => put_stored_list(sink, failed, schema, all),
        Reply::StoredTexts(all) => put_stored_texts(sink, failed, schema, all),
        Reply::Created => put_on(sink, failed, CREATED),
        Reply::Dropped => put_on(sink, failed, DROPPED),
        Reply::Refused(refusal) => put_refusal(sink, failed, refusal),
    }
}

/// Gives a reply of a service with this schema as one answer of HTTP, whole: the head (RFC 9112, sections 4 to 6) with
/// the length of the body, and the body. `close` says whether the connection ends after it. It takes no memory: the
/// reply is gone through once for the length, and once as it is given.
///
/// A feature whose type is not in the schema writes nothing, nor does a type that is not in it, nor a property whose value
/// is null, nor one that has no value, nor a value that has no property. A moment is written as `civil_time::moment_text`
/// does, and the number of a refusal is a row of the table of refusals (docs/FORMATS.md); a number that is no row counts
/// as 27. The text of a stored query is text of XML already and is given as it stands.
///
/// `WriteFault` comes only where the sink's count of failed puts rose; a front of the text was given then.
pub fn put_reply<S: Sink>(
    reply: &Reply,
    schema: &Schema,
    close: bool,
    sink: &mut S,
) -> Result<(), WriteFault>
    ensures { Gives result (S.sink sink.old) (reply_text reply.now schema.now close)
        (S.sink sink.new) }
{
    let size = reply_length(reply, schema);
    let failed = put_head(sink, status_of(reply), media_of(reply), size, close);
    let failed = put_body(sink, failed, reply, schema);
    finish(failed)
}

/// How many bytes the body of a reply has, or the greatest u64 where they are more.
#[tactic(auto, using(wfs_ends::proofs::Writing::counted_on))]
pub fn reply_length(reply: &Reply, schema: &Schema) -> u64
    ensures { result ≡ capped (length (reply_body reply.now schema.now)) }
{
    let mut counter = CountingSink::new();
    let _ = put_body(&mut counter, false, reply, schema);
    counter.count()
}
