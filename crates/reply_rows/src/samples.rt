//! A schema, features of it, and what a reply is compared with.

use crate::schemas::{Named, feature_type, schema};
use feature_values::{Feature, Rid, Schema, Value, ValueKind};
use reply_documents::{put_reply, reply_length};
use std::alloc::Global;
use wfs_ends::{Mem, MemSink, Text};
use wfs_model::Reply;

static MARK: [Named; 3] = [
    ("label", ValueKind::Words, false),
    ("size", ValueKind::Whole, false),
    ("place", ValueKind::Point, false),
];

static FLAG: [Named; 2] = [
    ("up", ValueKind::Truth, false),
    ("lit", ValueKind::Truth, false),
];

// Marks and flags.
fn marks(alloc: Global) -> Mem<Schema> {
    let mut types = Vec::new(alloc);
    types.push(feature_type(alloc, "Mark", &MARK)?)?;
    types.push(feature_type(alloc, "Flag", &FLAG)?)?;
    schema(alloc, types)
}

pub(crate) fn feature(alloc: Global, kind: u32, number: u64, values: Vec<Value>) -> Mem<Feature> {
    Feature::of(alloc, Rid { kind, number }, values)
}

pub(crate) fn mark(
    alloc: Global,
    number: u64,
    label: &str,
    size: Value,
    place: Value,
) -> Mem<Feature> {
    let mut values = Vec::new(alloc);
    values.push(Value::Words(Text::of(alloc, label)?))?;
    values.push(size)?;
    values.push(place)?;
    feature(alloc, 0, number, values)
}

pub(crate) fn flag(alloc: Global, kind: u32, number: u64, up: Value, lit: Value) -> Mem<Feature> {
    let mut values = Vec::new(alloc);
    values.push(up)?;
    values.push(lit)?;
    feature(alloc, kind, number, values)
}

// The media types of replies.
pub(crate) const GML: &str = "application/gml+xml; version=3.2";

pub(crate) const XML: &str = "text/xml";

// The bytes of a reply over a schema. The connection ends after it where `close` says so.
fn given(alloc: Global, reply: &Reply, schema: &Schema, close: bool) -> Mem<MemSink> {
    let mut sink = MemSink::new(alloc, 4_000, Vec::new(alloc))?;
    let _ = put_reply(reply, schema, close, &mut sink);
    Ok(sink)
}

// The bytes of an answer with a body.
fn expected(alloc: Global, media: &str, size: u64, close: bool, body: &str) -> Mem<String> {
    let end = if close { "Connection: close\r\n" } else { "" };
    Ok(format!(in alloc;
        "HTTP/1.1 200 OK\r\nContent-Type: {media}\r\nContent-Length: {size}\r\n{end}\r\n{body}"
    )?)
}

fn is_put(
    alloc: Global,
    reply: &Reply,
    close: bool,
    media: &str,
    size: u64,
    body: &str,
) -> Mem<bool> {
    let text = expected(alloc, media, size, close, body)?;
    let schema = marks(alloc)?;
    let answer = given(alloc, reply, &schema, close)?;
    Ok(answer.bytes() == text.as_bytes())
}

fn length_of(alloc: Global, reply: &Reply) -> Mem<u64> {
    let schema = marks(alloc)?;
    Ok(reply_length(reply, &schema))
}

// Whether a reply is given with this media type, length and body, and is as long as is said.
pub(crate) fn is_given(
    alloc: Global,
    reply: &Reply,
    media: &str,
    size: u64,
    body: &str,
) -> Mem<bool> {
    Ok(length_of(alloc, reply)? == size && is_put(alloc, reply, false, media, size, body)?)
}

// Whether a reply is given so where the connection ends after it.
pub(crate) fn is_given_last(
    alloc: Global,
    reply: &Reply,
    media: &str,
    size: u64,
    body: &str,
) -> Mem<bool> {
    is_put(alloc, reply, true, media, size, body)
}
