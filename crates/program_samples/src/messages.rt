//! Messages, and the schema of what they ask.

use std::alloc::Global;
use wfs_ends::Mem;

/// The schema of most runs: marks, fields and ways.
pub const SCHEMA: &str =
    "title = \"Marks\"\naddress = \"http://localhost:8080/wfs\"\nnamespace = \"http://example.org/marks\"\nprefix = \"m\"\nsrs = [\"urn:ogc:def:crs:EPSG::25832\", \"EPSG:25832\"]\n[[type]]\nname = \"Mark\"\nproperty = [ {name=\"label\", kind=\"text\", required=true, max=40}, {name=\"size\", kind=\"integer\"}, {name=\"place\", kind=\"point\"} ]\n[[type]]\nname = \"Field\"\nproperty = [ {name=\"name\", kind=\"text\"}, {name=\"area\", kind=\"polygon\"} ]\n[[type]]\nname = \"Way\"\nproperty = [ {name=\"course\", kind=\"line\"} ]\n";

/// Adds some parts, one after the other.
pub fn add(text: &mut String, parts: &[&str]) -> Mem<()> {
    for part in parts {
        text.push_str(part)?;
    }
    Ok(())
}

/// The length of some parts.
pub fn length_of(parts: &[&str]) -> usize {
    let mut length: usize = 0;
    for part in parts {
        length = length.saturating_add(part.len());
    }
    length
}

/// Adds the field that gives the length of a body.
pub(crate) fn add_length(text: &mut String, body: &[&str]) -> Mem<()> {
    let length = length_of(body);
    write!(text, "Content-Length: {length}\r\n")?;
    Ok(())
}

/// Adds a message that posts a body, with more fields in its head.
pub fn add_post(text: &mut String, fields: &str, body: &[&str]) -> Mem<()> {
    add(text, &["POST /wfs HTTP/1.1\r\nHost: h\r\n", fields])?;
    add_length(text, body)?;
    text.push_str("\r\n")?;
    add(text, body)
}

/// What an Insert begins with.
pub const INSERT: &str =
    "<wfs:Transaction service=\"WFS\" version=\"2.0.2\" xmlns:wfs=\"http://www.opengis.net/wfs/2.0\" xmlns:m=\"http://example.org/marks\"><wfs:Insert>";

/// What it ends with.
pub const INSERT_END: &str = "</wfs:Insert></wfs:Transaction>";

/// A message: the whole of it, with no features; or the further fields of a head, and the features that are inserted.
pub type Message = (&'static str, &'static str);

fn add_message(text: &mut String, message: &Message) -> Mem<()> {
    let (head, features) = *message;
    if features.is_empty() {
        return add(text, &[head]);
    }
    add_post(text, head, &[INSERT, features, INSERT_END])
}

/// Messages, one after the other.
pub fn messages_of(alloc: Global, messages: &[Message]) -> Mem<String> {
    let mut input = String::new(alloc);
    for message in messages {
        add_message(&mut input, message)?;
    }
    Ok(input)
}

/// Two marks, to be inserted.
pub const TWO_MARKS: &str =
    "<m:Mark><m:label>A</m:label></m:Mark><m:Mark><m:label>B</m:label></m:Mark>";
