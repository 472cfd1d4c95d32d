//! Bodies that were written by hand, byte by byte, from the format; what they say; and bytes that are none.

ghost use Rattle.std.specs.Prelude.{◌≤◌, length};
ghost use Rattle.journal_format.specs.RoundTrip.{IsSpelledBy};

use journal_format::{RecordFault, Recorded, put_record, read_record, record_length};
use said::said;
use std::alloc::Global;
use wfs_ends::{Mem, Text};

mod said;

/// The first opening, with the signature of a schema.
const OPENING: &[u8] =
    b"\x01\0\0\0\0\0\0\0\x01\0\0\0\x59Mark(label:text,size:integer,place:point);Field(name:text,area:polygon);Way(course:line);";

/// The insert of a mark that has a label alone.
const INSERT: &[u8] = b"\x02\0\0\0\x01\x01\0\0\0\0\0\0\0\0\0\x01\0\x03\x01\0\0\0\x01A\0\0";

/// A feature with a value of each kind, and one that goes.
const ROWS: &[u8] = &[
    2, 0, 0, 0, 2, // two parts
    1, 0, 1, 0, 0, 0, 0, 0, 0, 0, 7, 0, 9, // nine values of the feature 7 of type 1
    0, // null
    1, 0, 0, 0, 2, 195, 169, // é
    2, 0, 0, 0, 0, 0, 0, 1, 2, // 258
    2, 255, 255, 255, 255, 255, 255, 255, 254, // -2
    3, 1, // true
    3, 0, // false
    4, 0, 0, 0, 1, 255, 255, 255, 255, // 1 -1
    5, 0, 0, 0, 2, // a line
    0, 0, 0, 0, 0, 0, 0, 0, // 0 0
    196, 101, 54, 0, 59, 154, 202, 0, // -1,000,000,000 1,000,000,000
    6, 0, 0, 0, 2, // a polygon with a hole
    0, 0, 0, 4, 0, 0, 0, 0, 0, 0, 0, 0, 0, 0, 0, 9, 0, 0, 0, 0, // 0 0, 9 0
    0, 0, 0, 0, 0, 0, 0, 9, 0, 0, 0, 0, 0, 0, 0, 0, // 0 9, 0 0
    0, 0, 0, 4, 0, 0, 0, 1, 0, 0, 0, 1, 0, 0, 0, 2, 0, 0, 0, 1, // 1 1, 2 1
    0, 0, 0, 1, 0, 0, 0, 2, 0, 0, 0, 1, 0, 0, 0, 1, // 1 2, 1 1
    2, 0, 0, 0, 0, 0, 0, 0, 0, 1, 0, // the feature 256 of type 0 goes
];

/// A stored query with two parameters and no title.
const CREATED: &[u8] =
    b"\x03\0\0\0\x01\0\0\0\x01q\0\0\0\0\0\0\0\x02\0\0\0\x01a\0\0\0\x02bc\0\0\0\x04<x/>";

/// That query goes.
const DROPPED: &[u8] = b"\x04\0\0\0\x01q";

/// The third opening, and how many numbers were given of two types: 7, and 1,000,000,000,000.
const BASE: &[u8] = b"\x05\0\0\0\0\0\0\0\x03\0\x02\0\0\0\0\0\0\0\x07\0\0\0\xe8\xd4\xa5\x10\0";

static BODIES: [&[u8]; 6] = [OPENING, INSERT, ROWS, CREATED, DROPPED, BASE];

/// Whether what was read of a body is put as that body, and is counted to be as long.
fn is_put_again(alloc: Global, recorded: &Recorded, body: &[u8]) -> Mem<bool>
    requires spelled { IsSpelledBy recorded.now body.now }
    requires short { length body.now ≤ 4_294_967_295 }
{
    let none = Text::of(alloc, "")?;
    let signature = match &recorded.signature {
        Some(signature) => signature,
        None => &none,
    };
    let mut into = Vec::new(alloc);
    put_record(&recorded.change, signature, &mut into)?;
    Ok(into.as_slice() == body && record_length(&recorded.change, signature) == body.len() as u64)
}

/// Whether a body says what it should, and is put again as it is.
fn is_body(alloc: Global, place: usize, body: &[u8]) -> Result<bool, RecordFault> {
    let recorded = read_record(alloc, body)?;
    Ok(
        recorded == said(alloc, place)?
            && body.len() < 1000
            && is_put_again(alloc, &recorded, body)?,
    )
}

/// The first body that is read or put otherwise.
fn first_unlike(alloc: Global) -> Result<Option<usize>, RecordFault> {
    for place in 0..BODIES.len() {
        if !is_body(alloc, place, BODIES[place])? {
            return Ok(Some(place));
        }
    }
    Ok(None)
}

#[test]
fn bodies_are_read_and_put(rt: HostRuntime) {
    assert_eq!(rt; first_unlike(rt.alloc()), Ok(None));
}

/// Why these bytes are no body, or nothing.
fn fault_of(alloc: Global, bytes: &[u8]) -> Option<RecordFault> {
    match read_record(alloc, bytes) {
        Ok(_) => None,
        Err(fault) => Some(fault),
    }
}

/// The first length at which the front of a body is not told to be cut.
fn first_uncut(alloc: Global, body: &[u8]) -> Option<usize> {
    for size in 0..body.len() {
        if fault_of(alloc, &body[..size]) != Some(RecordFault::Cut) {
            return Some(size);
        }
    }
    None
}

/// The first body of which some front is not told to be cut.
fn first_uncut_body(alloc: Global) -> Option<usize> {
    for place in 0..BODIES.len() {
        if first_uncut(alloc, BODIES[place]).is_some() {
            return Some(place);
        }
    }
    None
}

#[test]
fn fronts_of_bodies_are_cut(rt: HostRuntime) {
    assert_eq!(rt; first_uncut_body(rt.alloc()), None);
}

/// Bytes that are no body, and why.
static WRONG: [(&[u8], RecordFault); 20] = [
    (b"", RecordFault::Cut),
    (b"\0", RecordFault::Kind),
    (b"\x06", RecordFault::Kind),
    // a part is of no kind
    (b"\x02\0\0\0\x01\0", RecordFault::Kind),
    (b"\x02\0\0\0\x01\x03", RecordFault::Kind),
    // no text
    (b"\x04\0\0\0\x01\xff", RecordFault::Kind),
    (b"\x01\0\0\0\0\0\0\0\x01\0\0\0\x01\xc3", RecordFault::Kind),
    // more bytes are told than there are
    (b"\x04\xff\xff\xff\xffa", RecordFault::Cut),
    // a length and a number of parts with their lowest byte first
    (b"\x04\x01\0\0\0q", RecordFault::Cut),
    (
        b"\x02\x01\0\0\0\x02\0\0\0\0\0\0\0\0\0\x01",
        RecordFault::Cut,
    ),
    // a byte stands behind each kind of body
    (b"\x01\0\0\0\0\0\0\0\x01\0\0\0\0\0", RecordFault::Trailing),
    (b"\x02\0\0\0\0\0", RecordFault::Trailing),
    (b"\x03\0\0\0\0\0", RecordFault::Trailing),
    (b"\x04\0\0\0\x01qq", RecordFault::Trailing),
    (b"\x05\0\0\0\0\0\0\0\x01\0\0\0", RecordFault::Trailing),
    // the value of a mark is of no kind, is the boolean 2, a position too far off, a line of one position, and a
    // polygon of no ring
    (
        b"\x02\0\0\0\x01\x01\0\0\0\0\0\0\0\0\0\x01\0\x01\x07",
        RecordFault::Kind,
    ),
    (
        b"\x02\0\0\0\x01\x01\0\0\0\0\0\0\0\0\0\x01\0\x01\x03\x02",
        RecordFault::Kind,
    ),
    (
        b"\x02\0\0\0\x01\x01\0\0\0\0\0\0\0\0\0\x01\0\x01\x04\0\0\0\0\x3b\x9a\xca\x01",
        RecordFault::Kind,
    ),
    (
        b"\x02\0\0\0\x01\x01\0\0\0\0\0\0\0\0\0\x01\0\x01\x05\0\0\0\x01\0\0\0\0\0\0\0\0",
        RecordFault::Kind,
    ),
    (
        b"\x02\0\0\0\x01\x01\0\0\0\0\0\0\0\0\0\x01\0\x01\x06\0\0\0\0",
        RecordFault::Kind,
    ),
];

/// The number of the first row that is read otherwise.
fn first_wrong(alloc: Global) -> Option<usize> {
    for i in 0..WRONG.len() {
        let (bytes, fault) = WRONG[i];
        if fault_of(alloc, bytes) != Some(fault) {
            return Some(i);
        }
    }
    None
}

#[test]
fn what_is_no_body_is_refused(rt: HostRuntime) {
    assert_eq!(rt; first_wrong(rt.alloc()), None);
}
