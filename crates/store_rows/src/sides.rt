//! A schema, and sides of a journal over it, written by hand: field after field as docs/FORMATS.md has them in "The journal's bytes".

/// The example of "The schema file" there: the types are Mark, by number 0, with three properties, Field, 1, and Way, 2.
pub const SCHEMA: &str = r#"
title = "Marks"
address = "http://localhost:8080/wfs"
namespace = "http://example.org/marks"
prefix = "m"
srs = ["urn:ogc:def:crs:EPSG::25832", "EPSG:25832"]
[[type]]
name = "Mark"
property = [ {name="label", kind="text", required=true, max=40},
  {name="size", kind="integer"}, {name="place", kind="point"} ]
[[type]]
name = "Field"
property = [ {name="name", kind="text"}, {name="area", kind="polygon"} ]
[[type]]
name = "Way"
property = [ {name="course", kind="line"} ]
"#;

// ---- pieces of a side

/// What a side begins with, in generation 1: an open gate, the mark, version 1, and the generation in 8 bytes. 16 bytes.
pub const HEAD_1: &[u8] = b"\x01WFSJNL\x01\0\0\0\0\0\0\0\x01";

/// The same in generation 2.
pub const HEAD_2: &[u8] = b"\x01WFSJNL\x01\0\0\0\0\0\0\0\x02";

/// The same in the last generation but one, and in the last one.
const HEAD_LAST_BUT_ONE: &[u8] = b"\x01WFSJNL\x01\xff\xff\xff\xff\xff\xff\xff\xfe";

const HEAD_LAST: &[u8] = b"\x01WFSJNL\x01\xff\xff\xff\xff\xff\xff\xff\xff";

/// The record of the first opening. Its gate is open; its body has 102 bytes (hexadecimal 66): 1, the number of the opening in 8 bytes, and
/// the signature as a text, which has 89 bytes (59). 5 + 102 = 107 bytes.
pub const OPENING_1: &[u8] =
    b"\x01\0\0\0\x66\x01\0\0\0\0\0\0\0\x01\0\0\0\x59Mark(label:text,size:integer,place:point);Field(name:text,area:polygon);Way(course:line);";

/// The record of the second opening. 107 bytes.
pub const OPENING_2: &[u8] =
    b"\x01\0\0\0\x66\x01\0\0\0\0\0\0\0\x02\0\0\0\x59Mark(label:text,size:integer,place:point);Field(name:text,area:polygon);Way(course:line);";

const OPENING_3: &[u8] =
    b"\x01\0\0\0\x66\x01\0\0\0\0\0\0\0\x03\0\0\0\x59Mark(label:text,size:integer,place:point);Field(name:text,area:polygon);Way(course:line);";

// The record of a change that inserts Mark.1 with the label A. Its body has 26 bytes (1a): 2, one part in 4 bytes; and of the part 1, the
// type 0 in 2 bytes, the number in 8, three values in 2; then a text of 1 byte, null, null. 5 + 26 = 31 bytes.
const MARK_A: &[u8] =
    b"\x01\0\0\0\x1a\x02\0\0\0\x01\x01\0\0\0\0\0\0\0\0\0\x01\0\x03\x01\0\0\0\x01A\0\0";

// Mark.2 with the label B.
const MARK_B: &[u8] =
    b"\x01\0\0\0\x1a\x02\0\0\0\x01\x01\0\0\0\0\0\0\0\0\0\x02\0\x03\x01\0\0\0\x01B\0\0";

// Mark.3 with the label C.
const MARK_C: &[u8] =
    b"\x01\0\0\0\x1a\x02\0\0\0\x01\x01\0\0\0\0\0\0\0\0\0\x03\0\x03\x01\0\0\0\x01C\0\0";

// Mark.1 and Mark.2 in one change. A part has 21 bytes, so the body has 5 + 2 x 21 = 47 (2f). 5 + 47 = 52 bytes.
const MARKS_A_B: &[u8] =
    b"\x01\0\0\0\x2f\x02\0\0\0\x02\x01\0\0\0\0\0\0\0\0\0\x01\0\x03\x01\0\0\0\x01A\0\0\x01\0\0\0\0\0\0\0\0\0\x02\0\x03\x01\0\0\0\x01B\0\0";

// The record of a change that creates the query q for all marks. Its body has 217 bytes (d9): 3, one query in 4 bytes; and of the query its
// identifier of 1 byte, no title, no parameter, and its text of 195 bytes (c3), each length in 4 bytes. 5 + 217 = 222 bytes.
const CREATED: &[u8] =
    b"\x01\0\0\0\xd9\x03\0\0\0\x01\0\0\0\x01q\0\0\0\0\0\0\0\0\0\0\0\xc3<wfs:Query xmlns:wfs=\"http://www.opengis.net/wfs/2.0\" xmlns:fes=\"http://www.opengis.net/fes/2.0\" xmlns:gml=\"http://www.opengis.net/gml/3.2\" xmlns:m=\"http://example.org/marks\" typeNames=\"m:Mark\"/>";

// What a checkpoint of the last opening but one begins with: its number is 999,999,999,999 (e8d4a50fff), and of no type a number was given.
const BASE_LAST: &[u8] =
    b"\x01\0\0\0\x23\x05\0\0\0\xe8\xd4\xa5\x0f\xff\0\x03\0\0\0\0\0\0\0\0\0\0\0\0\0\0\0\0\0\0\0\0\0\0\0\0";

// What a checkpoint behind the second opening begins with. The body has 35 bytes (23): 5, the number of the opening in 8 bytes, three types
// in 2, and 8 bytes for each: Mark.2 was the last number given, and none of the others. 5 + 35 = 40 bytes.
const BASE_2: &[u8] =
    b"\x01\0\0\0\x23\x05\0\0\0\0\0\0\0\x02\0\x03\0\0\0\0\0\0\0\x02\0\0\0\0\0\0\0\0\0\0\0\0\0\0\0\0";

/// The gate that ends a side. 1 byte.
pub const CLOSED: &[u8] = b"\0";

// ---- sides

/// The pieces of a side, and how many bytes they have in all.
pub type Side = (&'static [&'static [u8]], u64);

pub const EMPTY: Side = (&[], 0);

/// The first opening: 16 + 107 + 1.
pub const OPENED: Side = (&[HEAD_1, OPENING_1, CLOSED], 124);

/// Behind it Mark.1: 31 more.
pub const INSERTED: Side = (&[HEAD_1, OPENING_1, MARK_A, CLOSED], 155);

/// Behind that Mark.2: 31 more.
pub const FILLED: Side = (&[HEAD_1, OPENING_1, MARK_A, MARK_B, CLOSED], 186);

/// The first opening, and both marks in one change: 124 + 52.
pub const TWO: Side = (&[HEAD_1, OPENING_1, MARKS_A_B, CLOSED], 176);

/// Behind that the second opening: 107 more.
pub const AGAIN: Side = (&[HEAD_1, OPENING_1, MARKS_A_B, OPENING_2, CLOSED], 283);

/// Behind that Mark.3: 31 more.
pub const THIRD: Side = (
    &[HEAD_1, OPENING_1, MARKS_A_B, OPENING_2, MARK_C, CLOSED],
    314,
);

/// The checkpoint behind the second opening, with both marks: 16 + 40 + 52 + 1.
pub const SHORT: Side = (&[HEAD_2, BASE_2, MARKS_A_B, CLOSED], 109);

/// Behind that the third opening: 107 more.
pub const SHORT_AGAIN: Side = (&[HEAD_2, BASE_2, MARKS_A_B, OPENING_3, CLOSED], 216);

/// The first opening and a stored query: 124 + 222.
pub const STORED: Side = (&[HEAD_1, OPENING_1, CREATED, CLOSED], 346);

/// A checkpoint of the last opening but one, with nothing: 16 + 40 + 1.
pub const LAST_BUT_ONE: Side = (&[HEAD_2, BASE_LAST, CLOSED], 57);

/// The first opening and Mark.1, as above, in the last generation but one.
pub const OLDER: Side = (&[HEAD_LAST_BUT_ONE, OPENING_1, MARK_A, CLOSED], 155);

/// And in the last one.
pub const OLDEST: Side = (&[HEAD_LAST, OPENING_1, MARK_A, CLOSED], 155);
