//! Files that were written by hand, byte by byte.

use crate::{Counts, OpenFault, Recorded};
use recovery::Place;

pub(super) const MARKS: &str = r#"
title = "Marks"
address = "http://localhost:8080/wfs"
namespace = "http://example.org/marks"
prefix = "m"
srs = ["urn:ogc:def:crs:EPSG::25832", "EPSG:25832"]
[[type]]
name = "Mark"
property = [ {name="label", kind="text", required=true, max=40},
  {name="size", kind="integer"}, {name="place", kind="point"} ]
[[type]]
name = "Field"
property = [ {name="name", kind="text"}, {name="area", kind="polygon"} ]
[[type]]
name = "Way"
property = [ {name="course", kind="line"} ]
"#;

/// The body of a change: Mark.1 with the label A.
pub(super) const CHANGE: &[u8] =
    b"\x02\0\0\0\x01\x01\0\0\0\0\0\0\0\0\0\x01\0\x03\x01\0\0\0\x01A\0\0";

/// Generation 1 with no record.
pub(super) const FRESH: &[u8] = b"\x01WFSJNL\x01\0\0\0\0\0\0\0\x01\0";

/// Generation 1 with the first opening: 124 bytes.
pub(super) const OPENED: &[u8] =
    b"\x01WFSJNL\x01\0\0\0\0\0\0\0\x01\x01\0\0\0f\x01\0\0\0\0\0\0\0\x01\0\0\0YMark(label:text,size:integer,place:point);Field(name:text,area:polygon);Way(course:line);\0";

/// Behind it the change: 155 bytes.
pub(super) const INSERTED: &[u8] =
    b"\x01WFSJNL\x01\0\0\0\0\0\0\0\x01\x01\0\0\0f\x01\0\0\0\0\0\0\0\x01\0\0\0YMark(label:text,size:integer,place:point);Field(name:text,area:polygon);Way(course:line);\x01\0\0\0\x1a\x02\0\0\0\x01\x01\0\0\0\0\0\0\0\0\0\x01\0\x03\x01\0\0\0\x01A\0\0\0";

/// Behind that the second opening: 262 bytes.
pub(super) const AGAIN: &[u8] =
    b"\x01WFSJNL\x01\0\0\0\0\0\0\0\x01\x01\0\0\0f\x01\0\0\0\0\0\0\0\x01\0\0\0YMark(label:text,size:integer,place:point);Field(name:text,area:polygon);Way(course:line);\x01\0\0\0\x1a\x02\0\0\0\x01\x01\0\0\0\0\0\0\0\0\0\x01\0\x03\x01\0\0\0\x01A\0\0\x01\0\0\0f\x01\0\0\0\0\0\0\0\x02\0\0\0YMark(label:text,size:integer,place:point);Field(name:text,area:polygon);Way(course:line);\0";

/// The same with the gate of the second opening closed.
pub(super) const AGAIN_SHUT: &[u8] =
    b"\x01WFSJNL\x01\0\0\0\0\0\0\0\x01\x01\0\0\0f\x01\0\0\0\0\0\0\0\x01\0\0\0YMark(label:text,size:integer,place:point);Field(name:text,area:polygon);Way(course:line);\x01\0\0\0\x1a\x02\0\0\0\x01\x01\0\0\0\0\0\0\0\0\0\x01\0\x03\x01\0\0\0\x01A\0\0\0\0\0\0f\x01\0\0\0\0\0\0\0\x02\0\0\0YMark(label:text,size:integer,place:point);Field(name:text,area:polygon);Way(course:line);\0";

/// The checkpoint of the second opening, with generation 2: 88 bytes.
pub(super) const SHORT: &[u8] =
    b"\x01WFSJNL\x01\0\0\0\0\0\0\0\x02\x01\0\0\0#\x05\0\0\0\0\0\0\0\x02\0\x03\0\0\0\0\0\0\0\x01\0\0\0\0\0\0\0\0\0\0\0\0\0\0\0\0\x01\0\0\0\x1a\x02\0\0\0\x01\x01\0\0\0\0\0\0\0\0\0\x01\0\x03\x01\0\0\0\x01A\0\0\0";

/// Two openings: 231 bytes.
const OPENED_AGAIN: &[u8] =
    b"\x01WFSJNL\x01\0\0\0\0\0\0\0\x01\x01\0\0\0f\x01\0\0\0\0\0\0\0\x01\0\0\0YMark(label:text,size:integer,place:point);Field(name:text,area:polygon);Way(course:line);\x01\0\0\0f\x01\0\0\0\0\0\0\0\x02\0\0\0YMark(label:text,size:integer,place:point);Field(name:text,area:polygon);Way(course:line);\0";

/// Behind them the change: 262 bytes.
const ADDED: &[u8] =
    b"\x01WFSJNL\x01\0\0\0\0\0\0\0\x01\x01\0\0\0f\x01\0\0\0\0\0\0\0\x01\0\0\0YMark(label:text,size:integer,place:point);Field(name:text,area:polygon);Way(course:line);\x01\0\0\0f\x01\0\0\0\0\0\0\0\x02\0\0\0YMark(label:text,size:integer,place:point);Field(name:text,area:polygon);Way(course:line);\x01\0\0\0\x1a\x02\0\0\0\x01\x01\0\0\0\0\0\0\0\0\0\x01\0\x03\x01\0\0\0\x01A\0\0\0";

/// The same with the gate of the change closed.
const ADDED_SHUT: &[u8] =
    b"\x01WFSJNL\x01\0\0\0\0\0\0\0\x01\x01\0\0\0f\x01\0\0\0\0\0\0\0\x01\0\0\0YMark(label:text,size:integer,place:point);Field(name:text,area:polygon);Way(course:line);\x01\0\0\0f\x01\0\0\0\0\0\0\0\x02\0\0\0YMark(label:text,size:integer,place:point);Field(name:text,area:polygon);Way(course:line);\0\0\0\0\x1a\x02\0\0\0\x01\x01\0\0\0\0\0\0\0\0\0\x01\0\x03\x01\0\0\0\x01A\0\0\0";

/// Another mark.
const FOREIGN: &[u8] = b"\x01XFSJNL\x01\0\0\0\0\0\0\0\x01\0";

/// The first opening of a schema that has one type less.
const OTHER: &[u8] =
    b"\x01WFSJNL\x01\0\0\0\0\0\0\0\x01\x01\0\0\0U\x01\0\0\0\0\0\0\0\x01\0\0\0HMark(label:text,size:integer,place:point);Field(name:text,area:polygon);\0";

/// The beginning of a checkpoint of the last opening that may be.
const LAST: &[u8] =
    b"\x01WFSJNL\x01\0\0\0\0\0\0\0\x02\x01\0\0\0#\x05\0\0\0\xe8\xd4\xa5\x10\0\0\x03\0\0\0\0\0\0\0\0\0\0\0\0\0\0\0\0\0\0\0\0\0\0\0\0\0";

/// Side a, the limit, the number of the opening or the refusal, and side a afterwards. Side b is empty.
pub(super) type Row = (&'static [u8], u64, Result<u64, OpenFault>, &'static [u8]);

pub(super) static ROWS: &[Row] = &[
    (b"", 124, Ok(1), OPENED),
    (INSERTED, 262, Ok(2), AGAIN),
    (b"", 16, Err(OpenFault::Full(17)), b""),
    (b"", 123, Err(OpenFault::Full(124)), FRESH),
    (INSERTED, 154, Err(OpenFault::Full(155)), INSERTED),
    (INSERTED, 261, Err(OpenFault::Full(262)), INSERTED),
    (
        FOREIGN,
        1000,
        Err(OpenFault::NotAJournal(Place {
            second_side: false,
            at: 1,
        })),
        FOREIGN,
    ),
    (OTHER, 1000, Err(OpenFault::NotOfSchema(0)), OTHER),
    (LAST, 1000, Err(OpenFault::Full(1_000_000_000_000)), LAST),
];

/// The call on side a from which all fail, whether an opening of what was inserted is answered, how many writes since the
/// last sync a crash keeps, and what it leaves of side a. The record of the opening is written behind its closed gate and
/// synced, and then the gate is opened and synced.
pub(super) type Stop = (u64, bool, u32, &'static [u8]);

pub(super) static STOPS: &[Stop] = &[
    (0, false, 9, INSERTED),
    (5, false, 9, INSERTED),
    (6, false, 0, INSERTED),
    (6, false, 9, AGAIN_SHUT),
    (7, false, 9, AGAIN_SHUT),
    (8, false, 0, AGAIN_SHUT),
    (8, false, 9, AGAIN),
    (9, true, 0, AGAIN),
];

/// The call on side a from which all fail, how the change is recorded behind the second opening, how many writes since the
/// last sync a crash keeps, and what it leaves of side a.
pub(super) type Add = (Option<u64>, Recorded, u32, &'static [u8]);

pub(super) static ADDS: &[Add] = &[
    (None, Recorded::Done, 0, ADDED),
    (Some(9), Recorded::FaultClean, 9, OPENED_AGAIN),
    (Some(10), Recorded::FaultClean, 0, OPENED_AGAIN),
    (Some(10), Recorded::FaultClean, 9, ADDED_SHUT),
    (Some(11), Recorded::FaultBegun, 9, ADDED_SHUT),
    (Some(12), Recorded::FaultBegun, 0, ADDED_SHUT),
    (Some(12), Recorded::FaultBegun, 9, ADDED),
    (Some(13), Recorded::Done, 0, ADDED),
];

/// Side a, and what a look tells of it. Side b is empty.
pub(super) type Look = (&'static [u8], Result<Counts, OpenFault>);

pub(super) static LOOKS: &[Look] = &[
    (
        b"",
        Ok(Counts {
            types: 3,
            features: 0,
            queries: 0,
            openings: 0,
        }),
    ),
    (
        OPENED,
        Ok(Counts {
            types: 3,
            features: 0,
            queries: 0,
            openings: 1,
        }),
    ),
    (
        INSERTED,
        Ok(Counts {
            types: 3,
            features: 1,
            queries: 0,
            openings: 1,
        }),
    ),
    (
        AGAIN,
        Ok(Counts {
            types: 3,
            features: 1,
            queries: 0,
            openings: 2,
        }),
    ),
    (
        LAST,
        Ok(Counts {
            types: 3,
            features: 0,
            queries: 0,
            openings: 1_000_000_000_000,
        }),
    ),
    (OTHER, Err(OpenFault::NotOfSchema(0))),
    (
        FOREIGN,
        Err(OpenFault::NotAJournal(Place {
            second_side: false,
            at: 1,
        })),
    ),
];
