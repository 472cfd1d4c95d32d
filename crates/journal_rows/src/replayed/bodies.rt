//! Bodies that were written by hand, byte by byte, and what comes of some of them one after the other.

use recovery::ReplayFault;

/// The first opening, with the signature of the schema.
const OPENING: &[u8] =
    b"\x01\0\0\0\0\0\0\0\x01\0\0\0YMark(label:text,size:integer,place:point);Field(name:text,area:polygon);Way(course:line);";

/// The second opening.
const SECOND: &[u8] =
    b"\x01\0\0\0\0\0\0\0\x02\0\0\0YMark(label:text,size:integer,place:point);Field(name:text,area:polygon);Way(course:line);";

/// The first opening of a schema that has one type less.
const OTHER: &[u8] =
    b"\x01\0\0\0\0\0\0\0\x01\0\0\0HMark(label:text,size:integer,place:point);Field(name:text,area:polygon);";

/// Mark.1 with the label A.
const INSERT: &[u8] = b"\x02\0\0\0\x01\x01\0\0\0\0\0\0\0\0\0\x01\0\x03\x01\0\0\0\x01A\0\0";

/// Mark.1 with a size and a place.
const REPLACE: &[u8] =
    b"\x02\0\0\0\x01\x01\0\0\0\0\0\0\0\0\0\x01\0\x03\x01\0\0\0\x01A\x02\0\0\0\0\0\0\0\x07\x04\0\0\0\x0c\0\0\0\x07";

/// Mark.1 goes, and Mark.2 comes.
const SWAP: &[u8] =
    b"\x02\0\0\0\x02\x02\0\0\0\0\0\0\0\0\0\x01\x01\0\0\0\0\0\0\0\0\0\x02\0\x03\x01\0\0\0\x01A\0\0";

/// Mark.1 goes.
const REMOVE: &[u8] = b"\x02\0\0\0\x01\x02\0\0\0\0\0\0\0\0\0\x01";

/// A mark under the number 0.
const NO_NUMBER: &[u8] = b"\x02\0\0\0\x01\x01\0\0\0\0\0\0\0\0\0\0\0\x03\x01\0\0\0\x01A\0\0";

/// A mark under the greatest number that is given.
const LAST_NUMBER: &[u8] =
    b"\x02\0\0\0\x01\x01\0\0\0\0\0\xe8\xd4\xa5\x10\0\0\x03\x01\0\0\0\x01A\0\0";

/// A mark under the number behind it.
const PAST_NUMBERS: &[u8] =
    b"\x02\0\0\0\x01\x01\0\0\0\0\0\xe8\xd4\xa5\x10\x01\0\x03\x01\0\0\0\x01A\0\0";

/// A feature of a type that is not there.
const NO_TYPE: &[u8] = b"\x02\0\0\0\x01\x01\0\x03\0\0\0\0\0\0\0\x01\0\x01\0";

/// A mark without its label.
const NO_LABEL: &[u8] = b"\x02\0\0\0\x01\x01\0\0\0\0\0\0\0\0\0\x01\0\x03\0\0\0";

/// A mark with a label of 41 characters.
const LONG_LABEL: &[u8] =
    b"\x02\0\0\0\x01\x01\0\0\0\0\0\0\0\0\0\x01\0\x03\x01\0\0\0)AAAAAAAAAAAAAAAAAAAAAAAAAAAAAAAAAAAAAAAAA\0\0";

/// A mark with two values.
const FEW_VALUES: &[u8] = b"\x02\0\0\0\x01\x01\0\0\0\0\0\0\0\0\0\x01\0\x02\x01\0\0\0\x01A\0";

/// No part.
const NO_PARTS: &[u8] = b"\x02\0\0\0\0";

/// The beginning of a checkpoint of the seventh opening.
const BASE: &[u8] =
    b"\x05\0\0\0\0\0\0\0\x07\0\x03\0\0\0\0\0\0\0\x02\0\0\0\0\0\0\0\0\0\0\0\0\0\0\0\0";

/// The eighth opening.
const EIGHTH: &[u8] =
    b"\x01\0\0\0\0\0\0\0\x08\0\0\0YMark(label:text,size:integer,place:point);Field(name:text,area:polygon);Way(course:line);";

/// The eighth opening of a schema that has one type less.
const OTHER_EIGHTH: &[u8] =
    b"\x01\0\0\0\0\0\0\0\x08\0\0\0HMark(label:text,size:integer,place:point);Field(name:text,area:polygon);";

/// The beginning of a checkpoint before the first opening.
const ZERO_BASE: &[u8] =
    b"\x05\0\0\0\0\0\0\0\0\0\x03\0\0\0\0\0\0\0\0\0\0\0\0\0\0\0\0\0\0\0\0\0\0\0\0";

/// One with a counter too few.
const FEW_COUNTERS: &[u8] = b"\x05\0\0\0\0\0\0\0\x07\0\x02\0\0\0\0\0\0\0\x02\0\0\0\0\0\0\0\0";

/// One with a counter above the greatest number.
const PAST_COUNTERS: &[u8] =
    b"\x05\0\0\0\0\0\0\0\x07\0\x03\0\0\0\xe8\xd4\xa5\x10\x01\0\0\0\0\0\0\0\0\0\0\0\0\0\0\0\0";

/// A stored query with one parameter that it does not use.
const CREATED: &[u8] =
    b"\x03\0\0\0\x01\0\0\0\x08urn:x:by\0\0\0\0\0\0\0\x01\0\0\0\x01l\0\0\0\xc3<wfs:Query xmlns:wfs=\"http://www.opengis.net/wfs/2.0\" xmlns:fes=\"http://www.opengis.net/fes/2.0\" xmlns:gml=\"http://www.opengis.net/gml/3.2\" xmlns:m=\"http://example.org/marks\" typeNames=\"m:Mark\"/>";

/// The same under another identifier.
const CREATED_NEXT: &[u8] =
    b"\x03\0\0\0\x01\0\0\0\x08urn:x:to\0\0\0\0\0\0\0\x01\0\0\0\x01l\0\0\0\xc3<wfs:Query xmlns:wfs=\"http://www.opengis.net/wfs/2.0\" xmlns:fes=\"http://www.opengis.net/fes/2.0\" xmlns:gml=\"http://www.opengis.net/gml/3.2\" xmlns:m=\"http://example.org/marks\" typeNames=\"m:Mark\"/>";

/// The same identifier twice.
const CREATED_TWICE: &[u8] =
    b"\x03\0\0\0\x02\0\0\0\x01q\0\0\0\0\0\0\0\0\0\0\0\xc3<wfs:Query xmlns:wfs=\"http://www.opengis.net/wfs/2.0\" xmlns:fes=\"http://www.opengis.net/fes/2.0\" xmlns:gml=\"http://www.opengis.net/gml/3.2\" xmlns:m=\"http://example.org/marks\" typeNames=\"m:Mark\"/>\0\0\0\x01q\0\0\0\0\0\0\0\0\0\0\0\xc3<wfs:Query xmlns:wfs=\"http://www.opengis.net/wfs/2.0\" xmlns:fes=\"http://www.opengis.net/fes/2.0\" xmlns:gml=\"http://www.opengis.net/gml/3.2\" xmlns:m=\"http://example.org/marks\" typeNames=\"m:Mark\"/>";

/// The built-in query.
const BUILT_IN: &[u8] =
    b"\x03\0\0\0\x01\0\0\0)urn:ogc:def:query:OGC-WFS::GetFeatureById\0\0\0\0\0\0\0\x01\0\0\0\x02id\0\0\0\xc3<wfs:Query xmlns:wfs=\"http://www.opengis.net/wfs/2.0\" xmlns:fes=\"http://www.opengis.net/fes/2.0\" xmlns:gml=\"http://www.opengis.net/gml/3.2\" xmlns:m=\"http://example.org/marks\" typeNames=\"m:Mark\"/>";

/// A text that is not written so.
const SPACED: &[u8] =
    b"\x03\0\0\0\x01\0\0\0\x01q\0\0\0\0\0\0\0\0\0\0\0\xc4<wfs:Query xmlns:wfs=\"http://www.opengis.net/wfs/2.0\" xmlns:fes=\"http://www.opengis.net/fes/2.0\" xmlns:gml=\"http://www.opengis.net/gml/3.2\" xmlns:m=\"http://example.org/marks\" typeNames=\"m:Mark\"/> ";

/// A parameter without a name.
const EMPTY_NAME: &[u8] =
    b"\x03\0\0\0\x01\0\0\0\x01q\0\0\0\0\0\0\0\x01\0\0\0\0\0\0\0\xc3<wfs:Query xmlns:wfs=\"http://www.opengis.net/wfs/2.0\" xmlns:fes=\"http://www.opengis.net/fes/2.0\" xmlns:gml=\"http://www.opengis.net/gml/3.2\" xmlns:m=\"http://example.org/marks\" typeNames=\"m:Mark\"/>";

/// Parameters that are equal but for their case.
const SAME_NAMES: &[u8] =
    b"\x03\0\0\0\x01\0\0\0\x01q\0\0\0\0\0\0\0\x02\0\0\0\x01l\0\0\0\x01L\0\0\0\xc3<wfs:Query xmlns:wfs=\"http://www.opengis.net/wfs/2.0\" xmlns:fes=\"http://www.opengis.net/fes/2.0\" xmlns:gml=\"http://www.opengis.net/gml/3.2\" xmlns:m=\"http://example.org/marks\" typeNames=\"m:Mark\"/>";

/// The stored query goes.
const DROPPED: &[u8] = b"\x04\0\0\0\x08urn:x:by";

/// Bytes that end too early.
const CUT: &[u8] = b"\x02\0\0";

/// A byte too many.
const TRAILING: &[u8] = b"\x04\0\0\0\x08urn:x:by\0";

/// Bodies, and the place and the fault of the first that is not taken.
pub(super) type Row = (&'static [&'static [u8]], Option<(usize, ReplayFault)>);

pub(super) static ROWS: &[Row] = &[
    (&[OPENING, INSERT, REPLACE, SWAP, NO_PARTS, SECOND], None),
    (&[OPENING, LAST_NUMBER], None),
    (&[OPENING, CREATED, DROPPED, CREATED], None),
    (&[BASE, INSERT, CREATED, EIGHTH], None),
    (&[ZERO_BASE, OPENING], None),
    (&[SECOND], Some((0, ReplayFault::NotOfSchema))),
    (&[OTHER], Some((0, ReplayFault::NotOfSchema))),
    (&[BASE, OTHER_EIGHTH], Some((1, ReplayFault::NotOfSchema))),
    (&[INSERT], Some((0, ReplayFault::NotOfSchema))),
    (&[NO_PARTS], Some((0, ReplayFault::NotOfSchema))),
    (&[OPENING, OPENING], Some((1, ReplayFault::NotOfSchema))),
    (&[OPENING, EIGHTH], Some((1, ReplayFault::NotOfSchema))),
    (&[BASE, SECOND], Some((1, ReplayFault::NotOfSchema))),
    (&[OPENING, BASE], Some((1, ReplayFault::NotOfSchema))),
    (&[BASE, BASE], Some((1, ReplayFault::NotOfSchema))),
    (&[ZERO_BASE, ZERO_BASE], Some((1, ReplayFault::NotOfSchema))),
    (&[FEW_COUNTERS], Some((0, ReplayFault::NotOfSchema))),
    (&[PAST_COUNTERS], Some((0, ReplayFault::NotOfSchema))),
    (&[OPENING, NO_NUMBER], Some((1, ReplayFault::NotOfSchema))),
    (
        &[OPENING, PAST_NUMBERS],
        Some((1, ReplayFault::NotOfSchema)),
    ),
    (&[OPENING, NO_TYPE], Some((1, ReplayFault::NotOfSchema))),
    (&[OPENING, NO_LABEL], Some((1, ReplayFault::NotOfSchema))),
    (&[OPENING, LONG_LABEL], Some((1, ReplayFault::NotOfSchema))),
    (&[OPENING, FEW_VALUES], Some((1, ReplayFault::NotOfSchema))),
    (&[OPENING, REMOVE], Some((1, ReplayFault::NotOfSchema))),
    (
        &[OPENING, INSERT, REMOVE, REMOVE],
        Some((3, ReplayFault::NotOfSchema)),
    ),
    (&[OPENING, DROPPED], Some((1, ReplayFault::NotOfSchema))),
    (
        &[OPENING, CREATED, CREATED],
        Some((2, ReplayFault::NotOfSchema)),
    ),
    (
        &[OPENING, CREATED_TWICE],
        Some((1, ReplayFault::NotOfSchema)),
    ),
    (&[OPENING, BUILT_IN], Some((1, ReplayFault::NotOfSchema))),
    (&[OPENING, SPACED], Some((1, ReplayFault::NotOfSchema))),
    (&[OPENING, EMPTY_NAME], Some((1, ReplayFault::NotOfSchema))),
    (&[OPENING, SAME_NAMES], Some((1, ReplayFault::NotOfSchema))),
    (&[CUT], Some((0, ReplayFault::BadBytes))),
    (&[OPENING, CUT], Some((1, ReplayFault::BadBytes))),
    (
        &[OPENING, CREATED, TRAILING],
        Some((2, ReplayFault::BadBytes)),
    ),
];

/// Mark.2 with the label A.
const SECOND_MARK: &[u8] = b"\x02\0\0\0\x01\x01\0\0\0\0\0\0\0\0\0\x02\0\x03\x01\0\0\0\x01A\0\0";

/// The beginning of a checkpoint of the first opening, in which two marks were numbered.
const FIRST_BASE: &[u8] =
    b"\x05\0\0\0\0\0\0\0\x01\0\x03\0\0\0\0\0\0\0\x02\0\0\0\0\0\0\0\0\0\0\0\0\0\0\0\0";

/// The beginning of a checkpoint of the first opening, in which nothing was numbered.
const EMPTY_BASE: &[u8] =
    b"\x05\0\0\0\0\0\0\0\x01\0\x03\0\0\0\0\0\0\0\0\0\0\0\0\0\0\0\0\0\0\0\0\0\0\0\0";

/// Bodies, and those of a checkpoint of what they come to.
pub(super) static CHECKPOINTS: &[(&[&[u8]], &[&[u8]])] = &[
    // there is no record of no features
    (&[OPENING], &[EMPTY_BASE]),
    // one mark of the two is left, and each stored query has a record of its own
    (
        &[
            OPENING,
            CREATED,
            INSERT,
            SWAP,
            DROPPED,
            CREATED,
            CREATED_NEXT,
        ],
        &[FIRST_BASE, SECOND_MARK, CREATED, CREATED_NEXT],
    ),
];

/// Two openings with one number, of which the second is refused.
pub(super) static OPENED_TWICE: &[&[u8]] = &[OPENING, OPENING];
