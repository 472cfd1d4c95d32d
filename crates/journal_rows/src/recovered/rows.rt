//! Pairs of files, and what recovery answers for each.

use recovery::{Place, RecoverFault};

pub(super) const EMPTY: &[u8] = b"";

// generation 1 with no record, and with the record `hi`
pub(super) const NONE: &[u8] = b"\x01WFSJNL\x01\0\0\0\0\0\0\0\x01\0";

pub(super) const HI: &[u8] = b"\x01WFSJNL\x01\0\0\0\0\0\0\0\x01\x01\0\0\0\x02hi\0";

// the same with a tail behind the ending gate, which is torn
pub(super) const TAILED: &[u8] =
    b"\x01WFSJNL\x01\0\0\0\0\0\0\0\x01\x01\0\0\0\x02hi\x05\0\0\0\x02ho\0";

// generation 2 with the record `hi`, behind a byte 0 that is stale
pub(super) const STALE: &[u8] = b"\x07WFSJNL\x01\0\0\0\0\0\0\0\x02\x01\0\0\0\x02hi\0";

// Both files, of which no side is current: a new journal has generation 1 and 17 bytes.
pub(super) static NEW: &[(&[u8], &[u8])] = &[
    // short, or with byte 0 closed
    (EMPTY, EMPTY),
    (
        b"\xff\xff\xff\xff\xff\xff\xff\xff\xff\xff\xff\xff\xff\xff\xff\xff",
        EMPTY,
    ),
    (EMPTY, b"\x01WFSJNL\x01\0\0\0\0\0\0\0\x01"),
    (b"\0rubbish of an old file", b"\0more of it, and longer"),
    (
        b"\0WFSJNL\x01\0\0\0\0\0\0\0\x09\x01\0\0\0\x02hi\0",
        b"\0WFSJNL\x01\0\0\0\0\0\0\0\x08\0",
    ),
    // byte 0 of a first side was torn
    (b"\x05WFSJNL\x01\0\0\0\0\0\0\0\x01\0", EMPTY),
    (EMPTY, b"\xffWFSJNL\x01\0\0\0\0\0\0\0\x09\0"),
    (
        b"\x02WFSJNL\x01\0\0\0\0\0\0\0\x01\0",
        b"\x03WFSJNL\x01\0\0\0\0\0\0\0\x02\0",
    ),
];

// Both files and the limit; the generation and the length of the journal, and how many bodies it has.
pub(super) static JOURNALS: &[(&[u8], &[u8], u64, u64, u64, usize)] = &[
    // one side is current
    (NONE, EMPTY, 1000, 1, 17, 0),
    (HI, EMPTY, 1000, 1, 24, 1),
    (EMPTY, HI, 1000, 1, 24, 1),
    (
        b"\x01WFSJNL\x01\0\0\0\0\0\0\0\x01\x01\0\0\0\x02hi\x01\0\0\0\0\x01\0\0\0\x01x\0",
        EMPTY,
        1000,
        1,
        35,
        3,
    ),
    (
        b"\0WFSJNL\x01\0\0\0\0\0\0\0\x09\x01\0\0\0\x02ho\0",
        HI,
        1000,
        1,
        24,
        1,
    ),
    (
        b"\xff\xff\xff\xff\xff\xff\xff\xff\xff\xff\xff\xff\xff\xff\xff\xff",
        HI,
        1000,
        1,
        24,
        1,
    ),
    (b"\x01WFSJNL\x01\0\0\0\0\0\0\0\0\0", EMPTY, 1000, 0, 17, 0),
    // what stands behind the ending gate has no say, whether it is closed or torn
    (
        b"\x01WFSJNL\x01\0\0\0\0\0\0\0\x01\x01\0\0\0\x02hi\0\x01\0\0\0\x02ho\0",
        EMPTY,
        1000,
        1,
        24,
        1,
    ),
    (TAILED, EMPTY, 1000, 1, 24, 1),
    (
        b"\x01WFSJNL\x01\0\0\0\0\0\0\0\x01\x01\0\0\0\x02hi\x05",
        EMPTY,
        1000,
        1,
        24,
        1,
    ),
    (
        b"\x01WFSJNL\x01\0\0\0\0\0\0\0\x01\x01\0\0\0\x02hi\0\x01\x01\x01\x01\x01\x01",
        EMPTY,
        1000,
        1,
        24,
        1,
    ),
    (
        b"\x01WFSJNL\x01\0\0\0\0\0\0\0\x01\xff",
        EMPTY,
        1000,
        1,
        17,
        0,
    ),
    // both sides could be
    (HI, b"\x01WFSJNL\x01\0\0\0\0\0\0\0\x02\0", 1000, 2, 17, 0),
    (b"\x01WFSJNL\x01\0\0\0\0\0\0\0\x03\0", HI, 1000, 3, 17, 0),
    (HI, NONE, 1000, 1, 24, 1),
    (NONE, HI, 1000, 1, 17, 0),
    (
        HI,
        b"\x01WFSJNL\x01\x01\0\0\0\0\0\0\0\0",
        1000,
        72057594037927936,
        17,
        0,
    ),
    (
        HI,
        b"\x01WFSJNL\x01\xff\xff\xff\xff\xff\xff\xff\xff\0",
        1000,
        18446744073709551615,
        17,
        0,
    ),
    // one of a greater generation is stale
    (HI, STALE, 1000, 1, 24, 1),
    (b"\x02WFSJNL\x01\0\0\0\0\0\0\0\x05\0", HI, 1000, 1, 24, 1),
    // the limit itself is within it
    (NONE, EMPTY, 17, 1, 17, 0),
    (HI, EMPTY, 24, 1, 24, 1),
    (
        b"\x01WFSJNL\x01\0\0\0\0\0\0\0\x01\x01\0\0\0\x02hi\x01\0\0\0\x02ho\0",
        HI,
        31,
        1,
        31,
        2,
    ),
];

// Both files and the limit; the side that is no journal's, which is b where true, and the place.
pub(super) static NO_JOURNALS: &[(&[u8], &[u8], u64, bool, u64)] = &[
    // foreign at each byte of mark and version, side a before side b, whichever is current, before any record
    (b"\x01XFSJNL\x01\0\0\0\0\0\0\0\x01\0", EMPTY, 1000, false, 1),
    (b"\x01WXSJNL\x01\0\0\0\0\0\0\0\x01\0", EMPTY, 1000, false, 2),
    (b"\x01WFXJNL\x01\0\0\0\0\0\0\0\x01\0", EMPTY, 1000, false, 3),
    (b"\x01WFSXNL\x01\0\0\0\0\0\0\0\x01\0", EMPTY, 1000, false, 4),
    (b"\x01WFSJXL\x01\0\0\0\0\0\0\0\x01\0", EMPTY, 1000, false, 5),
    (b"\x01WFSJNX\x01\0\0\0\0\0\0\0\x01\0", EMPTY, 1000, false, 6),
    (b"\x01WFSJNL\x02\0\0\0\0\0\0\0\x01\0", EMPTY, 1000, false, 7),
    (HI, b"\x01xFSJNL\x01\0\0\0\0\0\0\0\x01\0", 1000, true, 1),
    (HI, b"\x01WFSxNL\x01\0\0\0\0\0\0\0\x01\0", 1000, true, 4),
    (EMPTY, b"\xffWFSJNL\0\0\0\0\0\0\0\0\x01\0", 1000, true, 7),
    (
        b"\x01\x01\x01\x01\x01\x01\x01\x01\x01\x01\x01\x01\x01\x01\x01\x01\x01",
        HI,
        1000,
        false,
        1,
    ),
    (HI, b"\x07not a journal's bytes", 1000, true, 1),
    (
        b"\x07WFSJNL of another make",
        b"\x01not a journal's bytes",
        1000,
        false,
        7,
    ),
    (
        b"\x01WFSJNL of another make",
        b"\x01WFSJNL\x01\0\0\0\0\0\0\0\x01\x01",
        10,
        false,
        7,
    ),
    (
        b"\x01WFSJNL\x01\0\0\0\0\0\0\0\x01\x01",
        b"\x01WFSJNL of another make",
        10,
        true,
        7,
    ),
    // an open gate with no whole record, at each place where it may end
    (
        b"\x01WFSJNL\x01\0\0\0\0\0\0\0\x01\x01",
        EMPTY,
        1000,
        false,
        16,
    ),
    (
        b"\x01WFSJNL\x01\0\0\0\0\0\0\0\x01\x01\0",
        EMPTY,
        1000,
        false,
        16,
    ),
    (
        b"\x01WFSJNL\x01\0\0\0\0\0\0\0\x01\x01\0\0",
        EMPTY,
        1000,
        false,
        16,
    ),
    (
        b"\x01WFSJNL\x01\0\0\0\0\0\0\0\x01\x01\0\0\0",
        EMPTY,
        1000,
        false,
        16,
    ),
    (
        b"\x01WFSJNL\x01\0\0\0\0\0\0\0\x01\x01\0\0\0\x02",
        EMPTY,
        1000,
        false,
        16,
    ),
    (
        b"\x01WFSJNL\x01\0\0\0\0\0\0\0\x01\x01\0\0\0\x02h",
        EMPTY,
        1000,
        false,
        16,
    ),
    (
        b"\x01WFSJNL\x01\0\0\0\0\0\0\0\x01\x01\0\0\0\x02hi",
        EMPTY,
        1000,
        false,
        16,
    ),
    (
        b"\x01WFSJNL\x01\0\0\0\0\0\0\0\x01\x01\0\0\0\x02hi\x01",
        EMPTY,
        1000,
        false,
        23,
    ),
    (
        EMPTY,
        b"\x01WFSJNL\x01\0\0\0\0\0\0\0\x01\x01\0\0\0\x02hi\x01\0\0\0\x05tail\0",
        1000,
        true,
        23,
    ),
    (
        b"\x01WFSJNL\x01\0\0\0\0\0\0\0\x01\x01\x02\0\0\0hi\0",
        EMPTY,
        1000,
        false,
        16,
    ),
    (
        b"\x01WFSJNL\x01\0\0\0\0\0\0\0\x01\x01\xff\xff\xff\xffhi\0",
        EMPTY,
        1000,
        false,
        16,
    ),
    // what the replay refuses as no record
    (
        b"\x01WFSJNL\x01\0\0\0\0\0\0\0\x01\x01\0\0\0\x02!i\0",
        EMPTY,
        1000,
        false,
        16,
    ),
    (
        b"\x01WFSJNL\x01\0\0\0\0\0\0\0\x01\x01\0\0\0\x02hi\x01\0\0\0\x02!o\x01",
        EMPTY,
        1000,
        false,
        23,
    ),
    // the end of the file comes before the limit
    (
        b"\x01WFSJNL\x01\0\0\0\0\0\0\0\x01\x01\0\0\0\x02hi",
        EMPTY,
        17,
        false,
        16,
    ),
];

// Both files, whether they are recovered, or else looked over, and what is answered: the length of the journal, or why
// it is refused. Both files are left as they were.
pub(super) static LEFT: &[(&[u8], &[u8], bool, Result<u64, RecoverFault>)] = &[
    // looks: no side is current; the ending gate is torn beside a stale side; a side is refused beside a stale one
    (EMPTY, EMPTY, false, Ok(0)),
    (TAILED, STALE, false, Ok(24)),
    (
        b"\x01WFSJNL\x01\0\0\0\0\0\0\0\x01\x01",
        STALE,
        false,
        Err(RecoverFault::NotAJournal(Place {
            second_side: false,
            at: 16,
        })),
    ),
    // recoveries of a side that is refused beside a stale one: no record is whole, or one does not fit
    (
        b"\x01WFSJNL\x01\0\0\0\0\0\0\0\x01\x01",
        STALE,
        true,
        Err(RecoverFault::NotAJournal(Place {
            second_side: false,
            at: 16,
        })),
    ),
    (
        b"\x01WFSJNL\x01\0\0\0\0\0\0\0\x01\x01\0\0\0\x02?i\x05",
        STALE,
        true,
        Err(RecoverFault::NotOfSchema(0)),
    ),
];

// Both files, the limit and the fault.
pub(super) static FAULTS: &[(&[u8], &[u8], u64, RecoverFault)] = &[
    // what does not fit
    (
        b"\x01WFSJNL\x01\0\0\0\0\0\0\0\x01\x01\0\0\0\x02hi\x01\0\0\0\x02?o\0",
        EMPTY,
        1000,
        RecoverFault::NotOfSchema(1),
    ),
    (
        EMPTY,
        b"\x01WFSJNL\x01\0\0\0\0\0\0\0\x01\x01\0\0\0\x02hi\x01\0\0\0\x02ho\x01\0\0\0\x01?\0",
        1000,
        RecoverFault::NotOfSchema(2),
    ),
    (
        b"\x01WFSJNL\x01\0\0\0\0\0\0\0\x01\x01\0\0\0\x02?i\x01",
        EMPTY,
        1000,
        RecoverFault::NotOfSchema(0),
    ),
    // the limit, before the replay
    (NONE, EMPTY, 16, RecoverFault::Full(17)),
    (
        b"\x01WFSJNL\x01\0\0\0\0\0\0\0\x01\x01",
        EMPTY,
        16,
        RecoverFault::Full(17),
    ),
    (HI, EMPTY, 23, RecoverFault::Full(24)),
    (HI, EMPTY, 17, RecoverFault::Full(24)),
    (
        b"\x01WFSJNL\x01\0\0\0\0\0\0\0\x01\x01\0\0\0\x02?i\0",
        EMPTY,
        23,
        RecoverFault::Full(24),
    ),
    (
        b"\x01WFSJNL\x01\0\0\0\0\0\0\0\x01\x01\0\0\0\x02?i\0",
        EMPTY,
        24,
        RecoverFault::NotOfSchema(0),
    ),
    (
        b"\x01WFSJNL\x01\0\0\0\0\0\0\0\x01\x01\0\0\0\x02hi\x01\0\0\0\x02ho\0",
        EMPTY,
        30,
        RecoverFault::Full(31),
    ),
    // a record is refused before the one behind it passes the limit, and passes it before the one behind it is torn
    (
        b"\x01WFSJNL\x01\0\0\0\0\0\0\0\x01\x01\0\0\0\x02?i\x01\0\0\0\x02ho\0",
        EMPTY,
        24,
        RecoverFault::NotOfSchema(0),
    ),
    (
        b"\x01WFSJNL\x01\0\0\0\0\0\0\0\x01\x01\0\0\0\x02hi\x01",
        EMPTY,
        23,
        RecoverFault::Full(24),
    ),
];
