//! Recoveries of which a disk call fails, and what a crash then leaves of both files.

use super::rows::{EMPTY, HI, NONE, STALE, TAILED};

// the tail closed, the stale side closed, and a first side that is not current yet
const TAIL_CLOSED: &[u8] = b"\x01WFSJNL\x01\0\0\0\0\0\0\0\x01\x01\0\0\0\x02hi\0\0\0\0\x02ho\0";

const STALE_CLOSED: &[u8] = b"\0WFSJNL\x01\0\0\0\0\0\0\0\x02\x01\0\0\0\x02hi\0";

const NONE_CLOSED: &[u8] = b"\0WFSJNL\x01\0\0\0\0\0\0\0\x01\0";

// generation 3 with no record, behind a byte 0 that is stale, and behind a closed one
const TORN: &[u8] = b"\x05WFSJNL\x01\0\0\0\0\0\0\0\x03\0";

const TORN_CLOSED: &[u8] = b"\0WFSJNL\x01\0\0\0\0\0\0\0\x03\0";

const ZERO: &[u8] = b"\0";

type Stop = (
    &'static [u8],
    &'static [u8],
    bool,
    u64,
    bool,
    u32,
    &'static [u8],
    &'static [u8],
);

// Both files, and the call from which on a disk fails, which is that of side b where true. Whether they are recovered all the
// same, how many writes since the last sync a crash keeps, and what it leaves of side a and of side b.
pub(super) static STOPS: &[Stop] = &[
    // A tail stands behind the ending gate. Side a: a sync; a read of the head; the length and all bytes; the gate and a sync.
    // Side b: a sync and a read of the head.
    (TAILED, EMPTY, false, 0, false, 9, TAILED, EMPTY),
    (TAILED, EMPTY, false, 1, false, 9, TAILED, EMPTY),
    (TAILED, EMPTY, false, 2, false, 9, TAILED, EMPTY),
    (TAILED, EMPTY, false, 3, false, 9, TAILED, EMPTY),
    (TAILED, EMPTY, false, 4, false, 9, TAILED, EMPTY),
    (TAILED, EMPTY, false, 5, false, 0, TAILED, EMPTY),
    (TAILED, EMPTY, false, 5, false, 1, TAIL_CLOSED, EMPTY),
    (TAILED, EMPTY, false, 6, true, 0, TAIL_CLOSED, EMPTY),
    (TAILED, EMPTY, true, 0, false, 9, TAILED, EMPTY),
    (TAILED, EMPTY, true, 1, false, 9, TAILED, EMPTY),
    (TAILED, EMPTY, true, 2, true, 0, TAIL_CLOSED, EMPTY),
    // Side b is stale: a sync; a read of the head; byte 0 and a sync.
    (HI, STALE, true, 0, false, 9, HI, STALE),
    (HI, STALE, true, 1, false, 9, HI, STALE),
    (HI, STALE, true, 2, false, 9, HI, STALE),
    (HI, STALE, true, 3, false, 0, HI, STALE),
    (HI, STALE, true, 3, false, 1, HI, STALE_CLOSED),
    (HI, STALE, true, 4, true, 0, HI, STALE_CLOSED),
    // Side a is read as above before that. Its closed ending gate is not written, but synced.
    (HI, STALE, false, 0, false, 9, HI, STALE),
    (HI, STALE, false, 1, false, 9, HI, STALE),
    (HI, STALE, false, 2, false, 9, HI, STALE),
    (HI, STALE, false, 3, false, 9, HI, STALE),
    (HI, STALE, false, 4, false, 0, HI, STALE_CLOSED),
    (HI, STALE, false, 5, true, 0, HI, STALE_CLOSED),
    // No side is current: of each a sync and a read of the head. Then side a is made, with a read, byte 0 and a sync, the cut,
    // the rest and a sync, byte 0 and a sync.
    (EMPTY, EMPTY, false, 0, false, 9, EMPTY, EMPTY),
    (EMPTY, EMPTY, false, 1, false, 9, EMPTY, EMPTY),
    (EMPTY, EMPTY, false, 2, false, 9, EMPTY, EMPTY),
    (EMPTY, EMPTY, false, 3, false, 9, EMPTY, EMPTY),
    (EMPTY, EMPTY, false, 4, false, 0, EMPTY, EMPTY),
    (EMPTY, EMPTY, false, 4, false, 1, ZERO, EMPTY),
    (EMPTY, EMPTY, false, 5, false, 9, ZERO, EMPTY),
    (EMPTY, EMPTY, false, 6, false, 9, ZERO, EMPTY),
    (EMPTY, EMPTY, false, 7, false, 1, ZERO, EMPTY),
    (EMPTY, EMPTY, false, 7, false, 2, NONE_CLOSED, EMPTY),
    (EMPTY, EMPTY, false, 8, false, 9, NONE_CLOSED, EMPTY),
    (EMPTY, EMPTY, false, 9, false, 0, NONE_CLOSED, EMPTY),
    (EMPTY, EMPTY, false, 9, false, 1, NONE, EMPTY),
    (EMPTY, EMPTY, false, 10, true, 0, NONE, EMPTY),
    (EMPTY, EMPTY, true, 0, false, 9, EMPTY, EMPTY),
    (EMPTY, EMPTY, true, 1, false, 9, EMPTY, EMPTY),
    (EMPTY, EMPTY, true, 2, true, 0, NONE, EMPTY),
    // No side is current, and both are stale. Side a: a sync and a read of the head; byte 0 and a sync. Side b then the same.
    // Then side a is made as above, but that its byte 0 reads 0 and is not written again.
    (TORN, STALE, false, 0, false, 9, TORN, STALE),
    (TORN, STALE, false, 1, false, 9, TORN, STALE),
    (TORN, STALE, false, 2, false, 9, TORN, STALE),
    (TORN, STALE, false, 3, false, 0, TORN, STALE),
    (TORN, STALE, false, 3, false, 1, TORN_CLOSED, STALE),
    (TORN, STALE, false, 4, false, 9, TORN_CLOSED, STALE_CLOSED),
    (TORN, STALE, false, 5, false, 9, TORN_CLOSED, STALE_CLOSED),
    (TORN, STALE, false, 6, false, 9, TORN_CLOSED, STALE_CLOSED),
    (TORN, STALE, false, 7, false, 0, TORN_CLOSED, STALE_CLOSED),
    (TORN, STALE, false, 7, false, 1, ZERO, STALE_CLOSED),
    (TORN, STALE, false, 8, false, 1, ZERO, STALE_CLOSED),
    (TORN, STALE, false, 8, false, 2, NONE_CLOSED, STALE_CLOSED),
    (TORN, STALE, false, 9, false, 9, NONE_CLOSED, STALE_CLOSED),
    (TORN, STALE, false, 10, false, 0, NONE_CLOSED, STALE_CLOSED),
    (TORN, STALE, false, 10, false, 1, NONE, STALE_CLOSED),
    (TORN, STALE, false, 11, true, 0, NONE, STALE_CLOSED),
    (TORN, STALE, true, 0, false, 9, TORN, STALE),
    (TORN, STALE, true, 1, false, 9, TORN, STALE),
    (TORN, STALE, true, 2, false, 9, TORN_CLOSED, STALE),
    (TORN, STALE, true, 3, false, 0, TORN_CLOSED, STALE),
    (TORN, STALE, true, 3, false, 1, TORN_CLOSED, STALE_CLOSED),
    (TORN, STALE, true, 4, true, 0, NONE, STALE_CLOSED),
];
