//! Streams that end, and links that fail, at any place.

use super::{NEVER, read_failing, read_in};
use std::alloc::Global;
use wfs_ends::Mem;

/// A message, how many bytes its head has, and what is read of its head alone.
static WHOLES: [(&str, usize, &str); 3] = [
    ("GET / HTTP/1.1\r\nHost: h\r\n\r\n", 27, "GET /[];End"),
    (
        "POST / HTTP/1.1\r\nExpect: 100-continue\r\nContent-Length: 5\r\n\r\nhello",
        60,
        "Cut+",
    ),
    (
        "POST / HTTP/1.1\r\nTransfer-Encoding: chunked\r\nExpect: 100-Continue\r\n\r\n5;a\r\nhello\r\n12\r\n0123456789abcdefgh\r\n0\r\nA: b\r\n\r\n",
        69,
        "Cut+",
    ),
];

/// Reads the front of each message up to each of its places. It answers the first that is read otherwise than as one
/// that ends within the message, with the line once the head is whole.
fn first_misjudged<'a>(
    alloc: Global,
    wholes: &'a [(&'a str, usize, &'a str)],
) -> Mem<Option<&'a str>> {
    for (input, head, want) in wholes {
        for end in 1..input.len() {
            let Some(front) = input.get(..end) else {
                return Ok(Some(input));
            };
            let want = if end < *head { "Cut" } else { want };
            if read_in(alloc, front, 20000, 20000)?.as_str() != want {
                return Ok(Some(input));
            }
        }
    }
    Ok(None)
}

/// A stream, its first piece and the others, the room for what is written, the take and the put that fail, and what is
/// read.
static FAULTS: [(&str, (usize, usize), u64, (u64, u64), &str); 22] = [
    ("", (9, 9), 100, (0, NEVER), "ReadFault"),
    (
        "GET / HTTP/1.1\r\n\r\n",
        (5, 99),
        100,
        (1, NEVER),
        "ReadFault",
    ),
    (
        "G(T / HTTP/1.1\r\n\r\n",
        (5, 99),
        100,
        (1, NEVER),
        "ReadFault",
    ),
    (
        "G(T / HTTP/1.1\r\n\r\n",
        (16, 99),
        100,
        (1, NEVER),
        "BadHead",
    ),
    (
        "G(T / HTTP/1.1\r\n\r\n",
        (15, 99),
        100,
        (1, NEVER),
        "ReadFault",
    ),
    (
        "GET / HTTP/1.1\r\nHost: h\r\n\r\n",
        (20, 99),
        100,
        (1, NEVER),
        "ReadFault",
    ),
    (
        "GET / HTTP/1.1\r\nHost: h\r\n\r\n",
        (20, 99),
        100,
        (2, NEVER),
        "GET /[];ReadFault",
    ),
    (
        "GET / HTTP/1.1\r\nHost: h\r\n\r\n",
        (25, 99),
        100,
        (2, NEVER),
        "GET /[];ReadFault",
    ),
    (
        "GET / HTTP/1.1\r\nHost: h\r\n\r\n",
        (26, 99),
        100,
        (2, NEVER),
        "GET /[];ReadFault",
    ),
    (
        "GET / HTTP/1.1\r\nHost: h\r\n\r\n",
        (16, 9),
        100,
        (3, NEVER),
        "GET /[];ReadFault",
    ),
    (
        "GET / HTTP/1.1\r\nHost: h\r\n\r\n",
        (16, 10),
        100,
        (3, NEVER),
        "GET /[];ReadFault",
    ),
    (
        "GET / HTTP/1.1\r\n\r\n",
        (99, 99),
        100,
        (1, NEVER),
        "GET /[];ReadFault",
    ),
    (
        "POST / HTTP/1.1\r\nContent-Length: 5\r\n\r\nhello",
        (41, 99),
        100,
        (1, NEVER),
        "ReadFault",
    ),
    (
        "POST / HTTP/1.1\r\nExpect: 100-continue\r\nContent-Length: 5\r\n\r\nhello",
        (60, 99),
        100,
        (1, NEVER),
        "ReadFault+",
    ),
    (
        "POST / HTTP/1.1\r\nExpect: 100-continue\r\nContent-Length: 5\r\n\r\nhello",
        (59, 99),
        100,
        (1, NEVER),
        "ReadFault",
    ),
    (
        "POST / HTTP/1.1\r\nTransfer-Encoding: chunked\r\n\r\n12\r\n0123456789abcdefgh\r\n0\r\n\r\n",
        (48, 99),
        100,
        (1, NEVER),
        "ReadFault",
    ),
    (
        "POST / HTTP/1.1\r\nTransfer-Encoding: chunked\r\n\r\n12\r\n0123456789abcdefgh\r\n0\r\n\r\n",
        (55, 99),
        100,
        (1, NEVER),
        "ReadFault",
    ),
    (
        "POST / HTTP/1.1\r\nTransfer-Encoding: chunked\r\n\r\n12\r\n0123456789abcdefgh\r\n0\r\n\r\n",
        (74, 99),
        100,
        (1, NEVER),
        "ReadFault",
    ),
    (
        "POST / HTTP/1.1\r\nExpect: 100-continue\r\nContent-Length: 5\r\n\r\nhello",
        (99, 99),
        100,
        (NEVER, 0),
        "WriteFault",
    ),
    (
        "POST / HTTP/1.1\r\nExpect: 100-continue\r\nContent-Length: 5\r\n\r\nhello",
        (99, 99),
        10,
        (NEVER, NEVER),
        "WriteFault-",
    ),
    (
        "POST / HTTP/1.1\r\nContent-Length: 5\r\n\r\nhello",
        (99, 99),
        100,
        (NEVER, 0),
        "POST /[hello];End",
    ),
    (
        "POST / HTTP/1.1\r\nExpect: 100-continue\r\nContent-Length: 4194305\r\n\r\n",
        (99, 99),
        100,
        (NEVER, 0),
        "TooLarge",
    ),
];

/// It answers the first that is read otherwise than the table says.
fn first_other_fault<'a>(
    alloc: Global,
    faults: &'a [(&'a str, (usize, usize), u64, (u64, u64), &'a str)],
) -> Mem<Option<&'a str>> {
    for (input, pieces, room, fails, want) in faults {
        if read_failing(alloc, input, *pieces, *room, *fails)?.as_str() != *want {
            return Ok(Some(input));
        }
    }
    Ok(None)
}

#[test]
fn streams_end_and_fail_at_any_place(rt: HostRuntime) {
    let misjudged = first_misjudged(rt.alloc(), &WHOLES).expect(&rt, "memory");
    assert_eq!(rt; misjudged, None);
    let other = first_other_fault(rt.alloc(), &FAULTS).expect(&rt, "memory");
    assert_eq!(rt; other, None);
}
