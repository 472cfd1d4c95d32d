//! The limits, in small and in large pieces: 16,384 bytes of head, 64 fields, 4,194,304 bytes of content, 8,388,608 of chunks as
//! sent.

use super::read_in;
use std::alloc::Global;
use wfs_ends::Mem;

/// A text of one part, again and again, between two others.
fn repeated(alloc: Global, front: &str, part: &str, count: usize, back: &str) -> Mem<String> {
    let mut text = String::from_str(alloc, front)?;
    for _ in 0..count {
        text.push_str(part)?;
    }
    text.push_str(back)?;
    Ok(text)
}

/// A front, what is repeated, how often, a back, and of what is read of it the beginning and how many bytes it has.
static SIZES: [(&str, &str, usize, &str, &str, usize); 24] = [
    ("GET / HTTP/1.1\r\nA: ", "a", 16361, "\r\n\r\n", "GET", 11),
    (
        "GET / HTTP/1.1\r\nA: ",
        "a",
        16362,
        "\r\n\r\n",
        "TooLarge",
        8,
    ),
    ("GET / HTTP/1.1\r\nA: ", "a", 16362, "\r\n", "Cut", 3),
    ("GET /", "a", 16366, " HTTP/1.1\r\n\r\n", "GET", 16377),
    ("GET /", "a", 16367, " HTTP/1.1\r\n\r\n", "TooLarge", 8),
    ("", "M", 16369, " / HTTP/1.1\r\n\r\n", "MMM", 16377),
    ("GET /", "\x01", 16379, "", "TooLarge", 8),
    ("G(T /", "a", 16379, "", "BadHead", 7),
    ("", "\r\n", 8192, "", "TooLarge", 8),
    ("GET / HTTP/1.1\r\n", "A: b\r\n", 64, "\r\n", "GET", 11),
    ("GET / HTTP/1.1\r\n", "A: b\r\n", 65, "\r\n", "BadHead", 7),
    ("GET / HTTP/1.1\r\n", "A: b\r\n", 65, "", "Cut", 3),
    ("POST / HTTP/1.1\r\n", "A: b\r\n", 64, "\r\n", "NoLength", 8),
    ("POST / HTTP/1.1\r\n", "A: b\r\n", 65, "\r\n", "BadHead", 7),
    (
        "POST / HTTP/1.1\r\nContent-Encoding: gzip\r\n",
        "A: b\r\n",
        64,
        "\r\n",
        "BadHead",
        7,
    ),
    (
        "POST / HTTP/1.1\r\nContent-Length: 4194304\r\n\r\n",
        "xxxxxxxxxxxxxxxx",
        262144,
        "",
        "POST",
        4194316,
    ),
    (
        "POST / HTTP/1.1\r\nContent-Length: 4194304\r\n\r\n",
        "xxxxxxxxxxxxxxxx",
        262143,
        "xxxxxxxxxxxxxxx",
        "Cut",
        3,
    ),
    (
        "POST / HTTP/1.1\r\nTransfer-Encoding: chunked\r\n\r\n400000\r\n",
        "xxxxxxxxxxxxxxxx",
        262144,
        "\r\n0\r\n\r\n",
        "POST",
        4194316,
    ),
    (
        "POST / HTTP/1.1\r\nTransfer-Encoding: chunked\r\n\r\n400000\r\n",
        "xxxxxxxxxxxxxxxx",
        262144,
        "\r\n1\r\nx",
        "TooLarge",
        8,
    ),
    (
        "POST / HTTP/1.1\r\nTransfer-Encoding: chunked\r\n\r\n400001\r\n",
        "xxxxxxxxxxxxxxxx",
        262144,
        "",
        "Cut",
        3,
    ),
    (
        "POST / HTTP/1.1\r\nTransfer-Encoding: chunked\r\n\r\n400001\r\n",
        "xxxxxxxxxxxxxxxx",
        262144,
        "x",
        "TooLarge",
        8,
    ),
    (
        "POST / HTTP/1.1\r\nTransfer-Encoding: chunked\r\n\r\n",
        "5\r\nhello\r\n",
        838860,
        "0;aa\r\n\r\n",
        "POST",
        4194312,
    ),
    (
        "POST / HTTP/1.1\r\nTransfer-Encoding: chunked\r\n\r\n",
        "5\r\nhello\r\n",
        838860,
        "0;aaa\r\n\r\n",
        "TooLarge",
        8,
    ),
    (
        "POST / HTTP/1.1\r\nTransfer-Encoding: chunked\r\n\r\n",
        "5\r\nhello\r\n",
        838860,
        "0;aaa\r\n\r",
        "Cut",
        3,
    ),
];

fn is_read_as(text: &str, word: &str, length: usize) -> bool {
    text.starts_with(word) && text.len() == length
}

/// A head comes byte by byte. Of millions of bytes so many come at once, a prime number, so that a limit falls inside of a piece.
fn small_piece(length: usize) -> usize {
    if length < 100_000 { 1 } else { 997 }
}

/// Reads each of these in small and in large pieces. It answers the first that is read otherwise than the table says.
fn first_mismeasured<'a>(
    alloc: Global,
    sizes: &'a [(&'a str, &'a str, usize, &'a str, &'a str, usize)],
) -> Mem<Option<&'a str>> {
    for (front, part, count, back, word, length) in sizes {
        let input = repeated(alloc, front, part, *count, back)?;
        let small = small_piece(input.len());
        let slow = read_in(alloc, input.as_str(), small, small)?;
        let quick = read_in(alloc, input.as_str(), 16384, 16384)?;
        if !is_read_as(slow.as_str(), word, *length) || !is_read_as(quick.as_str(), word, *length) {
            return Ok(Some(front));
        }
    }
    Ok(None)
}

#[test]
fn limits_are_exact_in_small_and_in_large_pieces(rt: HostRuntime) {
    let misread = first_mismeasured(rt.alloc(), &SIZES).expect(&rt, "memory");
    assert_eq!(rt; misread, None);
}
