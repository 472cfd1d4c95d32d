//! Streams of heads alone: first lines, fields, and where the input may end.

use super::first_misread;

/// A stream, and what is read of it.
static HEADS: [(&str, &str); 35] = [
    ("", "End"),
    ("\r\n", "End"),
    ("\r", "End"),
    ("\n\r\n\n", "End"),
    ("\r\r", "BadHead"),
    ("\rG", "BadHead"),
    ("GET / HTTP/1.1\r\n\r\n", "GET /[];End"),
    ("\r\n\r\nGET /a HTTP/1.1\r\nHost: h\r\n\r\n", "GET /a[];End"),
    (
        "GET /a HTTP/1.1\r\n\r\nGET /b HTTP/1.1\r\n\r\n\r\n",
        "GET /a[];GET /b[];End",
    ),
    ("GET /a HTTP/1.1\r\n\r\nGET /b", "GET /a[];Cut"),
    ("GET / HTTP/1.0\r\n\r\n", "GET /![];End"),
    ("GET / HTTP/1.1\nHost: h\n\n", "GET /[];End"),
    ("GET /é HTTP/1.1\r\n\r\n", "GET /é[];End"),
    ("GET / HTTP/1.1\r\nHost : h\r\n\r\n", "BadHead"),
    ("GET / HTTP/1.1\r\nA: b\r\n c\r\n\r\n", "BadHead"),
    ("GET / HTTP/1.1\r\n A: b\r\n\r\n", "BadHead"),
    ("GET / HTTP/1.1\r\n: b\r\n\r\n", "BadHead"),
    ("GET / HTTP/1.1\r\nA\r\n\r\n", "BadHead"),
    ("GET / HTTP/1.1\r\nA:\r\n\r\n", "GET /[];End"),
    ("GET / HTTP/3\r\n\r\n", "BadHead"),
    ("GET / HTTP/1.2\r\n\r\n", "BadHead"),
    ("GET /\r\n\r\n", "BadHead"),
    ("GET  / HTTP/1.1\r\n\r\n", "BadHead"),
    ("G(T / HTTP/1.1\r\n\r\n", "BadHead"),
    ("G(T /x", "BadHead"),
    ("GET", "Cut"),
    ("GET ", "Cut"),
    ("GET /x", "Cut"),
    ("GET /x HT", "Cut"),
    ("GET /x HTTP/1.1\r\nA: b\r\n", "Cut"),
    ("GET /\x01", "Cut"),
    ("GET /\x01 ", "BadHead"),
    ("GET /\x01\n", "BadHead"),
    ("GET /\x01\r", "BadHead"),
    ("\r\nGET /\x01", "Cut"),
];

#[test]
fn heads_are_read_alike_in_any_pieces(rt: HostRuntime) {
    let misread = first_misread(rt.alloc(), &HEADS).expect(&rt, "memory");
    assert_eq!(rt; misread, None);
}
