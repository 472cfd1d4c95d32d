//! Streams whose heads state a length or a coding (RFC 9112, section 6; RFC 9110, section 8.4).

use super::first_misread;

/// A stream, and what is read of it.
static LENGTHS: [(&str, &str); 33] = [
    (
        "POST /a HTTP/1.1\r\nContent-Length: 5\r\n\r\nhello",
        "POST /a[hello];End",
    ),
    ("POST /a HTTP/1.1\r\nContent-Length: 5\r\n\r\nhell", "Cut"),
    ("POST /a HTTP/1.1\r\nContent-Length: 5\r\n\r\n", "Cut"),
    (
        "POST /a HTTP/1.1\r\ncontent-LENGTH:5 \r\n\r\nhelloGET / HTTP/1.0\n\n",
        "POST /a[hello];GET /![];End",
    ),
    (
        "POST /a HTTP/1.1\r\nContent-Length: 0\r\n\r\n",
        "POST /a[];End",
    ),
    (
        "POST /a HTTP/1.1\r\nContent-Length: 05\r\n\r\nhello",
        "POST /a[hello];End",
    ),
    (
        "POST /a HTTP/1.1\r\nContent-Length: +5\r\n\r\nhello",
        "BadHead",
    ),
    (
        "POST /a HTTP/1.1\r\nContent-Length: 5, 5\r\n\r\nhello",
        "BadHead",
    ),
    (
        "POST /a HTTP/1.1\r\nContent-Length:\r\n\r\nhello",
        "BadHead",
    ),
    ("POST /a HTTP/1.1\r\nContent-Length: a\r\n\r\n", "BadHead"),
    (
        "POST /a HTTP/1.1\r\nContent-Length: 5\r\nContent-Length: 5\r\n\r\nhello",
        "POST /a[hello];End",
    ),
    (
        "POST /a HTTP/1.1\r\nContent-Length: 5\r\nContent-Length: 05\r\n\r\nhello",
        "BadHead",
    ),
    (
        "POST /a HTTP/1.1\r\nContent-Length: 5\r\nContent-Length: 6\r\n\r\nhello!",
        "BadHead",
    ),
    (
        "POST /a HTTP/1.1\r\nContent-Length: 5\r\nContent-Length: 5\r\nContent-Length: 6\r\n\r\nhello",
        "BadHead",
    ),
    (
        "POST /a HTTP/1.1\r\nContent-Length: 5\r\nTransfer-Encoding: chunked\r\n\r\nhello",
        "BadHead",
    ),
    (
        "POST /a HTTP/1.1\r\nContent-Length: 5\r\nTransfer-Encoding: gzip\r\n\r\nhello",
        "BadHead",
    ),
    (
        "POST /a HTTP/1.1\r\nContent-Length: 4194305\r\n\r\n",
        "TooLarge",
    ),
    (
        "POST /a HTTP/1.1\r\nContent-Length: 99999999999999999999999\r\n\r\n",
        "TooLarge",
    ),
    ("POST /a HTTP/1.1\r\nContent-Length: 4194304\r\n\r\n", "Cut"),
    (
        "POST /a HTTP/1.1\r\nContent-Length: 4194305\r\nContent-Encoding: gzip\r\n\r\n",
        "Coding",
    ),
    (
        "POST /a HTTP/1.1\r\nContent-Length: x\r\nContent-Encoding: gzip\r\n\r\n",
        "BadHead",
    ),
    (
        "POST /a HTTP/1.1\r\nContent-Length: 5\r\nContent-Encoding: Identity\r\n\r\nhello",
        "POST /a[hello];End",
    ),
    (
        "POST /a HTTP/1.1\r\nContent-Encoding: gzip\r\n\r\n",
        "Coding",
    ),
    ("POST /a HTTP/1.1\r\n\r\n", "NoLength"),
    (
        "GET /a HTTP/1.1\r\nContent-Length: 3\r\n\r\nabc",
        "GET /a[abc];End",
    ),
    ("PUT /a HTTP/1.1\r\n\r\n", "PUT /a[];End"),
    ("post /a HTTP/1.1\r\n\r\n", "post /a[];End"),
    (
        "POST /a HTTP/1.1\r\nTransfer-Encoding: gzip\r\n\r\n",
        "Coding",
    ),
    (
        "POST /a HTTP/1.1\r\nTransfer-Encoding: chunked\r\nContent-Encoding: gzip\r\n\r\n0\r\n\r\n",
        "Coding",
    ),
    (
        "POST /a HTTP/1.1\r\nTransfer-Encoding: gzip, chunked\r\n\r\n",
        "Coding",
    ),
    (
        "POST /a HTTP/1.1\r\nTransfer-Encoding: identity\r\n\r\n",
        "Coding",
    ),
    (
        "GET /a HTTP/1.1\r\nContent-Encoding: gzip\r\n\r\n",
        "Coding",
    ),
    (
        "POST /a HTTP/1.1\r\nTransfer-Encoding: chunked\r\nTransfer-Encoding: chunked\r\n\r\n0\r\n\r\n",
        "Coding",
    ),
];

#[test]
fn lengths_and_codings_are_judged_in_order(rt: HostRuntime) {
    let misread = first_misread(rt.alloc(), &LENGTHS).expect(&rt, "memory");
    assert_eq!(rt; misread, None);
}
