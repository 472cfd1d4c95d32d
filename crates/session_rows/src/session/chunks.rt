//! Streams of bodies in chunks (RFC 9112, section 7.1).

use super::first_misread;

/// A stream, and what is read of it.
static CHUNKS: [(&str, &str); 23] = [
    (
        "POST /a HTTP/1.1\r\nTransfer-Encoding: CHUNKED\r\n\r\n5\r\nhello\r\n0\r\n\r\n",
        "POST /a[hello];End",
    ),
    (
        "POST /a HTTP/1.1\r\nTransfer-Encoding: chunked\r\n\r\n3;a=b\r\nhel\r\n2  \r\nlo\r\n0;x\r\nA: b\r\nC\r\n\r\nGET / HTTP/1.1\r\n\r\n",
        "POST /a[hello];GET /[];End",
    ),
    (
        "POST /a HTTP/1.1\r\nTransfer-Encoding: chunked\r\n\r\n0\r\nA\n\nGET / HTTP/1.1\r\n\r\n",
        "POST /a[];GET /[];End",
    ),
    (
        "POST /a HTTP/1.1\r\nTransfer-Encoding: chunked\r\n\r\n5\nhello\r\n0\r\n\r\n",
        "BadHead",
    ),
    (
        "POST /a HTTP/1.1\r\nTransfer-Encoding: chunked\r\n\r\n5\r\nhelloX",
        "BadHead",
    ),
    (
        "POST /a HTTP/1.1\r\nTransfer-Encoding: chunked\r\n\r\n5\r\nhello\rX",
        "BadHead",
    ),
    (
        "POST /a HTTP/1.1\r\nTransfer-Encoding: chunked\r\n\r\n\r\n",
        "BadHead",
    ),
    (
        "POST /a HTTP/1.1\r\nTransfer-Encoding: chunked\r\n\r\ng\r\n",
        "BadHead",
    ),
    (
        "POST /a HTTP/1.1\r\nTransfer-Encoding: chunked\r\n\r\n0000000000000005\r\nhello\r\n0\r\n\r\n",
        "POST /a[hello];End",
    ),
    (
        "POST /a HTTP/1.1\r\nTransfer-Encoding: chunked\r\n\r\n00000000000000005\r\n",
        "BadHead",
    ),
    (
        "POST /a HTTP/1.1\r\nTransfer-Encoding: chunked\r\n\r\n",
        "Cut",
    ),
    (
        "POST /a HTTP/1.1\r\nTransfer-Encoding: chunked\r\n\r\n5",
        "Cut",
    ),
    (
        "POST /a HTTP/1.1\r\nTransfer-Encoding: chunked\r\n\r\n5\r\nhel",
        "Cut",
    ),
    (
        "POST /a HTTP/1.1\r\nTransfer-Encoding: chunked\r\n\r\n5\r\nhello",
        "Cut",
    ),
    (
        "POST /a HTTP/1.1\r\nTransfer-Encoding: chunked\r\n\r\n5\r\nhello\r",
        "Cut",
    ),
    (
        "POST /a HTTP/1.1\r\nTransfer-Encoding: chunked\r\n\r\n0\r\n",
        "Cut",
    ),
    (
        "POST /a HTTP/1.1\r\nTransfer-Encoding: chunked\r\n\r\n0\r\nA: b\r\n",
        "Cut",
    ),
    (
        "POST /a HTTP/1.1\r\nTransfer-Encoding: chunked\r\n\r\n0\r\nA\n",
        "Cut",
    ),
    (
        "POST /a HTTP/1.1\r\nTransfer-Encoding: chunked\r\n\r\n400001\r\n",
        "Cut",
    ),
    (
        "POST /a HTTP/1.0\r\nTransfer-Encoding: chunked\r\n\r\n1\r\nx\r\n0\r\n\r\n",
        "POST /a![x];End",
    ),
    (
        "GET /a HTTP/1.1\r\nTransfer-Encoding: chunked\r\n\r\n1\r\nx\r\n0\r\n\r\n",
        "GET /a[x];End",
    ),
    (
        "POST /a HTTP/1.1\r\nTransfer-Encoding: chunked\r\n\r\n5\r\nhello\n0\r\n\r\n",
        "BadHead",
    ),
    (
        "POST /a HTTP/1.1\r\nTransfer-Encoding: chunked\r\n\r\n0\r\n\r\r\n",
        "Cut",
    ),
];

#[test]
fn chunks_are_read_alike_in_any_pieces(rt: HostRuntime) {
    let misread = first_misread(rt.alloc(), &CHUNKS).expect(&rt, "memory");
    assert_eq!(rt; misread, None);
}
