//! Streams whose senders wait to be asked for the body, and whose connections close (RFC 9110, section 10.1.1; RFC 9112, section
//! 9.6).

use super::first_misread;

/// A stream, and what is read of it.
static ASKS: [(&str, &str); 24] = [
    (
        "POST /a HTTP/1.1\r\nExpect: 100-CONTINUE\r\nContent-Length: 5\r\n\r\nhello",
        "POST /a[hello];End+",
    ),
    (
        "POST /a HTTP/1.1\r\nExpect: 100-continue\r\nContent-Length: 0\r\n\r\n",
        "POST /a[];End",
    ),
    (
        "POST /a HTTP/1.1\r\nExpect: 100-continue\r\nExpect: 100-continue\r\nContent-Length: 1\r\n\r\nx",
        "POST /a[x];End+",
    ),
    (
        "POST /a HTTP/1.1\r\nExpect: 200-ok\r\nContent-Length: 1\r\n\r\nx",
        "POST /a[x];End",
    ),
    (
        "POST /a HTTP/1.1\r\nExpect: 200-ok\r\nExpect: 100-Continue\r\nContent-Length: 1\r\n\r\nx",
        "POST /a[x];End+",
    ),
    (
        "POST /a HTTP/1.1\r\nExpect: 100-continue\r\nHost: h\r\nExpect: 200-ok\r\nContent-Length: 1\r\n\r\nx",
        "POST /a[x];End+",
    ),
    (
        "POST /a HTTP/1.1\r\nExpect: 200-ok\r\nExpect: 100-continued\r\nContent-Length: 1\r\n\r\nx",
        "POST /a[x];End",
    ),
    (
        "POST /a HTTP/1.1\r\nExpect: 100-continue, 200-ok\r\nContent-Length: 1\r\n\r\nx",
        "POST /a[x];End",
    ),
    (
        "POST /a HTTP/1.1\r\nExpect: 100-continue, 100-continue\r\nContent-Length: 1\r\n\r\nx",
        "POST /a[x];End",
    ),
    (
        "POST /a HTTP/1.0\r\nExpect: 100-continue\r\nContent-Length: 1\r\n\r\nx",
        "POST /a![x];End",
    ),
    (
        "GET /a HTTP/1.1\r\nExpect: 100-continue\r\nContent-Length: 1\r\n\r\nx",
        "GET /a[x];End+",
    ),
    (
        "POST /a HTTP/1.1\r\nExpect: 100-continue\r\nContent-Length: 5\r\n\r\nhell",
        "Cut+",
    ),
    (
        "POST /a HTTP/1.1\r\nExpect: 100-continue\r\nTransfer-Encoding: chunked\r\n\r\nx",
        "BadHead+",
    ),
    (
        "POST /a HTTP/1.1\r\nExpect: 100-continue\r\nContent-Length: 4194305\r\n\r\n",
        "TooLarge",
    ),
    (
        "GET / HTTP/1.1\r\nConnection: close\r\n\r\n",
        "GET /![];End",
    ),
    (
        "GET / HTTP/1.1\r\nConnection: keep-alive ,\tClose\r\n\r\n",
        "GET /![];End",
    ),
    (
        "GET / HTTP/1.1\r\nConnection: close , te\r\n\r\n",
        "GET /![];End",
    ),
    (
        "GET / HTTP/1.1\r\nConnection: te,close\r\n\r\n",
        "GET /![];End",
    ),
    (
        "GET / HTTP/1.1\r\nConnection: keep-alive, Close\r\n\r\n",
        "GET /![];End",
    ),
    (
        "GET / HTTP/1.1\r\nConnection: te, keep-alive\r\n\r\n",
        "GET /[];End",
    ),
    (
        "GET / HTTP/1.1\r\nConnection: closed\r\n\r\n",
        "GET /[];End",
    ),
    (
        "GET / HTTP/1.1\r\nConnection: a\r\nConnection: close\r\n\r\n",
        "GET /![];End",
    ),
    (
        "GET / HTTP/1.1\r\nConnection: a close\r\n\r\n",
        "GET /[];End",
    ),
    (
        "GET / HTTP/1.0\r\nConnection: keep-alive\r\n\r\n",
        "GET /![];End",
    ),
];

#[test]
fn the_line_is_written_and_the_close_told(rt: HostRuntime) {
    let misread = first_misread(rt.alloc(), &ASKS).expect(&rt, "memory");
    assert_eq!(rt; misread, None);
}
