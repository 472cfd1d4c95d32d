//! Refusals that no reply holds: of a number that is no row, and in a sink that fails.

use reply_documents::put_fixed;
use std::alloc::Global;
use wfs_ends::{Mem, MemSink};

// The last row of the table of refusals.
const LAST: &str =
    "HTTP/1.1 503 Service Unavailable\r\nContent-Type: text/xml\r\nContent-Length: 269\r\nConnection: close\r\n\r\n<?xml version=\"1.0\" encoding=\"UTF-8\"?><ows:ExceptionReport xmlns:ows=\"http://www.opengis.net/ows/1.1\" version=\"2.0.2\"><ows:Exception exceptionCode=\"NoApplicableCode\" locator=\"memory\"><ows:ExceptionText>no memory</ows:ExceptionText></ows:Exception></ows:ExceptionReport>";

// Whether this is the refusal of a number, after which the connection ends.
fn is_fixed(alloc: Global, number: u8, bytes: &[u8]) -> Mem<bool> {
    let mut sink = MemSink::new(alloc, 500, Vec::new(alloc))?;
    let _ = put_fixed(number, true, &mut sink);
    Ok(sink.bytes() == bytes)
}

#[test]
fn a_number_that_is_no_row_counts_as_the_last(rt: HostRuntime) {
    assert_eq!(rt; is_fixed(rt.alloc(), 0, LAST.as_bytes()), Ok(true));
    assert_eq!(rt; is_fixed(rt.alloc(), 27, LAST.as_bytes()), Ok(true));
    assert_eq!(rt; is_fixed(rt.alloc(), 28, LAST.as_bytes()), Ok(true));
}

// Whether a failing sink is told, and holds the front that it took.
fn front_is_given(alloc: Global) -> Mem<bool> {
    let mut sink = MemSink::new(alloc, 17, Vec::new(alloc))?;
    let failed = put_fixed(25, true, &mut sink).is_err();
    Ok(failed && sink.bytes() == "HTTP/1.1 500 Inte".as_bytes())
}

#[test]
fn a_front_is_given_where_the_sink_fails(rt: HostRuntime) {
    assert_eq!(rt; front_is_given(rt.alloc()), Ok(true));
}
