//! The body of a refusal, and refusals that no reply holds.

ghost use Rattle.std.specs.Prelude.{◌≡◌, length};
ghost use Rattle.wfs_ends.specs.Ends.{capped, Gives, Writes};
ghost use Rattle.reply_documents.specs.Refusals.{fixed_text, refusal_body, report_text, row_of, row_shown};

use crate::answer::{finish, put_head, put_str};
use crate::row::{Row, row_of};
use doc_tree::put_text_on;
use http::StatusCode;
use wfs_ends::{CountingSink, Sink, WriteFault, put_on};
use wfs_model::Refusal;

// The parts of an exception report (OGC 06-121r9, 8.5) that are the same in each.
const START: &[u8] =
    b"<?xml version=\"1.0\" encoding=\"UTF-8\"?><ows:ExceptionReport xmlns:ows=\"http://www.opengis.net/ows/1.1\" version=\"2.0.2\"><ows:Exception exceptionCode=\"";

const LOCATOR: &[u8] = b"\" locator=\"";

const TEXT: &[u8] = b"\"><ows:ExceptionText>";

const END: &[u8] = b"</ows:ExceptionText></ows:Exception></ows:ExceptionReport>";

// Gives the exception report of a row, which points at this.
fn put_report<S: Sink>(sink: &mut S, failed: bool, row: &Row, locator: &str) -> bool
    ensures { Writes (record { shown = S.sink sink.old; failed = failed })
        (report_text (row_shown row.now) locator.now)
        (record { shown = S.sink sink.new; failed = result }) }
{
    let failed = put_on(sink, failed, START);
    let failed = put_str(sink, failed, row.code);
    let failed = put_on(sink, failed, LOCATOR);
    let failed = put_text_on(sink, failed, locator, true);
    let failed = put_on(sink, failed, TEXT);
    let failed = put_str(sink, failed, row.reason);
    put_on(sink, failed, END)
}

// How many bytes that is.
#[tactic(auto, using(wfs_ends::proofs::Writing::counted_on))]
fn report_length(row: &Row, locator: &str) -> u64
    ensures { result ≡ capped (length (report_text (row_shown row.now) locator.now)) }
{
    let mut counter = CountingSink::new();
    let _ = put_report(&mut counter, false, row, locator);
    counter.count()
}

// The status of a refusal.
pub(crate) fn refusal_status(refusal: &Refusal) -> StatusCode
    ensures { result ≡ (row_of refusal.now.row).status }
{
    row_of(refusal.row).status
}

// Gives the body of a refusal.
#[tactic(auto, unfolding(crate::specs::Refusals::refusal_body))]
pub(crate) fn put_refusal<S: Sink>(sink: &mut S, failed: bool, refusal: &Refusal) -> bool
    ensures { Writes (record { shown = S.sink sink.old; failed = failed })
        (refusal_body refusal.now.row refusal.now.locator)
        (record { shown = S.sink sink.new; failed = result }) }
{
    let row = row_of(refusal.row);
    put_report(sink, failed, &row, refusal.locator.as_str())
}

/// Gives the refusal of a row of the table of refusals (docs/FORMATS.md) that points at what all of that row point at,
/// whole, as `put_reply` gives it: rows 1 to 7, 13, 15 to 18, and 23 to 27. The other rows, whose refusals point at
/// what their requests name, point at nothing here. A number that is no row counts as 27. `close` says whether the
/// connection ends after it. It takes no memory.
///
/// `WriteFault` comes only where the sink's count of failed puts rose; a front of the text was given then.
pub fn put_fixed<S: Sink>(row: u8, close: bool, sink: &mut S) -> Result<(), WriteFault>
    ensures { Gives result (S.sink sink.old) (fixed_text row close) (S.sink sink.new) }
{
    let row = row_of(row);
    let size = report_length(&row, row.locator);
    let failed = put_head(sink, row.status, "text/xml", size, close);
    let failed = put_report(sink, failed, &row, row.locator);
    finish(failed)
}
