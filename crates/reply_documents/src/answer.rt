//! The head of an answer, and the small pieces that all answers have.

ghost use Rattle.std.specs.Prelude.{◌≡◌, decimal, false, List, ℕ};
ghost use Rattle.wfs_ends.specs.Ends.{Shown, Gives, Writes};
ghost use Rattle.reply_documents.specs.Head.{phrase_of, close_text, status_line, head_text};

use http::StatusCode;
use itoa::Buffer;
use wfs_ends::{Sink, WriteFault, put_on};

// Gives a text that stands for itself.
pub(crate) fn put_str<S: Sink>(sink: &mut S, failed: bool, text: &str) -> bool
    ensures { Writes (record { shown = S.sink sink.old; failed = failed }) text.now
        (record { shown = S.sink sink.new; failed = result }) }
{
    put_on(sink, failed, text.as_bytes())
}

// Gives a number in decimal.
pub(crate) fn put_number<S: Sink>(sink: &mut S, failed: bool, number: u64) -> bool
    ensures { Writes (record { shown = S.sink sink.old; failed = failed }) (decimal number)
        (record { shown = S.sink sink.new; failed = result }) }
{
    let mut buffer = Buffer::new();
    put_on(sink, failed, buffer.format(number).as_bytes())
}

// The number of a status.
fn number_of(status: StatusCode) -> u64
    ensures { result ≡ status }
{
    u64::from(status.as_u16())
}

// The phrase of a status.
#[tactic(auto, unfolding(crate::specs::Head::phrase_of))]
fn phrase_of(status: StatusCode) -> &'static str
    ensures { result.now ≡ phrase_of status }
{
    match status.canonical_reason() {
        Some(phrase) => phrase,
        None => "",
    }
}

// Gives the status line, without its end.
fn put_status<S: Sink>(sink: &mut S, status: StatusCode) -> bool
    ensures { Writes (record { shown = S.sink sink.old; failed = false }) (status_line status)
        (record { shown = S.sink sink.new; failed = result }) }
{
    let failed = put_on(sink, false, b"HTTP/1.1 ");
    let failed = put_number(sink, failed, number_of(status));
    let failed = put_on(sink, failed, b" ");
    put_str(sink, failed, phrase_of(status))
}

// Says that the connection ends, where it does.
fn put_close<S: Sink>(sink: &mut S, failed: bool, close: bool) -> bool
    ensures { Writes (record { shown = S.sink sink.old; failed = failed }) (close_text close)
        (record { shown = S.sink sink.new; failed = result }) }
{
    if close {
        put_on(sink, failed, b"\r\nConnection: close")
    } else {
        put_on(sink, failed, b"")
    }
}

// Gives the head of an answer whose body has so many bytes.
pub(crate) fn put_head<S: Sink>(
    sink: &mut S,
    status: StatusCode,
    media: &str,
    size: u64,
    close: bool,
) -> bool
    ensures { Writes (record { shown = S.sink sink.old; failed = false })
        (head_text status media.now size close)
        (record { shown = S.sink sink.new; failed = result }) }
{
    let failed = put_status(sink, status);
    let failed = put_on(sink, failed, b"\r\nContent-Type: ");
    let failed = put_str(sink, failed, media);
    let failed = put_on(sink, failed, b"\r\nContent-Length: ");
    let failed = put_number(sink, failed, size);
    let failed = put_close(sink, failed, close);
    put_on(sink, failed, b"\r\n\r\n")
}

// Says whether all of a text was given.
pub(crate) fn finish(failed: bool) -> Result<(), WriteFault>
    ensures { (first last : Shown) (text : List ℕ)
        → Writes (record { shown = first; failed = false }) text
        (record { shown = last; failed = failed }) → Gives result first text last }
{
    if failed { Err(WriteFault) } else { Ok(()) }
}
