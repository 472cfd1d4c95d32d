//! The reader of a connection's messages.
ghost use Rattle.std.specs.Prelude.{◌≡◌, ◌≤◌, [], length, drop, All, IfOk, Some, IfSome, take};
ghost use Rattle.wfs_ends.specs.Ends.{KeepsGiven};
ghost use Rattle.http_session.specs.Answers.{Reads, ReadsRest, IsBodyNext, IsAsked, HasOneNext, HasOneReading, next_of};
ghost use Rattle.http_session.specs.Reading.{HeadAt, IsBodyRead, IsCalm};

use crate::body::{BodyRead, read_sized};
use crate::buffer::Buffer;
use crate::chunks::read_chunked;
use crate::head::{HeadRead, field_room, read_head};
use crate::message::{Ending, Message, Next};
use crate::plan::Body;
use crate::start::{Start, StartRead, read_start};
use httparse::spans::{HeaderSpan, RequestSpans};
use std::alloc::Global;
use std::marker::Model;
use wfs_ends::{Link, List, Mem, Sink, Source, put_all};

/// The interim line that asks for a body, and the empty line behind it.
const CONTINUE: &[u8] = b"HTTP/1.1 100 Continue\r\n\r\n";

/// Cuts the bytes of a connection into messages. Contracts see it as the bytes that it has taken and not yet used.
#[derive(Drop)]
pub struct Reader {
    buffer: Buffer,
    headers: Vec<HeaderSpan>,
}

impl Model for Reader {
    ghost use Rattle.std.specs.Prelude.{◌≡◌, ℕ, List, length};

    ghost Value = { List ℕ };

    ghost view = { λ r. r.buffer };

    ghost invariant = { λ r. length r.headers.items ≡ 5500 };
}

impl Reader {
    /// A reader for a new connection. It takes the memory for heads once.
    pub fn new(alloc: Global) -> Mem<Reader>
        ensures { IfOk result (λ r. r ≡ []) }
    {
        Ok(Reader {
            buffer: Buffer::new(alloc)?,
            headers: field_room(alloc)?,
        })
    }

    /// Reads the next message (RFC 9112), and writes the line `100 Continue` where its sender waits for it, before the
    /// body is read. Whatever pieces the link gives, the answers are those of all its bytes.
    ///
    /// `ReadFault` and `WriteFault` come only where the link counted a failure on that side, and where a take failed,
    /// `ReadFault` is the answer. At `ReadFault` the bytes that were taken hold no whole message: no head, also where no
    /// head can come of them and that was not answered before, or a head and a part of its body, and the line was written
    /// just where that head asks for it. At `WriteFault` they hold a head that asks for it. After anything but a message
    /// the reader is not called again.
    pub fn next_message<L: Link>(&mut self, alloc: Global, link: &mut L) -> Next
        ensures { Reads self.old (L.Source.source link.old) result self.new
            (L.Source.source link.new) }
    {
        read_next(alloc, &mut self.buffer, &mut self.headers, link)
    }
}

/// Reads a head and then what follows it.
fn read_next<L: Link>(
    alloc: Global,
    buffer: &mut Buffer,
    headers: &mut [HeaderSpan],
    link: &mut L,
) -> Next
    requires room { length headers.old ≡ 5500 }
    ensures room { length headers.new ≡ 5500 }
    ensures reads { Reads buffer.old (L.Source.source link.old) result buffer.new
        (L.Source.source link.new) }
{
    match read_head(buffer, headers, link) {
        HeadRead::Head(spans) => read_message(alloc, buffer, headers, spans, link),
        HeadRead::Ended(ending) => next_of(ending),
        HeadRead::Fault => Next::ReadFault,
    }
}

/// Reads the message whose head the buffer begins with.
fn read_message<L: Link>(
    alloc: Global,
    buffer: &mut Buffer,
    headers: &[HeaderSpan],
    spans: RequestSpans,
    link: &mut L,
) -> Next
    requires head { HeadAt buffer.old headers.now spans }
    ensures reads { Reads buffer.old (L.Source.source link.old) result buffer.new
        (L.Source.source link.new) }
{
    match read_start(alloc, buffer.bytes(), headers, spans) {
        StartRead::Start(start) => {
            buffer.skip(spans.len);
            read_rest(alloc, buffer, start, link)
        }
        StartRead::Ended(ending) => next_of(ending),
        StartRead::OutOfMemory => Next::OutOfMemory,
    }
}

/// Asks for the body, if that is due, and reads it.
fn read_rest<L: Link>(alloc: Global, buffer: &mut Buffer, start: Start, link: &mut L) -> Next
    ensures { ReadsRest start buffer.old (L.Source.source link.old) result buffer.new
        (L.Source.source link.new) }
{
    if fails_to_ask(link, start.plan.due) {
        return Next::WriteFault;
    }
    read_body(alloc, buffer, start, link)
}

/// Writes the interim line if it is due. It says whether that failed.
fn fails_to_ask<S: Sink>(sink: &mut S, is_due: bool) -> bool
    ensures { IsAsked is_due result (S.sink sink.old) (S.sink sink.new) }
{
    if is_due {
        put_all(sink, CONTINUE).is_err()
    } else {
        false
    }
}

/// Reads the body.
fn read_body<S: Source>(alloc: Global, buffer: &mut Buffer, start: Start, source: &mut S) -> Next
    ensures read { IsBodyNext start result buffer.old (S.source source.old) buffer.new
        (S.source source.new) }
    ensures keeps { KeepsGiven (S.source source.old) (S.source source.new) }
    ensures calm { (result ≡ Next.ReadFault → ⊥)
        → IsCalm (S.source source.old) (S.source source.new) }
{
    let Start {
        method,
        target,
        plan,
    } = start;
    match read_content(alloc, buffer, plan.body, source) {
        BodyRead::Content(content) => Next::Message(Message {
            method,
            target,
            body: List::of(content),
            close: plan.close,
        }),
        BodyRead::Ended(ending) => next_of(ending),
        BodyRead::Fault => Next::ReadFault,
        BodyRead::OutOfMemory => Next::OutOfMemory,
    }
}

/// Reads the content, by a length or in chunks.
fn read_content<S: Source>(
    alloc: Global,
    buffer: &mut Buffer,
    body: Body,
    source: &mut S,
) -> BodyRead
    ensures read { IsBodyRead body result buffer.old (S.source source.old) buffer.new
        (S.source source.new) }
    ensures keeps { KeepsGiven (S.source source.old) (S.source source.new) }
    ensures calm { (result ≡ BodyRead.Fault → ⊥)
        → IsCalm (S.source source.old) (S.source source.new) }
{
    match body {
        Body::Sized(size) => read_sized(alloc, buffer, source, size),
        Body::Chunked => read_chunked(alloc, buffer, source),
    }
}

/// The answer at an ending.
fn next_of(ending: Ending) -> Next
    ensures { result ≡ next_of ending }
{
    match ending {
        Ending::End => Next::End,
        Ending::Cut => Next::Cut,
        Ending::BadHead => Next::BadHead,
        Ending::TooLarge => Next::TooLarge,
        Ending::NoLength => Next::NoLength,
        Ending::Coding => Next::Coding,
    }
}

/// The bytes of a connection have one next frame, and one list of messages and ending: no bytes can be read in two
/// ways.
pub fn one_reading()
    ensures frame { HasOneNext }
    ensures frames { HasOneReading }
{}
