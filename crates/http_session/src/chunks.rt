//! A body in chunks.
ghost use Rattle.std.specs.Prelude.{◌≡◌, ◌<◌, ◌≤◌, length, List, ℕ, IfSome};
ghost use Rattle.wfs_ends.specs.Ends.{KeepsGiven};
ghost use Rattle.http_session.specs.Spots.{spot, IsLineRead, IsTurn, IsCopied, after_trailer, trailer_step, turn_of};
ghost use Rattle.http_session.specs.Chunks.{stops, chunk_of, after_data, after_return};
ghost use Rattle.http_session.specs.Reading.{IsBodyRead, IsCalm};
ghost use Rattle.http_session.specs.declared.plan.Body.TheVariants as way;
ghost use Rattle.http_session.specs.declared.chunks.Begun.TheVariants as begun;
ghost use Rattle.http_session.specs.declared.chunks.ChunkRead.TheVariants as chunkread;
ghost use Rattle.http_session.specs.Lines.{line_of};

use crate::body::BodyRead;
use crate::buffer::{Buffer, Filled};
use crate::line::{LineState, LineStep};
use crate::message::Ending;
use crate::plan::BODY_LIMIT;
use crate::spot::{Byte, hold_byte, next_byte};
use std::alloc::Global;
use wfs_ends::Source;

/// A body in chunks has at most so many bytes as sent, with all its lines.
const SENT_LIMIT: u64 = 8388608;

/// A chunk line.
#[derive(Clone, Copy, Debug, PartialEq, Eq)]
pub(crate) enum LineRead {
    /// It states this size.
    Line(usize),
    Bad,
    Ended(Ending),
    Fault,
}

/// What was read of the chunks.
#[derive(Clone, Copy, Debug, PartialEq, Eq)]
pub(crate) enum ChunkRead {
    /// A chunk.
    More,
    /// The last chunk and the trailer.
    Whole,
    Ended(Ending),
    Fault,
    OutOfMemory,
}

/// What has come of a trailer line.
#[derive(Clone, Copy, Debug, PartialEq, Eq)]
pub(crate) enum Begun {
    Nothing,
    /// A CR alone.
    Return,
    Text,
}

/// Reads a body in chunks.
pub(crate) fn read_chunked<S: Source>(
    alloc: Global,
    buffer: &mut Buffer,
    source: &mut S,
) -> BodyRead
    ensures read { IsBodyRead way.Chunked result buffer.old (S.source source.old) buffer.new
        (S.source source.new) }
    ensures keeps { KeepsGiven (S.source source.old) (S.source source.new) }
    ensures calm { (result ≡ BodyRead.Fault → ⊥)
        → IsCalm (S.source source.old) (S.source source.new) }
{
    let mut content = Vec::new(alloc);
    let mut allowed = SENT_LIMIT;
    loop {
        match read_chunk(&mut content, buffer, source, &mut allowed) {
            ChunkRead::More => {}
            ChunkRead::Whole => return BodyRead::Content(content),
            ChunkRead::Ended(ending) => return BodyRead::Ended(ending),
            ChunkRead::Fault => return BodyRead::Fault,
            ChunkRead::OutOfMemory => return BodyRead::OutOfMemory,
        }
    }
}

/// Reads a chunk, or the last one and the trailer.
fn read_chunk<S: Source>(
    content: &mut Vec<u8>,
    buffer: &mut Buffer,
    source: &mut S,
    allowed: &mut u64,
) -> ChunkRead
    requires within { length content.old.items ≤ 4194304 }
    ensures turn { IsTurn (λ w. turn_of content.old.items (line_of w)) result content.new.items
        (S.source source.old) (spot allowed.old buffer.old (S.source source.old))
        (S.source source.new) (spot allowed.new buffer.new (S.source source.new)) }
    ensures within { result ≡ chunkread.More → length content.new.items ≤ 4194304 }
    ensures keeps { KeepsGiven (S.source source.old) (S.source source.new) }
    ensures calm { (result ≡ ChunkRead.Fault → ⊥)
        → IsCalm (S.source source.old) (S.source source.new) }
{
    match read_line(buffer, source, allowed) {
        LineRead::Line(0) => read_trailer(buffer, source, allowed),
        LineRead::Line(size) => read_data(content, buffer, source, allowed, size),
        LineRead::Bad => ChunkRead::Ended(Ending::BadHead),
        LineRead::Ended(ending) => ChunkRead::Ended(ending),
        LineRead::Fault => ChunkRead::Fault,
    }
}

/// Passes over the trailer lines, up to an empty one.
fn read_trailer<S: Source>(buffer: &mut Buffer, source: &mut S, allowed: &mut u64) -> ChunkRead
    ensures turn { (content : List ℕ) → IsTurn (λ w. stops (after_trailer content begun.Nothing w))
        result content (S.source source.old) (spot allowed.old buffer.old (S.source source.old))
        (S.source source.new) (spot allowed.new buffer.new (S.source source.new)) }
    ensures end { result ≡ chunkread.More → ⊥ }
    ensures keeps { KeepsGiven (S.source source.old) (S.source source.new) }
    ensures calm { (result ≡ ChunkRead.Fault → ⊥)
        → IsCalm (S.source source.old) (S.source source.new) }
{
    let mut line = Begun::Nothing;
    loop {
        match next_byte(buffer, source, allowed) {
            Byte::Next(byte) => match trailer_step(line, byte) {
                Some(next) => line = next,
                None => return ChunkRead::Whole,
            },
            Byte::Ended(ending) => return ChunkRead::Ended(ending),
            Byte::Fault => return ChunkRead::Fault,
        }
    }
}

/// What has come of a trailer line with one more byte, or `None` where that ends an empty line.
fn trailer_step(line: Begun, byte: u8) -> Option<Begun>
    ensures { result ≡ trailer_step line byte }
{
    match (line, byte) {
        (Begun::Nothing, b'\n') => None,
        (Begun::Return, b'\n') => None,
        (Begun::Text, b'\n') => Some(Begun::Nothing),
        (Begun::Nothing, b'\r') => Some(Begun::Return),
        _ => Some(Begun::Text),
    }
}

/// Reads the content of a chunk of this size, and its end.
fn read_data<S: Source>(
    content: &mut Vec<u8>,
    buffer: &mut Buffer,
    source: &mut S,
    allowed: &mut u64,
    size: usize,
) -> ChunkRead
    requires within { length content.old.items ≤ 4194304 }
    ensures turn { IsTurn (chunk_of content.old.items size) result content.new.items
        (S.source source.old) (spot allowed.old buffer.old (S.source source.old))
        (S.source source.new) (spot allowed.new buffer.new (S.source source.new)) }
    ensures within { result ≡ chunkread.More → length content.new.items ≤ 4194304 }
    ensures keeps { KeepsGiven (S.source source.old) (S.source source.new) }
    ensures calm { (result ≡ ChunkRead.Fault → ⊥)
        → IsCalm (S.source source.old) (S.source source.new) }
{
    let mut left = size;
    while left > 0 {
        match hold_byte(buffer, source) {
            Filled::More => {}
            Filled::End => return ChunkRead::Ended(Ending::Cut),
            Filled::Fault => return ChunkRead::Fault,
        }
        if *allowed == 0 {
            return ChunkRead::Ended(Ending::TooLarge);
        }
        if content.len() == BODY_LIMIT {
            return ChunkRead::Ended(Ending::TooLarge);
        }
        match copy_data(content, buffer, allowed, left) {
            Some(rest) => left = rest,
            None => return ChunkRead::OutOfMemory,
        }
    }
    read_end(buffer, source, allowed)
}

/// Copies as many bytes of the chunk as are at hand and allowed. It answers how many are left, or `None` for want of
/// memory.
fn copy_data(
    content: &mut Vec<u8>,
    buffer: &mut Buffer,
    allowed: &mut u64,
    left: usize,
) -> Option<usize>
    requires some { 0 < left }
    requires held { 0 < length buffer.old }
    requires may { 0 < allowed.old }
    requires room { length content.old.items < 4194304 }
    ensures copied { IfSome result (IsCopied content.old.items buffer.old allowed.old left
        content.new.items buffer.new allowed.new) }
{
    let bytes = buffer.bytes();
    let room = BODY_LIMIT - content.len();
    let count = left.min(room).min(bytes.len()).min(*allowed as usize);
    let Ok(()) = content.extend_from_slice(&bytes[..count]) else {
        return None;
    };
    buffer.skip(count);
    *allowed -= count as u64;
    Some(left - count)
}

/// Reads the CR LF behind the content of a chunk.
fn read_end<S: Source>(buffer: &mut Buffer, source: &mut S, allowed: &mut u64) -> ChunkRead
    ensures turn { (content : List ℕ) → IsTurn (after_data content) result content
        (S.source source.old) (spot allowed.old buffer.old (S.source source.old))
        (S.source source.new) (spot allowed.new buffer.new (S.source source.new)) }
    ensures keeps { KeepsGiven (S.source source.old) (S.source source.new) }
    ensures calm { (result ≡ ChunkRead.Fault → ⊥)
        → IsCalm (S.source source.old) (S.source source.new) }
{
    match next_byte(buffer, source, allowed) {
        Byte::Next(b'\r') => read_line_feed(buffer, source, allowed),
        Byte::Next(_) => ChunkRead::Ended(Ending::BadHead),
        Byte::Ended(ending) => ChunkRead::Ended(ending),
        Byte::Fault => ChunkRead::Fault,
    }
}

/// Reads the LF.
fn read_line_feed<S: Source>(buffer: &mut Buffer, source: &mut S, allowed: &mut u64) -> ChunkRead
    ensures turn { (content : List ℕ) → IsTurn (after_return content) result content
        (S.source source.old) (spot allowed.old buffer.old (S.source source.old))
        (S.source source.new) (spot allowed.new buffer.new (S.source source.new)) }
    ensures keeps { KeepsGiven (S.source source.old) (S.source source.new) }
    ensures calm { (result ≡ ChunkRead.Fault → ⊥)
        → IsCalm (S.source source.old) (S.source source.new) }
{
    match next_byte(buffer, source, allowed) {
        Byte::Next(b'\n') => ChunkRead::More,
        Byte::Next(_) => ChunkRead::Ended(Ending::BadHead),
        Byte::Ended(ending) => ChunkRead::Ended(ending),
        Byte::Fault => ChunkRead::Fault,
    }
}

/// Reads a chunk line.
fn read_line<S: Source>(buffer: &mut Buffer, source: &mut S, allowed: &mut u64) -> LineRead
    ensures line { IsLineRead line_of result (S.source source.old)
        (spot allowed.old buffer.old (S.source source.old)) (S.source source.new)
        (spot allowed.new buffer.new (S.source source.new)) }
    ensures keeps { KeepsGiven (S.source source.old) (S.source source.new) }
    ensures calm { (result ≡ LineRead.Fault → ⊥)
        → IsCalm (S.source source.old) (S.source source.new) }
{
    let mut state = LineState::start();
    loop {
        match next_byte(buffer, source, allowed) {
            Byte::Next(byte) => match state.step(byte) {
                LineStep::Goes(next) => state = next,
                LineStep::Ends(size) => return LineRead::Line(size),
                LineStep::Bad => return LineRead::Bad,
            },
            Byte::Ended(ending) => return LineRead::Ended(ending),
            Byte::Fault => return LineRead::Fault,
        }
    }
}
