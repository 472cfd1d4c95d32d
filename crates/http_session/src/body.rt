//! A body of a stated length.
ghost use Rattle.std.specs.Prelude.{◌≡◌, ◌+◌, ◌<◌, ◌≤◌, length, take, min, IfSome};
ghost use Rattle.wfs_ends.specs.Ends.{KeepsGiven};
ghost use Rattle.http_session.specs.Reading.{IsFull, IsRest, IsBodyRead, IsCalm};
ghost use Rattle.http_session.specs.declared.plan.Body.TheVariants as way;

use crate::buffer::{Buffer, take_behind};
use crate::message::Ending;
use std::alloc::Global;
use wfs_ends::Source;

/// What was read of a body.
#[derive(Drop)]
pub(crate) enum BodyRead {
    Content(Vec<u8>),
    Ended(Ending),
    Fault,
    OutOfMemory,
}

/// How much of a body came.
#[derive(Clone, Copy, Debug, PartialEq, Eq)]
pub(crate) enum Full {
    Whole,
    /// The input ended before.
    End,
    Fault,
}

/// Reads a body of so many bytes.
pub(crate) fn read_sized<S: Source>(
    alloc: Global,
    buffer: &mut Buffer,
    source: &mut S,
    size: usize,
) -> BodyRead
    ensures read { IsBodyRead (way.Sized size) result buffer.old (S.source source.old) buffer.new
        (S.source source.new) }
    ensures keeps { KeepsGiven (S.source source.old) (S.source source.new) }
    ensures calm { (result ≡ BodyRead.Fault → ⊥)
        → IsCalm (S.source source.old) (S.source source.new) }
{
    let Ok(mut content) = vec![in alloc; 0; size] else {
        return BodyRead::OutOfMemory;
    };
    match fill_body(&mut content, buffer, source) {
        Full::Whole => BodyRead::Content(content),
        Full::End => BodyRead::Ended(Ending::Cut),
        Full::Fault => BodyRead::Fault,
    }
}

/// Fills a body with the bytes in the buffer and then those of the source, which go into it with no copy between.
fn fill_body<S: Source>(body: &mut [u8], buffer: &mut Buffer, source: &mut S) -> Full
    ensures len { length body.new ≡ length body.old }
    ensures full { IsFull result body.new buffer.old (S.source source.old) buffer.new
        (S.source source.new) }
    ensures keeps { KeepsGiven (S.source source.old) (S.source source.new) }
    ensures calm { (result ≡ Full.Fault → ⊥) → IsCalm (S.source source.old) (S.source source.new) }
{
    let held = copy_front(body, buffer.bytes());
    buffer.skip(held);
    if held == body.len() {
        return Full::Whole;
    }
    read_rest(body, held, source)
}

/// Copies as many bytes as there is room for.
fn copy_front(into: &mut [u8], bytes: &[u8]) -> usize
    ensures count { result ≡ min (length into.old) (length bytes.now) }
    ensures front { take result into.new ≡ take result bytes.now }
    ensures len { length into.new ≡ length into.old }
{
    let count = into.len().min(bytes.len());
    into[..count].copy_from_slice(&bytes[..count]);
    count
}

/// Reads the bytes of a body from this one on.
fn read_rest<S: Source>(body: &mut [u8], start: usize, source: &mut S) -> Full
    requires { start ≤ length body.old }
    ensures len { length body.new ≡ length body.old }
    ensures rest { IsRest result start body.old (S.source source.old) body.new
        (S.source source.new) }
    ensures keeps { KeepsGiven (S.source source.old) (S.source source.new) }
    ensures calm { (result ≡ Full.Fault → ⊥) → IsCalm (S.source source.old) (S.source source.new) }
{
    let mut filled = start;
    while filled < body.len() {
        match take_behind(body, filled, source) {
            Ok(0) => return Full::End,
            Ok(count) => filled += count,
            Err(_) => return Full::Fault,
        }
    }
    Full::Whole
}
