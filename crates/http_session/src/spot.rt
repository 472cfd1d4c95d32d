//! Byte by byte, as far as a limit allows.
ghost use Rattle.std.specs.Prelude.{◌≡◌, ◌<◌, length};
ghost use Rattle.wfs_ends.specs.Ends.{KeepsGiven};
ghost use Rattle.http_session.specs.Reading.{Moved, IsHeld, IsCalm};
ghost use Rattle.http_session.specs.Spots.{spot, IsByte};

use crate::buffer::{Buffer, Filled};
use crate::message::Ending;
use wfs_ends::Source;

/// The next byte.
#[derive(Clone, Copy, Debug, PartialEq, Eq)]
pub(crate) enum Byte {
    Next(u8),
    /// No further byte came, or none is allowed.
    Ended(Ending),
    Fault,
}

/// Takes the next byte, if one is still allowed.
pub(crate) fn next_byte<S: Source>(buffer: &mut Buffer, source: &mut S, allowed: &mut u64) -> Byte
    ensures byte { IsByte result (S.source source.old)
        (spot allowed.old buffer.old (S.source source.old)) (S.source source.new)
        (spot allowed.new buffer.new (S.source source.new)) }
    ensures keeps { KeepsGiven (S.source source.old) (S.source source.new) }
    ensures calm { (result ≡ Byte.Fault → ⊥) → IsCalm (S.source source.old) (S.source source.new) }
{
    match hold_byte(buffer, source) {
        Filled::More => {}
        Filled::End => return Byte::Ended(Ending::Cut),
        Filled::Fault => return Byte::Fault,
    }
    if *allowed == 0 {
        return Byte::Ended(Ending::TooLarge);
    }
    *allowed -= 1;
    let byte = buffer.bytes()[0];
    buffer.skip(1);
    Byte::Next(byte)
}

/// Takes bytes where none are in the buffer.
pub(crate) fn hold_byte<S: Source>(buffer: &mut Buffer, source: &mut S) -> Filled
    ensures moved { Moved buffer.old (S.source source.old) buffer.new (S.source source.new) }
    ensures held { IsHeld result buffer.new (S.source source.old) (S.source source.new) }
    ensures calm { (result ≡ Filled.Fault → ⊥)
        → IsCalm (S.source source.old) (S.source source.new) }
{
    if buffer.bytes().is_empty() {
        buffer.fill(source)
    } else {
        Filled::More
    }
}
