//! One session: message after message is read and answered.

ghost use Rattle.std.specs.Prelude.{◌≡◌, []};
ghost use Rattle.service_session.specs.Session.{IsSession};

use crate::ending::SessionEnd;
use crate::gate::Gate;
use crate::round::{Round, hold_round};
use crate::service::Service;
use http_session::Reader;
use std::alloc::Global;
use wfs_ends::{Buffer, Clock, Link};

/// How many messages a session has at most. The answer to the last one closes it.
const MOST_MESSAGES: u32 = 1_000_000;

/// Holds a session over a link: reads its messages, has each judged by the service at the clock's next moment, and answers
/// it, until the input ends, or an answer, a refusal or a fault ends the session. The answer closes the session where the
/// message asks for that, or is the millionth.
///
/// The gate is told when an answer is known, before its first byte is written. The reader is new. `ReadFault` and
/// `WriteFault` come only where the link counted a failure on that side.
pub fn session<S: Service, L: Link, C: Clock, G: Gate>(
    alloc: Global,
    service: &mut S,
    link: &mut L,
    clock: &mut C,
    gate: &mut G,
    reader: &mut Reader,
    buffer: &mut Buffer,
) -> SessionEnd
    requires fresh { reader.old ≡ [] }
    ensures { IsSession S.Service (C.moments clock.old) service.old (L.Source.source link.old)
        result service.new (C.moments clock.new) (L.Source.source link.new) }
{
    let mut left = MOST_MESSAGES;
    while left > 0 {
        match hold_round(alloc, left == 1, service, link, clock, gate, reader, buffer) {
            Round::On => left -= 1,
            Round::Over(end) => return end,
        }
    }
    unreachable!()
}
