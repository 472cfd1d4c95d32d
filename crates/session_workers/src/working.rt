//! What one worker does, link after link.

ghost use Rattle.std.specs.Prelude.{◌≡◌};
ghost use Rattle.session_workers.specs.Working.{IsWorked, most_links, stand};

use crate::ending::WorkerEnd;
use crate::visit::{Next, serve_next};
use service_doors::Acceptor;
use service_session::{Gate, Service};
use std::alloc::Global;
use wfs_ends::Clock;

/// Takes one link after the other from the acceptor, holds a session over each, and finishes it, whatever its session came
/// to. It ends behind so many links as `limit` says, or where no link is left or the acceptor fails.
///
/// The memory of a session is taken when the link is there. Where there is none, the link is not read: it is given the
/// refusal for want of memory and finished, and the next one is taken. `AcceptFault` comes only where the acceptor counted
/// a failure. A worker without a limit has one all the same, which no run reaches: the last u64.
pub fn work<S: Service, A: Acceptor, C: Clock, G: Gate>(
    alloc: Global,
    service: &mut S,
    acceptor: &mut A,
    limit: Option<u32>,
    clock: &mut C,
    gate: &mut G,
) -> WorkerEnd
    ensures { IsWorked S.Service limit (stand service.old (C.moments clock.old))
        (A.accepting acceptor.old) result (stand service.new (C.moments clock.new))
        (A.accepting acceptor.new) }
{
    let mut left = links_of(limit);
    while left > 0 {
        match serve_next(alloc, service, acceptor, clock, gate) {
            Next::Served => left -= 1,
            Next::NoLink => return WorkerEnd::NoMore,
            Next::Failed => return WorkerEnd::AcceptFault,
        }
    }
    WorkerEnd::LimitReached
}

// How many links a worker has at most.
fn links_of(limit: Option<u32>) -> u64
    ensures { result ≡ most_links limit }
{
    match limit {
        Some(limit) => u64::from(limit),
        None => u64::MAX,
    }
}
