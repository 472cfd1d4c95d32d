//! One link of a worker: it is handed out, a session is held over it, and it is finished.

ghost use Rattle.session_workers.specs.Working.{IsVisit, IsNext, SaysNoMemory, stand};

use http_session::Reader;
use reply_documents::put_fixed;
use service_doors::Acceptor;
use service_session::{Gate, Service, SessionEnd, session};
use std::alloc::Global;
use wfs_ends::{Buffer, Clock, Failed, Link, Mem, OutOfMemory, Sink};

/// What came next of a worker.
#[derive(Drop)]
pub enum Next {
    /// A link, which is finished.
    Served,
    /// No link was left.
    NoLink,
    /// The acceptor failed.
    Failed,
}

/// Takes the next link, holds a session over it, and finishes it, whatever the session came to.
pub fn serve_next<S: Service, A: Acceptor, C: Clock, G: Gate>(
    alloc: Global,
    service: &mut S,
    acceptor: &mut A,
    clock: &mut C,
    gate: &mut G,
) -> Next
    ensures { IsNext S.Service (stand service.old (C.moments clock.old)) (A.accepting acceptor.old)
        result (stand service.new (C.moments clock.new)) (A.accepting acceptor.new) }
{
    match acceptor.accept() {
        Ok(Some(mut link)) => {
            let _ended = visit(alloc, service, &mut link, clock, gate);
            acceptor.finish(link);
            Next::Served
        }
        Ok(None) => Next::NoLink,
        Err(Failed) => Next::Failed,
    }
}

// Takes the memory of a session, and holds one over the link. Where there is none, that is said, and the link is not read.
fn visit<S: Service, L: Link, C: Clock, G: Gate>(
    alloc: Global,
    service: &mut S,
    link: &mut L,
    clock: &mut C,
    gate: &mut G,
) -> Mem<SessionEnd>
    ensures { IsVisit S.Service (stand service.old (C.moments clock.old)) (L.Source.source link.old)
        result (L.Source.source link.new) (stand service.new (C.moments clock.new)) }
{
    let (Ok(mut reader), Ok(mut buffer)) = (Reader::new(alloc), Buffer::new(alloc)) else {
        say_no_memory(link);
        return Err(OutOfMemory);
    };
    Ok(session(alloc, service, link, clock, gate, &mut reader, &mut buffer))
}

// Says that there is no memory for a session, which takes none: piece by piece, since there is no buffer.
#[tactic(auto, using(crate::proofs::Links::said_so))]
fn say_no_memory<O: Sink>(sink: &mut O)
    ensures { SaysNoMemory (O.sink sink.old) (O.sink sink.new) }
{
    let _given = put_fixed(27, true, sink);
}
