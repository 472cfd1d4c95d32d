//! The lines by which a service ends, and the statuses that go with them.

ghost use Rattle.std.specs.Prelude.{◌≡◌, All, Any, MatchBool};
ghost use Rattle.program_output.specs.Lines.{GivesOr};
ghost use Rattle.wfsd_program.specs.Statuses.{EndsBy, HasEndedWell, HasFailed, IsFailure, IsWell, unheard_line, unheard_status};

use program_output::say;
use service_doors::DoorFault;
use session_workers::WorkerEnd;
use store_server::Ended;
use wfs_ends::Sink;
use wfsd_commands::{DONE, OUT_OF_MEMORY};

/// The doors failed, or an acceptor.
const CANNOT_LISTEN: u8 = 9;

/// Says why doors are not opened, and answers the status. A fault of the output changes nothing.
pub(crate) fn say_unheard<S: Sink>(sink: &mut S, fault: DoorFault) -> u8
    ensures says { GivesOr (S.sink sink.old) (unheard_line fault) (S.sink sink.new) }
    ensures status { result ≡ unheard_status fault }
{
    match fault {
        DoorFault::Failed => {
            say(sink, b"wfsd: cannot listen\n");
            CANNOT_LISTEN
        }
        DoorFault::OutOfMemory => {
            say(sink, b"wfsd: no memory\n");
            OUT_OF_MEMORY
        }
    }
}

/// Says where the acceptor of a worker failed, once all have ended, and answers the status. A fault of the output changes nothing.
pub(crate) fn say_ended<S: Sink, A, C, G>(sink: &mut S, workers: &[Ended<A, C, G>]) -> u8
    ensures { EndsBy workers.now (S.sink sink.old) result (S.sink sink.new) }
{
    if has_failed(workers) {
        say(sink, b"wfsd: cannot listen\n");
        CANNOT_LISTEN
    } else {
        DONE
    }
}

// Whether the acceptor of some worker failed.
fn has_failed<A, C, G>(workers: &[Ended<A, C, G>]) -> bool
    ensures { MatchBool result (Any HasFailed workers.now) (All HasEndedWell workers.now) }
{
    for worker in workers {
        if is_failure(worker.end) {
            return true;
        }
    }
    false
}

// Whether a worker ended because its acceptor failed.
fn is_failure(end: WorkerEnd) -> bool
    ensures { MatchBool result (IsFailure end) (IsWell end) }
{
    match end {
        WorkerEnd::AcceptFault => true,
        WorkerEnd::LimitReached | WorkerEnd::NoMore => false,
    }
}
