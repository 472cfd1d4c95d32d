//! What may happen to a world, and what is seen of it.

use std::alloc::AllocError;
use thiserror::Error;
use wfs_ends::OutOfMemory;
use wfs_model::{Reply, Request};

/// How the journal takes what a request comes to.
#[derive(Clone, Copy, Debug, PartialEq, Eq)]
pub enum PutOutcome {
    /// The request makes no change that is to be kept.
    NotNeeded,
    /// The change is in the journal, and what was begun before is not.
    Done,
    /// A fault left the journal without the change, and without what was begun before.
    FaultClean,
    /// A fault left the change begun: a crash may find it in the journal or not.
    FaultBegun,
    /// A fault left begun what was begun before. The change was not tried.
    FaultHeld,
}

/// One step of a seat, a crash, or a new start.
#[derive(Debug, PartialEq, Eq, Drop)]
pub enum Event {
    /// A request joins the line of those that wait.
    Arrive {
        /// Who asks.
        seat: u32,
        /// The moment that was handed in, in whole seconds since 1970.
        moment: u64,
        /// The length of the message's body, or of its query, in bytes.
        size: u32,
        /// What is asked.
        request: Request,
    },
    /// The first request of the line is in turn.
    Take {
        /// Who asked.
        seat: u32,
    },
    /// The journal takes the change that the request in turn makes.
    Put {
        /// Who asked.
        seat: u32,
        /// How it takes the change.
        outcome: PutOutcome,
    },
    /// The request in turn enters the history.
    Enter {
        /// Who asked.
        seat: u32,
    },
    /// The request in turn is over.
    Leave {
        /// Who asked.
        seat: u32,
    },
    /// A read is answered by the state after some of the history.
    Read {
        /// Who asks.
        seat: u32,
        /// After how many entries.
        front: u64,
        /// The moment that was handed in, in whole seconds since 1970.
        moment: u64,
        /// What is asked.
        request: Request,
    },
    /// The process ends. Only the journal stays.
    Crash {
        /// Whether what was begun is found in the journal.
        with_begun: bool,
    },
    /// A new process opens on the journal.
    Reopen,
}

/// What is seen of an event.
#[derive(Debug, PartialEq, Eq, Drop)]
pub enum Seen {
    /// Nothing.
    Nothing,
    /// The answer to a request.
    Answer(Reply),
    /// The journal's fault, in place of an answer.
    Fault,
    /// The number of the new opening.
    Reopened(u64),
}

/// Why an event does not happen.
#[derive(Clone, Copy, Debug, PartialEq, Eq, Error)]
pub enum WorldFault {
    /// The event may not happen in this state of the world.
    #[error("the event may not happen in this state of the world")]
    NotNow,
    /// Memory ran out.
    #[error("out of memory")]
    OutOfMemory,
}

impl From<OutOfMemory> for WorldFault {
    ghost use Rattle.std.specs.Prelude.{◌≡◌};
    ghost use Rattle.wfs_world.specs.declared.event.WorldFault.TheVariants.{OutOfMemory};

    ghost from_gives = { λ _ fault. fault ≡ OutOfMemory };

    fn from(_: OutOfMemory) -> WorldFault {
        WorldFault::OutOfMemory
    }
}

impl From<AllocError> for WorldFault {
    ghost use Rattle.std.specs.Prelude.{◌≡◌};
    ghost use Rattle.wfs_world.specs.declared.event.WorldFault.TheVariants.{OutOfMemory};

    ghost from_gives = { λ _ fault. fault ≡ OutOfMemory };

    fn from(_: AllocError) -> WorldFault {
        WorldFault::OutOfMemory
    }
}
