//! What the words of a command line ask for.
use std::alloc::AllocError;
use thiserror::Error;
use wfs_ends::Text;

/// A command of the program.
#[derive(Debug, Drop)]
pub enum Command {
    /// One session over standard input and output.
    Talk,
    /// Sessions with those that connect.
    Serve {
        /// The address to listen on, as it was given: not empty, and else not judged.
        listen: Text,
        /// How many workers hold sessions, 1 to 16.
        workers: u32,
        /// After how many sessions, 1 to 1,000,000, each worker ends; `None` where no limit was given.
        connections: Option<u32>,
    },
    /// Counts what the directory holds.
    Check,
    /// Writes the journal anew, without what is no longer needed.
    Compact,
    /// A drill of so many requests, 1 to 100,000.
    Drill(u32),
}

/// Why words give no command.
#[derive(Clone, Copy, Debug, PartialEq, Eq, Error)]
pub enum WordFault {
    /// They are not those of a command.
    #[error("bad words")]
    Refused,
    /// Memory ran out.
    #[error("out of memory")]
    OutOfMemory,
}

impl From<AllocError> for WordFault {
    ghost use Rattle.std.specs.Prelude.{◌≡◌};
    ghost use Rattle.wfs_words.specs.declared.command.WordFault.TheVariants.{OutOfMemory};

    ghost from_gives = { λ _ fault. fault ≡ OutOfMemory };

    fn from(_: AllocError) -> WordFault {
        WordFault::OutOfMemory
    }
}
