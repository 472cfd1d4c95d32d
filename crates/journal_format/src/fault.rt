//! Why a body is not read.

use std::alloc::{AllocError, AllocFailed};
use thiserror::Error;
use wfs_ends::OutOfMemory;

/// Why the body of a record is not read: the first fault in reading order.
#[derive(Clone, Copy, Debug, PartialEq, Eq, Error)]
pub enum RecordFault {
    /// The bytes end too early.
    #[error("the bytes end too early")]
    Cut,
    /// A byte that is no kind stands where a kind does, a boolean is neither 0 nor 1, a text is not UTF-8, or a shape
    /// is not valid.
    #[error("a kind, a boolean, a text or a shape is none")]
    Kind,
    /// Bytes stand behind the change.
    #[error("bytes stand behind the change")]
    Trailing,
    /// There is no memory for the change.
    #[error("out of memory")]
    OutOfMemory,
}

impl From<OutOfMemory> for RecordFault {
    ghost use Rattle.std.specs.Prelude.{◌≡◌};
    ghost use Rattle.journal_format.specs.declared.fault.RecordFault.TheVariants.{OutOfMemory as NoMemory};

    ghost from_gives = { λ _ fault. fault ≡ NoMemory };

    fn from(_: OutOfMemory) -> RecordFault {
        RecordFault::OutOfMemory
    }
}

impl From<AllocError> for RecordFault {
    ghost use Rattle.std.specs.Prelude.{◌≡◌};
    ghost use Rattle.journal_format.specs.declared.fault.RecordFault.TheVariants.{OutOfMemory as NoMemory};

    ghost from_gives = { λ _ fault. fault ≡ NoMemory };

    fn from(_: AllocError) -> RecordFault {
        RecordFault::OutOfMemory
    }
}

impl<T: Drop> From<AllocFailed<T>> for RecordFault {
    ghost use Rattle.std.specs.Prelude.{◌≡◌};
    ghost use Rattle.journal_format.specs.declared.fault.RecordFault.TheVariants.{OutOfMemory as NoMemory};

    ghost from_gives = { λ _ fault. fault ≡ NoMemory };

    fn from(_: AllocFailed<T>) -> RecordFault {
        RecordFault::OutOfMemory
    }
}
