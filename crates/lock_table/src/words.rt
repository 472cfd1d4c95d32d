//! What the calls of the table are told and answer.

use std::alloc::AllocError;
use thiserror::Error;

/// What a transaction releases of its lock (OGC 09-025r2, 15.2.3.1.3).
#[derive(Clone, Copy, Debug, PartialEq, Eq)]
pub enum Release {
    /// The whole lock, whether its features were touched or not.
    Whole,
    /// The features that the transaction touched.
    Touched,
}

/// What an identifier of a lock stands for at a moment.
#[derive(Clone, Copy, Debug, PartialEq, Eq)]
pub enum LockStatus {
    /// A lock that is live.
    Live,
    /// Nothing: no lock has had this identifier.
    NeverGiven,
    /// A lock that has ended: by its deadline, by a release, or with its opening.
    Expired,
}

/// Why no room was made for a lock.
#[derive(Clone, Copy, Debug, PartialEq, Eq, Error)]
pub enum LockFault {
    /// There are as many live locks as there may be, or more: this many.
    #[error("there is no room beside {0} live locks")]
    Full(u64),
    /// Memory ran out.
    #[error("out of memory")]
    OutOfMemory,
}

impl From<AllocError> for LockFault {
    ghost use Rattle.std.specs.Prelude.{◌≡◌};
    ghost use Rattle.lock_table.specs.declared.words.LockFault.TheVariants.{OutOfMemory};

    ghost from_gives = { λ _ fault. fault ≡ OutOfMemory };

    fn from(_: AllocError) -> LockFault {
        LockFault::OutOfMemory
    }
}
