//! Why a step came to nothing.

use service_state::PrepareFault;
use std::alloc::AllocError;
use thiserror::Error;
use wfs_ends::OutOfMemory;
use wfs_model::FullAt;

/// A step or a compaction came to nothing: state and history are as before.
#[derive(Clone, Copy, Debug, PartialEq, Eq, Error)]
pub enum StepFault {
    /// A disk failed while the journal was written. A crash may leave the change made that was begun before, or, of a step, its own; the next
    /// step that has a change ends what is begun, and so does a compaction.
    #[error("a disk failed while the journal was written")]
    StoreFault,
    /// A step's entry would pass a limit: this one first. Of a compaction it is the side's, with the length with which the checkpoint passes it,
    /// or with the generation, where that is the last one.
    #[error("a limit would be passed")]
    Full(FullAt),
    /// Memory ran out: of a step before any disk was asked; of a compaction maybe while the other side was written, where a part of a
    /// checkpoint does no harm.
    #[error("out of memory")]
    OutOfMemory,
}

impl From<OutOfMemory> for StepFault {
    ghost use Rattle.std.specs.Prelude.{◌≡◌};
    ghost use Rattle.wfs_store.specs.declared.fault.StepFault.TheVariants.{OutOfMemory};

    ghost from_gives = { λ _ e. e ≡ OutOfMemory };

    fn from(_: OutOfMemory) -> Self {
        StepFault::OutOfMemory
    }
}

impl From<AllocError> for StepFault {
    ghost use Rattle.std.specs.Prelude.{◌≡◌};
    ghost use Rattle.wfs_store.specs.declared.fault.StepFault.TheVariants.{OutOfMemory};

    ghost from_gives = { λ _ e. e ≡ OutOfMemory };

    fn from(_: AllocError) -> Self {
        StepFault::OutOfMemory
    }
}

impl From<PrepareFault> for StepFault {
    ghost use Rattle.std.specs.Prelude.{◌≡◌};
    ghost use Rattle.wfs_store.specs.Judged.{same_fault};

    ghost from_gives = { λ fault found. found ≡ same_fault fault };

    fn from(fault: PrepareFault) -> Self {
        match fault {
            PrepareFault::Full(at) => StepFault::Full(at),
            PrepareFault::OutOfMemory => StepFault::OutOfMemory,
        }
    }
}
