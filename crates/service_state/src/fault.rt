//! Why a plan was not prepared.

use thiserror::Error;
use wfs_ends::OutOfMemory;
use wfs_model::FullAt;

/// A plan was not prepared, and nothing of it can be carried out.
#[derive(Clone, Copy, Debug, PartialEq, Eq, Error)]
pub enum PrepareFault {
    /// The step would pass a limit: this one first.
    #[error("a limit would be passed")]
    Full(FullAt),
    /// Memory ran out.
    #[error("out of memory")]
    OutOfMemory,
}

impl From<OutOfMemory> for PrepareFault {
    ghost use Rattle.std.specs.Prelude.{◌≡◌};
    ghost use Rattle.service_state.specs.declared.fault.PrepareFault.TheVariants.{OutOfMemory};

    ghost from_gives = { λ _ e. e ≡ OutOfMemory };

    fn from(_: OutOfMemory) -> Self {
        PrepareFault::OutOfMemory
    }
}
