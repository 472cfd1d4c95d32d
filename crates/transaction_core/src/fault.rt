//! Why a transaction is not carried out.

use thiserror::Error;
use wfs_ends::OutOfMemory;
use wfs_model::Refusal;

/// Why there is no plan.
#[derive(Debug, PartialEq, Eq, Drop, Error)]
pub enum PlanFault {
    /// The transaction is refused, because of its first part that is.
    #[error("refused at {locator}, by row {row} of the table of refusals", locator = .0.locator.as_str(), row = .0.row)]
    Refused(Refusal),
    /// Memory ran out, or a type would have given more numbers than 64 bits hold.
    #[error("out of memory")]
    OutOfMemory,
}

impl From<OutOfMemory> for PlanFault {
    ghost use Rattle.std.specs.Prelude.{◌≡◌};
    ghost use Rattle.transaction_core.specs.declared.fault.PlanFault.TheVariants.{OutOfMemory};

    ghost from_gives = { λ _ e. e ≡ OutOfMemory };

    fn from(_: OutOfMemory) -> Self {
        PlanFault::OutOfMemory
    }
}
