//! Which lock a transaction names.

ghost use Rattle.std.specs.Prelude.{ℕ, ◌≤◌, List};
ghost use Rattle.feature_values.specs.declared.feature.Feature.{Feature};
ghost use Rattle.wfs_model.specs.Locking.{number_by, named_if};
ghost use Rattle.wfs_model.specs.State.{State};
ghost use Rattle.transaction_core.specs.Plan.{Answers, with_these};

use crate::fault::PlanFault;
use crate::refusing::refused;
use lock_table::{LockId, LockStatus, LockTable};
use std::alloc::Global;

/// The number of a lock that is live (OGC 09-025r2, section 15.2.3.1.2).
#[tactic(auto, using(crate::proofs::Refused::as_refused))]
pub fn number_by(alloc: Global, id: LockId, status: LockStatus) -> Result<u64, PlanFault>
    ensures { Answers result (number_by id status) }
{
    match status {
        LockStatus::Live => Ok(id.number),
        LockStatus::NeverGiven => Err(refused(alloc, 15, "lockId")),
        LockStatus::Expired => Err(refused(alloc, 16, "lockId")),
    }
}

/// The number of the lock that a transaction names, where it names one. It has to be live.
pub(crate) fn named_if(
    alloc: Global,
    locks: &LockTable,
    moment: u64,
    lock: Option<LockId>,
) -> Result<Option<u64>, PlanFault>
    requires { locks.now.last ≤ moment }
    ensures { (state : State) (features : List Feature) (counters : List ℕ)
        → Answers result (named_if (with_these state features counters locks.now) moment lock) }
{
    let Some(id) = lock else {
        return Ok(None);
    };
    match number_by(alloc, id, locks.status(id, moment)) {
        Ok(number) => Ok(Some(number)),
        Err(fault) => Err(fault),
    }
}
