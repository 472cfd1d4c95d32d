//! Which of the features that were selected a lock takes.

ghost use Rattle.std.specs.Prelude.{◌≡◌, ◌≤◌, not, IfOk, filter};
ghost use Rattle.wfs_model.specs.Locking.{is_held, divided};
ghost use Rattle.request_plans.specs.Divided.{Divides};

use crate::basis::Basis;
use crate::naming::is_not_free;
use feature_values::Rid;
use lock_table::LockTable;
use std::alloc::Global;
use transaction_core::PlanFault;
use wfs_ends::{List, Mem};
use wfs_model::Take;

/// Selected features, by whether the lock takes them.
#[derive(Drop)]
pub(crate) struct Divided {
    pub taken: List<Rid>,
    pub missed: List<Rid>,
}

// The features that no lock holds, and those that one holds, both in order.
fn free_of(alloc: Global, locks: &LockTable, moment: u64, ids: &[Rid]) -> Mem<Divided>
    requires { locks.now.last ≤ moment }
    ensures taken { IfOk result (λ d. d.taken ≡ filter
        (λ id. not (is_held locks.now.locks moment id)) ids.now) }
    ensures missed { IfOk result (λ d. d.missed ≡ filter (is_held locks.now.locks moment) ids.now) }
{
    let mut taken = Vec::new(alloc);
    let mut missed = Vec::new(alloc);
    for id in ids {
        if locks.holder(*id, moment).is_some() {
            missed.push(*id)?;
        } else {
            taken.push(*id)?;
        }
    }
    Ok(Divided {
        taken: List::of(taken),
        missed: List::of(missed),
    })
}

/// Which of the selected features a lock takes: all, or just those that no lock holds (OGC 09-025r2, section 12.2.4.3).
#[tactic(auto, unfolding(wfs_model::specs::Locking::divided))]
pub(crate) fn divide(
    alloc: Global,
    basis: &Basis<'_>,
    take: Take,
    ids: List<Rid>,
) -> Result<Divided, PlanFault>
    ensures { Divides result (divided basis.now.schema.now basis.now.locks.now.locks
        basis.now.moment take ids) }
{
    match take {
        Take::AllOrNone => match basis.locks.first_held(&ids, basis.moment) {
            None => Ok(Divided {
                taken: ids,
                missed: List::of(Vec::new(alloc)),
            }),
            Some(feature) => Err(is_not_free(alloc, basis.schema, feature)),
        },
        Take::Free => Ok(free_of(alloc, basis.locks, basis.moment, ids.items())?),
    }
}
