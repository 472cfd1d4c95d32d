//! Transactions.

ghost use Rattle.std.specs.Prelude.{◌≡◌};
ghost use Rattle.wfs_model.specs.Kept.{IsKept};
ghost use Rattle.wfs_model.specs.OfSchema.{IsOfSchema};
ghost use Rattle.wfs_model.specs.State.{durable};
ghost use Rattle.transaction_core.specs.Plan.{IsTransaction};
ghost use Rattle.request_plans.specs.Coming.{Plans};
ghost use Rattle.request_plans.specs.Plan.{state_in};
ghost use Rattle.request_plans.specs.Transacted.{is_empty, kept_of, release_of, carried_by};

use crate::basis::Basis;
use crate::plan::{LockWork, Plan};
use feature_values::Rid;
use fes_filter::{FeatureView, Steps};
use lock_table::{LockId, Release};
use std::alloc::Global;
use std::sync::ledger::Ledger;
use transaction_core::{PlanFault, Planned, plan};
use wfs_ends::List;
use wfs_model::{Change, Request};

// Whether a change is of no parts.
fn is_empty(change: &Change) -> bool
    ensures { result ≡ is_empty change.now }
{
    match change {
        Change::Rows(parts) => parts.items().is_empty(),
        _ => false,
    }
}

// The change of a transaction, where it has parts.
fn kept_of(change: Change) -> Option<Change>
    ensures { result ≡ kept_of change }
{
    if is_empty(&change) {
        None
    } else {
        Some(change)
    }
}

// What of the lock that a transaction names is released, where it names one (OGC 09-025r2, section 15.2.3.1.3).
fn release_of(lock: Option<LockId>, how: Release, touched: List<Rid>) -> LockWork
    ensures { result ≡ release_of lock how touched }
{
    match lock {
        None => LockWork::Nothing,
        Some(id) => LockWork::Release {
            number: id.number,
            touched,
            how,
        },
    }
}

// The plan of a transaction that is not refused.
fn carried_by(lock: Option<LockId>, how: Release, planned: Planned) -> Plan
    ensures { result ≡ carried_by lock how planned }
{
    let Planned {
        change,
        reply,
        touched,
    } = planned;
    Plan {
        reply,
        change: kept_of(change),
        lock: release_of(lock, how, touched),
    }
}

/// A transaction (OGC 09-025r2, section 15).
pub(crate) fn plan_transaction<V: FeatureView, L: Ledger>(
    alloc: Global,
    view: &V,
    basis: &Basis<'_>,
    request: &Request,
    steps: &mut Steps<L>,
) -> Result<Plan, PlanFault>
    requires schema { V.schema view.now ≡ basis.now.schema.now }
    requires transaction { IsTransaction request.now }
    requires fitting { IsOfSchema basis.now.schema.now request.now }
    requires kept { IsKept basis.now.schema.now
        (durable (state_in (V.features view.now) basis.now 0)) }
    ensures { Plans (V.features view.now) basis.now request.now result }
{
    let Request::Transact { lock, release, .. } = request else {
        return Err(PlanFault::OutOfMemory);
    };
    match plan(
        alloc,
        view,
        basis.schema,
        basis.counters,
        basis.locks,
        request,
        basis.moment,
        steps,
    ) {
        Ok(planned) => Ok(carried_by(*lock, *release, planned)),
        Err(fault) => Err(fault),
    }
}
