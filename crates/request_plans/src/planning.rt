//! What any changing request comes to.

ghost use Rattle.std.specs.Prelude.{◌≡◌, ℕ, IfOk};
ghost use Rattle.wfs_model.specs.Changing.{IsChange};
ghost use Rattle.wfs_model.specs.Kept.{IsKept};
ghost use Rattle.wfs_model.specs.OfSchema.{IsOfSchema};
ghost use Rattle.wfs_model.specs.State.{durable};
ghost use Rattle.request_plans.specs.Coming.{Plans};
ghost use Rattle.request_plans.specs.Plan.{state_in, IsPlan};

use crate::basis::Basis;
use crate::locking::{plan_lock, plan_page, plan_renewal};
use crate::plan::{Plan, refused_plan};
use crate::storing::{plan_creation, plan_drop};
use crate::transacting::plan_transaction;
use fes_filter::{FeatureView, Steps};
use std::alloc::Global;
use std::sync::ledger::Ledger;
use transaction_core::PlanFault;
use wfs_ends::{Mem, OutOfMemory};
use wfs_model::Request;

// What a request comes to, or why it is refused.
fn planned<V: FeatureView, L: Ledger>(
    alloc: Global,
    view: &V,
    basis: &Basis<'_>,
    request: &Request,
    steps: &mut Steps<L>,
) -> Result<Plan, PlanFault>
    requires schema { V.schema view.now ≡ basis.now.schema.now }
    requires change { IsChange request.now }
    requires fitting { IsOfSchema basis.now.schema.now request.now }
    requires kept { IsKept basis.now.schema.now
        (durable (state_in (V.features view.now) basis.now 0)) }
    ensures { Plans (V.features view.now) basis.now request.now result }
{
    match request {
        Request::GetLocked {
            present,
            asked,
            take,
            period,
        } => plan_page(alloc, view, basis, present, asked.items(), *take, *period),
        Request::Lock {
            asked,
            take,
            period,
        } => plan_lock(alloc, view, basis, asked.items(), *take, *period),
        Request::Renew { lock, period } => plan_renewal(alloc, basis, *lock, *period),
        Request::Transact { .. } => plan_transaction(alloc, view, basis, request, steps),
        Request::CreateStored(definitions) => plan_creation(alloc, basis, definitions),
        Request::DropStored(id) => plan_drop(alloc, basis, id),
        _ => unreachable!(),
    }
}

/// What a changing request comes to on the features of a view (OGC 09-025r2, sections 12 to 15). Nothing is changed. Its parts are judged in
/// order: the stored queries that it uses, then the lock that it names, then its work. A request that is refused has a plan too, in which
/// nothing is done. What may run out is memory alone, where a type would have given more numbers, or the opening more locks, than 64 bits
/// hold, too.
pub fn plan_request<V: FeatureView, L: Ledger>(
    alloc: Global,
    view: &V,
    basis: &Basis<'_>,
    request: &Request,
    steps: &mut Steps<L>,
) -> Mem<Plan>
    requires schema { V.schema view.now ≡ basis.now.schema.now }
    requires change { IsChange request.now }
    requires fitting { IsOfSchema basis.now.schema.now request.now }
    requires kept { IsKept basis.now.schema.now
        (durable (state_in (V.features view.now) basis.now 0)) }
    ensures { IfOk result (λ plan. (last : ℕ) → IsPlan basis.now.schema.now
        (state_in (V.features view.now) basis.now last) basis.now.moment request.now plan) }
{
    match planned(alloc, view, basis, request, steps) {
        Ok(plan) => Ok(plan),
        Err(PlanFault::Refused(refusal)) => Ok(refused_plan(refusal)),
        Err(PlanFault::OutOfMemory) => Err(OutOfMemory),
    }
}
