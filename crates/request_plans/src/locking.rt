//! Requests that take locks and renew them.

ghost use Rattle.std.specs.Prelude.{◌≡◌, ◌<◌, ℕ, List as Items, IfOk, OnOk, length};
ghost use Rattle.feature_values.specs.declared.feature.Feature.{Feature};
ghost use Rattle.transaction_core.specs.Plan.{Answers};
ghost use Rattle.wfs_model.specs.declared.request.Request.TheVariants.{GetLocked, Lock, Renew};
ghost use Rattle.wfs_model.specs.Locking.{named, lock_on};
ghost use Rattle.wfs_model.specs.Refusals.{or_refused};
ghost use Rattle.stored_queries.specs.Meant.{asked_selected};
ghost use Rattle.request_plans.specs.Coming.{Plans};
ghost use Rattle.request_plans.specs.Divided.{work_on};
ghost use Rattle.request_plans.specs.Plan.{state_in};

use crate::basis::Basis;
use crate::dividing::divide;
use crate::naming::refused_by;
use crate::plan::{LockWork, Plan};
use feature_values::Rid;
use fes_filter::FeatureView;
use lock_table::LockId;
use std::alloc::Global;
use stored_queries::{held, page, select_asked};
use transaction_core::{PlanFault, number_by};
use wfs_ends::{List, Mem, OutOfMemory};
use wfs_model::{Asked, Present, Reply, Take};

// Equal identifiers, in a list of their own.
fn copied(alloc: Global, ids: &[Rid]) -> Mem<List<Rid>>
    ensures { IfOk result (λ all. all ≡ ids.now) }
{
    Ok(List::of(Vec::from_slice(alloc, ids)?))
}

// The identifiers of the features that are asked for.
fn selected<V: FeatureView>(
    alloc: Global,
    view: &V,
    basis: &Basis<'_>,
    asked: &[Asked],
) -> Result<List<Rid>, PlanFault>
    ensures { Answers result (or_refused (asked_selected basis.now.schema.now basis.now.stored.now
        (V.features view.now) asked.now)) }
{
    match select_asked(alloc, view, basis.stored, basis.schema, asked) {
        Ok(ids) => Ok(ids),
        Err(fault) => Err(refused_by(alloc, fault)),
    }
}

// The number of the lock that an identifier names, which has to be live.
#[tactic(auto, unfolding(wfs_model::specs::Locking::named))]
fn named(alloc: Global, basis: &Basis<'_>, id: LockId) -> Result<u64, PlanFault>
    ensures { (features : Items Feature) (last : ℕ)
        → Answers result (named (state_in features basis.now last) basis.now.moment id) }
{
    number_by(alloc, id, basis.locks.status(id, basis.moment))
}

// A lock that is to be granted: how it will be named, and the work.
#[derive(Drop)]
struct NewLock {
    lock: Option<LockId>,
    work: LockWork,
}

// The lock on features, where they are some.
#[tactic(auto, unfolding(wfs_model::specs::Locking::lock_on))]
fn lock_on(basis: &Basis<'_>, period: u32, taken: List<Rid>) -> Mem<NewLock>
    ensures lock { (features : Items Feature) (last : ℕ)
        → IfOk result (λ new. new.lock ≡ lock_on (state_in features basis.now last) taken) }
    ensures work { IfOk result (λ new. new.work ≡ work_on taken period) }
    ensures numbers { OnOk result (0 < length taken
        → basis.now.locks.now.given < 18_446_744_073_709_551_615) }
{
    if taken.items().is_empty() {
        return Ok(NewLock {
            lock: None,
            work: LockWork::Nothing,
        });
    }
    if basis.given == u64::MAX {
        return Err(OutOfMemory);
    }
    Ok(NewLock {
        lock: Some(LockId {
            opening: basis.opening,
            number: basis.given + 1,
        }),
        work: LockWork::Grant {
            features: taken,
            period,
        },
    })
}

/// A lock on what is asked (OGC 09-025r2, section 12).
pub(crate) fn plan_lock<V: FeatureView>(
    alloc: Global,
    view: &V,
    basis: &Basis<'_>,
    asked: &[Asked],
    take: Take,
    period: u32,
) -> Result<Plan, PlanFault>
    ensures { Plans (V.features view.now) basis.now (Lock asked.now take period) result }
{
    let ids = match selected(alloc, view, basis, asked) {
        Ok(ids) => ids,
        Err(fault) => return Err(fault),
    };
    let division = match divide(alloc, basis, take, ids) {
        Ok(division) => division,
        Err(fault) => return Err(fault),
    };
    let taken = copied(alloc, division.taken.items())?;
    let grant = lock_on(basis, period, taken)?;
    Ok(Plan {
        reply: Reply::Locked {
            lock: grant.lock,
            taken: division.taken,
            missed: division.missed,
        },
        change: None,
        lock: grant.work,
    })
}

/// A lock on a page of what is asked, which presents what the lock takes (OGC 09-025r2, section 13).
pub(crate) fn plan_page<V: FeatureView>(
    alloc: Global,
    view: &V,
    basis: &Basis<'_>,
    present: &Present,
    asked: &[Asked],
    take: Take,
    period: u32,
) -> Result<Plan, PlanFault>
    ensures { Plans (V.features view.now) basis.now (GetLocked present.now asked.now take period)
        result }
{
    let ids = match selected(alloc, view, basis, asked) {
        Ok(ids) => ids,
        Err(fault) => return Err(fault),
    };
    let matched = ids.items().len() as u64;
    let shown = copied(alloc, page(ids.items(), present.start, present.count))?;
    let division = match divide(alloc, basis, take, shown) {
        Ok(division) => division,
        Err(fault) => return Err(fault),
    };
    let features = held(alloc, view, division.taken.items())?;
    let grant = lock_on(basis, period, division.taken)?;
    Ok(Plan {
        reply: Reply::Collection {
            moment: basis.moment,
            matched,
            features,
            lock: grant.lock,
            next: None,
            previous: None,
        },
        change: None,
        lock: grant.work,
    })
}

/// A new deadline for a lock (OGC 09-025r2, section 12.2.4.2).
pub(crate) fn plan_renewal(
    alloc: Global,
    basis: &Basis<'_>,
    id: LockId,
    period: Option<u32>,
) -> Result<Plan, PlanFault>
    ensures { (features : Items Feature) → Plans features basis.now (Renew id period) result }
{
    let number = match named(alloc, basis, id) {
        Ok(number) => number,
        Err(fault) => return Err(fault),
    };
    let taken = copied(alloc, basis.locks.features_of(number))?;
    Ok(Plan {
        reply: Reply::Locked {
            lock: Some(id),
            taken,
            missed: List::of(Vec::new(alloc)),
        },
        change: None,
        lock: LockWork::Renew { number, period },
    })
}
