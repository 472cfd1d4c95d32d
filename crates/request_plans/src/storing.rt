//! Requests that make stored queries and drop them.

ghost use Rattle.std.specs.Prelude.{◌≡◌, List as Items, IfOk};
ghost use Rattle.feature_values.specs.declared.feature.Feature.{Feature};
ghost use Rattle.wfs_model.specs.declared.request.Request.TheVariants.{CreateStored, DropStored};
ghost use Rattle.request_plans.specs.Coming.{Plans};

use crate::basis::Basis;
use crate::naming::refused_by;
use crate::plan::{LockWork, Plan};
use std::alloc::Global;
use stored_queries::{first_known, is_there};
use transaction_core::PlanFault;
use wfs_ends::{List, Mem, Text};
use wfs_model::{Change, Reply, StoredFault, StoredQuery};

// Equal stored queries.
fn copies(alloc: Global, stored: &[StoredQuery]) -> Mem<List<StoredQuery>>
    ensures { IfOk result (λ all. all ≡ stored.now) }
{
    let mut all = Vec::with_capacity(alloc, stored.len())?;
    for query in stored {
        all.push(query.copy(alloc)?)?;
    }
    Ok(List::of(all))
}

/// New stored queries, all of them or none (OGC 09-025r2, section 14.5).
pub(crate) fn plan_creation(
    alloc: Global,
    basis: &Basis<'_>,
    definitions: &List<StoredQuery>,
) -> Result<Plan, PlanFault>
    ensures { (features : Items Feature) → Plans features basis.now (CreateStored definitions.now)
        result }
{
    let queries = definitions.items();
    match first_known(basis.stored, queries) {
        Some(i) => {
            let id = queries[i].id.copy(alloc)?;
            Err(refused_by(alloc, StoredFault::DuplicateId(id)))
        }
        None => Ok(Plan {
            reply: Reply::Created,
            change: Some(Change::Created(copies(alloc, queries)?)),
            lock: LockWork::Nothing,
        }),
    }
}

/// A stored query goes (OGC 09-025r2, section 14.6).
pub(crate) fn plan_drop(alloc: Global, basis: &Basis<'_>, id: &Text) -> Result<Plan, PlanFault>
    ensures { (features : Items Feature) → Plans features basis.now (DropStored id.now) result }
{
    let dropped = id.copy(alloc)?;
    if !is_there(basis.stored, id.as_str()) {
        return Err(refused_by(alloc, StoredFault::Unknown(dropped)));
    }
    Ok(Plan {
        reply: Reply::Dropped,
        change: Some(Change::Dropped(dropped)),
        lock: LockWork::Nothing,
    })
}
