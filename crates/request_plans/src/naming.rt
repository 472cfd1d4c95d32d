//! How requests are refused because of stored queries and locks.

ghost use Rattle.std.specs.Prelude.{◌≡◌};
ghost use Rattle.wfs_model.specs.declared.fault.StoredFault.TheVariants.{OutOfMemory as NoMemory};
ghost use Rattle.wfs_model.specs.Refusals.{refusal_of, is_not_free};
ghost use Rattle.transaction_core.specs.declared.fault.PlanFault.TheVariants.{OutOfMemory as Want};
ghost use Rattle.transaction_core.specs.Plan.{IsRefusal};

use feature_values::{Rid, Schema};
use std::alloc::Global;
use stored_queries::refusal_of;
use transaction_core::{PlanFault, rid_text};
use wfs_ends::OutOfMemory;
use wfs_model::{Refusal, StoredFault};

/// How what is wrong with stored queries is refused.
pub(crate) fn refused_by(alloc: Global, fault: StoredFault) -> PlanFault
    ensures value { IsRefusal result (refusal_of fault) }
    ensures memory { fault ≡ NoMemory → result ≡ Want }
{
    match refusal_of(alloc, fault) {
        Ok(refusal) => PlanFault::Refused(refusal),
        Err(OutOfMemory) => PlanFault::OutOfMemory,
    }
}

/// Not all features can be locked, of which this one comes first (OGC 09-025r2, section 12.2.4.3).
#[tactic(auto, unfolding(wfs_model::specs::Refusals::is_not_free))]
pub(crate) fn is_not_free(alloc: Global, schema: &Schema, feature: Rid) -> PlanFault
    ensures { IsRefusal result (is_not_free schema.now feature) }
{
    match rid_text(alloc, schema, feature) {
        Ok(locator) => PlanFault::Refused(Refusal { row: 20, locator }),
        Err(OutOfMemory) => PlanFault::OutOfMemory,
    }
}
