//! How locks are named, and how requests are refused because of locks.

ghost use Rattle.std.specs.Prelude.{◌≡◌, ◌++◌, ◌≢◌, IfOk, OnOk};
ghost use Rattle.std.specs.Option.{option_copied};
ghost use Rattle.std.specs.String.{string_bytes};
ghost use Rattle.wfs_model.specs.declared.fault.StoredFault.TheVariants.{OutOfMemory as NoMemory};
ghost use Rattle.wfs_model.specs.Locking.{number_by};
ghost use Rattle.wfs_model.specs.Refusals.{refusal, refusal_of, type_name, rid_text, is_not_free};
ghost use Rattle.transaction_core.specs.declared.fault.PlanFault.TheVariants.{OutOfMemory as Want};
ghost use Rattle.transaction_core.specs.Plan.{Answers, IsRefusal};

use feature_values::{FeatureType, Rid, Schema};
use lock_table::{LockId, LockStatus};
use std::alloc::Global;
use stored_queries::refusal_of;
use transaction_core::PlanFault;
use wfs_ends::{Mem, OutOfMemory, Text};
use wfs_model::{Refusal, StoredFault};

// The refusal by a row, which points at a part of the request.
fn refused(alloc: Global, row: u8, locator: &str) -> PlanFault
    ensures { IsRefusal result (refusal row locator.now) }
{
    match Text::of(alloc, locator) {
        Ok(locator) => PlanFault::Refused(Refusal { row, locator }),
        Err(OutOfMemory) => PlanFault::OutOfMemory,
    }
}

/// How what is wrong with stored queries is refused.
pub(crate) fn refused_by(alloc: Global, fault: StoredFault) -> PlanFault
    ensures value { IsRefusal result (refusal_of fault) }
    ensures memory { fault ≡ NoMemory → result ≡ Want }
{
    match refusal_of(alloc, fault) {
        Ok(refusal) => PlanFault::Refused(refusal),
        Err(OutOfMemory) => PlanFault::OutOfMemory,
    }
}

/// The number of a lock that is live (OGC 09-025r2, section 15.2.3.1.2).
#[tactic(auto, using(transaction_core::proofs::Refused::as_refused))]
pub(crate) fn number_by(alloc: Global, id: LockId, status: LockStatus) -> Result<u64, PlanFault>
    ensures { Answers result (number_by id status) }
{
    match status {
        LockStatus::Live => Ok(id.number),
        LockStatus::NeverGiven => Err(refused(alloc, 15, "lockId")),
        LockStatus::Expired => Err(refused(alloc, 16, "lockId")),
    }
}

// Adds the name of a type, where there is one.
fn push_name(text: &mut String, of_type: Option<&FeatureType>) -> Mem<()>
    ensures { OnOk result (string_bytes text.new
        ≡ string_bytes text.old ++ type_name (option_copied of_type.entry)) }
{
    match of_type {
        None => Ok(()),
        Some(of_type) => {
            text.push_str(of_type.name.as_str())?;
            Ok(())
        }
    }
}

// The identifier of a feature as text: its type's name, a dot and its number.
#[tactic(auto, unfolding(wfs_model::specs::Refusals::rid_text))]
fn rid_text(alloc: Global, schema: &Schema, id: Rid) -> Mem<Text>
    ensures { IfOk result (λ text. text ≡ rid_text schema.now id) }
{
    let mut text = String::new(alloc);
    push_name(&mut text, schema.types.items().get(id.kind as usize))?;
    text.push_str(".")?;
    let number = id.number;
    write!(&mut text, "{number}")?;
    Text::of_string(text)
}

/// Not all features can be locked, of which this one comes first (OGC 09-025r2, section 12.2.4.3).
#[tactic(auto, unfolding(wfs_model::specs::Refusals::is_not_free))]
pub(crate) fn is_not_free(alloc: Global, schema: &Schema, feature: Rid) -> PlanFault
    ensures { IsRefusal result (is_not_free schema.now feature) }
{
    match rid_text(alloc, schema, feature) {
        Ok(locator) => PlanFault::Refused(Refusal { row: 20, locator }),
        Err(OutOfMemory) => PlanFault::OutOfMemory,
    }
}
