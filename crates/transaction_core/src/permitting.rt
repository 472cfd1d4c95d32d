//! Which features a transaction may touch.

ghost use Rattle.std.specs.Prelude.{◌≡◌, ◌++◌, IfOk, OnOk};
ghost use Rattle.std.specs.List.{find};
ghost use Rattle.std.specs.Option.{option_copied};
ghost use Rattle.std.specs.String.{string_bytes};
ghost use Rattle.wfs_model.specs.Plans.{is_another, is_withheld, withheld};
ghost use Rattle.wfs_model.specs.Refusals.{type_name, rid_text};
ghost use Rattle.transaction_core.specs.Plan.{Answers};
ghost use Rattle.transaction_core.specs.Planning.{may_of};

use crate::fault::PlanFault;
use crate::guard::Guard;
use crate::refusing::refused;
use feature_values::{FeatureType, Rid, Schema};
use std::alloc::Global;
use wfs_ends::{Mem, Text};
use wfs_model::Refusal;

// Whether a holder is another lock than this one.
fn is_another(number: Option<u64>, holder: Option<u64>) -> bool
    ensures { result ≡ is_another number holder }
{
    match (number, holder) {
        (_, None) => false,
        (None, Some(_)) => true,
        (Some(number), Some(holder)) => number != holder,
    }
}

// The first feature that another lock holds.
fn first_withheld(guard: &Guard<'_>, touched: &[Rid]) -> Option<Rid>
    ensures { result ≡ find (is_withheld guard.now.locks.now.locks guard.now.moment
        guard.now.number) touched.now }
{
    for feature in touched {
        let holder = guard.locks.holder(*feature, guard.moment);
        if is_another(guard.number, holder) {
            return Some(*feature);
        }
    }
    None
}

// Adds the name of a type, where there is one.
fn push_name(text: &mut String, of_type: Option<&FeatureType>) -> Mem<()>
    ensures { OnOk result (string_bytes text.new
        ≡ string_bytes text.old ++ type_name (option_copied of_type.entry)) }
{
    match of_type {
        None => Ok(()),
        Some(of_type) => {
            text.push_str(of_type.name.as_str())?;
            Ok(())
        }
    }
}

/// The identifier of a feature as text: its type's name, a dot and its number.
#[tactic(auto, unfolding(wfs_model::specs::Refusals::rid_text))]
pub fn rid_text(alloc: Global, schema: &Schema, id: Rid) -> Mem<Text>
    ensures { IfOk result (λ text. text ≡ rid_text schema.now id) }
{
    let mut text = String::new(alloc);
    push_name(&mut text, schema.types.items().get(id.kind as usize))?;
    text.push_str(".")?;
    let number = id.number;
    write!(&mut text, "{number}")?;
    Text::of_string(text)
}

// The refusal of a transaction because of a feature that another lock holds, where there is one.
#[tactic(auto, unfolding(wfs_model::specs::Refusals::is_locked_by_another), using(crate::proofs::Refused::as_refused))]
fn refuse(alloc: Global, guard: &Guard<'_>, held: Option<Rid>) -> Result<(), PlanFault>
    ensures { Answers result (withheld guard.now.schema.now guard.now.number held) }
{
    let Some(feature) = held else {
        return Ok(());
    };
    if guard.number.is_none() {
        return Err(refused(alloc, 18, "lockId"));
    }
    let locator = rid_text(alloc, guard.schema, feature)?;
    Err(PlanFault::Refused(Refusal { row: 19, locator }))
}

/// Refuses a transaction that touches a feature which another lock holds, because of the first such feature.
#[tactic(auto, unfolding(wfs_model::specs::Plans::permitted))]
pub(crate) fn permit(alloc: Global, guard: &Guard<'_>, touched: &[Rid]) -> Result<(), PlanFault>
    ensures { Answers result (may_of guard.now touched.now) }
{
    refuse(alloc, guard, first_withheld(guard, touched))
}
