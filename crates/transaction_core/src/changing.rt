//! What an action does to one feature.

ghost use Rattle.std.specs.Prelude.{◌≡◌, ◌++◌, IfOk, OnOk};
ghost use Rattle.std.specs.List.{fold};
ghost use Rattle.wfs_model.specs.Acts.{with_value, instead};

use feature_values::{Feature, Rid, Value};
use std::alloc::Global;
use wfs_ends::Mem;
use wfs_model::Action;

// Puts a value in its place, where there is one.
fn set_value(alloc: Global, values: &mut [Value], set: &(u32, Value)) -> Mem<()>
    ensures { OnOk result (values.new ≡ with_value values.old set.now) }
{
    let place = set.0 as usize;
    if place < values.len() {
        values[place] = set.1.copy(alloc)?;
    }
    Ok(())
}

fn set_values(alloc: Global, values: &mut [Value], sets: &[(u32, Value)]) -> Mem<()>
    ensures { OnOk result (values.new ≡ fold with_value values.old sets.now) }
{
    for set in sets {
        set_value(alloc, values, set)?;
    }
    Ok(())
}

// Equal values, in a list of their own.
fn copied(alloc: Global, values: &[Value]) -> Mem<Vec<Value>>
    ensures { IfOk result (λ all. all.items ≡ values.now) }
{
    let mut all = Vec::with_capacity(alloc, values.len())?;
    for value in values {
        all.push(value.copy(alloc)?)?;
    }
    Ok(all)
}

// An equal feature but for the values that are set.
fn updated(alloc: Global, feature: &Feature, sets: &[(u32, Value)]) -> Mem<Feature>
    ensures { IfOk result (λ f. f ≡ record {
      id = feature.now.id;
      values = fold with_value feature.now.values sets.now;
    }) }
{
    let mut values = copied(alloc, feature.items())?;
    set_values(alloc, values.as_mut_slice(), sets)?;
    Feature::of(alloc, feature.id, values)
}

/// The values of a feature under another identifier. They are shared.
pub(crate) fn under(id: Rid, feature: &Feature) -> Mem<Feature>
    ensures { IfOk result (λ f. f ≡ record { id = id; values = feature.now.values }) }
{
    Ok(Feature {
        id,
        values: feature.values.copy()?,
    })
}

/// What stands under the identifier of a selected feature then.
#[tactic(auto, unfolding(wfs_model::specs::Acts::instead))]
pub(crate) fn instead(alloc: Global, action: &Action, feature: &Feature) -> Mem<Option<Feature>>
    ensures { IfOk result (λ o. o ≡ instead action.now feature.now) }
{
    match action {
        Action::Insert { .. } => Ok(Some(feature.copy(alloc)?)),
        Action::Update { sets, .. } => Ok(Some(updated(alloc, feature, sets.items())?)),
        Action::Replace { feature: new, .. } => Ok(Some(under(feature.id, new)?)),
        Action::Delete { .. } => Ok(None),
    }
}
