//! Insert.

ghost use Rattle.std.specs.Prelude.{◌≡◌, [], ◌∷◌, ◌++◌, OnOk};
ghost use Rattle.wfs_ends.specs.Read.{GivesBut, each};
ghost use Rattle.wfs_requests.specs.Inserts.{income_of, income_others, next_feature, insert_of};

use crate::features::feature_of;
use doc_tree::Element;
use feature_values::{Feature, Schema};
use request_parameters::{Attributes, format_of, misplaced, no_others, srs_of, value_of};
use std::alloc::Global;
use wfs_ends::{List, Mem};
use wfs_model::{Action, AskFault};

// Judges what is said of the features that come in.
#[tactic(auto, unfolding(crate::specs::Inserts::income_of))]
pub(crate) fn income_of(alloc: Global, schema: &Schema, element: &Element) -> Result<(), AskFault>
    ensures { GivesBut AskFault.OutOfMemory (λ x. x) result (income_of schema.now.srs element.now) }
{
    let said = Attributes { of: element };
    format_of(alloc, "inputFormat", &said)?;
    srs_of(alloc, schema.srs.items(), &said)
}

// Refuses attributes that an action with features has not.
#[tactic(auto, unfolding(crate::specs::Inserts::income_others))]
pub(crate) fn income_others(alloc: Global, element: &Element) -> Result<(), AskFault>
    ensures { GivesBut AskFault.OutOfMemory (λ x. x) result (income_others element.now) }
{
    no_others(alloc, element, &["handle", "inputFormat", "srsName"])
}

fn push_feature(found: &mut Vec<Feature>, feature: Feature) -> Mem<()>
    ensures { OnOk result (found.new.items ≡ found.old.items ++ feature ∷ []) }
{
    found.push(feature)?;
    Ok(())
}

#[tactic(auto, unfolding(crate::specs::Inserts::next_feature))]
fn add_feature(
    alloc: Global,
    schema: &Schema,
    found: &mut Vec<Feature>,
    element: &Element,
) -> Result<(), AskFault>
    ensures { GivesBut AskFault.OutOfMemory (λ _. found.new.items) result
        (next_feature schema.now found.old.items element.now) }
{
    let feature = feature_of(alloc, schema, element)?;
    push_feature(found, feature)?;
    Ok(())
}

// The features of an Insert.
fn features_of(
    alloc: Global,
    schema: &Schema,
    elements: &[Element],
) -> Result<Vec<Feature>, AskFault>
    ensures { GivesBut AskFault.OutOfMemory (λ v. v.items) result
        (each (next_feature schema.now) [] elements.now) }
{
    let mut found = Vec::new(alloc);
    for element in elements {
        add_feature(alloc, schema, &mut found, element)?;
    }
    Ok(found)
}

// An Insert.
#[tactic(auto, unfolding(crate::specs::Inserts::insert_of, wfs_ends::specs::Read::unless))]
pub(crate) fn insert_of(
    alloc: Global,
    schema: &Schema,
    element: &Element,
) -> Result<Action, AskFault>
    ensures { GivesBut AskFault.OutOfMemory (λ action. action) result
        (insert_of schema.now element.now) }
{
    income_of(alloc, schema, element)?;
    income_others(alloc, element)?;
    let features = features_of(alloc, schema, element.children.items())?;
    if element.children.items().is_empty() {
        return Err(misplaced(alloc, element));
    }
    let handle = value_of(alloc, &Attributes { of: element }, "handle")?;
    Ok(Action::Insert {
        handle,
        features: List::of(features),
    })
}
