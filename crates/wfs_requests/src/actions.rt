//! Replace and Delete, and which actions there are.

ghost use Rattle.wfs_ends.specs.Read.{GivesBut};
ghost use Rattle.wfs_requests.specs.Actions.{replaced_by, replace_of, delete_others, delete_of, action_of};

use crate::changes::{only_filter, type_of};
use crate::features::feature_of;
use crate::inserts::{income_of, income_others, insert_of};
use crate::updates::update_of;
use doc_tree::Element;
use feature_values::Schema;
use request_parameters::{Attributes, is_wfs, misplaced, no_others, value_of};
use std::alloc::Global;
use wfs_model::{Action, AskFault, refused};

// A Replace by the feature and the elements behind it.
#[tactic(auto, unfolding(crate::specs::Actions::replaced_by))]
fn replaced_by(
    alloc: Global,
    schema: &Schema,
    whole: &Element,
    element: &Element,
    rest: &[Element],
) -> Result<Action, AskFault>
    ensures { GivesBut AskFault.OutOfMemory (λ action. action) result
        (replaced_by schema.now whole.now element.now rest.now) }
{
    let feature = feature_of(alloc, schema, element)?;
    let filter = only_filter(alloc, schema, feature.id.kind, whole, rest)?;
    let handle = value_of(alloc, &Attributes { of: whole }, "handle")?;
    Ok(Action::Replace {
        handle,
        feature,
        filter,
    })
}

// A Replace.
#[tactic(auto, unfolding(crate::specs::Actions::replace_of))]
fn replace_of(alloc: Global, schema: &Schema, element: &Element) -> Result<Action, AskFault>
    ensures { GivesBut AskFault.OutOfMemory (λ action. action) result
        (replace_of schema.now element.now) }
{
    income_of(alloc, schema, element)?;
    income_others(alloc, element)?;
    let [first, rest @ ..] = element.children.items() else {
        return Err(misplaced(alloc, element));
    };
    replaced_by(alloc, schema, element, first, rest)
}

// Refuses attributes that a Delete has not.
#[tactic(auto, unfolding(crate::specs::Actions::delete_others))]
fn delete_others(alloc: Global, element: &Element) -> Result<(), AskFault>
    ensures { GivesBut AskFault.OutOfMemory (λ x. x) result (delete_others element.now) }
{
    no_others(alloc, element, &["typeName", "handle"])
}

// A Delete.
#[tactic(auto, unfolding(crate::specs::Actions::delete_of))]
fn delete_of(alloc: Global, schema: &Schema, element: &Element) -> Result<Action, AskFault>
    ensures { GivesBut AskFault.OutOfMemory (λ action. action) result
        (delete_of schema.now element.now) }
{
    let kind = type_of(alloc, schema, element)?;
    delete_others(alloc, element)?;
    let filter = only_filter(alloc, schema, kind, element, element.children.items())?;
    Ok(Action::Delete { kind, filter })
}

// An action.
#[tactic(auto, unfolding(crate::specs::Actions::action_of))]
pub(crate) fn action_of(
    alloc: Global,
    schema: &Schema,
    element: &Element,
) -> Result<Action, AskFault>
    ensures { GivesBut AskFault.OutOfMemory (λ action. action) result
        (action_of schema.now element.now) }
{
    if is_wfs(element, "Insert") {
        return insert_of(alloc, schema, element);
    }
    if is_wfs(element, "Update") {
        return update_of(alloc, schema, element);
    }
    if is_wfs(element, "Replace") {
        return replace_of(alloc, schema, element);
    }
    if is_wfs(element, "Delete") {
        return delete_of(alloc, schema, element);
    }
    if is_wfs(element, "Native") {
        return Err(refused(alloc, 12, "Native"));
    }
    Err(misplaced(alloc, element))
}
