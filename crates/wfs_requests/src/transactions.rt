//! Transaction.

ghost use Rattle.std.specs.Prelude.{◌≡◌, [], ◌∷◌, ◌++◌, OnOk};
ghost use Rattle.wfs_ends.specs.Read.{GivesBut, each};
ghost use Rattle.wfs_requests.specs.Transactions.{next_action, transaction_others, transaction_of};

use crate::actions::action_of;
use crate::base::base_of;
use doc_tree::Element;
use feature_values::Schema;
use request_parameters::{Attributes, lock_of, no_others, release_of, srs_of};
use std::alloc::Global;
use wfs_ends::{List, Mem};
use wfs_model::{Action, AskFault, Request};

fn push_action(found: &mut Vec<Action>, action: Action) -> Mem<()>
    ensures { OnOk result (found.new.items ≡ found.old.items ++ action ∷ []) }
{
    found.push(action)?;
    Ok(())
}

#[tactic(auto, unfolding(crate::specs::Transactions::next_action))]
fn add_action(
    alloc: Global,
    schema: &Schema,
    found: &mut Vec<Action>,
    element: &Element,
) -> Result<(), AskFault>
    ensures { GivesBut AskFault.OutOfMemory (λ _. found.new.items) result
        (next_action schema.now found.old.items element.now) }
{
    let action = action_of(alloc, schema, element)?;
    push_action(found, action)?;
    Ok(())
}

// The actions of a Transaction.
fn actions_of(alloc: Global, schema: &Schema, elements: &[Element]) -> Result<Vec<Action>, AskFault>
    ensures { GivesBut AskFault.OutOfMemory (λ v. v.items) result
        (each (next_action schema.now) [] elements.now) }
{
    let mut found = Vec::new(alloc);
    for element in elements {
        add_action(alloc, schema, &mut found, element)?;
    }
    Ok(found)
}

// Refuses attributes that a Transaction has not.
#[tactic(auto, unfolding(crate::specs::Transactions::transaction_others))]
fn transaction_others(alloc: Global, element: &Element) -> Result<(), AskFault>
    ensures { GivesBut AskFault.OutOfMemory (λ x. x) result (transaction_others element.now) }
{
    no_others(
        alloc,
        element,
        &[
            "service",
            "version",
            "handle",
            "lockId",
            "releaseAction",
            "srsName",
        ],
    )
}

// A Transaction.
#[tactic(auto, unfolding(crate::specs::Transactions::transaction_of))]
pub(crate) fn transaction_of(
    alloc: Global,
    schema: &Schema,
    element: &Element,
) -> Result<Request, AskFault>
    ensures { GivesBut AskFault.OutOfMemory (λ request. request) result
        (transaction_of schema.now element.now) }
{
    let said = Attributes { of: element };
    base_of(alloc, element)?;
    let lock = lock_of(alloc, &said)?;
    let release = release_of(alloc, &said)?;
    srs_of(alloc, schema.srs.items(), &said)?;
    transaction_others(alloc, element)?;
    let actions = actions_of(alloc, schema, element.children.items())?;
    Ok(Request::Transact {
        lock,
        release,
        actions: List::of(actions),
    })
}
