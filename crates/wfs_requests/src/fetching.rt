//! GetFeature, GetFeatureWithLock, LockFeature and GetPropertyValue.

ghost use Rattle.std.specs.Prelude.{◌≡◌, [], ◌∷◌, ◌++◌, OnOk, IfOk};
ghost use Rattle.wfs_ends.specs.Read.{GivesBut, each};
ghost use Rattle.wfs_requests.specs.Fetching.{next_asked, all_asked, features_others, features_of, locked_others, locked_of, lock_others, new_lock, renewal, lock_for, lock_request, only_asked, place_asked, with_name, values_asked, values_others, values_request};

use crate::base::base_of;
use crate::changes::property_of;
use doc_tree::Element;
use feature_values::Schema;
use lock_table::LockId;
use query_docs::read_asked;
use request_parameters::{
    Attributes, expiry_of, lock_of, locked_page_of, misplaced, no_children, no_others, page_of,
    period_of, required_of, take_of,
};
use std::alloc::Global;
use wfs_ends::{List, Mem, Text};
use wfs_model::{AskFault, Asked, Present, Request, Take, refused};

// ---- what is asked

fn push_asked(found: &mut Vec<Asked>, asked: Asked) -> Mem<()>
    ensures { OnOk result (found.new.items ≡ found.old.items ++ asked ∷ []) }
{
    found.push(asked)?;
    Ok(())
}

#[tactic(auto, unfolding(crate::specs::Fetching::next_asked))]
fn add_asked(
    alloc: Global,
    schema: &Schema,
    found: &mut Vec<Asked>,
    element: &Element,
) -> Result<(), AskFault>
    ensures { GivesBut AskFault.OutOfMemory (λ _. found.new.items) result
        (next_asked schema.now found.old.items element.now) }
{
    let asked = read_asked(alloc, element, schema)?;
    push_asked(found, asked)?;
    Ok(())
}

fn asked_in(alloc: Global, schema: &Schema, elements: &[Element]) -> Result<Vec<Asked>, AskFault>
    ensures { GivesBut AskFault.OutOfMemory (λ v. v.items) result
        (each (next_asked schema.now) [] elements.now) }
{
    let mut found = Vec::new(alloc);
    for element in elements {
        add_asked(alloc, schema, &mut found, element)?;
    }
    Ok(found)
}

// One query or more.
#[tactic(auto, unfolding(crate::specs::Fetching::all_asked, wfs_ends::specs::Read::unless))]
fn all_asked(alloc: Global, schema: &Schema, element: &Element) -> Result<List<Asked>, AskFault>
    ensures { GivesBut AskFault.OutOfMemory (λ asked. asked) result
        (all_asked schema.now element.now) }
{
    let asked = asked_in(alloc, schema, element.children.items())?;
    if element.children.items().is_empty() {
        return Err(misplaced(alloc, element));
    }
    Ok(List::of(asked))
}

// ---- GetFeature

// Refuses attributes that a GetFeature has not.
#[tactic(auto, unfolding(crate::specs::Fetching::features_others))]
fn features_others(alloc: Global, element: &Element) -> Result<(), AskFault>
    ensures { GivesBut AskFault.OutOfMemory (λ x. x) result (features_others element.now) }
{
    no_others(
        alloc,
        element,
        &[
            "service",
            "version",
            "handle",
            "count",
            "startIndex",
            "resultType",
            "outputFormat",
            "resolve",
        ],
    )
}

// A GetFeature.
#[tactic(auto, unfolding(crate::specs::Fetching::features_of))]
pub(crate) fn features_of(
    alloc: Global,
    schema: &Schema,
    element: &Element,
) -> Result<Request, AskFault>
    ensures { GivesBut AskFault.OutOfMemory (λ request. request) result
        (features_of schema.now element.now) }
{
    base_of(alloc, element)?;
    let page = page_of(alloc, &Attributes { of: element })?;
    features_others(alloc, element)?;
    let asked = all_asked(alloc, schema, element)?;
    Ok(Request::GetFeatures(page.presented(None), asked))
}

// ---- GetFeatureWithLock

// Refuses attributes that a GetFeatureWithLock has not.
#[tactic(auto, unfolding(crate::specs::Fetching::locked_others))]
fn locked_others(alloc: Global, element: &Element) -> Result<(), AskFault>
    ensures { GivesBut AskFault.OutOfMemory (λ x. x) result (locked_others element.now) }
{
    no_others(
        alloc,
        element,
        &[
            "service",
            "version",
            "handle",
            "count",
            "startIndex",
            "resultType",
            "outputFormat",
            "resolve",
            "expiry",
            "lockAction",
        ],
    )
}

// A GetFeatureWithLock.
#[tactic(auto, unfolding(crate::specs::Fetching::locked_of))]
pub(crate) fn locked_of(
    alloc: Global,
    schema: &Schema,
    element: &Element,
) -> Result<Request, AskFault>
    ensures { GivesBut AskFault.OutOfMemory (λ request. request) result
        (locked_of schema.now element.now) }
{
    let said = Attributes { of: element };
    base_of(alloc, element)?;
    let page = locked_page_of(alloc, &said)?;
    let period = period_of(alloc, &said)?;
    let take = take_of(alloc, &said)?;
    locked_others(alloc, element)?;
    let asked = all_asked(alloc, schema, element)?;
    Ok(Request::GetLocked {
        present: page.presented(None),
        asked,
        take,
        period,
    })
}

// ---- LockFeature

// Refuses attributes that a LockFeature has not.
#[tactic(auto, unfolding(crate::specs::Fetching::lock_others))]
fn lock_others(alloc: Global, element: &Element) -> Result<(), AskFault>
    ensures { GivesBut AskFault.OutOfMemory (λ x. x) result (lock_others element.now) }
{
    no_others(
        alloc,
        element,
        &[
            "service",
            "version",
            "handle",
            "lockId",
            "expiry",
            "lockAction",
        ],
    )
}

// A new lock.
#[tactic(auto, unfolding(crate::specs::Fetching::new_lock))]
fn new_lock(
    alloc: Global,
    schema: &Schema,
    element: &Element,
    take: Take,
) -> Result<Request, AskFault>
    ensures { GivesBut AskFault.OutOfMemory (λ request. request) result
        (new_lock schema.now element.now take) }
{
    let asked = all_asked(alloc, schema, element)?;
    let period = period_of(alloc, &Attributes { of: element })?;
    Ok(Request::Lock {
        asked,
        take,
        period,
    })
}

// A new deadline for a lock.
#[tactic(auto, unfolding(crate::specs::Fetching::renewal, wfs_ends::specs::Read::unless))]
fn renewal(
    alloc: Global,
    element: &Element,
    lock: LockId,
    period: Option<u32>,
) -> Result<Request, AskFault>
    ensures { GivesBut AskFault.OutOfMemory (λ request. request) result
        (renewal element.now lock period) }
{
    if !element.children.items().is_empty() {
        return Err(refused(alloc, 11, "lockId"));
    }
    Ok(Request::Renew { lock, period })
}

// A new lock, or a new deadline for one that the client has.
fn lock_for(
    alloc: Global,
    schema: &Schema,
    element: &Element,
    expiry: Option<u32>,
    take: Take,
    lock: Option<LockId>,
) -> Result<Request, AskFault>
    ensures { GivesBut AskFault.OutOfMemory (λ request. request) result
        (lock_for schema.now element.now expiry take lock) }
{
    match lock {
        None => new_lock(alloc, schema, element, take),
        Some(lock) => renewal(alloc, element, lock, expiry),
    }
}

// A LockFeature.
#[tactic(auto, unfolding(crate::specs::Fetching::lock_request))]
pub(crate) fn lock_request(
    alloc: Global,
    schema: &Schema,
    element: &Element,
) -> Result<Request, AskFault>
    ensures { GivesBut AskFault.OutOfMemory (λ request. request) result
        (lock_request schema.now element.now) }
{
    let said = Attributes { of: element };
    base_of(alloc, element)?;
    let lock = lock_of(alloc, &said)?;
    let expiry = expiry_of(alloc, &said)?;
    let take = take_of(alloc, &said)?;
    lock_others(alloc, element)?;
    lock_for(alloc, schema, element, expiry, take, lock)
}

// ---- GetPropertyValue

// The one query among some elements.
fn only_asked(
    alloc: Global,
    schema: &Schema,
    whole: &Element,
    elements: &[Element],
) -> Result<Asked, AskFault>
    ensures { GivesBut AskFault.OutOfMemory (λ asked. asked) result
        (only_asked schema.now whole.now elements.now) }
{
    let [element, rest @ ..] = elements else {
        return Err(misplaced(alloc, whole));
    };
    let asked = read_asked(alloc, element, schema)?;
    no_children(alloc, rest)?;
    Ok(asked)
}

// The property of this name in the type of a query; beside a stored query it has no number yet.
fn place_asked(alloc: Global, schema: &Schema, name: &str, asked: &Asked) -> Result<u32, AskFault>
    ensures { GivesBut AskFault.OutOfMemory (λ place. place) result
        (place_asked schema.now name.now asked.now) }
{
    match asked {
        Asked::Plain(query) => property_of(alloc, schema, query.kind, name),
        Asked::Stored { .. } => Ok(0),
    }
}

// What is given, and behind it a value under the name that no parameter has.
fn with_value(alloc: Global, given: List<(Text, Text)>, value: Text) -> Mem<List<(Text, Text)>>
    ensures { IfOk result (λ all. all ≡ given ++ ([], value) ∷ []) }
{
    let none = Text::of(alloc, "")?;
    let mut all = given.into_items();
    all.push((none, value))?;
    Ok(List::of(all))
}

// What is asked; a stored query keeps the property's name.
fn with_name(alloc: Global, name: Text, asked: Asked) -> Mem<Asked>
    ensures { IfOk result (λ all. all ≡ with_name name asked) }
{
    match asked {
        Asked::Plain(query) => Ok(Asked::Plain(query)),
        Asked::Stored { id, given } => {
            let given = with_value(alloc, given, name)?;
            Ok(Asked::Stored { id, given })
        }
    }
}

// The values of the property of this name, of the features that are asked for.
#[tactic(auto, unfolding(crate::specs::Fetching::values_asked))]
fn values_asked(
    alloc: Global,
    schema: &Schema,
    present: Present,
    name: Text,
    asked: Asked,
) -> Result<Request, AskFault>
    ensures { GivesBut AskFault.OutOfMemory (λ request. request) result
        (values_asked schema.now present name asked) }
{
    let place = place_asked(alloc, schema, name.as_str(), &asked)?;
    let asked = with_name(alloc, name, asked)?;
    Ok(Request::GetValues(present, asked, place))
}

// Refuses attributes that a GetPropertyValue has not.
#[tactic(auto, unfolding(crate::specs::Fetching::values_others))]
fn values_others(alloc: Global, element: &Element) -> Result<(), AskFault>
    ensures { GivesBut AskFault.OutOfMemory (λ x. x) result (values_others element.now) }
{
    no_others(
        alloc,
        element,
        &[
            "service",
            "version",
            "handle",
            "count",
            "startIndex",
            "resultType",
            "outputFormat",
            "resolve",
            "valueReference",
        ],
    )
}

// A GetPropertyValue.
#[tactic(auto, unfolding(crate::specs::Fetching::values_request))]
pub(crate) fn values_request(
    alloc: Global,
    schema: &Schema,
    element: &Element,
) -> Result<Request, AskFault>
    ensures { GivesBut AskFault.OutOfMemory (λ request. request) result
        (values_request schema.now element.now) }
{
    let said = Attributes { of: element };
    base_of(alloc, element)?;
    let page = page_of(alloc, &said)?;
    let name = required_of(alloc, &said, "valueReference")?;
    values_others(alloc, element)?;
    let asked = only_asked(alloc, schema, element, element.children.items())?;
    values_asked(alloc, schema, page.presented(None), name, asked)
}
