//! ListStoredQueries, DescribeStoredQueries, CreateStoredQuery and DropStoredQuery.

ghost use Rattle.std.specs.Prelude.{◌≡◌, [], ◌∷◌, ◌++◌, OnOk};
ghost use Rattle.wfs_ends.specs.Read.{GivesBut, each};
ghost use Rattle.wfs_requests.specs.StoredQueries.{bare_of, list_of, next_id, described_of, next_stored, created_of, drop_others, drop_of};

use crate::base::base_of;
use doc_tree::Element;
use feature_values::Schema;
use query_docs::read_definition;
use request_parameters::{
    Attributes, dropped_of, is_wfs, misplaced, no_children, no_others, text_in,
};
use std::alloc::Global;
use wfs_ends::{List, Mem, Text};
use wfs_model::{AskFault, Request, StoredQuery};

// Judges a request without attributes of its own.
#[tactic(auto, unfolding(crate::specs::StoredQueries::bare_of))]
fn bare_of(alloc: Global, element: &Element) -> Result<(), AskFault>
    ensures { GivesBut AskFault.OutOfMemory (λ x. x) result (bare_of element.now) }
{
    base_of(alloc, element)?;
    no_others(alloc, element, &["service", "version", "handle"])
}

// ---- ListStoredQueries

// A ListStoredQueries.
#[tactic(auto, unfolding(crate::specs::StoredQueries::list_of))]
pub(crate) fn list_of(alloc: Global, element: &Element) -> Result<Request, AskFault>
    ensures { GivesBut AskFault.OutOfMemory (λ request. request) result (list_of element.now) }
{
    bare_of(alloc, element)?;
    no_children(alloc, element.children.items())?;
    Ok(Request::ListStored)
}

// ---- DescribeStoredQueries

fn push_id(found: &mut Vec<Text>, id: Text) -> Mem<()>
    ensures { OnOk result (found.new.items ≡ found.old.items ++ id ∷ []) }
{
    found.push(id)?;
    Ok(())
}

// Adds a StoredQueryId.
#[tactic(auto, unfolding(crate::specs::StoredQueries::next_id, wfs_ends::specs::Read::unless))]
fn add_id(alloc: Global, found: &mut Vec<Text>, element: &Element) -> Result<(), AskFault>
    ensures { GivesBut AskFault.OutOfMemory (λ _. found.new.items) result
        (next_id found.old.items element.now) }
{
    if !is_wfs(element, "StoredQueryId") {
        return Err(misplaced(alloc, element));
    }
    no_others(alloc, element, &[])?;
    let id = text_in(alloc, element)?.copy(alloc)?;
    push_id(found, id)?;
    Ok(())
}

fn all_ids(alloc: Global, elements: &[Element]) -> Result<Vec<Text>, AskFault>
    ensures { GivesBut AskFault.OutOfMemory (λ v. v.items) result (each next_id [] elements.now) }
{
    let mut found = Vec::new(alloc);
    for element in elements {
        add_id(alloc, &mut found, element)?;
    }
    Ok(found)
}

// A DescribeStoredQueries.
#[tactic(auto, unfolding(crate::specs::StoredQueries::described_of))]
pub(crate) fn described_of(alloc: Global, element: &Element) -> Result<Request, AskFault>
    ensures { GivesBut AskFault.OutOfMemory (λ request. request) result (described_of element.now) }
{
    bare_of(alloc, element)?;
    let ids = all_ids(alloc, element.children.items())?;
    Ok(Request::DescribeStored(List::of(ids)))
}

// ---- CreateStoredQuery

fn push_stored(found: &mut Vec<StoredQuery>, stored: StoredQuery) -> Mem<()>
    ensures { OnOk result (found.new.items ≡ found.old.items ++ stored ∷ []) }
{
    found.push(stored)?;
    Ok(())
}

#[tactic(auto, unfolding(crate::specs::StoredQueries::next_stored))]
fn add_stored(
    alloc: Global,
    schema: &Schema,
    found: &mut Vec<StoredQuery>,
    element: &Element,
) -> Result<(), AskFault>
    ensures { GivesBut AskFault.OutOfMemory (λ _. found.new.items) result
        (next_stored schema.now found.old.items element.now) }
{
    let stored = read_definition(alloc, element, schema)?;
    push_stored(found, stored)?;
    Ok(())
}

fn all_stored(
    alloc: Global,
    schema: &Schema,
    elements: &[Element],
) -> Result<Vec<StoredQuery>, AskFault>
    ensures { GivesBut AskFault.OutOfMemory (λ v. v.items) result
        (each (next_stored schema.now) [] elements.now) }
{
    let mut found = Vec::new(alloc);
    for element in elements {
        add_stored(alloc, schema, &mut found, element)?;
    }
    Ok(found)
}

// A CreateStoredQuery.
#[tactic(auto, unfolding(crate::specs::StoredQueries::created_of, wfs_ends::specs::Read::unless))]
pub(crate) fn created_of(
    alloc: Global,
    schema: &Schema,
    element: &Element,
) -> Result<Request, AskFault>
    ensures { GivesBut AskFault.OutOfMemory (λ request. request) result
        (created_of schema.now element.now) }
{
    bare_of(alloc, element)?;
    let queries = all_stored(alloc, schema, element.children.items())?;
    if element.children.items().is_empty() {
        return Err(misplaced(alloc, element));
    }
    Ok(Request::CreateStored(List::of(queries)))
}

// ---- DropStoredQuery

// Refuses attributes that a DropStoredQuery has not.
#[tactic(auto, unfolding(crate::specs::StoredQueries::drop_others))]
fn drop_others(alloc: Global, element: &Element) -> Result<(), AskFault>
    ensures { GivesBut AskFault.OutOfMemory (λ x. x) result (drop_others element.now) }
{
    no_others(alloc, element, &["service", "version", "handle", "id"])
}

// A DropStoredQuery.
#[tactic(auto, unfolding(crate::specs::StoredQueries::drop_of))]
pub(crate) fn drop_of(alloc: Global, element: &Element) -> Result<Request, AskFault>
    ensures { GivesBut AskFault.OutOfMemory (λ request. request) result (drop_of element.now) }
{
    base_of(alloc, element)?;
    let id = dropped_of(alloc, "id", &Attributes { of: element })?;
    drop_others(alloc, element)?;
    no_children(alloc, element.children.items())?;
    Ok(Request::DropStored(id))
}
