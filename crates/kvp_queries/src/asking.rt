//! What a query asks for of the features: a query of its own, or the use of a stored one.

ghost use Rattle.std.specs.Prelude.{◌≡◌, [], ◌∷◌, ◌++◌, None, IfOk};
ghost use Rattle.wfs_ends.specs.Read.{GivesBut};
ghost use Rattle.wfs_model.specs.declared.asked.Asked.TheVariants.{Stored};
ghost use Rattle.request_parameters.specs.declared.operation.Operation.TheVariants.{GetPropertyValue};
ghost use Rattle.kvp_queries.specs.Pairs.{said_by, parameters_of};
ghost use Rattle.kvp_queries.specs.Asking.{property_name_of, sorted_of, query_of, stored_id, enough_of, asked_by, property_of, valued};

use crate::lists::one;
use crate::pairs::{Listed, add_parameters};
use crate::selecting::{chosen, type_names_of, type_of};
use crate::sorting::keys_of;
use feature_values::Schema;
use fes_filter::{Query, SortKey, property_in, type_in};
use request_parameters::{Given, Operation, srs_of};
use std::alloc::Global;
use wfs_ends::{List, Mem, Text};
use wfs_model::{AskFault, Asked, refused};

// Features come with all their properties.
#[tactic(auto, unfolding(crate::specs::Asking::property_name_of, wfs_ends::specs::Read::unless))]
fn property_name_of(alloc: Global, listed: &Listed) -> Result<(), AskFault>
    ensures { GivesBut AskFault.OutOfMemory (λ x. x) result
        (property_name_of (said_by listed.now.pairs)) }
{
    let Some(text) = listed.value_of("propertyName") else {
        return Ok(());
    };
    if text.as_str() != "*" {
        return Err(refused(alloc, 12, "propertyName"));
    }
    Ok(())
}

// The order of features, which come with all their properties.
#[tactic(auto, unfolding(crate::specs::Asking::sorted_of))]
fn sorted_of(
    alloc: Global,
    schema: &Schema,
    kind: Option<u32>,
    listed: &Listed,
) -> Result<List<SortKey>, AskFault>
    ensures { GivesBut AskFault.OutOfMemory (λ sort. sort) result
        (sorted_of schema.now kind (said_by listed.now.pairs)) }
{
    let sort = keys_of(alloc, schema, kind, listed)?;
    property_name_of(alloc, listed)?;
    Ok(sort)
}

// A type, a choice among its features, and their order.
#[tactic(auto, unfolding(crate::specs::Asking::query_of, crate::specs::Asking::sorted_of))]
pub(crate) fn query_of(alloc: Global, schema: &Schema, listed: &Listed) -> Result<Query, AskFault>
    ensures { GivesBut AskFault.OutOfMemory (λ q. q) result
        (query_of schema.now (said_by listed.now.pairs)) }
{
    let kind = type_of(alloc, schema, listed)?;
    srs_of(alloc, schema.srs.items(), listed)?;
    let filter = chosen(alloc, schema, kind, listed)?;
    let sort = sorted_of(alloc, schema, kind, listed)?;
    Ok(Query { kind, filter, sort })
}

// A type has to be named, unless features are asked for by their ids or by a stored query.
#[tactic(auto, unfolding(crate::specs::Asking::enough_of, wfs_ends::specs::Read::unless))]
pub(crate) fn enough_of(alloc: Global, listed: &Listed) -> Result<(), AskFault>
    ensures { GivesBut AskFault.OutOfMemory (λ x. x) result (enough_of (said_by listed.now.pairs)) }
{
    if type_names_of(listed).is_some()
        || listed.value_of("resourceId").is_some()
        || listed.value_of("storedQuery_id").is_some()
    {
        return Ok(());
    }
    Err(refused(alloc, 10, "typeNames"))
}

// The parameters of the stored query that an operation uses.
fn parameters_of(
    alloc: Global,
    operation: Operation,
    pairs: &[(Text, Text)],
) -> Mem<List<(Text, Text)>>
    ensures { IfOk result (λ given. given ≡ parameters_of operation pairs.now) }
{
    let mut given = Vec::new(alloc);
    add_parameters(alloc, operation, &mut given, pairs)?;
    Ok(List::of(given))
}

// The use of a stored query.
fn asked_stored(
    alloc: Global,
    operation: Operation,
    pairs: &[(Text, Text)],
    id: &Text,
) -> Mem<Asked>
    ensures { IfOk result (λ asked. asked ≡ Stored id.now (parameters_of operation pairs.now)) }
{
    let id = id.copy(alloc)?;
    let given = parameters_of(alloc, operation, pairs)?;
    Ok(Asked::Stored { id, given })
}

// What an operation asks for: the stored query with its parameters, where one is named, and else the query.
#[tactic(auto, unfolding(crate::specs::Asking::asked_by))]
fn asked_by(
    alloc: Global,
    operation: Operation,
    pairs: &[(Text, Text)],
    listed: &Listed,
    query: Query,
) -> Mem<Asked>
    ensures { IfOk result (λ asked. asked ≡ asked_by operation pairs.now (said_by listed.now.pairs)
        query) }
{
    match listed.value_of("storedQuery_id") {
        None => Ok(Asked::Plain(query)),
        Some(id) => asked_stored(alloc, operation, pairs, id),
    }
}

// What an operation asks for, alone.
pub(crate) fn all_asked(
    alloc: Global,
    operation: Operation,
    pairs: &[(Text, Text)],
    listed: &Listed,
    query: Query,
) -> Mem<List<Asked>>
    ensures { IfOk result (λ all. all ≡ asked_by operation pairs.now (said_by listed.now.pairs)
        query ∷ []) }
{
    let asked = asked_by(alloc, operation, pairs, listed, query)?;
    one(alloc, asked)
}

// ---- values

// The property of a type by its name as given.
fn property_of(
    alloc: Global,
    schema: &Schema,
    kind: Option<u32>,
    name: &str,
) -> Result<u32, AskFault>
    ensures { GivesBut AskFault.OutOfMemory (λ p. p) result (property_of schema.now kind name.now) }
{
    let Some(kind) = kind else {
        return Err(refused(alloc, 11, "valueReference"));
    };
    let Some((property, _)) = property_in(type_in(schema, Some(kind)), name) else {
        return Err(refused(alloc, 11, name));
    };
    Ok(property)
}

// The parameters of a stored query whose features' values are asked for, with the property's name before them.
fn valued_parameters(alloc: Global, pairs: &[(Text, Text)], name: Text) -> Mem<List<(Text, Text)>>
    ensures { IfOk result (λ given. given ≡ ([], name) ∷ parameters_of GetPropertyValue pairs.now) }
{
    let mut given = Vec::new(alloc);
    given.push((Text::of(alloc, "")?, name))?;
    add_parameters(alloc, Operation::GetPropertyValue, &mut given, pairs)?;
    Ok(List::of(given))
}

// The use of a stored query whose features' values are asked for.
fn valued_stored(alloc: Global, pairs: &[(Text, Text)], id: &Text, name: Text) -> Mem<(Asked, u32)>
    ensures { IfOk result (λ x. x ≡ (
      Stored id.now
          (([], name) ∷ parameters_of GetPropertyValue pairs.now),
      0,
    )) }
{
    let given = valued_parameters(alloc, pairs, name)?;
    let id = id.copy(alloc)?;
    Ok((Asked::Stored { id, given }, 0))
}

// A query and the property whose values are asked for.
fn valued_plain(
    alloc: Global,
    schema: &Schema,
    query: Query,
    name: &str,
) -> Result<(Asked, u32), AskFault>
    ensures { GivesBut AskFault.OutOfMemory (λ x. x) result
        (valued schema.now [] query name.now None) }
{
    let property = property_of(alloc, schema, query.kind, name)?;
    Ok((Asked::Plain(query), property))
}

// What has values, and the property whose values are asked for.
pub(crate) fn valued(
    alloc: Global,
    schema: &Schema,
    pairs: &[(Text, Text)],
    listed: &Listed,
    query: Query,
    name: Text,
) -> Result<(Asked, u32), AskFault>
    ensures { GivesBut AskFault.OutOfMemory (λ x. x) result
        (valued schema.now pairs.now query name (stored_id (said_by listed.now.pairs))) }
{
    match listed.value_of("storedQuery_id") {
        None => valued_plain(alloc, schema, query, name.as_str()),
        Some(id) => Ok(valued_stored(alloc, pairs, id, name)?),
    }
}
