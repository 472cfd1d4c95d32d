//! Query: a type, a filter and an order.

ghost use Rattle.std.specs.Prelude.{◌≡◌, None, Some};
ghost use Rattle.std.specs.List.{list_any};
ghost use Rattle.std.specs.Option.{option_copied};
ghost use Rattle.wfs_ends.specs.Read.{GivesBut, each};
ghost use Rattle.gml_docs.specs.Numbers.{is_space};
ghost use Rattle.fes_docs.specs.Filters.{filter_of};
ghost use Rattle.query_docs.specs.Elements.{or_refusal};
ghost use Rattle.query_docs.specs.Queries.{behind, is_inner, is_several, type_of, query_others, no_clauses, with_filter, with_sort, next_clause, or_no_keys, query_of};

use crate::elements::{not_offered, refusal_by};
use crate::sorting::keys_of;
use doc_tree::Element;
use feature_values::Schema;
use fes_docs::{FilterDocFault, is_fes, read_filter, read_filter_in};
use fes_filter::{Filter, Query, SortKey, type_in};
use request_parameters::{Attributes, Given, is_wfs, kind_of, misplaced, no_others, srs_of};
use std::alloc::Global;
use wfs_ends::{List, Text};
use wfs_model::{AskFault, refused};

/// The clauses of a query that were read so far.
#[derive(Drop)]
pub(crate) struct Clauses {
    filter: Option<Filter>,
    sort: Option<List<SortKey>>,
}

// ---- attributes

#[tactic(auto, unfolding(gml_docs::specs::Numbers::is_space))]
fn is_space(byte: u8) -> bool
    ensures { result ≡ is_space byte }
{
    byte == b' ' || byte == b'\t' || byte == b'\n'
}

// Whether several words stand in a text, with white space between.
fn any_behind_word(text: &[u8]) -> bool
    ensures { result ≡ list_any is_inner (behind is_inner (behind is_space text.now)) }
{
    text.iter()
        .skip_while(|byte| is_space(**byte))
        .skip_while(|byte| !is_space(**byte))
        .any(|byte| !is_space(*byte))
}

// Whether several names stand in a text.
#[tactic(auto, unfolding(crate::specs::Queries::is_several))]
fn is_several(text: &str) -> bool
    ensures { result ≡ is_several text.now }
{
    any_behind_word(text.as_bytes())
}

// The type whose features are asked for.
#[tactic(auto, unfolding(crate::specs::Queries::type_of, request_parameters::specs::Said::required_of, wfs_ends::specs::Read::unless))]
fn type_of(alloc: Global, schema: &Schema, element: &Element) -> Result<u32, AskFault>
    ensures { GivesBut AskFault.OutOfMemory (λ x. x) result (type_of schema.now element.now) }
{
    let said = Attributes { of: element };
    let Some(names) = said.value_of("typeNames") else {
        return Err(refused(alloc, 10, "typeNames"));
    };
    if is_several(names.as_str()) {
        return Err(refused(alloc, 12, "typeNames"));
    }
    kind_of(alloc, schema, "typeNames", names.as_str())
}

#[tactic(auto, unfolding(crate::specs::Queries::query_others))]
fn query_others(alloc: Global, element: &Element) -> Result<(), AskFault>
    ensures { GivesBut AskFault.OutOfMemory (λ x. x) result (query_others element.now) }
{
    no_others(
        alloc,
        element,
        &[
            "typeNames",
            "srsName",
            "handle",
            "aliases",
            "featureVersion",
        ],
    )
}

// ---- clauses

// The filter of an element, in which parameters may stand where some are listed.
fn filter_in(
    alloc: Global,
    parameters: Option<&List<Text>>,
    schema: &Schema,
    kind: Option<u32>,
    element: &Element,
) -> Result<Filter, FilterDocFault>
    ensures { GivesBut FilterDocFault.OutOfMemory (λ x. x) result
        (filter_of (option_copied parameters.entry) schema.now kind element.now) }
{
    match parameters {
        None => read_filter(alloc, element, kind, schema),
        Some(names) => read_filter_in(alloc, element, kind, names, schema),
    }
}

// That filter, or how it is refused.
fn filter_or_refusal(
    alloc: Global,
    parameters: Option<&List<Text>>,
    schema: &Schema,
    kind: Option<u32>,
    element: &Element,
) -> Result<Filter, AskFault>
    ensures { GivesBut AskFault.OutOfMemory (λ x. x) result
        (or_refusal (filter_of (option_copied parameters.entry) schema.now kind element.now)) }
{
    match filter_in(alloc, parameters, schema, kind, element) {
        Ok(filter) => Ok(filter),
        Err(FilterDocFault::OutOfMemory) => Err(AskFault::OutOfMemory),
        Err(fault) => Err(refusal_by(alloc, &fault)),
    }
}

// A Filter, which is the first of the clauses.
#[tactic(auto, unfolding(crate::specs::Queries::with_filter, wfs_ends::specs::Read::unless))]
fn add_filter(
    alloc: Global,
    parameters: Option<&List<Text>>,
    schema: &Schema,
    kind: Option<u32>,
    found: &mut Clauses,
    element: &Element,
) -> Result<(), AskFault>
    ensures { GivesBut AskFault.OutOfMemory (λ _. found.new) result
        (with_filter (option_copied parameters.entry) schema.now kind found.old element.now) }
{
    if found.filter.is_some() || found.sort.is_some() {
        return Err(misplaced(alloc, element));
    }
    let filter = filter_or_refusal(alloc, parameters, schema, kind, element)?;
    found.filter = Some(filter);
    Ok(())
}

// A SortBy, of which there is one.
#[tactic(auto, unfolding(crate::specs::Queries::with_sort, wfs_ends::specs::Read::unless))]
fn add_sort(
    alloc: Global,
    schema: &Schema,
    kind: Option<u32>,
    found: &mut Clauses,
    element: &Element,
) -> Result<(), AskFault>
    ensures { GivesBut AskFault.OutOfMemory (λ _. found.new) result
        (with_sort schema.now kind found.old element.now) }
{
    if found.sort.is_some() {
        return Err(misplaced(alloc, element));
    }
    let keys = keys_of(alloc, type_in(schema, kind), element)?;
    found.sort = Some(keys);
    Ok(())
}

// One clause more.
#[tactic(auto, unfolding(crate::specs::Queries::next_clause))]
fn add_clause(
    alloc: Global,
    parameters: Option<&List<Text>>,
    schema: &Schema,
    kind: Option<u32>,
    found: &mut Clauses,
    element: &Element,
) -> Result<(), AskFault>
    ensures { GivesBut AskFault.OutOfMemory (λ _. found.new) result
        (next_clause (option_copied parameters.entry) schema.now kind found.old element.now) }
{
    if is_wfs(element, "PropertyName") {
        return Err(refused(alloc, 12, "PropertyName"));
    }
    if is_fes(element, "Filter") {
        return add_filter(alloc, parameters, schema, kind, found, element);
    }
    if is_fes(element, "SortBy") {
        return add_sort(alloc, schema, kind, found, element);
    }
    Err(misplaced(alloc, element))
}

// All clauses.
fn all_clauses(
    alloc: Global,
    parameters: Option<&List<Text>>,
    schema: &Schema,
    kind: Option<u32>,
    elements: &[Element],
) -> Result<Clauses, AskFault>
    ensures { GivesBut AskFault.OutOfMemory (λ x. x) result
        (each (next_clause (option_copied parameters.entry) schema.now kind) no_clauses
        elements.now) }
{
    let mut found = Clauses {
        filter: None,
        sort: None,
    };
    for element in elements {
        add_clause(alloc, parameters, schema, kind, &mut found, element)?;
    }
    Ok(found)
}

// No keys where there are none.
fn or_no_keys(alloc: Global, keys: Option<List<SortKey>>) -> List<SortKey>
    ensures { result ≡ or_no_keys keys }
{
    match keys {
        None => List::of(Vec::new(alloc)),
        Some(keys) => keys,
    }
}

// ---- the whole

// A query, in which parameters may stand where some are listed.
#[tactic(auto, unfolding(crate::specs::Queries::query_of))]
pub(crate) fn query_of(
    alloc: Global,
    parameters: Option<&List<Text>>,
    schema: &Schema,
    element: &Element,
) -> Result<Query, AskFault>
    ensures { GivesBut AskFault.OutOfMemory (λ x. x) result
        (query_of (option_copied parameters.entry) schema.now element.now) }
{
    let kind = type_of(alloc, schema, element)?;
    srs_of(alloc, schema.srs.items(), &Attributes { of: element })?;
    not_offered(alloc, element, "aliases")?;
    not_offered(alloc, element, "featureVersion")?;
    query_others(alloc, element)?;
    let children = element.children.items();
    let clauses = all_clauses(alloc, parameters, schema, Some(kind), children)?;
    Ok(Query {
        kind: Some(kind),
        filter: clauses.filter,
        sort: or_no_keys(alloc, clauses.sort),
    })
}
