//! Which features a query selects: by filter, by box, by identifier.

ghost use Rattle.std.specs.Prelude.{◌≡◌, IfOk, None};
ghost use Rattle.std.specs.Option.{option_copied};
ghost use Rattle.wfs_ends.specs.Read.{GivesBut};
ghost use Rattle.doc_read.specs.Document.{document};
ghost use Rattle.fes_docs.specs.Filters.{filter_of};
ghost use Rattle.query_docs.specs.Elements.{refusal_by, or_refusal};
ghost use Rattle.kvp_queries.specs.Pairs.{or_else, said_by};
ghost use Rattle.kvp_queries.specs.Selection.{type_names_of, one_type, type_of, id_of, ids_in, ids_filter, or_no_document, filter_in, document_filter, corner_at, box_between, box_in, box_filter, alone, only_one, others, chosen};

use crate::lists::{cut, has_comma};
use crate::pairs::Listed;
use doc_read::{DocFault, read_document};
use doc_tree::Element;
use feature_values::{Schema, read_rid};
use fes_docs::{FilterDocFault, read_filter};
use fes_filter::{Filter, IdRef};
use geom_core::{Box2, Pos};
use gml_docs::read_position;
use request_parameters::{Given, kind_of};
use std::alloc::Global;
use wfs_ends::{List, Mem, Text};
use wfs_model::{AskFault, is_listed, refused};

// ---- the type

// The names of types, under either spelling.
#[tactic(auto, unfolding(crate::specs::Selection::type_names_of))]
pub(crate) fn type_names_of(listed: &Listed) -> Option<&Text>
    ensures { option_copied result ≡ type_names_of (said_by listed.now.pairs) }
{
    match listed.value_of("typeNames") {
        Some(text) => Some(text),
        None => listed.value_of("typeName"),
    }
}

// The one type of a name.
#[tactic(auto, unfolding(crate::specs::Selection::one_type, wfs_ends::specs::Read::unless))]
fn one_type(alloc: Global, schema: &Schema, text: &str) -> Result<u32, AskFault>
    ensures { GivesBut AskFault.OutOfMemory (λ k. k) result (one_type schema.now text.now) }
{
    if has_comma(text) {
        return Err(refused(alloc, 12, "typeNames"));
    }
    kind_of(alloc, schema, "typeNames", text)
}

// The type asked for, where one is.
#[tactic(auto, unfolding(crate::specs::Selection::type_of))]
pub(crate) fn type_of(
    alloc: Global,
    schema: &Schema,
    listed: &Listed,
) -> Result<Option<u32>, AskFault>
    ensures { GivesBut AskFault.OutOfMemory (λ k. k) result
        (type_of schema.now (said_by listed.now.pairs)) }
{
    let Some(text) = type_names_of(listed) else {
        return Ok(None);
    };
    let kind = one_type(alloc, schema, text.as_str())?;
    Ok(Some(kind))
}

// ---- resourceId

// What a resource id refers to.
#[tactic(auto, unfolding(crate::specs::Selection::id_of))]
fn id_of(schema: &Schema, text: &str) -> IdRef
    ensures { result ≡ id_of schema.now text.now }
{
    match read_rid(schema, text) {
        Some(id) => IdRef::Known(id),
        None => IdRef::Nobody,
    }
}

// The resource ids of a list with commas between them.
#[tactic(auto, unfolding(crate::specs::Selection::ids_in))]
fn ids_in(alloc: Global, schema: &Schema, text: &str) -> Mem<List<IdRef>>
    ensures { IfOk result (λ ids. ids ≡ ids_in schema.now text.now) }
{
    let mut ids = Vec::new(alloc);
    let mut rest = text;
    while let Some((first, others)) = cut(rest) {
        ids.push(id_of(schema, first))?;
        rest = others;
    }
    ids.push(id_of(schema, rest))?;
    Ok(List::of(ids))
}

// The filter that resource ids stand for, where there are any.
#[tactic(auto, unfolding(crate::specs::Selection::ids_filter))]
fn ids_filter(alloc: Global, schema: &Schema, listed: &Listed) -> Mem<Option<Filter>>
    ensures { IfOk result (λ filter. filter ≡ ids_filter schema.now (said_by listed.now.pairs)) }
{
    let Some(text) = listed.value_of("resourceId") else {
        return Ok(None);
    };
    let ids = ids_in(alloc, schema, text.as_str())?;
    Ok(Some(Filter::Ids(ids)))
}

// ---- filter

// The document of a text.
fn document_in(alloc: Global, text: &str) -> Result<Element, AskFault>
    ensures { GivesBut AskFault.OutOfMemory (λ e. e) result (or_no_document (document text.now)) }
{
    match read_document(alloc, text.as_bytes()) {
        Ok(root) => Ok(root),
        Err(DocFault::OutOfMemory) => Err(AskFault::OutOfMemory),
        Err(_) => Err(refused(alloc, 8, "filter")),
    }
}

// The refusal that a fault of a filter is.
#[tactic(auto, unfolding(query_docs::specs::Elements::refusal_by))]
fn refusal_by(alloc: Global, fault: &FilterDocFault) -> AskFault
    ensures { (result ≡ AskFault.OutOfMemory → ⊥) → result ≡ refusal_by fault.now }
{
    let (row, locator) = fault.refusal();
    refused(alloc, row, locator)
}

// The filter of an element.
fn filter_of(
    alloc: Global,
    schema: &Schema,
    kind: Option<u32>,
    root: &Element,
) -> Result<Filter, AskFault>
    ensures { GivesBut AskFault.OutOfMemory (λ f. f) result
        (or_refusal (filter_of None schema.now kind root.now)) }
{
    match read_filter(alloc, root, kind, schema) {
        Ok(filter) => Ok(filter),
        Err(FilterDocFault::OutOfMemory) => Err(AskFault::OutOfMemory),
        Err(fault) => Err(refusal_by(alloc, &fault)),
    }
}

// The filter of a text, for a type or for none.
#[tactic(auto, unfolding(crate::specs::Selection::filter_in))]
fn filter_in(
    alloc: Global,
    schema: &Schema,
    kind: Option<u32>,
    text: &str,
) -> Result<Filter, AskFault>
    ensures { GivesBut AskFault.OutOfMemory (λ f. f) result (filter_in schema.now kind text.now) }
{
    let root = document_in(alloc, text)?;
    filter_of(alloc, schema, kind, &root)
}

// The filter that comes as a document, where one does.
#[tactic(auto, unfolding(crate::specs::Selection::document_filter))]
fn document_filter(
    alloc: Global,
    schema: &Schema,
    kind: Option<u32>,
    listed: &Listed,
) -> Result<Option<Filter>, AskFault>
    ensures { GivesBut AskFault.OutOfMemory (λ f. f) result
        (document_filter schema.now kind (said_by listed.now.pairs)) }
{
    let Some(text) = listed.value_of("filter") else {
        return Ok(None);
    };
    let filter = filter_in(alloc, schema, kind, text.as_str())?;
    Ok(Some(filter))
}

// ---- bbox

// A corner at two coordinates.
#[tactic(auto, unfolding(crate::specs::Selection::corner_at))]
fn corner_at(x: &str, y: &str) -> Option<Pos>
    ensures { result ≡ corner_at x.now y.now }
{
    read_position(x, y).ok()
}

// The box between two corners.
#[tactic(auto, unfolding(crate::specs::Selection::box_between))]
fn box_between(low_x: &str, low_y: &str, high_x: &str, high_y: &str) -> Option<Box2>
    ensures { result ≡ box_between low_x.now low_y.now high_x.now high_y.now }
{
    let low = corner_at(low_x, low_y)?;
    let high = corner_at(high_x, high_y)?;
    Box2::new(low, high).ok()
}

// The box of a text.
#[tactic(auto, using(crate::proofs::Splits::no_system, crate::proofs::Splits::system_named), unfolding(crate::specs::Selection::box_in))]
fn box_in(schema: &Schema, text: &str) -> Option<Box2>
    ensures { result ≡ box_in schema.now text.now }
{
    let (low_x, rest) = cut(text)?;
    let (low_y, rest) = cut(rest)?;
    let (high_x, rest) = cut(rest)?;
    let Some((high_y, name)) = cut(rest) else {
        return box_between(low_x, low_y, high_x, rest);
    };
    if !is_listed(schema.srs.items(), name) {
        return None;
    }
    box_between(low_x, low_y, high_x, high_y)
}

// The filter that a box stands for, where one is given.
#[tactic(auto, unfolding(crate::specs::Selection::box_filter))]
fn box_filter(alloc: Global, schema: &Schema, listed: &Listed) -> Result<Option<Filter>, AskFault>
    ensures { GivesBut AskFault.OutOfMemory (λ f. f) result
        (box_filter schema.now (said_by listed.now.pairs)) }
{
    let Some(text) = listed.value_of("bbox") else {
        return Ok(None);
    };
    let Some(area) = box_in(schema, text.as_str()) else {
        return Err(refused(alloc, 11, "bbox"));
    };
    Ok(Some(Filter::InBox {
        property: None,
        area,
    }))
}

// ---- one of them

// Refuses several of them, by the name of the last.
#[tactic(auto, unfolding(crate::specs::Selection::alone, wfs_ends::specs::Read::unless))]
fn alone(alloc: Global, ids: bool, filter: bool, area: bool) -> Result<(), AskFault>
    ensures { GivesBut AskFault.OutOfMemory (λ _. tt) result (alone ids filter area) }
{
    if area && (ids || filter) {
        return Err(refused(alloc, 11, "bbox"));
    }
    if ids && filter {
        return Err(refused(alloc, 11, "filter"));
    }
    Ok(())
}

fn or_else(first: Option<Filter>, other: Option<Filter>) -> Option<Filter>
    ensures { result ≡ or_else first other }
{
    match first {
        Some(filter) => Some(filter),
        None => other,
    }
}

// The one filter that is given, where one is.
#[tactic(auto, unfolding(crate::specs::Selection::only_one))]
fn only_one(
    alloc: Global,
    ids: Option<Filter>,
    filter: Option<Filter>,
    area: Option<Filter>,
) -> Result<Option<Filter>, AskFault>
    ensures { GivesBut AskFault.OutOfMemory (λ f. f) result (only_one ids filter area) }
{
    let judged = alone(alloc, ids.is_some(), filter.is_some(), area.is_some());
    let one = or_else(ids, or_else(filter, area));
    judged?;
    Ok(one)
}

// What resource ids and a box stand for.
#[tactic(auto, unfolding(crate::specs::Selection::others))]
fn others(
    alloc: Global,
    schema: &Schema,
    listed: &Listed,
) -> Result<(Option<Filter>, Option<Filter>), AskFault>
    ensures { GivesBut AskFault.OutOfMemory (λ x. x) result
        (others schema.now (said_by listed.now.pairs)) }
{
    let area = box_filter(alloc, schema, listed)?;
    let ids = ids_filter(alloc, schema, listed)?;
    Ok((ids, area))
}

// What features are chosen by.
#[tactic(auto, unfolding(crate::specs::Selection::chosen, crate::specs::Selection::others))]
pub(crate) fn chosen(
    alloc: Global,
    schema: &Schema,
    kind: Option<u32>,
    listed: &Listed,
) -> Result<Option<Filter>, AskFault>
    ensures { GivesBut AskFault.OutOfMemory (λ f. f) result
        (chosen schema.now kind (said_by listed.now.pairs)) }
{
    let filter = document_filter(alloc, schema, kind, listed)?;
    let (ids, area) = others(alloc, schema, listed)?;
    only_one(alloc, ids, filter, area)
}
