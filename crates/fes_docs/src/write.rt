//! Filters written as elements.

ghost use Rattle.std.specs.Prelude.{◌≡◌, map, None, Some, IfOk};
ghost use Rattle.std.specs.Option.{option_copied};
ghost use Rattle.fes_filter.specs.declared.filter.Filter.{out-Filter};
ghost use Rattle.fes_docs.specs.Written.{id_tree, ids_tree, operator_tree, content_by, filter_tree};

use crate::areas::{box_tree, shape_tree};
use crate::operands::id_tree;
use crate::predicates::{between_tree, compare_tree, like_tree, null_tree};
use crate::written::{alone, parent};
use doc_tree::Element;
use feature_values::Schema;
use fes_filter::{Filter, IdRef};
use std::alloc::Global;
use wfs_ends::{List, Mem, Text};

// ---- ResourceId

fn id_trees(
    alloc: Global,
    parameters: Option<&List<Text>>,
    schema: &Schema,
    ids: &[IdRef],
) -> Mem<Vec<Element>>
    ensures { IfOk result (λ v. v.items ≡ map (id_tree (option_copied parameters.entry) schema.now)
        ids.now) }
{
    let mut found = Vec::new(alloc);
    for id in ids {
        found.push(id_tree(alloc, parameters, schema, *id)?)?;
    }
    Ok(found)
}

// As one operator.
fn ids_tree(
    alloc: Global,
    parameters: Option<&List<Text>>,
    schema: &Schema,
    ids: &[IdRef],
) -> Mem<Element>
    ensures { IfOk result (λ e. e ≡ ids_tree (option_copied parameters.entry) schema.now ids.now) }
{
    match ids {
        [id] => id_tree(alloc, parameters, schema, *id),
        _ => {
            let children = id_trees(alloc, parameters, schema, ids)?;
            parent(alloc, "Or", children)
        }
    }
}

// ---- all operators

#[cycle(tree)]
fn part_trees(
    alloc: Global,
    parameters: Option<&List<Text>>,
    schema: &Schema,
    kind: Option<u32>,
    parts: &List<Filter>,
) -> Mem<Vec<Element>>
    ensures { IfOk result (λ v. v.items ≡ map (operator_tree (option_copied parameters.entry)
        schema.now kind) parts.now) }
{
    let mut found = Vec::new(alloc);
    for part in parts.items() {
        found.push(operator_tree(alloc, parameters, schema, kind, part)?)?;
    }
    Ok(found)
}

// A filter as the one operator that it is.
#[cycle(tree)]
fn operator_tree(
    alloc: Global,
    parameters: Option<&List<Text>>,
    schema: &Schema,
    kind: Option<u32>,
    filter: &Filter,
) -> Mem<Element>
    ensures { IfOk result (λ e. e ≡ operator_tree (option_copied parameters.entry) schema.now kind
        filter.now) }
{
    match filter {
        Filter::Both(parts) => {
            let children = part_trees(alloc, parameters, schema, kind, parts)?;
            parent(alloc, "And", children)
        }
        Filter::Either(parts) => {
            let children = part_trees(alloc, parameters, schema, kind, parts)?;
            parent(alloc, "Or", children)
        }
        Filter::Not(part) => {
            let child = operator_tree(alloc, parameters, schema, kind, part.item())?;
            parent(alloc, "Not", alone(alloc, child)?)
        }
        Filter::Compare {
            by,
            left,
            right,
            fold,
        } => compare_tree(alloc, parameters, schema, kind, *by, left, right, *fold),
        Filter::Like { property, pattern } => {
            like_tree(alloc, schema, kind, *property, pattern.items())
        }
        Filter::IsNull(property) => null_tree(alloc, schema, kind, *property),
        Filter::Between {
            property,
            low,
            high,
        } => between_tree(alloc, parameters, schema, kind, *property, low, high),
        Filter::Ids(ids) => ids_tree(alloc, parameters, schema, ids.items()),
        Filter::InBox { property, area } => box_tree(alloc, schema, kind, *property, *area),
        Filter::Meets { property, shape } => {
            shape_tree(alloc, schema, kind, "Intersects", *property, shape)
        }
        Filter::Apart { property, shape } => {
            shape_tree(alloc, schema, kind, "Disjoint", *property, shape)
        }
    }
}

// ---- the whole

fn content_of(
    alloc: Global,
    parameters: Option<&List<Text>>,
    schema: &Schema,
    kind: Option<u32>,
    filter: &Filter,
) -> Mem<Vec<Element>>
    ensures { IfOk result (λ v. v.items ≡ content_by (option_copied parameters.entry) schema.now
        (operator_tree (option_copied parameters.entry) schema.now kind filter.now)
        (out-Filter filter.now)) }
{
    if let Filter::Ids(ids) = filter {
        return id_trees(alloc, parameters, schema, ids.items());
    }
    let operator = operator_tree(alloc, parameters, schema, kind, filter)?;
    alone(alloc, operator)
}

#[tactic(auto, unfolding(crate::specs::Written::filter_tree))]
fn tree_of(
    alloc: Global,
    parameters: Option<&List<Text>>,
    schema: &Schema,
    kind: Option<u32>,
    filter: &Filter,
) -> Mem<Element>
    ensures { IfOk result (λ e. e ≡ filter_tree (option_copied parameters.entry) schema.now kind
        filter.now) }
{
    let content = content_of(alloc, parameters, schema, kind, filter)?;
    parent(alloc, "Filter", content)
}

/// The element `fes:Filter` (OGC 09-026r2, section 7) of a filter for a type of the schema by its number, or for no type.
/// A filter that `read_filter` gave for the same schema and type reads back as itself.
///
/// Only what is not the default is written: `matchCase` as `false` alone, and no `matchAction`. `PropertyIsLike` has `*`,
/// `.` and `!` as `wildCard`, `singleChar` and `escapeChar`. A `ValueReference` is the name of the property with the
/// schema's prefix, and a literal the value's text: whole numbers in decimal, without a sign `+` and without leading
/// zeros, and `true` and `false`. `Nobody` is an empty `rid`. A geometry has the `gml:id` `g` and the first name of the
/// reference system, and an Envelope that name as its one attribute.
///
/// What `read_filter` never gives is written too: a property or a type that is not there has an empty name, a parameter,
/// a null and a geometry as a literal an empty text, and several identifiers where one operator is wanted stand in an
/// `Or`. `OutOfMemory`: there is no memory for the element.
pub fn filter_tree(
    alloc: Global,
    filter: &Filter,
    kind: Option<u32>,
    schema: &Schema,
) -> Mem<Element>
    ensures { IfOk result (λ e. e ≡ filter_tree None schema.now kind filter.now) }
{
    tree_of(alloc, None, schema, kind, filter)
}

/// The element of a filter in a stored text, as `filter_tree` writes it, but that a parameter is `${name}` with the name
/// at its place in the list, where it stands in a literal or a `rid`. Of a place that is not in the list the text is
/// empty. A filter that `read_filter_in` gave for the same schema, type and parameters reads back as itself.
///
/// `OutOfMemory`: there is no memory for the element.
pub fn filter_tree_in(
    alloc: Global,
    filter: &Filter,
    kind: Option<u32>,
    parameters: &List<Text>,
    schema: &Schema,
) -> Mem<Element>
    ensures { IfOk result (λ e. e ≡ filter_tree (Some parameters.now) schema.now kind filter.now) }
{
    tree_of(alloc, Some(parameters), schema, kind, filter)
}
