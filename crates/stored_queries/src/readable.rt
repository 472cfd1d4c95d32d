//! Whether a text reads wherever a parameter stands.

ghost use Rattle.std.specs.Prelude.{◌≡◌, IfOk, map, flat_map};
ghost use Rattle.std.specs.List.{list_all};
ghost use Rattle.std.specs.Option.{option_copied};
ghost use Rattle.fes_filter.specs.Check.{subject, type_in};
ghost use Rattle.wfs_model.specs.Filled.{kind_at, is_read_as, is_parameter, kind_beside, kinds_in, is_readable};
ghost use Rattle.stored_queries.specs.Kinds.{kinds_of};

use feature_values::{FeatureType, Schema, ValueFault, ValueKind, read_as};
use fes_filter::{Expr, Filter, Query, type_in};
use std::alloc::Global;
use wfs_ends::{List, Mem, OutOfMemory, Text};

/// The property of a comparison, the first if both sides are one.
pub(crate) fn subject(left: &Expr, right: &Expr) -> Option<u32>
    ensures { result ≡ subject left.now right.now }
{
    match (left, right) {
        (Expr::Property(property), _) => Some(*property),
        (_, Expr::Property(property)) => Some(*property),
        _ => None,
    }
}

/// The kind of a property of the type.
pub(crate) fn kind_at(of_type: Option<&FeatureType>, property: Option<u32>) -> Option<ValueKind>
    ensures { result ≡ kind_at (option_copied of_type.entry) property }
{
    let property = of_type?.properties.items().get(property? as usize)?;
    Some(property.kind)
}

/// Whether a text reads as a kind. It is not copied.
#[tactic(auto, unfolding(feature_values::specs::Reads::read_as))]
fn is_read_as(alloc: Global, text: &Text, kind: Option<ValueKind>) -> Mem<bool>
    ensures { IfOk result (λ b. b ≡ is_read_as text.now kind) }
{
    match kind {
        None => Ok(false),
        Some(ValueKind::Words) => Ok(true),
        Some(kind) => match read_as(alloc, kind, text.as_str()) {
            Ok(_) => Ok(true),
            Err(ValueFault::OutOfMemory) => Err(OutOfMemory),
            Err(_) => Ok(false),
        },
    }
}

fn is_parameter(place: usize, expr: &Expr) -> bool
    ensures { result ≡ is_parameter place expr.now }
{
    match expr {
        Expr::Property(_) | Expr::Literal(_) => false,
        Expr::Parameter(other) => *other as usize == place,
    }
}

/// A parameter, and the text that is given for it.
#[derive(Clone, Copy)]
struct Given<'a> {
    place: usize,
    text: &'a Text,
}

/// Whether a text reads as a property's kind, where one of two expressions beside it is the parameter.
fn reads_beside(
    alloc: Global,
    of_type: Option<&FeatureType>,
    given: Given,
    property: Option<u32>,
    a: &Expr,
    b: &Expr,
) -> Mem<bool>
    ensures { IfOk result (λ reads. reads ≡ list_all (is_read_as given.entry.text.now)
        (kind_beside (option_copied of_type.entry) given.entry.place property a.now b.now)) }
{
    if is_parameter(given.place, a) || is_parameter(given.place, b) {
        is_read_as(alloc, given.text, kind_at(of_type, property))
    } else {
        Ok(true)
    }
}

/// Whether a text reads wherever the parameter stands in a filter.
#[cycle(reads_in)]
fn reads_in(
    alloc: Global,
    of_type: Option<&FeatureType>,
    given: Given,
    filter: &Filter,
) -> Mem<bool>
    ensures { IfOk result (λ reads. reads ≡ list_all (is_read_as given.entry.text.now)
        (kinds_of (option_copied of_type.entry) given.entry.place filter.now)) }
{
    match filter {
        Filter::Both(parts) => reads_in_all(alloc, of_type, given, parts),
        Filter::Either(parts) => reads_in_all(alloc, of_type, given, parts),
        Filter::Not(part) => reads_in(alloc, of_type, given, part.item()),
        Filter::Compare { left, right, .. } => reads_beside(
            alloc,
            of_type,
            given,
            subject(left, right),
            left,
            right,
        ),
        Filter::Between {
            property,
            low,
            high,
        } => reads_beside(alloc, of_type, given, Some(*property), low, high),
        Filter::Like { .. }
        | Filter::IsNull(_)
        | Filter::Ids(_)
        | Filter::InBox { .. }
        | Filter::Meets { .. }
        | Filter::Apart { .. } => Ok(true),
    }
}

#[cycle(reads_in)]
fn reads_in_all(
    alloc: Global,
    of_type: Option<&FeatureType>,
    given: Given,
    parts: &List<Filter>,
) -> Mem<bool>
    ensures { IfOk result (λ reads. reads ≡ list_all (is_read_as given.entry.text.now)
        (flat_map (λ part. part) (map (kinds_of (option_copied of_type.entry) given.entry.place)
        parts.now))) }
{
    for part in parts.items() {
        if !reads_in(alloc, of_type, given, part)? {
            return Ok(false);
        }
    }
    Ok(true)
}

fn reads_in_query(alloc: Global, schema: &Schema, given: Given, query: &Query) -> Mem<bool>
    ensures { IfOk result (λ reads. reads ≡ list_all (is_read_as given.entry.text.now)
        (kinds_in (type_in schema.now query.now.kind) given.entry.place query.now.filter)) }
{
    match &query.filter {
        None => Ok(true),
        Some(filter) => reads_in(alloc, type_in(schema, query.kind), given, filter),
    }
}

/// Whether a text reads as each kind that the places of a parameter ask for. A place in a list of identifiers takes any text.
pub(crate) fn is_readable(
    alloc: Global,
    schema: &Schema,
    queries: &[Query],
    place: usize,
    text: &Text,
) -> Mem<bool>
    ensures { IfOk result (λ reads. reads ≡ is_readable schema.now queries.now place text.now) }
{
    let given = Given { place, text };
    for query in queries {
        if !reads_in_query(alloc, schema, given, query)? {
            return Ok(false);
        }
    }
    Ok(true)
}
