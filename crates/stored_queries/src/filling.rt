//! What stands in the place of parameters when texts are given for them.

ghost use Rattle.std.specs.Prelude.{◌≡◌, IfOk, map};
ghost use Rattle.std.specs.Option.{option_copied, option_map};
ghost use Rattle.wfs_model.specs.Filled.{literal_of, read_at, filled_expr, id_at, filled_id, filled_filter, filled};

use crate::readable::{kind_at, subject};
use feature_values::{FeatureType, Schema, Value, ValueFault, ValueKind, read_as, read_rid};
use fes_filter::{Expr, Filter, IdRef, Query, type_in};
use std::alloc::Global;
use wfs_ends::{Boxed, List, Mem, OutOfMemory, Text};

/// The value that a text reads as, in the place of a parameter. Words share the text, however many places the parameter has.
#[tactic(auto, unfolding(feature_values::specs::Reads::read_as))]
fn read_at(alloc: Global, place: u32, kind: Option<ValueKind>, text: Option<&Text>) -> Mem<Expr>
    ensures { IfOk result (λ expr. expr ≡ read_at place kind (option_copied text.entry)) }
{
    let (Some(kind), Some(text)) = (kind, text) else {
        return Ok(Expr::Parameter(place));
    };
    if matches!(kind, ValueKind::Words) {
        return Ok(Expr::Literal(Value::Words(text.copy(alloc)?)));
    }
    match read_as(alloc, kind, text.as_str()) {
        Ok(value) => Ok(Expr::Literal(value)),
        Err(ValueFault::OutOfMemory) => Err(OutOfMemory),
        Err(_) => Ok(Expr::Parameter(place)),
    }
}

/// An expression beside a property of a kind.
fn filled_expr(alloc: Global, texts: &[Text], kind: Option<ValueKind>, expr: &Expr) -> Mem<Expr>
    ensures { IfOk result (λ e. e ≡ filled_expr texts.now kind expr.now) }
{
    match expr {
        Expr::Property(_) | Expr::Literal(_) => expr.copy(alloc),
        Expr::Parameter(place) => read_at(alloc, *place, kind, texts.get(*place as usize)),
    }
}

fn id_at(schema: &Schema, place: u32, text: Option<&Text>) -> IdRef
    ensures { result ≡ id_at schema.now place (option_copied text.entry) }
{
    let Some(text) = text else {
        return IdRef::Parameter(place);
    };
    match read_rid(schema, text.as_str()) {
        None => IdRef::Nobody,
        Some(id) => IdRef::Known(id),
    }
}

/// A parameter gives way to the feature that its text names; what names none selects nothing.
fn filled_id(schema: &Schema, texts: &[Text], reference: IdRef) -> IdRef
    ensures { result ≡ filled_id schema.now texts.now reference }
{
    match reference {
        IdRef::Known(_) | IdRef::Nobody => reference,
        IdRef::Parameter(place) => id_at(schema, place, texts.get(place as usize)),
    }
}

fn filled_ids(
    alloc: Global,
    schema: &Schema,
    texts: &[Text],
    references: &[IdRef],
) -> Mem<List<IdRef>>
    ensures { IfOk result (λ all. all ≡ map (filled_id schema.now texts.now) references.now) }
{
    let mut all = Vec::with_capacity(alloc, references.len())?;
    for reference in references {
        all.push(filled_id(schema, texts, *reference))?;
    }
    Ok(List::of(all))
}

/// A filter of a type with the texts of its parameters.
#[cycle(filled_filter)]
fn filled_filter(
    alloc: Global,
    schema: &Schema,
    of_type: Option<&FeatureType>,
    texts: &[Text],
    filter: &Filter,
) -> Mem<Filter>
    ensures { IfOk result (λ f. f ≡ filled_filter schema.now (option_copied of_type.entry) texts.now
        filter.now) }
{
    match filter {
        Filter::Both(parts) => Ok(Filter::Both(filled_parts(
            alloc, schema, of_type, texts, parts,
        )?)),
        Filter::Either(parts) => Ok(Filter::Either(filled_parts(
            alloc, schema, of_type, texts, parts,
        )?)),
        Filter::Not(part) => {
            let filled = filled_filter(alloc, schema, of_type, texts, part.item())?;
            Ok(Filter::Not(Boxed::new(alloc, filled)?))
        }
        Filter::Compare {
            by,
            left,
            right,
            fold,
        } => {
            let kind = kind_at(of_type, subject(left, right));
            let left = filled_expr(alloc, texts, kind, left)?;
            let right = filled_expr(alloc, texts, kind, right)?;
            Ok(Filter::Compare {
                by: *by,
                left,
                right,
                fold: *fold,
            })
        }
        Filter::Between {
            property,
            low,
            high,
        } => {
            let kind = kind_at(of_type, Some(*property));
            let low = filled_expr(alloc, texts, kind, low)?;
            let high = filled_expr(alloc, texts, kind, high)?;
            Ok(Filter::Between {
                property: *property,
                low,
                high,
            })
        }
        Filter::Ids(ids) => Ok(Filter::Ids(filled_ids(alloc, schema, texts, ids.items())?)),
        Filter::Like { .. }
        | Filter::IsNull(_)
        | Filter::InBox { .. }
        | Filter::Meets { .. }
        | Filter::Apart { .. } => filter.copy(alloc),
    }
}

#[cycle(filled_filter)]
fn filled_parts(
    alloc: Global,
    schema: &Schema,
    of_type: Option<&FeatureType>,
    texts: &[Text],
    parts: &List<Filter>,
) -> Mem<List<Filter>>
    ensures { IfOk result (λ all. all ≡ map (filled_filter schema.now (option_copied of_type.entry)
        texts.now) parts.now) }
{
    let mut all = Vec::new(alloc);
    for part in parts.items() {
        all.push(filled_filter(alloc, schema, of_type, texts, part)?)?;
    }
    Ok(List::of(all))
}

/// The same of a filter that need not be there.
fn filled_if(
    alloc: Global,
    schema: &Schema,
    of_type: Option<&FeatureType>,
    texts: &[Text],
    filter: &Option<Filter>,
) -> Mem<Option<Filter>>
    ensures { IfOk result (λ f. f ≡ option_map
        (filled_filter schema.now (option_copied of_type.entry) texts.now) filter.now) }
{
    match filter {
        None => Ok(None),
        Some(filter) => Ok(Some(filled_filter(alloc, schema, of_type, texts, filter)?)),
    }
}

/// A query with the texts of its parameters, by their places (OGC 09-025r2, section 7.9.3).
#[tactic(auto, unfolding(wfs_model::specs::Filled::filled))]
pub(crate) fn filled(alloc: Global, schema: &Schema, texts: &[Text], query: &Query) -> Mem<Query>
    ensures { IfOk result (λ q. q ≡ filled schema.now texts.now query.now) }
{
    let of_type = type_in(schema, query.kind);
    let filter = filled_if(alloc, schema, of_type, texts, &query.filter)?;
    Ok(Query {
        kind: query.kind,
        filter,
        sort: List::of(Vec::from_slice(alloc, query.sort.items())?),
    })
}
