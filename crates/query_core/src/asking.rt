//! The identifiers and the box that a query asks for.

ghost use Rattle.std.specs.Prelude.{◌≡◌, ◌≤◌, length, IfOk};
ghost use Rattle.std.specs.List.{list_any};
ghost use Rattle.std.specs.List.Sorted.{IsStrictlySortedBy};
ghost use Rattle.std.specs.Option.{option_map, option_copied};
ghost use Rattle.fes_filter.specs.Truth.{is_of};
ghost use Rattle.query_core.specs.Finding.{listed_by, area_of, first_of, ids_asked, box_asked, known, known_ids};
ghost use Rattle.query_core.specs.Selecting.{is_among};
ghost use Rattle.query_core.specs.Sorting.{rid_order};
ghost use Rattle.fes_filter.specs.declared.filter.Filter.{out-Filter};

use crate::ordering::rid_order;
use feature_values::Rid;
use fes_filter::{Filter, IdRef, Query};
use geom_core::Box2;
use std::alloc::Global;
use wfs_ends::Mem;

/// The identifiers that an operator lists.
fn listed(filter: &Filter) -> Option<&[IdRef]>
    ensures { option_map (λ ids. ids.now) result ≡ listed_by (out-Filter filter.now) }
{
    match filter {
        Filter::Ids(ids) => Some(ids.items()),
        _ => None,
    }
}

/// Those of the first part that lists some.
fn first_listed(parts: &[Filter]) -> Option<&[IdRef]>
    ensures { option_map (λ ids. ids.now) result ≡ first_of listed_by parts.now }
{
    for part in parts {
        if let Some(ids) = listed(part) {
            return Some(ids);
        }
    }
    None
}

/// The identifiers of which each selected feature has one, where the filter is a list of them, or a `Both` with one among its
/// direct parts, of which the first counts.
#[tactic(auto, unfolding(crate::specs::Finding::ids_asked))]
pub(crate) fn ids_asked(query: &Query) -> Option<&[IdRef]>
    ensures { option_map (λ ids. ids.now) result ≡ ids_asked query.now.filter }
{
    match &query.filter {
        None => None,
        Some(Filter::Both(parts)) => first_listed(parts.items()),
        Some(filter) => listed(filter),
    }
}

/// The box of an operator.
fn area_of(filter: &Filter) -> Option<&Box2>
    ensures { option_copied result ≡ area_of (out-Filter filter.now) }
{
    match filter {
        Filter::InBox { area, .. } => Some(area),
        _ => None,
    }
}

/// That of the first part that has one.
fn first_area(parts: &[Filter]) -> Option<&Box2>
    ensures { option_copied result ≡ first_of area_of parts.now }
{
    for part in parts {
        if let Some(area) = area_of(part) {
            return Some(area);
        }
    }
    None
}

/// The box that each selected feature is near, where the filter is an `InBox`, or a `Both` with one among its direct parts, of
/// which the first counts.
#[tactic(auto, unfolding(crate::specs::Finding::box_asked))]
pub(crate) fn box_asked(query: &Query) -> Option<&Box2>
    ensures { option_copied result ≡ box_asked query.now.filter }
{
    match &query.filter {
        None => None,
        Some(Filter::Both(parts)) => first_area(parts.items()),
        Some(filter) => area_of(filter),
    }
}

/// The identifier that a reference stands for, if it is known.
fn known(reference: IdRef) -> Option<Rid>
    ensures { result ≡ known reference }
{
    match reference {
        IdRef::Known(id) => Some(id),
        IdRef::Nobody | IdRef::Parameter(_) => None,
    }
}

/// Those that are known.
fn known_ids(alloc: Global, references: &[IdRef]) -> Mem<Vec<Rid>>
    ensures { IfOk result (λ v. v.items ≡ known_ids references.now) }
{
    let mut ids = Vec::new(alloc);
    for reference in references {
        let Some(id) = known(*reference) else {
            continue;
        };
        ids.push(id)?;
    }
    Ok(ids)
}

/// The same identifiers in default order, each once.
pub(crate) fn each_in_order(mut ids: Vec<Rid>) -> Mem<Vec<Rid>>
    ensures order { IfOk result (λ v. IsStrictlySortedBy rid_order v.items) }
    ensures same { IfOk result (λ v. (id : Rid) → is_among v.items id ≡ is_among ids.items id) }
    ensures few { IfOk result (λ v. length v.items ≤ length ids.items) }
{
    ids.sort_by(|a, b| rid_order(*a, *b))?;
    ids.dedup();
    Ok(ids)
}

/// Those that are known, in default order, each once.
pub(crate) fn known_in_order(alloc: Global, references: &[IdRef]) -> Mem<Vec<Rid>>
    ensures order { IfOk result (λ v. IsStrictlySortedBy rid_order v.items) }
    ensures same { IfOk result (λ v. (id : Rid)
        → is_among v.items id ≡ list_any (is_of id) references.now) }
    ensures few { IfOk result (λ v. length v.items ≤ length (known_ids references.now)) }
{
    let ids = known_ids(alloc, references)?;
    each_in_order(ids)
}
