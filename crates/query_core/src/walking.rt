//! The plain way to select: all features of a type, one after the other.

ghost use Rattle.std.specs.Prelude.{◌≡◌, ◌+◌, ◌≤◌, IfOk, OnOk, Some, map, filter, length, if◌then◌else◌};
ghost use Rattle.fes_filter.specs.View.{IsInOrder};
ghost use Rattle.query_core.specs.Finding.{start_of, is_past};
ghost use Rattle.query_core.specs.Selecting.{is_of_type, is_selected};

use feature_values::{Feature, Rid};
use fes_filter::{FeatureView, Query, Steps, truth};
use std::alloc::Global;
use std::sync::ledger::Ledger;
use wfs_ends::Mem;

/// Whether a query selects a feature.
#[tactic(auto, unfolding(crate::specs::Selecting::is_selected))]
pub(crate) fn is_selected<L: Ledger>(
    alloc: Global,
    query: &Query,
    feature: &Feature,
    steps: &mut Steps<L>,
) -> Mem<bool>
    ensures value { IfOk result (λ b. b ≡ is_selected query.now feature.now) }
    ensures steps { steps.new ≤ steps.old + (if is_of_type query.now.kind feature.now then 1
        else 0) }
{
    if let Some(kind) = query.kind {
        if feature.id.kind != kind {
            return Ok(false);
        }
    }
    match &query.filter {
        None => Ok(true),
        Some(filter) => truth(alloc, filter, feature, steps),
    }
}

/// A place behind which all features of a type stand; for all types the beginning.
fn start_of(kind: Option<u32>) -> Option<Rid>
    ensures { result ≡ start_of kind }
{
    match kind {
        None | Some(0) => None,
        Some(kind) => Some(Rid {
            kind: kind - 1,
            number: u64::MAX,
        }),
    }
}

/// Whether a place is behind all features of a type.
fn is_past(kind: Option<u32>, id: Rid) -> bool
    ensures { result ≡ is_past kind id }
{
    match kind {
        None => false,
        Some(kind) => kind < id.kind,
    }
}

/// The place right behind a feature.
fn place_behind(feature: &Feature) -> Option<Rid>
    ensures { result ≡ Some feature.now.id }
{
    Some(feature.id)
}

/// The features that a query selects, in default order. It begins at the first feature of the query's type and ends at the first
/// of a later one.
pub(crate) fn walk<'a, V: FeatureView, L: Ledger>(
    alloc: Global,
    view: &'a V,
    query: &Query,
    steps: &mut Steps<L>,
) -> Mem<Vec<&'a Feature>>
    ensures value { IfOk result (λ fs. map (λ f. f.now) fs.items
        ≡ filter (is_selected query.now) (V.features view.now)) }
    ensures order { OnOk result (IsInOrder (V.features view.now)) }
    ensures steps { steps.new ≤ steps.old + length
        (filter (is_of_type query.now.kind) (V.features view.now)) }
{
    let mut found = Vec::new(alloc);
    let mut after = start_of(query.kind);
    let mut place = 0;
    while let Some(feature) = view.walk(after, &mut place) {
        if is_past(query.kind, feature.id) {
            return Ok(found);
        }
        after = place_behind(feature);
        if !is_selected(alloc, query, feature, steps)? {
            continue;
        }
        found.push(feature)?;
    }
    Ok(found)
}
