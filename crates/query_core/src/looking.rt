//! The quick way to select: features are looked up by the identifiers that a query asks for, or that a view gives near its box.

ghost use Rattle.std.specs.Prelude.{◌≡◌, ◌+◌, ◌≤◌, ◌&&◌, IfOk, OnOk, Some, All, map, filter, length, min};
ghost use Rattle.std.specs.List.Sorted.{IsStrictlySortedBy};
ghost use Rattle.feature_values.specs.declared.feature.Rid.{Rid};
ghost use Rattle.fes_filter.specs.View.{IsInOrder};
ghost use Rattle.query_core.specs.Finding.{ids_asked, box_asked, known_ids, HasSelected};
ghost use Rattle.query_core.specs.Selecting.{is_selected, is_among};
ghost use Rattle.query_core.specs.Sorting.{rid_order};
ghost use Rattle.query_core.specs.Steps.{over_types};

use crate::asking::known_in_order;
use crate::joining::those_among;
use crate::nearing::near_in_order;
use crate::sorting::held;
use crate::walking::is_selected;
use feature_values::{Feature, Rid};
use fes_filter::{FeatureView, IdRef, Query, Steps};
use geom_core::Box2;
use std::alloc::Global;
use std::sync::ledger::Ledger;
use wfs_ends::Mem;

/// Those that a query selects, in their order.
fn selected_of<'a, L: Ledger>(
    alloc: Global,
    query: &Query,
    features: &[&'a Feature],
    steps: &mut Steps<L>,
) -> Mem<Vec<&'a Feature>>
    ensures value { IfOk result (λ fs. map (λ f. f.now) fs.items
        ≡ filter (is_selected query.now) (map (λ f. f.now) features.now)) }
    ensures steps { steps.new ≤ steps.old + length features.now }
{
    let mut found = Vec::new(alloc);
    for feature in features {
        if !is_selected(alloc, query, *feature, steps)? {
            continue;
        }
        found.push(*feature)?;
    }
    Ok(found)
}

/// The features that a query selects, in default order, where they are among those of some identifiers. It takes a look-up for
/// each of these. The one call of `next` tells that the features of the view are in order.
fn look_up<'a, V: FeatureView, L: Ledger>(
    alloc: Global,
    view: &'a V,
    query: &Query,
    ids: &[Rid],
    steps: &mut Steps<L>,
) -> Mem<Vec<&'a Feature>>
    requires order { IsStrictlySortedBy rid_order ids.now }
    requires whole { HasSelected query.now (V.features view.now) ids.now }
    ensures value { IfOk result (λ fs. map (λ f. f.now) fs.items
        ≡ filter (is_selected query.now) (V.features view.now)) }
    ensures order { OnOk result (IsInOrder (V.features view.now)) }
    ensures steps { steps.new ≤ steps.old + length ids.now }
{
    let _ = view.next(None);
    let features = held(alloc, view, ids)?;
    selected_of(alloc, query, &features, steps)
}

/// The same where the query asks for identifiers.
pub(crate) fn look_up_ids<'a, V: FeatureView, L: Ledger>(
    alloc: Global,
    view: &'a V,
    query: &Query,
    references: &[IdRef],
    steps: &mut Steps<L>,
) -> Mem<Vec<&'a Feature>>
    requires { ids_asked query.now.filter ≡ Some references.now }
    ensures value { IfOk result (λ fs. map (λ f. f.now) fs.items
        ≡ filter (is_selected query.now) (V.features view.now)) }
    ensures order { OnOk result (IsInOrder (V.features view.now)) }
    ensures steps { steps.new ≤ steps.old + length (known_ids references.now) }
{
    let ids = known_in_order(alloc, references)?;
    look_up(alloc, view, query, &ids, steps)
}

/// The same where the query asks for a box.
pub(crate) fn look_up_near<'a, V: FeatureView, L: Ledger>(
    alloc: Global,
    view: &'a V,
    query: &Query,
    area: &Box2,
    steps: &mut Steps<L>,
) -> Mem<Vec<&'a Feature>>
    requires { box_asked query.now.filter ≡ Some area.now }
    ensures value { IfOk result (λ fs. map (λ f. f.now) fs.items
        ≡ filter (is_selected query.now) (V.features view.now)) }
    ensures order { OnOk result (IsInOrder (V.features view.now)) }
    ensures steps { steps.new ≤ steps.old + over_types (λ k. V.most_near view.now k area.now)
        (V.schema view.now) query.now.kind }
{
    let ids = near_in_order(alloc, view, query.kind, area)?;
    look_up(alloc, view, query, &ids, steps)
}

/// Those that are in both lists. The shorter one is gone through.
fn common(alloc: Global, ids: &[Rid], others: &[Rid]) -> Mem<Vec<Rid>>
    requires ids { IsStrictlySortedBy rid_order ids.now }
    requires others { IsStrictlySortedBy rid_order others.now }
    ensures order { IfOk result (λ both. IsStrictlySortedBy rid_order both.items) }
    ensures same { IfOk result (λ both. (id : Rid)
        → is_among both.items id ≡ (is_among ids.now id && is_among others.now id)) }
    ensures few { IfOk result (λ both. length both.items ≤ min (length ids.now)
        (length others.now)) }
{
    if ids.len() < others.len() {
        those_among(alloc, ids, others)
    } else {
        those_among(alloc, others, ids)
    }
}

/// The same where the query asks for identifiers and for a box.
pub(crate) fn look_up_both<'a, V: FeatureView, L: Ledger>(
    alloc: Global,
    view: &'a V,
    query: &Query,
    references: &[IdRef],
    area: &Box2,
    steps: &mut Steps<L>,
) -> Mem<Vec<&'a Feature>>
    requires ids { ids_asked query.now.filter ≡ Some references.now }
    requires area { box_asked query.now.filter ≡ Some area.now }
    ensures value { IfOk result (λ fs. map (λ f. f.now) fs.items
        ≡ filter (is_selected query.now) (V.features view.now)) }
    ensures order { OnOk result (IsInOrder (V.features view.now)) }
    ensures steps { steps.new ≤ steps.old + min (length (known_ids references.now))
        (over_types (λ k. V.most_near view.now k area.now) (V.schema view.now) query.now.kind) }
{
    let ids = known_in_order(alloc, references)?;
    let near = near_in_order(alloc, view, query.kind, area)?;
    let both = common(alloc, &ids, &near)?;
    look_up(alloc, view, query, &both, steps)
}
