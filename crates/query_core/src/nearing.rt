//! The identifiers that a view gives near a box.

ghost use Rattle.std.specs.Prelude.{◌≡◌, ◌≤◌, length, IfOk};
ghost use Rattle.std.specs.List.Sorted.{IsStrictlySortedBy};
ghost use Rattle.query_core.specs.Finding.{end_of, HasNear};
ghost use Rattle.query_core.specs.Sorting.{rid_order};
ghost use Rattle.query_core.specs.Steps.{over_types};

use crate::asking::each_in_order;
use feature_values::Rid;
use fes_filter::FeatureView;
use geom_core::Box2;
use std::alloc::Global;
use wfs_ends::Mem;

/// A place behind all features of the type of this one, and before those of the next.
fn end_of(id: Rid) -> Option<Rid>
    ensures place { result ≡ end_of id.kind }
    ensures within { id.number ≤ 18_446_744_073_709_551_615 }
{
    Some(Rid {
        kind: id.kind,
        number: u64::MAX,
    })
}

/// Those of all types. Each type that has a feature is asked once.
fn near_of_all<V: FeatureView>(alloc: Global, view: &V, area: &Box2) -> Mem<Vec<Rid>>
    ensures whole { IfOk result (λ ids. HasNear None area.now (V.features view.now) ids.items) }
    ensures few { IfOk result (λ ids. length ids.items ≤ over_types
        (λ k. V.most_near view.now k area.now) (V.schema view.now) None) }
{
    let mut ids = Vec::new(alloc);
    let mut after = None;
    while let Some(feature) = view.next(after) {
        let near = view.near(alloc, feature.id.kind, area)?;
        ids.extend_from_slice(near.items())?;
        after = end_of(feature.id);
    }
    Ok(ids)
}

/// Those of a type, or of all types where none is named.
fn near_of<V: FeatureView>(alloc: Global, view: &V, kind: Option<u32>, area: &Box2) -> Mem<Vec<Rid>>
    ensures whole { IfOk result (λ ids. HasNear kind area.now (V.features view.now) ids.items) }
    ensures few { IfOk result (λ ids. length ids.items ≤ over_types
        (λ k. V.most_near view.now k area.now) (V.schema view.now) kind) }
{
    match kind {
        None => near_of_all(alloc, view, area),
        Some(kind) => Ok(view.near(alloc, kind, area)?.into_items()),
    }
}

/// The identifiers of all features of a type, or of all types, that are near a box, and maybe others: in default order, each once.
pub(crate) fn near_in_order<V: FeatureView>(
    alloc: Global,
    view: &V,
    kind: Option<u32>,
    area: &Box2,
) -> Mem<Vec<Rid>>
    ensures order { IfOk result (λ ids. IsStrictlySortedBy rid_order ids.items) }
    ensures whole { IfOk result (λ ids. HasNear kind area.now (V.features view.now) ids.items) }
    ensures few { IfOk result (λ ids. length ids.items ≤ over_types
        (λ k. V.most_near view.now k area.now) (V.schema view.now) kind) }
{
    let ids = near_of(alloc, view, kind, area)?;
    each_in_order(ids)
}
