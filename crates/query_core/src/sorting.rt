//! Features of a view, sorted by the keys of a query.

ghost use Rattle.std.specs.Prelude.{◌≡◌, IfOk, map};
ghost use Rattle.query_core.specs.Selecting.{held, ids_of};
ghost use Rattle.query_core.specs.Sorting.{sorted};

use crate::keyed::sorted_ids;
use feature_values::{Feature, Rid};
use fes_filter::{FeatureView, SortKey};
use std::alloc::Global;
use wfs_ends::{List, Mem};

/// Identifiers of features.
pub(crate) fn ids_of(alloc: Global, features: &[&Feature]) -> Mem<List<Rid>>
    ensures { IfOk result (λ ids. ids ≡ ids_of (map (λ f. f.now) features.now)) }
{
    let mut ids = Vec::with_capacity(alloc, features.len())?;
    for feature in features {
        ids.push(feature.id)?;
    }
    Ok(List::of(ids))
}

/// The features that a view has of these identifiers, in their order.
pub(crate) fn held<'a, V: FeatureView>(
    alloc: Global,
    view: &'a V,
    ids: &[Rid],
) -> Mem<Vec<&'a Feature>>
    ensures { IfOk result (λ fs. map (λ f. f.now) fs.items ≡ held (V.features view.now) ids.now) }
{
    let mut features = Vec::with_capacity(alloc, ids.len())?;
    for id in ids {
        let Some(feature) = view.get(*id) else {
            continue;
        };
        features.push(feature)?;
    }
    Ok(features)
}

/// The identifiers of features that the view has, sorted by the keys (OGC 09-026r2, section 7.12): texts by their bytes, whole
/// numbers by value, false before true; nulls first where a key ascends, and last where it descends; ties in default order,
/// whatever the order of `rows`. Identifiers that the view has not are left out.
pub fn sort_rows<V: FeatureView>(
    alloc: Global,
    view: &V,
    rows: List<Rid>,
    sort: &List<SortKey>,
) -> Mem<List<Rid>>
    ensures { IfOk result (λ ids. ids ≡ ids_of
        (sorted sort.now (held (V.features view.now) rows))) }
{
    let features = held(alloc, view, rows.items())?;
    sorted_ids(alloc, sort.items(), &features)
}
