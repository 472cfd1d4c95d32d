//! What is asked, as the identifiers of the features that are selected. Queries of stored ones are made while their features are
//! selected, and dropped.

ghost use Rattle.std.specs.Prelude.{◌≡◌, ◌<◌, [], IfOk};
ghost use Rattle.wfs_ends.specs.Read.{GivesBut};
ghost use Rattle.query_core.specs.Selecting.{all_selected};
ghost use Rattle.wfs_model.specs.declared.fault.StoredFault.TheVariants.{OutOfMemory};
ghost use Rattle.wfs_model.specs.Expand.{expanded};
ghost use Rattle.stored_queries.specs.Meant.{all_meant, selected_behind, with_selected, asked_selected};

use crate::expanding::{Meant, expand_one};
use feature_values::{Rid, Schema};
use fes_filter::{FeatureView, Steps};
use query_core::{join_rows, select};
use std::alloc::Global;
use std::marker::Brand;
use std::sync::ledger::{Blank, Ledger};
use wfs_ends::{List, Mem};
use wfs_model::{Asked, StoredFault, StoredQuery};

fn nothing(alloc: Global) -> List<Rid>
    ensures { result ≡ [] }
{
    List::of(Vec::new(alloc))
}

/// Behind what is selected already, what several queries select, in their order, each feature at its first place.
fn selected_behind<V: FeatureView, L: Ledger>(
    alloc: Global,
    view: &V,
    before: List<Rid>,
    queries: &[Meant],
    steps: &mut Steps<L>,
) -> Mem<List<Rid>>
    ensures { IfOk result (λ ids. ids ≡ selected_behind (V.features view.now) before
        (all_meant queries.now)) }
{
    let mut ids = before;
    for meant in queries {
        let more = select(alloc, view, meant.query(), steps)?;
        ids = join_rows(alloc, ids, more)?;
    }
    Ok(ids)
}

/// What several queries select, in their order, each feature at its first place.
#[tactic(auto, unfolding(query_core::specs::Selecting::all_selected))]
pub fn all_selected<V: FeatureView, L: Ledger>(
    alloc: Global,
    view: &V,
    queries: &[Meant],
    steps: &mut Steps<L>,
) -> Mem<List<Rid>>
    ensures { IfOk result (λ ids. ids ≡ all_selected (V.features view.now)
        (all_meant queries.now)) }
{
    selected_behind(alloc, view, nothing(alloc), queries, steps)
}

fn selected_under<V: FeatureView, L: Ledger>(
    alloc: Global,
    view: &V,
    before: List<Rid>,
    queries: &[Meant],
    blank: Blank,
) -> Mem<List<Rid>>
    requires name { blank.name ≡ L.name }
    requires parts { blank.parts ≡ L.parts }
    requires some { 0 < blank.parts }
    ensures { IfOk result (λ ids. ids ≡ selected_behind (V.features view.now) before
        (all_meant queries.now)) }
{
    let mut steps = Steps::<L>::new(blank);
    selected_behind(alloc, view, before, queries, &mut steps)
}

/// The same, where nobody counts the steps.
fn selected_uncounted<V: FeatureView>(
    alloc: Global,
    view: &V,
    before: List<Rid>,
    queries: &[Meant],
) -> Mem<List<Rid>>
    ensures { IfOk result (λ ids. ids ≡ selected_behind (V.features view.now) before
        (all_meant queries.now)) }
{
    selected_under::<V, Brand>(alloc, view, before, queries, Blank::new(1))
}

/// What several queries select, where nobody counts the steps.
#[tactic(auto, unfolding(query_core::specs::Selecting::all_selected))]
pub(crate) fn selected_of<V: FeatureView>(
    alloc: Global,
    view: &V,
    queries: &[Meant],
) -> Mem<List<Rid>>
    ensures { IfOk result (λ ids. ids ≡ all_selected (V.features view.now)
        (all_meant queries.now)) }
{
    selected_uncounted(alloc, view, nothing(alloc), queries)
}

/// Behind what is selected already, what one that is asked selects. The queries that it stands for are dropped.
fn with_selected<V: FeatureView>(
    alloc: Global,
    view: &V,
    stored: &[StoredQuery],
    schema: &Schema,
    before: List<Rid>,
    one: &Asked,
) -> Result<List<Rid>, StoredFault>
    ensures { GivesBut OutOfMemory (λ ids. ids) result
        (with_selected (V.features view.now) before (expanded schema.now stored.now one.now)) }
{
    let queries = expand_one(alloc, stored, one, schema)?;
    Ok(selected_uncounted(alloc, view, before, &queries)?)
}

/// What all that is asked selects, in order, each feature at its first place. Its faults are those of `expand`. The queries of
/// one use of a stored query are held at a time.
pub fn select_asked<V: FeatureView>(
    alloc: Global,
    view: &V,
    stored: &[StoredQuery],
    schema: &Schema,
    asked: &[Asked],
) -> Result<List<Rid>, StoredFault>
    ensures { GivesBut OutOfMemory (λ ids. ids) result
        (asked_selected schema.now stored.now (V.features view.now) asked.now) }
{
    let mut ids = nothing(alloc);
    for one in asked {
        ids = with_selected(alloc, view, stored, schema, ids, one)?;
    }
    Ok(ids)
}
