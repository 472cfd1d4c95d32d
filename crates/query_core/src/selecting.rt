//! The features that a query selects, in its order.

ghost use Rattle.std.specs.Prelude.{◌≡◌, ◌+◌, ◌≤◌, IfOk, OnOk, map, filter};
ghost use Rattle.fes_filter.specs.View.{IsInOrder};
ghost use Rattle.query_core.specs.Selecting.{is_selected, selected_ids};
ghost use Rattle.query_core.specs.Steps.{most_steps};

use crate::asking::{box_asked, ids_asked};
use crate::keyed::sorted_ids;
use crate::looking::{look_up_both, look_up_ids, look_up_near};
use crate::sorting::ids_of;
use crate::walking::walk;
use feature_values::{Feature, Rid};
use fes_filter::{FeatureView, Query, Steps};
use std::alloc::Global;
use std::sync::ledger::Ledger;
use wfs_ends::{List, Mem};

/// The features that a query selects, in default order: looked up where it asks for identifiers or a box, else found by a walk.
#[tactic(auto, unfolding(crate::specs::Steps::most_steps))]
fn found<'a, V: FeatureView, L: Ledger>(
    alloc: Global,
    view: &'a V,
    query: &Query,
    steps: &mut Steps<L>,
) -> Mem<Vec<&'a Feature>>
    ensures value { IfOk result (λ fs. map (λ f. f.now) fs.items
        ≡ filter (is_selected query.now) (V.features view.now)) }
    ensures order { OnOk result (IsInOrder (V.features view.now)) }
    ensures steps { steps.new ≤ steps.old + most_steps (V.most_near view.now) (V.schema view.now)
        (V.features view.now) query.now }
{
    match (box_asked(query), ids_asked(query)) {
        (None, None) => walk(alloc, view, query, steps),
        (None, Some(references)) => look_up_ids(alloc, view, query, references, steps),
        (Some(area), None) => look_up_near(alloc, view, query, area, steps),
        (Some(area), Some(references)) => {
            look_up_both(alloc, view, query, references, area, steps)
        }
    }
}

/// The identifiers of the features that a query selects, in its order (OGC 09-025r2, section 7.9.2): those of its type, or of all
/// types where it names none, of which its filter is true. Where the filter is an `InBox`, or a `Both` with one among its direct
/// parts, it is put to no more features than the view gives near the first such box.
pub fn select<V: FeatureView, L: Ledger>(
    alloc: Global,
    view: &V,
    query: &Query,
    steps: &mut Steps<L>,
) -> Mem<List<Rid>>
    ensures value { IfOk result (λ ids. ids ≡ selected_ids (V.features view.now) query.now) }
    ensures steps { steps.new ≤ steps.old + most_steps (V.most_near view.now) (V.schema view.now)
        (V.features view.now) query.now }
{
    let found = found(alloc, view, query, steps)?;
    let keys = query.sort.items();
    if keys.is_empty() {
        return ids_of(alloc, &found);
    }
    sorted_ids(alloc, keys, &found)
}
