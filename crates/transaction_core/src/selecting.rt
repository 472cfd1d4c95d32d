//! Which features an action selects, and whether they are too many.

ghost use Rattle.std.specs.Prelude.{◌≡◌, IfOk, Some, [], filter};
ghost use Rattle.std.specs.Option.{option_copied};
ghost use Rattle.fes_filter.specs.View.{IsInOrder};
ghost use Rattle.query_core.specs.Selecting.{ids_of};
ghost use Rattle.wfs_model.specs.Acts.{selects, is_aim, are_too_many};

use feature_values::Rid;
use fes_filter::{FeatureView, Filter, Query, Steps};
use query_core::select;
use std::alloc::Global;
use std::sync::ledger::Ledger;
use wfs_ends::{List, Mem};
use wfs_model::Action;

// An equal filter, where there is one.
fn copied(alloc: Global, passing: Option<&Filter>) -> Mem<Option<Filter>>
    ensures { IfOk result (λ o. o ≡ option_copied passing.entry) }
{
    match passing {
        None => Ok(None),
        Some(passing) => Ok(Some(passing.copy(alloc)?)),
    }
}

// A query of the features of a type that pass a filter, in default order.
fn query_of(alloc: Global, kind: u32, passing: Option<&Filter>) -> Mem<Query>
    ensures { IfOk result (λ q. q ≡ record {
      kind = Some kind;
      filter = option_copied passing.entry;
      sort = [];
    }) }
{
    Ok(Query {
        kind: Some(kind),
        filter: copied(alloc, passing)?,
        sort: List::of(Vec::new(alloc)),
    })
}

// The identifiers of the features of a type that pass a filter, in default order.
fn aims<V: FeatureView, L: Ledger>(
    alloc: Global,
    view: &V,
    kind: u32,
    passing: Option<&Filter>,
    steps: &mut Steps<L>,
) -> Mem<List<Rid>>
    requires { IsInOrder (V.features view.now) }
    ensures { IfOk result (λ ids. ids ≡ ids_of
        (filter (is_aim kind (option_copied passing.entry)) (V.features view.now))) }
{
    let query = query_of(alloc, kind, passing)?;
    select(alloc, view, &query, steps)
}

/// The identifiers of the features that an action selects, in default order. The one call of `get` tells that the features of the
/// view are in order.
pub(crate) fn selected<V: FeatureView, L: Ledger>(
    alloc: Global,
    view: &V,
    action: &Action,
    steps: &mut Steps<L>,
) -> Mem<List<Rid>>
    ensures value { IfOk result (λ ids. ids ≡ ids_of
        (filter (selects action.now) (V.features view.now))) }
    ensures order { IsInOrder (V.features view.now) }
{
    let _ = view.get(Rid { kind: 0, number: 0 });
    match action {
        Action::Insert { .. } => Ok(List::of(Vec::new(alloc))),
        Action::Update { kind, filter, .. } => aims(alloc, view, *kind, filter.as_ref(), steps),
        Action::Replace {
            feature,
            filter,
            ..
        } => aims(alloc, view, feature.id.kind, Some(filter), steps),
        Action::Delete { kind, filter } => aims(alloc, view, *kind, Some(filter), steps),
    }
}

/// Whether an action selected more features than it may be of.
#[tactic(auto, unfolding(wfs_model::specs::Acts::are_too_many))]
pub(crate) fn are_too_many(action: &Action, ids: &[Rid]) -> bool
    ensures { result ≡ are_too_many action.now ids.now }
{
    match action {
        Action::Replace { .. } => ids.len() > 1,
        Action::Insert { .. } | Action::Update { .. } | Action::Delete { .. } => false,
    }
}
