//! Actions, each on what the earlier ones left, and what they come to.

ghost use Rattle.std.specs.Prelude.{◌≡◌, ◌≤◌, OnOk, All, length};
ghost use Rattle.wfs_ends.specs.Read.{each};
ghost use Rattle.fes_filter.specs.View.{IsInOrder};
ghost use Rattle.wfs_model.specs.Acts.{touched_by};
ghost use Rattle.wfs_model.specs.OfSchema.{IsActionOf, IsOfSchema};
ghost use Rattle.wfs_model.specs.Plans.{planned, planned_all};
ghost use Rattle.wfs_model.specs.State.{State};
ghost use Rattle.transaction_core.specs.Plan.{Answers, IsTransaction, if_planned, transaction, with_these};
ghost use Rattle.transaction_core.specs.Planning.{planning_of, worked, worked_or_not, ComesTo, may_of};

use crate::fault::PlanFault;
use crate::guard::Guard;
use crate::inserting::insert_all;
use crate::laying::turn_all;
use crate::naming::named_if;
use crate::permitting::permit;
use crate::planned::Planned;
use crate::refusing::refused;
use crate::selecting::{are_too_many, selected};
use crate::tally::{Tally, begin, note, planned, touch};
use feature_overlay::Overlay;
use feature_values::{Rid, Schema};
use fes_filter::{FeatureView, Steps};
use lock_table::LockTable;
use std::alloc::Global;
use std::sync::ledger::Ledger;
use wfs_ends::{List, Mem};
use wfs_model::{Action, Request};

// Changes the features that an action selected.
fn work<'a, V: FeatureView>(
    alloc: Global,
    overlay: &mut Overlay<'a, V>,
    tally: &mut Tally,
    action: &Action,
    ids: &[Rid],
) -> Mem<()>
    requires order { let features = ⟦<Overlay<'a, V> as FeatureView>⟧.features in IsInOrder
        (features overlay.old) }
    requires ids { let features = ⟦<Overlay<'a, V> as FeatureView>⟧.features in ids.now
        ≡ touched_by action.now (planning_of (features overlay.old) tally.old).at }
    requires fitting { let schema = ⟦<Overlay<'a, V> as FeatureView>⟧.schema in IsActionOf
        (schema overlay.old) action.now }
    ensures worked { let features = ⟦<Overlay<'a, V> as FeatureView>⟧.features in OnOk result
        (planning_of (features overlay.new) tally.new
        ≡ worked action.now (planning_of (features overlay.old) tally.old)) }
    ensures schema { let schema = ⟦<Overlay<'a, V> as FeatureView>⟧.schema in OnOk result
        (schema overlay.new ≡ schema overlay.old) }
{
    turn_all(alloc, overlay, &mut tally.parts, action, ids)?;
    note(alloc, tally, action, ids)?;
    touch(&mut tally.touched, ids)
}

// Changes the features that an action selects, where it may.
fn change<'a, V: FeatureView, L: Ledger>(
    alloc: Global,
    overlay: &mut Overlay<'a, V>,
    tally: &mut Tally,
    guard: &Guard<'_>,
    action: &Action,
    steps: &mut Steps<L>,
) -> Result<(), PlanFault>
    requires fitting { let schema = ⟦<Overlay<'a, V> as FeatureView>⟧.schema in IsActionOf
        (schema overlay.old) action.now }
    ensures worked { let features = ⟦<Overlay<'a, V> as FeatureView>⟧.features in ComesTo result
        (worked_or_not (may_of guard.now) (planning_of (features overlay.old) tally.old) action.now)
        (planning_of (features overlay.new) tally.new) }
    ensures schema { let schema = ⟦<Overlay<'a, V> as FeatureView>⟧.schema in OnOk result
        (schema overlay.new ≡ schema overlay.old) }
{
    let ids = selected(alloc, overlay, action, steps)?;
    if are_too_many(action, ids.items()) {
        return Err(refused(alloc, 17, "Filter"));
    }
    permit(alloc, guard, ids.items())?;
    work(alloc, overlay, tally, action, ids.items())?;
    Ok(())
}

// Carries out an action.
fn act<'a, V: FeatureView, L: Ledger>(
    alloc: Global,
    overlay: &mut Overlay<'a, V>,
    tally: &mut Tally,
    guard: &Guard<'_>,
    action: &Action,
    steps: &mut Steps<L>,
) -> Result<(), PlanFault>
    requires counters { let schema = ⟦<Overlay<'a, V> as FeatureView>⟧.schema in length
        tally.old.counters.items ≡ length (schema overlay.old).types }
    requires fitting { let schema = ⟦<Overlay<'a, V> as FeatureView>⟧.schema in IsActionOf
        (schema overlay.old) action.now }
    ensures planned { let features = ⟦<Overlay<'a, V> as FeatureView>⟧.features in ComesTo result
        (planned (may_of guard.now) (planning_of (features overlay.old) tally.old) action.now)
        (planning_of (features overlay.new) tally.new) }
    ensures schema { let schema = ⟦<Overlay<'a, V> as FeatureView>⟧.schema in OnOk result
        (schema overlay.new ≡ schema overlay.old) }
{
    if let Action::Insert { handle, features } = action {
        insert_all(alloc, overlay, tally, handle, features.items())?;
        return Ok(());
    }
    change(alloc, overlay, tally, guard, action, steps)
}

// Carries out actions, each on what the earlier ones left.
fn act_all<'a, V: FeatureView, L: Ledger>(
    alloc: Global,
    overlay: &mut Overlay<'a, V>,
    tally: &mut Tally,
    guard: &Guard<'_>,
    actions: &[Action],
    steps: &mut Steps<L>,
) -> Result<(), PlanFault>
    requires counters { let schema = ⟦<Overlay<'a, V> as FeatureView>⟧.schema in length
        tally.old.counters.items ≡ length (schema overlay.old).types }
    requires fitting { let schema = ⟦<Overlay<'a, V> as FeatureView>⟧.schema in All
        (IsActionOf (schema overlay.old)) actions.now }
    ensures { let features = ⟦<Overlay<'a, V> as FeatureView>⟧.features in ComesTo result
        (each (planned (may_of guard.now)) (planning_of (features overlay.old) tally.old)
        actions.now) (planning_of (features overlay.new) tally.new) }
{
    for action in actions {
        act(alloc, overlay, tally, guard, action, steps)?;
    }
    Ok(())
}

// What actions come to, each on what the earlier ones left.
fn plan_with<V: FeatureView, L: Ledger>(
    alloc: Global,
    view: &V,
    counters: &[u64],
    guard: &Guard<'_>,
    actions: &[Action],
    steps: &mut Steps<L>,
) -> Result<Planned, PlanFault>
    requires counters { length counters.now ≡ length (V.schema view.now).types }
    requires fitting { All (IsActionOf (V.schema view.now)) actions.now }
    ensures { Answers result (if_planned (planned_all (may_of guard.now) (V.features view.now)
        counters.now actions.now)) }
{
    let mut overlay = Overlay::over(alloc, view);
    let mut tally = begin(alloc, counters)?;
    match act_all(alloc, &mut overlay, &mut tally, guard, actions, steps) {
        Ok(()) => Ok(planned(tally)),
        Err(fault) => Err(fault),
    }
}

/// What a transaction comes to at a moment, or why it is refused: its parts are judged in order, first the lock that it names, then
/// each action on what the earlier ones left (OGC 09-025r2, section 15.2). Nothing is changed. The schema is the view's. Counters say
/// how many numbers were given, by type.
pub fn plan<V: FeatureView, L: Ledger>(
    alloc: Global,
    view: &V,
    schema: &Schema,
    counters: &List<u64>,
    locks: &LockTable,
    request: &Request,
    moment: u64,
    steps: &mut Steps<L>,
) -> Result<Planned, PlanFault>
    requires schema { V.schema view.now ≡ schema.now }
    requires transaction { IsTransaction request.now }
    requires fitting { IsOfSchema schema.now request.now }
    requires counters { length counters.now ≡ length schema.now.types }
    requires later { locks.now.last ≤ moment }
    ensures { (state : State) → Answers result
        (transaction schema.now (with_these state (V.features view.now) counters.now locks.now)
        moment request.now) }
{
    let Request::Transact { lock, actions, .. } = request else {
        unreachable!();
    };
    let number = match named_if(alloc, locks, moment, *lock) {
        Ok(number) => number,
        Err(fault) => return Err(fault),
    };
    let guard = Guard {
        schema,
        locks,
        moment,
        number,
    };
    plan_with(
        alloc,
        view,
        counters.items(),
        &guard,
        actions.items(),
        steps,
    )
}
