//! What actions have come to so far.

ghost use Rattle.std.specs.Prelude.{◌≡◌, ◌++◌, IfOk, OnOk, List, [], map};
ghost use Rattle.feature_values.specs.declared.feature.Feature.{Feature};
ghost use Rattle.wfs_model.specs.Acts.{told, noted, begun};
ghost use Rattle.transaction_core.specs.Plan.{planned_by};
ghost use Rattle.transaction_core.specs.Planning.{planning_of};

use crate::planned::Planned;
use feature_values::Rid;
use std::alloc::Global;
use wfs_ends::{List, Mem, OutOfMemory, Text};
use wfs_model::{Action, Change, Made, Part, Reply};

/// Beside the features that stand then: the counters, and what the actions made, changed and selected.
#[derive(Drop)]
pub(crate) struct Tally {
    /// How many numbers were given, by type.
    pub counters: Vec<u64>,
    pub inserted: Vec<Made>,
    pub updated: Vec<Made>,
    pub replaced: Vec<Made>,
    pub deleted: u64,
    /// The changes of single features, in order.
    pub parts: Vec<Part>,
    /// The features that were selected, in order.
    pub touched: Vec<Rid>,
}

/// The tally before the first action.
pub(crate) fn begin(alloc: Global, counters: &[u64]) -> Mem<Tally>
    ensures { IfOk result (λ t. (features : List Feature)
        → planning_of features t ≡ record {
          at = begun features counters.now;
          parts = [];
          touched = [];
        }) }
{
    Ok(Tally {
        counters: Vec::from_slice(alloc, counters)?,
        inserted: Vec::new(alloc),
        updated: Vec::new(alloc),
        replaced: Vec::new(alloc),
        deleted: 0,
        parts: Vec::new(alloc),
        touched: Vec::new(alloc),
    })
}

// An equal handle.
fn copy_handle(alloc: Global, handle: &Option<Text>) -> Mem<Option<Text>>
    ensures { IfOk result (λ h. h ≡ handle.now) }
{
    match handle {
        None => Ok(None),
        Some(text) => Ok(Some(text.copy(alloc)?)),
    }
}

/// What is told of a feature that an action made or changed.
pub(crate) fn told(alloc: Global, handle: &Option<Text>, id: Rid) -> Mem<Made>
    ensures { IfOk result (λ m. m ≡ told handle.now id) }
{
    Ok(Made {
        id,
        handle: copy_handle(alloc, handle)?,
    })
}

// What is told of features with these identifiers, behind what was told before.
fn tell_all(alloc: Global, made: &mut Vec<Made>, handle: &Option<Text>, ids: &[Rid]) -> Mem<()>
    ensures { OnOk result (made.new.items ≡ made.old.items ++ map (told handle.now) ids.now) }
{
    for id in ids {
        made.push(told(alloc, handle, *id)?)?;
    }
    Ok(())
}

/// Notes what an action tells of the features that it selected.
#[tactic(auto, unfolding(wfs_model::specs::Acts::noted))]
pub(crate) fn note(alloc: Global, tally: &mut Tally, action: &Action, ids: &[Rid]) -> Mem<()>
    ensures { OnOk result ((features : List Feature)
        → planning_of features tally.new
        ≡ (let plan = planning_of features tally.old
        in record plan { at = noted action.now ids.now plan.at })) }
{
    match action {
        Action::Insert { .. } => Ok(()),
        Action::Update { handle, .. } => tell_all(alloc, &mut tally.updated, handle, ids),
        Action::Replace { handle, .. } => tell_all(alloc, &mut tally.replaced, handle, ids),
        Action::Delete { .. } => {
            let count = ids.len() as u64;
            tally.deleted = tally.deleted.checked_add(count).ok_or(OutOfMemory)?;
            Ok(())
        }
    }
}

/// Notes the features that an action selected.
pub(crate) fn touch(touched: &mut Vec<Rid>, ids: &[Rid]) -> Mem<()>
    ensures { OnOk result (touched.new.items ≡ touched.old.items ++ ids.now) }
{
    for id in ids {
        touched.push(*id)?;
    }
    Ok(())
}

/// What a tally comes to. It takes no memory.
pub(crate) fn planned(tally: Tally) -> Planned
    ensures { (features : List Feature) → result ≡ planned_by (planning_of features tally) }
{
    Planned {
        change: Change::Rows(List::of(tally.parts)),
        reply: Reply::Transacted {
            deleted: tally.deleted,
            inserted: List::of(tally.inserted),
            updated: List::of(tally.updated),
            replaced: List::of(tally.replaced),
        },
        touched: List::of(tally.touched),
    }
}
