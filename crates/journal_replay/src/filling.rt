//! What stored queries ask, which their texts tell.

ghost use Rattle.std.specs.Prelude.{◌≡◌, [], ◌∷◌, ◌++◌, IfOk, OnOk};
ghost use Rattle.wfs_ends.specs.Read.{GivesBut, each};
ghost use Rattle.recovery.specs.declared.replay.ReplayFault.TheVariants.{OutOfMemory as NoMemory};
ghost use Rattle.journal_replay.specs.Change.{asked_by, filled, next_filled, completed};

use feature_values::Schema;
use fes_filter::Query;
use query_docs::{StoredTextFault, read_text};
use recovery::ReplayFault;
use std::alloc::Global;
use wfs_ends::{List, Mem};
use wfs_model::{Change, StoredQuery};

// What a stored query asks, by its text.
#[tactic(auto, unfolding(crate::specs::Change::asked_by))]
fn asked_by(
    alloc: Global,
    schema: &Schema,
    stored: &StoredQuery,
) -> Result<List<Query>, ReplayFault>
    ensures { GivesBut NoMemory (λ x. x) result (asked_by schema.now stored.now) }
{
    match read_text(alloc, &stored.text, &stored.parameters, schema) {
        Ok(queries) => Ok(queries),
        Err(StoredTextFault::OutOfMemory) => Err(ReplayFault::OutOfMemory),
        Err(StoredTextFault::BadText) => Err(ReplayFault::NotOfSchema),
    }
}

fn asking(alloc: Global, stored: &StoredQuery, queries: List<Query>) -> Mem<StoredQuery>
    ensures { IfOk result (λ now. now ≡ record stored.now { queries = queries }) }
{
    let copy = stored.copy(alloc)?;
    Ok(StoredQuery {
        id: copy.id,
        title: copy.title,
        parameters: copy.parameters,
        queries,
        text: copy.text,
    })
}

#[tactic(auto, unfolding(crate::specs::Change::filled))]
fn filled(alloc: Global, schema: &Schema, stored: &StoredQuery) -> Result<StoredQuery, ReplayFault>
    ensures { GivesBut NoMemory (λ x. x) result (filled schema.now stored.now) }
{
    let queries = asked_by(alloc, schema, stored)?;
    let now = asking(alloc, stored, queries)?;
    Ok(now)
}

fn push(found: &mut Vec<StoredQuery>, stored: StoredQuery) -> Mem<()>
    ensures { OnOk result (found.new.items ≡ found.old.items ++ stored ∷ []) }
{
    found.push(stored)?;
    Ok(())
}

#[tactic(auto, unfolding(crate::specs::Change::next_filled))]
fn fill_one(
    alloc: Global,
    schema: &Schema,
    found: &mut Vec<StoredQuery>,
    stored: &StoredQuery,
) -> Result<(), ReplayFault>
    ensures { GivesBut NoMemory (λ _. found.new.items) result
        (next_filled schema.now found.old.items stored.now) }
{
    let now = filled(alloc, schema, stored)?;
    push(found, now)?;
    Ok(())
}

fn all_filled(
    alloc: Global,
    schema: &Schema,
    stored: &[StoredQuery],
) -> Result<List<StoredQuery>, ReplayFault>
    ensures { GivesBut NoMemory (λ x. x) result (each (next_filled schema.now) [] stored.now) }
{
    let mut found = Vec::new(alloc);
    for one in stored {
        fill_one(alloc, schema, &mut found, one)?;
    }
    Ok(List::of(found))
}

/// A change that was read of a body, with what its stored queries ask.
#[tactic(auto, unfolding(crate::specs::Change::completed))]
pub(crate) fn completed(
    alloc: Global,
    schema: &Schema,
    change: Change,
) -> Result<Change, ReplayFault>
    ensures { GivesBut NoMemory (λ x. x) result (completed schema.now change) }
{
    match change {
        Change::Created(stored) => {
            let all = all_filled(alloc, schema, stored.items())?;
            Ok(Change::Created(all))
        }
        change => Ok(change),
    }
}
