//! A step of the store in a seat's turn.

ghost use Rattle.std.specs.Prelude.{◌≡◌, ◌≤◌, All, OnOk, OnErr};
ghost use Rattle.query_docs.specs.Reading.{IsKeptText};
ghost use Rattle.shared_store.specs.Counters.{IsSettled, Owes};
ghost use Rattle.shared_store.specs.Openings.{IsOneOf};
ghost use Rattle.wfs_model.specs.Changing.{IsChange};
ghost use Rattle.wfs_model.specs.OfSchema.{IsOfSchema, stored_in};
ghost use Rattle.wfs_store.specs.Stepped.{IsStepOf};

use crate::counter::Counter;
use disk_core::Disk;
use wfs_model::{Entry, Reply};
use wfs_store::StepFault;

/// Takes up an entry of the seat whose turn it is, as the store does: it has the conditions and the answers of a step of the store. The
/// tallies of other seats stay as they are, and so does the opening. What an entry leaves is still to be published.
///
/// # Errors
///
/// As of a step of the store. The history is then as before.
pub fn step_in_turn<D: Disk>(counter: &mut Counter<D>, entry: Entry) -> Result<Reply, StepFault>
    requires settled { IsSettled counter.old }
    requires change { IsChange entry.request }
    requires fitting { IsOfSchema counter.old.store.schema entry.request }
    requires texts { All (IsKeptText counter.old.store.schema) (stored_in entry.request) }
    requires seat { entry.seat ≤ 16 }
    ensures step { IsStepOf D.moment D.since D.faults counter.old.store entry result
        counter.new.store }
    ensures turn { IsOneOf D.faults counter.old.store entry.seat counter.new.store }
    ensures publisher { counter.new.publisher ≡ counter.old.publisher }
    ensures owes { OnOk result (Owes counter.new) }
    ensures settled { OnErr result (IsSettled counter.new) }
{
    // what is published stands among the given pairs, and what is kept is kept well
    let _shown = counter.publisher.shown();
    let _schema = counter.store.features().schema();
    counter.store.step(entry)
}
