//! Machines that are made anew from what the journal and the history have.

ghost use Rattle.std.specs.Prelude.{◌≡◌, IfOk, OnOk};
ghost use Rattle.wfs_model.specs.State.{opened};
ghost use Rattle.wfs_model.specs.History.{after_all};
ghost use Rattle.wfs_world.specs.Scene.{kept_by};
ghost use Rattle.wfs_world.specs.Kept.{ArePlayed, AreSteps};

use feature_values::Schema;
use std::alloc::Global;
use wfs_ends::Mem;
use wfs_machine::Plain;
use wfs_model::{Change, Entry};

/// A machine that has just opened on a journal with these changes.
pub(crate) fn open_on(alloc: Global, schema: &Schema, changes: &[Change], number: u64) -> Mem<Plain>
    requires { ArePlayed schema.now changes.now }
    ensures { IfOk result (λ m. m ≡ record {
      schema = schema.now;
      state = opened (kept_by schema.now changes.now) number;
    }) }
{
    let mut machine = Plain::new(alloc, schema.copy(alloc)?)?;
    machine.reopen(0);
    for change in changes {
        machine.apply(change)?;
    }
    machine.reopen(number);
    Ok(machine)
}

/// Takes the steps of entries of a history.
pub(crate) fn step_all(machine: &mut Plain, entries: &[Entry]) -> Mem<()>
    requires { AreSteps machine.old.schema machine.old.state entries.now }
    ensures schema { machine.new.schema ≡ machine.old.schema }
    ensures state { OnOk result (machine.new.state
        ≡ after_all machine.old.schema machine.old.state entries.now) }
{
    for entry in entries {
        machine.step(entry)?;
    }
    Ok(())
}
