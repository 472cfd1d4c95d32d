//! What comes before each command's own work: the schema is loaded, and the store is started.

ghost use Rattle.std.specs.Prelude.{◌≡◌, IfOk, IfErr};
ghost use Rattle.feature_schema.specs.Rules.{KeepsRules};
ghost use Rattle.wfsd_commands.specs.Early.{SaysBadWords, SaysNoMemory, SaysUnloaded};
ghost use Rattle.wfsd_commands.specs.Starting.{AreStated, IsNotStarted, IsStarted};

use crate::done::{BAD_WORDS, Done, OUT_OF_MEMORY, READ_FAULT, SCHEMA_REFUSED, leave_disks};
use crate::load::Unloaded;
use disk_core::{Disk, Pair};
use feature_values::Schema;
use program_output::{say, say_refused};
use std::alloc::Global;
use wfs_ends::Sink;
use wfs_model::Limits;
use wfs_store::{OpenFault, Store};

/// Ends where there is no schema: one line says why.
pub fn end_unloaded<O: Sink, D: Disk>(out: &mut O, unloaded: &Unloaded, disks: Pair<D>) -> Done<D>
    ensures { SaysUnloaded unloaded.now disks (O.sink out.old) result (O.sink out.new) }
{
    match unloaded {
        Unloaded::Refused(fault) => {
            say_refused(out, fault);
            leave_disks(SCHEMA_REFUSED, disks)
        }
        Unloaded::Failed => {
            say(out, b"wfsd: cannot read\n");
            leave_disks(READ_FAULT, disks)
        }
        Unloaded::OutOfMemory => end_for_memory(out, disks),
    }
}

/// Ends where memory ran out before a store was started: one line says so.
pub fn end_for_memory<O: Sink, D: Disk>(out: &mut O, disks: Pair<D>) -> Done<D>
    ensures { SaysNoMemory disks (O.sink out.old) result (O.sink out.new) }
{
    say(out, b"wfsd: no memory\n");
    leave_disks(OUT_OF_MEMORY, disks)
}

/// Ends where the words are refused: one line says so.
pub fn end_for_words<O: Sink, D: Disk>(out: &mut O, disks: Pair<D>) -> Done<D>
    ensures { SaysBadWords disks (O.sink out.old) result (O.sink out.new) }
{
    say(out, b"wfsd: bad words\n");
    leave_disks(BAD_WORDS, disks)
}

/// The limits that each command has.
pub fn stated_limits() -> Limits
    ensures { AreStated result }
{
    Limits::stated()
}

/// Starts the store with the limits that are stated. What is answered, and what of the disks comes back, is as `Store::start` says.
pub fn start_store<D: Disk>(
    alloc: Global,
    disks: Pair<D>,
    schema: &Schema,
) -> Result<Store<D>, (Pair<D>, OpenFault)>
    requires rules { KeepsRules schema.now }
    ensures started { IfOk result (IsStarted D.Disk schema.now disks) }
    ensures refused { IfErr result (λ e. IsNotStarted D.Disk schema.now disks e.1 e.0) }
{
    Store::start(alloc, disks, schema, stated_limits())
}
