//! The command `drill`: a list of requests that a number fixes, carried out with the store.

ghost use Rattle.std.specs.Prelude.{◌≡◌, ◌⊎◌, [], IfSome, map};
ghost use Rattle.std.specs.String.{string_bytes};
ghost use Rattle.feature_schema.specs.Rules.{KeepsRules};
ghost use Rattle.program_output.specs.Lines.{GivesOr};
ghost use Rattle.wfsd_commands.specs.Asking.{rounds_in};
ghost use Rattle.wfsd_commands.specs.Becoming.{IsLeft};
ghost use Rattle.wfsd_commands.specs.Drilled.{Drills, DrillsBy, DrillsIf, DrillsWith, IsTold, Stops, SumsUp};
ghost use Rattle.wfsd_commands.specs.Early.{Ends};
ghost use Rattle.wfsd_commands.specs.Left.{LeavesStore};
ghost use Rattle.wfsd_commands.specs.Statuses.{stopped_line, stopped_status};

use crate::done::{Done, leave_disks, leave_store};
use crate::drilling::{Sums, run};
use crate::load::load_schema;
use crate::starting::{end_for_memory, end_for_words, end_unloaded, start_store};
use crate::statuses::{say_rounds, say_stopped, say_unopened};
use disk_core::{Disk, Pair};
use feature_values::Schema;
use std::alloc::Global;
use wfs_ends::{Sink, Source};
use wfs_store::{StepFault, Store, stands};
use wfs_words::{Command, WordFault, read_words};

/// Carries out the drill that the words ask for, and tells in one line how many rounds it had, how many entries its history has, how many features
/// there are then, and the sums of what its counts found and of what its locks took.
///
/// The status is 0; or 2 where the words are not those of a drill; 3, 4 or 8 as for a conversation; 5 where a disk failed; 6 where the disks hold no
/// journal, or none of the schema; 7 where the output failed; 11 where the journal or the store has no room.
pub fn drill<Q: Source, O: Sink, D: Disk>(
    alloc: Global,
    words: &[String],
    schema: &mut Q,
    out: &mut O,
    disks: Pair<D>,
) -> Done<D>
    ensures drills { DrillsBy D.Disk (map string_bytes words.now) disks
        (record { schema = Q.source schema.old; out = O.sink out.old })
        result
        (record { schema = Q.source schema.new; out = O.sink out.new }) }
    ensures left { IfSome result.store (IsLeft D.Disk disks) }
{
    match read_words(alloc, words) {
        Ok(command) => drill_by(alloc, command, schema, out, disks),
        Err(WordFault::Refused) => end_for_words(out, disks),
        Err(WordFault::OutOfMemory) => end_for_memory(out, disks),
    }
}

// Carries out a drill, where that is the command.
fn drill_by<Q: Source, O: Sink, D: Disk>(
    alloc: Global,
    command: Command,
    schema: &mut Q,
    out: &mut O,
    disks: Pair<D>,
) -> Done<D>
    ensures drills { DrillsIf D.Disk (rounds_in command) disks
        (record { schema = Q.source schema.old; out = O.sink out.old })
        result
        (record { schema = Q.source schema.new; out = O.sink out.new }) }
    ensures left { IfSome result.store (IsLeft D.Disk disks) }
{
    match rounds_in(command) {
        Some(rounds) => drill_rounds(alloc, rounds, schema, out, disks),
        None => end_for_words(out, disks),
    }
}

// How many rounds a drill is to have.
fn rounds_in(command: Command) -> Option<u32>
    ensures { result ≡ rounds_in command }
{
    match command {
        Command::Drill(rounds) => Some(rounds),
        Command::Talk | Command::Check | Command::Compact | Command::Serve { .. } => None,
    }
}

/// Carries out a drill of so many rounds.
pub fn drill_rounds<Q: Source, O: Sink, D: Disk>(
    alloc: Global,
    rounds: u32,
    schema: &mut Q,
    out: &mut O,
    disks: Pair<D>,
) -> Done<D>
    ensures drills { Drills D.Disk rounds disks
        (record { schema = Q.source schema.old; out = O.sink out.old })
        result
        (record { schema = Q.source schema.new; out = O.sink out.new }) }
    ensures left { IfSome result.store (IsLeft D.Disk disks) }
{
    match load_schema(alloc, schema) {
        Ok(schema) => drill_on(alloc, rounds, &schema, out, disks),
        Err(unloaded) => end_unloaded(out, &unloaded, disks),
    }
}

// Starts the store, and carries out a drill with it.
fn drill_on<O: Sink, D: Disk>(
    alloc: Global,
    rounds: u32,
    schema: &Schema,
    out: &mut O,
    disks: Pair<D>,
) -> Done<D>
    requires rules { KeepsRules schema.now }
    ensures drills { DrillsWith D.Disk schema.now rounds disks (O.sink out.old) result
        (O.sink out.new) }
    ensures left { IfSome result.store (IsLeft D.Disk disks) }
{
    match start_store(alloc, disks, schema) {
        Ok(store) => drill_with(alloc, rounds, schema, out, store),
        Err((disks, fault)) => leave_disks(say_unopened(out, fault), disks),
    }
}

// Carries out a drill with a store that was started.
fn drill_with<O: Sink, D: Disk>(
    alloc: Global,
    rounds: u32,
    schema: &Schema,
    out: &mut O,
    store: Store<D>,
) -> Done<D>
    requires schema { store.schema ≡ schema.now }
    requires rules { KeepsRules schema.now }
    requires fresh { store.entries ≡ [] }
    requires rests { store.begun ≡ None }
    ensures drilled { SumsUp D.Disk rounds store (O.sink out.old) result (O.sink out.new)
        ⊎ Stops D.Disk rounds store (O.sink out.old) result (O.sink out.new) }
    ensures left { IfSome result.store (IsLeft D.Disk store.disks) }
{
    let mut store = store;
    let ran = run(alloc, &mut store, schema, rounds);
    stands(&store);
    match ran {
        Ok(sums) => sum_up(out, rounds, store, sums),
        Err(fault) => stop(out, store, fault),
    }
}

// Tells what a drill came to, where all its requests were carried out.
fn sum_up<O: Sink, D: Disk>(out: &mut O, rounds: u32, store: Store<D>, sums: Sums) -> Done<D>
    ensures { IsTold rounds store sums.matched sums.locked (O.sink out.old) result
        (O.sink out.new) }
{
    let (Some(matched), Some(locked)) = (sums.matched, sums.locked) else {
        return stop(out, store, StepFault::OutOfMemory);
    };
    let entries = store.entries();
    let features = store.features().count();
    let status = say_rounds(out, u64::from(rounds), entries, features, matched, locked);
    leave_store(status, store)
}

// Tells why a drill was not carried out whole.
fn stop<O: Sink, D: Disk>(out: &mut O, store: Store<D>, fault: StepFault) -> Done<D>
    ensures leaves { LeavesStore (stopped_status fault) store result }
    ensures says { GivesOr (O.sink out.old) (stopped_line fault) (O.sink out.new) }
{
    let status = say_stopped(out, fault);
    leave_store(status, store)
}
