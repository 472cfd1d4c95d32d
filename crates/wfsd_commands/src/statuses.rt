//! The lines by which commands end, and the statuses that go with them.

ghost use Rattle.std.specs.Prelude.{◌≡◌};
ghost use Rattle.program_output.specs.Lines.{GivesOr, counts_line, rounds_line, sides_line};
ghost use Rattle.wfsd_commands.specs.Statuses.{EndsWith, line_status, stopped_line, stopped_status, unopened_line, unopened_status};

use crate::done::{DONE, FULL, JOURNAL_REFUSED, OUT_OF_MEMORY, STORE_FAULT, WRITE_FAULT};
use durable_journal::{Counts, OpenFault};
use program_output::{put_counts, put_rounds, put_sides, say, say_place, say_record};
use wfs_ends::Sink;
use wfs_store::StepFault;

/// Says why a journal is not opened, and answers the status. A fault of the output changes nothing.
pub fn say_unopened<S: Sink>(sink: &mut S, fault: OpenFault) -> u8
    ensures says { GivesOr (S.sink sink.old) (unopened_line fault) (S.sink sink.new) }
    ensures status { result ≡ unopened_status fault }
{
    tell_unopened(sink, fault);
    unopened_status(fault)
}

fn tell_unopened<S: Sink>(sink: &mut S, fault: OpenFault)
    ensures { GivesOr (S.sink sink.old) (unopened_line fault) (S.sink sink.new) }
{
    match fault {
        OpenFault::DiskFault => say(sink, b"wfsd: store fault\n"),
        OpenFault::NotAJournal(place) => say_place(sink, place.second_side, place.at),
        OpenFault::NotOfSchema(number) => say_record(sink, number),
        OpenFault::Full(_) => say(sink, b"wfsd: full\n"),
        OpenFault::OutOfMemory => say(sink, b"wfsd: no memory\n"),
    }
}

// The status where a journal is not opened.
fn unopened_status(fault: OpenFault) -> u8
    ensures { result ≡ unopened_status fault }
{
    match fault {
        OpenFault::DiskFault => STORE_FAULT,
        OpenFault::NotAJournal(_) | OpenFault::NotOfSchema(_) => JOURNAL_REFUSED,
        OpenFault::Full(_) => FULL,
        OpenFault::OutOfMemory => OUT_OF_MEMORY,
    }
}

/// Says why a store does not go on, and answers the status. A fault of the output changes nothing.
pub fn say_stopped<S: Sink>(sink: &mut S, fault: StepFault) -> u8
    ensures says { GivesOr (S.sink sink.old) (stopped_line fault) (S.sink sink.new) }
    ensures status { result ≡ stopped_status fault }
{
    tell_stopped(sink, fault);
    stopped_status(fault)
}

fn tell_stopped<S: Sink>(sink: &mut S, fault: StepFault)
    ensures { GivesOr (S.sink sink.old) (stopped_line fault) (S.sink sink.new) }
{
    match fault {
        StepFault::StoreFault => say(sink, b"wfsd: store fault\n"),
        StepFault::Full(_) => say(sink, b"wfsd: full\n"),
        StepFault::OutOfMemory => say(sink, b"wfsd: no memory\n"),
    }
}

// The status where a store does not go on.
fn stopped_status(fault: StepFault) -> u8
    ensures { result ≡ stopped_status fault }
{
    match fault {
        StepFault::StoreFault => STORE_FAULT,
        StepFault::Full(_) => FULL,
        StepFault::OutOfMemory => OUT_OF_MEMORY,
    }
}

/// Says what a journal holds, and answers the status.
pub fn say_counts<S: Sink>(sink: &mut S, counts: Counts) -> u8
    ensures { EndsWith (S.sink sink.old) (counts_line counts.types counts.features counts.queries
        counts.openings) (S.sink sink.new) result }
{
    line_status(put_counts(
        sink,
        counts.types,
        counts.features,
        counts.queries,
        counts.openings,
    ))
}

/// Says how long the journal's side was and is, and answers the status.
pub fn say_sides<S: Sink>(sink: &mut S, before: u64, after: u64) -> u8
    ensures { EndsWith (S.sink sink.old) (sides_line before after) (S.sink sink.new) result }
{
    line_status(put_sides(sink, before, after))
}

/// Says what a drill came to, and answers the status.
pub fn say_rounds<S: Sink>(
    sink: &mut S,
    rounds: u64,
    entries: u64,
    features: u64,
    matched: u64,
    locked: u64,
) -> u8
    ensures { EndsWith (S.sink sink.old) (rounds_line rounds entries features matched locked)
        (S.sink sink.new) result }
{
    line_status(put_rounds(sink, rounds, entries, features, matched, locked))
}

// The status behind a last line.
fn line_status(failed: bool) -> u8
    ensures { result ≡ line_status failed }
{
    if failed { WRITE_FAULT } else { DONE }
}
