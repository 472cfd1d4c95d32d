//! Lines that say why there is nothing more. A fault of the output changes nothing.

ghost use Rattle.std.specs.Prelude.{◌≡◌, ◌++◌, false};
ghost use Rattle.wfs_ends.specs.Ends.{Shown, Writes};
ghost use Rattle.program_output.specs.Lines.{GivesOr, fault_text, not_a_journal, not_of_schema, refused_line, side_name};

use crate::summaries::put_number;
use feature_schema::SchemaFault;
use wfs_ends::{Sink, put_all, put_on};

/// Says a line.
#[tactic(auto, using(crate::proofs::Said::gave_or))]
pub fn say<S: Sink>(sink: &mut S, line: &[u8])
    ensures { GivesOr (S.sink sink.old) line.now (S.sink sink.new) }
{
    let _ = put_all(sink, line);
}

/// Says that the schema is refused, and its first fault.
#[tactic(auto, using(crate::proofs::Said::wrote_or))]
pub fn say_refused<S: Sink>(sink: &mut S, fault: &SchemaFault)
    ensures { GivesOr (S.sink sink.old) (refused_line fault.now) (S.sink sink.new) }
{
    let _ = put_refused(sink, fault);
}

fn put_refused<S: Sink>(sink: &mut S, fault: &SchemaFault) -> bool
    ensures { Writes (record { shown = S.sink sink.old; failed = false }) (refused_line fault.now)
        (record { shown = S.sink sink.new; failed = result }) }
{
    let failed = put_on(sink, false, b"wfsd: schema refused: ");
    let failed = put_fault(sink, failed, fault);
    put_on(sink, failed, b"\n")
}

// Gives a fault's name, and what it names.
fn put_fault<S: Sink>(sink: &mut S, failed: bool, fault: &SchemaFault) -> bool
    ensures { Writes (record { shown = S.sink sink.old; failed = failed }) (fault_text fault.now)
        (record { shown = S.sink sink.new; failed = result }) }
{
    match fault {
        SchemaFault::NotToml => put_on(sink, failed, b"NotToml"),
        SchemaFault::Key(key) => put_named(sink, failed, b"Key ", key.as_str()),
        SchemaFault::Kind(name) => put_named(sink, failed, b"Kind ", name.as_str()),
        SchemaFault::Twice(name) => put_named(sink, failed, b"Twice ", name.as_str()),
        SchemaFault::TooMany => put_on(sink, failed, b"TooMany"),
        SchemaFault::OutOfMemory => put_on(sink, failed, b"OutOfMemory"),
    }
}

fn put_named<S: Sink>(sink: &mut S, failed: bool, kind: &[u8], name: &str) -> bool
    ensures { Writes (record { shown = S.sink sink.old; failed = failed }) (kind.now ++ name.now)
        (record { shown = S.sink sink.new; failed = result }) }
{
    let failed = put_on(sink, failed, kind);
    put_on(sink, failed, name.as_bytes())
}

/// Says at which byte of which side a file is no journal.
#[tactic(auto, using(crate::proofs::Said::wrote_or))]
pub fn say_place<S: Sink>(sink: &mut S, second: bool, at: u64)
    ensures { GivesOr (S.sink sink.old) (not_a_journal second at) (S.sink sink.new) }
{
    let _ = put_place(sink, second, at);
}

fn put_place<S: Sink>(sink: &mut S, second: bool, at: u64) -> bool
    ensures { Writes (record { shown = S.sink sink.old; failed = false }) (not_a_journal second at)
        (record { shown = S.sink sink.new; failed = result }) }
{
    let failed = put_on(sink, false, b"wfsd: not a journal: ");
    let failed = put_on(sink, failed, side_name(second));
    let failed = put_on(sink, failed, b" ");
    let failed = put_number(sink, failed, at);
    put_on(sink, failed, b"\n")
}

fn side_name(second: bool) -> &'static [u8]
    ensures { result.now ≡ side_name second }
{
    if second { b"b" } else { b"a" }
}

/// Says which record of a journal is none of the schema.
#[tactic(auto, using(crate::proofs::Said::wrote_or))]
pub fn say_record<S: Sink>(sink: &mut S, number: u64)
    ensures { GivesOr (S.sink sink.old) (not_of_schema number) (S.sink sink.new) }
{
    let _ = put_record(sink, number);
}

fn put_record<S: Sink>(sink: &mut S, number: u64) -> bool
    ensures { Writes (record { shown = S.sink sink.old; failed = false }) (not_of_schema number)
        (record { shown = S.sink sink.new; failed = result }) }
{
    let failed = put_on(sink, false, b"wfsd: not of this schema: ");
    let failed = put_number(sink, failed, number);
    put_on(sink, failed, b"\n")
}
