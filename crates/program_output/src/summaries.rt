//! Lines that say what was asked for. Each answers whether the output failed.

ghost use Rattle.std.specs.Prelude.{decimal, false};
ghost use Rattle.wfs_ends.specs.Ends.{Shown, Writes};
ghost use Rattle.program_output.specs.Lines.{counts_line, rounds_line, serving, sides_line};

use itoa::Buffer;
use wfs_ends::{Sink, put_on};

/// Says that links are served from now on.
pub fn put_serving<S: Sink>(sink: &mut S) -> bool
    ensures { Writes (record { shown = S.sink sink.old; failed = false }) serving
        (record { shown = S.sink sink.new; failed = result }) }
{
    put_on(sink, false, b"serving\n")
}

/// Says how many types, features, stored queries and openings a journal holds.
pub fn put_counts<S: Sink>(
    sink: &mut S,
    types: u64,
    features: u64,
    queries: u64,
    openings: u64,
) -> bool
    ensures { Writes (record { shown = S.sink sink.old; failed = false })
        (counts_line types features queries openings)
        (record { shown = S.sink sink.new; failed = result }) }
{
    let failed = put_on(sink, false, b"types ");
    let failed = put_number(sink, failed, types);
    let failed = put_on(sink, failed, b" features ");
    let failed = put_number(sink, failed, features);
    let failed = put_on(sink, failed, b" queries ");
    let failed = put_number(sink, failed, queries);
    let failed = put_on(sink, failed, b" openings ");
    let failed = put_number(sink, failed, openings);
    put_on(sink, failed, b"\n")
}

/// Says how long the journal's side was, and is.
pub fn put_sides<S: Sink>(sink: &mut S, before: u64, after: u64) -> bool
    ensures { Writes (record { shown = S.sink sink.old; failed = false })
        (sides_line before after)
        (record { shown = S.sink sink.new; failed = result }) }
{
    let failed = put_on(sink, false, b"side ");
    let failed = put_number(sink, failed, before);
    let failed = put_on(sink, failed, b" to ");
    let failed = put_number(sink, failed, after);
    put_on(sink, failed, b" bytes\n")
}

/// Says what a drill came to: its rounds, the entries of its history, the features that are there, and the sums of what its counts found
/// and of what its locks took.
pub fn put_rounds<S: Sink>(
    sink: &mut S,
    rounds: u64,
    entries: u64,
    features: u64,
    matched: u64,
    locked: u64,
) -> bool
    ensures { Writes (record { shown = S.sink sink.old; failed = false })
        (rounds_line rounds entries features matched locked)
        (record { shown = S.sink sink.new; failed = result }) }
{
    let failed = put_on(sink, false, b"rounds ");
    let failed = put_number(sink, failed, rounds);
    let failed = put_on(sink, failed, b" entries ");
    let failed = put_number(sink, failed, entries);
    let failed = put_on(sink, failed, b" features ");
    let failed = put_number(sink, failed, features);
    let failed = put_on(sink, failed, b" matched ");
    let failed = put_number(sink, failed, matched);
    let failed = put_on(sink, failed, b" locked ");
    let failed = put_number(sink, failed, locked);
    put_on(sink, failed, b"\n")
}

/// Gives a number in decimal.
pub fn put_number<S: Sink>(sink: &mut S, failed: bool, number: u64) -> bool
    ensures { Writes (record { shown = S.sink sink.old; failed = failed })
        (decimal number)
        (record { shown = S.sink sink.new; failed = result }) }
{
    let mut buffer = Buffer::new();
    put_on(sink, failed, buffer.format(number).as_bytes())
}
