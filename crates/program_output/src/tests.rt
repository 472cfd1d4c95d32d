//! Each line as it is written out in the formats.

use crate::{put_counts, put_rounds, put_serving, put_sides, say_place, say_record, say_refused};
use feature_schema::SchemaFault;
use std::alloc::Global;
use wfs_ends::{Mem, MemSink, Text};

#[derive(Clone, Copy, Debug, PartialEq, Eq)]
enum Line {
    Serving,
    Counts,
    Sides,
    Rounds,
    Place,
    Second,
    Record,
    Refused,
    Kind,
    Twice,
}

static LINES: [(Line, &str); 10] = [
    (Line::Serving, "serving\n"),
    (Line::Counts, "types 3 features 2 queries 0 openings 1\n"),
    (Line::Sides, "side 283 to 208 bytes\n"),
    (
        Line::Rounds,
        "rounds 4 entries 9 features 3 matched 4 locked 2\n",
    ),
    (Line::Place, "wfsd: not a journal: a 1\n"),
    (Line::Second, "wfsd: not a journal: b 7\n"),
    (Line::Record, "wfsd: not of this schema: 17\n"),
    (Line::Refused, "wfsd: schema refused: Key title\n"),
    (Line::Kind, "wfsd: schema refused: Kind title\n"),
    (Line::Twice, "wfsd: schema refused: Twice title\n"),
];

fn write(sink: &mut MemSink, line: Line, name: Text) -> bool {
    match line {
        Line::Serving => put_serving(sink),
        Line::Counts => put_counts(sink, 3, 2, 0, 1),
        Line::Sides => put_sides(sink, 283, 208),
        Line::Rounds => put_rounds(sink, 4, 9, 3, 4, 2),
        Line::Place => {
            say_place(sink, false, 1);
            false
        }
        Line::Second => {
            say_place(sink, true, 7);
            false
        }
        Line::Record => {
            say_record(sink, 17);
            false
        }
        Line::Refused => {
            say_refused(sink, &SchemaFault::Key(name));
            false
        }
        Line::Kind => {
            say_refused(sink, &SchemaFault::Kind(name));
            false
        }
        Line::Twice => {
            say_refused(sink, &SchemaFault::Twice(name));
            false
        }
    }
}

fn is_written(alloc: Global, line: Line, text: &str) -> Mem<bool> {
    let mut sink = MemSink::new(alloc, 64, Vec::new(alloc))?;
    let failed = write(&mut sink, line, Text::of(alloc, "title")?);
    Ok(!failed && sink.bytes() == text.as_bytes())
}

fn first_wrong(alloc: Global) -> Mem<Option<Line>> {
    for (line, text) in &LINES {
        if !is_written(alloc, *line, text)? {
            return Ok(Some(*line));
        }
    }
    Ok(None)
}

#[test]
fn lines_are_as_in_the_formats(rt: HostRuntime) {
    assert_eq!(rt; first_wrong(rt.alloc()), Ok(None));
}
