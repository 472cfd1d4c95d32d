//! Disks that stop at a call in a start, a step or a compaction, and what the next run finds.

ghost use Rattle.std.specs.Prelude.{◌≡◌, []};
ghost use Rattle.feature_schema.specs.Rules.{KeepsRules};

use crate::disks::{crashed, disk};
use crate::requests::{insertion, schema};
use crate::sides::{EMPTY, Side, TWO};
use crate::starts::started;
use crate::steps::{Told, hits, take};
use disk_core::{Disk, MemDisk, Pair};
use feature_values::Schema;
use std::alloc::Global;
use std::test::Fail;
use wfs_ends::Mem;
use wfs_store::Store;

/// What is done on the disks.
#[derive(Clone, Copy)]
enum Act {
    Start,
    /// A start, and then Mark.1 is inserted.
    Insert,
    /// A start, and then a compaction.
    Compact,
}

/// Whether the act was answered Ok; and of the next run how many marks a read counts, and how long its side is.
type Found = (bool, u64, u64);

/// The act, and side a at first; whether side b's disk stops, and not side a's; the calls at which it stops, each in a run of its own; how many
/// of the writes since the last sync a crash keeps; and what is found then. Side b is empty at first.
type Stop = (Act, Side, bool, (u64, u64), u32, Found);

// A start on empty files syncs both, and reads the first 17 bytes of both: calls 0 and 1 of each disk. It makes side a: 2 reads byte 0, 3 writes
// it as 0, 4 syncs, 5 cuts, 6 writes the rest, 7 syncs, 8 opens byte 0, 9 syncs. It appends the opening: 10 writes the record, 11 syncs, 12
// opens its gate, 13 syncs. The opening is there from that sync on, or where a crash keeps the write of its gate: then the next run's is the
// second, and the side has 107 bytes more.
static STARTS: [Stop; 6] = [
    (Act::Start, EMPTY, true, (0, 1), 9, (false, 0, 124)),
    (Act::Start, EMPTY, false, (0, 12), 0, (false, 0, 124)),
    (Act::Start, EMPTY, false, (0, 12), 9, (false, 0, 124)),
    (Act::Start, EMPTY, false, (13, 13), 0, (false, 0, 124)),
    (Act::Start, EMPTY, false, (13, 13), 9, (false, 0, 231)),
    (Act::Start, EMPTY, false, (14, 14), 0, (true, 0, 231)),
];

// The insertion behind it: 14 writes the record, 15 syncs, 16 opens its gate, 17 syncs. Before the gate is written the next run counts nothing,
// and right after its sync one mark, of 31 bytes.
static INSERTIONS: [Stop; 5] = [
    (Act::Insert, EMPTY, false, (14, 16), 0, (false, 0, 231)),
    (Act::Insert, EMPTY, false, (14, 16), 9, (false, 0, 231)),
    (Act::Insert, EMPTY, false, (17, 17), 0, (false, 0, 231)),
    (Act::Insert, EMPTY, false, (17, 17), 9, (false, 1, 262)),
    (Act::Insert, EMPTY, false, (18, 18), 0, (true, 1, 262)),
];

// A start on a side of 176 bytes: of side a's disk 0 and 1 as above, 2 and 3 read its length and its bytes, 4 syncs its ending gate, which reads 0;
// then the second opening by 5 to 8, of which 7 opens its gate: 283 bytes. The compaction makes side b: 2 reads byte 0, 3 writes it as 0, 4
// syncs, 5 cuts, 6 writes the head, 7 and 8 the two records, 9 the ending gate, 10 syncs, 11 opens byte 0, 12 syncs: 109 bytes. The next run's
// opening has 107 more: 283, or 390, or 216.
static COMPACTIONS: [Stop; 9] = [
    (Act::Compact, TWO, false, (0, 7), 9, (false, 2, 283)),
    (Act::Compact, TWO, false, (8, 8), 0, (false, 2, 283)),
    (Act::Compact, TWO, false, (8, 8), 9, (false, 2, 390)),
    (Act::Compact, TWO, false, (9, 9), 0, (true, 2, 216)),
    (Act::Compact, TWO, true, (2, 11), 0, (false, 2, 390)),
    (Act::Compact, TWO, true, (2, 11), 9, (false, 2, 390)),
    (Act::Compact, TWO, true, (12, 12), 0, (false, 2, 390)),
    (Act::Compact, TWO, true, (12, 12), 9, (false, 2, 216)),
    (Act::Compact, TWO, true, (13, 13), 0, (true, 2, 216)),
];

// ---- the act

fn inserts<D: Disk>(alloc: Global, store: &mut Store<D>, schema: &Schema) -> Mem<bool>
    requires { store.old.schema ≡ schema.now }
{
    let request = insertion(alloc, schema, "A")?;
    Ok(take(store, schema, request) == Told::Inserted(1, 1))
}

fn does<D: Disk>(alloc: Global, store: &mut Store<D>, schema: &Schema, act: Act) -> bool
    requires schema { store.old.schema ≡ schema.now }
    requires entries { store.old.entries ≡ [] }
{
    match act {
        Act::Start => true,
        Act::Insert => inserts(alloc, store, schema) == Ok(true),
        Act::Compact => store.compact().is_ok(),
    }
}

fn finished<D: Disk>(alloc: Global, store: Store<D>, schema: &Schema, act: Act) -> (bool, Pair<D>)
    requires schema { store.schema ≡ schema.now }
    requires entries { store.entries ≡ [] }
{
    let mut store = store;
    let is_done = does(alloc, &mut store, schema, act);
    (is_done, store.close())
}

// Whether an act is answered Ok, and the disks behind it.
fn act_on<D: Disk>(alloc: Global, disks: Pair<D>, schema: &Schema, act: Act) -> (bool, Pair<D>)
    requires { KeepsRules schema.now }
{
    match started(alloc, disks, schema, 9) {
        Ok(store) => finished(alloc, store, schema, act),
        Err(disks) => (false, disks),
    }
}

// ---- the next run

fn told_by<D: Disk>(alloc: Global, store: &Store<D>, schema: &Schema) -> Mem<Option<(u64, u64)>>
    requires rules { KeepsRules schema.now }
    requires schema { store.now.schema ≡ schema.now }
{
    match hits(alloc, store, schema)? {
        Some(marks) => Ok(Some((marks, store.side_length()))),
        None => Ok(None),
    }
}

// How many marks a run counts, and how long its side is.
fn next_run(alloc: Global, disks: Pair<MemDisk>, schema: &Schema) -> Mem<Option<(u64, u64)>>
    requires { KeepsRules schema.now }
{
    match started(alloc, disks, schema, 9) {
        Ok(store) => told_by(alloc, &store, schema),
        Err(_) => Ok(None),
    }
}

fn is_found(
    alloc: Global,
    end: (bool, Pair<MemDisk>),
    schema: &Schema,
    keep: u32,
    found: Found,
) -> Mem<bool>
    requires { KeepsRules schema.now }
{
    let (is_done, disks) = end;
    let (is_answered, marks, side) = found;
    let next = next_run(alloc, crashed(disks, keep), schema)?;
    Ok(is_done == is_answered && next == Some((marks, side)))
}

// ---- rows

// Disks of which one stops at a call.
fn stopping(alloc: Global, before: Side, second: bool, call: u64) -> Mem<Pair<MemDisk>> {
    let (a, b) = if second {
        (None, Some(call))
    } else {
        (Some(call), None)
    };
    Ok(Pair {
        a: disk(alloc, before, &[], a)?,
        b: disk(alloc, EMPTY, &[], b)?,
    })
}

fn ends_so(alloc: Global, schema: &Schema, stop: &Stop, call: u64) -> Mem<bool>
    requires { KeepsRules schema.now }
{
    let (act, before, second, _, keep, found) = *stop;
    let disks = stopping(alloc, before, second, call)?;
    is_found(
        alloc,
        act_on(alloc, disks, schema, act),
        schema,
        keep,
        found,
    )
}

// The first of the row's calls that ends otherwise.
fn first_call(alloc: Global, schema: &Schema, stop: &Stop) -> Mem<Option<u64>>
    requires { KeepsRules schema.now }
{
    let (from, to) = stop.3;
    for call in from..=to {
        if !ends_so(alloc, schema, stop, call)? {
            return Ok(Some(call));
        }
    }
    Ok(None)
}

// The first row that fails, and the call.
fn first_stop(alloc: Global, schema: &Schema, stops: &[Stop]) -> Mem<Option<(usize, u64)>>
    requires { KeepsRules schema.now }
{
    for (i, stop) in stops.iter().enumerate() {
        if let Some(call) = first_call(alloc, schema, stop)? {
            return Ok(Some((i, call)));
        }
    }
    Ok(None)
}

fn first_wrong(alloc: Global, stops: &[Stop]) -> Mem<Option<(usize, u64)>> {
    let schema = schema(alloc)?;
    first_stop(alloc, &schema, stops)
}

#[test]
fn each_call_may_be_the_last(rt: HostRuntime) -> Result<(), Fail> {
    assert_eq!(rt; first_wrong(rt.alloc(), &STARTS), Ok(None));
    assert_eq!(rt; first_wrong(rt.alloc(), &INSERTIONS), Ok(None));
    assert_eq!(rt; first_wrong(rt.alloc(), &COMPACTIONS), Ok(None));
    Ok(())
}
