//! A disk that fails in a compaction, and a change behind it: what was begun is ended first, or is still held.

ghost use Rattle.std.specs.Prelude.{◌≡◌, None, Option};
ghost use Rattle.feature_journal.specs.Kept.{limit_of};
ghost use Rattle.feature_schema.specs.Rules.{KeepsRules};
ghost use Rattle.feature_values.specs.declared.schema.Schema.{Schema};
ghost use Rattle.wfs_model.specs.declared.change.Change.{Change};
ghost use Rattle.wfs_model.specs.State.{Durable};
ghost use Rattle.durable_journal.specs.Kept.{Keeps};

use crate::disks::disk;
use crate::requests::schema;
use crate::sides::{EMPTY, TWO};
use disk_core::{Disk, MemDisk, Pair};
use durable_journal::{Recorded, open_journal, record_change, shorten};
use feature_journal::Journal;
use feature_values::Schema;
use feature_versions::Features;
use std::alloc::Global;
use std::test::Fail;
use wfs_ends::Mem;

// The body of a change that inserts Mark.3 with the label C: 2, one part in 4 bytes; and of the part 1, the type 0 in 2 bytes, the number in
// 8, three values in 2; then a text of 1 byte, null, null. 26 bytes.
const MARK_C: &[u8] = b"\x02\0\0\0\x01\x01\0\0\0\0\0\0\0\0\0\x03\0\x03\x01\0\0\0\x01C\0\0";

// How long a side may be.
const LIMIT: u64 = 1_000;

// Whether the compaction is answered Ok, how the change behind it is recorded, and how long the current side is then.
type Told = (bool, Option<Recorded>, u64);

/// The calls of side b's disk that fail, and what is told then. No call of side a's disk fails.
type Row = (&'static [u64], Told);

// An opening on a side of 176 bytes makes the calls 0 and 1 of side b's disk, and side a has 283 bytes then. The compaction makes side b, of 109
// bytes, by the calls 2 to 12, of which 9 writes the ending gate, 10 syncs, 11 opens byte 0 and 12 syncs (`stops` says which the others are).
// Where one of the last two fails the side is begun, since a crash may leave it current. Then the change first closes byte 0 again, by the next
// call, and syncs. It is tried only behind that. Its record has 31 bytes, and is written behind the closed gate of the current side and synced;
// its gate is opened and synced.
static ROWS: [Row; 14] = [
    // the change is on side b, by the calls 13 to 16
    (&[], (true, Some(Recorded::Done), 140)),
    (&[13], (true, Some(Recorded::FaultClean), 109)),
    (&[14], (true, Some(Recorded::FaultClean), 109)),
    (&[15], (true, Some(Recorded::FaultBegun), 109)),
    (&[16], (true, Some(Recorded::FaultBegun), 109)),
    // nothing is begun, and the change is on side a
    (&[2], (false, Some(Recorded::Done), 314)),
    (&[9], (false, Some(Recorded::Done), 314)),
    (&[10], (false, Some(Recorded::Done), 314)),
    // the side is begun, and byte 0 is closed again
    (&[11], (false, Some(Recorded::Done), 314)),
    (&[12], (false, Some(Recorded::Done), 314)),
    // and then one of these calls fails, so the side is begun still, and the change is not tried
    (&[11, 12], (false, Some(Recorded::FaultHeld), 283)),
    (&[11, 13], (false, Some(Recorded::FaultHeld), 283)),
    (&[12, 13], (false, Some(Recorded::FaultHeld), 283)),
    (&[12, 14], (false, Some(Recorded::FaultHeld), 283)),
];

// Whether a compaction is answered Ok. No change is begun by it.
fn is_shortened<D: Disk>(alloc: Global, journal: &mut Journal<D>, features: &Features) -> bool
    requires rules { KeepsRules features.now.schema }
    requires keeps { Keeps D.images features.now.schema features.now.kept None journal.old }
    ensures keeps { Keeps D.images features.now.schema features.now.kept None journal.new }
    ensures limit { limit_of journal.new ≡ limit_of journal.old }
{
    match shorten(alloc, journal, features) {
        Ok(()) => true,
        Err(_) => false,
    }
}

// How the change is recorded, where there is room for it.
fn change<D: Disk>(journal: &mut Journal<D>, limit: u64) -> Option<Recorded>
    requires keeps { (schema : Schema) × (kept : Durable) × (begun : Option Change)
        × Keeps D.images schema kept begun journal.old }
    requires limit { limit_of journal.old ≡ limit }
{
    if journal.side_length().saturating_add(31) > limit {
        return None;
    }
    Some(record_change(journal, MARK_C))
}

// What is told on these disks, or none where the journal was not opened.
fn told_on<D: Disk + Drop>(alloc: Global, disks: Pair<D>, schema: &Schema) -> Option<Told>
    requires { KeepsRules schema.now }
{
    match open_journal(alloc, disks, schema, LIMIT) {
        Ok(opened) => {
            let mut journal = opened.journal;
            let is_done = is_shortened(alloc, &mut journal, &opened.features);
            let recorded = change(&mut journal, LIMIT);
            Some((is_done, recorded, journal.side_length()))
        }
        Err(_) => None,
    }
}

fn disks(alloc: Global, failing: &[u64]) -> Mem<Pair<MemDisk>> {
    Ok(Pair {
        a: disk(alloc, TWO, &[], None)?,
        b: disk(alloc, EMPTY, failing, None)?,
    })
}

fn is_told(alloc: Global, schema: &Schema, row: &Row) -> Mem<bool>
    requires { KeepsRules schema.now }
{
    let (failing, told) = *row;
    Ok(told_on(alloc, disks(alloc, failing)?, schema) == Some(told))
}

fn first_other(alloc: Global, schema: &Schema) -> Mem<Option<usize>>
    requires { KeepsRules schema.now }
{
    for (i, row) in ROWS.iter().enumerate() {
        if !is_told(alloc, schema, row)? {
            return Ok(Some(i));
        }
    }
    Ok(None)
}

fn first_wrong(alloc: Global) -> Mem<Option<usize>> {
    let schema = schema(alloc)?;
    first_other(alloc, &schema)
}

#[test]
fn what_was_begun_is_ended_first_or_held(rt: HostRuntime) -> Result<(), Fail> {
    assert_eq!(rt; first_wrong(rt.alloc()), Ok(None));
    Ok(())
}
