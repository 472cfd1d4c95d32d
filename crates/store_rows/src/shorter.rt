//! A compaction: what the store tells before it and after it, its bytes, and the next run.

ghost use Rattle.std.specs.Prelude.{◌≡◌, []};
ghost use Rattle.feature_schema.specs.Rules.{KeepsRules};

use crate::disks::{hold, pair};
use crate::requests::schema;
use crate::sides::{AGAIN, SHORT, SHORT_AGAIN, STORED, TWO};
use crate::starts::{limits, started};
use disk_core::{Disk, MemDisk, Pair};
use feature_values::Schema;
use std::alloc::Global;
use std::test::Fail;
use wfs_ends::Mem;
use wfs_store::{Counts, Store, inspect, stands};

// What a store tells of itself.
#[derive(Clone, Copy, PartialEq, Eq)]
struct Told {
    types: usize,
    side: u64,
    entries: u64,
    marks: u64,
    changed: bool,
}

// The second opening on two marks, in a schema of three types. No entry has been made.
const BEFORE: Told = Told {
    types: 3,
    side: 283,
    entries: 0,
    marks: 2,
    changed: false,
};

// The checkpoint has 109 bytes; all else is as before.
const AFTER: Told = Told {
    types: 3,
    side: 109,
    entries: 0,
    marks: 2,
    changed: false,
};

// The third opening behind it: 107 bytes more.
const NEXT: Told = Told {
    types: 3,
    side: 216,
    entries: 0,
    marks: 2,
    changed: false,
};

// What the files hold behind the compaction.
const COUNTS: Counts = Counts {
    types: 3,
    features: 2,
    queries: 0,
    openings: 2,
};

fn told_by<D: Disk>(store: &Store<D>) -> Told {
    stands(store);
    Told {
        types: store.schema().types.items().len(),
        side: store.side_length(),
        entries: store.entries(),
        marks: store.features().count(),
        changed: store.last_change().is_some(),
    }
}

// What a store tells before a compaction and after it, and the disks.
fn shortened<D: Disk>(store: Store<D>) -> (Option<(Told, Told)>, Pair<D>)
    requires { store.entries ≡ [] }
{
    let mut store = store;
    let before = told_by(&store);
    let is_done = store.compact().is_ok();
    let after = told_by(&store);
    let told = if is_done { Some((before, after)) } else { None };
    (told, store.close())
}

fn counts_on<D: Disk>(alloc: Global, disks: &mut Pair<D>, schema: &Schema) -> Option<Counts> {
    inspect(alloc, disks, schema, &limits(9)).ok()
}

fn is_next(store: Store<MemDisk>) -> bool {
    let told = told_by(&store);
    let mut disks = store.close();
    told == NEXT && hold(&mut disks, AGAIN, SHORT_AGAIN)
}

fn goes_on(alloc: Global, disks: Pair<MemDisk>, schema: &Schema) -> bool
    requires { KeepsRules schema.now }
{
    match started(alloc, disks, schema, 9) {
        Ok(store) => is_next(store),
        Err(_) => false,
    }
}

fn is_left(alloc: Global, disks: Pair<MemDisk>, schema: &Schema) -> bool
    requires { KeepsRules schema.now }
{
    let mut disks = disks;
    let is_counted = counts_on(alloc, &mut disks, schema) == Some(COUNTS);
    is_counted && hold(&mut disks, AGAIN, SHORT) && goes_on(alloc, disks, schema)
}

fn is_shorter_on(alloc: Global, disks: Pair<MemDisk>, schema: &Schema) -> bool
    requires { KeepsRules schema.now }
{
    match started(alloc, disks, schema, 9) {
        Ok(store) => {
            let (told, disks) = shortened(store);
            told == Some((BEFORE, AFTER)) && is_left(alloc, disks, schema)
        }
        Err(_) => false,
    }
}

fn is_shorter(alloc: Global) -> Mem<bool> {
    let schema = schema(alloc)?;
    Ok(is_shorter_on(alloc, pair(alloc, TWO, &[])?, &schema))
}

#[test]
fn a_journal_is_made_shorter(rt: HostRuntime) -> Result<(), Fail> {
    assert_eq!(rt; is_shorter(rt.alloc()), Ok(true));
    Ok(())
}

// A stored query behind the first opening.
const WITH_QUERY: Counts = Counts {
    types: 3,
    features: 0,
    queries: 1,
    openings: 1,
};

fn counts(alloc: Global) -> Mem<Option<Counts>> {
    let schema = schema(alloc)?;
    let mut disks = pair(alloc, STORED, &[])?;
    Ok(counts_on(alloc, &mut disks, &schema))
}

#[test]
fn a_stored_query_is_counted(rt: HostRuntime) -> Result<(), Fail> {
    assert_eq!(rt; counts(rt.alloc()), Ok(Some(WITH_QUERY)));
    Ok(())
}
