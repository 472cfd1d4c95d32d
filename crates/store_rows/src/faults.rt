//! Disks that fail in a step: nothing is there then, and the same step again is answered as if it were the first.

ghost use Rattle.feature_schema.specs.Rules.{KeepsRules};

use crate::disks::pair;
use crate::requests::schema;
use crate::runs::{ended_so, run_on};
use crate::sides::{EMPTY, INSERTED, Side};
use crate::steps::{Ask, Stand, Step, Told};
use feature_values::Schema;
use std::alloc::Global;
use std::test::Fail;
use wfs_ends::Mem;
use wfs_model::{FullAt, LimitName};

// Nothing is there, and no entry.
const NOTHING: Stand = Stand {
    marks: 0,
    entries: 0,
    changed: false,
};

// Nothing is there, and one entry that made no change.
const ONE_ENTRY: Stand = Stand {
    marks: 0,
    entries: 1,
    changed: false,
};

// A lock on nothing is an entry of its own. It asks no disk, so it ends nothing that was begun.
const LOCKED: Step = (Ask::Lock, Told::Locked(None), ONE_ENTRY);

// The same insertion again has the first number.
const INSERTED_THEN: Step = (
    Ask::Insert("A"),
    Told::Inserted(1, 1),
    Stand {
        marks: 1,
        entries: 2,
        changed: true,
    },
);

const FAULT: Step = (Ask::Insert("A"), Told::Fault, NOTHING);

// The same behind the lock.
const FAULT_THEN: Step = (Ask::Insert("A"), Told::Fault, ONE_ENTRY);

const FULL_THEN: Step = (
    Ask::Insert("A"),
    Told::Full(FullAt {
        limit: LimitName::Entries,
        number: 1,
    }),
    ONE_ENTRY,
);

// Side a as if no call had failed.
const UNHARMED: Option<Side> = Some(INSERTED);

/// How many entries there may be, the calls of side a's disk that fail, the steps on empty files, and side a afterwards, which is
/// not looked at where the next call would fail.
type Fault = (u16, &'static [u64], &'static [Step], Option<Side>);

// The start makes the calls 0 to 13 of side a's disk (`stops` says which). An insertion writes its record behind the closed gate by call 14 and
// syncs, opens the gate by call 16 and syncs. Where one of the last two fails the record is begun, and the next insertion repairs it first:
// 0 at that gate by call 18, or 17 where call 16 was the last, and a sync. In the end side a holds Mark.1 as if no call
// had failed.
static FAULTS: [Fault; 8] = [
    (9, &[14], &[FAULT, LOCKED, INSERTED_THEN], UNHARMED),
    (9, &[15], &[FAULT, LOCKED, INSERTED_THEN], UNHARMED),
    (9, &[16], &[FAULT, LOCKED, INSERTED_THEN], UNHARMED),
    // the second sync
    (9, &[17], &[FAULT, LOCKED, INSERTED_THEN], UNHARMED),
    // and then a call of the repair
    (
        9,
        &[16, 17],
        &[FAULT, FAULT, LOCKED, INSERTED_THEN],
        UNHARMED,
    ),
    // a lock comes before that call, and does not make it
    (
        9,
        &[16, 17],
        &[FAULT, LOCKED, FAULT_THEN, INSERTED_THEN],
        UNHARMED,
    ),
    (
        9,
        &[17, 18],
        &[FAULT, FAULT, LOCKED, INSERTED_THEN],
        UNHARMED,
    ),
    (
        9,
        &[17, 19],
        &[FAULT, FAULT, LOCKED, INSERTED_THEN],
        UNHARMED,
    ),
];

// There may be one entry. A step that is full makes no call of the repair either.
static FULL: [Fault; 1] = [(1, &[16, 17], &[FAULT, LOCKED, FULL_THEN], None)];

fn fails_so(alloc: Global, schema: &Schema, fault: &Fault) -> Mem<bool>
    requires { KeepsRules schema.now }
{
    let (entries, calls, steps, after) = *fault;
    let disks = pair(alloc, EMPTY, calls)?;
    let run = run_on(alloc, disks, schema, entries, steps);
    Ok(match after {
        Some(side) => ended_so(run, side),
        None => run.0,
    })
}

fn first_other(alloc: Global, schema: &Schema, faults: &[Fault]) -> Mem<Option<usize>>
    requires { KeepsRules schema.now }
{
    for (i, fault) in faults.iter().enumerate() {
        if !fails_so(alloc, schema, fault)? {
            return Ok(Some(i));
        }
    }
    Ok(None)
}

fn first_wrong(alloc: Global, faults: &[Fault]) -> Mem<Option<usize>> {
    let schema = schema(alloc)?;
    first_other(alloc, &schema, faults)
}

#[test]
fn a_fault_leaves_nothing(rt: HostRuntime) -> Result<(), Fail> {
    assert_eq!(rt; first_wrong(rt.alloc(), &FAULTS), Ok(None));
    Ok(())
}

#[test]
fn a_full_step_asks_no_disk(rt: HostRuntime) -> Result<(), Fail> {
    assert_eq!(rt; first_wrong(rt.alloc(), &FULL), Ok(None));
    Ok(())
}
