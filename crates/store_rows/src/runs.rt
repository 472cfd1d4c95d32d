//! Runs of a store on disks that do not fail: their answers, and the files byte by byte.

ghost use Rattle.std.specs.Prelude.{◌≡◌};
ghost use Rattle.feature_schema.specs.Rules.{KeepsRules};

use crate::disks::{hold, pair};
use crate::requests::schema;
use crate::sides::{EMPTY, FILLED, INSERTED, OPENED, Side, THIRD, TWO};
use crate::starts::started;
use crate::steps::{Ask, Stand, Step, Told, are_told};
use disk_core::{Disk, MemDisk, Pair};
use feature_values::Schema;
use lock_table::LockId;
use std::alloc::Global;
use std::test::Fail;
use wfs_ends::Mem;
use wfs_model::{FullAt, LimitName};
use wfs_store::Store;

/// How many entries there may be, side a at first, the steps, and side a afterwards. Side b is empty, and stays so.
type Run = (u16, Side, &'static [Step], Side);

// Numbers of a type are given from 1 on. A lock is named by its opening and its number there, from 1 on. A refused step leaves no entry, and
// what the last one changed is still told.
static RUNS: [Run; 5] = [
    // the first start
    (9, EMPTY, &[], OPENED),
    // one mark
    (
        9,
        EMPTY,
        &[(
            Ask::Insert("A"),
            Told::Inserted(1, 1),
            Stand {
                marks: 1,
                entries: 1,
                changed: true,
            },
        )],
        INSERTED,
    ),
    // the third step of two: a read still answers
    (
        2,
        EMPTY,
        &[
            (
                Ask::Insert("A"),
                Told::Inserted(1, 1),
                Stand {
                    marks: 1,
                    entries: 1,
                    changed: true,
                },
            ),
            (
                Ask::Insert("B"),
                Told::Inserted(2, 1),
                Stand {
                    marks: 2,
                    entries: 2,
                    changed: true,
                },
            ),
            (
                Ask::Insert("C"),
                Told::Full(FullAt {
                    limit: LimitName::Entries,
                    number: 2,
                }),
                Stand {
                    marks: 2,
                    entries: 2,
                    changed: true,
                },
            ),
        ],
        FILLED,
    ),
    // two marks in one step, and a lock on them, of which nothing is written
    (
        9,
        EMPTY,
        &[
            (
                Ask::InsertTwo("A", "B"),
                Told::Inserted(1, 2),
                Stand {
                    marks: 2,
                    entries: 1,
                    changed: true,
                },
            ),
            (
                Ask::Lock,
                Told::Locked(Some(LockId {
                    opening: 1,
                    number: 1,
                })),
                Stand {
                    marks: 2,
                    entries: 2,
                    changed: false,
                },
            ),
        ],
        TWO,
    ),
    // the next run on these, which begins a history and holds no lock
    (
        9,
        TWO,
        &[
            (
                Ask::Insert("C"),
                Told::Inserted(3, 1),
                Stand {
                    marks: 3,
                    entries: 1,
                    changed: true,
                },
            ),
            (
                Ask::Lock,
                Told::Locked(Some(LockId {
                    opening: 2,
                    number: 1,
                })),
                Stand {
                    marks: 3,
                    entries: 2,
                    changed: false,
                },
            ),
        ],
        THIRD,
    ),
];

fn finished<D: Disk>(
    alloc: Global,
    store: Store<D>,
    schema: &Schema,
    steps: &[Step],
) -> (bool, Pair<D>)
    requires rules { KeepsRules schema.now }
    requires schema { store.schema ≡ schema.now }
{
    let mut store = store;
    let is_so = are_told(alloc, &mut store, schema, steps) == Ok(true);
    (is_so, store.close())
}

/// Whether a run on these disks answers so, and the disks behind it.
pub fn run_on<D: Disk>(
    alloc: Global,
    disks: Pair<D>,
    schema: &Schema,
    entries: u16,
    steps: &[Step],
) -> (bool, Pair<D>)
    requires { KeepsRules schema.now }
{
    match started(alloc, disks, schema, entries) {
        Ok(store) => finished(alloc, store, schema, steps),
        Err(disks) => (false, disks),
    }
}

/// Whether a run answered so, and side a's disk holds this side behind it, and side b's none.
pub fn ended_so(run: (bool, Pair<MemDisk>), after: Side) -> bool {
    let (is_so, disks) = run;
    let mut disks = disks;
    is_so && hold(&mut disks, after, EMPTY)
}

fn is_run(alloc: Global, schema: &Schema, run: &Run) -> Mem<bool>
    requires { KeepsRules schema.now }
{
    let (entries, before, steps, after) = *run;
    let disks = pair(alloc, before, &[])?;
    Ok(ended_so(run_on(alloc, disks, schema, entries, steps), after))
}

fn first_other(alloc: Global, schema: &Schema) -> Mem<Option<usize>>
    requires { KeepsRules schema.now }
{
    for (i, run) in RUNS.iter().enumerate() {
        if !is_run(alloc, schema, run)? {
            return Ok(Some(i));
        }
    }
    Ok(None)
}

fn first_wrong(alloc: Global) -> Mem<Option<usize>> {
    let schema = schema(alloc)?;
    first_other(alloc, &schema)
}

// The first row that fails is None.
#[test]
fn runs_are_answered_and_written(rt: HostRuntime) -> Result<(), Fail> {
    assert_eq!(rt; first_wrong(rt.alloc()), Ok(None));
    Ok(())
}
