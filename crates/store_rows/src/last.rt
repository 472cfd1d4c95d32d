//! The last number of an opening and of a generation: a start and a compaction behind it.

ghost use Rattle.std.specs.Prelude.{◌≡◌, []};
ghost use Rattle.feature_schema.specs.Rules.{KeepsRules};

use crate::disks::pair;
use crate::requests::schema;
use crate::sides::{LAST_BUT_ONE, OLDER, OLDEST, Side};
use crate::starts::started;
use disk_core::{Disk, Pair};
use feature_values::Schema;
use std::alloc::Global;
use std::test::Fail;
use wfs_ends::Mem;
use wfs_model::{FullAt, LimitName};
use wfs_store::{StepFault, Store};

/// The number of the opening, what the compaction is answered, and how long side b is then.
type Told = (u64, Result<(), StepFault>, u64);

static ROWS: [(Side, Told); 3] = [
    // a checkpoint with nothing: 16 + 40 + 1
    (LAST_BUT_ONE, (1_000_000_000_000, Ok(()), 57)),
    // and with Mark.1: 31 more
    (OLDER, (2, Ok(()), 88)),
    (
        OLDEST,
        (
            2,
            Err(StepFault::Full(FullAt {
                limit: LimitName::Side,
                number: 18_446_744_073_709_551_615,
            })),
            0,
        ),
    ),
];

fn told_by<D: Disk + Drop>(store: Store<D>) -> Option<Told>
    requires { store.entries ≡ [] }
{
    let mut store = store;
    let opening = store.features().openings();
    let answer = store.compact();
    let mut disks = store.close();
    match disks.b.len() {
        Ok(length) => Some((opening, answer, length)),
        Err(_) => None,
    }
}

fn told_on<D: Disk + Drop>(alloc: Global, disks: Pair<D>, schema: &Schema) -> Option<Told>
    requires { KeepsRules schema.now }
{
    match started(alloc, disks, schema, 9) {
        Ok(store) => told_by(store),
        Err(_) => None,
    }
}

fn first_other(alloc: Global, schema: &Schema) -> Mem<Option<usize>>
    requires { KeepsRules schema.now }
{
    for (i, (before, told)) in ROWS.iter().enumerate() {
        if told_on(alloc, pair(alloc, *before, &[])?, schema) != Some(*told) {
            return Ok(Some(i));
        }
    }
    Ok(None)
}

fn first_wrong(alloc: Global) -> Mem<Option<usize>> {
    let schema = schema(alloc)?;
    first_other(alloc, &schema)
}

#[test]
fn last_numbers_are_given_and_none_behind_them(rt: HostRuntime) -> Result<(), Fail> {
    assert_eq!(rt; first_wrong(rt.alloc()), Ok(None));
    Ok(())
}
