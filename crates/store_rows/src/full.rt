//! Steps that just meet a limit, and such as would pass it.

ghost use Rattle.std.specs.Prelude.{◌≡◌};
ghost use Rattle.feature_schema.specs.Rules.{KeepsRules};

use crate::disks::pair;
use crate::requests::schema;
use crate::sides::EMPTY;
use crate::starts::{narrow, started_within};
use crate::steps::{Ask, Told, does};
use disk_core::Disk;
use feature_values::Schema;
use std::alloc::Global;
use std::test::Fail;
use wfs_ends::Mem;
use wfs_model::{FullAt, LimitName};
use wfs_store::Store;

/// The limits on entries, on their bytes and on a side's length; what is asked twice on empty files, and both answers.
type Row = (u16, u16, u16, Ask, (Told, Told));

// What is asked has 60 bytes. The first opening makes a side of 124 bytes, and a mark has 31 more.
static ROWS: [Row; 5] = [
    (
        9,
        120,
        999,
        Ask::Lock,
        (Told::Locked(None), Told::Locked(None)),
    ),
    (
        9,
        119,
        999,
        Ask::Lock,
        (
            Told::Locked(None),
            Told::Full(FullAt {
                limit: LimitName::Bytes,
                number: 60,
            }),
        ),
    ),
    // both limits would be passed: that on entries is told
    (
        1,
        60,
        999,
        Ask::Lock,
        (
            Told::Locked(None),
            Told::Full(FullAt {
                limit: LimitName::Entries,
                number: 1,
            }),
        ),
    ),
    (
        9,
        999,
        155,
        Ask::Insert("A"),
        (
            Told::Inserted(1, 1),
            Told::Full(FullAt {
                limit: LimitName::Side,
                number: 155,
            }),
        ),
    ),
    (
        9,
        999,
        154,
        Ask::Insert("A"),
        (
            Told::Full(FullAt {
                limit: LimitName::Side,
                number: 124,
            }),
            Told::Full(FullAt {
                limit: LimitName::Side,
                number: 124,
            }),
        ),
    ),
];

fn answers<D: Disk + Drop>(
    alloc: Global,
    store: Store<D>,
    schema: &Schema,
    ask: Ask,
) -> Mem<(Told, Told)>
    requires rules { KeepsRules schema.now }
    requires schema { store.schema ≡ schema.now }
{
    let mut store = store;
    let first = does(alloc, &mut store, schema, ask)?;
    let second = does(alloc, &mut store, schema, ask)?;
    Ok((first, second))
}

fn is_so(alloc: Global, schema: &Schema, row: &Row) -> Mem<bool>
    requires { KeepsRules schema.now }
{
    let (entries, bytes, side, ask, told) = *row;
    let disks = pair(alloc, EMPTY, &[])?;
    match started_within(alloc, disks, schema, narrow(entries, bytes, side)) {
        Ok(store) => Ok(answers(alloc, store, schema, ask)? == told),
        Err(_) => Ok(false),
    }
}

fn first_other(alloc: Global, schema: &Schema) -> Mem<Option<usize>>
    requires { KeepsRules schema.now }
{
    for (i, row) in ROWS.iter().enumerate() {
        if !is_so(alloc, schema, row)? {
            return Ok(Some(i));
        }
    }
    Ok(None)
}

fn first_wrong(alloc: Global) -> Mem<Option<usize>> {
    let schema = schema(alloc)?;
    first_other(alloc, &schema)
}

#[test]
fn limits_are_met_and_not_passed(rt: HostRuntime) -> Result<(), Fail> {
    assert_eq!(rt; first_wrong(rt.alloc()), Ok(None));
    Ok(())
}
