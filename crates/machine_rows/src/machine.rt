//! The machine over some marks: locks, transactions, a new opening, a stored query, and changes that are played on another machine. What is
//! expected was worked out by hand.

ghost use Rattle.std.specs.Prelude.{◌≡◌};
ghost use Rattle.transaction_core.specs.Marks.{AreMarks};

use crate::requests::{Ask, Deed, reading, request, schema};
use feature_values::{Feature, Rid, Schema};
use lock_table::{LockId, Release};
use std::alloc::Global;
use wfs_ends::Mem;
use wfs_machine::Plain;
use wfs_model::{Change, Entry, Made, Refusal, Reply, Take};

/// What is answered.
enum Want {
    /// Who is inserted, updated and replaced, and how many are deleted.
    Told(&'static [u64], &'static [u64], &'static [u64], u64),
    /// The lock's opening and number, and the marks that it takes and misses.
    Locked(Option<(u64, u64)>, &'static [u64], &'static [u64]),
    Created,
    Row(u8, &'static str),
    Count(u64),
    Marks(&'static [u64]),
    /// Nothing, since nothing is asked.
    Nothing,
}

type Step = (u64, Ask, Want);

const TWO: Ask = Ask::Transact(None, Release::Whole, &[Deed::Insert(10), Deed::Insert(20)]);

const THREE: Ask = Ask::Transact(
    None,
    Release::Whole,
    &[Deed::Insert(10), Deed::Insert(20), Deed::Insert(30)],
);

const LOCK: Option<(u64, u64)> = Some((1, 1));

static RUNS: [(&str, &[Step]); 21] = [
    (
        "a lock on one, on all, and on those that are free",
        &[
            (1000, THREE, Want::Told(&[1, 2, 3], &[], &[], 0)),
            (
                1000,
                Ask::Lock(Some(2), Take::AllOrNone, 300),
                Want::Locked(LOCK, &[2], &[]),
            ),
            (
                1000,
                Ask::Lock(None, Take::AllOrNone, 300),
                Want::Row(20, "Mark.2"),
            ),
            (
                1000,
                Ask::Lock(None, Take::Free, 300),
                Want::Locked(Some((1, 2)), &[1, 3], &[2]),
            ),
        ],
    ),
    (
        "a delete right before the deadline",
        &[
            (1000, TWO, Want::Told(&[1, 2], &[], &[], 0)),
            (
                1000,
                Ask::Lock(Some(1), Take::AllOrNone, 60),
                Want::Locked(LOCK, &[1], &[]),
            ),
            (
                1059,
                Ask::Transact(LOCK, Release::Whole, &[Deed::Delete(Some(1))]),
                Want::Told(&[], &[], &[], 1),
            ),
        ],
    ),
    (
        "a delete at the deadline",
        &[
            (1000, TWO, Want::Told(&[1, 2], &[], &[], 0)),
            (
                1000,
                Ask::Lock(Some(1), Take::AllOrNone, 60),
                Want::Locked(LOCK, &[1], &[]),
            ),
            (
                1060,
                Ask::Transact(LOCK, Release::Whole, &[Deed::Delete(Some(1))]),
                Want::Row(16, "lockId"),
            ),
            (
                1060,
                Ask::Lock(Some(1), Take::AllOrNone, 60),
                Want::Locked(Some((1, 2)), &[1], &[]),
            ),
        ],
    ),
    (
        "a renewal at the deadline, which is refused and moves the clock",
        &[
            (1000, TWO, Want::Told(&[1, 2], &[], &[], 0)),
            (
                1000,
                Ask::Lock(Some(1), Take::AllOrNone, 60),
                Want::Locked(LOCK, &[1], &[]),
            ),
            (1060, Ask::Renew(1, 1), Want::Row(16, "lockId")),
            (
                1059,
                Ask::Lock(None, Take::AllOrNone, 60),
                Want::Locked(Some((1, 2)), &[1, 2], &[]),
            ),
        ],
    ),
    (
        "those that are free, of which the first is not",
        &[
            (1000, TWO, Want::Told(&[1, 2], &[], &[], 0)),
            (
                1000,
                Ask::Lock(Some(1), Take::AllOrNone, 300),
                Want::Locked(LOCK, &[1], &[]),
            ),
            (
                1000,
                Ask::Lock(None, Take::Free, 300),
                Want::Locked(Some((1, 2)), &[2], &[1]),
            ),
        ],
    ),
    (
        "a renewed lock right before its deadline",
        &[
            (1000, TWO, Want::Told(&[1, 2], &[], &[], 0)),
            (
                1000,
                Ask::Lock(Some(1), Take::AllOrNone, 60),
                Want::Locked(LOCK, &[1], &[]),
            ),
            (1050, Ask::Renew(1, 1), Want::Locked(LOCK, &[1], &[])),
            (
                1109,
                Ask::Transact(None, Release::Whole, &[Deed::Delete(Some(1))]),
                Want::Row(18, "lockId"),
            ),
            (
                1109,
                Ask::Transact(LOCK, Release::Whole, &[Deed::Delete(Some(1))]),
                Want::Told(&[], &[], &[], 1),
            ),
        ],
    ),
    (
        "a renewed lock at its deadline",
        &[
            (1000, TWO, Want::Told(&[1, 2], &[], &[], 0)),
            (
                1000,
                Ask::Lock(Some(1), Take::AllOrNone, 60),
                Want::Locked(LOCK, &[1], &[]),
            ),
            (1050, Ask::Renew(1, 1), Want::Locked(LOCK, &[1], &[])),
            (
                1110,
                Ask::Transact(LOCK, Release::Whole, &[Deed::Delete(Some(1))]),
                Want::Row(16, "lockId"),
            ),
            (
                1110,
                Ask::Transact(None, Release::Whole, &[Deed::Delete(Some(1))]),
                Want::Told(&[], &[], &[], 1),
            ),
        ],
    ),
    (
        "without the lock, and under another's",
        &[
            (1000, TWO, Want::Told(&[1, 2], &[], &[], 0)),
            (
                1000,
                Ask::Lock(Some(1), Take::AllOrNone, 300),
                Want::Locked(LOCK, &[1], &[]),
            ),
            (
                1000,
                Ask::Lock(Some(2), Take::AllOrNone, 300),
                Want::Locked(Some((1, 2)), &[2], &[]),
            ),
            (
                1000,
                Ask::Transact(None, Release::Whole, &[Deed::Update(Some(1), 5)]),
                Want::Row(18, "lockId"),
            ),
            (
                1000,
                Ask::Transact(Some((1, 2)), Release::Whole, &[Deed::Update(Some(1), 5)]),
                Want::Row(19, "Mark.1"),
            ),
        ],
    ),
    (
        "a release of a part moves the deadline",
        &[
            (1000, THREE, Want::Told(&[1, 2, 3], &[], &[], 0)),
            (
                1000,
                Ask::Lock(None, Take::AllOrNone, 100),
                Want::Locked(LOCK, &[1, 2, 3], &[]),
            ),
            (
                1050,
                Ask::Transact(LOCK, Release::Touched, &[Deed::Update(Some(1), 5)]),
                Want::Told(&[], &[1], &[], 0),
            ),
            (
                1120,
                Ask::Transact(None, Release::Whole, &[Deed::Delete(Some(2))]),
                Want::Row(18, "lockId"),
            ),
            (
                1121,
                Ask::Transact(LOCK, Release::Whole, &[]),
                Want::Told(&[], &[], &[], 0),
            ),
            (
                1122,
                Ask::Lock(None, Take::AllOrNone, 300),
                Want::Locked(Some((1, 2)), &[1, 2, 3], &[]),
            ),
        ],
    ),
    (
        "releases that free nothing move the deadline, and a renewal tells what is left",
        &[
            (1000, THREE, Want::Told(&[1, 2, 3], &[], &[], 0)),
            (
                1000,
                Ask::Lock(None, Take::AllOrNone, 100),
                Want::Locked(LOCK, &[1, 2, 3], &[]),
            ),
            (
                1050,
                Ask::Transact(LOCK, Release::Touched, &[]),
                Want::Told(&[], &[], &[], 0),
            ),
            (
                1149,
                Ask::Transact(LOCK, Release::Touched, &[Deed::Insert(40)]),
                Want::Told(&[4], &[], &[], 0),
            ),
            (
                1248,
                Ask::Transact(LOCK, Release::Touched, &[Deed::Delete(Some(4))]),
                Want::Told(&[], &[], &[], 1),
            ),
            (1347, Ask::Renew(1, 1), Want::Locked(LOCK, &[1, 2, 3], &[])),
            (
                1347,
                Ask::Transact(LOCK, Release::Touched, &[Deed::Update(Some(2), 5)]),
                Want::Told(&[], &[2], &[], 0),
            ),
            (1347, Ask::Renew(1, 1), Want::Locked(LOCK, &[1, 3], &[])),
        ],
    ),
    (
        "a release of nothing, and the deadline that it moved",
        &[
            (1000, TWO, Want::Told(&[1, 2], &[], &[], 0)),
            (
                1000,
                Ask::Lock(None, Take::AllOrNone, 100),
                Want::Locked(LOCK, &[1, 2], &[]),
            ),
            (
                1050,
                Ask::Transact(LOCK, Release::Touched, &[]),
                Want::Told(&[], &[], &[], 0),
            ),
            (
                1149,
                Ask::Transact(None, Release::Whole, &[Deed::Delete(Some(2))]),
                Want::Row(18, "lockId"),
            ),
            (1150, Ask::Renew(1, 1), Want::Row(16, "lockId")),
        ],
    ),
    (
        "a release of a part moves no other deadline",
        &[
            (1000, THREE, Want::Told(&[1, 2, 3], &[], &[], 0)),
            (
                1000,
                Ask::Lock(Some(1), Take::AllOrNone, 100),
                Want::Locked(LOCK, &[1], &[]),
            ),
            (
                1000,
                Ask::Lock(None, Take::Free, 100),
                Want::Locked(Some((1, 2)), &[2, 3], &[1]),
            ),
            (
                1050,
                Ask::Transact(Some((1, 2)), Release::Touched, &[Deed::Update(Some(2), 5)]),
                Want::Told(&[], &[2], &[], 0),
            ),
            (
                1099,
                Ask::Transact(None, Release::Whole, &[Deed::Delete(Some(1))]),
                Want::Row(18, "lockId"),
            ),
            (
                1100,
                Ask::Lock(Some(1), Take::AllOrNone, 100),
                Want::Locked(Some((1, 3)), &[1], &[]),
            ),
            (
                1149,
                Ask::Renew(1, 2),
                Want::Locked(Some((1, 2)), &[3], &[]),
            ),
        ],
    ),
    // A moment counts as 200,000,000,000 at the most.
    (
        "a deadline at the last moment of all, and one behind it",
        &[
            (1000, TWO, Want::Told(&[1, 2], &[], &[], 0)),
            (
                199_999_999_940,
                Ask::Lock(Some(1), Take::AllOrNone, 60),
                Want::Locked(LOCK, &[1], &[]),
            ),
            (
                200_000_000_000,
                Ask::Lock(Some(1), Take::AllOrNone, 1),
                Want::Locked(Some((1, 2)), &[1], &[]),
            ),
            (
                200_000_000_001,
                Ask::Transact(None, Release::Whole, &[Deed::Delete(Some(1))]),
                Want::Row(18, "lockId"),
            ),
        ],
    ),
    (
        "a refused second action, and a delete with an insert",
        &[
            (1000, TWO, Want::Told(&[1, 2], &[], &[], 0)),
            (
                1000,
                Ask::Transact(
                    None,
                    Release::Whole,
                    &[Deed::Insert(30), Deed::Replace(None, 7)],
                ),
                Want::Row(17, "Filter"),
            ),
            (1000, Ask::Count, Want::Count(2)),
            (
                1000,
                Ask::Transact(
                    None,
                    Release::Whole,
                    &[Deed::Delete(Some(1)), Deed::Insert(10)],
                ),
                Want::Told(&[3], &[], &[], 1),
            ),
        ],
    ),
    (
        "a new opening ends the locks",
        &[
            (1000, TWO, Want::Told(&[1, 2], &[], &[], 0)),
            (
                1000,
                Ask::Lock(Some(1), Take::AllOrNone, 300),
                Want::Locked(LOCK, &[1], &[]),
            ),
            (1000, Ask::Reopen(2), Want::Nothing),
            (
                1000,
                Ask::Transact(LOCK, Release::Whole, &[]),
                Want::Row(16, "lockId"),
            ),
            (
                1000,
                Ask::Transact(Some((2, 1)), Release::Whole, &[]),
                Want::Row(15, "lockId"),
            ),
            (
                1000,
                Ask::Transact(Some((3, 1)), Release::Whole, &[]),
                Want::Row(15, "lockId"),
            ),
            (1000, Ask::Count, Want::Count(2)),
            (
                1000,
                Ask::Lock(Some(1), Take::AllOrNone, 300),
                Want::Locked(Some((2, 1)), &[1], &[]),
            ),
        ],
    ),
    (
        "a new opening begins at any moment",
        &[
            (1000, TWO, Want::Told(&[1, 2], &[], &[], 0)),
            (1000, Ask::Reopen(2), Want::Nothing),
            (
                500,
                Ask::Lock(Some(1), Take::AllOrNone, 60),
                Want::Locked(Some((2, 1)), &[1], &[]),
            ),
            (
                560,
                Ask::Transact(None, Release::Whole, &[Deed::Delete(Some(1))]),
                Want::Told(&[], &[], &[], 1),
            ),
        ],
    ),
    (
        "an opening that is played ends the locks",
        &[
            (1000, TWO, Want::Told(&[1, 2], &[], &[], 0)),
            (
                1000,
                Ask::Lock(Some(1), Take::AllOrNone, 300),
                Want::Locked(LOCK, &[1], &[]),
            ),
            (1000, Ask::PlayOpening(2), Want::Nothing),
            (
                1000,
                Ask::Transact(LOCK, Release::Whole, &[]),
                Want::Row(16, "lockId"),
            ),
            (1000, Ask::Count, Want::Count(2)),
            (
                500,
                Ask::Lock(Some(1), Take::AllOrNone, 300),
                Want::Locked(Some((2, 1)), &[1], &[]),
            ),
        ],
    ),
    (
        "a stored query with its parameter",
        &[
            (1000, TWO, Want::Told(&[1, 2], &[], &[], 0)),
            (1000, Ask::Create, Want::Created),
            (
                1000,
                Ask::Use("urn:x:by", &[("L", "20")]),
                Want::Marks(&[2]),
            ),
            (1000, Ask::Use("urn:x:by", &[]), Want::Row(10, "l")),
            (1000, Ask::Create, Want::Row(21, "urn:x:by")),
        ],
    ),
    // A request may define several stored queries, and makes all of them or none.
    (
        "two stored queries of one request",
        &[
            (1000, TWO, Want::Told(&[1, 2], &[], &[], 0)),
            (1000, Ask::CreateTwo, Want::Created),
            (
                1000,
                Ask::Use("urn:x:by", &[("l", "10")]),
                Want::Marks(&[1]),
            ),
            (
                1000,
                Ask::Use("urn:x:too", &[("l", "20")]),
                Want::Marks(&[2]),
            ),
        ],
    ),
    (
        "a change that is played, and the next number",
        &[
            (1000, TWO, Want::Told(&[1, 2], &[], &[], 0)),
            (
                1000,
                Ask::Play(&[Deed::Delete(Some(1)), Deed::Insert(30)]),
                Want::Nothing,
            ),
            (1000, Ask::Count, Want::Count(2)),
            (
                1000,
                Ask::Transact(None, Release::Whole, &[Deed::Insert(40)]),
                Want::Told(&[4], &[], &[], 0),
            ),
        ],
    ),
    // What is played ends no lock.
    (
        "a lock and the changes that are played",
        &[
            (1000, TWO, Want::Told(&[1, 2], &[], &[], 0)),
            (
                1000,
                Ask::Lock(Some(1), Take::AllOrNone, 300),
                Want::Locked(LOCK, &[1], &[]),
            ),
            (1000, Ask::Play(&[Deed::Insert(30)]), Want::Nothing),
            (1000, Ask::PlayCreate, Want::Nothing),
            (
                1000,
                Ask::Use("urn:x:by", &[("l", "30")]),
                Want::Marks(&[3]),
            ),
            (
                1000,
                Ask::Transact(None, Release::Whole, &[Deed::Delete(Some(1))]),
                Want::Row(18, "lockId"),
            ),
        ],
    ),
];

fn are_ids(ids: &[Rid], numbers: &[u64]) -> bool {
    if ids.len() != numbers.len() {
        return false;
    }
    for (id, number) in ids.iter().zip(numbers) {
        if id.number != *number {
            return false;
        }
    }
    true
}

fn are_made(made: &[Made], numbers: &[u64]) -> bool {
    if made.len() != numbers.len() {
        return false;
    }
    for (one, number) in made.iter().zip(numbers) {
        if one.id.number != *number {
            return false;
        }
    }
    true
}

fn are_marks(features: &[Feature], numbers: &[u64]) -> bool {
    if features.len() != numbers.len() {
        return false;
    }
    for (feature, number) in features.iter().zip(numbers) {
        if feature.id.number != *number {
            return false;
        }
    }
    true
}

fn is_lock(lock: &Option<LockId>, wanted: Option<(u64, u64)>) -> bool {
    match (lock, wanted) {
        (Some(lock), Some((opening, number))) => lock.opening == opening && lock.number == number,
        (None, None) => true,
        _ => false,
    }
}

fn is_row(refusal: &Refusal, row: u8, locator: &str) -> bool {
    refusal.row == row && refusal.locator.as_str() == locator
}

fn is_answer(reply: &Reply, want: &Want) -> bool {
    match (reply, want) {
        (
            Reply::Transacted {
                deleted,
                inserted,
                updated,
                replaced,
            },
            Want::Told(come, stay, change, go),
        ) => {
            deleted == go
                && are_made(inserted.items(), come)
                && are_made(updated.items(), stay)
                && are_made(replaced.items(), change)
        }
        (
            Reply::Locked {
                lock,
                taken,
                missed,
            },
            Want::Locked(id, takes, misses),
        ) => {
            is_lock(lock, *id) && are_ids(taken.items(), takes) && are_ids(missed.items(), misses)
        }
        (Reply::Created, Want::Created) => true,
        (Reply::Refused(refusal), Want::Row(row, locator)) => is_row(refusal, *row, locator),
        (Reply::Collection { matched, .. }, Want::Count(count)) => matched == count,
        (Reply::Collection { features, .. }, Want::Marks(marks)) => are_marks(
            features.items(),
            marks,
        ),
        _ => false,
    }
}

fn changed(alloc: Global, machine: &mut Plain, schema: &Schema, moment: u64, ask: Ask) -> Mem<Reply>
    requires same { machine.old.schema ≡ schema.now }
    requires marks { AreMarks schema.now }
    ensures { machine.new.schema ≡ machine.old.schema }
{
    let entry = Entry {
        seat: 0,
        moment,
        size: 0,
        request: request(alloc, schema, ask)?,
    };
    machine.step(&entry)
}

#[tactic(auto, using(wfs_machine::proofs::Changes::made_keeps))]
fn played(alloc: Global, machine: &mut Plain, schema: &Schema, ask: Ask) -> Mem<bool>
    requires same { machine.old.schema ≡ schema.now }
    requires marks { AreMarks schema.now }
    ensures { machine.new.schema ≡ machine.old.schema }
{
    let entry = Entry {
        seat: 0,
        moment: 0,
        size: 0,
        request: request(alloc, schema, ask)?,
    };
    machine.keeps_well();
    match machine.change_of(&entry)? {
        Some(change) => {
            machine.apply(&change)?;
            Ok(true)
        }
        None => Ok(false),
    }
}

#[tactic(auto, using(crate::proofs::Marks::opening_keeps))]
fn play_opening(machine: &mut Plain, opening: u64) -> Mem<bool>
    ensures { machine.new.schema ≡ machine.old.schema }
{
    machine.keeps_well();
    machine.apply(&Change::Opening(opening))?;
    Ok(true)
}

fn answered(
    alloc: Global,
    machine: &mut Plain,
    schema: &Schema,
    moment: u64,
    ask: Ask,
    want: &Want,
) -> Mem<bool>
    requires same { machine.old.schema ≡ schema.now }
    requires marks { AreMarks schema.now }
    ensures { machine.new.schema ≡ machine.old.schema }
{
    match ask {
        Ask::Reopen(opening) => {
            machine.reopen(opening);
            Ok(true)
        }
        Ask::Play(deeds) => {
            let ask = Ask::Transact(None, Release::Whole, deeds);
            played(alloc, machine, schema, ask)
        }
        Ask::PlayCreate => played(alloc, machine, schema, Ask::Create),
        Ask::PlayOpening(opening) => play_opening(machine, opening),
        Ask::Count | Ask::Use(..) => {
            let reply = machine.read(moment, &reading(alloc, ask)?)?;
            Ok(is_answer(&reply, want))
        }
        _ => Ok(is_answer(&changed(alloc, machine, schema, moment, ask)?, want)),
    }
}

// The first step of a run that is answered otherwise.
fn first_of(
    alloc: Global,
    machine: &mut Plain,
    schema: &Schema,
    steps: &[Step],
) -> Mem<Option<usize>>
    requires same { machine.old.schema ≡ schema.now }
    requires marks { AreMarks schema.now }
{
    for i in 0..steps.len() {
        let (moment, ask, want) = &steps[i];
        if !answered(alloc, machine, schema, *moment, *ask, want)? {
            return Ok(Some(i));
        }
    }
    Ok(None)
}

fn run(alloc: Global, schema: &Schema, steps: &[Step]) -> Mem<Option<usize>>
    requires { AreMarks schema.now }
{
    let mut machine = Plain::new(alloc, schema.copy(alloc)?)?;
    first_of(alloc, &mut machine, schema, steps)
}

fn first_in(alloc: Global, schema: &Schema) -> Mem<Option<(&'static str, usize)>>
    requires { AreMarks schema.now }
{
    for (name, steps) in &RUNS {
        if let Some(i) = run(alloc, schema, steps)? {
            return Ok(Some((*name, i)));
        }
    }
    Ok(None)
}

fn first_wrong(alloc: Global) -> Mem<Option<(&'static str, usize)>> {
    let schema = schema(alloc)?;
    first_in(alloc, &schema)
}

#[test]
fn each_step_is_answered_as_was_worked_out(rt: HostRuntime) {
    assert_eq!(rt; first_wrong(rt.alloc()), Ok(None));
}
