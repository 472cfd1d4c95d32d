//! Steps of one opening. What each comes to was worked out by hand from the rules of locks and limits.

ghost use Rattle.std.specs.Prelude.{◌≡◌, OnOk};
ghost use Rattle.request_plans.specs.Marks.{AreMarks};
ghost use Rattle.wfs_model.specs.Changing.{IsChange};
ghost use Rattle.wfs_model.specs.OfSchema.{IsOfSchema};
ghost use Rattle.service_state.specs.Running.{IsStepOf};

use crate::asks::{Ask, insertion, request};
use crate::marks::{first_state, schema, two_types};
use feature_values::Schema;
use lock_table::LockId;
use service_state::{PrepareFault, ServiceState};
use std::alloc::Global;
use wfs_ends::{List, Mem};
use wfs_model::{FullAt, LimitName, Limits, Made, Present, Reply, Request};

/// What a step comes to.
#[derive(Clone, Copy)]
enum Outcome {
    /// This mark was inserted.
    Inserted(u64),
    /// So many marks were deleted.
    Deleted(u64),
    /// This mark was inserted, and one was deleted.
    Exchanged(u64),
    Locked(LockId),
    Created,
    /// The row of the refusal.
    Refused(u8),
    /// The limit that the step would pass, and the quantity before it.
    Full(LimitName, u64),
}

/// What is shown, the moment that is handed in, what is asked, and what it comes to.
type Step = (&'static str, u64, Ask, Outcome);

/// How many features, numbers of a type, live locks and stored queries there may be.
type Most = (u8, u8, u8, u8);

const FIRST: LockId = LockId {
    opening: 1,
    number: 1,
};

const SECOND: LockId = LockId {
    opening: 1,
    number: 2,
};

const THIRD: LockId = LockId {
    opening: 1,
    number: 3,
};

const FOURTH: LockId = LockId {
    opening: 1,
    number: 4,
};

/// The limits of the first table.
const MOST: Most = (3, 4, 1, 1);

/// With at most three marks, four numbers, one live lock and one stored query.
static STEPS: [Step; 21] = [
    ("a first mark", 1000, Ask::Insert, Outcome::Inserted(1)),
    ("a second mark", 1000, Ask::Insert, Outcome::Inserted(2)),
    (
        "a lock until 1060",
        1000,
        Ask::Lock(1),
        Outcome::Locked(FIRST),
    ),
    (
        "one live lock more than may be",
        1059,
        Ask::Lock(2),
        Outcome::Full(LimitName::Locks, 1),
    ),
    (
        "the locked mark goes, without its lock",
        1059,
        Ask::Delete(1, None),
        Outcome::Refused(18),
    ),
    (
        "a third mark, at a moment before the last one",
        900,
        Ask::Insert,
        Outcome::Inserted(3),
    ),
    (
        "one mark more than may stand",
        1059,
        Ask::Insert,
        Outcome::Full(LimitName::Features, 3),
    ),
    (
        "the locked mark goes, under its lock",
        1059,
        Ask::Delete(1, Some(FIRST)),
        Outcome::Deleted(1),
    ),
    (
        "its lock has ended",
        1059,
        Ask::Delete(2, Some(FIRST)),
        Outcome::Refused(16),
    ),
    (
        "another lock, until 1119, at a moment before the last one",
        900,
        Ask::Lock(2),
        Outcome::Locked(SECOND),
    ),
    (
        "it lives on",
        1118,
        Ask::Delete(2, None),
        Outcome::Refused(18),
    ),
    (
        "a lock at its deadline",
        1119,
        Ask::Delete(2, Some(SECOND)),
        Outcome::Refused(16),
    ),
    (
        "what it held goes",
        1119,
        Ask::Delete(2, None),
        Outcome::Deleted(1),
    ),
    ("a fourth number", 1119, Ask::Insert, Outcome::Inserted(4)),
    (
        "one number more than may be given",
        1119,
        Ask::Insert,
        Outcome::Full(LimitName::Ids, 4),
    ),
    (
        "a stored query",
        1119,
        Ask::Create("urn:x:one"),
        Outcome::Created,
    ),
    (
        "the same once more",
        1119,
        Ask::Create("urn:x:one"),
        Outcome::Refused(21),
    ),
    (
        "one stored query more than may be",
        1119,
        Ask::Create("urn:x:two"),
        Outcome::Full(LimitName::Stored, 1),
    ),
    (
        "a lock until the last moment of all, which is 200,000,000,000",
        199_999_999_940,
        Ask::Lock(3),
        Outcome::Locked(THIRD),
    ),
    (
        "another lock, until a later moment",
        200_000_000_000,
        Ask::Lock(3),
        Outcome::Locked(FOURTH),
    ),
    (
        "it lives on, since no later moment comes",
        200_000_000_060,
        Ask::Delete(3, None),
        Outcome::Refused(18),
    ),
];

/// What is told then: two marks, four numbers and two stored queries, the last moment, the opening, and the moments that reads at 1119 and at
/// 200,000,000,001 print.
const AT_THE_END: [u64; 7] = [2, 4, 2, 200_000_000_000, 1, 1119, 200_000_000_000];

/// Behind the first three steps, each under limits of its own.
static LIMITED: [(Most, Step); 6] = [
    (
        (9, 9, 0, 9),
        (
            "one lock more, where more live than may",
            1000,
            Ask::Lock(2),
            Outcome::Full(LimitName::Locks, 1),
        ),
    ),
    (
        (9, 9, 0, 9),
        (
            "a mark, where more locks live than may",
            1000,
            Ask::Insert,
            Outcome::Inserted(3),
        ),
    ),
    (
        (2, 9, 9, 9),
        (
            "one of all marks that may stand goes, and another comes",
            1000,
            Ask::Exchange(2),
            Outcome::Exchanged(3),
        ),
    ),
    (
        (2, 2, 9, 9),
        (
            "one mark and one number more than may be",
            1000,
            Ask::Insert,
            Outcome::Full(LimitName::Features, 2),
        ),
    ),
    (
        (9, 3, 9, 9),
        (
            "two numbers, of which one may be given",
            1000,
            Ask::InsertTwo,
            Outcome::Full(LimitName::Ids, 2),
        ),
    ),
    (
        (9, 9, 9, 1),
        (
            "two stored queries, of which one may be",
            1000,
            Ask::CreateTwo("urn:x:one", "urn:x:two"),
            Outcome::Full(LimitName::Stored, 0),
        ),
    ),
];

/// The type of what is inserted, and what it comes to, where one number of each type may be given.
type Insertion = (&'static str, u32, Outcome);

static INSERTIONS: [Insertion; 3] = [
    ("a number of the second type", 1, Outcome::Inserted(1)),
    ("one more of it", 1, Outcome::Full(LimitName::Ids, 1)),
    ("a number of the first type", 0, Outcome::Inserted(1)),
];

fn limits(most: Most) -> Limits {
    let (features, ids, locks, stored) = most;
    let stated = Limits::stated();
    Limits {
        entries: stated.entries,
        bytes: stated.bytes,
        features: u64::from(features),
        ids: u64::from(ids),
        locks: u64::from(locks),
        stored: u64::from(stored),
        side: stated.side,
    }
}

// A step at the moment at which an entry is taken up that comes at this one.
fn step(
    state: &mut ServiceState,
    moment: u64,
    request: &Request,
    limits: &Limits,
) -> Result<Reply, PrepareFault>
    requires change { IsChange request.now }
    requires fitting { IsOfSchema state.old.schema request.now }
    ensures step { IsStepOf state.old moment request.now result state.new }
    ensures schema { state.new.schema ≡ state.old.schema }
{
    let moment = state.moment_of(moment);
    let plan = state.plan(moment, request)?;
    state.prepare(&plan, moment, limits)?;
    Ok(state.carry(plan, moment))
}

fn is_one(inserted: &[Made], number: u64) -> bool {
    inserted.len() == 1 && inserted[0].id.number == number
}

fn is_transacted(deleted: u64, inserted: &[Made], wanted: Outcome) -> bool {
    match wanted {
        Outcome::Inserted(number) => deleted == 0 && is_one(inserted, number),
        Outcome::Deleted(gone) => deleted == gone && inserted.is_empty(),
        Outcome::Exchanged(number) => deleted == 1 && is_one(inserted, number),
        _ => false,
    }
}

fn is_outcome(outcome: &Result<Reply, PrepareFault>, wanted: Outcome) -> bool {
    match (outcome, wanted) {
        (
            Ok(
                Reply::Transacted {
                    deleted,
                    inserted,
                    ..
                },
            ),
            _,
        ) => is_transacted(*deleted, inserted.items(), wanted),
        (Ok(Reply::Locked { lock, .. }), Outcome::Locked(id)) => *lock == Some(id),
        (Ok(Reply::Created), Outcome::Created) => true,
        (Ok(Reply::Refused(refusal)), Outcome::Refused(row)) => refusal.row == row,
        (Err(PrepareFault::Full(at)), Outcome::Full(limit, number)) => {
            *at == FullAt { limit, number }
        }
        _ => false,
    }
}

fn comes_to(
    alloc: Global,
    schema: &Schema,
    state: &mut ServiceState,
    most: Most,
    row: &Step,
) -> Mem<bool>
    requires marks { AreMarks schema.now }
    requires schema { state.old.schema ≡ schema.now }
    ensures { state.new.schema ≡ state.old.schema }
{
    let (_, moment, ask, outcome) = *row;
    let request = request(alloc, schema, ask)?;
    Ok(is_outcome(&step(state, moment, &request, &limits(most)), outcome))
}

fn first_of(
    alloc: Global,
    schema: &Schema,
    state: &mut ServiceState,
    rows: &[Step],
) -> Mem<Option<&'static str>>
    requires marks { AreMarks schema.now }
    requires schema { state.old.schema ≡ schema.now }
    ensures { state.new.schema ≡ state.old.schema }
{
    for row in rows {
        if !comes_to(alloc, schema, state, MOST, row)? {
            return Ok(Some(row.0));
        }
    }
    Ok(None)
}

// How many stored queries are told, the built-in one with them.
fn stored(state: &ServiceState) -> Mem<u64> {
    match state.read(1119, &Request::ListStored)? {
        Reply::StoredList(queries) => Ok(queries.items().len() as u64),
        _ => Ok(0),
    }
}

// A read of no features.
fn no_features(alloc: Global) -> Request
    ensures { IsChange result → ⊥ }
{
    let present = Present {
        start: 0,
        count: None,
        hits: true,
        link: None,
    };
    Request::GetFeatures(present, List::of(Vec::new(alloc)))
}

// The moment that a read prints.
fn printed(alloc: Global, state: &ServiceState, moment: u64) -> Mem<u64> {
    match state.read(moment, &no_features(alloc))? {
        Reply::Collection { moment, .. } => Ok(moment),
        _ => Ok(0),
    }
}

// What is told at the end: marks, numbers, stored queries, the last moment, the opening, and the moments of two reads.
fn told(alloc: Global, state: &ServiceState) -> Mem<[u64; 7]> {
    let features = state.features();
    let queries = stored(state)?;
    let earlier = printed(alloc, state, 1119)?;
    let later = printed(alloc, state, 200_000_000_001)?;
    Ok([
        features.count(),
        features.counter(0),
        queries,
        state.last(),
        state.opening(),
        earlier,
        later,
    ])
}

fn first_wrong(alloc: Global) -> Mem<(Option<&'static str>, [u64; 7])> {
    let schema = schema(alloc)?;
    let mut state = first_state(alloc, &schema)?;
    let wrong = first_of(alloc, &schema, &mut state, &STEPS)?;
    Ok((wrong, told(alloc, &state)?))
}

#[test]
fn steps_come_to_what_was_worked_out(rt: HostRuntime) {
    assert_eq!(rt; first_wrong(rt.alloc()), Ok((None, AT_THE_END)));
}

// A step behind the first three.
fn holds(alloc: Global, most: Most, row: &Step) -> Mem<bool> {
    let schema = schema(alloc)?;
    let mut state = first_state(alloc, &schema)?;
    if first_of(alloc, &schema, &mut state, &STEPS[..3])?.is_some() {
        return Ok(false);
    }
    comes_to(alloc, &schema, &mut state, most, row)
}

fn first_limited(alloc: Global) -> Mem<Option<&'static str>> {
    for row in LIMITED.iter() {
        let (most, step) = *row;
        if !holds(alloc, most, &step)? {
            return Ok(Some(step.0));
        }
    }
    Ok(None)
}

#[test]
fn limits_are_passed_by_what_becomes_greater(rt: HostRuntime) {
    assert_eq!(rt; first_limited(rt.alloc()), Ok(None));
}

fn inserts(alloc: Global, schema: &Schema, state: &mut ServiceState, row: &Insertion) -> Mem<bool>
    requires { state.old.schema ≡ schema.now }
    ensures { state.new.schema ≡ state.old.schema }
{
    let (_, kind, outcome) = *row;
    let request = insertion(alloc, schema, kind)?;
    Ok(is_outcome(&step(state, 1000, &request, &limits((9, 1, 9, 9))), outcome))
}

fn first_inserted(
    alloc: Global,
    schema: &Schema,
    state: &mut ServiceState,
) -> Mem<Option<&'static str>>
    requires { state.old.schema ≡ schema.now }
{
    for row in INSERTIONS.iter() {
        if !inserts(alloc, schema, state, row)? {
            return Ok(Some(row.0));
        }
    }
    Ok(None)
}

fn first_of_types(alloc: Global) -> Mem<Option<&'static str>> {
    let schema = two_types(alloc)?;
    let mut state = first_state(alloc, &schema)?;
    first_inserted(alloc, &schema, &mut state)
}

#[test]
fn numbers_are_given_by_type(rt: HostRuntime) {
    assert_eq!(rt; first_of_types(rt.alloc()), Ok(None));
}
