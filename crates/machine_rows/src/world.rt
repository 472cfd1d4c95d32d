//! Events over one or two seats. What is seen was worked out by hand.

ghost use Rattle.std.specs.Prelude.{◌≡◌, IfOk, All};
ghost use Rattle.transaction_core.specs.Marks.{AreMarks};
ghost use Rattle.wfs_world.specs.Events.{IsEventOf};

use crate::requests::{Ask, Deed, reading, request, schema};
use feature_values::Schema;
use lock_table::Release;
use std::alloc::Global;
use std::mem::drop;
use wfs_ends::{List, Mem, Text};
use wfs_model::{Reply, Request, Take};
use wfs_world::{Event, PutOutcome, Seen, World, WorldFault};

/// Two marks are inserted.
const INSERT: Ask = Ask::Transact(None, Release::Whole, &[Deed::Insert(10), Deed::Insert(20)]);

/// The first mark is locked for a minute.
const LOCK: Ask = Ask::Lock(Some(1), Take::AllOrNone, 60);

/// The first mark is deleted under that lock.
const DELETE: Ask = Ask::Transact(Some((1, 1)), Release::Whole, &[Deed::Delete(Some(1))]);

/// What happens.
#[derive(Clone, Copy, Debug, PartialEq, Eq)]
enum Does {
    /// A request arrives, with the moment that is handed in.
    Arrive(u32, u64, Ask),
    Take(u32),
    Put(u32, PutOutcome),
    Enter(u32),
    Leave(u32),
    /// The marks are counted at a front.
    Count(u32, u64),
    /// A stored query is to go, asked as if that were a read at a front.
    ReadDrop(u32, u64),
    Crash(bool),
    Reopen,
}

/// What is seen.
enum Want {
    Nothing,
    NotNow,
    Fault,
    /// Two marks were inserted, the first under this number.
    Inserted(u64),
    /// One lock was taken.
    Locked,
    /// So many marks were deleted.
    Deleted(u64),
    Count(u64),
    Opening(u64),
}

type Step = (Does, Want);

/// A fault that leaves the change begun, and a crash that finds it.
static FOUND: [Step; 7] = [
    (Does::Arrive(0, 1000, INSERT), Want::Nothing),
    (Does::Take(0), Want::Nothing),
    (Does::Put(0, PutOutcome::FaultBegun), Want::Nothing),
    (Does::Leave(0), Want::Fault),
    (Does::Crash(true), Want::Nothing),
    (Does::Reopen, Want::Opening(2)),
    (Does::Count(0, 0), Want::Count(2)),
];

/// A fault keeps a request out of the history. Where it leaves the journal clean, it ends also what an earlier one has begun, and no crash
/// finds that.
static FAULTS: [Step; 13] = [
    (Does::Arrive(0, 1000, INSERT), Want::Nothing),
    (Does::Take(0), Want::Nothing),
    (Does::Put(0, PutOutcome::FaultBegun), Want::Nothing),
    (Does::Enter(0), Want::NotNow),
    (Does::Leave(0), Want::Fault),
    (Does::Arrive(0, 1000, INSERT), Want::Nothing),
    (Does::Take(0), Want::Nothing),
    (Does::Put(0, PutOutcome::FaultClean), Want::Nothing),
    (Does::Leave(0), Want::Fault),
    (Does::Crash(true), Want::NotNow),
    (Does::Crash(false), Want::Nothing),
    (Does::Reopen, Want::Opening(2)),
    (Does::Count(0, 0), Want::Count(0)),
];

/// Each event in its turn and none before it, and reads of both states. Nothing that may change the state is a read. A new opening has no
/// history yet, so each seat has seen none of it, and reads what the journal kept.
static TURNS: [Step; 30] = [
    (Does::Take(0), Want::NotNow),
    (Does::Arrive(2, 1000, INSERT), Want::NotNow),
    (Does::Arrive(0, 1000, INSERT), Want::Nothing),
    (Does::Arrive(0, 1000, INSERT), Want::NotNow),
    (Does::Arrive(1, 900, INSERT), Want::Nothing),
    (Does::Put(0, PutOutcome::Done), Want::NotNow),
    (Does::Take(1), Want::NotNow),
    (Does::Take(0), Want::Nothing),
    (Does::Take(1), Want::NotNow),
    (Does::Enter(0), Want::NotNow),
    (Does::Put(0, PutOutcome::NotNeeded), Want::NotNow),
    (Does::Put(0, PutOutcome::FaultHeld), Want::NotNow),
    (Does::Put(0, PutOutcome::Done), Want::Nothing),
    (Does::Leave(0), Want::NotNow),
    (Does::Enter(0), Want::Nothing),
    (Does::Leave(0), Want::Inserted(1)),
    (Does::Count(1, 0), Want::Count(0)),
    (Does::Count(0, 0), Want::NotNow),
    (Does::Count(1, 2), Want::NotNow),
    (Does::Count(1, 1), Want::Count(2)),
    (Does::ReadDrop(1, 1), Want::NotNow),
    (Does::Reopen, Want::NotNow),
    (Does::Take(1), Want::Nothing),
    (Does::Put(1, PutOutcome::Done), Want::Nothing),
    (Does::Enter(1), Want::Nothing),
    (Does::Leave(1), Want::Inserted(3)),
    (Does::Crash(true), Want::NotNow),
    (Does::Crash(false), Want::Nothing),
    (Does::Reopen, Want::Opening(2)),
    (Does::Count(1, 0), Want::Count(4)),
];

/// A lock that was handed an earlier moment lives from the last one on: a minute later less a second it is still there. Locks end with the
/// process, so the journal has nothing to take of one, and nothing to fail at.
static LOCKED: [Step; 18] = [
    (Does::Arrive(0, 1000, INSERT), Want::Nothing),
    (Does::Take(0), Want::Nothing),
    (Does::Put(0, PutOutcome::Done), Want::Nothing),
    (Does::Enter(0), Want::Nothing),
    (Does::Leave(0), Want::Inserted(1)),
    (Does::Arrive(0, 900, LOCK), Want::Nothing),
    (Does::Take(0), Want::Nothing),
    (Does::Put(0, PutOutcome::Done), Want::NotNow),
    (Does::Put(0, PutOutcome::FaultClean), Want::NotNow),
    (Does::Put(0, PutOutcome::FaultBegun), Want::NotNow),
    (Does::Put(0, PutOutcome::NotNeeded), Want::Nothing),
    (Does::Enter(0), Want::Nothing),
    (Does::Leave(0), Want::Locked),
    (Does::Arrive(0, 1059, DELETE), Want::Nothing),
    (Does::Take(0), Want::Nothing),
    (Does::Put(0, PutOutcome::Done), Want::Nothing),
    (Does::Enter(0), Want::Nothing),
    (Does::Leave(0), Want::Deleted(1)),
];

// A stored query is to go.
fn drops(alloc: Global) -> Mem<Request> {
    Ok(Request::DropStored(Text::of(alloc, "urn:x:by")?))
}

fn event(alloc: Global, schema: &Schema, does: Does) -> Mem<Event>
    requires { AreMarks schema.now }
    ensures { IfOk result (IsEventOf schema.now) }
{
    Ok(match does {
        Does::Arrive(seat, moment, ask) => Event::Arrive {
            seat,
            moment,
            size: 0,
            request: request(alloc, schema, ask)?,
        },
        Does::Take(seat) => Event::Take { seat },
        Does::Put(seat, outcome) => Event::Put { seat, outcome },
        Does::Enter(seat) => Event::Enter { seat },
        Does::Leave(seat) => Event::Leave { seat },
        Does::Count(seat, front) => Event::Read {
            seat,
            front,
            moment: 1000,
            request: reading(alloc, Ask::Count)?,
        },
        Does::ReadDrop(seat, front) => Event::Read {
            seat,
            front,
            moment: 1000,
            request: drops(alloc)?,
        },
        Does::Crash(with_begun) => Event::Crash { with_begun },
        Does::Reopen => Event::Reopen,
    })
}

fn is_answer(reply: &Reply, want: &Want) -> bool {
    match (reply, want) {
        (Reply::Transacted { inserted, .. }, Want::Inserted(number)) => match inserted.items() {
            [first, _] => first.id.number == *number,
            _ => false,
        },
        (Reply::Transacted { deleted, .. }, Want::Deleted(count)) => deleted == count,
        (Reply::Locked { lock, .. }, Want::Locked) => lock.is_some(),
        (Reply::Collection { matched, .. }, Want::Count(count)) => matched == count,
        _ => false,
    }
}

fn is_seen(seen: &Seen, want: &Want) -> bool {
    match (seen, want) {
        (Seen::Nothing, Want::Nothing) | (Seen::Fault, Want::Fault) => true,
        (Seen::Answer(reply), _) => is_answer(reply, want),
        (Seen::Reopened(number), Want::Opening(opening)) => number == opening,
        _ => false,
    }
}

fn is_as(seen: &Result<Seen, WorldFault>, want: &Want) -> bool {
    match seen {
        Ok(seen) => is_seen(seen, want),
        Err(WorldFault::NotNow) => matches!(want, Want::NotNow),
        Err(WorldFault::OutOfMemory) => false,
    }
}

// Whether what is seen of an event is what is wanted.
fn happens_as(world: &mut World, event: Event, want: &Want) -> bool
    requires { IsEventOf world.old.schema event }
    ensures { world.new.schema ≡ world.old.schema }
{
    let seen = world.step(event);
    let is = is_as(&seen, want);
    drop(seen);
    is
}

// The first event of which something else is seen.
fn first_of(alloc: Global, world: &mut World, schema: &Schema, steps: &[Step]) -> Mem<Option<usize>>
    requires marks { AreMarks schema.now }
    requires schema { world.old.schema ≡ schema.now }
{
    for i in 0..steps.len() {
        let (does, want) = &steps[i];
        let event = event(alloc, schema, *does)?;
        if !happens_as(world, event, want) {
            return Ok(Some(i));
        }
    }
    Ok(None)
}

// The first wrong event of a world with so many seats.
fn first_wrong(alloc: Global, seats: u32, steps: &[Step]) -> Mem<Option<usize>> {
    let schema = schema(alloc)?;
    let mut world = World::new(alloc, schema.copy(alloc)?, seats)?;
    let wrong = first_of(alloc, &mut world, &schema, steps);
    drop(world);
    wrong
}

#[test]
fn each_event_happens_in_its_turn(rt: HostRuntime) {
    assert_eq!(rt; first_wrong(rt.alloc(), 2, &TURNS), Ok(None));
}

#[test]
fn a_fault_keeps_out_what_it_meets(rt: HostRuntime) {
    assert_eq!(rt; first_wrong(rt.alloc(), 1, &FAULTS), Ok(None));
}

#[test]
fn a_lock_lives_from_the_moment_of_its_entry(rt: HostRuntime) {
    assert_eq!(rt; first_wrong(rt.alloc(), 1, &LOCKED), Ok(None));
}

fn events(alloc: Global, schema: &Schema) -> Mem<List<Event>>
    requires { AreMarks schema.now }
    ensures { IfOk result (All (IsEventOf schema.now)) }
{
    let mut events = Vec::new(alloc);
    for (does, _) in &FOUND {
        events.push(event(alloc, schema, *does)?)?;
    }
    Ok(List::of(events))
}

fn are_seen(seen: &[Seen]) -> bool {
    if seen.len() != FOUND.len() {
        return false;
    }
    for (one, (_, want)) in seen.iter().zip(&FOUND) {
        if !is_seen(one, want) {
            return false;
        }
    }
    true
}

fn runs(world: &mut World, events: List<Event>) -> bool
    requires { All (IsEventOf world.old.schema) events }
{
    match world.run(events) {
        Ok(seen) => are_seen(seen.items()),
        Err(_) => false,
    }
}

fn are_found(alloc: Global, schema: Schema, events: List<Event>) -> Mem<bool>
    requires { All (IsEventOf schema) events }
{
    let mut world = World::new(alloc, schema, 2)?;
    let are = runs(&mut world, events);
    drop(world);
    Ok(are)
}

fn is_found(alloc: Global) -> Mem<bool> {
    let schema = schema(alloc)?;
    let events = events(alloc, &schema)?;
    are_found(alloc, schema, events)
}

#[test]
fn a_crash_finds_what_a_fault_has_begun(rt: HostRuntime) {
    assert_eq!(rt; is_found(rt.alloc()), Ok(true));
}
