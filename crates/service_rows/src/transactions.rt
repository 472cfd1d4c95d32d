//! Transactions on two marks, each of which a lock holds until 1100. What is expected was worked out by hand.

ghost use Rattle.std.specs.Prelude.{◌≡◌, ◌<◌, ◌≤◌, length};
ghost use Rattle.wfs_model.specs.OfSchema.{IsOfSchema};
ghost use Rattle.transaction_core.specs.Plan.{IsTransaction};
ghost use Rattle.transaction_core.specs.Marks.{AreMarks};

use crate::deeds::{Deed, transaction};
use crate::marks::{Nothing, no_marks};
use crate::samples::{are, are_made};
use feature_overlay::Overlay;
use feature_values::{Feature, Schema, Value};
use fes_filter::{FeatureView, Steps};
use lock_table::{LockId, LockTable, Release};
use std::alloc::Global;
use std::marker::Brand;
use std::sync::ledger::{Blank, Ledger};
use transaction_core::{PlanFault, Planned, plan};
use wfs_ends::{List, Mem};
use wfs_model::{Change, Part, Refusal, Reply, Request};

mod marks;

use marks::{counters, two_locks, two_marks};

/// The number of a mark, and the size that it has then, or that it goes.
type Row = (u64, Option<i64>);

/// Who is inserted, updated and replaced, and how many are deleted.
type Told = (&'static [u64], &'static [u64], &'static [u64], u64);

/// The lock that is named, the moment, the actions, and what they come to: the refusal; or the parts, what is told and who is touched.
type Case = (
    &'static str,
    Option<LockId>,
    u64,
    &'static [Deed],
    Option<(u8, &'static str)>,
    &'static [Row],
    Told,
    &'static [u64],
);

static CASES: [Case; 19] = [
    (
        "a mark that is locked, without a lock",
        None,
        1000,
        &[Deed::Update(Some(1), 5)],
        Some((18, "lockId")),
        &[],
        (&[], &[], &[], 0),
        &[],
    ),
    (
        "under the lock of the other mark",
        Some(LockId {
            opening: 1,
            number: 2,
        }),
        1000,
        &[Deed::Update(Some(1), 5)],
        Some((19, "Mark.1")),
        &[],
        (&[], &[], &[], 0),
        &[],
    ),
    (
        "under the lock of the first of two",
        Some(LockId {
            opening: 1,
            number: 1,
        }),
        1000,
        &[Deed::Update(None, 5)],
        Some((19, "Mark.2")),
        &[],
        (&[], &[], &[], 0),
        &[],
    ),
    (
        "under its own lock",
        Some(LockId {
            opening: 1,
            number: 1,
        }),
        1099,
        &[Deed::Update(Some(1), 5)],
        None,
        &[(1, Some(5))],
        (&[], &[1], &[], 0),
        &[1],
    ),
    (
        "under a lock that has ended",
        Some(LockId {
            opening: 1,
            number: 1,
        }),
        1100,
        &[Deed::Delete(Some(1))],
        Some((16, "lockId")),
        &[],
        (&[], &[], &[], 0),
        &[],
    ),
    (
        "under a lock that was never given",
        Some(LockId {
            opening: 2,
            number: 1,
        }),
        1000,
        &[],
        Some((15, "lockId")),
        &[],
        (&[], &[], &[], 0),
        &[],
    ),
    (
        "the same, where another lock holds what goes",
        Some(LockId {
            opening: 2,
            number: 1,
        }),
        1000,
        &[Deed::Delete(Some(2))],
        Some((15, "lockId")),
        &[],
        (&[], &[], &[], 0),
        &[],
    ),
    (
        "nothing at all",
        Some(LockId {
            opening: 1,
            number: 1,
        }),
        1000,
        &[],
        None,
        &[],
        (&[], &[], &[], 0),
        &[],
    ),
    (
        "a Replace of all behind an Insert",
        None,
        1100,
        &[Deed::Insert(30), Deed::Replace(None, 7)],
        Some((17, "Filter")),
        &[],
        (&[], &[], &[], 0),
        &[],
    ),
    (
        "a Replace of both",
        None,
        1100,
        &[Deed::Replace(None, 7)],
        Some((17, "Filter")),
        &[],
        (&[], &[], &[], 0),
        &[],
    ),
    (
        "a Replace of both, which are locked",
        None,
        1000,
        &[Deed::Replace(None, 7)],
        Some((17, "Filter")),
        &[],
        (&[], &[], &[], 0),
        &[],
    ),
    (
        "both go",
        None,
        1100,
        &[Deed::Delete(None)],
        None,
        &[(1, None), (2, None)],
        (&[], &[], &[], 2),
        &[1, 2],
    ),
    (
        "two come, each under a number of its own",
        None,
        1100,
        &[Deed::Insert(10), Deed::Insert(20)],
        None,
        &[(3, Some(10)), (4, Some(20))],
        (&[3, 4], &[], &[], 0),
        &[],
    ),
    (
        "one goes, and another comes under a new number",
        None,
        1100,
        &[Deed::Delete(Some(1)), Deed::Insert(10)],
        None,
        &[(1, None), (3, Some(10))],
        (&[3], &[], &[], 1),
        &[1],
    ),
    (
        "each on what the earlier ones left",
        None,
        1100,
        &[
            Deed::Insert(30),
            Deed::Update(None, 4),
            Deed::Replace(Some(3), 9),
        ],
        None,
        &[
            (3, Some(30)),
            (1, Some(4)),
            (2, Some(4)),
            (3, Some(4)),
            (3, Some(9)),
        ],
        (&[3], &[1, 2, 3], &[3], 0),
        &[1, 2, 3, 3],
    ),
    (
        "what a second action touches",
        Some(LockId {
            opening: 1,
            number: 1,
        }),
        1000,
        &[Deed::Update(Some(1), 5), Deed::Delete(Some(2))],
        Some((19, "Mark.2")),
        &[],
        (&[], &[], &[], 0),
        &[],
    ),
    (
        "a Replace of both behind an Update that is refused",
        None,
        1000,
        &[Deed::Update(Some(1), 5), Deed::Replace(None, 7)],
        Some((18, "lockId")),
        &[],
        (&[], &[], &[], 0),
        &[],
    ),
    (
        "of a mark that is not there",
        None,
        1100,
        &[
            Deed::Update(Some(9), 5),
            Deed::Delete(Some(9)),
            Deed::Replace(Some(9), 7),
        ],
        None,
        &[],
        (&[], &[], &[], 0),
        &[],
    ),
    (
        "a mark is told as often as it is selected",
        None,
        1100,
        &[
            Deed::Update(Some(1), 5),
            Deed::Update(None, 6),
            Deed::Replace(Some(1), 7),
            Deed::Replace(Some(2), 8),
        ],
        None,
        &[
            (1, Some(5)),
            (1, Some(6)),
            (2, Some(6)),
            (1, Some(7)),
            (2, Some(8)),
        ],
        (&[], &[1, 1, 2], &[1, 2], 0),
        &[1, 1, 2, 1, 2],
    ),
];

fn size_of(feature: &Feature) -> Option<i64> {
    match feature.items() {
        [Value::Whole(size)] => Some(*size),
        _ => None,
    }
}

fn is_part(part: &Part, row: Row) -> bool {
    let (number, size) = row;
    match part {
        Part::Put(feature) => feature.id.number == number && size_of(feature) == size,
        Part::Remove(id) => id.number == number && size.is_none(),
    }
}

fn are_parts(parts: &[Part], rows: &[Row]) -> bool {
    if parts.len() != rows.len() {
        return false;
    }
    for (part, row) in parts.iter().zip(rows) {
        if !is_part(part, *row) {
            return false;
        }
    }
    true
}

fn is_told(reply: &Reply, told: Told) -> bool {
    let (comes, stays, changes, goes) = told;
    match reply {
        Reply::Transacted {
            deleted,
            inserted,
            updated,
            replaced,
        } => {
            *deleted == goes
                && are_made(inserted.items(), comes)
                && are_made(updated.items(), stays)
                && are_made(replaced.items(), changes)
        }
        _ => false,
    }
}

fn is_planned(planned: &Planned, rows: &[Row], told: Told, numbers: &[u64]) -> bool {
    match &planned.change {
        Change::Rows(parts) => {
            are_parts(parts.items(), rows)
                && is_told(&planned.reply, told)
                && are(planned.touched.items(), numbers)
        }
        _ => false,
    }
}

fn is_refused(refusal: &Refusal, wanted: Option<(u8, &'static str)>) -> bool {
    match wanted {
        Some((row, locator)) => refusal.row == row && refusal.locator.as_str() == locator,
        None => false,
    }
}

fn is_as(answer: &Result<Planned, PlanFault>, case: &Case) -> bool {
    let (_, _, _, _, wanted, rows, told, numbers) = *case;
    match answer {
        Ok(planned) => wanted.is_none() && is_planned(planned, rows, told, numbers),
        Err(PlanFault::Refused(refusal)) => is_refused(refusal, wanted),
        Err(PlanFault::OutOfMemory) => false,
    }
}

fn counted<'a, L: Ledger>(
    alloc: Global,
    view: &Overlay<'a, Nothing>,
    schema: &Schema,
    counters: &List<u64>,
    locks: &LockTable,
    request: &Request,
    moment: u64,
    blank: Blank,
) -> Result<Planned, PlanFault>
    requires name { blank.name ≡ L.name }
    requires parts { blank.parts ≡ L.parts }
    requires some { 0 < blank.parts }
    requires schema { ⟦<Overlay<'a, Nothing> as FeatureView>⟧.schema view.now ≡ schema.now }
    requires transaction { IsTransaction request.now }
    requires fitting { IsOfSchema schema.now request.now }
    requires counters { length counters.now ≡ length schema.now.types }
    requires later { locks.now.last ≤ moment }
{
    let mut steps = Steps::<L>::new(blank);
    plan(
        alloc, view, schema, counters, locks, request, moment, &mut steps,
    )
}

fn answered<'a>(
    alloc: Global,
    view: &Overlay<'a, Nothing>,
    schema: &Schema,
    counters: &List<u64>,
    locks: &LockTable,
    request: &Request,
    moment: u64,
) -> Result<Planned, PlanFault>
    requires schema { ⟦<Overlay<'a, Nothing> as FeatureView>⟧.schema view.now ≡ schema.now }
    requires transaction { IsTransaction request.now }
    requires fitting { IsOfSchema schema.now request.now }
    requires counters { length counters.now ≡ length schema.now.types }
    requires later { locks.now.last ≤ moment }
{
    counted::<Brand>(
        alloc,
        view,
        schema,
        counters,
        locks,
        request,
        moment,
        Blank::new(1),
    )
}

fn is_answer<'a>(
    alloc: Global,
    view: &Overlay<'a, Nothing>,
    schema: &Schema,
    counters: &List<u64>,
    locks: &LockTable,
    request: &Request,
    case: &Case,
) -> bool
    requires schema { ⟦<Overlay<'a, Nothing> as FeatureView>⟧.schema view.now ≡ schema.now }
    requires transaction { IsTransaction request.now }
    requires fitting { IsOfSchema schema.now request.now }
    requires counters { length counters.now ≡ length schema.now.types }
    requires last { locks.now.last ≤ 1000 }
{
    let moment = case.2;
    if moment < 1000 {
        return false;
    }
    let answer = answered(alloc, view, schema, counters, locks, request, moment);
    is_as(&answer, case)
}

fn holds<'a>(
    alloc: Global,
    view: &Overlay<'a, Nothing>,
    schema: &Schema,
    counters: &List<u64>,
    locks: &LockTable,
    case: &Case,
) -> Mem<bool>
    requires schema { ⟦<Overlay<'a, Nothing> as FeatureView>⟧.schema view.now ≡ schema.now }
    requires marks { AreMarks schema.now }
    requires counters { length counters.now ≡ length schema.now.types }
    requires last { locks.now.last ≤ 1000 }
{
    let request = transaction(alloc, schema, case.1, Release::Whole, case.3)?;
    Ok(is_answer(alloc, view, schema, counters, locks, &request, case))
}

fn first_of<'a>(
    alloc: Global,
    view: &Overlay<'a, Nothing>,
    schema: &Schema,
    counters: &List<u64>,
    locks: &LockTable,
) -> Mem<Option<&'static str>>
    requires schema { ⟦<Overlay<'a, Nothing> as FeatureView>⟧.schema view.now ≡ schema.now }
    requires marks { AreMarks schema.now }
    requires counters { length counters.now ≡ length schema.now.types }
    requires last { locks.now.last ≤ 1000 }
{
    for case in CASES.iter() {
        if !holds(alloc, view, schema, counters, locks, case)? {
            return Ok(Some(case.0));
        }
    }
    Ok(None)
}

fn first_with<'a>(
    alloc: Global,
    view: &Overlay<'a, Nothing>,
    schema: &Schema,
) -> Mem<Option<&'static str>>
    requires schema { ⟦<Overlay<'a, Nothing> as FeatureView>⟧.schema view.now ≡ schema.now }
    requires marks { AreMarks schema.now }
{
    let counters = counters(alloc)?;
    let locks = two_locks(alloc)?;
    first_of(alloc, view, schema, &counters, &locks)
}

fn first_over(alloc: Global, nothing: &Nothing) -> Mem<Option<&'static str>>
    requires { AreMarks nothing.now.schema }
{
    let view = two_marks(alloc, nothing)?;
    first_with(alloc, &view, &nothing.schema)
}

fn first_wrong(alloc: Global) -> Mem<Option<&'static str>> {
    let nothing = no_marks(alloc)?;
    first_over(alloc, &nothing)
}

#[test]
fn transactions_come_to_what_was_worked_out(rt: HostRuntime) {
    assert_eq!(rt; first_wrong(rt.alloc()), Ok(None));
}

/// Whether there is room for a lock of as many marks as may stand.
fn has_room(alloc: Global) -> bool {
    let mut table = LockTable::new(alloc, 1);
    table.reserve(1_000_000, 0, 1).is_ok()
}

#[test]
fn the_largest_lock_has_room(rt: HostRuntime) {
    assert_eq!(rt; has_room(rt.alloc()), true);
}
