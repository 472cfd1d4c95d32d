//! Requests over three marks, of which a lock holds Mark.2 until 1060. What is expected was worked out by hand.

ghost use Rattle.std.specs.Prelude.{◌≡◌, ◌<◌, ◌≤◌, ◌∷◌, [], IfOk};
ghost use Rattle.wfs_model.specs.Changing.{IsChange};
ghost use Rattle.wfs_model.specs.OfSchema.{IsOfSchema};
ghost use Rattle.request_plans.specs.Carried.{IsDoable};
ghost use Rattle.request_plans.specs.Marks.{AreThree};
ghost use Rattle.transaction_core.specs.Marks.{AreMarks};

use crate::marks::{Nothing, no_marks};
use crate::samples::{are, are_given, are_made};
use asks::{Ask, request};
use feature_overlay::Overlay;
use feature_values::Schema;
use fes_filter::{FeatureView, Steps};
use lock_table::{LockId, LockTable, Release};
use marks::{counters, one_lock, three_marks};
use request_plans::{Basis, LockWork, Plan, carry_locks, plan_request, reserve_locks};
use std::alloc::Global;
use std::marker::Brand;
use std::sync::ledger::{Blank, Ledger};
use wfs_ends::{List, Mem};
use wfs_model::{Change, Part, Reply, Request, Take};

mod asks;
mod marks;

/// What is answered, by numbers of marks.
#[derive(Clone, Copy)]
enum Answer {
    Refused(u8, &'static str),
    /// The lock, and who is taken and missed.
    Locked(Option<LockId>, &'static [u64], &'static [u64]),
    /// How many are matched, who is given, and the lock.
    Page(u64, &'static [u64], Option<LockId>),
    /// How many are deleted, and who is inserted.
    Transacted(u64, &'static [u64]),
    Created,
}

/// What is kept, by numbers of marks: who goes and who comes.
#[derive(Clone, Copy)]
enum Kept {
    Nothing,
    Rows(&'static [u64], &'static [u64]),
    Created,
}

/// What is done to locks.
#[derive(Clone, Copy)]
enum Work {
    Nothing,
    Grant(&'static [u64]),
    Renew(u64),
    Release(u64, &'static [u64], Release),
}

/// What is shown, the moment, what is asked, and what it comes to.
type Case = (&'static str, u64, Ask, Answer, Kept, Work);

const FIRST: LockId = LockId {
    opening: 1,
    number: 1,
};

const SECOND: LockId = LockId {
    opening: 1,
    number: 2,
};

static CASES: [Case; 19] = [
    (
        "all, of which one is held",
        1000,
        Ask::Lock(Take::AllOrNone, None),
        Answer::Refused(20, "Mark.2"),
        Kept::Nothing,
        Work::Nothing,
    ),
    (
        "those that are free",
        1059,
        Ask::Lock(Take::Free, None),
        Answer::Locked(Some(SECOND), &[1, 3], &[2]),
        Kept::Nothing,
        Work::Grant(&[1, 3]),
    ),
    (
        "all behind the deadline",
        1060,
        Ask::Lock(Take::AllOrNone, None),
        Answer::Locked(Some(SECOND), &[1, 2, 3], &[]),
        Kept::Nothing,
        Work::Grant(&[1, 2, 3]),
    ),
    (
        "none is free",
        1000,
        Ask::Lock(Take::Free, Some(2)),
        Answer::Locked(None, &[], &[2]),
        Kept::Nothing,
        Work::Nothing,
    ),
    (
        "a page behind the held one",
        1000,
        Ask::Page(Take::AllOrNone, 2, 5),
        Answer::Page(3, &[3], Some(SECOND)),
        Kept::Nothing,
        Work::Grant(&[3]),
    ),
    (
        "a page with the held one",
        1000,
        Ask::Page(Take::Free, 0, 2),
        Answer::Page(3, &[1], Some(SECOND)),
        Kept::Nothing,
        Work::Grant(&[1]),
    ),
    (
        "the whole of such a page",
        1000,
        Ask::Page(Take::AllOrNone, 0, 2),
        Answer::Refused(20, "Mark.2"),
        Kept::Nothing,
        Work::Nothing,
    ),
    (
        "a page of the held one alone",
        1000,
        Ask::Page(Take::Free, 1, 1),
        Answer::Page(3, &[], None),
        Kept::Nothing,
        Work::Nothing,
    ),
    (
        "a new deadline",
        1059,
        Ask::Renew(FIRST),
        Answer::Locked(Some(FIRST), &[2], &[]),
        Kept::Nothing,
        Work::Renew(1),
    ),
    (
        "a new deadline behind the old one",
        1060,
        Ask::Renew(FIRST),
        Answer::Refused(16, "lockId"),
        Kept::Nothing,
        Work::Nothing,
    ),
    (
        "a lock that was never given",
        1000,
        Ask::Renew(SECOND),
        Answer::Refused(15, "lockId"),
        Kept::Nothing,
        Work::Nothing,
    ),
    (
        "the held one goes, without its lock",
        1000,
        Ask::Transact(None, Release::Whole, Some(2), false),
        Answer::Refused(18, "lockId"),
        Kept::Nothing,
        Work::Nothing,
    ),
    (
        "the held one goes, under its lock",
        1059,
        Ask::Transact(Some(FIRST), Release::Touched, Some(2), false),
        Answer::Transacted(1, &[]),
        Kept::Rows(&[2], &[]),
        Work::Release(1, &[2], Release::Touched),
    ),
    (
        "no action releases the lock",
        1000,
        Ask::Transact(Some(FIRST), Release::Whole, None, false),
        Answer::Transacted(0, &[]),
        Kept::Nothing,
        Work::Release(1, &[], Release::Whole),
    ),
    (
        "no action, of which the lock keeps all",
        1000,
        Ask::Transact(Some(FIRST), Release::Touched, None, false),
        Answer::Transacted(0, &[]),
        Kept::Nothing,
        Work::Release(1, &[], Release::Touched),
    ),
    (
        "one comes, of which the lock keeps all",
        1000,
        Ask::Transact(Some(FIRST), Release::Touched, None, true),
        Answer::Transacted(0, &[4]),
        Kept::Rows(&[], &[4]),
        Work::Release(1, &[], Release::Touched),
    ),
    (
        "one goes and another comes",
        1000,
        Ask::Transact(None, Release::Whole, Some(1), true),
        Answer::Transacted(1, &[4]),
        Kept::Rows(&[1], &[4]),
        Work::Nothing,
    ),
    (
        "a stored query",
        1000,
        Ask::Create,
        Answer::Created,
        Kept::Created,
        Work::Nothing,
    ),
    (
        "a stored query that is not there goes",
        1000,
        Ask::Drop,
        Answer::Refused(24, "storedQuery_id"),
        Kept::Nothing,
        Work::Nothing,
    ),
];

fn is_reply(reply: &Reply, wanted: Answer) -> bool {
    match (reply, wanted) {
        (Reply::Refused(refusal), Answer::Refused(row, locator)) => {
            refusal.row == row && refusal.locator.as_str() == locator
        }
        (
            Reply::Locked {
                lock,
                taken,
                missed,
            },
            Answer::Locked(named, ours, theirs),
        ) => { *lock == named && are(taken.items(), ours) && are(missed.items(), theirs) }
        (
            Reply::Collection {
                matched,
                features,
                lock,
                ..
            },
            Answer::Page(all, given, named),
        ) => *matched == all && *lock == named && are_given(features.items(), given),
        (
            Reply::Transacted {
                deleted,
                inserted,
                ..
            },
            Answer::Transacted(gone, come),
        ) => *deleted == gone && are_made(inserted.items(), come),
        (Reply::Created, Answer::Created) => true,
        _ => false,
    }
}

fn is_part(part: &Part, gone: &[u64], come: &[u64]) -> bool {
    match part {
        Part::Put(feature) => come.contains(&feature.id.number),
        Part::Remove(id) => gone.contains(&id.number),
    }
}

fn are_parts(parts: &[Part], gone: &[u64], come: &[u64]) -> bool {
    if parts.len() != gone.len() + come.len() {
        return false;
    }
    for part in parts {
        if !is_part(part, gone, come) {
            return false;
        }
    }
    true
}

fn is_change(change: &Option<Change>, wanted: Kept) -> bool {
    match (change, wanted) {
        (None, Kept::Nothing) => true,
        (Some(Change::Rows(parts)), Kept::Rows(gone, come)) => are_parts(parts.items(), gone, come),
        (Some(Change::Created(queries)), Kept::Created) => queries.items().len() == 1,
        _ => false,
    }
}

fn is_work(work: &LockWork, wanted: Work) -> bool {
    match (work, wanted) {
        (LockWork::Nothing, Work::Nothing) => true,
        (LockWork::Grant { features, period }, Work::Grant(numbers)) => {
            *period == 100 && are(features.items(), numbers)
        }
        (LockWork::Renew { number, period }, Work::Renew(of)) => {
            *number == of && *period == Some(100)
        }
        (
            LockWork::Release {
                number,
                touched,
                how,
            },
            Work::Release(of, numbers, wanted),
        ) => *number == of && *how == wanted && are(touched.items(), numbers),
        _ => false,
    }
}

fn is_plan(plan: &Plan, case: &Case) -> bool {
    let (_, _, _, answer, kept, work) = *case;
    is_reply(&plan.reply, answer) && is_change(&plan.change, kept) && is_work(&plan.lock, work)
}

// The work is done on the locks.
fn is_done(work: LockWork, locks: &mut LockTable, moment: u64) -> bool
    requires later { locks.old.last ≤ moment }
    requires doable { IsDoable work locks.old.given moment locks.old.locks }
{
    if reserve_locks(&work, locks, moment, 16).is_err() {
        return false;
    }
    carry_locks(work, locks, moment);
    true
}

fn counted<'a, L: Ledger>(
    alloc: Global,
    view: &Overlay<'a, Nothing>,
    basis: &Basis<'_>,
    request: &Request,
    blank: Blank,
) -> Mem<Plan>
    requires name { blank.name ≡ L.name }
    requires parts { blank.parts ≡ L.parts }
    requires some { 0 < blank.parts }
    requires schema { ⟦<Overlay<'a, Nothing> as FeatureView>⟧.schema view.now
        ≡ basis.now.schema.now }
    requires features { AreThree basis.now.schema.now
        (⟦<Overlay<'a, Nothing> as FeatureView>⟧.features view.now) }
    requires counters { basis.now.counters.now ≡ 3 ∷ [] }
    requires stored { basis.now.stored.now ≡ [] }
    requires opening { basis.now.locks.now.opening ≡ 1 }
    requires change { IsChange request.now }
    requires fitting { IsOfSchema basis.now.schema.now request.now }
    ensures { IfOk result (λ plan. IsDoable plan.lock basis.now.locks.now.given basis.now.moment
        basis.now.locks.now.locks) }
{
    let mut steps = Steps::<L>::new(blank);
    plan_request(alloc, view, basis, request, &mut steps)
}

fn planned<'a>(
    alloc: Global,
    view: &Overlay<'a, Nothing>,
    basis: &Basis<'_>,
    request: &Request,
) -> Mem<Plan>
    requires schema { ⟦<Overlay<'a, Nothing> as FeatureView>⟧.schema view.now
        ≡ basis.now.schema.now }
    requires features { AreThree basis.now.schema.now
        (⟦<Overlay<'a, Nothing> as FeatureView>⟧.features view.now) }
    requires counters { basis.now.counters.now ≡ 3 ∷ [] }
    requires stored { basis.now.stored.now ≡ [] }
    requires opening { basis.now.locks.now.opening ≡ 1 }
    requires change { IsChange request.now }
    requires fitting { IsOfSchema basis.now.schema.now request.now }
    ensures { IfOk result (λ plan. IsDoable plan.lock basis.now.locks.now.given basis.now.moment
        basis.now.locks.now.locks) }
{
    counted::<Brand>(alloc, view, basis, request, Blank::new(1))
}

// What a request comes to over one lock.
fn over_locks<'a>(
    alloc: Global,
    view: &Overlay<'a, Nothing>,
    schema: &Schema,
    counters: &List<u64>,
    locks: &LockTable,
    request: &Request,
    moment: u64,
) -> Mem<Plan>
    requires schema { ⟦<Overlay<'a, Nothing> as FeatureView>⟧.schema view.now ≡ schema.now }
    requires features { AreThree schema.now (⟦<Overlay<'a, Nothing> as FeatureView>⟧.features
        view.now) }
    requires counters { counters.now ≡ 3 ∷ [] }
    requires opening { locks.now.opening ≡ 1 }
    requires given { locks.now.given ≡ 1 }
    requires change { IsChange request.now }
    requires fitting { IsOfSchema schema.now request.now }
    requires later { locks.now.last ≤ moment }
    ensures { IfOk result (λ plan. IsDoable plan.lock locks.now.given moment locks.now.locks) }
{
    let basis = Basis {
        schema,
        counters,
        stored: &[],
        locks,
        opening: 1,
        given: 1,
        moment,
    };
    planned(alloc, view, &basis, request)
}

fn work_of(plan: Plan) -> LockWork
    ensures { result ≡ plan.lock }
{
    plan.lock
}

fn is_done_so(plan: Plan, locks: &mut LockTable, moment: u64, case: &Case) -> bool
    requires later { locks.old.last ≤ moment }
    requires doable { IsDoable plan.lock locks.old.given moment locks.old.locks }
{
    if !is_plan(&plan, case) {
        return false;
    }
    is_done(work_of(plan), locks, moment)
}

fn is_answered<'a>(
    alloc: Global,
    view: &Overlay<'a, Nothing>,
    schema: &Schema,
    counters: &List<u64>,
    request: &Request,
    case: &Case,
) -> Mem<bool>
    requires schema { ⟦<Overlay<'a, Nothing> as FeatureView>⟧.schema view.now ≡ schema.now }
    requires features { AreThree schema.now (⟦<Overlay<'a, Nothing> as FeatureView>⟧.features
        view.now) }
    requires counters { counters.now ≡ 3 ∷ [] }
    requires change { IsChange request.now }
    requires fitting { IsOfSchema schema.now request.now }
{
    let moment = case.1;
    if moment < 1000 {
        return Ok(false);
    }
    let mut locks = one_lock(alloc)?;
    let plan = over_locks(alloc, view, schema, counters, &locks, request, moment)?;
    Ok(is_done_so(plan, &mut locks, moment, case))
}

fn holds<'a>(
    alloc: Global,
    view: &Overlay<'a, Nothing>,
    schema: &Schema,
    counters: &List<u64>,
    case: &Case,
) -> Mem<bool>
    requires schema { ⟦<Overlay<'a, Nothing> as FeatureView>⟧.schema view.now ≡ schema.now }
    requires marks { AreMarks schema.now }
    requires features { AreThree schema.now (⟦<Overlay<'a, Nothing> as FeatureView>⟧.features
        view.now) }
    requires counters { counters.now ≡ 3 ∷ [] }
{
    let request = request(alloc, schema, case.2)?;
    is_answered(alloc, view, schema, counters, &request, case)
}

fn first_of<'a>(
    alloc: Global,
    view: &Overlay<'a, Nothing>,
    schema: &Schema,
    counters: &List<u64>,
) -> Mem<Option<&'static str>>
    requires schema { ⟦<Overlay<'a, Nothing> as FeatureView>⟧.schema view.now ≡ schema.now }
    requires marks { AreMarks schema.now }
    requires features { AreThree schema.now (⟦<Overlay<'a, Nothing> as FeatureView>⟧.features
        view.now) }
    requires counters { counters.now ≡ 3 ∷ [] }
{
    for case in CASES.iter() {
        if !holds(alloc, view, schema, counters, case)? {
            return Ok(Some(case.0));
        }
    }
    Ok(None)
}

fn first_over(alloc: Global, nothing: &Nothing) -> Mem<Option<&'static str>>
    requires { AreMarks nothing.now.schema }
{
    let view = three_marks(alloc, nothing)?;
    let counters = counters(alloc)?;
    first_of(alloc, &view, &nothing.schema, &counters)
}

fn first_wrong(alloc: Global) -> Mem<Option<&'static str>> {
    let nothing = no_marks(alloc)?;
    first_over(alloc, &nothing)
}

#[test]
fn requests_come_to_what_was_worked_out(rt: HostRuntime) {
    assert_eq!(rt; first_wrong(rt.alloc()), Ok(None));
}
