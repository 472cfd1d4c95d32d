//! All that a step needs, taken before any disk is asked.

ghost use Rattle.std.specs.Prelude.{◌≡◌, ◌≤◌, ℕ, All, IfOk, length};
ghost use Rattle.std.specs.Option.{IfSome};
ghost use Rattle.query_docs.specs.Reading.{IsKeptText};
ghost use Rattle.request_plans.specs.Plan.{IsPlan};
ghost use Rattle.wfs_model.specs.Changing.{IsChange};
ghost use Rattle.wfs_model.specs.Full.{full_at};
ghost use Rattle.wfs_model.specs.History.{timed};
ghost use Rattle.wfs_model.specs.OfSchema.{IsOfSchema, stored_in};
ghost use Rattle.wfs_model.specs.State.{State, durable, last_moment, moment_in};
ghost use Rattle.wfs_store.specs.Judged.{Judges, passed_by_count};
ghost use Rattle.wfs_store.specs.Kept.{IsCourse, body_length, length_after};
ghost use Rattle.wfs_store.specs.Ready.{IsPlanned, IsReady, IsSpelledFor, IsTaken, IsWritable, SamePast};

use crate::StepFault;
use crate::course::{Course, Ready};
use crate::judging::passed_by_count;
use crate::spelling::spell;
use request_plans::Plan;
use std::alloc::Global;
use wfs_ends::Mem;
use wfs_model::{Change, Entry};

// The moment of an entry, and its plan, where it passes no limit of the entries and their bytes.
fn plan_within(course: &Course, entry: &Entry) -> Result<(u64, Plan), StepFault>
    requires change { IsChange entry.now.request }
    requires fitting { IsOfSchema course.now.state.schema entry.now.request }
    requires few { course.now.bytes ≤ course.now.limits.bytes }
    ensures full { Judges (passed_by_count course.now.limits (length course.now.history.items)
        course.now.bytes entry.now.size) result }
    ensures moment { IfOk result (λ p. p.0 ≡ moment_in course.now.state.state entry.now.moment) }
    ensures later { IfOk result (λ p. (course.now.state.state.last ≤ p.0) × (p.0 ≤ last_moment)) }
    ensures plan { IfOk result (λ p. IsPlan course.now.state.schema course.now.state.state p.0
        entry.now.request p.1) }
{
    let count = course.history.len();
    if let Some(at) = passed_by_count(&course.limits, count, course.bytes, entry.size) {
        return Err(StepFault::Full(at));
    }
    let moment = course.state.moment_of(entry.moment);
    let plan = course.state.plan(moment, &entry.request)?;
    Ok((moment, plan))
}

// The same, where it passes no limit at all; it is prepared, and the body of its change is spelled.
fn judged(course: &mut Course, side: u64, entry: &Entry) -> Result<(u64, Plan), StepFault>
    requires change { IsChange entry.now.request }
    requires fitting { IsOfSchema course.old.state.schema entry.now.request }
    requires course { (opening : State) × IsCourse opening course.old }
    requires within { side ≤ course.old.limits.side }
    ensures full { (opening : State) (start : ℕ) → IsCourse opening course.old
        → side ≡ length_after course.old.state.schema start opening course.old.history.items
        → Judges (full_at course.old.state.schema (body_length course.old.state.schema) start
        opening course.old.limits course.old.history.items
        (timed course.old.state.state entry.now)) result }
    ensures ready { IfOk result (λ p. IsPlanned entry.now p.0 p.1 course.new) }
    ensures spelled { IfOk result (λ p. IfSome p.1.change
        (IsSpelledFor course.old.state.schema side course.old.limits.side course.new.body.items)) }
    ensures same { SamePast course.old course.new }
{
    let (moment, plan) = plan_within(course, entry)?;
    course.state.prepare(&plan, moment, &course.limits)?;
    spell(
        &plan.change,
        &course.signature,
        side,
        course.limits.side,
        &mut course.body,
    )?;
    Ok((moment, plan))
}

fn copied(alloc: Global, change: &Option<Change>) -> Mem<Option<Change>>
    ensures { IfOk result (λ copy. copy ≡ change.now) }
{
    match change {
        None => Ok(None),
        Some(change) => Ok(Some(change.copy(alloc)?)),
    }
}

/// Judges an entry by the limits, and takes all memory that it needs.
///
/// # Errors
///
/// `Full` with the first limit that it would pass, and `OutOfMemory`.
pub(crate) fn make_ready(course: &mut Course, side: u64, entry: &Entry) -> Result<Ready, StepFault>
    requires change { IsChange entry.now.request }
    requires fitting { IsOfSchema course.old.state.schema entry.now.request }
    requires texts { All (IsKeptText course.old.state.schema) (stored_in entry.now.request) }
    requires course { (opening : State) × IsCourse opening course.old }
    requires within { side ≤ course.old.limits.side }
    ensures full { (opening : State) (start : ℕ) → IsCourse opening course.old
        → side ≡ length_after course.old.state.schema start opening course.old.history.items
        → Judges (full_at course.old.state.schema (body_length course.old.state.schema) start
        opening course.old.limits course.old.history.items
        (timed course.old.state.state entry.now)) result }
    ensures ready { IfOk result (λ r. IsReady entry.now r course.new) }
    ensures written { IfOk result (λ r. IfSome r.plan.change
        (IsWritable course.old.state.schema (durable course.old.state.state) side
        course.old.limits.side course.new.body.items)) }
    ensures taken { IfOk result (λ r. IsTaken entry.now r course.old) }
    ensures same { SamePast course.old course.new }
{
    let (moment, plan) = judged(course, side, entry)?;
    course.history.reserve(1)?;
    let made = copied(course.alloc, &plan.change)?;
    Ok(Ready { moment, plan, made })
}
