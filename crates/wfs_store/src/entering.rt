//! A step is carried out in memory, which cannot fail.

ghost use Rattle.std.specs.Prelude.{◌≡◌, ◌≤◌, ◌++◌, ◌∷◌, [], ℕ};
ghost use Rattle.wfs_model.specs.Changing.{IsChange};
ghost use Rattle.wfs_model.specs.OfSchema.{IsOfSchema};
ghost use Rattle.wfs_model.specs.State.{State};
ghost use Rattle.wfs_model.specs.Step.{step};
ghost use Rattle.wfs_store.specs.Kept.{IsCourse};
ghost use Rattle.wfs_store.specs.Ready.{IsReady};

use crate::course::{Course, Ready};
use wfs_model::{Entry, Reply};

/// Carries an entry out for which all is ready, puts it behind the others, and answers its reply.
pub(crate) fn enter(course: &mut Course, entry: Entry, ready: Ready) -> Reply
    requires change { IsChange entry.request }
    requires fitting { IsOfSchema course.old.state.schema entry.request }
    requires course { (opening : State) × IsCourse opening course.old }
    requires ready { IsReady entry ready course.old }
    ensures course { (opening : State) → IsCourse opening course.old → IsCourse opening course.new }
    ensures entries { course.new.history.items
        ≡ course.old.history.items ++ record entry { moment = ready.moment } ∷ [] }
    ensures step { (result, course.new.state.state)
        ≡ step course.old.state.schema course.old.state.state ready.moment entry.request }
    ensures schema { course.new.state.schema ≡ course.old.state.schema }
    ensures limits { course.new.limits ≡ course.old.limits }
{
    let Ready { moment, plan, made } = ready;
    let mut entry = entry;
    entry.moment = moment;
    let reply = course.state.carry(plan, moment);
    course.bytes += u64::from(entry.size);
    course.last = made;
    match course.history.push(entry) {
        Ok(()) => {}
        Err(_) => unreachable!(),
    }
    reply
}
