//! A step: what it needs is taken, its change is recorded, and then it is carried out.

ghost use Rattle.std.specs.Prelude.{◌≡◌, ◌≤◌, ℕ, List, All};
ghost use Rattle.feature_journal.specs.Kept.{length_of};
ghost use Rattle.query_docs.specs.Reading.{IsKeptText};
ghost use Rattle.wfs_model.specs.Changing.{IsChange};
ghost use Rattle.wfs_model.specs.OfSchema.{IsOfSchema, stored_in};
ghost use Rattle.wfs_store.specs.Kept.{IsStore, held_of};
ghost use Rattle.wfs_store.specs.Stepped.{IsStepOf, one_more};

use crate::StepFault;
use crate::course::Course;
use crate::entering::enter;
use crate::readying::make_ready;
use crate::writing::write;
use disk_core::Disk;
use durable_journal::stands;
use feature_journal::Journal;
use wfs_model::{Change, Entry, Reply};

// One more store fault of a seat.
fn raise(tally: &mut [u64; 17], seat: u32)
    requires { seat ≤ 16 }
    ensures { tally.new ≡ one_more tally.old seat }
{
    let at = seat as usize;
    let count = tally[at];
    tally[at] = count.saturating_add(1);
}

/// Takes a step on what stands in memory and in the journal.
pub(crate) fn take_step<D: Disk>(
    course: &mut Course,
    journal: &mut Journal<D>,
    begun: &mut Option<Change>,
    tally: &mut [u64; 17],
    entry: Entry,
) -> Result<Reply, StepFault>
    requires change { IsChange entry.request }
    requires fitting { IsOfSchema course.old.state.schema entry.request }
    requires texts { All (IsKeptText course.old.state.schema) (stored_in entry.request) }
    requires seat { entry.seat ≤ 16 }
    requires store { (bodies : List (List ℕ)) × (side : ℕ)
        × IsStore D.images course.old journal.old bodies side begun.old }
    ensures store { (bodies : List (List ℕ)) (side : ℕ)
        → IsStore D.images course.old journal.old bodies side begun.old
        → IsStore D.images course.new journal.new bodies side begun.new }
    ensures step { (bodies : List (List ℕ)) (side : ℕ)
        → IsStore D.images course.old journal.old bodies side begun.old
        → IsStepOf D.moment D.since D.faults (held_of course.old journal.old bodies side begun.old
        tally.old) entry result (held_of course.new journal.new bodies side begun.new
        tally.new) }
{
    // does nothing: its contract tells what the disks stand for, and still do where the step is refused
    stands(journal);
    let seat = entry.seat;
    let mut ready = make_ready(course, journal.side_length(), &entry)?;
    match write(journal, begun, &course.body, &mut ready.made) {
        Ok(()) => Ok(enter(course, entry, ready)),
        Err(_) => {
            raise(tally, seat);
            Err(StepFault::StoreFault)
        }
    }
}
