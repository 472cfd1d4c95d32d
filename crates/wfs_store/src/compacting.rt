//! The journal is made shorter.

ghost use Rattle.std.specs.Prelude.{◌≡◌, ℕ, [], List};
ghost use Rattle.wfs_store.specs.Compacted.{from_compaction, IsCompactionOf};
ghost use Rattle.wfs_store.specs.Kept.{IsStore, held_of};

use crate::StepFault;
use crate::course::Course;
use crate::mending::mend;
use checkpoints::CompactFault;
use disk_core::Disk;
use durable_journal::shorten;
use feature_journal::Journal;
use wfs_model::{Change, FullAt, LimitName};

fn from_compaction(fault: CompactFault) -> StepFault
    ensures { result ≡ from_compaction fault }
{
    match fault {
        CompactFault::DiskFault => StepFault::StoreFault,
        CompactFault::Full(sum) => StepFault::Full(FullAt {
            limit: LimitName::Side,
            number: sum,
        }),
        CompactFault::OutOfMemory => StepFault::OutOfMemory,
    }
}

/// Ends what is begun, and makes the journal just the checkpoint of what is kept. There is no history yet.
pub(crate) fn make_shorter<D: Disk>(
    course: &Course,
    journal: &mut Journal<D>,
    begun: &mut Option<Change>,
    side: &mut u64,
) -> Result<(), StepFault>
    requires empty { course.now.history.items ≡ [] }
    requires store { (bodies : List (List ℕ)) × IsStore D.images course.now journal.old bodies
        side.old begun.old }
    ensures store { (bodies : List (List ℕ)) → IsStore D.images course.now journal.old bodies
        side.old begun.old → IsStore D.images course.now journal.new bodies side.new begun.new }
    ensures compacted { (bodies : List (List ℕ)) (tally : List ℕ)
        → IsStore D.images course.now journal.old bodies side.old begun.old
        → IsCompactionOf D.moment D.since D.images D.faults
        (held_of course.now journal.old bodies side.old begun.old tally) result
        (held_of course.now journal.new bodies side.new begun.new tally) }
{
    match mend(journal, begun) {
        Err(_) => Err(StepFault::StoreFault),
        Ok(()) => match shorten(course.alloc, journal, course.state.features()) {
            Err(fault) => Err(from_compaction(fault)),
            Ok(()) => {
                *side = journal.side_length();
                Ok(())
            }
        },
    }
}
