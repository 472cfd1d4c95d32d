//! One more change is recorded.

ghost use Rattle.std.specs.Prelude.{◌≡◌, ◌⊎◌, ◌≤◌, ◌+◌, ℕ, List, length, Option, Some};
ghost use Rattle.disk_core.specs.Sides.{Always};
ghost use Rattle.feature_journal.specs.Faults.{NoneFell, OneRose};
ghost use Rattle.feature_journal.specs.Kept.{disks_of, length_of, limit_of};
ghost use Rattle.feature_values.specs.declared.schema.Schema.{Schema};
ghost use Rattle.wfs_model.specs.declared.change.Change.{Change};
ghost use Rattle.wfs_model.specs.State.{Durable};
ghost use Rattle.durable_journal.specs.Standing.{SaysEither};
ghost use Rattle.durable_journal.specs.Current.{current_in};
ghost use Rattle.durable_journal.specs.Kept.{Keeps};
ghost use Rattle.durable_journal.specs.Recorded.{MayAppend, IsRecorded, longer_by};

use disk_core::Disk;
use feature_journal::Journal;

/// How a change was recorded.
#[derive(Clone, Copy, Debug, PartialEq, Eq)]
pub enum Recorded {
    /// It is kept.
    Done,
    /// A disk failed, and nothing is begun.
    FaultClean,
    /// A disk failed, and the change is begun: a crash may leave it made.
    FaultBegun,
    /// A disk failed before the change was tried: what was begun still is.
    FaultHeld,
}

/// Records one more change by the body of its record, for which there is room. It ends first what an earlier fault left
/// begun.
///
/// At each moment a crash leaves what was kept, with what was begun or without, or with this change. Each fault comes
/// only where a disk's count of failures rose.
pub fn record_change<D: Disk>(journal: &mut Journal<D>, body: &[u8]) -> Recorded
    requires keeps { (schema : Schema) × (kept : Durable) × (begun : Option Change)
        × Keeps D.images schema kept begun journal.old }
    requires fits { length_of journal.old + 5 + length body.now ≤ limit_of journal.old }
    ensures keeps { (schema : Schema) (kept : Durable) (begun : Option Change) (change : Change)
        → Keeps D.images schema kept begun journal.old → MayAppend schema kept change body.now
        → IsRecorded D.images schema kept begun change result journal.new }
    ensures goes { (schema : Schema) (kept : Durable) (begun : Option Change) (change : Change)
        → Keeps D.images schema kept begun journal.old → MayAppend schema kept change body.now
        → Always D.moment D.since (SaysEither schema kept begun (Some change))
        (disks_of journal.old) (disks_of journal.new) }
    ensures longer { length_of journal.new ≡ length_of journal.old + longer_by result body.now }
    ensures limit { limit_of journal.new ≡ limit_of journal.old }
    ensures current { current_in journal.new ≡ current_in journal.old }
    ensures count { NoneFell D.faults (disks_of journal.old) (disks_of journal.new) }
    ensures cause { (result ≡ Recorded.Done) ⊎ OneRose D.faults (disks_of journal.old)
        (disks_of journal.new) }
{
    match journal.repair() {
        Err(_) => Recorded::FaultHeld,
        Ok(()) => match journal.append(body) {
            Ok(()) => Recorded::Done,
            Err(_) => {
                if journal.is_begun() {
                    Recorded::FaultBegun
                } else {
                    Recorded::FaultClean
                }
            }
        },
    }
}
