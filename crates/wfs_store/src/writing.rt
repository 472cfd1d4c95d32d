//! A change is written to the journal.

ghost use Rattle.std.specs.Prelude.{◌≡◌, ◌+◌, None, Ok, OnErr, OnOk};
ghost use Rattle.std.specs.Option.{IfSome};
ghost use Rattle.disk_core.specs.Sides.{Always};
ghost use Rattle.durable_journal.specs.Current.{current_in};
ghost use Rattle.durable_journal.specs.Kept.{Keeps};
ghost use Rattle.durable_journal.specs.Standing.{SaysEither};
ghost use Rattle.feature_journal.specs.Faults.{NoneFell, OneRose};
ghost use Rattle.feature_journal.specs.Kept.{disks_of, length_of, limit_of};
ghost use Rattle.feature_values.specs.declared.schema.Schema.{Schema};
ghost use Rattle.wfs_model.specs.State.{Durable};
ghost use Rattle.wfs_store.specs.Ready.{IsWritable};
ghost use Rattle.wfs_store.specs.Written.{begun_after, WasLeft, IsWritten, longer_by};

use disk_core::Disk;
use durable_journal::{Recorded, record_change, stands};
use feature_journal::Journal;
use wfs_ends::Failed;
use wfs_model::Change;

/// Writes a change by its body, where there is one, and keeps in `begun` which change a fault left begun. Only where that is this one it is
/// taken.
pub(crate) fn write<D: Disk>(
    journal: &mut Journal<D>,
    begun: &mut Option<Change>,
    body: &[u8],
    change: &mut Option<Change>,
) -> Result<(), Failed>
    requires keeps { (schema : Schema) × (kept : Durable)
        × (Keeps D.images schema kept begun.old journal.old
        × IfSome change.old (IsWritable schema kept (length_of journal.old) (limit_of journal.old)
        body.now)) }
    ensures kept { (schema : Schema) (kept : Durable)
        → Keeps D.images schema kept begun.old journal.old
        → IfSome change.old (IsWritable schema kept (length_of journal.old) (limit_of journal.old)
        body.now)
        → IsWritten D.images schema kept change.old result begun.new journal.new }
    ensures goes { (schema : Schema) (kept : Durable)
        → Keeps D.images schema kept begun.old journal.old
        → IfSome change.old (IsWritable schema kept (length_of journal.old) (limit_of journal.old)
        body.now)
        → Always D.moment D.since (SaysEither schema kept begun.old change.old)
        (disks_of journal.old) (disks_of journal.new) }
    ensures done { OnOk result (begun.new ≡ begun_after change.old begun.old) }
    ensures fault { OnErr result (WasLeft begun.old change.old begun.new) }
    ensures longer { OnOk result (length_of journal.new
        ≡ length_of journal.old + longer_by change.old body.now) }
    ensures same { OnErr result (length_of journal.new ≡ length_of journal.old) }
    ensures limit { limit_of journal.new ≡ limit_of journal.old }
    ensures current { current_in journal.new ≡ current_in journal.old }
    ensures left { OnOk result (change.new ≡ change.old) }
    ensures unwritten { change.old ≡ None → (result ≡ Ok tt) × (journal.new ≡ journal.old) }
    ensures count { NoneFell D.faults (disks_of journal.old) (disks_of journal.new) }
    ensures cause { OnErr result (OneRose D.faults (disks_of journal.old) (disks_of journal.new)) }
{
    match change {
        None => {
            // does nothing: its contract tells what the disks, which are not asked, stand for
            stands(journal);
            Ok(())
        }
        Some(_) => match record_change(journal, body) {
            Recorded::Done => {
                *begun = None;
                Ok(())
            }
            Recorded::FaultClean => {
                *begun = None;
                Err(Failed)
            }
            Recorded::FaultBegun => {
                *begun = change.take();
                Err(Failed)
            }
            Recorded::FaultHeld => Err(Failed),
        },
    }
}
