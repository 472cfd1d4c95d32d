//! What a fault left begun is ended.

ghost use Rattle.std.specs.Prelude.{◌≡◌, None, OnErr, OnOk};
ghost use Rattle.disk_core.specs.Sides.{Within};
ghost use Rattle.durable_journal.specs.Kept.{Keeps};
ghost use Rattle.durable_journal.specs.Standing.{SaysWith};
ghost use Rattle.feature_journal.specs.Faults.{NoneFell, OneRose};
ghost use Rattle.feature_journal.specs.Kept.{SameSide, disks_of};
ghost use Rattle.feature_values.specs.declared.schema.Schema.{Schema};
ghost use Rattle.wfs_model.specs.State.{Durable};

use disk_core::Disk;
use feature_journal::Journal;
use wfs_ends::Failed;
use wfs_model::Change;

/// Ends what is begun, where something is.
pub(crate) fn mend<D: Disk>(
    journal: &mut Journal<D>,
    begun: &mut Option<Change>,
) -> Result<(), Failed>
    requires { (schema : Schema) × (kept : Durable)
        × Keeps D.images schema kept begun.old journal.old }
    ensures done { OnOk result ((schema : Schema) (kept : Durable)
        → Keeps D.images schema kept begun.old journal.old
        → Keeps D.images schema kept None journal.new) }
    ensures ended { OnOk result (begun.new ≡ None) }
    ensures fault { OnErr result ((schema : Schema) (kept : Durable)
        → Keeps D.images schema kept begun.old journal.old
        → Keeps D.images schema kept begun.old journal.new) }
    ensures begun { OnErr result (begun.new ≡ begun.old) }
    ensures goes { (schema : Schema) (kept : Durable)
        → Keeps D.images schema kept begun.old journal.old
        → Within D.moment D.since (SaysWith schema kept begun.old) (disks_of journal.old)
        (disks_of journal.new) }
    ensures same { SameSide journal.old journal.new }
    ensures count { NoneFell D.faults (disks_of journal.old) (disks_of journal.new) }
    ensures cause { OnErr result (OneRose D.faults (disks_of journal.old) (disks_of journal.new)) }
{
    match journal.repair() {
        Ok(()) => {
            *begun = None;
            Ok(())
        }
        Err(_) => Err(Failed),
    }
}
