//! What the files of a journal stand for between its calls.

ghost use Rattle.std.specs.Prelude.{Option};
ghost use Rattle.disk_core.specs.Sides.{EveryBoth};
ghost use Rattle.feature_journal.specs.Kept.{disks_of};
ghost use Rattle.feature_values.specs.declared.schema.Schema.{Schema};
ghost use Rattle.wfs_model.specs.declared.change.Change.{Change};
ghost use Rattle.wfs_model.specs.State.{Durable};
ghost use Rattle.durable_journal.specs.Standing.{SaysWith};
ghost use Rattle.durable_journal.specs.Kept.{Keeps};

use disk_core::Disk;
use feature_journal::Journal;

/// A crash now leaves what the journal keeps, or that with the change that is begun, where one is. It is the contract of a
/// function that does nothing.
pub fn stands<D: Disk>(journal: &Journal<D>)
    ensures { (schema : Schema) (kept : Durable) (begun : Option Change)
        → Keeps D.images schema kept begun journal.now
        → EveryBoth D.images (SaysWith schema kept begun) (disks_of journal.now) }
{
    feature_journal::stands(journal);
}
