//! A store is closed, and started again on its disks.

ghost use Rattle.std.specs.Prelude.{◌≡◌, IfErr, IfOk};
ghost use Rattle.feature_schema.specs.Rules.{KeepsRules};
ghost use Rattle.wfsd_commands.specs.Restarted.{OpensAgain};
ghost use Rattle.wfsd_commands.specs.Starting.{IsNotStarted, IsStarted};

use crate::starting::start_store;
use disk_core::{Disk, Pair};
use feature_values::Schema;
use std::alloc::Global;
use wfs_store::{OpenFault, Store, stands};

/// Closes a store and starts it again, as the next run does: its opening is the next one of what the history left, with no lock and no history;
/// where a change was begun, it is that, or that with the change.
///
/// # Errors
///
/// As `start_store` answers, with the disks.
pub fn start_again<D: Disk>(
    alloc: Global,
    store: Store<D>,
    schema: &Schema,
) -> Result<Store<D>, (Pair<D>, OpenFault)>
    requires schema { store.schema ≡ schema.now }
    requires rules { KeepsRules schema.now }
    ensures again { IfOk result (OpensAgain D.Disk store) }
    ensures started { IfOk result (IsStarted D.Disk schema.now store.disks) }
    ensures refused { IfErr result (λ e. IsNotStarted D.Disk schema.now store.disks e.1 e.0) }
{
    stands(&store);
    start_store(alloc, store.close(), schema)
}
