//! What a store's disks hold, told without a change of them.

ghost use Rattle.std.specs.Prelude.{◌≡◌, ℕ, List, IfOk, IfErr, Some, Err};
ghost use Rattle.durable_journal.specs.Counted.{AreCountsOf, IsRefusedBy};
ghost use Rattle.feature_journal.specs.Faults.{NoneFell, OneRose};
ghost use Rattle.journal_replay.specs.Replayed.{verdict_on};
ghost use Rattle.recovery.specs.Looked.{Untouched};
ghost use Rattle.recovery.specs.Outcome.{outcome_of};

use disk_core::{Disk, Pair};
use durable_journal::{Counts, OpenFault, look_at_journal};
use feature_values::Schema;
use std::alloc::Global;
use wfs_model::Limits;

/// Tells how many types, features, stored queries and openings the journal on two disks holds. It reads them as `Store::start` does, and
/// writes nothing.
///
/// # Errors
///
/// The first refusal of the bytes: `NotAJournal`, `NotOfSchema`, or `Full` with the length that was read so far. `DiskFault`, only where a
/// disk failed. `OutOfMemory`.
pub fn inspect<D: Disk>(
    alloc: Global,
    disks: &mut Pair<D>,
    schema: &Schema,
    limits: &Limits,
) -> Result<Counts, OpenFault>
    ensures counts { IfOk result (λ counts. (a b : List ℕ) → D.shown disks.old.a ≡ Some a
        → D.shown disks.old.b ≡ Some b
        → AreCountsOf schema.now (outcome_of (verdict_on schema.now) limits.now.side a b) counts) }
    ensures refused { IfErr result (λ fault. (a b : List ℕ) → D.shown disks.old.a ≡ Some a
        → D.shown disks.old.b ≡ Some b
        → IsRefusedBy (outcome_of (verdict_on schema.now) limits.now.side a b) fault) }
    ensures unwritten { Untouched D.shown D.moment D.since D.images disks.old disks.new }
    ensures count { NoneFell D.faults disks.old disks.new }
    ensures cause { result ≡ Err OpenFault.DiskFault → OneRose D.faults disks.old disks.new }
{
    look_at_journal(alloc, disks, schema, limits.side)
}
