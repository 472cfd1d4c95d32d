//! A journal made shorter: a checkpoint of what is kept becomes its list.

ghost use Rattle.std.specs.Prelude.{◌≡◌, ◌⊎◌, ◌≤◌, ◌+◌, ℕ, List, Option, None, OnOk, OnErr, Err, IsErrOf, not};
ghost use Rattle.wfs_ends.specs.Ends.{last_count};
ghost use Rattle.disk_core.specs.Sides.{Always};
ghost use Rattle.feature_journal.specs.Faults.{NoneFell, OneRose};
ghost use Rattle.feature_journal.specs.Kept.{Rests, SameSide, seen, disks_of, is_second, generation_in, length_of, limit_of};
ghost use Rattle.checkpoints.specs.Length.{side_length, Passes};
ghost use Rattle.feature_schema.specs.Rules.{KeepsRules};
ghost use Rattle.wfs_model.specs.declared.change.Change.{Change};
ghost use Rattle.durable_journal.specs.Standing.{SaysKept, SaysWith};
ghost use Rattle.durable_journal.specs.Kept.{Holds, IsAtRest, Keeps};
ghost use Rattle.durable_journal.specs.Current.{current_in, HoldsCheckpoint};
ghost use Rattle.durable_journal.specs.Opened.{checkpoint_bodies};

use checkpoints::{CompactFault, compact};
use disk_core::Disk;
use feature_journal::Journal;
use feature_versions::Features;
use journal_replay::CheckpointSource;
use std::alloc::Global;

/// Makes a checkpoint of what is kept, where nothing is begun.
pub(crate) fn make_checkpoint<D: Disk>(
    alloc: Global,
    journal: &mut Journal<D>,
    features: &Features,
) -> Result<(), CompactFault>
    requires rules { KeepsRules features.now.schema }
    requires holds { Holds D.images features.now.schema features.now.kept journal.old }
    ensures rests { OnOk result (Rests D.images
        (checkpoint_bodies features.now.schema features.now.kept) (seen journal.new)) }
    ensures keeps { OnOk result (Keeps D.images features.now.schema features.now.kept None
        journal.new) }
    ensures fault { OnErr result (IsAtRest D.images features.now.schema features.now.kept
        journal.old → Keeps D.images features.now.schema features.now.kept None journal.new) }
    ensures goes { Always D.moment D.since (SaysKept features.now.schema features.now.kept)
        (disks_of journal.old) (disks_of journal.new) }
    ensures turned { OnOk result ((is_second journal.new ≡ not (is_second journal.old))
        × (generation_in journal.new ≡ generation_in journal.old + 1)
        × (length_of journal.new ≡ side_length
        (checkpoint_bodies features.now.schema features.now.kept))
        × (limit_of journal.new ≡ limit_of journal.old)) }
    ensures same { OnErr result (SameSide journal.old journal.new) }
    ensures full { (sum : ℕ) → result ≡ Err (CompactFault.Full sum)
        → ((generation_in journal.old ≡ last_count) × (sum ≡ last_count))
        ⊎ Passes (limit_of journal.old) sum
        (checkpoint_bodies features.now.schema features.now.kept) }
    ensures count { NoneFell D.faults (disks_of journal.old) (disks_of journal.new) }
    ensures cause { IsErrOf result CompactFault.DiskFault
        → OneRose D.faults (disks_of journal.old) (disks_of journal.new) }
{
    match CheckpointSource::new(alloc, features) {
        Err(_) => Err(CompactFault::OutOfMemory),
        Ok(source) => {
            let mut source = source;
            compact(alloc, journal, &mut source)
        }
    }
}

/// Makes a journal shorter: its list becomes just the checkpoint of what these features keep, on its other side. It ends
/// first what an earlier fault left begun.
///
/// At each moment a crash leaves what is kept, or it with the change that was begun, where one was. After Ok nothing is
/// begun, the other side is current, under the next generation, and it holds just the records of the checkpoint. After a
/// refusal the journal's side is what it was, and what was begun is ended, unless a disk failed first.
///
/// # Errors
///
/// `DiskFault`, only where a disk's count of failures rose. `Full`: the length of the checkpoint, where it is above the
/// limit, or the generation, where it is the last one. `OutOfMemory`.
pub fn shorten<D: Disk>(
    alloc: Global,
    journal: &mut Journal<D>,
    features: &Features,
) -> Result<(), CompactFault>
    requires rules { KeepsRules features.now.schema }
    requires keeps { (begun : Option Change) × Keeps D.images features.now.schema features.now.kept
        begun journal.old }
    ensures rests { OnOk result (Rests D.images
        (checkpoint_bodies features.now.schema features.now.kept) (seen journal.new)) }
    ensures holds { OnOk result (HoldsCheckpoint D.images (current_in journal.new)
        features.now.schema features.now.kept (disks_of journal.new)) }
    ensures keeps { OnOk result (Keeps D.images features.now.schema features.now.kept None
        journal.new) }
    ensures fault { OnErr result ((begun : Option Change)
        → Keeps D.images features.now.schema features.now.kept begun journal.old
        → Keeps D.images features.now.schema features.now.kept None journal.new
        ⊎ ((result ≡ Err CompactFault.DiskFault)
        × Keeps D.images features.now.schema features.now.kept begun journal.new)) }
    ensures goes { (begun : Option Change) → Keeps D.images features.now.schema features.now.kept
        begun journal.old
        → Always D.moment D.since (SaysWith features.now.schema features.now.kept begun)
        (disks_of journal.old) (disks_of journal.new) }
    ensures turned { OnOk result ((is_second journal.new ≡ not (is_second journal.old))
        × (generation_in journal.new ≡ generation_in journal.old + 1)
        × (length_of journal.new ≡ side_length
        (checkpoint_bodies features.now.schema features.now.kept))
        × (limit_of journal.new ≡ limit_of journal.old)) }
    ensures same { OnErr result (SameSide journal.old journal.new) }
    ensures full { (sum : ℕ) → result ≡ Err (CompactFault.Full sum)
        → ((generation_in journal.old ≡ last_count) × (sum ≡ last_count))
        ⊎ Passes (limit_of journal.old) sum
        (checkpoint_bodies features.now.schema features.now.kept) }
    ensures count { NoneFell D.faults (disks_of journal.old) (disks_of journal.new) }
    ensures cause { IsErrOf result CompactFault.DiskFault
        → OneRose D.faults (disks_of journal.old) (disks_of journal.new) }
{
    match journal.repair() {
        Err(_) => Err(CompactFault::DiskFault),
        Ok(()) => make_checkpoint(alloc, journal, features),
    }
}
