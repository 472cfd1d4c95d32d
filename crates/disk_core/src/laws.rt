//! What follows from the model of a disk alone.

ghost use Rattle.std.specs.Prelude.{◌≡◌, ◌≤◌, ◌++◌, ◌∷◌, [], ℕ, List, length, take, slice_get, OnOk, OnErr, Some, IfSome};
ghost use Rattle.std.specs.List.{AllByRecursion};
ghost use Rattle.wfs_ends.specs.Ends.{Rose};
ghost use Rattle.disk_core.specs.Disk.{over, written, Torn, SameOutside, Leads};
ghost use Rattle.disk_core.specs.Story.{Step, Image, read_after_all};
ghost use Rattle.disk_core.specs.Story.Step.{wrote, synced};
ghost use Rattle.disk_core.specs.Memory.{kept, IsChange, IsUntouched};

use crate::Disk;
use wfs_ends::Failed;

/// Writes and syncs. After Ok the one image is what was there with this text written over it; until then a crash
/// leaves an image from before, or one with this range torn. Each byte outside the range is one of an image from before.
pub fn write_and_sync<D: Disk>(disk: &mut D, at: u64, bytes: &[u8]) -> Result<(), Failed>
    requires { IfSome (D.shown disk.old) (λ s. at ≤ length s) }
    ensures stable { OnOk result ((c : List ℕ) → D.images disk.new c
        → written at bytes.now (D.shown disk.old) ≡ Some c) }
    ensures done { OnOk result (D.shown disk.new ≡ written at bytes.now (D.shown disk.old)) }
    ensures crash { Leads D.moment D.since D.images (Torn at (length bytes.now)) disk.old disk.new }
    ensures outside { (c : List ℕ) → D.images disk.new c
        → (d : List ℕ) × D.images disk.old d × SameOutside at (length bytes.now) d c }
    ensures count { D.faults disk.old ≤ D.faults disk.new }
    ensures cause { OnErr result (Rose (D.faults disk.old) (D.faults disk.new)) }
{
    disk.write_at(at, bytes)?;
    disk.sync()
}

/// Any bytes may stand in a range that was written since the last sync, with all else as it was before the write.
pub fn any_bytes_in_the_range()
    ensures { (base c any bytes : List ℕ) (before after : List Step) (at : ℕ)
        → AllByRecursion IsChange after → Image base before c → at ≤ length c
        → length any ≡ length bytes → Image base (before ++ wrote at bytes ∷ after)
        (over at any c) }
{}

/// A byte outside all ranges that were written since the last sync, and below all lengths that the file was cut to, stays
/// in each image.
pub fn all_outside_stays()
    ensures synced { (base c : List ℕ) (before after : List Step) (k byte : ℕ)
        → AllByRecursion IsChange after → AllByRecursion (IsUntouched k) after
        → slice_get (read_after_all base before) k ≡ Some byte
        → Image base (before ++ synced ∷ after) c → slice_get c k ≡ Some byte }
    ensures never_synced { (base c : List ℕ) (steps : List Step) (k byte : ℕ)
        → AllByRecursion IsChange steps → AllByRecursion (IsUntouched k) steps
        → slice_get base k ≡ Some byte → Image base steps c → slice_get c k ≡ Some byte }
{}

/// A crash may keep a later write and lose an earlier one.
pub fn later_write_alone()
    ensures { (base first second : List ℕ) (at place : ℕ) → place ≤ length base
        → Image base (wrote at first ∷ wrote place second ∷ []) (over place second base) }
{}

/// What `MemDisk::crash` keeps: all up to the last sync, and of the writes and cuts since then just the first.
pub fn crash_keeps_the_first()
    ensures synced { (keep : ℕ) (before after : List Step) → AllByRecursion IsChange after
        → kept keep (before ++ synced ∷ after) ≡ before ++ synced ∷ take keep after }
    ensures never_synced { (keep : ℕ) (steps : List Step) → AllByRecursion IsChange steps
        → kept keep steps ≡ take keep steps }
{}
