//! What a journal holds, told without a write.

ghost use Rattle.std.specs.Prelude.{◌≡◌, ◌≤◌, ℕ, List, length, Some, IfOk, IfErr, Err};
ghost use Rattle.feature_journal.specs.Faults.{NoneFell, OneRose};
ghost use Rattle.feature_journal.specs.Kept.{greatest_side};
ghost use Rattle.journal_replay.specs.Replayed.{verdict_on};
ghost use Rattle.recovery.specs.Looked.{Untouched};
ghost use Rattle.recovery.specs.Outcome.{outcome_of};
ghost use Rattle.durable_journal.specs.Counted.{AreCountsOf, IsRefusedBy};

use crate::fault::{OpenFault, from_recovery};
use disk_core::{Disk, Pair};
use feature_values::Schema;
use feature_versions::Features;
use journal_replay::Rebuild;
use recovery::look_over;
use std::alloc::Global;

/// What a journal holds.
#[derive(Clone, Copy, Debug, PartialEq, Eq)]
pub struct Counts {
    /// The types of the schema.
    pub types: u64,
    pub features: u64,
    /// The stored queries but the built-in one.
    pub queries: u64,
    /// The number of the last opening; 0 before the first.
    pub openings: u64,
}

fn counts_of(features: &Features) -> Counts
    ensures types { result.types ≡ length features.now.schema.types }
    ensures features { result.features ≡ length features.now.kept.features }
    ensures queries { result.queries ≡ length features.now.kept.stored }
    ensures openings { result.openings ≡ features.now.kept.opening }
{
    Counts {
        types: features.schema().types.items().len() as u64,
        features: features.count(),
        queries: features.stored().list().len() as u64,
        openings: features.openings(),
    }
}

// Looks over both files with a replay, and counts what their bodies come to.
fn look_with<D: Disk>(
    alloc: Global,
    disks: &mut Pair<D>,
    limit: u64,
    replay: &mut Rebuild,
) -> Result<Counts, OpenFault>
    requires { limit ≤ greatest_side }
    ensures counts { IfOk result (λ counts. (a b : List ℕ) → D.shown disks.old.a ≡ Some a
        → D.shown disks.old.b ≡ Some b
        → AreCountsOf replay.old.schema (outcome_of (verdict_on replay.old.schema) limit a b)
        counts) }
    ensures refused { IfErr result (λ fault. (a b : List ℕ) → D.shown disks.old.a ≡ Some a
        → D.shown disks.old.b ≡ Some b
        → IsRefusedBy (outcome_of (verdict_on replay.old.schema) limit a b) fault) }
    ensures unwritten { Untouched D.shown D.moment D.since D.images disks.old disks.new }
    ensures count { NoneFell D.faults disks.old disks.new }
    ensures cause { result ≡ Err OpenFault.DiskFault → OneRose D.faults disks.old disks.new }
{
    match look_over(alloc, disks, limit, replay) {
        Err(fault) => Err(from_recovery(fault)),
        Ok(_) => Ok(counts_of(replay.features())),
    }
}

/// Tells what the journal on two files holds, where `limit` is that of a side's length, at most 268,435,456 bytes. It
/// reads them as an opening does, and writes nothing. Where no side is current there is nothing but the types.
///
/// # Errors
///
/// The first refusal of the bytes: `NotAJournal`, `NotOfSchema`, or `Full` with the length that was read so far.
/// `DiskFault`, only where a disk's count of failures rose. `OutOfMemory`.
pub fn look_at_journal<D: Disk>(
    alloc: Global,
    disks: &mut Pair<D>,
    schema: &Schema,
    limit: u64,
) -> Result<Counts, OpenFault>
    requires { limit ≤ greatest_side }
    ensures counts { IfOk result (λ counts. (a b : List ℕ) → D.shown disks.old.a ≡ Some a
        → D.shown disks.old.b ≡ Some b
        → AreCountsOf schema.now (outcome_of (verdict_on schema.now) limit a b) counts) }
    ensures refused { IfErr result (λ fault. (a b : List ℕ) → D.shown disks.old.a ≡ Some a
        → D.shown disks.old.b ≡ Some b
        → IsRefusedBy (outcome_of (verdict_on schema.now) limit a b) fault) }
    ensures unwritten { Untouched D.shown D.moment D.since D.images disks.old disks.new }
    ensures count { NoneFell D.faults disks.old disks.new }
    ensures cause { result ≡ Err OpenFault.DiskFault → OneRose D.faults disks.old disks.new }
{
    match Rebuild::new(alloc, schema) {
        Err(_) => Err(OpenFault::OutOfMemory),
        Ok(replay) => {
            let mut replay = replay;
            let found = look_with(alloc, disks, limit, &mut replay);
            // by a call, which knows nothing of its parts
            drop(replay);
            found
        }
    }
}
