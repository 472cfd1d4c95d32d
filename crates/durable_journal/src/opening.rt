//! A journal is opened: what its files come to is recovered, and the next opening begins.

ghost use Rattle.std.specs.Prelude.{◌≡◌, ◌⊎◌, ◌≤◌, ℕ, List, All, length, Some, IfOk, IfErr};
ghost use Rattle.feature_journal.specs.Faults.{NoneFell, OneRose};
ghost use Rattle.feature_journal.specs.Kept.{Rests, greatest_side, disks_of, length_of, limit_of, seen};
ghost use Rattle.feature_journal.specs.Nothing.{Nothing, Unmade};
ghost use Rattle.feature_journal.specs.Whole.{Says};
ghost use Rattle.feature_schema.specs.Rules.{KeepsRules};
ghost use Rattle.journal_replay.specs.Replayed.{verdict_on};
ghost use Rattle.recovery.specs.Answer.{Answered, AnsweredErr};
ghost use Rattle.recovery.specs.Crash.{AfterSync, OnceSynced, WithTail};
ghost use Rattle.recovery.specs.Looked.{Untouched};
ghost use Rattle.recovery.specs.Outcome.{outcome_of};
ghost use Rattle.wfs_model.specs.State.{Durable, nothing};
ghost use Rattle.durable_journal.specs.Standing.{ComeTo, SaysOpened};
ghost use Rattle.durable_journal.specs.Current.{current_in};
ghost use Rattle.durable_journal.specs.Kept.{Holds};
ghost use Rattle.durable_journal.specs.Opened.{AreBodiesOf, IsOpened, IsRefusal, IsOfBytes};
ghost use Rattle.durable_journal.specs.OpenedSide.{IsOpenedSide};

use crate::beginning::begin_opening;
use crate::fault::{OpenFault, from_recovery};
use disk_core::{Disk, Pair};
use feature_journal::Journal;
use feature_values::Schema;
use feature_versions::Features;
use journal_replay::{Bodies, Rebuild};
use recovery::recover;
use std::alloc::Global;

/// A journal that was opened, and what it keeps.
#[derive(Drop)]
pub struct Opened<D> {
    pub journal: Journal<D>,
    /// What is kept, with the number of this opening.
    pub features: Features,
    /// The bodies that were recovered, before the record of this opening.
    pub bodies: Bodies,
}

// Recovers both files, and what their bodies come to.
fn recover_with<D: Disk>(
    alloc: Global,
    disks: Pair<D>,
    schema: &Schema,
    limit: u64,
) -> Result<Opened<D>, (Pair<D>, OpenFault)>
    requires { limit ≤ greatest_side }
    ensures schema { IfOk result (λ o. o.features.schema ≡ schema.now) }
    ensures come { IfOk result (λ o. ComeTo schema.now o.features.kept o.bodies) }
    ensures holds { IfOk result (λ o. Holds D.images schema.now o.features.kept o.journal) }
    ensures rests { IfOk result (λ o. Rests D.images o.bodies (seen o.journal)) }
    ensures limit { IfOk result (λ o. limit_of o.journal ≡ limit) }
    ensures told { IfOk result (λ o. (a b : List ℕ) → D.shown disks.a ≡ Some a
        → D.shown disks.b ≡ Some b → Answered o.journal
        (outcome_of (verdict_on schema.now) limit a b) limit o.bodies) }
    ensures refused { IfErr result (λ e. (a b : List ℕ) → D.shown disks.a ≡ Some a
        → D.shown disks.b ≡ Some b → IsRefusal schema.now limit
        (outcome_of (verdict_on schema.now) limit a b) e.1) }
    ensures unwritten { IfErr result (λ e. IsOfBytes e.1
        → Untouched D.shown D.moment D.since D.images disks e.0) }
    ensures goes { IfOk result (λ o. (a b : List ℕ) (lists : List (List (List ℕ)))
        → D.shown disks.a ≡ Some a → D.shown disks.b ≡ Some b → (s : Says lists a b)
        → OnceSynced D.shown D.moment D.since D.images (WithTail lists s) disks
        (disks_of o.journal)) }
    ensures goes_err { IfErr result (λ e. (a b : List ℕ) (lists : List (List (List ℕ)))
        → D.shown disks.a ≡ Some a → D.shown disks.b ≡ Some b → (s : Says lists a b)
        → AfterSync D.shown D.moment D.since D.images (WithTail lists s) disks e.0) }
    ensures nothing { IfOk result (λ o. (a b : List ℕ) → D.shown disks.a ≡ Some a
        → D.shown disks.b ≡ Some b → Unmade a → Unmade b
        → OnceSynced D.shown D.moment D.since D.images Nothing disks (disks_of o.journal)) }
    ensures nothing_err { IfErr result (λ e. (a b : List ℕ) → D.shown disks.a ≡ Some a
        → D.shown disks.b ≡ Some b → Unmade a → Unmade b
        → AfterSync D.shown D.moment D.since D.images Nothing disks e.0) }
    ensures count { IfOk result (λ o. NoneFell D.faults disks (disks_of o.journal)) }
    ensures count_err { IfErr result (λ e. NoneFell D.faults disks e.0) }
    ensures cause { IfErr result (λ e. e.1 ≡ OpenFault.DiskFault → OneRose D.faults disks e.0) }
{
    match Rebuild::new(alloc, schema) {
        Err(_) => Err((disks, OpenFault::OutOfMemory)),
        Ok(replay) => {
            let mut replay = replay;
            match recover(alloc, disks, limit, &mut replay) {
                Err((disks, fault)) => {
                    // by a call, which knows nothing of its parts
                    drop(replay);
                    Err((disks, from_recovery(fault)))
                }
                Ok(journal) => {
                    let (features, bodies) = replay.into_parts();
                    Ok(Opened {
                        journal,
                        features,
                        bodies,
                    })
                }
            }
        }
    }
}

/// Opens the journal on two files: it recovers what their bodies come to, where `limit` is that of a side's length, at
/// most 268,435,456 bytes, and begins the next opening. A side of at most 67,108,864 bytes stays current; in the place of a
/// longer one a checkpoint is made, so that the other side is current, with the next generation. Then the record of the
/// opening is appended, and what is kept has its number. Where no side is current the journal is made anew.
///
/// Until both files are synced a crash leaves what a crash before might have left. From then on it leaves what the bodies
/// come to, or that with the tail behind the ending gate, until its gate is closed, or with this opening.
///
/// # Errors
///
/// The first refusal of the bytes, before anything is written: `NotAJournal`, `NotOfSchema`, or `Full` with the length
/// that was read so far. Then `Full`: 17, where a new side has no room; the number of the last opening, where it is
/// 1,000,000,000,000; the generation, or the length of the checkpoint, where one is due and is refused; or the length
/// with the record of the opening. `DiskFault`, only where a disk's count of failures rose. `OutOfMemory`.
pub fn open_journal<D: Disk>(
    alloc: Global,
    disks: Pair<D>,
    schema: &Schema,
    limit: u64,
) -> Result<Opened<D>, (Pair<D>, OpenFault)>
    requires rules { KeepsRules schema.now }
    requires limit { limit ≤ greatest_side }
    ensures opened { IfOk result (λ o. IsOpened D.images schema.now limit o) }
    ensures told { IfOk result (λ o. (a b : List ℕ) → D.shown disks.a ≡ Some a
        → D.shown disks.b ≡ Some b → AreBodiesOf (outcome_of (verdict_on schema.now) limit a b)
        o.bodies) }
    ensures side { IfOk result (λ o. (a b : List ℕ) → D.shown disks.a ≡ Some a
        → D.shown disks.b ≡ Some b
        → IsOpenedSide D.images schema.now (outcome_of (verdict_on schema.now) limit a b)
        (current_in o.journal) (length_of o.journal) (disks_of o.journal)) }
    ensures refused { IfErr result (λ e. (a b : List ℕ) → D.shown disks.a ≡ Some a
        → D.shown disks.b ≡ Some b → IsRefusal schema.now limit
        (outcome_of (verdict_on schema.now) limit a b) e.1) }
    ensures unwritten { IfErr result (λ e. IsOfBytes e.1
        → Untouched D.shown D.moment D.since D.images disks e.0) }
    ensures goes { IfOk result (λ o. (a b : List ℕ) (lists : List (List (List ℕ))) (kept : Durable)
        → D.shown disks.a ≡ Some a → D.shown disks.b ≡ Some b → (s : Says lists a b)
        → All (ComeTo schema.now kept) lists
        → AfterSync D.shown D.moment D.since D.images
        (λ x y. WithTail lists s x y ⊎ SaysOpened schema.now kept x y) disks
        (disks_of o.journal)) }
    ensures goes_err { IfErr result (λ e. (a b : List ℕ) (lists : List (List (List ℕ)))
        (kept : Durable) → D.shown disks.a ≡ Some a → D.shown disks.b ≡ Some b
        → (s : Says lists a b) → All (ComeTo schema.now kept) lists
        → AfterSync D.shown D.moment D.since D.images
        (λ x y. WithTail lists s x y ⊎ SaysOpened schema.now kept x y) disks e.0) }
    ensures first { IfOk result (λ o. (a b : List ℕ) → D.shown disks.a ≡ Some a
        → D.shown disks.b ≡ Some b → Unmade a → Unmade b
        → AfterSync D.shown D.moment D.since D.images
        (λ x y. Nothing x y ⊎ SaysOpened schema.now (nothing (length schema.now.types)) x y)
        disks (disks_of o.journal)) }
    ensures first_err { IfErr result (λ e. (a b : List ℕ) → D.shown disks.a ≡ Some a
        → D.shown disks.b ≡ Some b → Unmade a → Unmade b
        → AfterSync D.shown D.moment D.since D.images
        (λ x y. Nothing x y ⊎ SaysOpened schema.now (nothing (length schema.now.types)) x y)
        disks e.0) }
    ensures count { IfOk result (λ o. NoneFell D.faults disks (disks_of o.journal)) }
    ensures count_err { IfErr result (λ e. NoneFell D.faults disks e.0) }
    ensures cause { IfErr result (λ e. e.1 ≡ OpenFault.DiskFault → OneRose D.faults disks e.0) }
{
    match recover_with(alloc, disks, schema, limit) {
        Err(refusal) => Err(refusal),
        Ok(recovered) => begin_opening(alloc, recovered),
    }
}
