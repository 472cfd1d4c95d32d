//! A store begins with what its journal holds.

ghost use Rattle.std.specs.Prelude.{◌≡◌, ◌≤◌, ◌⊎◌, ℕ, List, All, IfOk, IfErr, Some, length};
ghost use Rattle.durable_journal.specs.Current.{HoldsSome, current_in};
ghost use Rattle.durable_journal.specs.Opened.{IsOfBytes, IsOpened, IsRefusal};
ghost use Rattle.durable_journal.specs.OpenedSide.{IsOpenedSide};
ghost use Rattle.durable_journal.specs.Standing.{ComeTo, SaysOpened};
ghost use Rattle.feature_journal.specs.Faults.{NoneFell, OneRose};
ghost use Rattle.feature_journal.specs.Nothing.{Nothing, Unmade};
ghost use Rattle.feature_journal.specs.Whole.{Says};
ghost use Rattle.feature_schema.specs.Rules.{KeepsRules};
ghost use Rattle.feature_schema.specs.Signature.{signature_text};
ghost use Rattle.journal_replay.specs.Replayed.{verdict_on};
ghost use Rattle.recovery.specs.Crash.{AfterSync, WithTail};
ghost use Rattle.recovery.specs.Looked.{Untouched};
ghost use Rattle.recovery.specs.Outcome.{outcome_of};
ghost use Rattle.wfs_model.specs.State.{Durable, nothing};
ghost use Rattle.feature_journal.specs.Kept.{disks_of, length_of};
ghost use Rattle.wfs_store.specs.Kept.{opening_on};
ghost use Rattle.wfs_store.specs.Started.{HasBegun, OpensOn};

use crate::course::Course;
use crate::store::Store;
use disk_core::{Disk, Pair};
use durable_journal::{OpenFault, Opened, open_journal};
use feature_schema::signature;
use feature_values::Schema;
use journal_replay::what_bodies_come_to_is_kept_well;
use service_state::ServiceState;
use std::alloc::Global;
use wfs_ends::Text;
use wfs_model::Limits;

// A store on a journal that was opened. It takes no memory.
fn begin<D: Disk>(alloc: Global, opened: Opened<D>, signature: Text, limits: Limits) -> Store<D>
    requires rules { KeepsRules opened.features.schema }
    requires opened { IsOpened D.images opened.features.schema limits.side opened }
    requires signature { signature ≡ signature_text opened.features.schema }
    ensures begun { HasBegun opened.features.schema limits result }
    ensures opening { result.opening ≡ opening_on opened.features.schema opened.bodies }
    ensures disks { result.disks ≡ disks_of opened.journal }
    ensures side { result.side ≡ length_of opened.journal }
    ensures turned { result.current ≡ current_in opened.journal }
    ensures current { HoldsSome D.images result.current result.disks }
{
    what_bodies_come_to_is_kept_well();
    let Opened {
        journal,
        features,
        bodies,
    } = opened;
    let side = journal.side_length();
    let course = Course {
        alloc,
        limits,
        signature,
        state: ServiceState::open(alloc, features),
        history: Vec::new(alloc),
        bytes: 0,
        last: None,
        body: Vec::new(alloc),
    };
    Store {
        course,
        journal,
        bodies,
        side,
        begun: None,
        tally: [0; 17],
    }
}

impl<D: Disk> Store<D> {
    /// Opens the journal of two disks under the next number, and begins a history on what it holds. No lock is held. A side of at most
    /// 67,108,864 bytes stays current, and the record of the opening stands behind what was there; in the place of a longer one the other side
    /// is current, which holds a checkpoint and that record.
    ///
    /// # Errors
    ///
    /// As `open_journal` answers, with the disks: the first refusal of the bytes, before anything is written (`NotAJournal`, `NotOfSchema`,
    /// `Full`); then `Full` where there is no room for a checkpoint that is due or for the record of the opening, or no number; `DiskFault`,
    /// only where a disk failed; `OutOfMemory`.
    pub fn start(
        alloc: Global,
        disks: Pair<D>,
        schema: &Schema,
        limits: Limits,
    ) -> Result<Store<D>, (Pair<D>, OpenFault)>
        requires rules { KeepsRules schema.now }
        ensures begun { IfOk result (HasBegun schema.now limits) }
        ensures opens { IfOk result (λ s. (a b : List ℕ) → D.shown disks.a ≡ Some a
            → D.shown disks.b ≡ Some b → OpensOn schema.now
            (outcome_of (verdict_on schema.now) limits.side a b) s.opening) }
        ensures current { IfOk result (λ s. HoldsSome D.images s.current s.disks) }
        ensures side { IfOk result (λ s. (a b : List ℕ) → D.shown disks.a ≡ Some a
            → D.shown disks.b ≡ Some b → IsOpenedSide D.images schema.now
            (outcome_of (verdict_on schema.now) limits.side a b) s.current s.side s.disks) }
        ensures refused { IfErr result (λ e. (a b : List ℕ) → D.shown disks.a ≡ Some a
            → D.shown disks.b ≡ Some b → IsRefusal schema.now limits.side
            (outcome_of (verdict_on schema.now) limits.side a b) e.1) }
        ensures unwritten { IfErr result (λ e. IsOfBytes e.1
            → Untouched D.shown D.moment D.since D.images disks e.0) }
        ensures goes { IfOk result (λ s. (a b : List ℕ) (lists : List (List (List ℕ)))
            (kept : Durable) → D.shown disks.a ≡ Some a → D.shown disks.b ≡ Some b
            → (s' : Says lists a b) → All (ComeTo schema.now kept) lists
            → AfterSync D.shown D.moment D.since D.images
            (λ x y. WithTail lists s' x y ⊎ SaysOpened schema.now kept x y) disks s.disks) }
        ensures goes_err { IfErr result (λ e. (a b : List ℕ) (lists : List (List (List ℕ)))
            (kept : Durable) → D.shown disks.a ≡ Some a → D.shown disks.b ≡ Some b
            → (s' : Says lists a b) → All (ComeTo schema.now kept) lists
            → AfterSync D.shown D.moment D.since D.images
            (λ x y. WithTail lists s' x y ⊎ SaysOpened schema.now kept x y) disks e.0) }
        ensures first { IfOk result (λ s. (a b : List ℕ) → D.shown disks.a ≡ Some a
            → D.shown disks.b ≡ Some b → Unmade a → Unmade b
            → AfterSync D.shown D.moment D.since D.images
            (λ x y. Nothing x y ⊎ SaysOpened schema.now (nothing (length schema.now.types)) x y)
            disks s.disks) }
        ensures first_err { IfErr result (λ e. (a b : List ℕ) → D.shown disks.a ≡ Some a
            → D.shown disks.b ≡ Some b → Unmade a → Unmade b
            → AfterSync D.shown D.moment D.since D.images
            (λ x y. Nothing x y ⊎ SaysOpened schema.now (nothing (length schema.now.types)) x y)
            disks e.0) }
        ensures count { IfOk result (λ s. NoneFell D.faults disks s.disks) }
        ensures count_err { IfErr result (λ e. NoneFell D.faults disks e.0) }
        ensures cause { IfErr result (λ e. e.1 ≡ OpenFault.DiskFault → OneRose D.faults disks e.0) }
    {
        let Ok(text) = signature(alloc, schema) else {
            return Err((disks, OpenFault::OutOfMemory));
        };
        match open_journal(alloc, disks, schema, limits.side) {
            Err(refusal) => Err(refusal),
            Ok(opened) => Ok(begin(alloc, opened, text, limits)),
        }
    }
}
