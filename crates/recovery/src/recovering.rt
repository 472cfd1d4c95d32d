//! From two files to a journal: both are synced and read, gates that are due are closed, and the journal is taken over.

ghost use Rattle.std.specs.Prelude.{◌≡◌, ◌⊎◌, ◌≤◌, ◌<◌, ◌+◌, ◌∷◌, [], ℕ, Bool, List, length, Some, None, IfOk, IfErr, IfSome, Err, Ok, true, false, not};
ghost use Rattle.disk_core.specs.Disk.{Leads, Every, Torn, Same};
ghost use Rattle.disk_core.specs.Sides.{Always, chosen, spare};
ghost use Rattle.feature_journal.specs.Kept.{greatest_side, seen, Rests, disks_of, is_second, generation_in, length_of, limit_of};
ghost use Rattle.feature_journal.specs.Whole.{Says};
ghost use Rattle.feature_journal.specs.Nothing.{Unmade, Nothing};
ghost use Rattle.feature_journal.specs.Faults.{NoneFell, OneRose};
ghost use Rattle.feature_journal.specs.Held.{IsStable};
ghost use Rattle.feature_journal.specs.Settled.{Placed, Known, Reading, SaysOr};
ghost use Rattle.feature_journal.specs.Nothing.{Dormant, Unused};
ghost use Rattle.recovery.specs.Outcome.{outcome_of};
ghost use Rattle.recovery.specs.Looked.{Untouched, RefusesOr, FoundAt, NothingAt, Settles};
ghost use Rattle.recovery.specs.Answer.{Answered, AnsweredErr, Current, LengthIs, OnlyGates};
ghost use Rattle.recovery.specs.Crash.{AfterSync, OnceSynced, WithTail, AllStable};

use crate::look::{Found, Looked, look};
use crate::{RecoverFault, Replay};
use disk_core::{Disk, Pair};
use feature_journal::{Journal, settle, shut_stale};
use std::alloc::Global;

// Makes side a, where no side is current.
fn start<D: Disk>(
    disks: Pair<D>,
    side: u64,
    first_is_stale: bool,
    second_is_stale: bool,
) -> Result<Journal<D>, (Pair<D>, RecoverFault)>
    requires limit { side ≤ greatest_side }
    requires stable { AllStable D.shown D.images disks disks }
    requires rests { NothingAt D.shown first_is_stale second_is_stale disks }
    ensures rests { IfOk result (λ j. Rests D.images [] (seen j)) }
    ensures made { IfOk result (λ j. Current false 1 16 j × (limit_of j ≡ side) × (17 ≤ side)) }
    ensures goes { IfOk result (λ j. Dormant first_is_stale (D.images disks.a)
        → Dormant second_is_stale (D.images disks.b)
        → Always D.moment D.since Nothing disks (disks_of j)) }
    ensures goes_err { IfErr result (λ e. Dormant first_is_stale (D.images disks.a)
        → Dormant second_is_stale (D.images disks.b) → Always D.moment D.since Nothing disks e.0) }
    ensures fault { IfErr result (λ e. (e.1 ≡ RecoverFault.DiskFault)
        ⊎ ((e.1 ≡ RecoverFault.Full 17) × (side < 17) × (e.0 ≡ disks))) }
    ensures count { IfOk result (λ j. NoneFell D.faults disks (disks_of j)) }
    ensures count_err { IfErr result (λ e. NoneFell D.faults disks e.0) }
    ensures cause { IfErr result (λ e. e.1 ≡ RecoverFault.DiskFault → OneRose D.faults disks e.0) }
{
    if side < 17 {
        return Err((disks, RecoverFault::Full(17)));
    }
    let mut disks = disks;
    match shut_stale(&mut disks, first_is_stale, second_is_stale) {
        Err(_) => Err((disks, RecoverFault::DiskFault)),
        Ok(()) => match Journal::fresh(disks, side) {
            Err((disks, _)) => Err((disks, RecoverFault::DiskFault)),
            Ok(journal) => Ok(journal),
        },
    }
}

// Closes the gates of a side that is current, and takes it over.
fn take_over<D: Disk>(
    disks: Pair<D>,
    side: u64,
    found: Found,
) -> Result<Journal<D>, (Pair<D>, RecoverFault)>
    requires limit { side ≤ greatest_side }
    requires stable { AllStable D.shown D.images disks disks }
    requires at { (taken : List (List ℕ)) × FoundAt D.shown found side taken disks }
    ensures rests { IfOk result (λ j. (taken : List (List ℕ))
        → FoundAt D.shown found side taken disks → Rests D.images taken (seen j)) }
    ensures told { IfOk result (λ j. Current found.second found.generation found.gate j
        × (limit_of j ≡ side)) }
    ensures goes { IfOk result (λ j. (r : Reading)
        → Known D.images found.second found.gate found.is_stale found.is_closed r disks
        → Always D.moment D.since (SaysOr found.is_closed r) disks (disks_of j)) }
    ensures goes_err { IfErr result (λ e. (r : Reading)
        → Known D.images found.second found.gate found.is_stale found.is_closed r disks
        → Always D.moment D.since (SaysOr found.is_closed r) disks e.0) }
    ensures gates { IfOk result (λ j. Settles D.moment D.since D.images found disks (disks_of j)) }
    ensures gates_err { IfErr result (λ e. Settles D.moment D.since D.images found disks e.0) }
    ensures fault { IfErr result (λ e. e.1 ≡ RecoverFault.DiskFault) }
    ensures count { IfOk result (λ j. NoneFell D.faults disks (disks_of j)) }
    ensures count_err { IfErr result (λ e. NoneFell D.faults disks e.0) }
    ensures cause { IfErr result (λ e. OneRose D.faults disks e.0) }
{
    let mut disks = disks;
    match settle(
        &mut disks,
        found.second,
        found.gate,
        found.is_stale,
        found.is_closed,
    ) {
        Err(_) => Err((disks, RecoverFault::DiskFault)),
        Ok(()) => Ok(Journal::adopt(disks, found.second, found.generation, found.gate, side)),
    }
}

/// What two files are recovered to: the journal of the list that their current side says, where `side` is the limit of
/// a side's length, at most 268,435,456 bytes. Where no side is current it makes side a, with no record.
///
/// Both files are synced and read. Sides that are no journal's are refused first, then each record of the current side
/// in turn: whether it lies within the file, whether the length stays within the limit, and whether the replay takes it.
/// The first refusal stands; then nothing was written, and the replay stands where it stopped. Else the bytes that are
/// written are gates alone: byte 0 of the other side, where it reads neither 0 nor 1, and the ending gate, where it does
/// not read 0. Each is synced, and so is a closed ending gate that is not written.
///
/// With no current side the new one needs 17 bytes: under a lesser limit the answer is `Full(17)`. `DiskFault` comes only
/// where a disk's count of failures rose. The memory that is taken is at most the limit and four bytes.
pub fn recover<D: Disk, R: Replay>(
    alloc: Global,
    disks: Pair<D>,
    side: u64,
    replay: &mut R,
) -> Result<Journal<D>, (Pair<D>, RecoverFault)>
    requires { side ≤ greatest_side }
    ensures rests { IfOk result (λ j. Rests D.images (R.taken replay.new) (seen j)) }
    ensures limit { IfOk result (λ j. limit_of j ≡ side) }
    ensures answer { IfOk result (λ j. (a b : List ℕ) → D.shown disks.a ≡ Some a
        → D.shown disks.b ≡ Some b → Answered j (outcome_of (R.verdict replay.old) side a b) side
        (R.taken replay.new)) }
    ensures refused { IfErr result (λ e. (a b : List ℕ) → D.shown disks.a ≡ Some a
        → D.shown disks.b ≡ Some b → AnsweredErr e.1 (outcome_of (R.verdict replay.old) side a b)
        side (R.taken replay.new)) }
    ensures unwritten { IfErr result (λ e. (e.1 ≡ RecoverFault.DiskFault → ⊥)
        → Untouched D.shown D.moment D.since D.images disks e.0) }
    ensures gates { IfOk result (λ j. (a b : List ℕ) → D.shown disks.a ≡ Some a
        → D.shown disks.b ≡ Some b → OnlyGates D.shown D.moment D.since D.images
        (outcome_of (R.verdict replay.old) side a b) a b disks (disks_of j)) }
    ensures gates_err { IfErr result (λ e. (a b : List ℕ) → D.shown disks.a ≡ Some a
        → D.shown disks.b ≡ Some b → OnlyGates D.shown D.moment D.since D.images
        (outcome_of (R.verdict replay.old) side a b) a b disks e.0) }
    ensures crash { IfOk result (λ j. (a b : List ℕ) (lists : List (List (List ℕ)))
        → D.shown disks.a ≡ Some a → D.shown disks.b ≡ Some b → (s : Says lists a b)
        → OnceSynced D.shown D.moment D.since D.images (WithTail lists s) disks (disks_of j)) }
    ensures crash_err { IfErr result (λ e. (a b : List ℕ) (lists : List (List (List ℕ)))
        → D.shown disks.a ≡ Some a → D.shown disks.b ≡ Some b → (s : Says lists a b)
        → AfterSync D.shown D.moment D.since D.images (WithTail lists s) disks e.0) }
    ensures nothing { IfOk result (λ j. (a b : List ℕ) → D.shown disks.a ≡ Some a
        → D.shown disks.b ≡ Some b → Unmade a → Unmade b
        → OnceSynced D.shown D.moment D.since D.images Nothing disks (disks_of j)) }
    ensures nothing_err { IfErr result (λ e. (a b : List ℕ) → D.shown disks.a ≡ Some a
        → D.shown disks.b ≡ Some b → Unmade a → Unmade b
        → AfterSync D.shown D.moment D.since D.images Nothing disks e.0) }
    ensures setting { R.setting replay.new ≡ R.setting replay.old }
    ensures verdict { R.verdict replay.new ≡ R.verdict replay.old }
    ensures count { IfOk result (λ j. NoneFell D.faults disks (disks_of j)) }
    ensures count_err { IfErr result (λ e. NoneFell D.faults disks e.0) }
    ensures cause { IfErr result (λ e. e.1 ≡ RecoverFault.DiskFault → OneRose D.faults disks e.0) }
{
    let mut disks = disks;
    match disks.sync() {
        Err(_) => Err((disks, RecoverFault::DiskFault)),
        Ok(()) => match look(alloc, &mut disks, side, replay) {
            Err(fault) => Err((disks, fault)),
            Ok(Looked::Nothing(a, b)) => start(disks, side, a, b),
            Ok(Looked::Found(found)) => take_over(disks, side, found),
        },
    }
}

/// Reads two files as `recover` does, hands over the records in the same way and writes nothing. It answers the length of
/// the current side up to and with its ending gate. Where no side is current it answers 0, whatever the limit, as no side
/// is read.
pub fn look_over<D: Disk, R: Replay>(
    alloc: Global,
    disks: &mut Pair<D>,
    side: u64,
    replay: &mut R,
) -> Result<u64, RecoverFault>
    requires { side ≤ greatest_side }
    ensures answer { IfOk result (λ n. (a b : List ℕ) → D.shown disks.old.a ≡ Some a
        → D.shown disks.old.b ≡ Some b
        → LengthIs n (outcome_of (R.verdict replay.old) side a b) (R.taken replay.new)) }
    ensures refused { IfErr result (λ e. (a b : List ℕ) → D.shown disks.old.a ≡ Some a
        → D.shown disks.old.b ≡ Some b
        → RefusesOr e (outcome_of (R.verdict replay.old) side a b) (R.taken replay.new)) }
    ensures unwritten { Untouched D.shown D.moment D.since D.images disks.old disks.new }
    ensures setting { R.setting replay.new ≡ R.setting replay.old }
    ensures verdict { R.verdict replay.new ≡ R.verdict replay.old }
    ensures count { NoneFell D.faults disks.old disks.new }
    ensures cause { result ≡ Err RecoverFault.DiskFault → OneRose D.faults disks.old disks.new }
{
    match look(alloc, disks, side, replay)? {
        Looked::Nothing(_, _) => Ok(0),
        Looked::Found(found) => Ok(found.gate + 1),
    }
}
