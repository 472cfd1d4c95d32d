//! From what was recovered to the next opening: a long side is made shorter, and the record of the opening is appended.

ghost use Rattle.std.specs.Prelude.{◌≡◌, ◌⊎◌, ◌≤◌, ◌<◌, ◌+◌, ◌++◌, ◌∷◌, [], ℕ, List, length, IfOk, IfErr, OnOk, Err};
ghost use Rattle.disk_core.specs.Sides.{Always};
ghost use Rattle.feature_journal.specs.Faults.{NoneFell, OneRose};
ghost use Rattle.feature_journal.specs.Kept.{Rests, disks_of, generation_in, length_of, limit_of, seen};
ghost use Rattle.feature_schema.specs.Rules.{KeepsRules};
ghost use Rattle.journal_replay.specs.Written.{body_in, IsReadIn};
ghost use Rattle.wfs_model.specs.Played.{played_one};
ghost use Rattle.durable_journal.specs.Standing.{SaysKept, SaysOpened, next_opening};
ghost use Rattle.durable_journal.specs.Current.{current_in};
ghost use Rattle.durable_journal.specs.Kept.{Holds, IsAtRest};
ghost use Rattle.durable_journal.specs.Opened.{last_opening, longest_kept, length_before, CannotOpen, IsOfBytes};
ghost use Rattle.durable_journal.specs.OpenedSide.{HasRoom, IsBegunBy, opening_in};

use crate::fault::{OpenFault, from_append, from_checkpoint};
use crate::opening::Opened;
use crate::shortening::make_checkpoint;
use disk_core::{Disk, Pair};
use feature_journal::Journal;
use feature_schema::signature;
use feature_versions::Features;
use journal_format::{put_record, record_length};
use std::alloc::Global;
use wfs_ends::{Mem, OutOfMemory};
use wfs_model::Change;

// No opening has a greater number.
const LAST_OPENING: u64 = 1_000_000_000_000;

// A side that is longer than this is made shorter.
const LONGEST_KEPT: u64 = 67_108_864;

// Makes a checkpoint where the side is too long.
fn shorten_long<D: Disk>(
    alloc: Global,
    journal: &mut Journal<D>,
    features: &Features,
) -> Result<(), OpenFault>
    requires rules { KeepsRules features.now.schema }
    requires holds { Holds D.images features.now.schema features.now.kept journal.old }
    ensures holds { OnOk result (Holds D.images features.now.schema features.now.kept journal.new) }
    ensures room { OnOk result (HasRoom D.images features.now.schema features.now.kept journal.old
        journal.new) }
    ensures length { OnOk result (length_of journal.new
        ≡ length_before features.now.schema features.now.kept (length_of journal.old)) }
    ensures limit { OnOk result (limit_of journal.new ≡ limit_of journal.old) }
    ensures full { (sum : ℕ) → result ≡ Err (OpenFault.Full sum)
        → CannotOpen features.now.schema features.now.kept (limit_of journal.old)
        (length_of journal.old) (generation_in journal.old) sum }
    ensures later { IfErr result (λ fault. IsOfBytes fault → ⊥) }
    ensures goes { Always D.moment D.since (SaysKept features.now.schema features.now.kept)
        (disks_of journal.old) (disks_of journal.new) }
    ensures count { NoneFell D.faults (disks_of journal.old) (disks_of journal.new) }
    ensures cause { result ≡ Err OpenFault.DiskFault
        → OneRose D.faults (disks_of journal.old) (disks_of journal.new) }
{
    if journal.side_length() <= LONGEST_KEPT {
        return Ok(());
    }
    match make_checkpoint(alloc, journal, features) {
        Ok(()) => Ok(()),
        Err(fault) => Err(from_checkpoint(fault)),
    }
}

// The body of the next opening's record.
fn opening_body(alloc: Global, features: &Features) -> Mem<Vec<u8>>
    requires { features.now.kept.opening < last_opening }
    ensures body { IfOk result (λ body. body.items
        ≡ body_in features.now.schema (next_opening features.now.kept)) }
    ensures read_back { IfOk result (λ _. IsReadIn features.now.schema
        (next_opening features.now.kept)) }
{
    let opening = Change::Opening(features.openings() + 1);
    let signature = signature(alloc, features.schema())?;
    if record_length(&opening, &signature) > 4_294_967_295 {
        return Err(OutOfMemory);
    }
    let mut body = Vec::new(alloc);
    put_record(&opening, &signature, &mut body)?;
    Ok(body)
}

// Appends the record of the next opening.
fn append_opening<D: Disk>(
    alloc: Global,
    journal: &mut Journal<D>,
    features: &Features,
) -> Result<(), OpenFault>
    requires below { features.now.kept.opening < last_opening }
    requires holds { Holds D.images features.now.schema features.now.kept journal.old }
    ensures rests { OnOk result (IsAtRest D.images features.now.schema
        (played_one features.now.kept (next_opening features.now.kept)) journal.new) }
    ensures appended { OnOk result ((bodies : List (List ℕ))
        → Rests D.images bodies (seen journal.old)
        → Rests D.images (bodies ++ opening_in features.now.schema features.now.kept ∷ [])
        (seen journal.new)) }
    ensures current { OnOk result (current_in journal.new ≡ current_in journal.old) }
    ensures longer { OnOk result (length_of journal.new
        ≡ length_of journal.old + 5 + length (opening_in features.now.schema features.now.kept)) }
    ensures limit { OnOk result (limit_of journal.new ≡ limit_of journal.old) }
    ensures full { (sum : ℕ) → result ≡ Err (OpenFault.Full sum)
        → (sum ≡ length_of journal.old + 5 + length
        (body_in features.now.schema (next_opening features.now.kept)))
        × (limit_of journal.old < sum) }
    ensures later { IfErr result (λ fault. IsOfBytes fault → ⊥) }
    ensures goes { Always D.moment D.since (SaysOpened features.now.schema features.now.kept)
        (disks_of journal.old) (disks_of journal.new) }
    ensures count { NoneFell D.faults (disks_of journal.old) (disks_of journal.new) }
    ensures cause { result ≡ Err OpenFault.DiskFault
        → OneRose D.faults (disks_of journal.old) (disks_of journal.new) }
{
    match opening_body(alloc, features) {
        Err(_) => Err(OpenFault::OutOfMemory),
        Ok(body) => match journal.append(&body) {
            Ok(()) => Ok(()),
            Err(fault) => Err(from_append(fault)),
        },
    }
}

// Makes room where it is due, and appends the record.
fn write_opening<D: Disk>(
    alloc: Global,
    journal: &mut Journal<D>,
    features: &Features,
) -> Result<(), OpenFault>
    requires rules { KeepsRules features.now.schema }
    requires below { features.now.kept.opening < last_opening }
    requires holds { Holds D.images features.now.schema features.now.kept journal.old }
    ensures rests { OnOk result (IsAtRest D.images features.now.schema
        (played_one features.now.kept (next_opening features.now.kept)) journal.new) }
    ensures begun { OnOk result (IsBegunBy D.images features.now.schema features.now.kept
        journal.old journal.new) }
    ensures limit { OnOk result (limit_of journal.new ≡ limit_of journal.old) }
    ensures full { (sum : ℕ) → result ≡ Err (OpenFault.Full sum)
        → CannotOpen features.now.schema features.now.kept (limit_of journal.old)
        (length_of journal.old) (generation_in journal.old) sum }
    ensures later { IfErr result (λ fault. IsOfBytes fault → ⊥) }
    ensures goes { Always D.moment D.since (SaysOpened features.now.schema features.now.kept)
        (disks_of journal.old) (disks_of journal.new) }
    ensures count { NoneFell D.faults (disks_of journal.old) (disks_of journal.new) }
    ensures cause { result ≡ Err OpenFault.DiskFault
        → OneRose D.faults (disks_of journal.old) (disks_of journal.new) }
{
    match shorten_long(alloc, journal, features) {
        Err(fault) => Err(fault),
        Ok(()) => append_opening(alloc, journal, features),
    }
}

/// Begins the next opening of what was recovered: its record is written, and it is played in memory.
pub(crate) fn begin_opening<D: Disk>(
    alloc: Global,
    recovered: Opened<D>,
) -> Result<Opened<D>, (Pair<D>, OpenFault)>
    requires rules { KeepsRules recovered.features.schema }
    requires holds { Holds D.images recovered.features.schema recovered.features.kept
        recovered.journal }
    ensures below { IfOk result (λ _. recovered.features.kept.opening < last_opening) }
    ensures kept { IfOk result (λ opened. opened.features.kept
        ≡ played_one recovered.features.kept (next_opening recovered.features.kept)) }
    ensures schema { IfOk result (λ opened. opened.features.schema ≡ recovered.features.schema) }
    ensures bodies { IfOk result (λ opened. opened.bodies ≡ recovered.bodies) }
    ensures rests { IfOk result (λ opened. IsAtRest D.images opened.features.schema
        opened.features.kept opened.journal) }
    ensures begun { IfOk result (λ opened. IsBegunBy D.images recovered.features.schema
        recovered.features.kept recovered.journal opened.journal) }
    ensures limit { IfOk result (λ opened. limit_of opened.journal ≡ limit_of recovered.journal) }
    ensures full { (sum : ℕ) → IfErr result (λ e. e.1 ≡ OpenFault.Full sum
        → CannotOpen recovered.features.schema recovered.features.kept (limit_of recovered.journal)
        (length_of recovered.journal) (generation_in recovered.journal) sum) }
    ensures later { IfErr result (λ e. IsOfBytes e.1 → ⊥) }
    ensures goes { IfOk result (λ opened. Always D.moment D.since
        (SaysOpened recovered.features.schema recovered.features.kept) (disks_of recovered.journal)
        (disks_of opened.journal)) }
    ensures goes_err { IfErr result (λ e. Always D.moment D.since
        (SaysOpened recovered.features.schema recovered.features.kept) (disks_of recovered.journal)
        e.0) }
    ensures count { IfOk result (λ opened. NoneFell D.faults (disks_of recovered.journal)
        (disks_of opened.journal)) }
    ensures count_err { IfErr result (λ e. NoneFell D.faults (disks_of recovered.journal) e.0) }
    ensures cause { IfErr result (λ e. e.1 ≡ OpenFault.DiskFault
        → OneRose D.faults (disks_of recovered.journal) e.0) }
{
    let Opened {
        journal,
        features,
        bodies,
    } = recovered;
    let number = features.openings();
    if number >= LAST_OPENING {
        // by a call, which knows nothing of their parts
        drop((features, bodies));
        return Err((journal.into_disks(), OpenFault::Full(number)));
    }
    let mut journal = journal;
    match write_opening(alloc, &mut journal, &features) {
        Err(fault) => {
            drop((features, bodies));
            Err((journal.into_disks(), fault))
        }
        Ok(()) => {
            let mut features = features;
            features.apply(Change::Opening(number + 1));
            Ok(Opened {
                journal,
                features,
                bodies,
            })
        }
    }
}
