//! The records of a source become the list of a journal, on its other side.

ghost use Rattle.std.specs.Prelude.{◌≡◌, ◌⊎◌, ◌≤◌, ◌<◌, ◌+◌, ◌++◌, ◌∷◌, [], ℕ, List, length, not, IfOk, OnOk, OnErr, Ok, Err, IsErrOf};
ghost use Rattle.std.specs.List.{AllByRecursion};
ghost use Rattle.wfs_ends.specs.Ends.{last_count};
ghost use Rattle.disk_core.specs.Sides.{Within, Always};
ghost use Rattle.feature_journal.specs.Whole.{Says, Fits};
ghost use Rattle.feature_journal.specs.Kept.{seen, Rests, BeganSide, Makes, SameSide, disks_of, is_second, generation_in, length_of, limit_of, made_length_of};
ghost use Rattle.feature_journal.specs.Faults.{NoneFell, OneRose};
ghost use Rattle.checkpoints.specs.Source.{fault_from};
ghost use Rattle.checkpoints.specs.Length.{side_length, Passes};

use crate::{CompactFault, RecordSource};
use disk_core::Disk;
use feature_journal::{AppendFault, Journal};
use std::alloc::Global;

fn fault_of(fault: AppendFault) -> CompactFault
    ensures { result ≡ fault_from fault }
{
    match fault {
        AppendFault::DiskFault => CompactFault::DiskFault,
        AppendFault::Full(sum) => CompactFault::Full(sum),
    }
}

// Adds all records that are left to the side in the making.
fn add_all<D: Disk, R: RecordSource>(
    alloc: Global,
    journal: &mut Journal<D>,
    records: &mut R,
) -> Result<(), CompactFault>
    requires { (bodies : List (List ℕ)) × Makes D.shown D.images bodies [] (seen journal.old) }
    ensures goes { (bodies : List (List ℕ)) → Makes D.shown D.images bodies [] (seen journal.old)
        → Always D.moment D.since (Says (bodies ∷ [])) (disks_of journal.old)
        (disks_of journal.new) }
    ensures rests { (bodies : List (List ℕ)) → Makes D.shown D.images bodies [] (seen journal.old)
        → Rests D.images bodies (seen journal.new) }
    ensures added { OnOk result ((bodies : List (List ℕ))
        → Makes D.shown D.images bodies [] (seen journal.old)
        → Makes D.shown D.images bodies (R.left records.old) (seen journal.new)) }
    ensures same { SameSide journal.old journal.new }
    ensures emptied { OnOk result (R.left records.new ≡ []) }
    ensures full { (sum : ℕ) → result ≡ Err (CompactFault.Full sum)
        → Passes (limit_of journal.old) sum (R.left records.old) }
    ensures fits { OnOk result (side_length (R.left records.old) ≤ limit_of journal.old) }
    ensures count { NoneFell D.faults (disks_of journal.old) (disks_of journal.new) }
    ensures cause { IsErrOf result CompactFault.DiskFault
        → OneRose D.faults (disks_of journal.old) (disks_of journal.new) }
{
    let mut body = Vec::new(alloc);
    loop {
        match records.next_body(&mut body) {
            Ok(true) => match journal.add_record(&body) {
                Ok(()) => {}
                Err(fault) => return Err(fault_of(fault)),
            },
            Ok(false) => return Ok(()),
            Err(_) => return Err(CompactFault::OutOfMemory),
        }
    }
}

/// Makes a journal's list these records, on its other side. They are to be worth the same as the list.
///
/// At each moment a crash leaves the list, or, from the gate of the new side on, the records, each of which is then such as
/// a side can hold. After Ok the list is the records, on the side that was not current, with the next generation. After a
/// refusal the journal's side is what it was; a fault at the new side's gate leaves that side begun, and `Journal::repair`
/// ends it. `Full` comes exactly where the side with some more of the records passes its limit, with that length; and,
/// before anything is written, where the generation is the last one, with that number.
pub fn compact<D: Disk, R: RecordSource>(
    alloc: Global,
    journal: &mut Journal<D>,
    records: &mut R,
) -> Result<(), CompactFault>
    requires { (bodies : List (List ℕ)) × Rests D.images bodies (seen journal.old) }
    ensures goes { (bodies : List (List ℕ)) → Rests D.images bodies (seen journal.old)
        → Always D.moment D.since (Says (bodies ∷ R.left records.old ∷ [])) (disks_of journal.old)
        (disks_of journal.new) }
    ensures reaches { (bodies : List (List ℕ)) → Rests D.images bodies (seen journal.old)
        → Always D.moment D.since (Says (bodies ∷ [])) (disks_of journal.old) (disks_of journal.new)
        ⊎ AllByRecursion Fits (R.left records.old) }
    ensures done { OnOk result (Rests D.images (R.left records.old) (seen journal.new)) }
    ensures turned { OnOk result ((is_second journal.new ≡ not (is_second journal.old))
        × (generation_in journal.new ≡ generation_in journal.old + 1)
        × (length_of journal.new ≡ side_length (R.left records.old))
        × (limit_of journal.new ≡ limit_of journal.old)) }
    ensures fault { OnErr result ((bodies : List (List ℕ))
        → Rests D.images bodies (seen journal.old)
        → Rests D.images bodies (seen journal.new)
        ⊎ BeganSide D.images bodies (R.left records.old) (seen journal.new)) }
    ensures refused { OnErr result ((result ≡ Err CompactFault.DiskFault → ⊥)
        → (bodies : List (List ℕ)) → Rests D.images bodies (seen journal.old)
        → Rests D.images bodies (seen journal.new)) }
    ensures same { OnErr result (SameSide journal.old journal.new) }
    ensures emptied { OnOk result (R.left records.new ≡ []) }
    ensures last { generation_in journal.old ≡ last_count
        → (result ≡ Err (CompactFault.Full last_count)) × (journal.new ≡ journal.old) }
    ensures full { (sum : ℕ) → result ≡ Err (CompactFault.Full sum)
        → (generation_in journal.old ≡ last_count)
        ⊎ Passes (limit_of journal.old) sum (R.left records.old) }
    ensures fits { OnOk result (side_length (R.left records.old) ≤ limit_of journal.old) }
    ensures count { NoneFell D.faults (disks_of journal.old) (disks_of journal.new) }
    ensures cause { IsErrOf result CompactFault.DiskFault
        → OneRose D.faults (disks_of journal.old) (disks_of journal.new) }
{
    if journal.generation() == u64::MAX {
        return Err(CompactFault::Full(u64::MAX));
    }
    match journal.begin_side() {
        Err(_) => Err(CompactFault::DiskFault),
        Ok(()) => match add_all(alloc, journal, records) {
            Err(fault) => Err(fault),
            Ok(()) => match journal.finish_side() {
                Err(_) => Err(CompactFault::DiskFault),
                Ok(()) => Ok(()),
            },
        },
    }
}
