//! Faults and stops at each call, and the images that they leave.

ghost use Rattle.std.specs.Prelude.{◌≡◌, ◌<◌, ◌∷◌, [], List, ℕ, length, IfOk};
ghost use Rattle.disk_core.specs.Disk.{Every};
ghost use Rattle.feature_journal.specs.Settled.{TailOf};
ghost use Rattle.feature_journal.specs.Nothing.{Unused};
ghost use Rattle.feature_journal.specs.Kept.{seen, Rests, generation_in};

use super::*;
use disk_core::{Disk, MemDisk, Pair};
use std::alloc::Global;
use std::test::Fail;
use wfs_ends::{Failed, Mem};

// Side a with generation 1 and side b with generation 2, each with the record `hi`. Byte 0 and the record's gate are those
// of the row.
const FIRST: [u8; 24] = *b"\x01WFSJNL\x01\0\0\0\0\0\0\0\x01\0\0\0\0\x02hi\0";

const SECOND: [u8; 24] = *b"\0WFSJNL\x01\0\0\0\0\0\0\0\x02\x01\0\0\0\x02hi\0";

// An empty disk. The calls that are listed fail, and all from the stop on.
fn empty_disk(alloc: Global, listed: &[u64], stop: Option<u64>) -> Mem<MemDisk>
    ensures unused { IfOk result (λ m. Unused (⟦<MemDisk as Disk>⟧.images m)) }
    ensures few { IfOk result (λ m. Every (⟦<MemDisk as Disk>⟧.images m) (λ c. length c < 17)) }
{
    let mut failing = Vec::new(alloc);
    failing.extend_from_slice(listed)?;
    MemDisk::new(alloc, Vec::new(alloc), 60, 200, failing, stop)
}

// Adds `hi` to a fresh journal: whether that was done, whether something is begun, and the disks.
fn run_append<D: Disk + Drop>(disks: Pair<D>) -> Result<(bool, bool, Pair<D>), Failed>
    requires { Unused (D.images disks.a) × Unused (D.images disks.b) }
{
    let Ok(mut journal) = Journal::fresh(disks, 100) else {
        return Err(Failed);
    };
    let is_done = journal.append(b"hi").is_ok();
    Ok((is_done, journal.is_begun(), journal.into_disks()))
}

// The same with a repair after a fault.
fn run_repair<D: Disk + Drop>(disks: Pair<D>) -> Result<(bool, bool, Pair<D>), Failed>
    requires { Unused (D.images disks.a) × Unused (D.images disks.b) }
{
    let Ok(mut journal) = Journal::fresh(disks, 100) else {
        return Err(Failed);
    };
    let is_done = match journal.append(b"hi") {
        Err(AppendFault::DiskFault) => journal.repair().is_ok(),
        _ => false,
    };
    Ok((is_done, journal.is_begun(), journal.into_disks()))
}

fn make_side<D: Disk>(journal: &mut Journal<D>) -> bool
    requires rests { (bodies : List (List ℕ)) × Rests D.images bodies (seen journal.old) }
    requires first { generation_in journal.old ≡ 1 }
{
    match journal.begin_side() {
        Err(_) => false,
        Ok(()) => match journal.add_record(b"hi") {
            Err(_) => false,
            Ok(()) => journal.finish_side().is_ok(),
        },
    }
}

// Makes side b current in a fresh journal.
fn run_side<D: Disk + Drop>(disks: Pair<D>) -> Result<(bool, bool, Pair<D>), Failed>
    requires { Unused (D.images disks.a) × Unused (D.images disks.b) }
{
    let Ok(mut journal) = Journal::fresh(disks, 100) else {
        return Err(Failed);
    };
    let is_done = make_side(&mut journal);
    Ok((is_done, journal.is_begun(), journal.into_disks()))
}

// The body that says the first start: its opening, 1, and the types and properties of its schema, 89 bytes long.
const OPENING: &[u8; 102] =
    b"\x01\0\0\0\0\0\0\0\x01\0\0\0\x59Mark(label:text,size:integer,place:point);Field(name:text,area:polygon);Way(course:line);";

// Adds that record to a fresh journal, and then this one: the lengths after each, the generation and the disks.
fn run_lengths<D: Disk + Drop>(
    disks: Pair<D>,
    body: &[u8; 26],
) -> Result<([u64; 2], u64, Pair<D>), Failed>
    requires { Unused (D.images disks.a) × Unused (D.images disks.b) }
{
    let Ok(mut journal) = Journal::fresh(disks, 200) else {
        return Err(Failed);
    };
    match journal.append(OPENING) {
        Err(_) => Err(Failed),
        Ok(()) => {
            let first = journal.side_length();
            match journal.append(body) {
                Err(_) => Err(Failed),
                Ok(()) => Ok((
                    [first, journal.side_length()],
                    journal.generation(),
                    journal.into_disks(),
                )),
            }
        }
    }
}

// Makes a fresh journal: whether that was done, and the disks.
fn run_fresh<D: Disk + Drop>(disks: Pair<D>) -> (bool, Pair<D>)
    requires { Unused (D.images disks.a) × Unused (D.images disks.b) }
{
    match Journal::fresh(disks, 100) {
        Ok(journal) => (true, journal.into_disks()),
        Err((disks, _)) => (false, disks),
    }
}

// Side a holds `hi`, and then the tail `x` behind a gate that is neither open nor closed. The calls that are listed fail.
fn tailed_disk(alloc: Global, listed: &[u64]) -> Mem<MemDisk>
    ensures { IfOk result (λ m. Every (⟦<MemDisk as Disk>⟧.images m)
        (TailOf (record {
          lists = ((104 ∷ 105 ∷ []) ∷ []) ∷ [];
          generation = 1;
          bodies = (104 ∷ 105 ∷ []) ∷ [];
          body = 120 ∷ [];
          text = [];
        }))) }
{
    let mut bytes = Vec::new(alloc);
    bytes.extend_from_slice(b"\x01WFSJNL\x01\0\0\0\0\0\0\0\x01\x01\0\0\0\x02hi\x05\0\0\0\x01x\0")?;
    let mut failing = Vec::new(alloc);
    failing.extend_from_slice(listed)?;
    MemDisk::new(alloc, bytes, 60, 200, failing, None)
}

// Ends the tail, and takes the journal over: its length and generation and whether something is begun, and the disks.
fn run_settle<D: Disk + Drop>(disks: Pair<D>) -> (Option<(u64, u64, bool)>, Pair<D>)
    requires tailed { Every (D.images disks.a)
        (TailOf (record {
          lists = ((104 ∷ 105 ∷ []) ∷ []) ∷ [];
          generation = 1;
          bodies = (104 ∷ 105 ∷ []) ∷ [];
          body = 120 ∷ [];
          text = [];
        })) }
    requires few { Every (D.images disks.b) (λ c. length c < 17) }
{
    let mut disks = disks;
    match settle(&mut disks, false, 23, false, false) {
        Err(_) => (None, disks),
        Ok(()) => {
            let journal = Journal::adopt(disks, false, 1, 23, 100);
            let seen = (
                journal.side_length(),
                journal.generation(),
                journal.is_begun(),
            );
            (Some(seen), journal.into_disks())
        }
    }
}

// Side b is current, and its ending gate reads 0: whether it was settled.
fn run_closed<D: Disk + Drop>(disks: Pair<D>) -> bool {
    let mut disks = disks;
    settle(&mut disks, true, 0, false, true).is_ok()
}

// Whether a crash that keeps so many writes leaves just the first bytes of these.
fn leaves(disk: MemDisk, keep: u32, want: &[u8; 24], length: usize) -> bool {
    let mut crashed = disk.crash(keep);
    let mut into = [0; 24];
    match crashed.read(0, &mut into) {
        Ok(n) => n == length && n <= 24 && into[..n] == want[..n],
        Err(_) => false,
    }
}

// The disk calls of a fresh journal are 0 to 7. Then come the record and a sync, and the open gate and a sync. A row is
// the failing call, whether the record was added and is begun, how many writes since the last sync the crash keeps, and
// the length and the gate that it leaves.
#[test]
fn each_call_of_append_may_fail(rt: HostRuntime) -> Result<(), Fail> {
    for (call, is_added, is_begun, keep, length, gate) in [
        (8, false, false, 9, 17, 0),
        (9, false, false, 0, 17, 0),
        (9, false, false, 9, 24, 0),
        (10, false, true, 9, 24, 0),
        (11, false, true, 0, 24, 0),
        (11, false, true, 1, 24, 1),
        (12, true, false, 0, 24, 1),
    ] {
        let mut want = FIRST;
        want[16] = gate;
        let alloc = rt.alloc();
        let failing = empty_disk(alloc, &[call], None)?;
        let (a, b) = (failing, empty_disk(alloc, &[], None)?);
        let (done, begun, disks) = run_append(Pair { a, b })?;
        assert_eq!(rt; (done, begun), (is_added, is_begun), "at {call}");
        assert!(rt; leaves(disks.a, keep, &want, length), "at {call}");
        let (a, b) = (
            empty_disk(alloc, &[], Some(call))?,
            empty_disk(alloc, &[], None)?,
        );
        let (done, begun, disks) = run_append(Pair { a, b })?;
        assert_eq!(rt; (done, begun), (is_added, is_begun), "stopped at {call}");
        assert!(rt; leaves(disks.a, keep, &want, length), "stopped at {call}");
    }
    Ok(())
}

// The gate or its sync fails, and then maybe the gate of the repair or its sync.
#[test]
fn each_call_of_repair_may_fail(rt: HostRuntime) -> Result<(), Fail> {
    for (first, second, is_repaired, keep, gate) in [
        (10, 11, false, 9, 0),
        (10, 12, false, 0, 0),
        (11, 12, false, 0, 0),
        (11, 12, false, 9, 1),
        (11, 13, false, 1, 1),
        (11, 13, false, 2, 0),
        (11, 14, true, 9, 0),
    ] {
        let mut want = FIRST;
        want[16] = gate;
        let alloc = rt.alloc();
        let (a, b) = (
            empty_disk(alloc, &[first, second], None)?,
            empty_disk(alloc, &[], None)?,
        );
        let (done, begun, disks) = run_repair(Pair { a, b })?;
        assert_eq!(rt;
            (done, begun),
            (is_repaired, !is_repaired),
            "at {first}, {second}"
        );
        assert!(rt; leaves(disks.a, keep, &want, 24), "at {first}, {second}");
    }
    Ok(())
}

// On side b: a read, byte 0 and a sync; the cut and the head; the record; the closed gate and a sync; byte 0 and a sync.
#[test]
fn each_call_of_a_side_may_fail(rt: HostRuntime) -> Result<(), Fail> {
    for (call, is_made, is_begun, keep, length, first) in [
        (0, false, false, 9, 0, 0),
        (1, false, false, 9, 0, 0),
        (2, false, false, 0, 0, 0),
        (2, false, false, 9, 1, 0),
        (3, false, false, 9, 1, 0),
        (4, false, false, 9, 1, 0),
        (5, false, false, 9, 16, 0),
        (6, false, false, 9, 23, 0),
        (7, false, false, 0, 1, 0),
        (7, false, false, 9, 24, 0),
        (8, false, true, 9, 24, 0),
        (9, false, true, 0, 24, 0),
        (9, false, true, 1, 24, 1),
        (10, true, false, 0, 24, 1),
    ] {
        let mut want = SECOND;
        want[0] = first;
        let alloc = rt.alloc();
        let (a, b) = (
            empty_disk(alloc, &[], None)?,
            empty_disk(alloc, &[call], None)?,
        );
        let (done, begun, disks) = run_side(Pair { a, b })?;
        assert_eq!(rt; (done, begun), (is_made, is_begun), "at {call}");
        assert!(rt; leaves(disks.b, keep, &want, length), "at {call}");
        let (a, b) = (
            empty_disk(alloc, &[], None)?,
            empty_disk(alloc, &[], Some(call))?,
        );
        let (done, begun, disks) = run_side(Pair { a, b })?;
        assert_eq!(rt; (done, begun), (is_made, is_begun), "stopped at {call}");
        assert!(rt; leaves(disks.b, keep, &want, length), "stopped at {call}");
    }
    Ok(())
}

// After the first start the side has 124 bytes: its 16 bytes of head, and behind an open gate and the length 102 the opening; then the closed gate. The insert of
// one feature with a text of one letter makes 155 of them. Both are written here as their format gives them.
#[test]
fn a_side_is_as_long_as_its_records(rt: HostRuntime) -> Result<(), Fail> {
    let body = b"\x02\0\0\0\x01\x01\0\0\0\0\0\0\0\0\0\x01\0\x03\x01\0\0\0\x01A\0\0";
    let alloc = rt.alloc();
    let (a, b) = (empty_disk(alloc, &[], None)?, empty_disk(alloc, &[], None)?);
    let (lengths, generation, disks) = run_lengths(Pair { a, b }, body)?;
    assert_eq!(rt; (lengths, generation), ([124, 155], 1));
    let mut left = disks.a.crash(0);
    let mut into = [9; 156];
    assert_eq!(rt; left.read(0, &mut into)?, 155);
    assert!(rt;
        into.starts_with(
            b"\x01WFSJNL\x01\0\0\0\0\0\0\0\x01\x01\0\0\0\x66\x01\0\0\0\0\0\0\0\x01\0\0\0\x59Mark(label:text,size:integer,place:point);Field(name:text,area:polygon);Way(course:line);"
        )
    );
    assert!(rt;
        into.ends_with(
            b";\x01\0\0\0\x1a\x02\0\0\0\x01\x01\0\0\0\0\0\0\0\0\0\x01\0\x03\x01\0\0\0\x01A\0\0\0\x09"
        )
    );
    Ok(())
}

// A read, byte 0 and a sync; the cut, the rest and a sync; byte 0 and a sync.
#[test]
fn each_call_of_fresh_may_fail(rt: HostRuntime) -> Result<(), Fail> {
    for (call, is_made, keep, length, first) in [
        (0, false, 9, 0, 0),
        (1, false, 9, 0, 0),
        (2, false, 0, 0, 0),
        (2, false, 9, 1, 0),
        (3, false, 9, 1, 0),
        (4, false, 9, 1, 0),
        (5, false, 1, 1, 0),
        (5, false, 2, 17, 0),
        (6, false, 9, 17, 0),
        (7, false, 0, 17, 0),
        (7, false, 1, 17, 1),
        (8, true, 0, 17, 1),
    ] {
        let mut want = FIRST;
        want[0] = first;
        let alloc = rt.alloc();
        let (a, b) = (
            empty_disk(alloc, &[call], None)?,
            empty_disk(alloc, &[], None)?,
        );
        let (done, disks) = run_fresh(Pair { a, b });
        assert_eq!(rt; done, is_made, "at {call}");
        assert!(rt; leaves(disks.a, keep, &want, length), "at {call}");
        let (a, b) = (
            empty_disk(alloc, &[], Some(call))?,
            empty_disk(alloc, &[], None)?,
        );
        let (done, disks) = run_fresh(Pair { a, b });
        assert_eq!(rt; done, is_made, "stopped at {call}");
        assert!(rt; leaves(disks.a, keep, &want, length), "stopped at {call}");
    }
    Ok(())
}

// The ending gate is written, and synced. A row has also the gate that is left.
#[test]
fn each_call_of_settle_may_fail(rt: HostRuntime) -> Result<(), Fail> {
    for (call, seen, keep, gate) in [
        (0, None, 9, 5),
        (1, None, 0, 5),
        (1, None, 1, 0),
        (2, Some((24, 1, false)), 0, 0),
    ] {
        let mut want = FIRST;
        want[16] = 1;
        want[23] = gate;
        let alloc = rt.alloc();
        let (a, b) = (tailed_disk(alloc, &[call])?, empty_disk(alloc, &[], None)?);
        let (answer, disks) = run_settle(Pair { a, b });
        assert_eq!(rt; answer, seen, "at {call}");
        assert!(rt; leaves(disks.a, keep, &want, 24), "at {call}");
    }
    Ok(())
}

// A gate that reads 0 is not written: the one call is the sync of its side.
#[test]
fn side_of_a_closed_gate_is_synced(rt: HostRuntime) -> Result<(), Fail> {
    for (call, is_settled) in [(0, false), (1, true)] {
        let alloc = rt.alloc();
        let (a, b) = (
            empty_disk(alloc, &[], None)?,
            empty_disk(alloc, &[call], None)?,
        );
        assert_eq!(rt; run_closed(Pair { a, b }), is_settled, "at {call}");
    }
    Ok(())
}
