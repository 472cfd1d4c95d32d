//! What a checkpoint makes of a journal, and what a crash leaves of it where a call fails.

ghost use Rattle.std.specs.Prelude.{◌≤◌, IfOk};
ghost use Rattle.feature_journal.specs.Nothing.{Unused};

use crate::crashes::leaves;
use checkpoints::{CompactFault, RecordSource, compact};
use disk_core::{Disk, MemDisk, Pair};
use feature_journal::Journal;
use std::alloc::Global;
use std::test::Fail;
use wfs_ends::{Failed, Mem, OutOfMemory};

// The record `hi`, and then the record `ho`, each of which is left or not.
#[derive(Drop)]
struct Greetings {
    hi: bool,
    ho: bool,
}

impl RecordSource for Greetings {
    ghost use Rattle.std.specs.Prelude.{[], ◌∷◌, ◌++◌, if◌then◌else◌};

    ghost left = { λ s. (if s.hi then (104 ∷ 105 ∷ []) ∷ [] else [])
        ++ (if s.ho then (104 ∷ 111 ∷ []) ∷ [] else []) };

    fn next_body(&mut self, into: &mut Vec<u8>) -> Mem<bool> {
        into.clear();
        if self.hi {
            into.extend_from_slice(b"hi")?;
            self.hi = false;
            Ok(true)
        } else if self.ho {
            into.extend_from_slice(b"ho")?;
            self.ho = false;
            Ok(true)
        } else {
            Ok(false)
        }
    }
}

fn both() -> Greetings {
    Greetings { hi: true, ho: true }
}

// The record `hi`, which is left or not, and behind it `ho`, for which there is never memory.
#[derive(Drop)]
struct Cramped {
    hi: bool,
}

impl RecordSource for Cramped {
    ghost use Rattle.std.specs.Prelude.{[], ◌∷◌, ◌++◌, if◌then◌else◌};

    ghost left = { λ s. (if s.hi then (104 ∷ 105 ∷ []) ∷ [] else [])
        ++ ((104 ∷ 111 ∷ []) ∷ []) };

    fn next_body(&mut self, into: &mut Vec<u8>) -> Mem<bool> {
        into.clear();
        if self.hi {
            into.extend_from_slice(b"hi")?;
            self.hi = false;
            Ok(true)
        } else {
            Err(OutOfMemory)
        }
    }
}

// An empty disk. The calls that are listed fail, and all from the stop on.
fn empty_disk(alloc: Global, failing: &[u64], stop: Option<u64>) -> Mem<MemDisk>
    ensures { IfOk result (λ m. Unused (⟦<MemDisk as Disk>⟧.images m)) }
{
    let mut listed = Vec::new(alloc);
    listed.extend_from_slice(failing)?;
    MemDisk::new(alloc, Vec::new(alloc), 60, 200, listed, stop)
}

// A checkpoint of these records over a fresh journal: what it answers, and the journal.
fn run<D: Disk + Drop, R: RecordSource>(
    alloc: Global,
    disks: Pair<D>,
    limit: u64,
    records: &mut R,
) -> Result<(Result<(), CompactFault>, Journal<D>), Failed>
    requires unused { Unused (D.images disks.a) × Unused (D.images disks.b) }
    requires limit { (17 ≤ limit) × (limit ≤ 200) }
{
    match Journal::fresh(disks, limit) {
        Err(_) => Err(Failed),
        Ok(journal) => {
            let mut journal = journal;
            let answer = compact(alloc, &mut journal, records);
            Ok((answer, journal))
        }
    }
}

// A checkpoint of both greetings, and another one behind it: what that one answers, and the journal.
fn run_twice<D: Disk + Drop>(
    alloc: Global,
    disks: Pair<D>,
    limit: u64,
) -> Result<(Result<(), CompactFault>, Journal<D>), Failed>
    requires unused { Unused (D.images disks.a) × Unused (D.images disks.b) }
    requires limit { (17 ≤ limit) × (limit ≤ 200) }
{
    match Journal::fresh(disks, limit) {
        Err(_) => Err(Failed),
        Ok(journal) => {
            let mut journal = journal;
            match compact(alloc, &mut journal, &mut both()) {
                Err(_) => Err(Failed),
                Ok(()) => {
                    let answer = compact(alloc, &mut journal, &mut both());
                    Ok((answer, journal))
                }
            }
        }
    }
}

// side a, of generation 1 with no record: no call of a checkpoint changes it
const FIRST: &[u8] = b"\x01WFSJNL\x01\0\0\0\0\0\0\0\x01\0";

// generation 2 with both records, behind an open byte 0 and a closed one
const MADE: &[u8] = b"\x01WFSJNL\x01\0\0\0\0\0\0\0\x02\x01\0\0\0\x02hi\x01\0\0\0\x02ho\0";

const CLOSED: &[u8] = b"\0WFSJNL\x01\0\0\0\0\0\0\0\x02\x01\0\0\0\x02hi\x01\0\0\0\x02ho\0";

// The call from which on side b fails, whether the checkpoint is made, whether its side is begun, how many writes since the
// last sync a crash keeps, and what it leaves of side b. The calls are a read, byte 0 and a sync; the cut and the head; the
// two records; the closed gate and a sync; byte 0 and a sync. Side a is left as it is.
static STOPS: &[(u64, bool, bool, u32, &[u8])] = &[
    (0, false, false, 9, b""),
    (1, false, false, 9, b""),
    (2, false, false, 0, b""),
    (2, false, false, 9, b"\0"),
    (3, false, false, 9, b"\0"),
    (4, false, false, 9, b"\0"),
    (5, false, false, 9, b"\0WFSJNL\x01\0\0\0\0\0\0\0\x02"),
    (
        6,
        false,
        false,
        9,
        b"\0WFSJNL\x01\0\0\0\0\0\0\0\x02\x01\0\0\0\x02hi",
    ),
    (
        7,
        false,
        false,
        9,
        b"\0WFSJNL\x01\0\0\0\0\0\0\0\x02\x01\0\0\0\x02hi\x01\0\0\0\x02ho",
    ),
    (8, false, false, 0, b"\0"),
    (8, false, false, 9, CLOSED),
    (9, false, true, 9, CLOSED),
    (10, false, true, 0, CLOSED),
    (10, false, true, 1, MADE),
    (11, true, false, 0, MADE),
];

fn ends_so(
    ran: (Result<(), CompactFault>, Journal<MemDisk>),
    is_made: bool,
    is_begun: bool,
    keep: u32,
    want: &[u8],
) -> bool {
    let (answer, journal) = ran;
    let is_as_told = answer.is_ok() == is_made && journal.is_begun() == is_begun;
    let Pair { a, b } = journal.into_disks();
    let is_left = leaves(a, keep, FIRST);
    let is_so = leaves(b, keep, want);
    is_as_told && is_left && is_so
}

fn first_left_otherwise(alloc: Global) -> Result<Option<usize>, Fail> {
    for (i, (call, is_made, is_begun, keep, want)) in STOPS.iter().enumerate() {
        let a = empty_disk(alloc, &[], None)?;
        let b = empty_disk(alloc, &[], Some(*call))?;
        let ran = run(alloc, Pair { a, b }, 100, &mut both())?;
        if !ends_so(ran, *is_made, *is_begun, *keep, want) {
            return Ok(Some(i));
        }
    }
    Ok(None)
}

// The first row that fails is None.
#[test]
fn each_call_may_fail(rt: HostRuntime) -> Result<(), Fail> {
    assert_eq!(rt; first_left_otherwise(rt.alloc())?, None);
    Ok(())
}

// What is answered, whether the side is begun, and the generation and the length then.
fn seen_of<D: Disk + Drop>(
    ran: (Result<(), CompactFault>, Journal<D>),
) -> (Result<(), CompactFault>, bool, u64, u64) {
    let (answer, journal) = ran;
    (
        answer,
        journal.is_begun(),
        journal.generation(),
        journal.side_length(),
    )
}

#[test]
fn a_checkpoint_is_as_long_as_its_records(rt: HostRuntime) -> Result<(), Fail> {
    let alloc = rt.alloc();
    let (a, b) = (empty_disk(alloc, &[], None)?, empty_disk(alloc, &[], None)?);
    let ran = run(alloc, Pair { a, b }, 31, &mut both())?;
    assert_eq!(rt; seen_of(ran), (Ok(()), false, 2, 31));
    Ok(())
}

#[test]
fn a_second_one_has_all_records_too(rt: HostRuntime) -> Result<(), Fail> {
    let alloc = rt.alloc();
    let (a, b) = (empty_disk(alloc, &[], None)?, empty_disk(alloc, &[], None)?);
    let ran = run_twice(alloc, Pair { a, b }, 31)?;
    assert_eq!(rt; seen_of(ran), (Ok(()), false, 3, 31));
    Ok(())
}

#[test]
fn a_longer_one_is_refused(rt: HostRuntime) -> Result<(), Fail> {
    let alloc = rt.alloc();
    let (a, b) = (empty_disk(alloc, &[], None)?, empty_disk(alloc, &[], None)?);
    let ran = run(alloc, Pair { a, b }, 30, &mut both())?;
    assert_eq!(rt; seen_of(ran), (Err(CompactFault::Full(31)), false, 1, 17));
    // up to the first record that passes the limit
    let (a, b) = (empty_disk(alloc, &[], None)?, empty_disk(alloc, &[], None)?);
    let ran = run(alloc, Pair { a, b }, 23, &mut both())?;
    assert_eq!(rt; seen_of(ran), (Err(CompactFault::Full(24)), false, 1, 17));
    Ok(())
}

#[test]
fn one_without_memory_for_a_record_is_refused(rt: HostRuntime) -> Result<(), Fail> {
    let alloc = rt.alloc();
    let (a, b) = (empty_disk(alloc, &[], None)?, empty_disk(alloc, &[], None)?);
    let ran = run(alloc, Pair { a, b }, 100, &mut Cramped { hi: true })?;
    assert_eq!(rt;
        seen_of(ran),
        (Err(CompactFault::OutOfMemory), false, 1, 17)
    );
    Ok(())
}
