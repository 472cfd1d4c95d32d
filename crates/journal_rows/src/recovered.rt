//! What recovery answers for pairs of files, and what it leaves where a call fails.

ghost use Rattle.std.specs.Prelude.{◌≡◌, ◌≤◌, ◌++◌, ◌∷◌, ◌==◌, if◌then◌else◌, [], ℕ, List, map, get_or};
ghost use Rattle.feature_journal.specs.Kept.{greatest_side};
ghost use Rattle.recovery.specs.Replay.Verdict.{accepted, bad_bytes, not_of_schema};

use crate::crashes::leaves;
use disk_core::{Disk, MemDisk, Pair};
use recovery::{Place, RecoverFault, Replay, ReplayFault, look_over, recover};
use rows::{EMPTY, FAULTS, JOURNALS, LEFT, NEW, NO_JOURNALS};
use std::alloc::Global;
use std::test::Fail;
use stops::STOPS;
use wfs_ends::Mem;

mod rows;
mod stops;

// Takes each body but those that begin with `!`, whose bytes are none, and with `?`, which do not fit.
#[derive(Drop)]
struct Keeper {
    alloc: Global,
    bodies: Vec<Vec<u8>>,
}

impl Replay for Keeper {
    ghost use Rattle.std.specs.Prelude.{◌==◌, if◌then◌else◌, map, get_or};
    ghost use Rattle.recovery.specs.Replay.Verdict.{accepted, bad_bytes, not_of_schema};

    ghost Setting = { Unit {0} };

    ghost setting = { λ s. tt };

    ghost taken = { λ s. map (λ v. v.items) s.bodies.items };

    ghost verdict = { λ s taken body. if get_or body 0 0 == 33 then bad_bytes
        else (if get_or body 0 0 == 63 then not_of_schema else accepted) };

    fn restart(&mut self) {
        self.bodies.clear();
    }

    fn take_record(&mut self, _number: u64, body: &[u8]) -> Result<(), ReplayFault> {
        if body.starts_with(b"!") {
            return Err(ReplayFault::BadBytes);
        }
        if body.starts_with(b"?") {
            return Err(ReplayFault::NotOfSchema);
        }
        let mut copy = Vec::new(self.alloc);
        if copy.extend_from_slice(body).is_err() {
            return Err(ReplayFault::OutOfMemory);
        }
        match self.bodies.push(copy) {
            Ok(()) => Ok(()),
            Err(_) => Err(ReplayFault::OutOfMemory),
        }
    }
}

fn disk_of(alloc: Global, text: &[u8], stop: Option<u64>) -> Mem<MemDisk> {
    let mut bytes = Vec::new(alloc);
    bytes.extend_from_slice(text)?;
    MemDisk::new(alloc, bytes, 60, 200, Vec::new(alloc), stop)
}

fn new_keeper(alloc: Global) -> Keeper {
    Keeper {
        alloc,
        bodies: Vec::new(alloc),
    }
}

// What a look answers, the length; and what is recovered then, the generation, the length and the number of bodies.
type Answers = (
    Result<u64, RecoverFault>,
    Result<(u64, u64, usize), RecoverFault>,
);

fn answers_of<D: Disk + Drop>(
    alloc: Global,
    disks: Pair<D>,
    limit: u64,
    keeper: &mut Keeper,
) -> Answers
    requires { limit ≤ greatest_side }
{
    let mut disks = disks;
    let length = look_over(alloc, &mut disks, limit, keeper);
    match recover(alloc, disks, limit, keeper) {
        Err((_, fault)) => (length, Err(fault)),
        Ok(journal) => (
            length,
            Ok((
                journal.generation(),
                journal.side_length(),
                keeper.bodies.len(),
            )),
        ),
    }
}

fn answers_on(alloc: Global, a: &[u8], b: &[u8], limit: u64) -> Mem<Answers> {
    let limit = if limit < 1000 { limit } else { 1000 };
    let (a, b) = (disk_of(alloc, a, None)?, disk_of(alloc, b, None)?);
    Ok(answers_of(alloc, Pair { a, b }, limit, &mut new_keeper(alloc)))
}

fn first_not_new(alloc: Global) -> Mem<Option<usize>> {
    for (i, (a, b)) in NEW.iter().enumerate() {
        if answers_on(alloc, a, b, 1000)? != (Ok(0), Ok((1, 17, 0))) {
            return Ok(Some(i));
        }
    }
    Ok(None)
}

fn first_other(alloc: Global) -> Mem<Option<usize>> {
    for (i, (a, b, limit, generation, length, count)) in JOURNALS.iter().enumerate() {
        let want = (Ok(*length), Ok((*generation, *length, *count)));
        if answers_on(alloc, a, b, *limit)? != want {
            return Ok(Some(i));
        }
    }
    Ok(None)
}

fn first_recovered(alloc: Global) -> Mem<Option<usize>> {
    for (i, (a, b, limit, fault)) in FAULTS.iter().enumerate() {
        if answers_on(alloc, a, b, *limit)? != (Err(*fault), Err(*fault)) {
            return Ok(Some(i));
        }
    }
    Ok(None)
}

fn first_journal(alloc: Global) -> Mem<Option<usize>> {
    for (i, (a, b, limit, second_side, at)) in NO_JOURNALS.iter().enumerate() {
        let fault = RecoverFault::NotAJournal(Place {
            second_side: *second_side,
            at: *at,
        });
        if answers_on(alloc, a, b, *limit)? != (Err(fault), Err(fault)) {
            return Ok(Some(i));
        }
    }
    Ok(None)
}

// Recovers two disks: whether that was done, and the disks.
fn run<D: Disk + Drop>(alloc: Global, disks: Pair<D>) -> (bool, Pair<D>) {
    match recover(alloc, disks, 1000, &mut new_keeper(alloc)) {
        Ok(journal) => (true, journal.into_disks()),
        Err((disks, _)) => (false, disks),
    }
}

// Whether the recovery of disks ends so, and then whether a crash leaves these bytes of each.
fn ends_so(
    disks: (bool, Pair<MemDisk>),
    is_done: bool,
    keep: u32,
    want_a: &[u8],
    want_b: &[u8],
) -> bool {
    let (done, disks) = disks;
    let Pair { a, b } = disks;
    let is_a = leaves(a, keep, want_a);
    let is_b = leaves(b, keep, want_b);
    done == is_done && is_a && is_b
}

fn first_left_otherwise(alloc: Global) -> Mem<Option<usize>> {
    for (i, (a, b, on_b, call, is_done, keep, want_a, want_b)) in STOPS.iter().enumerate() {
        let (stop_a, stop_b) = if *on_b {
            (None, Some(*call))
        } else {
            (Some(*call), None)
        };
        let (a, b) = (disk_of(alloc, a, stop_a)?, disk_of(alloc, b, stop_b)?);
        if !ends_so(run(alloc, Pair { a, b }), *is_done, *keep, want_a, want_b) {
            return Ok(Some(i));
        }
    }
    Ok(None)
}

// Looks over two disks, or recovers them: whether that is answered so, and the disks.
fn ask<D: Disk + Drop>(
    alloc: Global,
    disks: Pair<D>,
    is_recovery: bool,
    want: &Result<u64, RecoverFault>,
) -> (bool, Pair<D>) {
    if is_recovery {
        match recover(alloc, disks, 1000, &mut new_keeper(alloc)) {
            Ok(journal) => (*want == Ok(journal.side_length()), journal.into_disks()),
            Err((disks, fault)) => (*want == Err(fault), disks),
        }
    } else {
        let mut disks = disks;
        let length = look_over(alloc, &mut disks, 1000, &mut new_keeper(alloc));
        (*want == length, disks)
    }
}

fn first_written(alloc: Global) -> Mem<Option<usize>> {
    for (i, (a, b, is_recovery, want)) in LEFT.iter().enumerate() {
        let disks = Pair {
            a: disk_of(alloc, a, None)?,
            b: disk_of(alloc, b, None)?,
        };
        if !ends_so(ask(alloc, disks, *is_recovery, want), true, 9, a, b) {
            return Ok(Some(i));
        }
    }
    Ok(None)
}

// The first row that fails is None.
#[test]
fn new_journals_are_made(rt: HostRuntime) -> Result<(), Fail> {
    assert_eq!(rt; first_not_new(rt.alloc())?, None);
    Ok(())
}

#[test]
fn journals_are_recovered(rt: HostRuntime) -> Result<(), Fail> {
    assert_eq!(rt; first_other(rt.alloc())?, None);
    Ok(())
}

#[test]
fn other_files_are_refused(rt: HostRuntime) -> Result<(), Fail> {
    assert_eq!(rt; first_journal(rt.alloc())?, None);
    assert_eq!(rt; first_recovered(rt.alloc())?, None);
    Ok(())
}

// A look reads no side where none is current, and so does not meet the limit.
#[test]
fn a_new_journal_needs_its_room(rt: HostRuntime) -> Result<(), Fail> {
    let want = (Ok(0), Err(RecoverFault::Full(17)));
    assert_eq!(rt; answers_on(rt.alloc(), EMPTY, EMPTY, 16)?, want);
    Ok(())
}

#[test]
fn looks_and_refusals_write_nothing(rt: HostRuntime) -> Result<(), Fail> {
    assert_eq!(rt; first_written(rt.alloc())?, None);
    Ok(())
}

#[test]
fn each_call_may_fail(rt: HostRuntime) -> Result<(), Fail> {
    assert_eq!(rt; first_left_otherwise(rt.alloc())?, None);
    Ok(())
}
