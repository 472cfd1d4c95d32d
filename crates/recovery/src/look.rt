//! What both files hold, read and written nowhere.

ghost use Rattle.std.specs.Prelude.{◌≡◌, ◌⊎◌, ◌≤◌, ◌<◌, ◌+◌, [], ℕ, List, length, Some, IfOk, IfErr, IfSome, OnErr, Err};
ghost use Rattle.std.specs.List.{AllByRecursion};
ghost use Rattle.wfs_ends.specs.Ends.{Rose};
ghost use Rattle.disk_core.specs.Disk.{Leads, Same};
ghost use Rattle.disk_core.specs.Sides.{chosen, spare};
ghost use Rattle.feature_journal.specs.Kept.{greatest_side};
ghost use Rattle.feature_journal.specs.Side.{side};
ghost use Rattle.feature_journal.specs.Whole.{Fits};
ghost use Rattle.feature_journal.specs.Refused.{Able};
ghost use Rattle.feature_journal.specs.Faults.{NoneFell, OneRose};
ghost use Rattle.recovery.specs.Outcome.{of_side, outcome_of};
ghost use Rattle.recovery.specs.Choice.{FirstIs, SecondIs, IsForeign};
ghost use Rattle.recovery.specs.Walk.{IsSide, IsFile};
ghost use Rattle.recovery.specs.Looked.{SideRead, EndsAt, LookedIs, LookedAt, Untouched};

use crate::choose::{Choice, choose};
use crate::head::read_head;
use crate::walk::{Side, walk};
use crate::{Place, RecoverFault, Replay};
use disk_core::{Disk, Pair};
use std::alloc::Global;
use wfs_ends::Failed;

// Reads a file as far as a journal can reach that keeps within the limit. A file that gives fewer bytes than its length
// ends there.
fn load<D: Disk>(
    alloc: Global,
    disk: &mut D,
    second: bool,
    limit: u64,
) -> Result<Side, RecoverFault>
    requires { limit ≤ greatest_side }
    ensures side { IfOk result (λ s. IsSide s × (s.limit ≡ limit) × (s.second ≡ second)) }
    ensures file { IfOk result (λ s. IfSome (D.shown disk.old) (IsFile s)) }
    ensures fault { IfErr result (λ e. (e ≡ RecoverFault.DiskFault)
        ⊎ (e ≡ RecoverFault.OutOfMemory)) }
    ensures same { D.shown disk.new ≡ D.shown disk.old }
    ensures crash { Leads D.moment D.since D.images Same disk.old disk.new }
    ensures count { D.faults disk.old ≤ D.faults disk.new }
    ensures cause { result ≡ Err RecoverFault.DiskFault
        → Rose (D.faults disk.old) (D.faults disk.new) }
{
    let len = match disk.len() {
        Ok(len) => len,
        Err(_) => return Err(RecoverFault::DiskFault),
    };
    let count = if len < limit + 4 { len } else { limit + 4 };
    let mut bytes = match vec![in alloc; 0u8; count as usize] {
        Ok(bytes) => bytes,
        Err(_) => return Err(RecoverFault::OutOfMemory),
    };
    match disk.read(0, &mut bytes) {
        Err(_) => Err(RecoverFault::DiskFault),
        Ok(n) => {
            let len = if (n as u64) < count { n as u64 } else { len };
            bytes.truncate(n);
            Ok(Side {
                bytes,
                len,
                limit,
                second,
            })
        }
    }
}

// Where the records end, and whether the gate there reads 0.
#[derive(Clone, Copy)]
pub(crate) struct Ending {
    pub(crate) gate: u64,
    pub(crate) is_closed: bool,
}

// Hands over the records of a side that is held.
fn ending_of<R: Replay>(read: &Side, replay: &mut R) -> Result<Ending, RecoverFault>
    requires held { IsSide read.now }
    requires within { 17 ≤ read.now.limit }
    requires first { R.taken replay.old ≡ [] }
    ensures answer { (c : List ℕ) → IsFile read.now c → 17 ≤ length c
        → SideRead result (of_side (R.verdict replay.old) read.now.limit read.now.second c)
        read.now.second c (R.taken replay.new) }
    ensures fault { result ≡ Err RecoverFault.DiskFault → ⊥ }
    ensures ends { IfOk result (λ e. (c : List ℕ) → IsFile read.now c → (generation : ℕ)
        → Able generation c → EndsAt e generation (R.taken replay.new) c) }
    ensures size { IfOk result (λ e. (generation : ℕ)
        → length (side generation (R.taken replay.new)) ≡ e.gate) }
    ensures fits { IfOk result (λ e. AllByRecursion Fits (R.taken replay.new)) }
    ensures within { IfOk result (λ e. e.gate + 1 ≤ read.now.limit) }
    ensures setting { R.setting replay.new ≡ R.setting replay.old }
    ensures verdict { R.verdict replay.new ≡ R.verdict replay.old }
{
    if read.len < 17 {
        return Err(RecoverFault::NotAJournal(Place {
            second_side: read.second,
            at: read.len,
        }));
    }
    match walk(read, replay) {
        Err(fault) => Err(fault),
        Ok(gate) => {
            let is_closed = read.bytes[gate as usize] == 0;
            Ok(Ending { gate, is_closed })
        }
    }
}

// Reads the current side, and hands over its records.
fn read_side<D: Disk, R: Replay>(
    alloc: Global,
    disk: &mut D,
    second: bool,
    limit: u64,
    replay: &mut R,
) -> Result<Ending, RecoverFault>
    requires limit { limit ≤ greatest_side }
    requires first { R.taken replay.old ≡ [] }
    ensures answer { IfSome (D.shown disk.old)
        (λ c. 17 ≤ length c → SideRead result (of_side (R.verdict replay.old) limit second c) second
        c (R.taken replay.new)) }
    ensures ends { IfOk result (λ e. IfSome (D.shown disk.old)
        (λ c. (generation : ℕ) → Able generation c → EndsAt e generation (R.taken replay.new) c)) }
    ensures size { IfOk result (λ e. (generation : ℕ)
        → length (side generation (R.taken replay.new)) ≡ e.gate) }
    ensures fits { IfOk result (λ e. AllByRecursion Fits (R.taken replay.new)) }
    ensures within { IfOk result (λ e. e.gate + 1 ≤ limit) }
    ensures setting { R.setting replay.new ≡ R.setting replay.old }
    ensures verdict { R.verdict replay.new ≡ R.verdict replay.old }
    ensures same { D.shown disk.new ≡ D.shown disk.old }
    ensures crash { Leads D.moment D.since D.images Same disk.old disk.new }
    ensures count { D.faults disk.old ≤ D.faults disk.new }
    ensures cause { result ≡ Err RecoverFault.DiskFault
        → Rose (D.faults disk.old) (D.faults disk.new) }
{
    if limit < 17 {
        return Err(RecoverFault::Full(17));
    }
    match load(alloc, disk, second, limit) {
        Err(fault) => Err(fault),
        Ok(side) => ending_of(&side, replay),
    }
}

fn read_chosen<D: Disk, R: Replay>(
    alloc: Global,
    disks: &mut Pair<D>,
    second: bool,
    limit: u64,
    replay: &mut R,
) -> Result<Ending, RecoverFault>
    requires limit { limit ≤ greatest_side }
    requires first { R.taken replay.old ≡ [] }
    ensures answer { IfSome (D.shown (chosen second disks.old))
        (λ c. 17 ≤ length c → SideRead result (of_side (R.verdict replay.old) limit second c) second
        c (R.taken replay.new)) }
    ensures ends { IfOk result (λ e. IfSome (D.shown (chosen second disks.old))
        (λ c. (generation : ℕ) → Able generation c → EndsAt e generation (R.taken replay.new) c)) }
    ensures size { IfOk result (λ e. (generation : ℕ)
        → length (side generation (R.taken replay.new)) ≡ e.gate) }
    ensures fits { IfOk result (λ e. AllByRecursion Fits (R.taken replay.new)) }
    ensures within { IfOk result (λ e. e.gate + 1 ≤ limit) }
    ensures setting { R.setting replay.new ≡ R.setting replay.old }
    ensures verdict { R.verdict replay.new ≡ R.verdict replay.old }
    ensures untouched { Untouched D.shown D.moment D.since D.images disks.old disks.new }
    ensures count { NoneFell D.faults disks.old disks.new }
    ensures cause { result ≡ Err RecoverFault.DiskFault → OneRose D.faults disks.old disks.new }
{
    if second {
        read_side(alloc, &mut disks.b, second, limit, replay)
    } else {
        read_side(alloc, &mut disks.a, second, limit, replay)
    }
}

// What both files hold: no side is current, of which each may be stale; or one is.
#[derive(Clone, Copy)]
pub(crate) enum Looked {
    Nothing(bool, bool),
    Found(Found),
}

// The current side, its generation and the place of its ending gate, whether the other side is stale, and whether that
// gate reads 0.
#[derive(Clone, Copy)]
pub(crate) struct Found {
    pub(crate) second: bool,
    pub(crate) generation: u64,
    pub(crate) gate: u64,
    pub(crate) is_stale: bool,
    pub(crate) is_closed: bool,
}

// Reads the first bytes of both files.
fn read_choice<D: Disk>(disks: &mut Pair<D>) -> Result<Choice, Failed>
    ensures first { IfOk result (λ h. IfSome (D.shown disks.old.a) (FirstIs h)) }
    ensures second { IfOk result (λ h. IfSome (D.shown disks.old.b) (SecondIs h)) }
    ensures foreign { IfOk result (λ h. IfSome (D.shown disks.old.a)
        (λ a. IfSome (D.shown disks.old.b) (IsForeign h a))) }
    ensures untouched { Untouched D.shown D.moment D.since D.images disks.old disks.new }
    ensures count { NoneFell D.faults disks.old disks.new }
    ensures cause { OnErr result (OneRose D.faults disks.old disks.new) }
{
    let a = read_head(&mut disks.a)?;
    let b = read_head(&mut disks.b)?;
    Ok(choose(a, b))
}

// Reads both files from the start, and hands over the records.
pub(crate) fn look<D: Disk, R: Replay>(
    alloc: Global,
    disks: &mut Pair<D>,
    limit: u64,
    replay: &mut R,
) -> Result<Looked, RecoverFault>
    requires { limit ≤ greatest_side }
    ensures answer { (a b : List ℕ) → D.shown disks.old.a ≡ Some a → D.shown disks.old.b ≡ Some b
        → LookedIs result (outcome_of (R.verdict replay.old) limit a b) (R.taken replay.new) }
    ensures known { IfOk result (λ l. LookedAt D.shown l limit (R.taken replay.new) disks.old) }
    ensures setting { R.setting replay.new ≡ R.setting replay.old }
    ensures verdict { R.verdict replay.new ≡ R.verdict replay.old }
    ensures untouched { Untouched D.shown D.moment D.since D.images disks.old disks.new }
    ensures count { NoneFell D.faults disks.old disks.new }
    ensures cause { result ≡ Err RecoverFault.DiskFault → OneRose D.faults disks.old disks.new }
{
    replay.restart();
    match read_choice(disks) {
        Err(_) => Err(RecoverFault::DiskFault),
        Ok(Choice::Foreign(place)) => Err(RecoverFault::NotAJournal(place)),
        Ok(Choice::Nothing(a, b)) => Ok(Looked::Nothing(a, b)),
        Ok(Choice::Current(second, generation, is_stale)) => {
            match read_chosen(alloc, disks, second, limit, replay) {
                Err(fault) => Err(fault),
                Ok(ending) => Ok(Looked::Found(Found {
                    second,
                    generation,
                    gate: ending.gate,
                    is_stale,
                    is_closed: ending.is_closed,
                })),
            }
        }
    }
}
