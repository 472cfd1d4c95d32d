//! A disk in memory, of which it is told beforehand which calls fail.

ghost use Rattle.std.specs.Prelude.{◌≡◌, ◌≤◌, ◌<◌, ◌+◌, ◌⊎◌, ◌↔◌, ◌++◌, ◌∷◌, ◌-◌, if◌then◌else◌, [], length, min, take, drop, IfOk, OnOk, OnErr, IsErr, IsTrue, Contains, vec_capacity};
ghost use Rattle.wfs_ends.specs.Ends.{Rose};
ghost use Rattle.disk_core.specs.Disk.{over, joined};
ghost use Rattle.disk_core.specs.Story.{read_after_all};
ghost use Rattle.disk_core.specs.Story.Step.{shortened, synced};
ghost use Rattle.disk_core.specs.Memory.{counted, Stopped, Fails, passed, refused, noted, noted_write, reads_as};

use crate::call::Call;
use std::alloc::Global;
use std::marker::Model;
use wfs_ends::{Failed, Mem, OutOfMemory};

/// A file in memory. Which calls fail is told beforehand.
///
/// Contracts see what stood on it at first, each write, cut and sync that was done since, the number of the next
/// call, how many calls failed, the number from which on all fail, how many more bytes may be written, the listed
/// numbers, and the stop.
#[derive(Drop)]
pub struct MemDisk {
    pub(crate) bytes: Vec<u8>,
    pub(crate) base: Vec<u8>,
    pub(crate) log: Vec<Call>,
    pub(crate) text: Vec<u8>,
    pub(crate) calls: u64,
    pub(crate) room: u64,
    pub(crate) failing: Vec<u64>,
    pub(crate) stop: Option<u64>,
    pub(crate) made: u64,
    pub(crate) faults: u64,
}

impl Model for MemDisk {
    ghost use Rattle.disk_core.specs.Memory.{Memory, IsMemory, steps_of};

    ghost Value = { Memory };

    ghost view = { λ m. record {
      base = m.base.items;
      steps = steps_of m.text.items m.log.items;
      made = m.made;
      failed = m.faults;
      calls = m.calls;
      room = m.room;
      failing = m.failing.items;
      stop = m.stop;
    } };

    ghost invariant = { λ m. IsMemory m.bytes m.base m.log m.text m.calls m.room m.made };
}

// Counts a call, and says whether it is to fail.
fn fails(made: &mut u64, calls: u64, failing: &[u64], stop: Option<u64>, faults: &mut u64) -> bool
    ensures exact { IsTrue result ↔ (Contains failing.now made.old
        ⊎ ((calls ≤ made.old) ⊎ Stopped stop made.old)) }
    ensures made { made.new ≡ counted made.old }
    ensures count { faults.new ≡ (if result then counted faults.old else faults.old) }
{
    let call = *made;
    *made = call.saturating_add(1);
    let is_stopped = match stop {
        Some(from) => from <= call,
        None => false,
    };
    let is_failing = failing.contains(&call) || call >= calls || is_stopped;
    if is_failing {
        *faults = faults.saturating_add(1);
    }
    is_failing
}

// Writes over what is there and past the end, with no more memory.
#[tactic(auto, unfolding(crate::specs::Disk::over))]
pub(crate) fn put_over(bytes: &mut Vec<u8>, at: usize, new: &[u8])
    requires within { at ≤ length bytes.old.items }
    requires room { length bytes.old.items + length new.now ≤ vec_capacity bytes.old }
    ensures put { bytes.new.items ≡ over at new.now bytes.old.items }
    ensures room { vec_capacity bytes.old ≤ vec_capacity bytes.new }
{
    if new.len() < bytes.len() - at {
        bytes[at..at + new.len()].copy_from_slice(new);
    } else {
        bytes.truncate(at);
        match bytes.extend_from_slice(new) {
            Ok(()) => {}
            Err(_) => unreachable!(),
        }
    }
}

// The same with a body between a head and a tail.
fn put_framed(bytes: &mut Vec<u8>, at: usize, head: &[u8], body: &[u8], tail: &[u8])
    requires within { at ≤ length bytes.old.items }
    requires room { length bytes.old.items + length (joined head.now body.now tail.now) ≤
        vec_capacity bytes.old }
    ensures put { bytes.new.items ≡ over at (joined head.now body.now tail.now) bytes.old.items }
    ensures room { vec_capacity bytes.old ≤ vec_capacity bytes.new }
{
    put_over(bytes, at, head);
    put_over(bytes, at + head.len(), body);
    put_over(bytes, at + head.len() + body.len(), tail);
}

// Appends with no more memory.
fn push_all(text: &mut Vec<u8>, bytes: &[u8])
    requires { length text.old.items + length bytes.now ≤ vec_capacity text.old }
    ensures pushed { text.new.items ≡ text.old.items ++ bytes.now }
    ensures room { vec_capacity text.old ≤ vec_capacity text.new }
{
    match text.extend_from_slice(bytes) {
        Ok(()) => {}
        Err(_) => unreachable!(),
    }
}

// Notes a call, with no more memory.
fn log_call(log: &mut Vec<Call>, call: Call)
    requires { length log.old.items < vec_capacity log.old }
    ensures pushed { log.new.items ≡ log.old.items ++ call ∷ [] }
    ensures room { vec_capacity log.old ≤ vec_capacity log.new }
{
    match log.push(call) {
        Ok(()) => {}
        Err(_) => unreachable!(),
    }
}

// Notes a write, with no more memory.
fn log_write(
    log: &mut Vec<Call>,
    text: &mut Vec<u8>,
    at: usize,
    head: &[u8],
    body: &[u8],
    tail: &[u8],
)
    requires log { length log.old.items < vec_capacity log.old }
    requires text { length text.old.items + length (joined head.now body.now tail.now) ≤
        vec_capacity text.old }
    ensures pushed { log.new.items ≡ log.old.items
        ++ Call.Write at (length text.old.items) (length (joined head.now body.now tail.now)) ∷ [] }
    ensures text { text.new.items ≡ text.old.items ++ joined head.now body.now tail.now }
    ensures room { (vec_capacity log.old ≤ vec_capacity log.new)
        × (vec_capacity text.old ≤ vec_capacity text.new) }
{
    let from = text.len();
    push_all(text, head);
    push_all(text, body);
    push_all(text, tail);
    log_call(
        log,
        Call::Write {
            at,
            from,
            size: text.len() - from,
        },
    );
}

// A copy with room for more.
fn copy_with_room(alloc: Global, bytes: &[u8], room: u64) -> Mem<Vec<u8>>
    ensures { IfOk result (λ v. (v.items ≡ bytes.now)
        × (length bytes.now + room ≤ vec_capacity v)) }
{
    let Some(size) = bytes.len().checked_add(room as usize) else {
        return Err(OutOfMemory);
    };
    let mut copy = Vec::with_capacity(alloc, size)?;
    copy.extend_from_slice(bytes)?;
    Ok(copy)
}

impl MemDisk {
    /// A file with these bytes, all of them stable. It takes here the memory for `calls` calls and for `room` bytes
    /// written in all. Calls are numbered from 0. A call fails exactly where its number is listed in `failing`, is
    /// `calls` or above, is `stop` or above, or where its bytes are more than what is left of `room`.
    #[tactic(auto, unfolding(crate::specs::Story::read_after_all, crate::specs::Memory::written_size))]
    pub fn new(
        alloc: Global,
        bytes: Vec<u8>,
        calls: u64,
        room: u64,
        failing: Vec<u64>,
        stop: Option<u64>,
    ) -> Mem<MemDisk>
        ensures { IfOk result (λ m. m ≡ record {
          base = bytes.items;
          steps = [];
          made = 0;
          failed = 0;
          calls = calls;
          room = room;
          failing = failing.items;
          stop = stop;
        }) }
    {
        Ok(MemDisk {
            bytes: copy_with_room(alloc, &bytes, room)?,
            base: copy_with_room(alloc, &bytes, room)?,
            log: Vec::with_capacity(alloc, calls as usize)?,
            text: Vec::with_capacity(alloc, room as usize)?,
            calls,
            room,
            failing,
            stop,
            made: 0,
            faults: 0,
        })
    }

    // Counts a call that does nothing to the file.
    fn turn(&mut self) -> Result<(), Failed>
        ensures fails { IsErr result ↔ Fails self.old }
        ensures failed { OnErr result (self.new ≡ refused self.old) }
        ensures count { self.old.failed ≤ self.new.failed }
        ensures cause { OnErr result (Rose self.old.failed self.new.failed) }
        ensures done { OnOk result (self.new ≡ passed self.old) }
    {
        if fails(
            &mut self.made,
            self.calls,
            &self.failing,
            self.stop,
            &mut self.faults,
        ) {
            return Err(Failed);
        }
        Ok(())
    }

    pub(crate) fn held(&self) -> &[u8]
        ensures { result.now ≡ reads_as self.now }
    {
        &self.bytes
    }

    pub(crate) fn do_read(&mut self, at: u64, into: &mut [u8]) -> Result<usize, Failed>
        ensures fails { IsErr result ↔ Fails self.old }
        ensures failed { OnErr result (self.new ≡ refused self.old) }
        ensures count { self.old.failed ≤ self.new.failed }
        ensures cause { OnErr result (Rose self.old.failed self.new.failed) }
        ensures done { OnOk result (self.new ≡ passed self.old) }
        ensures read { IfOk result (λ n. (n ≡ min (length into.old)
            (length (reads_as self.old) - at))
            × (take n into.new ≡ take n (drop at (reads_as self.old)))) }
    {
        self.turn()?;
        let bytes = self.held();
        if at >= bytes.len() as u64 {
            return Ok(0);
        }
        let rest = &bytes[at as usize..];
        let n = rest.len().min(into.len());
        into[..n].copy_from_slice(&rest[..n]);
        Ok(n)
    }

    pub(crate) fn do_len(&mut self) -> Result<u64, Failed>
        ensures fails { IsErr result ↔ Fails self.old }
        ensures failed { OnErr result (self.new ≡ refused self.old) }
        ensures count { self.old.failed ≤ self.new.failed }
        ensures cause { OnErr result (Rose self.old.failed self.new.failed) }
        ensures done { OnOk result (self.new ≡ passed self.old) }
        ensures read { IfOk result (λ n. n ≡ length (reads_as self.old)) }
    {
        self.turn()?;
        Ok(self.held().len() as u64)
    }

    pub(crate) fn do_write(
        &mut self,
        at: u64,
        head: &[u8],
        body: &[u8],
        tail: &[u8],
    ) -> Result<(), Failed>
        requires { at ≤ length (reads_as self.old) }
        ensures fails { IsErr result ↔ (Fails self.old
            ⊎ (self.old.room < length (joined head.now body.now tail.now))) }
        ensures failed { OnErr result (self.new ≡ refused self.old) }
        ensures count { self.old.failed ≤ self.new.failed }
        ensures cause { OnErr result (Rose self.old.failed self.new.failed) }
        ensures done { OnOk result (self.new ≡ noted_write at (joined head.now body.now tail.now)
            self.old) }
    {
        if fails(
            &mut self.made,
            self.calls,
            &self.failing,
            self.stop,
            &mut self.faults,
        ) {
            return Err(Failed);
        }
        let size = head.len() as u128 + body.len() as u128 + tail.len() as u128;
        if size > self.room as u128 {
            self.faults = self.faults.saturating_add(1);
            return Err(Failed);
        }
        self.room -= size as u64;
        put_framed(&mut self.bytes, at as usize, head, body, tail);
        log_write(&mut self.log, &mut self.text, at as usize, head, body, tail);
        Ok(())
    }

    pub(crate) fn do_cut(&mut self, to: u64) -> Result<(), Failed>
        requires { to ≤ length (reads_as self.old) }
        ensures fails { IsErr result ↔ Fails self.old }
        ensures failed { OnErr result (self.new ≡ refused self.old) }
        ensures count { self.old.failed ≤ self.new.failed }
        ensures cause { OnErr result (Rose self.old.failed self.new.failed) }
        ensures done { OnOk result (self.new ≡ noted (shortened to) self.old) }
    {
        if fails(
            &mut self.made,
            self.calls,
            &self.failing,
            self.stop,
            &mut self.faults,
        ) {
            return Err(Failed);
        }
        self.bytes.truncate(to as usize);
        log_call(&mut self.log, Call::Cut { to: to as usize });
        Ok(())
    }

    pub(crate) fn do_sync(&mut self) -> Result<(), Failed>
        ensures fails { IsErr result ↔ Fails self.old }
        ensures failed { OnErr result (self.new ≡ refused self.old) }
        ensures count { self.old.failed ≤ self.new.failed }
        ensures cause { OnErr result (Rose self.old.failed self.new.failed) }
        ensures done { OnOk result (self.new ≡ noted synced self.old) }
    {
        if fails(
            &mut self.made,
            self.calls,
            &self.failing,
            self.stop,
            &mut self.faults,
        ) {
            return Err(Failed);
        }
        log_call(&mut self.log, Call::Sync);
        Ok(())
    }
}
