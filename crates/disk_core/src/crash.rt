//! What a crash leaves of a disk.

ghost use Rattle.std.specs.Prelude.{◌≡◌, ◌≤◌, ◌<◌, ◌+◌, ◌^◌, ◌∷◌, ℕ, List, length, vec_capacity};
ghost use Rattle.std.specs.List.{AllByRecursion};
ghost use Rattle.disk_core.specs.Story.{Step, read_after, read_after_all};
ghost use Rattle.disk_core.specs.Memory.{step_of, steps_of, IsWithin, size_of, written_size, unsynced_from, crashed, image_of};

use crate::MemDisk;
use crate::call::Call;
use crate::memory::put_over;

// How many writes and cuts have come since the last sync, after a call more.
#[tactic(auto, unfolding(crate::specs::Memory::unsynced_from))]
fn count_on(count: usize, call: Call) -> usize
    requires { count + 1 < 2 ^ 64 }
    ensures count { (text : List ℕ) (steps : List Step)
        → unsynced_from result steps ≡ unsynced_from count (step_of text call ∷ steps) }
    ensures within { result ≤ count + 1 }
{
    match call {
        Call::Write { .. } | Call::Cut { .. } => count + 1,
        Call::Sync => 0,
    }
}

// How many writes and cuts have come since the last sync.
fn unsynced(log: &[Call]) -> usize
    ensures count { (text : List ℕ) → result ≡ unsynced_from 0 (steps_of text log.now) }
    ensures within { result ≤ length log.now }
{
    let mut count = 0;
    for call in log {
        count = count_on(count, *call);
    }
    count
}

// Does a call of the log again, with no more memory.
#[tactic(auto, unfolding(crate::specs::Story::read_after))]
fn redo(bytes: &mut Vec<u8>, call: Call, text: &[u8])
    requires within { IsWithin (length text.now) call }
    requires room { length bytes.old.items + size_of call ≤ vec_capacity bytes.old }
    ensures done { bytes.new.items ≡ read_after bytes.old.items (step_of text.now call) }
    ensures room { vec_capacity bytes.old ≤ vec_capacity bytes.new }
{
    match call {
        Call::Write { at, from, size } => {
            if at <= bytes.len() {
                put_over(bytes, at, &text[from..from + size]);
            }
        }
        Call::Cut { to } => bytes.truncate(to),
        Call::Sync => {}
    }
}

// Does all of the log again.
fn redo_all(bytes: &mut Vec<u8>, log: &[Call], text: &[u8])
    requires within { AllByRecursion (IsWithin (length text.now)) log.now }
    requires room { length bytes.old.items + written_size log.now ≤ vec_capacity bytes.old }
    ensures done { bytes.new.items ≡ read_after_all bytes.old.items (steps_of text.now log.now) }
    ensures room { vec_capacity bytes.old ≤ vec_capacity bytes.new }
{
    for call in log {
        redo(bytes, *call, text);
    }
}

// One file's bytes in the place of the other's, with no more memory.
fn copy_over(into: &mut Vec<u8>, from: &[u8])
    requires { length from.now ≤ vec_capacity into.old }
    ensures copied { into.new.items ≡ from.now }
    ensures room { vec_capacity into.old ≤ vec_capacity into.new }
{
    into.clear();
    match into.extend_from_slice(from) {
        Ok(()) => {}
        Err(_) => unreachable!(),
    }
}

impl MemDisk {
    /// What one crash leaves: the first `keep` writes since the last sync are done, and the rest of them is not. A
    /// cut counts as a write here. The disk that it answers numbers its calls anew from 0 up to `calls`, counts its
    /// faults anew, and has what is left of `room`, no listed call and no stop. What it holds is one of the images.
    pub fn crash(self, keep: u32) -> MemDisk
        ensures left { result ≡ crashed keep self }
        ensures image { image_of self result.base }
    {
        let mut disk = self;
        let kept = (disk.log.len() - unsynced(&disk.log)).saturating_add(keep as usize);
        disk.log.truncate(kept);
        redo_all(&mut disk.base, &disk.log, &disk.text);
        copy_over(&mut disk.bytes, &disk.base);
        disk.log.clear();
        disk.text.clear();
        disk.failing.clear();
        disk.stop = None;
        disk.made = 0;
        disk.faults = 0;
        disk
    }
}
