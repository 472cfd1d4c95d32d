//! The deadlines of locks are put into the queue.

ghost use Rattle.std.specs.Prelude.{◌≡◌, ℕ, ◌+◌, ◌<◌, ◌≤◌, true, length};
ghost use Rattle.std.specs.BinaryHeap.{heap_items, heap_len, heap_capacity};
ghost use Rattle.lock_table.specs.Held.{is_live_number, IsRising};
ghost use Rattle.lock_table.specs.Lock.{Lock};
ghost use Rattle.lock_table.specs.Queue.{due_count, awaits_end, is_queued, AreQueued, AreQueuedBut};

use crate::deadlines::Deadlines;
use crate::kept::KeptLock;
use crate::numbered;

// Queues a lock that has still to be ended.
fn note_lock(deadlines: &mut Deadlines, lock: &KeptLock)
    requires { heap_len deadlines.old.queue < heap_capacity deadlines.old.queue }
    ensures queued { awaits_end lock.now ≡ true
        → is_queued (heap_items deadlines.new.queue) lock.now ≡ true }
    ensures more { (l : Lock) → is_queued (heap_items deadlines.old.queue) l ≡ true
        → is_queued (heap_items deadlines.new.queue) l ≡ true }
    ensures len { heap_len deadlines.new.queue ≤ heap_len deadlines.old.queue + 1 }
    ensures capacity { heap_capacity deadlines.old.queue ≤ heap_capacity deadlines.new.queue }
{
    if lock.awaits_end() {
        deadlines.push(lock.deadline(), lock.number());
    }
}

// Queues the locks that have still to be ended, once each.
fn note_all(deadlines: &mut Deadlines, locks: &[KeptLock])
    requires { length locks.now ≤ heap_capacity deadlines.old.queue }
    ensures queued { AreQueued (heap_items deadlines.new.queue) locks.now }
    ensures capacity { heap_capacity deadlines.old.queue ≤ heap_capacity deadlines.new.queue }
{
    deadlines.clear();
    for lock in locks {
        note_lock(deadlines, lock);
    }
}

// Queues the lock with a number at its deadline, for which there is room.
pub fn note_one(deadlines: &mut Deadlines, locks: &[KeptLock], number: u64)
    requires rising { IsRising 0 locks.now }
    requires room { heap_len deadlines.old.queue < heap_capacity deadlines.old.queue }
    ensures queued { AreQueuedBut number (heap_items deadlines.old.queue) locks.now
        → AreQueued (heap_items deadlines.new.queue) locks.now }
    ensures later { (moment : ℕ) → is_live_number locks.now moment number ≡ true
        → due_count moment (heap_items deadlines.new.queue)
        ≡ due_count moment (heap_items deadlines.old.queue) }
    ensures capacity { heap_capacity deadlines.old.queue ≤ heap_capacity deadlines.new.queue }
{
    match numbered::place(locks, number) {
        Some(i) => deadlines.push(locks[i].deadline(), number),
        None => (),
    }
}

// Queues the lock with a number at its deadline. Where the queue is full of entries that no longer matter, it is made
// anew.
pub fn note(deadlines: &mut Deadlines, locks: &[KeptLock], number: u64)
    requires rising { IsRising 0 locks.now }
    requires room { length locks.now ≤ heap_capacity deadlines.old.queue }
    ensures queued { AreQueuedBut number (heap_items deadlines.old.queue) locks.now
        → AreQueued (heap_items deadlines.new.queue) locks.now }
    ensures capacity { heap_capacity deadlines.old.queue ≤ heap_capacity deadlines.new.queue }
{
    if deadlines.has_room() {
        note_one(deadlines, locks, number);
    } else {
        note_all(deadlines, locks);
    }
}
