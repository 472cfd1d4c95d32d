//! The moments at which locks may end, the soonest first.

ghost use Rattle.std.specs.Prelude.{min, ◌≡◌, ◌+◌, ◌<◌, ◌≤◌, ◌||◌, false, [], Bool, cond, nat_lt, OnOk, OnSome, IfSome, IfNone};
ghost use Rattle.std.specs.List.{list_any, count_by};
ghost use Rattle.std.proofs.Props.{props};
ghost use Rattle.std.specs.BinaryHeap.{IsHeap, heap_items, heap_len, heap_capacity};
ghost use Rattle.lock_table.specs.Queue.{Due, due_at, due_cmp, has_come, due_count};

use std::alloc::{AllocError, Global};
use std::cmp::Reverse;
use std::collections::BinaryHeap;

// The queue of deadlines: moments at which locks may end, each with the number of its lock, the soonest first.
#[derive(Drop)]
pub struct Deadlines {
    queue: BinaryHeap<Reverse<(u128, u64)>>,
    ghost ordered: { IsHeap due_cmp (heap_items queue) } by { Prim.hlevel props },
}

impl Deadlines {
    pub fn new(alloc: Global) -> Deadlines
        ensures { heap_items result.queue ≡ [] }
    {
        Deadlines {
            queue: BinaryHeap::new(alloc),
        }
    }

    // Makes room for so many entries that matter, and for about as many that matter no more.
    pub fn reserve(&mut self, entries: usize) -> Result<(), AllocError>
        ensures items { heap_items self.new.queue ≡ heap_items self.old.queue }
        ensures room { OnOk result (entries ≤ heap_capacity self.new.queue) }
        ensures kept { heap_capacity self.old.queue ≤ heap_capacity self.new.queue }
    {
        if self.queue.capacity() / 2 >= entries {
            return Ok(());
        }
        self.queue.reserve(entries)
    }

    pub fn has_room(&self) -> bool
        ensures { result ≡ nat_lt (heap_len self.now.queue) (heap_capacity self.now.queue) }
    {
        self.queue.len() < self.queue.capacity()
    }

    // Whether there is an entry whose moment has come.
    pub fn is_due(&self, moment: u64) -> bool
        ensures { result ≡ list_any (has_come moment) (heap_items self.now.queue) }
    {
        match self.queue.peek() {
            Some(Reverse((deadline, _))) => *deadline <= u128::from(moment),
            None => false,
        }
    }

    // Adds an entry, for which there is room.
    pub fn push(&mut self, deadline: u128, number: u64)
        requires { heap_len self.old.queue < heap_capacity self.old.queue }
        ensures entry { (p : Due → Bool) → list_any p (heap_items self.new.queue)
            ≡ (p (due_at deadline number) || list_any p (heap_items self.old.queue)) }
        ensures count { (p : Due → Bool) → count_by p (heap_items self.new.queue)
            ≡ cond (p (due_at deadline number)) 1 0 + count_by p (heap_items self.old.queue) }
        ensures len { heap_len self.new.queue ≡ heap_len self.old.queue + 1 }
        ensures kept { heap_capacity self.old.queue ≤ heap_capacity self.new.queue }
    {
        match self.queue.push(Reverse((deadline, number))) {
            Ok(()) => (),
            Err(_) => unreachable!(),
        }
    }

    // Takes the soonest entry, where its moment has come, and tells its number.
    pub fn pop_due(&mut self, moment: u64) -> Option<u64>
        ensures entry { IfSome result (λ n. (d : _)
            × ((p : Due → Bool) → list_any p (heap_items self.old.queue)
            ≡ (p (due_at d n) || list_any p (heap_items self.new.queue)))) }
        ensures count { OnSome result (due_count moment (heap_items self.new.queue) + 1
            ≡ due_count moment (heap_items self.old.queue)) }
        ensures room { OnSome result (heap_len self.new.queue < heap_capacity self.new.queue) }
        ensures none { IfNone result (list_any (has_come moment) (heap_items self.old.queue)
            ≡ false) }
        ensures same { IfNone result (heap_items self.new.queue ≡ heap_items self.old.queue) }
        ensures capacity { heap_capacity self.new.queue ≡ heap_capacity self.old.queue }
    {
        if !self.is_due(moment) {
            return None;
        }
        match self.queue.pop() {
            Some(Reverse((_, number))) => Some(number),
            None => None,
        }
    }

    pub fn clear(&mut self)
        ensures items { heap_items self.new.queue ≡ [] }
        ensures len { heap_len self.new.queue ≡ 0 }
        ensures capacity { heap_capacity self.new.queue ≡ heap_capacity self.old.queue }
    {
        self.queue.clear();
    }

    // Gives back memory, where much of it is not needed. Room for `least` entries stays, if it is there.
    pub fn shrink(&mut self, least: usize)
        ensures items { heap_items self.new.queue ≡ heap_items self.old.queue }
        ensures capacity { min least (heap_capacity self.old.queue) ≤ heap_capacity self.new.queue }
    {
        if self.queue.capacity() / 4 > least {
            self.queue.shrink_to(least);
        }
    }
}
