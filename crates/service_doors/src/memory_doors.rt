//! Doors in memory, whose acceptors and faults are told beforehand.

ghost use Rattle.std.specs.Prelude.{◌≡◌, ◌-◌, ◌≤◌, [], length, get_or, drop, map, IfOk, IfErr, OnOk, Contains, vec_capacity};
ghost use Rattle.std.specs.List.{All};
ghost use Rattle.service_doors.specs.Listening.{asking, first_of, Opens};
ghost use Rattle.service_doors.specs.Memory.{new_calls, no_links, IsNewRow, after_listen, accepting_of, listening_of, RefusesEntry};

use crate::calls::Calls;
use crate::{Asked, DoorFault, Doors, MemAcceptor};
use std::alloc::Global;
use std::marker::Model;
use wfs_ends::Text;

/// Gives acceptors of memory, in order, and empty ones where it has too few. A call of `listen` fails where its number
/// is listed. Calls are counted from 0, without those for which memory ran out.
#[derive(Drop)]
pub struct MemDoors {
    waiting: Vec<MemAcceptor>,
    asked: Vec<Asked>,
    calls: Calls,
}

impl Model for MemDoors {
    ghost use Rattle.std.specs.List.{All};
    ghost use Rattle.service_doors.specs.Memory.{Entry, IsNewRow};

    ghost Value = { Entry };

    ghost view = { λ m. record {
      waiting = m.waiting.items;
      asked = m.asked.items;
      calls = m.calls;
    } };

    ghost invariant = { λ m. All IsNewRow m.waiting.items };
}

// The next acceptor, or an empty one.
fn next(alloc: Global, waiting: &mut Vec<MemAcceptor>) -> MemAcceptor
    ensures next { result ≡ get_or waiting.old.items 0 no_links }
    ensures rest { waiting.new.items ≡ drop 1 waiting.old.items }
{
    if waiting.is_empty() {
        return MemAcceptor::new(Vec::new(alloc), Vec::new(alloc));
    }
    waiting.remove(0)
}

// Gives the next acceptors, with no more memory than the list that they are put into has.
fn give(alloc: Global, waiting: &mut Vec<MemAcceptor>, workers: u32, given: &mut Vec<MemAcceptor>)
    requires none { given.old.items ≡ [] }
    requires room { workers ≤ vec_capacity given.old }
    ensures given { given.new.items ≡ first_of no_links workers waiting.old.items }
    ensures rest { waiting.new.items ≡ drop workers waiting.old.items }
{
    for _worker in 0..workers {
        match given.push(next(alloc, waiting)) {
            Ok(()) => {}
            Err(_) => unreachable!(),
        }
    }
}

impl MemDoors {
    /// Doors with these acceptors, of which no call was made yet, whose listed calls fail. It takes no memory.
    pub fn new(alloc: Global, acceptors: Vec<MemAcceptor>, failing: Vec<u64>) -> MemDoors
        requires { All IsNewRow acceptors.items }
        ensures { result ≡ record {
          waiting = acceptors.items;
          asked = [];
          calls = new_calls failing.items;
        } }
    {
        MemDoors {
            waiting: acceptors,
            asked: Vec::new(alloc),
            calls: Calls::of(failing),
        }
    }

    /// What it was asked for and gave, in order.
    pub fn asked(&self) -> &[Asked]
        ensures { result.now ≡ self.now.asked }
    {
        &self.asked
    }
}

impl Doors for MemDoors {
    type Acceptor = MemAcceptor;

    ghost listening = { λ m. listening_of m };

    fn listen(
        &mut self,
        alloc: Global,
        address: &str,
        workers: u32,
    ) -> Result<Vec<MemAcceptor>, DoorFault>
        ensures given { IfOk result (λ v. v.items ≡ first_of no_links workers self.old.waiting) }
        ensures opens { IfOk result (λ v. Opens (listening_of self.old) (asking address.now workers)
            (map accepting_of v.items) (listening_of self.new)) }
        ensures moved { OnOk result (self.new ≡ after_listen self.old
            (asking address.now workers)) }
        ensures calm { OnOk result (Contains self.old.calls.failing self.old.calls.made → ⊥) }
        ensures err { IfErr result (λ fault. RefusesEntry fault self.old self.new) }
    {
        let mut given = Vec::with_capacity(alloc, workers as usize)?;
        let address = Text::of(alloc, address)?;
        self.asked.reserve(1)?;
        if self.calls.fails() {
            return Err(DoorFault::Failed);
        }
        match self.asked.push(Asked { address, workers }) {
            Ok(()) => {}
            Err(_) => unreachable!(),
        }
        give(alloc, &mut self.waiting, workers, &mut given);
        Ok(given)
    }
}
