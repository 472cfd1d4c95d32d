//! An acceptor in memory, whose links and faults are told beforehand.

ghost use Rattle.std.specs.Prelude.{◌≡◌, ◌<◌, ◌↔◌, ◌++◌, ◌∷◌, [], None, Ok, IfOk, IfSome, OnErr, IsErr, Contains};
ghost use Rattle.service_doors.specs.Memory.{new_row, after_accept, after_failed_accept, after_finish, accepting_of};

use crate::Acceptor;
use crate::calls::Calls;
use std::marker::Model;
use wfs_ends::{Failed, MemLink};

/// Hands out links of memory, in order, and puts each back in its place when it is finished. A call of `accept` fails
/// exactly where its number, counted from 0, is listed.
#[derive(Drop)]
pub struct MemAcceptor {
    links: Vec<MemLink>,
    at: usize,
    out: usize,
    calls: Calls,
}

impl Model for MemAcceptor {
    ghost use Rattle.std.specs.Prelude.{◌+◌, ◌≤◌, length, vec_capacity};
    ghost use Rattle.service_doors.specs.Memory.{Row, row_of};

    ghost Value = { Row };

    ghost view = { λ m. row_of m.links.items m.at m.out m.calls };

    ghost invariant = { λ m. (m.at ≤ length m.links.items)
        × (length m.links.items + m.out ≤ vec_capacity m.links) };
}

impl MemAcceptor {
    /// An acceptor of these links, whose listed calls fail. It takes no memory.
    pub fn new(links: Vec<MemLink>, failing: Vec<u64>) -> MemAcceptor
        ensures { result ≡ new_row links.items failing.items }
    {
        MemAcceptor {
            links,
            at: 0,
            out: 0,
            calls: Calls::of(failing),
        }
    }

    /// The finished links in the order in which they were finished, and behind them those that are still to come.
    pub fn links(&self) -> &[MemLink]
        ensures { result.now ≡ self.now.done ++ self.now.left }
    {
        &self.links
    }
}

impl Acceptor for MemAcceptor {
    type Link = MemLink;

    ghost accepting = { λ m. accepting_of m };

    fn accept(&mut self) -> Result<Option<MemLink>, Failed>
        ensures fails { IsErr result ↔ Contains self.old.calls.failing self.old.calls.made }
        ensures first { IfOk result (λ r. IfSome r (λ link. self.old.left ≡ link ∷ self.new.left)) }
        ensures none { result ≡ Ok None → self.old.left ≡ [] }
        ensures moved { IfOk result (λ r. self.new ≡ after_accept self.old r) }
        ensures err { OnErr result (self.new ≡ after_failed_accept self.old) }
    {
        if self.calls.fails() {
            return Err(Failed);
        }
        if self.at == self.links.len() {
            return Ok(None);
        }
        self.out = self.out.saturating_add(1);
        Ok(Some(self.links.remove(self.at)))
    }

    fn finish(&mut self, link: MemLink)
        requires { 0 < self.old.out }
        ensures { self.new ≡ after_finish self.old link }
    {
        match self.links.insert(self.at, link) {
            Ok(()) => {}
            Err(_) => unreachable!(),
        }
        self.at += 1;
        self.out -= 1;
    }
}
