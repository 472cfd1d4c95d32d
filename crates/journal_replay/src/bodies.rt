//! Bodies of records, kept as they were taken.

ghost use Rattle.std.specs.Prelude.{◌≡◌, [], ◌∷◌, ◌++◌, All, OnOk, OnErr, length};
ghost use Rattle.journal_format.specs.Numbers.{AreBytes};

use std::alloc::Global;
use std::marker::Model;
use wfs_ends::{Mem, OutOfMemory};

/// Bodies of records in order, which contracts see as a list. They stand in one run of bytes, and each takes four more for
/// its length, as in the journal itself.
#[derive(Drop)]
pub struct Bodies {
    bytes: Vec<u8>,
    lengths: Vec<u32>,
}

impl Model for Bodies {
    ghost use Rattle.std.specs.Prelude.{◌≡◌, ℕ, List, length, sum};
    ghost use Rattle.journal_replay.specs.Pieces.{pieces};

    ghost Value = { List (List ℕ) };

    ghost view = { λ b. pieces b.lengths.items b.bytes.items };

    ghost invariant = { λ b. sum b.lengths.items ≡ length b.bytes.items };
}

// What the type of a slice tells.
fn are_bytes(bytes: &[u8])
    ensures { AreBytes bytes.now }
{}

impl Bodies {
    /// No bodies. It takes no memory.
    pub fn new(alloc: Global) -> Bodies
        ensures { result ≡ [] }
    {
        Bodies {
            bytes: Vec::new(alloc),
            lengths: Vec::new(alloc),
        }
    }

    /// How many bodies there are. Each of them is a list of bytes.
    #[tactic(auto, using(crate::proofs::PieceLemmas::pieces_count))]
    pub fn count(&self) -> usize
        ensures count { result ≡ length self.now }
        ensures bytes { All AreBytes self.now }
    {
        are_bytes(self.bytes.as_slice());
        self.lengths.len()
    }

    /// Forgets all bodies, and keeps their memory for others.
    pub fn clear(&mut self)
        ensures { self.new ≡ [] }
    {
        self.bytes.clear();
        self.lengths.clear();
    }

    /// Puts a body behind the others.
    ///
    /// # Errors
    ///
    /// `OutOfMemory`, also for a body of 4 GiB or more, which no journal holds. The bodies are then as before.
    #[tactic(auto, using(crate::proofs::PieceLemmas::one_piece_more))]
    pub fn push(&mut self, body: &[u8]) -> Mem<()>
        ensures ok { OnOk result (self.new ≡ self.old ++ body.now ∷ []) }
        ensures err { OnErr result (self.new ≡ self.old) }
    {
        let Ok(length) = u32::try_from(body.len()) else {
            return Err(OutOfMemory);
        };
        self.lengths.reserve(1)?;
        self.bytes.extend_from_slice(body)?;
        match self.lengths.push(length) {
            Ok(()) => Ok(()),
            Err(_) => unreachable!(),
        }
    }
}
