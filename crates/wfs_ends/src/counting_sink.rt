//! A sink that counts bytes and keeps none.

ghost use Rattle.std.specs.Prelude.{◌≡◌};
ghost use Rattle.wfs_ends.specs.Ends.{capped, only_counter};

use crate::{Failed, Sink};
use std::marker::Model;

/// Keeps nothing of what it is given but how many bytes that is, up to the last u64. There it is full: it takes no byte
/// more, and only there a put fails.
#[derive(Drop)]
pub struct CountingSink {
    // None once a put has failed: it was full.
    count: Option<u64>,
}

impl Model for CountingSink {
    ghost use Rattle.std.specs.Prelude.{ℕ};
    ghost use Rattle.wfs_ends.specs.Ends.{reached};

    ghost Value = { ℕ };

    ghost view = { λ c. reached c.count };
}

impl CountingSink {
    /// A counter that was given nothing.
    pub fn new() -> CountingSink
        ensures { result ≡ 0 }
    {
        CountingSink { count: Some(0) }
    }

    /// How many bytes it was given.
    pub fn count(&self) -> u64
        ensures { result ≡ capped self.now }
    {
        self.count.unwrap_or(u64::MAX)
    }
}

impl Sink for CountingSink {
    ghost sink = { λ c. only_counter c };

    fn put(&mut self, piece: &[u8]) -> Result<usize, Failed> {
        if piece.is_empty() {
            return Ok(0);
        }
        let count = self.count();
        let taken = (piece.len() as u64).min(u64::MAX - count);
        if taken == 0 {
            self.count = None;
            return Err(Failed);
        }
        self.count = Some(count + taken);
        Ok(taken as usize)
    }
}
