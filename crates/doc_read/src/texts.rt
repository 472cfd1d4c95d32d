//! Texts that come again and again in a document, and share their bytes.

ghost use Rattle.std.specs.Prelude.{◌≡◌, IfOk, string_bytes, encode_utf8_all};
ghost use Rattle.std.specs.Str.{chars};

use std::alloc::Global;
use wfs_ends::{MAX_IN_PLACE, Mem, Text};

const PLACES: usize = 256;

/// The texts that were made for a document, each in a place that its bytes tell. Of the texts with one place the last is
/// kept. Texts that lie in place share nothing, and are not kept.
#[derive(Drop)]
pub struct Texts {
    // One text for each place, or none before the first that is kept.
    kept: Vec<Text>,
}

fn place_of(bytes: &[u8]) -> usize {
    let mut hash = 0usize;
    for byte in bytes {
        hash = hash.wrapping_mul(31).wrapping_add(*byte as usize);
    }
    hash % PLACES
}

impl Texts {
    pub fn new(alloc: Global) -> Texts {
        Texts {
            kept: Vec::new(alloc),
        }
    }

    fn fill(&mut self, alloc: Global) -> Mem<()> {
        self.kept.reserve_exact(PLACES)?;
        for _ in 0..PLACES {
            self.kept.push(Text::of(alloc, "")?)?;
        }
        Ok(())
    }

    /// The text, which shares its bytes with the last equal one where that still has its place.
    pub fn of(&mut self, alloc: Global, text: &str) -> Mem<Text>
        ensures { IfOk result (λ t. t ≡ text.now) }
    {
        if text.len() <= MAX_IN_PLACE {
            return Text::of(alloc, text);
        }
        if self.kept.is_empty() {
            self.fill(alloc)?;
        }
        let place = place_of(text.as_bytes());
        if place >= self.kept.len() {
            return Text::of(alloc, text);
        }
        if self.kept[place].as_str() == text {
            return self.kept[place].copy(alloc);
        }
        let made = Text::of(alloc, text)?;
        self.kept[place] = made.copy(alloc)?;
        Ok(made)
    }

    /// The text of a name.
    pub fn name(&mut self, alloc: Global, name: &str) -> Mem<Text>
        ensures { IfOk result (λ t. t ≡ encode_utf8_all (chars name.now)) }
    {
        self.of(alloc, name)
    }
}
