//! Texts and counters of a record.

ghost use Rattle.std.specs.Prelude.{◌≡◌};
ghost use Rattle.wfs_ends.specs.Read.{GivesBut};
ghost use Rattle.journal_format.specs.Reading.{words_of, words_at};

use crate::fault::RecordFault;
use crate::field::Field;
use crate::numbers::{put_bytes, put_number, u32_at, u64_at};
use std::alloc::Global;
use wfs_ends::Text;

/// The text of these bytes.
#[tactic(auto, using(crate::proofs::Turns::is_utf8_yes, crate::proofs::Turns::is_utf8_no), unfolding(crate::specs::Reading::words_of))]
fn words_of(alloc: Global, bytes: &[u8]) -> Result<Text, RecordFault>
    ensures { GivesBut RecordFault.OutOfMemory (λ x. x) result (words_of bytes.now) }
{
    match str::from_utf8(bytes) {
        Ok(words) => Ok(Text::of(alloc, words)?),
        Err(_) => Err(RecordFault::Kind),
    }
}

/// The text in the next `size` bytes.
#[tactic(auto, unfolding(crate::specs::Reading::words_at))]
fn words_at(alloc: Global, size: u32, bytes: &[u8]) -> Result<(Text, &[u8]), RecordFault>
    ensures { GivesBut RecordFault.OutOfMemory (λ x. (x.0, x.1.now)) result
        (words_at size bytes.now) }
{
    if bytes.len() < size as usize {
        return Err(RecordFault::Cut);
    }
    let (front, rest) = bytes.split_at(size as usize);
    let text = words_of(alloc, front)?;
    Ok((text, rest))
}

impl Field for Text {
    ghost use Rattle.journal_format.specs.Spelling.{text_bytes};
    ghost use Rattle.journal_format.specs.Reading.{text_at};
    ghost use Rattle.std.specs.Str.{IsUtf8};

    ghost spelling = { text_bytes };

    ghost reading = { text_at };

    ghost writable = { IsUtf8 };

    #[tactic(auto, using(crate::proofs::Writes::length_text), unfolding(crate::specs::Spelling::text_bytes))]
    fn length(&self) -> u64 {
        (self.as_str().len() as u64).saturating_add(4)
    }

    #[tactic(auto, using(crate::proofs::Writes::length_text), unfolding(crate::specs::Spelling::text_bytes))]
    fn put(&self, into: &mut Vec<u8>) {
        let bytes = self.as_str().as_bytes();
        put_number(4, bytes.len() as u64, into);
        put_bytes(bytes, into);
    }

    #[tactic(auto, unfolding(crate::specs::Reading::text_at))]
    fn read(alloc: Global, bytes: &[u8]) -> Result<(Text, &[u8]), RecordFault> {
        let (size, rest) = u32_at(bytes)?;
        words_at(alloc, size, rest)
    }
}

impl Field for u64 {
    ghost use Rattle.journal_format.specs.Spelling.{counter_bytes};
    ghost use Rattle.journal_format.specs.Reading.{counter_at};
    ghost use Rattle.journal_format.specs.Writable.{IsCounter};

    ghost spelling = { counter_bytes };

    ghost reading = { counter_at };

    ghost writable = { IsCounter };

    #[tactic(auto, using(crate::proofs::Writes::length_be), unfolding(crate::specs::Spelling::counter_bytes))]
    fn length(&self) -> u64 {
        8
    }

    #[tactic(auto, using(crate::proofs::Writes::length_be), unfolding(crate::specs::Spelling::counter_bytes))]
    fn put(&self, into: &mut Vec<u8>) {
        put_number(8, *self, into);
    }

    #[tactic(auto, unfolding(crate::specs::Reading::counter_at))]
    fn read(_alloc: Global, bytes: &[u8]) -> Result<(u64, &[u8]), RecordFault> {
        u64_at(bytes)
    }
}
