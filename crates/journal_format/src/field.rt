//! What stands in a record many times: its spelling, its length and its reading, and lists of it.

ghost use Rattle.std.specs.Prelude.{◌≡◌, ◌+◌, ◌≤◌, ◌++◌, [], ℕ, List, length, vec_len, vec_capacity};
ghost use Rattle.std.specs.List.{flat_map, All};
ghost use Rattle.wfs_ends.specs.Ends.{capped};
ghost use Rattle.wfs_ends.specs.Read.{GivesBut};
ghost use Rattle.journal_format.specs.Numbers.{Reads};
ghost use Rattle.journal_format.specs.Reading.{times, counted_at};
ghost use Rattle.journal_format.specs.Spelling.{counted};

use crate::fault::RecordFault;
use crate::numbers::{put_number, u16_at, u32_at};
use std::alloc::Global;

/// A part of a record that has one spelling.
pub trait Field: Sized {
    /// Its bytes.
    ghost spelling: { Self → List ℕ };

    /// What is read of bytes.
    ghost reading: { List ℕ → Reads Self };

    /// What every value of its type is.
    ghost writable: { Self → Type 0 };

    /// How many bytes it takes, or the last number of 64 bits where that is less.
    fn length(&self) -> u64
        ensures { result ≡ capped (length (spelling self.now)) };

    /// Writes it behind what stands there.
    fn put(&self, into: &mut Vec<u8>)
        requires { vec_len into.old + length (spelling self.now) ≤ vec_capacity into.old }
        ensures items { into.new.items ≡ into.old.items ++ spelling self.now }
        ensures len { vec_len into.new ≡ vec_len into.old + length (spelling self.now) }
        ensures capacity { vec_capacity into.old ≤ vec_capacity into.new }
        ensures writable { writable self.now };

    /// Reads it from the front of the bytes, and gives what stands behind it.
    fn read(alloc: Global, bytes: &[u8]) -> Result<(Self, &[u8]), RecordFault>
        ensures { GivesBut RecordFault.OutOfMemory (λ x. (x.0, x.1.now)) result
            (reading bytes.now) };
}

/// How many bytes these take, one behind the other.
#[tactic(auto, using(crate::proofs::Writes::flat_turn, crate::proofs::Writes::flat_end, crate::proofs::Writes::capped_turn))]
pub fn length_of_all<T: Field>(fields: &[T]) -> u64
    ensures { result ≡ capped (length (flat_map T.spelling fields.now)) }
{
    let mut total = 0u64;
    for field in fields {
        total = total.saturating_add(field.length());
    }
    total
}

/// Writes these, one behind the other.
#[tactic(auto, using(crate::proofs::Writes::flat_turn, crate::proofs::Writes::flat_end))]
pub fn put_all<T: Field>(fields: &[T], into: &mut Vec<u8>)
    requires { vec_len into.old + length (flat_map T.spelling fields.now) ≤ vec_capacity into.old }
    ensures items { into.new.items ≡ into.old.items ++ flat_map T.spelling fields.now }
    ensures len { vec_len into.new ≡ vec_len into.old + length (flat_map T.spelling fields.now) }
    ensures capacity { vec_capacity into.old ≤ vec_capacity into.new }
    ensures writable { All T.writable fields.now }
{
    for field in fields {
        field.put(into);
    }
}

/// Reads so many, one behind the other. The number is not trusted: memory is taken for what was read.
#[tactic(auto, using(crate::proofs::Turns::times_turn, crate::proofs::Turns::times_end))]
pub fn read_times<T: Field + Drop>(
    alloc: Global,
    count: u32,
    bytes: &[u8],
) -> Result<(Vec<T>, &[u8]), RecordFault>
    ensures { GivesBut RecordFault.OutOfMemory (λ x. (x.0.items, x.1.now)) result
        (times T.reading count [] bytes.now) }
{
    let mut found = Vec::new(alloc);
    let mut rest = bytes;
    for _ in 0..count {
        let (field, behind) = T::read(alloc, rest)?;
        found.push(field)?;
        rest = behind;
    }
    Ok((found, rest))
}

/// How many bytes these take behind their number of `width` bytes.
#[tactic(auto, using(crate::proofs::Writes::length_of_counted), unfolding(crate::specs::Spelling::counted))]
pub fn length_counted<T: Field>(width: usize, fields: &[T]) -> u64
    requires { width ≤ 8 }
    ensures { result ≡ capped (length (counted width T.spelling fields.now)) }
{
    length_of_all(fields).saturating_add(width as u64)
}

/// Writes these behind their number of `width` bytes.
#[tactic(auto, using(crate::proofs::Writes::length_of_counted), unfolding(crate::specs::Spelling::counted))]
pub fn put_counted<T: Field>(width: usize, fields: &[T], into: &mut Vec<u8>)
    requires width { width ≤ 8 }
    requires room { vec_len into.old + length (counted width T.spelling fields.now) ≤ vec_capacity
        into.old }
    ensures items { into.new.items ≡ into.old.items ++ counted width T.spelling fields.now }
    ensures len { vec_len into.new ≡ vec_len into.old + length
        (counted width T.spelling fields.now) }
    ensures capacity { vec_capacity into.old ≤ vec_capacity into.new }
    ensures writable { All T.writable fields.now }
{
    put_number(width, fields.len() as u64, into);
    put_all(fields, into);
}

/// Reads these behind their number of 32 bits.
#[tactic(auto, unfolding(crate::specs::Reading::counted_at))]
pub fn read_counted<T: Field + Drop>(
    alloc: Global,
    bytes: &[u8],
) -> Result<(Vec<T>, &[u8]), RecordFault>
    ensures { GivesBut RecordFault.OutOfMemory (λ x. (x.0.items, x.1.now)) result
        (counted_at 4 T.reading bytes.now) }
{
    let (count, rest) = u32_at(bytes)?;
    read_times(alloc, count, rest)
}

/// Reads these behind their number of 16 bits.
#[tactic(auto, unfolding(crate::specs::Reading::counted_at))]
pub fn read_few<T: Field + Drop>(
    alloc: Global,
    bytes: &[u8],
) -> Result<(Vec<T>, &[u8]), RecordFault>
    ensures { GivesBut RecordFault.OutOfMemory (λ x. (x.0.items, x.1.now)) result
        (counted_at 2 T.reading bytes.now) }
{
    let (count, rest) = u16_at(bytes)?;
    read_times(alloc, u32::from(count), rest)
}
