//! Numbers of a record, the highest byte first.

ghost use Rattle.std.specs.Prelude.{◌≡◌, ◌+◌, ◌≤◌, ◌++◌, ◌∷◌, [], length, vec_len, vec_capacity};
ghost use Rattle.std.specs.Int.{w32, cast_unsigned};
ghost use Rattle.wfs_ends.specs.Read.{GivesBut};
ghost use Rattle.journal_format.specs.Numbers.{be, first_of, number_at};

use crate::fault::RecordFault;
use byteorder::{BigEndian, ByteOrder};

/// Writes a byte behind what stands there.
pub fn put_byte(byte: u8, into: &mut Vec<u8>)
    requires { vec_len into.old + 1 ≤ vec_capacity into.old }
    ensures items { into.new.items ≡ into.old.items ++ byte ∷ [] }
    ensures len { vec_len into.new ≡ vec_len into.old + 1 }
    ensures capacity { vec_capacity into.old ≤ vec_capacity into.new }
{
    match into.push(byte) {
        Ok(()) => (),
        Err(_) => unreachable!(),
    }
}

/// Writes bytes behind what stands there.
pub fn put_bytes(bytes: &[u8], into: &mut Vec<u8>)
    requires { vec_len into.old + length bytes.now ≤ vec_capacity into.old }
    ensures items { into.new.items ≡ into.old.items ++ bytes.now }
    ensures len { vec_len into.new ≡ vec_len into.old + length bytes.now }
    ensures capacity { vec_capacity into.old ≤ vec_capacity into.new }
{
    match into.extend_from_slice(bytes) {
        Ok(()) => (),
        Err(_) => unreachable!(),
    }
}

/// Writes the lowest `width` bytes of a number behind what stands there.
#[tactic(auto, using(crate::proofs::Writes::length_be))]
pub fn put_number(width: usize, number: u64, into: &mut Vec<u8>)
    requires width { width ≤ 8 }
    requires room { vec_len into.old + width ≤ vec_capacity into.old }
    ensures items { into.new.items ≡ into.old.items ++ be width number }
    ensures len { vec_len into.new ≡ vec_len into.old + width }
    ensures capacity { vec_capacity into.old ≤ vec_capacity into.new }
{
    let mut bytes = [0u8; 8];
    BigEndian::write_u64(&mut bytes, number);
    put_bytes(&bytes[8 - width..], into);
}

/// The first byte.
#[tactic(auto, unfolding(crate::specs::Numbers::first_of))]
pub fn first_of(bytes: &[u8]) -> Result<(u8, &[u8]), RecordFault>
    ensures { GivesBut RecordFault.OutOfMemory (λ x. (x.0, x.1.now)) result (first_of bytes.now) }
{
    match bytes {
        [] => Err(RecordFault::Cut),
        [first, rest @ ..] => Ok((*first, rest)),
    }
}

/// The next number of 16 bits.
#[tactic(auto, unfolding(crate::specs::Numbers::number_at))]
pub fn u16_at(bytes: &[u8]) -> Result<(u16, &[u8]), RecordFault>
    ensures { GivesBut RecordFault.OutOfMemory (λ x. (x.0, x.1.now)) result
        (number_at 2 bytes.now) }
{
    if bytes.len() < 2 {
        return Err(RecordFault::Cut);
    }
    Ok((BigEndian::read_u16(bytes), &bytes[2..]))
}

/// The next number of 32 bits.
#[tactic(auto, unfolding(crate::specs::Numbers::number_at))]
pub fn u32_at(bytes: &[u8]) -> Result<(u32, &[u8]), RecordFault>
    ensures { GivesBut RecordFault.OutOfMemory (λ x. (x.0, x.1.now)) result
        (number_at 4 bytes.now) }
{
    if bytes.len() < 4 {
        return Err(RecordFault::Cut);
    }
    Ok((BigEndian::read_u32(bytes), &bytes[4..]))
}

/// The next number of 64 bits.
#[tactic(auto, unfolding(crate::specs::Numbers::number_at))]
pub fn u64_at(bytes: &[u8]) -> Result<(u64, &[u8]), RecordFault>
    ensures { GivesBut RecordFault.OutOfMemory (λ x. (x.0, x.1.now)) result
        (number_at 8 bytes.now) }
{
    if bytes.len() < 8 {
        return Err(RecordFault::Cut);
    }
    Ok((BigEndian::read_u64(bytes), &bytes[8..]))
}
