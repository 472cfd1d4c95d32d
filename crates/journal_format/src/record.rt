//! The bodies of records: their spelling, their length and their reading.

ghost use Rattle.std.specs.Prelude.{◌≡◌, ◌+◌, ◌≤◌, ◌++◌, length, None, Ok, IfOk, OnOk, OnErr, vec_len, vec_capacity};
ghost use Rattle.wfs_ends.specs.Ends.{capped};
ghost use Rattle.wfs_ends.specs.Read.{GivesBut};
ghost use Rattle.journal_format.specs.Spelling.{body_of, IsSpelled};
ghost use Rattle.journal_format.specs.Reading.{opening_at, base_at, change_of, ended, record_of};
ghost use Rattle.journal_format.specs.Writable.{IsWritable};
ghost use Rattle.journal_format.specs.RoundTrip.{IsReadBack, IsSpelledBy};

use crate::fault::RecordFault;
use crate::field::{Field, length_counted, put_counted, read_counted, read_few};
use crate::numbers::{first_of, put_byte};
use crate::recorded::Recorded;
use std::alloc::Global;
use wfs_ends::{List, Mem, Text};
use wfs_model::Change;

/// How many bytes [`put_record`] writes for the change, or 18,446,744,073,709,551,615 where that is less.
///
/// It takes no memory.
#[tactic(auto, unfolding(crate::specs::Spelling::body_of))]
pub fn record_length(change: &Change, signature: &Text) -> u64
    ensures { result ≡ capped (length (body_of change.now signature.now)) }
{
    match change {
        Change::Opening(number) => number
            .length()
            .saturating_add(signature.length())
            .saturating_add(1),
        Change::Rows(parts) => length_counted(4, parts.items()).saturating_add(1),
        Change::Created(stored) => length_counted(4, stored.items()).saturating_add(1),
        Change::Dropped(id) => id.length().saturating_add(1),
        Change::Base { opening, counters } => opening
            .length()
            .saturating_add(length_counted(2, counters.items()))
            .saturating_add(1),
    }
}

/// Writes the body of the change where there is room for it.
#[tactic(auto, unfolding(crate::specs::Spelling::body_of))]
fn put_body(change: &Change, signature: &Text, into: &mut Vec<u8>)
    requires { vec_len into.old + length (body_of change.now signature.now) ≤ vec_capacity
        into.old }
    ensures items { into.new.items ≡ into.old.items ++ body_of change.now signature.now }
    ensures writable { IsWritable change.now signature.now }
{
    match change {
        Change::Opening(number) => {
            put_byte(1, into);
            number.put(into);
            signature.put(into);
        }
        Change::Rows(parts) => {
            put_byte(2, into);
            put_counted(4, parts.items(), into);
        }
        Change::Created(stored) => {
            put_byte(3, into);
            put_counted(4, stored.items(), into);
        }
        Change::Dropped(id) => {
            put_byte(4, into);
            id.put(into);
        }
        Change::Base { opening, counters } => {
            put_byte(5, into);
            opening.put(into);
            put_counted(2, counters.items(), into);
        }
    }
}

/// Writes the body of the change behind what stands in `into`. The schema's signature is written with an opening alone.
/// The body reads back as the change, but for what its stored queries ask.
///
/// Its memory is taken at once, before the first byte.
///
/// # Errors
///
/// `OutOfMemory`, which leaves `into` as it was.
pub fn put_record(change: &Change, signature: &Text, into: &mut Vec<u8>) -> Mem<()>
    requires { IsSpelled change.now signature.now }
    ensures ok { OnOk result (into.new.items ≡ into.old.items ++ body_of change.now signature.now) }
    ensures reads_back { OnOk result (IsReadBack change.now signature.now) }
    ensures err { OnErr result (into.new.items ≡ into.old.items) }
{
    into.reserve(record_length(change, signature) as usize)?;
    put_body(change, signature, into);
    Ok(())
}

/// An opening and the schema's signature.
#[tactic(auto, unfolding(crate::specs::Reading::opening_at))]
fn opening_at(alloc: Global, bytes: &[u8]) -> Result<(Recorded, &[u8]), RecordFault>
    ensures { GivesBut RecordFault.OutOfMemory (λ x. (x.0, x.1.now)) result (opening_at bytes.now) }
{
    let (number, rest) = u64::read(alloc, bytes)?;
    let (signature, rest) = Text::read(alloc, rest)?;
    let recorded = Recorded {
        change: Change::Opening(number),
        signature: Some(signature),
    };
    Ok((recorded, rest))
}

/// What a checkpoint begins with.
#[tactic(auto, unfolding(crate::specs::Reading::base_at))]
fn base_at(alloc: Global, bytes: &[u8]) -> Result<(Recorded, &[u8]), RecordFault>
    ensures { GivesBut RecordFault.OutOfMemory (λ x. (x.0, x.1.now)) result (base_at bytes.now) }
{
    let (opening, rest) = u64::read(alloc, bytes)?;
    let (counters, rest) = read_few(alloc, rest)?;
    let counters = List::of(counters);
    Ok((plain(Change::Base { opening, counters }), rest))
}

/// A change that comes with no signature.
fn plain(change: Change) -> Recorded
    ensures { result ≡ record { change = change; signature = None } }
{
    Recorded {
        change,
        signature: None,
    }
}

/// A change behind its kind.
#[tactic(auto, unfolding(crate::specs::Reading::change_of))]
fn change_of(alloc: Global, kind: u8, bytes: &[u8]) -> Result<(Recorded, &[u8]), RecordFault>
    ensures { GivesBut RecordFault.OutOfMemory (λ x. (x.0, x.1.now)) result
        (change_of kind bytes.now) }
{
    if kind == 1 {
        return opening_at(alloc, bytes);
    }
    if kind == 2 {
        let (parts, rest) = read_counted(alloc, bytes)?;
        return Ok((plain(Change::Rows(List::of(parts))), rest));
    }
    if kind == 3 {
        let (stored, rest) = read_counted(alloc, bytes)?;
        return Ok((plain(Change::Created(List::of(stored))), rest));
    }
    if kind == 4 {
        let (id, rest) = Text::read(alloc, bytes)?;
        return Ok((plain(Change::Dropped(id)), rest));
    }
    if kind == 5 {
        return base_at(alloc, bytes);
    }
    Err(RecordFault::Kind)
}

/// Reads the body of a record: exactly the spellings of changes are read, and what was read may be put again. No number
/// in the bytes is trusted for memory, which is taken for what was read.
///
/// # Errors
///
/// The first fault in reading order: `Cut`, `Kind` or `Trailing`. `OutOfMemory`.
#[tactic(auto, unfolding(crate::specs::Reading::record_of, crate::specs::Reading::ended))]
pub fn read_record(alloc: Global, bytes: &[u8]) -> Result<Recorded, RecordFault>
    ensures value { GivesBut RecordFault.OutOfMemory (λ x. x) result (record_of bytes.now) }
    ensures spelled { IfOk result (λ recorded. IsSpelledBy recorded bytes.now) }
{
    let (kind, rest) = first_of(bytes)?;
    let (recorded, rest) = change_of(alloc, kind, rest)?;
    match rest {
        [] => Ok(recorded),
        [_, ..] => Err(RecordFault::Trailing),
    }
}
