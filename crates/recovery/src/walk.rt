//! The records of the current side, one after the other.

ghost use Rattle.std.specs.Prelude.{◌≡◌, ◌≤◌, ◌<◌, ◌+◌, ◌-◌, ◌^◌, ◌++◌, [], ℕ, List, length, take, drop, min, IfOk, Err};
ghost use Rattle.std.specs.Int.{to_be_bytes, from_be_bytes, w32};
ghost use Rattle.std.specs.List.{AllByRecursion, flat_map};
ghost use Rattle.feature_journal.specs.Whole.{Fits};
ghost use Rattle.feature_journal.specs.Side.{opened};
ghost use Rattle.recovery.specs.Walk.{IsSide, IsFile, NextIs, NextFits, Turned, Moved, Walked, fault_from, left};

use crate::{Place, RecoverFault, Replay, ReplayFault};

// The bytes of a side as far as they are looked at, how many the file has, the limit of the side's length, and whether it
// is side b.
#[derive(Drop)]
pub(crate) struct Side {
    pub(crate) bytes: Vec<u8>,
    pub(crate) len: u64,
    pub(crate) limit: u64,
    pub(crate) second: bool,
}

// What stands at a gate: one that is not open, or an open one with no whole record in the file, with one that passes the
// limit by this length, or with a body of this size.
enum Next {
    End,
    Torn,
    Full(u64),
    Whole(u64),
}

// The four bytes behind a gate, as a length.
fn size_at(bytes: &[u8], gate: usize) -> u64
    requires { gate + 5 ≤ length bytes.now }
    ensures spelled { to_be_bytes w32 result ≡ take 4 (drop (gate + 1) bytes.now) }
    ensures read { from_be_bytes w32 (take 4 (drop (gate + 1) bytes.now)) ≡ result }
    ensures fits { result < 2 ^ 32 }
{
    let size = u32::from_be_bytes([
        bytes[gate + 1],
        bytes[gate + 2],
        bytes[gate + 3],
        bytes[gate + 4],
    ]);
    size as u64
}

fn next_record(side: &Side, gate: u64) -> Next
    requires held { IsSide side.now }
    requires within { (gate + 1 ≤ side.now.limit) × (gate < side.now.len) }
    ensures is { (c : List ℕ) → IsFile side.now c
        → NextIs result side.now.limit gate side.now.bytes.items c }
    ensures fits { NextFits result side.now.limit side.now.len gate side.now.bytes.items }
{
    let at = gate as usize;
    if side.bytes[at] != 1 {
        return Next::End;
    }
    if side.bytes.len() - at < 5 {
        return Next::Torn;
    }
    let size = size_at(&side.bytes, at);
    let sum = gate + 6 + size;
    if sum > side.len {
        Next::Torn
    } else if sum > side.limit {
        Next::Full(sum)
    } else {
        Next::Whole(size)
    }
}

// What a record that was not taken makes of the recovery.
fn fault_of(fault: ReplayFault, place: Place, number: u64) -> RecoverFault
    ensures made { result ≡ fault_from fault place number }
    ensures no_disk { result ≡ RecoverFault.DiskFault → ⊥ }
{
    match fault {
        ReplayFault::BadBytes => RecoverFault::NotAJournal(place),
        ReplayFault::NotOfSchema => RecoverFault::NotOfSchema(number),
        ReplayFault::OutOfMemory => RecoverFault::OutOfMemory,
    }
}

// Hands over the record at this gate: the place of the gate behind it, or None at a gate that is not open.
fn turn<R: Replay>(
    side: &Side,
    gate: u64,
    number: u64,
    replay: &mut R,
) -> Result<Option<u64>, RecoverFault>
    requires held { IsSide side.now }
    requires within { (gate + 1 ≤ side.now.limit) × (gate < side.now.len) }
    requires number { number ≡ length (R.taken replay.old) }
    ensures answer { (c : List ℕ) (generation : ℕ) → IsFile side.now c
        → Turned result (left (R.verdict replay.old) side.now.limit side.now.second generation c)
        side.now.second generation gate (R.taken replay.old) (R.taken replay.new) }
    ensures no_disk { result ≡ Err RecoverFault.DiskFault → ⊥ }
    ensures moves { IfOk result (Moved side.now gate (R.taken replay.old) (R.taken replay.new)) }
    ensures setting { R.setting replay.new ≡ R.setting replay.old }
    ensures verdict { R.verdict replay.new ≡ R.verdict replay.old }
{
    let place = Place {
        second_side: side.second,
        at: gate,
    };
    match next_record(side, gate) {
        Next::End => Ok(None),
        Next::Torn => Err(RecoverFault::NotAJournal(place)),
        Next::Full(sum) => Err(RecoverFault::Full(sum)),
        Next::Whole(size) => {
            let from = gate as usize + 5;
            match replay.take_record(number, &side.bytes[from..from + size as usize]) {
                Ok(()) => Ok(Some(gate + 5 + size)),
                Err(fault) => Err(fault_of(fault, place, number)),
            }
        }
    }
}

// Hands over all records: the place of the ending gate.
pub(crate) fn walk<R: Replay>(side: &Side, replay: &mut R) -> Result<u64, RecoverFault>
    requires held { IsSide side.now }
    requires within { (17 ≤ side.now.limit) × (16 < side.now.len) }
    requires first { R.taken replay.old ≡ [] }
    ensures answer { (c : List ℕ) (generation : ℕ) → IsFile side.now c
        → Walked result (left (R.verdict replay.old) side.now.limit side.now.second generation c 16
        []) side.now.second generation (R.taken replay.new) }
    ensures no_disk { result ≡ Err RecoverFault.DiskFault → ⊥ }
    ensures spelled { IfOk result (λ gate. take gate side.now.bytes.items
        ≡ take 16 side.now.bytes.items ++ flat_map opened (R.taken replay.new)) }
    ensures fits { IfOk result (λ gate. AllByRecursion Fits (R.taken replay.new)) }
    ensures within { IfOk result (λ gate. (16 ≤ gate) × (gate + 1 ≤ side.now.limit)
        × (gate < side.now.len)) }
    ensures setting { R.setting replay.new ≡ R.setting replay.old }
    ensures verdict { R.verdict replay.new ≡ R.verdict replay.old }
{
    let mut gate = 16;
    let mut number = 0;
    loop {
        match turn(side, gate, number, replay) {
            Ok(Some(next)) => {
                gate = next;
                number += 1;
            }
            Ok(None) => return Ok(gate),
            Err(fault) => return Err(fault),
        }
    }
}
