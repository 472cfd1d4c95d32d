//! The bytes that were taken and not yet used.
ghost use Rattle.std.specs.Prelude.{◌≡◌, ◌+◌, ◌-◌, ◌<◌, ◌≤◌, ◌++◌, [], length, take, drop, IfOk, IfSome, OnOk, OnErr, Ok};
ghost use Rattle.wfs_ends.specs.Ends.{KeepsGiven, Rose, left_after};
ghost use Rattle.http_session.specs.Reading.{Moved, IsFilled, IsCalm};

use std::alloc::Global;
use std::marker::Model;
use wfs_ends::{Failed, Mem, Source};

/// A buffer holds a whole head.
pub(crate) const ROOM: usize = 16384;

#[derive(Drop)]
pub(crate) struct Buffer {
    bytes: Vec<u8>,
    start: usize,
    end: usize,
}

impl Model for Buffer {
    ghost use Rattle.std.specs.Prelude.{◌≡◌, ◌≤◌, ◌-◌, ℕ, List, length, take, drop};

    ghost Value = { List ℕ };

    ghost view = { λ b. take (b.end - b.start) (drop b.start b.bytes.items) };

    ghost invariant = { λ b. (b.start ≤ b.end) × (b.end ≤ 16384) × (length b.bytes.items ≡ 16384) };
}

/// What a buffer was filled with.
#[derive(Clone, Copy, Debug, PartialEq, Eq)]
pub(crate) enum Filled {
    /// More bytes.
    More,
    /// None: the input has ended.
    End,
    /// None: the link failed.
    Fault,
}

impl Buffer {
    pub fn new(alloc: Global) -> Mem<Buffer>
        ensures { IfOk result (λ b. b ≡ []) }
    {
        Ok(Buffer {
            bytes: vec![in alloc; 0; ROOM]?,
            start: 0,
            end: 0,
        })
    }

    pub fn bytes(&self) -> &[u8]
        ensures value { result.now ≡ self.now }
        ensures within { length self.now ≤ 16384 }
    {
        &self.bytes[self.start..self.end]
    }

    /// Uses the first bytes.
    pub fn skip(&mut self, count: usize)
        requires { count ≤ length self.old }
        ensures { self.new ≡ drop count self.old }
    {
        self.start += count;
    }

    /// Takes what the source gives next.
    pub fn fill<S: Source>(&mut self, source: &mut S) -> Filled
        requires { length self.old < 16384 }
        ensures moved { Moved self.old (S.source source.old) self.new (S.source source.new) }
        ensures filled { IsFilled result self.old (S.source source.old) self.new
            (S.source source.new) }
        ensures calm { (result ≡ Filled.Fault → ⊥)
            → IsCalm (S.source source.old) (S.source source.new) }
    {
        let (start, taken) = refill(&mut self.bytes, self.start, self.end, source);
        self.end = start + (self.end - self.start);
        self.start = start;
        match taken {
            Ok(0) => Filled::End,
            Ok(count) => {
                self.end += count;
                Filled::More
            }
            Err(_) => Filled::Fault,
        }
    }
}

/// Makes room behind the bytes in use, and takes bytes into it. It answers where those in use then start.
#[tactic(auto, using(crate::proofs::Buffers::view_same, crate::proofs::Buffers::view_more))]
fn refill<S: Source>(
    bytes: &mut [u8],
    start: usize,
    end: usize,
    source: &mut S,
) -> (usize, Result<usize, Failed>)
    requires order { start ≤ end }
    requires within { end ≤ length bytes.old }
    requires room { end - start < length bytes.old }
    ensures len { length bytes.new ≡ length bytes.old }
    ensures room { result.0 + (end - start) < length bytes.old }
    ensures within { IfOk result.1 (λ n. result.0 + (end - start) + n ≤ length bytes.new) }
    ensures same { take (end - start) (drop result.0 bytes.new)
        ≡ take (end - start) (drop start bytes.old) }
    ensures more { IfOk result.1 (λ n. take (end - start + n) (drop result.0 bytes.new)
        ≡ take (end - start) (drop start bytes.old)
        ++ take n (drop (result.0 + (end - start)) bytes.new)) }
    ensures moved { IfOk result.1 (λ n. (S.source source.new).left
        ≡ left_after (S.source source.old).left n) }
    ensures bytes { IfOk result.1 (λ n. IfSome (S.source source.old).left
        (λ left. (n ≤ length left) ×
        (take n (drop (result.0 + (end - start)) bytes.new) ≡ take n left))) }
    ensures ends { result.1 ≡ Ok 0 → IfSome (S.source source.old).left (λ left. left ≡ []) }
    ensures err { OnErr result.1 ((S.source source.new).left ≡ (S.source source.old).left) }
    ensures cause { OnErr result.1 (Rose (S.source source.old).failed_takes
        (S.source source.new).failed_takes) }
    ensures calm { OnOk result.1 (IsCalm (S.source source.old) (S.source source.new)) }
    ensures keeps { KeepsGiven (S.source source.old) (S.source source.new) }
{
    let held = end - start;
    let start = make_room(bytes, start, end);
    let taken = take_behind(bytes, start + held, source);
    (start, taken)
}

/// Takes bytes into the places from this one on.
pub(crate) fn take_behind<S: Source>(
    bytes: &mut [u8],
    end: usize,
    source: &mut S,
) -> Result<usize, Failed>
    requires { end < length bytes.old }
    ensures len { length bytes.new ≡ length bytes.old }
    ensures front { take end bytes.new ≡ take end bytes.old }
    ensures within { IfOk result (λ n. end + n ≤ length bytes.new) }
    ensures moved { IfOk result (λ n. (S.source source.new).left
        ≡ left_after (S.source source.old).left n) }
    ensures bytes { IfOk result (λ n. IfSome (S.source source.old).left
        (λ left. (n ≤ length left) × (take n (drop end bytes.new) ≡ take n left))) }
    ensures ends { result ≡ Ok 0 → IfSome (S.source source.old).left (λ left. left ≡ []) }
    ensures err { OnErr result ((S.source source.new).left ≡ (S.source source.old).left) }
    ensures cause { OnErr result (Rose (S.source source.old).failed_takes
        (S.source source.new).failed_takes) }
    ensures calm { OnOk result (IsCalm (S.source source.old) (S.source source.new)) }
    ensures keeps { KeepsGiven (S.source source.old) (S.source source.new) }
{
    source.take(&mut bytes[end..])
}

/// Moves the bytes in use to the front where none are free behind them. It answers where they then start.
fn make_room(bytes: &mut [u8], start: usize, end: usize) -> usize
    requires order { start ≤ end }
    requires within { end ≤ length bytes.old }
    requires room { end - start < length bytes.old }
    ensures same { take (end - start) (drop result bytes.new)
        ≡ take (end - start) (drop start bytes.old) }
    ensures room { result + (end - start) < length bytes.old }
    ensures len { length bytes.new ≡ length bytes.old }
{
    if end < bytes.len() && start < end {
        return start;
    }
    bytes.copy_within(start..end, 0);
    0
}
