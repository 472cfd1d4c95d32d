//! A buffer before a sink: small pieces gather there and are passed on together.

ghost use base.Fml.{GName};
ghost use Rattle.std.specs.Prelude.{◌≡◌, ◌≤◌, ◌<◌, ◌++◌, [], List, ℕ, length, take, IfOk, OnOk, OnErr, IsTrue, IsFalse};
ghost use Rattle.wfs_ends.specs.Ends.{Shown, Gives, Grows, KeepsLeft, Rose, Writes, behind_buffer, given_more};

use crate::{Failed, Mem, Sink, WriteFault};
use std::alloc::Global;
use std::marker::Model;

/// The memory of a buffer, taken once and used for one text after the other. Contracts see the
/// bytes that it holds.
#[derive(Drop)]
pub struct Buffer {
    bytes: Vec<u8>,
    sent: usize,
}

impl Model for Buffer {
    ghost use Rattle.std.specs.Prelude.{List, ℕ, ◌≤◌, length, drop, vec_capacity};

    ghost Value = { List ℕ };

    ghost view = { λ b. drop b.sent b.bytes.items };

    ghost invariant = { λ b. (b.sent ≤ length b.bytes.items) × (65_536 ≤ vec_capacity b.bytes) };
}

impl Buffer {
    // The most bytes that a buffer holds.
    const ROOM: usize = 65_536;

    /// A buffer that holds nothing, for 65,536 bytes, whose memory it takes now.
    pub fn new(alloc: Global) -> Mem<Buffer>
        ensures { IfOk result (λ b. b ≡ []) }
    {
        Ok(Buffer {
            bytes: Vec::with_capacity(alloc, Buffer::ROOM)?,
            sent: 0,
        })
    }

    /// Forgets what is held: what a text that failed left behind.
    pub fn clear(&mut self)
        ensures { self.new ≡ [] }
    {
        self.bytes.clear();
        self.sent = 0;
    }

    // Passes on what is held. Where the sink fails, what it did not take is held still.
    fn pass_on<S: Sink>(&mut self, sink: &mut S) -> Result<(), Failed>
        ensures given { given_more (S.sink sink.new).given self.new
            ≡ given_more (S.sink sink.old).given self.old }
        ensures grows { Grows (S.sink sink.old).given (S.sink sink.new).given }
        ensures keeps { KeepsLeft (S.sink sink.old) (S.sink sink.new) }
        ensures cause { OnErr result (Rose (S.sink sink.old).failed_puts
            (S.sink sink.new).failed_puts) }
        ensures calm { OnOk result ((S.sink sink.new).failed_puts ≡ (S.sink sink.old).failed_puts) }
        ensures empty { OnOk result (self.new ≡ []) }
    {
        while self.sent < self.bytes.len() {
            self.sent += sink.put(&self.bytes[self.sent..])?;
        }
        self.clear();
        Ok(())
    }

    /// Passes on what is left of a text that was given through this buffer, and says whether all of
    /// it was given. `WriteFault` comes just where the sink's count of failed puts rose; a front of
    /// the text was given then.
    pub fn finish<S: Sink>(
        &mut self,
        sink: &mut S,
        given: Result<(), WriteFault>,
    ) -> Result<(), WriteFault>
        ensures { (first : Shown) (text : List ℕ) (a b : GName)
            → Gives given (behind_buffer a b [] first) text
            (behind_buffer a b self.old (S.sink sink.old))
            → Gives result first text (S.sink sink.new) }
    {
        match given {
            Err(fault) => Err(fault),
            Ok(()) => match self.pass_on(sink) {
                Err(Failed) => Err(WriteFault),
                Ok(()) => Ok(()),
            },
        }
    }

    // Holds the piece too, where it fits.
    fn hold(&mut self, piece: &[u8]) -> bool
        ensures held { IsTrue result → self.new ≡ self.old ++ piece.now }
        ensures stays { IsFalse result → self.new ≡ self.old }
    {
        if piece.len() > Buffer::ROOM - self.bytes.len().min(Buffer::ROOM) {
            return false;
        }
        match self.bytes.extend_from_slice(piece) {
            Ok(()) => true,
            Err(_) => unreachable!(),
        }
    }
}

/// A sink behind a buffer: it gathers what it is given, and passes it on in whole pieces of up to
/// 65,536 bytes. What is left of a text then, `finish` passes on. It takes no memory.
#[derive(Drop)]
pub struct Buffered<'a, S> {
    /// Where the pieces go.
    pub sink: &'a mut S,
    /// What gathers them. It is cleared before a text begins.
    pub buffer: &'a mut Buffer,
}

impl<'a, S: Sink> Sink for Buffered<'a, S> {
    ghost sink = { λ b. behind_buffer b.sink.ghost_name b.buffer.ghost_name b.buffer.now
        (S.sink b.sink.now) };

    fn put(&mut self, piece: &[u8]) -> Result<usize, Failed> {
        if self.buffer.hold(piece) {
            return Ok(piece.len());
        }
        self.buffer.pass_on(self.sink)?;
        if self.buffer.hold(piece) {
            return Ok(piece.len());
        }
        self.sink.put(piece)
    }
}
