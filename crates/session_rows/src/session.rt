//! Streams from outside, with the messages and the ending that RFC 9112 and this project's limits give them by hand.

mod asks;
mod chunks;
mod faults;
mod heads;
mod lengths;
mod sizes;

use http_session::{Message, Next, Reader};
use std::alloc::Global;
use wfs_ends::{Failed, Link, Mem, MemLink, OutOfMemory, Sink, Source};

/// A link that gives its bytes in pieces: a first one, and then equal ones.
#[derive(Drop)]
struct Pieces {
    inner: MemLink,
    next: usize,
    then: usize,
}

impl Source for Pieces {
    ghost source = { λ p. ⟦<MemLink as Source>⟧.source p.inner };

    fn take(&mut self, into: &mut [u8]) -> Result<usize, Failed> {
        let most = self.next.max(1).min(into.len());
        self.next = self.then;
        self.inner.take(&mut into[..most])
    }
}

impl Sink for Pieces {
    ghost sink = { λ p. ⟦<MemLink as Sink>⟧.sink p.inner };

    fn put(&mut self, piece: &[u8]) -> Result<usize, Failed> {
        self.inner.put(piece)
    }
}

impl Link for Pieces {
    ghost use Rattle.std.specs.Prelude.{refl};

    ghost is_one = { λ p. refl };
}

/// The interim line (RFC 9110, section 15.2.1).
const CONTINUE: &[u8] = b"HTTP/1.1 100 Continue\r\n\r\n";

fn ending(answer: &Next) -> &'static str {
    match answer {
        Next::Message(_) => "Message",
        Next::End => "End",
        Next::BadHead => "BadHead",
        Next::TooLarge => "TooLarge",
        Next::NoLength => "NoLength",
        Next::Coding => "Coding",
        Next::Cut => "Cut",
        Next::ReadFault => "ReadFault",
        Next::WriteFault => "WriteFault",
        Next::OutOfMemory => "OutOfMemory",
    }
}

// Adds a message in words.
fn add_message(text: &mut String, message: &Message) -> Mem<()> {
    text.push_str(message.method.as_str())?;
    text.push(' ')?;
    text.push_str(message.target.as_str())?;
    if message.close {
        text.push('!')?;
    }
    text.push('[')?;
    text.push_str(str::from_utf8(message.body.items()).unwrap_or("?"))?;
    text.push_str("];")?;
    Ok(())
}

// Adds what is read next in words, and tells whether it is a message.
fn add_next(alloc: Global, link: &mut Pieces, reader: &mut Reader, text: &mut String) -> Mem<bool> {
    match reader.next_message(alloc, link) {
        Next::Message(message) => {
            add_message(text, &message)?;
            Ok(true)
        }
        answer => {
            text.push_str(ending(&answer))?;
            Ok(false)
        }
    }
}

// Adds in words what is read up to the ending.
fn add_all(alloc: Global, link: &mut Pieces, reader: &mut Reader, text: &mut String) -> Mem<()> {
    for _ in 0..9 {
        if !add_next(alloc, link, reader, text)? {
            break;
        }
    }
    Ok(())
}

// Adds a sign for each interim line, or part of one.
fn add_interim(text: &mut String, written: &[u8]) -> Mem<()> {
    for line in written.chunks(CONTINUE.len()) {
        text.push(if line == CONTINUE { '+' } else { '-' })?;
    }
    Ok(())
}

/// What is read of a link, in words: each message as method, target, `!` where the connection closes, and body; the
/// ending; and `+` for each interim line, or `-` for a part of it.
fn read_all(alloc: Global, link: &mut Pieces) -> Mem<String> {
    let mut text = String::new(alloc);
    let mut reader = Reader::new(alloc)?;
    add_all(alloc, link, &mut reader, &mut text)?;
    add_interim(&mut text, link.inner.written())?;
    Ok(text)
}

/// A number for a call that no test makes.
const NEVER: u64 = 1_000_000_000;

/// Reads the stream in these pieces from a link with room for so many bytes, whose take and put of these numbers fail.
fn read_failing(
    alloc: Global,
    input: &str,
    pieces: (usize, usize),
    room: u64,
    fails: (u64, u64),
) -> Mem<String> {
    let bytes = Vec::from_slice(alloc, input.as_bytes())?;
    let takes = Vec::from_slice(alloc, &[fails.0])?;
    let puts = Vec::from_slice(alloc, &[fails.1])?;
    let inner = MemLink::new(alloc, bytes, room, takes, puts)?;
    let (next, then) = pieces;
    let mut link = Pieces { inner, next, then };
    read_all(alloc, &mut link)
}

/// The stream in these pieces.
fn read_in(alloc: Global, input: &str, next: usize, then: usize) -> Mem<String> {
    read_failing(alloc, input, (next, then), 100, (NEVER, NEVER))
}

/// Reads each stream whole, cut at each place of its first 200 bytes, and byte by byte. It answers the first that is
/// read otherwise than the table says.
fn first_misread<'a>(alloc: Global, cases: &'a [(&'a str, &'a str)]) -> Mem<Option<&'a str>> {
    for (input, want) in cases {
        if read_in(alloc, input, 20000, 20000)?.as_str() != *want {
            return Ok(Some(input));
        }
        for cut in 1..input.len().min(200) {
            if read_in(alloc, input, cut, 20000)?.as_str() != *want {
                return Ok(Some(input));
            }
        }
        if read_in(alloc, input, 1, 1)?.as_str() != *want {
            return Ok(Some(input));
        }
    }
    Ok(None)
}
