//! A connection of the system as a link.

ghost use Rattle.std.specs.Prelude.{◌≡◌, ◌≤◌, None, IfOk, length};
ghost use Rattle.wfs_ends.specs.Ends.{Untold, both, only_source, only_sink};

use crate::pace::Pace;
use std::io;
use std::io::{ErrorKind, Read, Write};
use std::net::OpenStream;
use std::rt::Clock;
use std::time::Duration;
use wfs_ends::{Failed, Link, Sink, Source};

/// A connection as a link. It does not tell its bytes. A failed read raises the count of its source by one, and a
/// failed write, or one of nothing, that of its sink, up to the last u64 each. A read and a write also fail where the peer takes
/// longer than it may over a message or an answer.
#[derive(Drop)]
pub struct StreamEnd<'a, R, S> {
    clock: &'a R,
    stream: Option<S>,
    pace: Pace,
    // how long reads and writes of the stream wait
    read_wait: Duration,
    write_wait: Duration,
    failed_takes: u64,
    failed_puts: u64,
}

impl<'a, R: Clock, S: Read + Write + OpenStream + Drop> StreamEnd<'a, R, S> {
    /// A link over an open connection, whose reads and writes wait as long as these; over none, each read and write of it fails.
    pub fn of(
        clock: &'a R,
        stream: Option<S>,
        read_wait: Duration,
        write_wait: Duration,
    ) -> StreamEnd<'a, R, S>
        ensures { ⟦<StreamEnd<'a, R, S> as Source>⟧.source result
            ≡ both (only_source None 0) (only_sink Untold 0) }
    {
        StreamEnd {
            clock,
            stream,
            pace: Pace::new(),
            read_wait,
            write_wait,
            failed_takes: 0,
            failed_puts: 0,
        }
    }

    fn read(&mut self, into: &mut [u8]) -> io::Result<usize>
        ensures within { IfOk result (λ n. n ≤ length into.old) }
        ensures takes { self.new.failed_takes ≡ self.old.failed_takes }
        ensures puts { self.new.failed_puts ≡ self.old.failed_puts }
    {
        let wait = self.pace.before_read(self.clock)?;
        let Some(stream) = &mut self.stream else {
            return Err(io::Error::from(ErrorKind::NotConnected));
        };
        if wait != self.read_wait {
            stream.set_read_timeout(Some(wait))?;
            self.read_wait = wait;
        }
        let read = stream.read(into)?;
        self.pace.after_read(self.clock, read)?;
        Ok(read)
    }

    fn write(&mut self, piece: &[u8]) -> io::Result<usize>
        ensures within { IfOk result (λ n. n ≤ length piece.now) }
        ensures takes { self.new.failed_takes ≡ self.old.failed_takes }
        ensures puts { self.new.failed_puts ≡ self.old.failed_puts }
    {
        let wait = self.pace.before_write(self.clock)?;
        let Some(stream) = &mut self.stream else {
            return Err(io::Error::from(ErrorKind::NotConnected));
        };
        if wait != self.write_wait {
            stream.set_write_timeout(Some(wait))?;
            self.write_wait = wait;
        }
        let written = stream.write(piece)?;
        self.pace.after_write(written);
        Ok(written)
    }
}

impl<'a, R: Clock, S: Read + Write + OpenStream + Drop> Source for StreamEnd<'a, R, S> {
    ghost source = { λ s. both (only_source None s.failed_takes) (only_sink Untold s.failed_puts) };

    fn take(&mut self, into: &mut [u8]) -> Result<usize, Failed> {
        match self.read(into) {
            Ok(n) => Ok(n),
            Err(_) => {
                self.failed_takes = self.failed_takes.saturating_add(1);
                Err(Failed)
            }
        }
    }
}

impl<'a, R: Clock, S: Read + Write + OpenStream + Drop> Sink for StreamEnd<'a, R, S> {
    ghost sink = { λ s. both (only_source None s.failed_takes) (only_sink Untold s.failed_puts) };

    fn put(&mut self, piece: &[u8]) -> Result<usize, Failed> {
        match self.write(piece) {
            Ok(n) if n != 0 || piece.is_empty() => Ok(n),
            _ => {
                self.failed_puts = self.failed_puts.saturating_add(1);
                Err(Failed)
            }
        }
    }
}

impl<'a, R: Clock, S: Read + Write + OpenStream + Drop> Link for StreamEnd<'a, R, S> {
    ghost use Rattle.std.specs.Prelude.{refl};

    ghost is_one = { λ s. refl };
}
