//! Doors over TCP: a listener, of which each worker has a handle of its own.

ghost use Rattle.std.specs.Prelude.{◌≡◌, ◌+◌, ◌≤◌, ◌<◌, [], length, None, OnOk, vec_capacity, vec_len};
ghost use Rattle.std.specs.List.{All};
ghost use Rattle.service_doors.specs.Accepting.{untold, IsNew};

use crate::pace::{FIRST_SECONDS, IDLE_SECONDS};
use crate::{Acceptor, DoorFault, Doors, StreamEnd};
use std::alloc::Global;
use std::io;
use std::io::{ErrorKind, Read, Write};
use std::net::{Net, OpenListener, OpenStream, SocketAddr, TcpListener};
use std::rt::Clock;
use std::time::{Duration, Instant};
use wfs_ends::Failed;

/// How many connections in a row may be lost before they are handed out.
const MOST_LOST: u32 = 1_000_000;

/// Hands out the connections that a listener accepts. Other acceptors may share the listener. It does not tell its links.
#[derive(Drop)]
pub struct TcpAcceptor<'a, R: Net> {
    runtime: &'a R,
    listener: R::Listener,
    out: u64,
    finished: u64,
    faults: u64,
}

// Whether this error of `accept` is of a connection that its peer, or the network, gave up before it was accepted.
fn is_of_a_connection(kind: ErrorKind) -> bool {
    matches!(
        kind,
        ErrorKind::ConnectionAborted
            | ErrorKind::ConnectionReset
            | ErrorKind::HostUnreachable
            | ErrorKind::NetworkUnreachable
            | ErrorKind::NetworkDown
            | ErrorKind::TimedOut
            | ErrorKind::Interrupted
    )
}

// The next connection that is not lost by then.
fn next_connection<L: OpenListener>(listener: &L) -> io::Result<L::Stream> {
    for _ in 0..MOST_LOST {
        match listener.accept() {
            Ok((stream, _)) => return Ok(stream),
            Err(error) if is_of_a_connection(error.kind()) => {}
            Err(error) => return Err(error),
        }
    }
    Err(io::Error::from(ErrorKind::ConnectionAborted))
}

// Sends what is written at once, and bounds how long the first read and the first write wait.
pub(crate) fn set_up<S: OpenStream>(stream: &S) -> io::Result<()> {
    stream.set_nodelay(true)?;
    stream.set_read_timeout(Some(Duration::from_secs(IDLE_SECONDS)))?;
    stream.set_write_timeout(Some(Duration::from_secs(FIRST_SECONDS)))
}

// The link over a connection. One that cannot be set up is lost, so its session ends by itself, and no other.
fn link_over<R: Clock, S: Read + Write + OpenStream + Drop>(
    runtime: &R,
    stream: S,
) -> StreamEnd<'_, R, S> {
    let open = match set_up(&stream) {
        Ok(()) => Some(stream),
        Err(_) => None,
    };
    StreamEnd::of(
        runtime,
        open,
        Duration::from_secs(IDLE_SECONDS),
        Duration::from_secs(FIRST_SECONDS),
    )
}

impl<'a, R: Net> TcpAcceptor<'a, R> {
    fn of(runtime: &'a R, listener: R::Listener) -> TcpAcceptor<'a, R>
        ensures { IsNew (untold result.out result.finished result.faults) }
    {
        TcpAcceptor {
            runtime,
            listener,
            out: 0,
            finished: 0,
            faults: 0,
        }
    }

    /// The address at which it listens. Its port is the one that the system chose where port 0 was asked for.
    pub fn local_addr(&self) -> io::Result<SocketAddr> {
        self.listener.local_addr()
    }
}

// Tells the operator why a worker accepts no more connections. Where even that fails, nothing is left to do.
fn tell_failed<R: Eprint>(runtime: &R, error: &io::Error) {
    let _ = eprintln!(runtime; "wfsd: a worker ends, since no connection can be accepted: {error}");
}

impl<'a, R: Net + Clock + Eprint> Acceptor for TcpAcceptor<'a, R> {
    type Link = StreamEnd<'a, R, R::Stream>;

    ghost accepting = { λ a. record {
      left = None;
      done = None;
      out = a.out;
      finished = a.finished;
      faults = a.faults;
    } };

    fn accept(&mut self) -> Result<Option<StreamEnd<'a, R, R::Stream>>, Failed> {
        match next_connection(&self.listener) {
            Ok(stream) => {
                self.out = self.out.saturating_add(1);
                Ok(Some(link_over(self.runtime, stream)))
            }
            Err(error) => {
                tell_failed(self.runtime, &error);
                self.faults = self.faults.saturating_add(1);
                Err(Failed)
            }
        }
    }

    // The link is dropped, which closes its connection.
    fn finish(&mut self, _link: StreamEnd<'a, R, R::Stream>) {
        self.out -= 1;
        self.finished = self.finished.saturating_add(1);
    }
}

/// Listens at an address of TCP. A call that fails raises its count by one, up to the last u64. Standard error is told where it
/// listens, or why it does not.
#[derive(Drop)]
pub struct TcpDoors<'a, R> {
    runtime: &'a R,
    // when the program began
    began: Option<Instant>,
    faults: u64,
}

// Listens, and puts an acceptor for each worker into a list that has the memory for them. The address has the port that the system chose.
fn open<'a, R: Net>(
    runtime: &'a R,
    address: &str,
    workers: u32,
    acceptors: &mut Vec<TcpAcceptor<'a, R>>,
) -> io::Result<SocketAddr>
    requires none { acceptors.old.items ≡ [] }
    requires room { workers ≤ vec_capacity acceptors.old }
    ensures number { OnOk result (length acceptors.new.items ≡ workers) }
    ensures fresh { OnOk result (All (λ a. IsNew (untold a.out a.finished a.faults))
        acceptors.new.items) }
{
    let listener = TcpListener::bind(runtime, address)?;
    for _worker in 0..workers {
        match acceptors.push(TcpAcceptor::of(runtime, listener.try_clone()?)) {
            Ok(()) => {}
            Err(_) => unreachable!(),
        }
    }
    listener.local_addr()
}

// Tells the operator at which address the doors listen, with the port that the system chose, and how long the start took.
fn tell_open<R: Eprint + Clock>(runtime: &R, at: &SocketAddr, began: &Option<Instant>) {
    let took = match began {
        Some(began) => began.elapsed(runtime).unwrap_or(Duration::ZERO),
        None => Duration::ZERO,
    };
    let (seconds, thousandths) = (took.as_secs(), took.subsec_millis());
    let _ = eprintln!(runtime;
        "wfsd: listening at {at}, {seconds}.{thousandths:03} s after the start"
    );
}

// Tells the operator why the doors do not listen.
fn tell_shut<R: Eprint>(runtime: &R, address: &str, error: &io::Error) {
    let _ = eprintln!(runtime; "wfsd: cannot listen at {address}: {error}");
}

impl<'a, R: Net + Clock + Eprint> TcpDoors<'a, R> {
    /// The doors of this runtime, which listen nowhere yet.
    pub fn of(runtime: &'a R) -> TcpDoors<'a, R>
        ensures { ⟦<TcpDoors<'a, R> as Doors>⟧.listening result
            ≡ record { asked = None; ready = None; faults = 0 } }
    {
        TcpDoors {
            runtime,
            began: Instant::now(runtime).ok(),
            faults: 0,
        }
    }
}

impl<'a, R: Net + Clock + Eprint> Doors for TcpDoors<'a, R> {
    type Acceptor = TcpAcceptor<'a, R>;

    ghost listening = { λ d. record { asked = None; ready = None; faults = d.faults } };

    fn listen(
        &mut self,
        alloc: Global,
        address: &str,
        workers: u32,
    ) -> Result<Vec<TcpAcceptor<'a, R>>, DoorFault> {
        let mut acceptors = Vec::with_capacity(alloc, workers as usize)?;
        match open(self.runtime, address, workers, &mut acceptors) {
            Ok(at) => {
                tell_open(self.runtime, &at, &self.began);
                Ok(acceptors)
            }
            Err(error) => {
                tell_shut(self.runtime, address, &error);
                self.faults = self.faults.saturating_add(1);
                Err(DoorFault::Failed)
            }
        }
    }
}
