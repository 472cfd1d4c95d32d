//! How long a peer may take over a message and over an answer, so that a slow one does not keep a worker.

ghost use Rattle.std.specs.Prelude.{◌≡◌, ◌+◌, ◌-◌, ◌/◌, min};

use std::io;
use std::io::ErrorKind;
use std::rt::Clock;
use std::time::{Duration, Instant};

/// How many seconds a worker waits for the first byte of a message.
pub(crate) const IDLE_SECONDS: u64 = 300;

/// How many seconds after its first byte a message has to be whole.
const MESSAGE_SECONDS: u64 = 300;

/// How many seconds a message and an answer have beside those that their bytes give them.
pub(crate) const FIRST_SECONDS: u64 = 30;

/// How many bytes give a message or an answer one second more.
const BYTES_A_SECOND: u64 = 500;

/// How many seconds a write waits for its peer to take some bytes.
const STILL_SECONDS: u64 = 60;

// How many seconds are left of what so many bytes that were moved give, or of the most there is, after so many.
fn seconds_left(most: u64, moved: u64, elapsed: u64) -> u64
    ensures { result ≡ min most (30 + moved / 500) - elapsed }
{
    let earned = FIRST_SECONDS.saturating_add(moved / BYTES_A_SECOND);
    most.min(earned).saturating_sub(elapsed)
}

/// What is under way on a connection.
#[derive(Clone, Copy)]
enum Course {
    /// Nothing: the first byte of a message is awaited.
    Idle,
    /// A message, of which some bytes came.
    Message,
    /// An answer.
    Answer,
}

/// When a message or an answer began, and how many bytes were moved since.
#[derive(Drop)]
pub(crate) struct Pace {
    course: Course,
    since: Option<Instant>,
    moved: u64,
}

impl Pace {
    /// A message is awaited.
    pub(crate) fn new() -> Pace {
        Pace {
            course: Course::Idle,
            since: None,
            moved: 0,
        }
    }

    // What is under way begins now.
    fn begin(&mut self, course: Course, now: Instant) {
        self.course = course;
        self.since = Some(now);
        self.moved = 0;
    }

    // How long what is under way has lasted, in whole seconds.
    fn elapsed(&self, now: Instant) -> u64 {
        match self.since {
            Some(since) => now.duration_since(since).as_secs(),
            None => 0,
        }
    }

    /// How long the next read may wait. After an answer it waits for a message; within a message as long as the message's bytes give it.
    ///
    /// # Errors
    ///
    /// `TimedOut` where the message has had its time.
    pub(crate) fn before_read<R: Clock>(&mut self, clock: &R) -> io::Result<Duration> {
        match self.course {
            Course::Idle => Ok(Duration::from_secs(IDLE_SECONDS)),
            Course::Answer => {
                self.course = Course::Idle;
                Ok(Duration::from_secs(IDLE_SECONDS))
            }
            Course::Message => {
                let elapsed = self.elapsed(Instant::now(clock)?);
                some_wait(seconds_left(MESSAGE_SECONDS, self.moved, elapsed))
            }
        }
    }

    /// So many bytes of a message came.
    pub(crate) fn after_read<R: Clock>(&mut self, clock: &R, read: usize) -> io::Result<()> {
        if let Course::Idle = self.course {
            self.begin(Course::Message, Instant::now(clock)?);
        }
        self.moved = self.moved.saturating_add(read as u64);
        Ok(())
    }

    /// How long the next write may wait: as long as the bytes of the answer that the peer took give it, and no longer than a peer may stand still.
    ///
    /// # Errors
    ///
    /// `TimedOut` where the answer has had its time.
    pub(crate) fn before_write<R: Clock>(&mut self, clock: &R) -> io::Result<Duration> {
        let now = Instant::now(clock)?;
        match self.course {
            Course::Answer => {}
            Course::Idle | Course::Message => self.begin(Course::Answer, now),
        }
        let left = seconds_left(u64::MAX, self.moved, self.elapsed(now));
        some_wait(left.min(STILL_SECONDS))
    }

    /// So many bytes of an answer were taken.
    pub(crate) fn after_write(&mut self, written: usize) {
        self.moved = self.moved.saturating_add(written as u64);
    }
}

// A wait of so many seconds, if there are any.
fn some_wait(seconds: u64) -> io::Result<Duration> {
    if seconds == 0 {
        return Err(io::Error::from(ErrorKind::TimedOut));
    }
    Ok(Duration::from_secs(seconds))
}
