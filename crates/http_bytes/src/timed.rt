//! A connection whose calls end in time.

use crate::deadline::Deadline;
use std::io::{self, Read, Write};
use std::net::{Shutdown, TcpStream};
use std::time::{Clock, Duration};

/// How long a client may take to be given its answer, in seconds.
const ANSWER: u64 = 5;

/// For each whole so many bytes of its answer that it has taken it may take a second more.
/// On the loopback this is slow, so a client that takes nothing does not hold the others up for
/// long.
const BYTES_A_SECOND: u64 = 1_000_000;

/// An end of a connection, whose calls can be given a limit of time.
pub trait Limits {
    /// The reads from here on: one that waits longer than this, which is not 0, ends as an error.
    fn limit_reads(&self, limit: Duration) -> io::Result<()>;

    /// The writes from here on, in the same way.
    fn limit_writes(&self, limit: Duration) -> io::Result<()>;

    /// Tells the other end that nothing more is written.
    fn end_writes(&self) -> io::Result<()>;
}

impl Limits for TcpStream {
    fn limit_reads(&self, limit: Duration) -> io::Result<()> {
        self.set_read_timeout(Some(limit))
    }

    fn limit_writes(&self, limit: Duration) -> io::Result<()> {
        self.set_write_timeout(Some(limit))
    }

    fn end_writes(&self) -> io::Result<()> {
        self.shutdown(Shutdown::Write)
    }
}

/// A reader before another, whose reads end in time.
/// A read ends as an error after its limit, and at once past the deadline.
/// The bytes are those of the other one: what is told as read was given by it.
/// How long anything takes is not proved.
#[derive(Drop)]
pub struct TimedReader<C, R> {
    clock: C,
    inner: R,
    deadline: Deadline,
    // The limit of the next read, and of those after one that went well, in seconds.
    next: u64,
    later: u64,
}

impl<C: Clock, R> TimedReader<C, R> {
    ghost use Rattle.std.specs.Prelude.{◌≡◌};

    /// The first read has one limit, and those after it another, in seconds.
    pub fn new(clock: C, inner: R, deadline: Deadline, next: u64, later: u64) -> TimedReader<C, R>
        ensures { result.inner ≡ inner }
    {
        TimedReader {
            clock,
            inner,
            deadline,
            next,
            later,
        }
    }
}

impl<C: Clock + Drop, R> TimedReader<C, R> {
    ghost use Rattle.std.specs.Prelude.{◌≡◌};

    /// The other reader.
    pub fn into_inner(self) -> R
        ensures { result ≡ self.inner }
    {
        self.inner
    }
}

impl<C: Clock, R: Read + Limits> Read for TimedReader<C, R> {
    ghost remaining = { λ s. R.remaining s.inner };

    fn read(&mut self, buf: &mut [u8]) -> io::Result<usize> {
        let limit = self.deadline.limit(&self.clock, self.next)?;
        self.inner.limit_reads(limit)?;
        let count = self.inner.read(buf)?;
        self.next = self.later;
        Ok(count)
    }
}

/// A writer before another, whose writes all end in time.
/// The time begins with the first write: 5 seconds, and one more for each whole 1,000,000 bytes
/// that were taken.
/// A write that takes longer ends as an error, and so does each one past that time.
/// The bytes are those of the other one: what is told as written was taken by it.
/// How long anything takes is not proved.
#[derive(Drop)]
pub struct TimedWriter<C, W> {
    clock: C,
    inner: W,
    // When the first write began.
    begun: Option<Deadline>,
    taken: u64,
}

impl<C: Clock, W> TimedWriter<C, W> {
    ghost use Rattle.std.specs.Prelude.{◌≡◌};

    /// No write has begun.
    pub fn new(clock: C, inner: W) -> TimedWriter<C, W>
        ensures { result.inner ≡ inner }
    {
        TimedWriter {
            clock,
            inner,
            begun: None,
            taken: 0,
        }
    }

    // How long a write may take that begins now.
    fn limit(&mut self) -> io::Result<Duration>
        ensures { self.new.inner ≡ self.old.inner }
    {
        let begun = match self.begun {
            Some(begun) => begun,
            None => Deadline::after(&self.clock, 0)?,
        };
        self.begun = Some(begun);
        let seconds = ANSWER + self.taken / BYTES_A_SECOND;
        begun.later(seconds)?.limit(&self.clock, seconds)
    }
}

impl<C: Clock + Drop, W> TimedWriter<C, W> {
    ghost use Rattle.std.specs.Prelude.{◌≡◌};

    /// The other writer.
    pub fn into_inner(self) -> W
        ensures { result ≡ self.inner }
    {
        self.inner
    }
}

impl<C: Clock, W: Write + Limits> Write for TimedWriter<C, W> {
    ghost contents = { λ s. W.contents s.inner };

    fn write(&mut self, buf: &[u8]) -> io::Result<usize> {
        let limit = self.limit()?;
        self.inner.limit_writes(limit)?;
        let count = self.inner.write(buf)?;
        self.taken = self.taken.saturating_add(count as u64);
        Ok(count)
    }

    fn flush(&mut self) -> io::Result<()> {
        self.inner.flush()
    }
}
