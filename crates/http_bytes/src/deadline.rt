//! A time until which something may take.

ghost use Rattle.std.specs.Prelude.{◌<◌, ◌≤◌, ◌*◌, IfOk};
ghost use Rattle.std.specs.Duration.{as_nanos};

use std::io::{self, ErrorKind};
use std::time::{Clock, Duration, Instant};

/// A point of the monotonic clock.
#[derive(Clone, Copy)]
pub struct Deadline {
    end: Instant,
}

impl Deadline {
    /// The point so many seconds after now; an error where the clock can't be read or tells no such
    /// point.
    pub fn after<C: Clock>(clock: &C, seconds: u64) -> io::Result<Deadline> {
        let now = Deadline {
            end: Instant::now(clock)?,
        };
        now.later(seconds)
    }

    /// The point so many seconds later; an error where there is no such point.
    pub fn later(self, seconds: u64) -> io::Result<Deadline> {
        match self.end.checked_add(Duration::from_secs(seconds)) {
            Some(end) => Ok(Deadline { end }),
            None => Err(io::Error::from(ErrorKind::TimedOut)),
        }
    }

    /// How long a call may take that has at most so many seconds: no longer than what is left.
    /// An error where nothing is left, or the clock can't be read.
    pub fn limit<C: Clock>(self, clock: &C, seconds: u64) -> io::Result<Duration>
        ensures some { IfOk result (λ limit. 0 < as_nanos limit) }
        ensures most { IfOk result (λ limit. as_nanos limit ≤ seconds * 1_000_000_000) }
    {
        let most = Duration::from_secs(seconds);
        let left = self.end.duration_since(Instant::now(clock)?);
        let limit = if left < most { left } else { most };
        if limit.is_zero() {
            return Err(io::Error::from(ErrorKind::TimedOut));
        }
        Ok(limit)
    }
}
