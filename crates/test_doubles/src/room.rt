//! A file that has room for so many bytes.

ghost use Rattle.std.specs.Prelude.{◌≡◌, ◌+◌};
ghost use Rattle.sqlite_disk.specs.Tally.{both_counts};

use sqlite_disk::{Crash, Disk, Tally};
use std::io::{self, ErrorKind};

/// A file round another, with room for so many bytes.
/// A write that leads behind them finds the disk full, and changes nothing.
#[derive(Drop)]
pub struct Room<D: Disk> {
    inner: D,
    room: usize,
    refused: u64,
}

impl<D: Disk> Room<D> {
    /// A file with room for so many bytes.
    pub fn new(inner: D, room: usize) -> Room<D> {
        Room {
            inner,
            room,
            refused: 0,
        }
    }

    /// The other file.
    pub fn inner(&self) -> &D {
        &self.inner
    }
}

impl<D: Disk> Disk for Room<D> {
    ghost seen = { λ r. D.Disk.seen r.inner };

    ghost may_leave = { λ r. D.Disk.may_leave r.inner };

    ghost is_usable = { λ r. D.Disk.is_usable r.inner };

    ghost faults = { λ r. D.Disk.faults r.inner + r.refused };

    ghost tally_of = { λ r. both_counts (D.Disk.tally_of r.inner) (record { caught = 0; refused = r.refused }) };

    ghost is_rotten = { λ r. D.Disk.is_rotten r.inner };

    ghost is_clean = { λ r. D.Disk.is_clean r.inner };

    ghost key_of = { λ r. D.Disk.key_of r.inner };

    ghost is_fair = { λ r. D.Disk.is_fair r.inner };

    ghost fair_if_clean = { λ r. D.Disk.fair_if_clean r.inner };

    ghost seen_may_stay = { λ r. D.Disk.seen_may_stay r.inner };

    ghost is_mixing = { λ r. D.Disk.is_mixing r.inner };

    fn mixes(&self) -> bool {
        self.inner.mixes()
    }

    fn key(&self) -> u64 {
        self.inner.key()
    }

    fn tally(&self) -> Tally {
        self.inner.tally().plus(Tally {
            caught: 0,
            refused: self.refused,
        })
    }

    fn may_be_used(&self) -> bool {
        self.inner.may_be_used()
    }

    fn len(&mut self) -> io::Result<usize> {
        self.inner.len()
    }

    fn read_at(&mut self, at: usize, buf: &mut [u8]) -> io::Result<()> {
        self.inner.read_at(at, buf)
    }

    fn read_checked(&mut self, key: u64, want: u64, at: usize, buf: &mut [u8]) -> io::Result<()> {
        self.inner.read_checked(key, want, at, buf)
    }

    fn write_at(&mut self, at: usize, bytes: &[u8]) -> io::Result<()> {
        if at > self.room || bytes.len() > self.room - at {
            self.refused = self.refused.saturating_add(1);
            return Err(ErrorKind::StorageFull.into());
        }
        self.inner.write_at(at, bytes)
    }

    fn set_len(&mut self, len: usize) -> io::Result<()> {
        if len > self.room {
            self.refused = self.refused.saturating_add(1);
            return Err(ErrorKind::StorageFull.into());
        }
        self.inner.set_len(len)
    }

    fn sync(&mut self) -> io::Result<()> {
        self.inner.sync()
    }
}

impl<D: Crash> Crash for Room<D> {
    fn crash(&mut self) {
        self.inner.crash();
    }
}
