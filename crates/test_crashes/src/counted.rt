//! A file that counts its crashes.

use sqlite_disk::{Crash, Disk, Tally};
use std::io;
use table_crashes::CountsCrashes;

/// A file round another, which counts how often it has crashed, up to `u64::MAX`.
#[derive(Drop)]
pub(crate) struct Counted<D: Disk> {
    inner: D,
    crashes: u64,
}

impl<D: Disk> Counted<D> {
    /// A file that has not crashed yet.
    pub(crate) fn new(inner: D) -> Counted<D> {
        Counted { inner, crashes: 0 }
    }

    /// How often it has crashed.
    pub(crate) fn crashes(&self) -> u64 {
        self.crashes
    }
}

impl<D: Disk> Disk for Counted<D> {
    ghost seen = { λ c. D.Disk.seen c.inner };

    ghost may_leave = { λ c. D.Disk.may_leave c.inner };

    ghost is_usable = { λ c. D.Disk.is_usable c.inner };

    ghost faults = { λ c. D.Disk.faults c.inner };

    ghost tally_of = { λ c. D.Disk.tally_of c.inner };

    ghost is_rotten = { λ c. D.Disk.is_rotten c.inner };

    ghost is_clean = { λ c. D.Disk.is_clean c.inner };

    ghost key_of = { λ c. D.Disk.key_of c.inner };

    ghost is_fair = { λ c. D.Disk.is_fair c.inner };

    ghost fair_if_clean = { λ c. D.Disk.fair_if_clean c.inner };

    ghost seen_may_stay = { λ c. D.Disk.seen_may_stay c.inner };

    ghost is_mixing = { λ c. D.Disk.is_mixing c.inner };

    fn mixes(&self) -> bool {
        self.inner.mixes()
    }

    fn key(&self) -> u64 {
        self.inner.key()
    }

    fn tally(&self) -> Tally {
        self.inner.tally()
    }

    fn may_be_used(&self) -> bool {
        self.inner.may_be_used()
    }

    fn len(&mut self) -> io::Result<usize> {
        self.inner.len()
    }

    fn read_at(&mut self, at: usize, buf: &mut [u8]) -> io::Result<()> {
        self.inner.read_at(at, buf)
    }

    fn read_checked(&mut self, key: u64, want: u64, at: usize, buf: &mut [u8]) -> io::Result<()> {
        self.inner.read_checked(key, want, at, buf)
    }

    fn write_at(&mut self, at: usize, bytes: &[u8]) -> io::Result<()> {
        self.inner.write_at(at, bytes)
    }

    fn set_len(&mut self, len: usize) -> io::Result<()> {
        self.inner.set_len(len)
    }

    fn sync(&mut self) -> io::Result<()> {
        self.inner.sync()
    }
}

impl<D: Crash> Crash for Counted<D> {
    fn crash(&mut self) {
        self.inner.crash();
        self.crashes = self.crashes.saturating_add(1);
    }
}

impl<D: Crash> CountsCrashes for Counted<D> {
    ghost crashes = { λ c. c.crashes };

    fn crash_once(&mut self) {
        self.inner.crash();
        self.crashes = self.crashes.saturating_add(1);
    }
}
