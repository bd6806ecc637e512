//! Readers that never end.

use std::io::{self, Read};

/// Gives these bytes at each read, and counts the reads.
#[derive(Drop)]
pub struct RepeatingReader<'a> {
    pub piece: &'a [u8],
    pub reads: u64,
}

impl Read for RepeatingReader<'_> {
    fn read(&mut self, buf: &mut [u8]) -> io::Result<usize> {
        self.reads = self.reads.saturating_add(1);
        let len = self.piece.len().min(buf.len());
        buf[..len].copy_from_slice(&self.piece[..len]);
        Ok(len)
    }
}

/// Gives one of these bytes a read, round and round, and counts the reads.
/// Of no bytes it gives none.
#[derive(Drop)]
pub struct RoundReader<'a> {
    all: &'a [u8],
    left: &'a [u8],
    pub reads: u64,
}

impl<'a> RoundReader<'a> {
    pub fn new(all: &'a [u8]) -> RoundReader<'a> {
        RoundReader {
            all,
            left: all,
            reads: 0,
        }
    }
}

impl Read for RoundReader<'_> {
    fn read(&mut self, buf: &mut [u8]) -> io::Result<usize> {
        self.reads = self.reads.saturating_add(1);
        if self.left.is_empty() {
            self.left = self.all;
        }
        let len = self.left.len().min(buf.len()).min(1);
        buf[..len].copy_from_slice(&self.left[..len]);
        self.left = &self.left[len..];
        Ok(len)
    }
}
