//! Readers and writers that give and take so many bytes at a time, and fail once.

use std::io::{self, ErrorKind, Read, Write};

/// Gives at most so many bytes a read.
/// The read after so many is interrupted; later ones would go on, and are counted.
#[derive(Drop)]
pub struct FailingReader<'a> {
    left: &'a [u8],
    piece: usize,
    good_reads: usize,
    later: Option<u64>,
}

impl<'a> FailingReader<'a> {
    pub fn new(bytes: &'a [u8], piece: usize, good_reads: usize) -> FailingReader<'a> {
        FailingReader {
            left: bytes,
            piece,
            good_reads,
            later: None,
        }
    }

    /// How many reads there were after the one that failed; `None` if none has.
    pub fn later(&self) -> Option<u64> {
        self.later
    }
}

impl Read for FailingReader<'_> {
    fn read(&mut self, buf: &mut [u8]) -> io::Result<usize> {
        match self.later {
            Some(later) => self.later = Some(later.saturating_add(1)),
            None => {
                if self.good_reads == 0 {
                    self.later = Some(0);
                    return Err(io::Error::from(ErrorKind::Interrupted));
                }
                self.good_reads -= 1;
            }
        }
        let len = self.left.len().min(buf.len()).min(self.piece);
        buf[..len].copy_from_slice(&self.left[..len]);
        self.left = &self.left[len..];
        Ok(len)
    }
}

/// How a writer fails.
#[derive(Clone, Copy)]
pub enum WriterFailure {
    /// It is interrupted.
    Interrupted,
    /// It takes no byte.
    Full,
}

/// Takes at most so many bytes a write.
/// The write after so many fails; later ones would go on, and are counted.
#[derive(Drop)]
pub struct FailingWriter {
    pub taken: Vec<u8>,
    piece: usize,
    good_writes: usize,
    failure: WriterFailure,
    later: Option<u64>,
}

impl FailingWriter {
    pub fn new(
        taken: Vec<u8>,
        piece: usize,
        good_writes: usize,
        failure: WriterFailure,
    ) -> FailingWriter {
        FailingWriter {
            taken,
            piece,
            good_writes,
            failure,
            later: None,
        }
    }

    /// How many writes there were after the one that failed; `None` if none has.
    pub fn later(&self) -> Option<u64> {
        self.later
    }
}

impl Write for FailingWriter {
    fn write(&mut self, buf: &[u8]) -> io::Result<usize> {
        match self.later {
            Some(later) => self.later = Some(later.saturating_add(1)),
            None => {
                if self.good_writes == 0 {
                    self.later = Some(0);
                    return match self.failure {
                        WriterFailure::Interrupted => Err(io::Error::from(ErrorKind::Interrupted)),
                        WriterFailure::Full => Ok(0),
                    };
                }
                self.good_writes -= 1;
            }
        }
        let len = buf.len().min(self.piece);
        self.taken.extend_from_slice(&buf[..len])?;
        Ok(len)
    }

    fn flush(&mut self) -> io::Result<()> {
        Ok(())
    }
}
