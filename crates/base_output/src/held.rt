//! A writer that hands on many bytes at a time.

ghost use Rattle.std.specs.Prelude.{◌≡◌, ◌≤◌, [], length, OnOk};
ghost use Rattle.std.specs.Io.KnownBytes.{Keeps};
ghost use Rattle.base_output.specs.Held.{given};

use arrayvec::ArrayVec;
use std::io::{self, ErrorKind, Write};

/// The most bytes that are held.
const CAPACITY: usize = 16_384;

/// A writer before another, which holds up to 16,384 bytes until they are handed on in one write.
/// Its contents are those of the other writer and, after them, what is held.
/// So what it was given is what it hands on, in that order, each byte once.
#[derive(Drop)]
pub struct HeldOutput<W> {
    inner: W,
    bytes: ArrayVec<u8, CAPACITY>,
    // How many of these bytes are handed on.
    start: usize,
    ghost within: { start ≤ length bytes.items },
}

impl<W: Write> HeldOutput<W> {
    /// Nothing is held.
    pub fn new(inner: W) -> HeldOutput<W>
        ensures inner { result.inner ≡ inner }
        ensures none { result.bytes.items ≡ [] }
    {
        HeldOutput {
            inner,
            bytes: ArrayVec::new(),
            start: 0,
        }
    }

    // Hands on all that is held.
    // An error where a write failed, an interrupted one too, or took no byte: what was not handed
    // on is held still.
    fn hand_on(&mut self) -> io::Result<()>
        ensures bytes { Keeps (given (W.contents self.old.inner) self.old.start self.old.bytes.items)
            (given (W.contents self.new.inner) self.new.start self.new.bytes.items) }
        ensures none { OnOk result (self.new.bytes.items ≡ []) }
    {
        while self.start < self.bytes.len() {
            let count = self.inner.write(&self.bytes[self.start..])?;
            if count == 0 {
                return Err(io::Error::from(ErrorKind::WriteZero));
            }
            self.start += count;
        }
        self.start = 0;
        self.bytes.clear();
        Ok(())
    }
}

impl<W: Write> Write for HeldOutput<W> {
    ghost contents = { λ s. given (W.contents s.inner) s.start s.bytes.items };

    fn write(&mut self, buf: &[u8]) -> io::Result<usize> {
        if self.bytes.len() == CAPACITY {
            self.hand_on()?;
        }
        let count = buf.len().min(CAPACITY - self.bytes.len());
        match self.bytes.try_extend_from_slice(&buf[..count]) {
            Ok(()) => Ok(count),
            Err(_) => Err(io::Error::from(ErrorKind::WriteZero)),
        }
    }

    fn flush(&mut self) -> io::Result<()>
        ensures bytes { Keeps (given (W.contents self.old.inner) self.old.start self.old.bytes.items)
            (given (W.contents self.new.inner) self.new.start self.new.bytes.items) }
        ensures none { OnOk result (self.new.bytes.items ≡ []) }
    {
        self.hand_on()?;
        self.inner.flush()
    }
}
