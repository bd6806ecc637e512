//! The output of the process, of which some may be held.

ghost use Rattle.std.specs.Io.{WritesAtMost};

use base_output::HeldOutput;
use std::cell::RefCell;
use std::io::{self, ErrorKind, Read, Write};

/// An output before another, which holds up to 16,384 bytes, if it is asked to.
/// What is held is handed on before more input is asked for, before an error is told, and at the
/// end, so nobody waits for an answer that is held.
/// What stands in a cell is not told to a contract, so what is handed on is tested.
#[derive(Drop)]
pub struct Output<W> {
    held: RefCell<HeldOutput<W>>,
    holds: bool,
}

// What is answered where the cell is in use, which it never is here.
fn in_use() -> io::Error {
    io::Error::from(ErrorKind::ResourceBusy)
}

impl<W: Write> Output<W> {
    /// Nothing is held yet; where `holds` is false, nothing will be.
    pub fn new(writer: W, holds: bool) -> Output<W> {
        Output {
            held: RefCell::new(HeldOutput::new(writer)),
            holds,
        }
    }

    /// Hands on all that is held.
    /// What a failed write leaves is held still.
    pub fn hand_on(&self) -> io::Result<()> {
        match self.held.try_borrow_mut() {
            Ok(mut held) => held.flush(),
            Err(_) => Err(in_use()),
        }
    }

    // Takes some of these bytes, and answers how many.
    fn take(&self, bytes: &[u8]) -> io::Result<usize>
        ensures { WritesAtMost result bytes.now }
    {
        match self.held.try_borrow_mut() {
            Ok(mut held) => held.write(bytes),
            Err(_) => Err(in_use()),
        }
    }
}

/// A writer to an output.
#[derive(Drop)]
pub struct Answers<'a, W> {
    output: &'a Output<W>,
}

impl<'a, W> Answers<'a, W> {
    pub fn new(output: &'a Output<W>) -> Answers<'a, W> {
        Answers { output }
    }
}

impl<W: Write> Write for Answers<'_, W> {
    fn write(&mut self, buf: &[u8]) -> io::Result<usize> {
        let count = self.output.take(buf)?;
        if !self.output.holds {
            self.output.hand_on()?;
        }
        Ok(count)
    }

    fn flush(&mut self) -> io::Result<()> {
        self.output.hand_on()
    }
}

/// A reader that hands the output on before it asks for more.
#[derive(Drop)]
pub struct Input<'a, R, W> {
    reader: R,
    output: &'a Output<W>,
}

impl<'a, R, W> Input<'a, R, W> {
    pub fn new(reader: R, output: &'a Output<W>) -> Input<'a, R, W> {
        Input { reader, output }
    }
}

impl<R: Read, W: Write> Read for Input<'_, R, W> {
    ghost remaining = { λ s. R.remaining s.reader };

    fn read(&mut self, buf: &mut [u8]) -> io::Result<usize> {
        // What can't be written stays held, and the next write fails, or the last.
        let _ = self.output.hand_on();
        self.reader.read(buf)
    }
}

/// An error output that has the output handed on before an error is told.
#[derive(Drop)]
pub struct Errors<'a, E, W> {
    writer: E,
    output: &'a Output<W>,
}

impl<'a, E, W> Errors<'a, E, W> {
    pub fn new(writer: E, output: &'a Output<W>) -> Errors<'a, E, W> {
        Errors { writer, output }
    }
}

impl<E: Write, W: Write> Write for Errors<'_, E, W> {
    ghost contents = { λ s. E.contents s.writer };

    fn write(&mut self, buf: &[u8]) -> io::Result<usize> {
        let _ = self.output.hand_on();
        self.writer.write(buf)
    }

    fn flush(&mut self) -> io::Result<()> {
        self.writer.flush()
    }
}
