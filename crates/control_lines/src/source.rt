//! Lines of a reader, and bytes to a writer.

ghost use Rattle.std.specs.Prelude.{◌≡◌, ℕ, ◌+◌, ◌<◌, ◌≤◌, ◌++◌, [], length, take, drop, false, IsOk, IfOk, IfErr, OnOk, OnErr};
ghost use Rattle.std.specs.Prelude.{List};
ghost use Rattle.std.specs.Prelude.{IsUtf8, Result, None, Some};
ghost use Rattle.std.specs.List.{list_any};
ghost use Rattle.std.specs.Io.KnownBytes.{Appends};
ghost use Rattle.control_lines.specs.Lines.{without_return, is_feed};
ghost use Rattle.control_lines.specs.Buffered.{bytes_left};
ghost use Rattle.control_lines.specs.Reading.{Known, Left, GivesPiece, IsLineFault};
ghost use Rattle.control_lines.specs.Pieces.{GivesBytes, GivesRaw, IsFirstFeed};
ghost use Rattle.control_lines.specs.Reading.{IsReadingFault, IsBegun};
ghost use Rattle.control_lines.specs.Pieces.{IsLengthFault, IsTextFault};

use crate::fault::ScriptFault;
use crate::lines::without_return;
use base_output::write_whole;
use debver::Text;
use memchr::memchr;
use std::alloc::Global;
use std::io::{Read, Write};
use std::marker::Model;

/// The most bytes of a line, its line feed not counted.
const MAX_LINE: usize = 65_536;

/// The most calls of a reader's `read`.
const MAX_READS: u32 = 16_777_216;

/// The most bytes that one read may give.
const BUFFER: usize = 8_192;

const LINE_FEED: u8 = b'\n';

/// What has been read and not yet given, and how many reads may follow.
#[derive(Drop)]
pub struct Source {
    buffer: [u8; BUFFER],
    at: usize,
    len: usize,
    reads_left: u32,
}

impl Model for Source {
    ghost use Rattle.std.specs.Prelude.{length, take, drop, ◌≤◌};
    ghost use Rattle.control_lines.specs.Buffered.{Buffered};

    ghost Value = { Buffered };

    ghost view = { λ s. record { unread = drop s.at (take s.len s.buffer); reads_left = s.reads_left } };

    ghost invariant = { λ s. (s.at ≤ s.len) × (s.len ≤ length s.buffer) };
}

impl Source {
    /// Nothing is read yet, and 16,777,216 reads may follow.
    pub fn new() -> Source
        ensures { result ≡ record { unread = []; reads_left = 16777216 } }
    {
        Source {
            buffer: [0; BUFFER],
            at: 0,
            len: 0,
            reads_left: MAX_READS,
        }
    }

    // What has been read and not yet given.
    fn unread(&self) -> &[u8]
        ensures bytes { result.now ≡ self.now.unread }
        ensures short { length result.now ≤ 8192 }
    {
        &self.buffer[self.at..self.len]
    }

    // Takes the first unread bytes away.
    fn advance(&mut self, count: usize)
        requires { count ≤ length self.old.unread }
        ensures { self.new ≡ record { unread = drop count self.old.unread; reads_left = self.old.reads_left } }
    {
        self.at += count;
    }
}

/// What a reader gives next.
#[derive(Drop)]
pub enum Piece {
    /// A line up to its line feed, without the line feed and one carriage return before it.
    Line(Text),
    /// What follows the last line feed, without one carriage return at its end.
    Last(Text),
    /// Nothing follows.
    End,
}

// A piece as it was read.
#[derive(Drop)]
enum RawLine {
    Line(Vec<u8>),
    Last(Vec<u8>),
    End,
}

// Where the first line feed stands.
fn first_feed(bytes: &[u8]) -> Option<usize>
    ensures { IsFirstFeed bytes.now result }
{
    memchr(LINE_FEED, bytes)
}

// Reads a piece, where nothing is unread; an empty one is the end.
// A read that fails, an interrupted one too, or one more than the bound is the fault.
fn refill<R: Read>(source: &mut Source, reader: &mut R) -> Result<(), ScriptFault>
    requires { source.old.unread ≡ [] }
    ensures read { OnOk result (Left (R.remaining reader.old) (R.remaining reader.new) (GivesBytes source.new.unread)) }
    ensures fault { OnErr result (result ≡ Result.Err ScriptFault.Read) }
    ensures untaken { OnErr result (Left (R.remaining reader.old) (R.remaining reader.new) (λ xs ys. ys ≡ xs)) }
    ensures emptied { OnErr result (source.new.unread ≡ []) }
    ensures short { length source.new.unread ≤ 8192 }
    ensures counted { OnOk result (source.new.reads_left + 1 ≡ source.old.reads_left) }
    ensures reads { source.new.reads_left ≤ source.old.reads_left }
    ensures unasked { source.new.reads_left ≡ source.old.reads_left → reader.new ≡ reader.old }
    ensures spent { source.old.reads_left ≡ 0 → (result ≡ Result.Err ScriptFault.Read) × (source.new ≡ source.old) }
{
    if source.reads_left == 0 {
        return Err(ScriptFault::Read);
    }
    source.reads_left -= 1;
    match reader.read(&mut source.buffer) {
        Ok(len) => {
            source.at = 0;
            source.len = len;
            Ok(())
        }
        Err(_) => Err(ScriptFault::Read),
    }
}

// Takes the first unread bytes to the end of a line, which has this number.
fn take_bytes(
    source: &mut Source,
    line: &mut Vec<u8>,
    count: usize,
    number: u64,
) -> Result<(), ScriptFault>
    requires within { count ≤ length source.old.unread }
    requires short { length line.old.items ≤ 65536 }
    ensures kept { count ≡ 0 → IsOk result }
    ensures taken { OnOk result
        (source.new ≡ record { unread = drop count source.old.unread; reads_left = source.old.reads_left }) }
    ensures line { OnOk result (line.new.items ≡ line.old.items ++ take count source.old.unread) }
    ensures short { OnOk result (length line.new.items ≤ 65536) }
    ensures fault { IfErr result (IsLengthFault number (line.old.items ++ take count source.old.unread)) }
    ensures same { OnErr result (source.new ≡ source.old) }
{
    if count > MAX_LINE - line.len() {
        return Err(ScriptFault::LineTooLong(number));
    }
    if line.extend_from_slice(&source.unread()[..count]).is_err() {
        return Err(ScriptFault::Memory);
    }
    source.advance(count);
    Ok(())
}

// The bytes of a line that crosses the end of what is unread.
fn gather<R: Read>(
    alloc: Global,
    source: &mut Source,
    reader: &mut R,
    number: u64,
) -> Result<RawLine, ScriptFault>
    requires { list_any is_feed source.old.unread ≡ false }
    ensures raw { IfOk result
        (λ raw. Left (R.remaining reader.old) (R.remaining reader.new)
        (λ xs ys. GivesRaw raw (source.old.unread ++ xs) (source.new.unread ++ ys))) }
    ensures fault { IfErr result
        (λ fault. Known (R.remaining reader.old) (λ xs. IsLineFault number fault (source.old.unread ++ xs))) }
    ensures outside { IfErr result (IsReadingFault number) }
    ensures begun { result ≡ Result.Err ScriptFault.Read
        → Left (R.remaining reader.old) (R.remaining reader.new)
        (λ xs ys. IsBegun (source.old.unread ++ xs) (source.new.unread ++ ys)) }
    ensures emptied { result ≡ Result.Err ScriptFault.Read → source.new.unread ≡ [] }
    ensures reads { source.new.reads_left ≤ source.old.reads_left }
    ensures fewer { OnOk result (bytes_left source.new < bytes_left source.old) }
    ensures unasked { source.new.reads_left ≡ source.old.reads_left → reader.new ≡ reader.old }
    ensures spent { source.old.unread ≡ [] → source.old.reads_left ≡ 0 → (result ≡ Result.Err ScriptFault.Read)
        × (source.new ≡ source.old) × (reader.new ≡ reader.old) }
{
    let mut line = Vec::new(alloc);
    loop {
        let count = source.unread().len();
        take_bytes(source, &mut line, count, number)?;
        refill(source, reader)?;
        if source.unread().is_empty() {
            if line.is_empty() {
                return Ok(RawLine::End);
            }
            return Ok(RawLine::Last(line));
        }
        if let Some(end) = first_feed(source.unread()) {
            take_bytes(source, &mut line, end, number)?;
            source.advance(1);
            return Ok(RawLine::Line(line));
        }
    }
}

// The text of a line's bytes, without one carriage return at its end.
fn text_of(alloc: Global, bytes: &[u8], number: u64) -> Result<Text, ScriptFault>
    ensures text { IfOk result (λ text. IsUtf8 bytes.now × (text ≡ without_return bytes.now)) }
    ensures fault { IfErr result (IsTextFault number bytes.now) }
{
    let Ok(text) = str::from_utf8(bytes) else {
        return Err(ScriptFault::NotUtf8(number));
    };
    Ok(Text::of(alloc, without_return(text))?)
}

// A piece of text from a piece as it was read.
fn piece_of(alloc: Global, raw: RawLine, number: u64) -> Result<Piece, ScriptFault>
    ensures piece { IfOk result (λ piece. (all rest : List ℕ) → GivesRaw raw all rest → GivesPiece piece all rest) }
    ensures fault { IfErr result
        (λ fault. (all rest : List ℕ) → GivesRaw raw all rest → IsLineFault number fault all) }
    ensures outside { IfErr result (IsReadingFault number) }
    ensures whole { result ≡ Result.Err ScriptFault.Read → ⊥ }
{
    match raw {
        RawLine::Line(bytes) => Ok(Piece::Line(text_of(alloc, &bytes, number)?)),
        RawLine::Last(bytes) => Ok(Piece::Last(text_of(alloc, &bytes, number)?)),
        RawLine::End => Ok(Piece::End),
    }
}

/// The next line of a script, which has this number, counted from 1.
///
/// The faults are those of this line alone: Read, where a read fails, an interrupted one too, or is
/// the 16,777,217th; LineTooLong, as soon as the line has 65,537 bytes; NotUtf8; Memory.
/// At Read at most 65,536 bytes of the line were taken from the reader, and nothing else.
/// Where no read is left, the reader is called no more.
/// Each piece lowers the most bytes that the source may still give, 137,438,953,472 at first.
pub fn next_line<R: Read>(
    alloc: Global,
    source: &mut Source,
    reader: &mut R,
    number: u64,
) -> Result<Piece, ScriptFault>
    ensures piece { IfOk result
        (λ piece. Left (R.remaining reader.old) (R.remaining reader.new)
        (λ xs ys. GivesPiece piece (source.old.unread ++ xs) (source.new.unread ++ ys))) }
    ensures fault { IfErr result
        (λ fault. Known (R.remaining reader.old) (λ xs. IsLineFault number fault (source.old.unread ++ xs))) }
    ensures outside { IfErr result (IsReadingFault number) }
    ensures begun { result ≡ Result.Err ScriptFault.Read
        → Left (R.remaining reader.old) (R.remaining reader.new)
        (λ xs ys. IsBegun (source.old.unread ++ xs) (source.new.unread ++ ys)) }
    ensures emptied { result ≡ Result.Err ScriptFault.Read → source.new.unread ≡ [] }
    ensures reads { source.new.reads_left ≤ source.old.reads_left }
    ensures fewer { OnOk result (bytes_left source.new < bytes_left source.old) }
    ensures unasked { source.new.reads_left ≡ source.old.reads_left → reader.new ≡ reader.old }
    ensures spent { source.old.unread ≡ [] → source.old.reads_left ≡ 0 → (result ≡ Result.Err ScriptFault.Read)
        × (source.new ≡ source.old) × (reader.new ≡ reader.old) }
{
    if let Some(end) = first_feed(source.unread()) {
        let text = text_of(alloc, &source.unread()[..end], number);
        source.advance(end + 1);
        return Ok(Piece::Line(text?));
    }
    let raw = gather(alloc, source, reader, number)?;
    piece_of(alloc, raw, number)
}

/// Writes all bytes, as `write_whole` of `base_output` does.
///
/// The fault is Write: a write failed, an interrupted one too, or took no byte.
/// A front of the bytes is then written.
pub fn write_out<W: Write>(writer: &mut W, bytes: &[u8]) -> Result<(), ScriptFault>
    ensures all { OnOk result (Appends (W.contents writer.old) (W.contents writer.new) bytes.now) }
    ensures unfinished { OnErr result
        ((n : ℕ) × (n < length bytes.now) × Appends (W.contents writer.old) (W.contents writer.new) (take n bytes.now)) }
    ensures write { OnErr result (result ≡ Result.Err ScriptFault.Write) }
{
    match write_whole(writer, bytes) {
        Ok(()) => Ok(()),
        Err(_) => Err(ScriptFault::Write),
    }
}
