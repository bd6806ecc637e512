//! Lines in the pieces that readers give, bytes in the pieces that writers take, and their faults.

use control_lines::{Piece, ScriptFault, Source, next_line, split_lines, write_out};
use std::alloc::{AllocError, Global};
use std::io::Read;
use std::process::Abort;
use std::test::Fail;
use test_doubles::{FailingReader, FailingWriter, RepeatingReader, WriterFailure};

fn shown(piece: &Piece) -> (&str, &str) {
    match piece {
        Piece::Line(text) => ("line", text.as_str()),
        Piece::Last(text) => ("last", text.as_str()),
        Piece::End => ("end", ""),
    }
}

// Whether a reader's next line, which has this number, is this piece.
fn gives<R: Read>(
    alloc: Global,
    source: &mut Source,
    reader: &mut R,
    number: u64,
    want: (&str, &str),
) -> Result<bool, ScriptFault> {
    let given = next_line(alloc, source, reader, number)?;
    Ok(shown(&given) == want)
}

fn assert_pieces<R: Read>(
    rt: &impl Abort,
    alloc: Global,
    reader: &mut R,
    want: &[(&str, &str)],
) -> Result<(), ScriptFault> {
    let mut source = Source::new();
    for piece in want {
        let is_given = gives(alloc, &mut source, reader, 7, *piece)?;
        assert!(rt; is_given, "{} {}", piece.0, piece.1);
    }
    Ok(())
}

fn first_fault(alloc: Global, bytes: &[u8]) -> Option<ScriptFault> {
    let mut reader = bytes;
    next_line(alloc, &mut Source::new(), &mut reader, 7).err()
}

// So many letters, and then these bytes.
fn long(alloc: Global, letters: usize, then: &[u8]) -> Result<Vec<u8>, AllocError> {
    let mut bytes = Vec::new(alloc);
    bytes.resize(letters, b'a')?;
    bytes.extend_from_slice(then)?;
    Ok(bytes)
}

#[test]
fn lines_are_the_same_in_whatever_pieces_they_are_read(rt: HostRuntime) -> Result<(), Fail> {
    let text = b"ab\r\ncd\n\n\r\r\ne";
    let want = [
        ("line", "ab"),
        ("line", "cd"),
        ("line", ""),
        ("line", "\r"),
        ("last", "e"),
        ("end", ""),
        ("end", ""),
    ];
    assert_pieces(&rt, rt.alloc(), &mut text.as_slice(), &want)?;
    let mut slow = FailingReader::new(text, 1, 100);
    assert_pieces(&rt, rt.alloc(), &mut slow, &want)?;
    Ok(())
}

#[test]
fn a_line_has_65_536_bytes_at_most(rt: HostRuntime) -> Result<(), Fail> {
    let alloc = rt.alloc();
    let too_long = Some(ScriptFault::LineTooLong(7));
    let cases = [
        (65_536, b"\n".as_slice(), None),
        (65_536, b"".as_slice(), None),
        (65_535, b"\r\n".as_slice(), None),
        (65_536, b"\r\n".as_slice(), too_long),
        (65_537, b"\n".as_slice(), too_long),
        (65_536, b"\xff\n".as_slice(), too_long),
        (65_535, b"\xff\n".as_slice(), Some(ScriptFault::NotUtf8(7))),
    ];
    for (letters, then, want) in cases {
        let bytes = long(alloc, letters, then)?;
        assert!(rt; first_fault(alloc, &bytes) == want, "{letters}");
    }
    Ok(())
}

#[test]
fn a_long_line_is_refused_at_its_first_byte_too_many(rt: HostRuntime) -> Result<(), Fail> {
    let alloc = rt.alloc();
    let bytes = long(alloc, 70_000, b"")?;
    let mut reader = FailingReader::new(&bytes, 1, 65_537);
    let fault = next_line(alloc, &mut Source::new(), &mut reader, 7).err();
    assert!(rt; fault == Some(ScriptFault::LineTooLong(7)));
    Ok(())
}

#[test]
fn a_read_that_fails_is_the_fault(rt: HostRuntime) -> Result<(), Fail> {
    let alloc = rt.alloc();
    let mut source = Source::new();
    let mut reader = FailingReader::new(b"a\nbc\n", 1, 3);
    assert!(rt; gives(alloc, &mut source, &mut reader, 1, ("line", "a"))?);
    let fault = next_line(alloc, &mut source, &mut reader, 2).err();
    assert!(rt; fault == Some(ScriptFault::Read) && reader.later() == Some(0));
    Ok(())
}

// How many reads a reader that never ends, and gives this piece a read, is asked for, if the last
// line that it gives has this number, and the next one is the fault Read; the line after that takes
// no read.
fn reads_until(alloc: Global, piece: &[u8], last: u64) -> Result<Option<u64>, ScriptFault> {
    let mut source = Source::new();
    let mut reader = RepeatingReader { piece, reads: 0 };
    for number in 0..last {
        next_line(alloc, &mut source, &mut reader, number)?;
    }
    for _ in 0..2 {
        if next_line(alloc, &mut source, &mut reader, last).err() != Some(ScriptFault::Read) {
            return Ok(None);
        }
    }
    Ok(Some(reader.reads))
}

#[test]
fn a_reader_is_asked_for_16_777_216_reads_and_no_more(rt: HostRuntime) -> Result<(), Fail> {
    assert!(rt; reads_until(rt.alloc(), b"\n", 16_777_216)? == Some(16_777_216));
    // a line more is begun with the last piece
    assert!(rt; reads_until(rt.alloc(), b"b\na", 16_777_216)? == Some(16_777_216));
    Ok(())
}

// Whether the text is split into these lines.
fn splits(alloc: Global, text: &str, lines: &[&str]) -> Result<bool, AllocError> {
    let found = split_lines(alloc, text)?;
    let mut are_equal = found.len() == lines.len();
    for (line, wanted) in found.iter().zip(lines) {
        are_equal = are_equal && line.as_str() == *wanted;
    }
    Ok(are_equal)
}

#[test]
fn a_text_is_split_at_line_feeds(rt: HostRuntime) -> Result<(), Fail> {
    let alloc = rt.alloc();
    assert!(&rt; splits(alloc, "", &[])?);
    assert!(&rt; splits(alloc, "a\nb", &["a", "b"])?);
    assert!(&rt; splits(alloc, "a\r\n\nb\r\r\n", &["a", "", "b\r"])?);
    assert!(&rt; splits(alloc, "a\n\r", &["a", ""])?);
    Ok(())
}

// Whether a writer that takes all bytes at once gets those of two calls.
fn gets_both(alloc: Global) -> Result<bool, ScriptFault> {
    let mut whole = Vec::new(alloc);
    write_out(&mut whole, b"ab")?;
    write_out(&mut whole, b"c")?;
    Ok(whole.as_slice() == b"abc".as_slice())
}

// Whether a writer that takes one byte at a time gets all.
fn gets_each(alloc: Global) -> Result<bool, ScriptFault> {
    let mut narrow = FailingWriter::new(Vec::new(alloc), 1, 3, WriterFailure::Full);
    write_out(&mut narrow, b"abc")?;
    Ok(narrow.taken.as_slice() == b"abc".as_slice())
}

#[test]
fn all_bytes_are_written_in_any_pieces(rt: HostRuntime) -> Result<(), Fail> {
    assert!(rt; gets_both(rt.alloc())?);
    assert!(rt; gets_each(rt.alloc())?);
    Ok(())
}

// Whether these bytes are the fault Write, and no write follows the one that fails.
fn fails_at_once(writer: &mut FailingWriter, bytes: &[u8]) -> bool {
    write_out(writer, bytes) == Err(ScriptFault::Write) && writer.later() == Some(0)
}

// Whether a writer that takes no third byte has the first two.
fn keeps_the_first_two(alloc: Global) -> bool {
    let mut narrow = FailingWriter::new(Vec::new(alloc), 1, 2, WriterFailure::Full);
    fails_at_once(&mut narrow, b"abc") && narrow.taken.as_slice() == b"ab".as_slice()
}

// Whether a writer that fails at once takes no bytes, and not one.
fn takes_nothing(alloc: Global) -> bool {
    let mut broken = FailingWriter::new(Vec::new(alloc), usize::MAX, 0, WriterFailure::Interrupted);
    write_out(&mut broken, b"") == Ok(()) && fails_at_once(&mut broken, b"a")
}

#[test]
fn a_write_that_fails_or_takes_no_byte_is_the_fault(rt: HostRuntime) {
    assert!(rt; keeps_the_first_two(rt.alloc()));
    assert!(rt; takes_nothing(rt.alloc()));
}
