//! Scripts that are long: by a line, by their lines, and without end.

use crate::scripts::writes;
use desk_run::{ScriptEnd, ScriptFault, run_script};
use memory_desk::PlainDesk;
use std::alloc::{AllocError, Global};
use std::test::Fail;
use test_doubles::RoundReader;

// A report, a command, so many times this byte, and then these bytes.
fn with_many(alloc: Global, length: usize, byte: u8, then: &[u8]) -> Result<Vec<u8>, AllocError> {
    let mut script = Vec::from_slice(alloc, b"@report foo 1 normal a\nclose 1\n")?;
    let before = script.len();
    script.resize(before.saturating_add(length), byte)?;
    script.extend_from_slice(then)?;
    Ok(script)
}

// Whether such a script has this end and writes this.
fn many_write(
    alloc: Global,
    desk: &mut PlainDesk,
    many: (usize, u8, &[u8]),
    end: Result<ScriptEnd, ScriptFault>,
    written: &str,
) -> Result<bool, AllocError> {
    let (length, byte, then) = many;
    let script = with_many(alloc, length, byte, then)?;
    Ok(writes(alloc, desk, &script, end, written))
}

#[test]
fn a_line_that_is_too_long_ends_the_script(rt: HostRuntime) -> Result<(), Fail> {
    let alloc = rt.alloc();
    let mut desk = PlainDesk::new(alloc, 1);
    let end = Ok(ScriptEnd::Accepted);
    let written = "OK 1\n> close 1\nOK 1\n";
    assert!(rt; many_write(alloc, &mut desk, (65_536, b'#', b""), end, written)?);
    let end = Err(ScriptFault::LineTooLong(3));
    assert!(rt; many_write(alloc, &mut desk, (65_537, b'#', b""), end, "OK 2\n")?);
    Ok(())
}

#[test]
fn a_script_of_70_000_lines_is_run_to_its_end(rt: HostRuntime) -> Result<(), Fail> {
    let alloc = rt.alloc();
    let mut desk = PlainDesk::new(alloc, 1);
    let end = Ok(ScriptEnd::Accepted);
    let written = "OK 1\n> close 1\nOK 1\n> close 1\nOK, no change.\n";
    assert!(rt;
        many_write(
            alloc,
            &mut desk,
            (69_997, b'\n', b"close 1\n"),
            end,
            written
        )?
    );
    let end = Err(ScriptFault::NotUtf8(70_000));
    assert!(rt; many_write(alloc, &mut desk, (69_997, b'\n', b"\xff\n"), end, "OK 2\n")?);
    Ok(())
}

#[test]
fn a_script_without_end_is_the_fault_read(rt: HostRuntime) {
    let alloc = rt.alloc();
    let mut desk = PlainDesk::new(alloc, 1);
    let mut reader = RoundReader::new(b"@from ann\n");
    let mut writer = Vec::new(alloc);
    let end = run_script(alloc, &mut desk, &mut reader, &mut writer);
    assert!(rt; end == Err(ScriptFault::Read));
    assert!(rt; reader.reads == 16_777_216 && writer.is_empty());
}
