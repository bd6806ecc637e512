//! Scripts over a reader or a writer that fails once, at any of its calls.

use crate::scripts::writes;
use desk_run::{ScriptEnd, ScriptFault, run_script};
use memory_desk::PlainDesk;
use std::alloc::Global;
use test_doubles::{FailingReader, FailingWriter, WriterFailure};

// Three bugs that are merged, and of which one is taken out.
const SCRIPT: &str =
    "@from ann\n@report foo 1 normal a\n@report foo 1 normal b\n@report foo 1 normal c\n\
    merge 1 2 3\nunmerge 1\nseverity 2 minor\nunmerge 1\nretitle 2 z\n";

const REPORTED: &str = "OK 1\nOK 2\nOK 3\n";

const WRITTEN: &str =
    "OK 1\nOK 2\nOK 3\n> merge 1 2 3\nOK 1 2 3\n> unmerge 1\nOK 1 2 3\n> severity 2 minor\nOK 2 3\n\
    > unmerge 1\nNO bug 1 is not merged\n> retitle 2 z\nOK 2\n";

// Whether a call has failed, where a script has this end and so many calls followed the one that
// failed: then it ends at once as this fault, with a front of the answers, and otherwise whole.
// `None` where it does not end so.
fn has_failed(
    end: Result<ScriptEnd, ScriptFault>,
    fault: ScriptFault,
    later: Option<u64>,
    is_front: bool,
    is_whole: bool,
) -> Option<bool> {
    match later {
        Some(later) => (later == 0 && end == Err(fault) && is_front).then_some(true),
        None => (end == Ok(ScriptEnd::Refused) && is_whole).then_some(false),
    }
}

// Whether a script ends as it has to where the read after so many fails: at once, with a front of
// the answers before its message, or whole where no read has failed.
// `None` where it does not end so, otherwise whether a read has failed.
fn meets_failed_read(alloc: Global, piece: usize, good_reads: usize) -> Option<bool> {
    let mut desk = PlainDesk::new(alloc, 1);
    let mut reader = FailingReader::new(SCRIPT.as_bytes(), piece, good_reads);
    let mut writer = Vec::new(alloc);
    let end = run_script(alloc, &mut desk, &mut reader, &mut writer);
    let is_front = REPORTED.as_bytes().starts_with(writer.as_slice());
    let is_whole = writer.as_slice() == WRITTEN.as_bytes();
    has_failed(end, ScriptFault::Read, reader.later(), is_front, is_whole)
}

// How many reads are good before the first run that meets no failure; `None` where a run does not
// end as it has to.
fn reads_needed(alloc: Global, piece: usize) -> Option<usize> {
    for good_reads in 0..=SCRIPT.len().saturating_add(1) {
        if !meets_failed_read(alloc, piece, good_reads)? {
            return Some(good_reads);
        }
    }
    None
}

// Whether a script ends as it has to where the write after so many fails: at once, with a front of
// the answers, or whole where no write has failed.
// `None` where it does not end so, otherwise whether a write has failed.
fn meets_failed_write(
    alloc: Global,
    piece: usize,
    good_writes: usize,
    failure: WriterFailure,
) -> Option<bool> {
    let mut desk = PlainDesk::new(alloc, 1);
    let mut reader = SCRIPT.as_bytes();
    let mut writer = FailingWriter::new(Vec::new(alloc), piece, good_writes, failure);
    let end = run_script(alloc, &mut desk, &mut reader, &mut writer);
    let is_whole = writer.taken.as_slice() == WRITTEN.as_bytes();
    let is_front = !is_whole && WRITTEN.as_bytes().starts_with(writer.taken.as_slice());
    has_failed(end, ScriptFault::Write, writer.later(), is_front, is_whole)
}

// How many writes are good before the first run that meets no failure; `None` where a run does not
// end as it has to.
fn writes_needed(alloc: Global, piece: usize, failure: WriterFailure) -> Option<usize> {
    for good_writes in 0..=WRITTEN.len() {
        if !meets_failed_write(alloc, piece, good_writes, failure)? {
            return Some(good_writes);
        }
    }
    None
}

#[test]
fn each_read_of_a_script_may_fail(rt: HostRuntime) {
    let alloc = rt.alloc();
    // the last read finds the end
    assert!(rt; reads_needed(alloc, 1) == Some(SCRIPT.len().saturating_add(1)));
    assert!(rt; reads_needed(alloc, usize::MAX) == Some(2));
}

#[test]
fn each_write_of_a_script_may_fail(rt: HostRuntime) {
    let alloc = rt.alloc();
    for failure in [WriterFailure::Interrupted, WriterFailure::Full] {
        assert!(rt; writes_needed(alloc, 1, failure) == Some(WRITTEN.len()));
        assert!(rt; writes_needed(alloc, usize::MAX, failure).is_some());
    }
}

// What the script writes where a read fails after so many bytes; `None` where it ends otherwise, or
// reads on.
fn written_until(alloc: Global, desk: &mut PlainDesk, bytes: usize) -> Option<Vec<u8>> {
    let mut reader = FailingReader::new(SCRIPT.as_bytes(), 1, bytes);
    let mut writer = Vec::new(alloc);
    let end = run_script(alloc, desk, &mut reader, &mut writer);
    if end == Err(ScriptFault::Read) && reader.later() == Some(0) {
        Some(writer)
    } else {
        None
    }
}

// Whether the script writes a front of what it writes as a whole, where a read fails after so many
// bytes.
fn writes_a_front(alloc: Global, bytes: usize) -> bool {
    match written_until(alloc, &mut PlainDesk::new(alloc, 1), bytes) {
        Some(written) => REPORTED.as_bytes().starts_with(written.as_slice()),
        None => false,
    }
}

// Whether the script writes what it writes before its message, where the read of its end fails.
fn writes_reported(alloc: Global, desk: &mut PlainDesk) -> bool {
    match written_until(alloc, desk, SCRIPT.len()) {
        Some(written) => written.as_slice() == REPORTED.as_bytes(),
        None => false,
    }
}

#[test]
fn a_read_that_fails_leaves_the_message_that_is_gathered(rt: HostRuntime) {
    let alloc = rt.alloc();
    for bytes in 0..SCRIPT.len() {
        assert!(rt; writes_a_front(alloc, bytes), "{bytes}");
    }
    let mut desk = PlainDesk::new(alloc, 1);
    assert!(rt; writes_reported(alloc, &mut desk));
    let written = "> severity 2 normal\nOK, no change.\n> unmerge 2\nNO bug 2 is not merged\n";
    let script = b"severity 2 normal\nunmerge 2\n";
    assert!(rt; writes(alloc, &mut desk, script, Ok(ScriptEnd::Refused), written));
}

// Whether a writer has taken so many bytes, and these are a front of the answers.
fn has_front(writer: &FailingWriter, length: usize) -> bool {
    let taken = writer.taken.as_slice();
    taken.len() == length && WRITTEN.as_bytes().starts_with(taken)
}

// Whether the script ends so, a writer that takes so many bytes has taken all of them, and there
// were so many writes after the one that failed.
fn fills(
    alloc: Global,
    room: usize,
    end: Result<ScriptEnd, ScriptFault>,
    later: Option<u64>,
) -> bool {
    let mut desk = PlainDesk::new(alloc, 1);
    let mut reader = SCRIPT.as_bytes();
    let mut writer = FailingWriter::new(Vec::new(alloc), 1, room, WriterFailure::Full);
    let ended = run_script(alloc, &mut desk, &mut reader, &mut writer);
    ended == end && writer.later() == later && has_front(&writer, room)
}

#[test]
fn a_writer_that_is_full_has_a_front_of_the_answers(rt: HostRuntime) {
    let alloc = rt.alloc();
    for room in 0..WRITTEN.len() {
        assert!(rt;
            fills(alloc, room, Err(ScriptFault::Write), Some(0)),
            "{room}"
        );
    }
    assert!(rt; fills(alloc, WRITTEN.len(), Ok(ScriptEnd::Refused), None));
}
