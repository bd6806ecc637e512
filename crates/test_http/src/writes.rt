//! Exchanges over a writer that fails, or takes one byte at a time.

use crate::exchanges::{EXCHANGES, desk_after, is_after};
use desk_http::{ServeFault, Served, serve_one};
use std::alloc::Global;
use test_doubles::{FailingWriter, WriterFailure};

// Whether the bytes are the first ones of the answer, but not all.
fn is_front(taken: &[u8], answer: &[u8]) -> bool {
    taken.len() < answer.len() && answer.starts_with(taken)
}

// Whether an exchange is told as it has to be, and this writer has what it has to have.
fn is_told_well(told: &Result<Served, ServeFault>, writer: &FailingWriter, answer: &[u8]) -> bool {
    let taken = writer.taken.as_slice();
    match writer.later() {
        Some(later) => {
            later == 0 && matches!(told, Err(ServeFault::Write)) && is_front(taken, answer)
        }
        None => matches!(told, Ok(Served::Answered(_))) && taken == answer,
    }
}

// Whether an exchange ends as it has to with this writer: as a fault of the writer with a front of
// the answer written and no write after it, or whole where no write has failed.
// The request is carried out before its answer is written.
// `None` where it does not end so, otherwise whether a write has failed.
fn meets_failure(
    alloc: Global,
    place: usize,
    request: &str,
    answer: &str,
    writer: &mut FailingWriter,
) -> Option<bool> {
    let mut desk = desk_after(alloc, place);
    let mut reader = request.as_bytes();
    let told = serve_one(alloc, &mut desk, &mut reader, writer);
    let is_good = is_after(alloc, &mut desk, place.saturating_add(1))
        && is_told_well(&told, writer, answer.as_bytes());
    is_good.then_some(writer.later().is_some())
}

// How many writes are good before the first run that meets no failure; `None` where a run does not
// end as it has to.
fn writes_needed(
    alloc: Global,
    place: usize,
    request: &str,
    answer: &str,
    piece: usize,
    failure: WriterFailure,
) -> Option<usize> {
    for good_writes in 0..=answer.len() {
        let mut writer = FailingWriter::new(Vec::new(alloc), piece, good_writes, failure);
        if !meets_failure(alloc, place, request, answer, &mut writer)? {
            return Some(good_writes);
        }
    }
    None
}

// Each answer is written in one piece, and in pieces of one byte.
#[test]
fn a_write_that_fails_is_told_and_no_other_follows(rt: HostRuntime) {
    let alloc = rt.alloc();
    for (place, (request, answer)) in EXCHANGES.iter().enumerate() {
        for failure in [WriterFailure::Interrupted, WriterFailure::Full] {
            let writes = writes_needed(alloc, place, request, answer, usize::MAX, failure);
            assert!(rt; writes.is_some(), "{request}");
            let writes = writes_needed(alloc, place, request, answer, 1, failure);
            assert!(rt; writes == Some(answer.len()), "{request}");
        }
    }
}
