//! Exchanges over a reader that fails.

use crate::exchanges::{EXCHANGES, desk_after, is_after};
use desk_http::{ServeFault, Served, serve_one};
use memory_desk::PlainDesk;
use std::alloc::Global;
use test_doubles::FailingReader;

// Whether an exchange is told as it has to be, where so many reads followed the one that failed.
fn is_told_well(told: &Result<Served, ServeFault>, later: Option<u64>) -> bool {
    match later {
        Some(later) => later == 0 && matches!(told, Err(ServeFault::Read)),
        None => matches!(told, Ok(Served::Answered(_))),
    }
}

// Whether nothing is written and nothing has changed where a read has failed, and the exchange is
// whole otherwise.
fn is_done_well(
    alloc: Global,
    desk: &mut PlainDesk,
    place: usize,
    has_failed: bool,
    written: &[u8],
    answer: &str,
) -> bool {
    if has_failed {
        written.is_empty() && is_after(alloc, desk, place)
    } else {
        written == answer.as_bytes() && is_after(alloc, desk, place.saturating_add(1))
    }
}

// Whether an exchange ends as it has to where the read after so many fails: nothing is written and
// nothing changes, or no read has failed and the exchange is whole.
// `None` where it does not end so, otherwise whether a read has failed.
fn meets_failure(
    alloc: Global,
    place: usize,
    request: &str,
    answer: &str,
    piece: usize,
    good_reads: usize,
) -> Option<bool> {
    let mut desk = desk_after(alloc, place);
    let mut reader = FailingReader::new(request.as_bytes(), piece, good_reads);
    let mut written = Vec::new(alloc);
    let told = serve_one(alloc, &mut desk, &mut reader, &mut written);
    let has_failed = reader.later().is_some();
    let is_good = is_told_well(&told, reader.later())
        && is_done_well(alloc, &mut desk, place, has_failed, &written, answer);
    is_good.then_some(has_failed)
}

// How many reads are good before the first run that meets no failure; `None` where a run does not
// end as it has to.
fn reads_needed(
    alloc: Global,
    place: usize,
    request: &str,
    answer: &str,
    piece: usize,
) -> Option<usize> {
    for good_reads in 0..=request.len() {
        if !meets_failure(alloc, place, request, answer, piece, good_reads)? {
            return Some(good_reads);
        }
    }
    None
}

// Requests with a body that no step asks for, and that never comes.
const WITHOUT_BODIES: [&str; 5] = [
    "GET /bugs/1 HTTP/1.1\r\nContent-Length: 5\r\n\r\n",
    "GET /list/foo/1 HTTP/1.1\r\nContent-Length: 5\r\n\r\n",
    "POST /x HTTP/1.1\r\nContent-Length: 5\r\n\r\n",
    "PUT /bugs HTTP/1.1\r\nContent-Length: 5\r\n\r\n",
    "POST /bugs HTTP/1.1\r\nContent-Length: 65537\r\n\r\n",
];

// Whether a request is answered, and nothing is read after the piece that has its head.
fn is_answered_by_its_head(alloc: Global, request: &str) -> bool {
    let mut desk = desk_after(alloc, 0);
    let mut reader = FailingReader::new(request.as_bytes(), usize::MAX, 1);
    let mut written = Vec::new(alloc);
    let told = serve_one(alloc, &mut desk, &mut reader, &mut written);
    matches!(told, Ok(Served::Answered(_))) && reader.later().is_none()
}

#[test]
fn a_body_that_no_step_asks_for_is_not_waited_for(rt: HostRuntime) {
    for request in WITHOUT_BODIES.iter() {
        assert!(rt; is_answered_by_its_head(rt.alloc(), request), "{request}");
    }
}

#[test]
fn a_read_that_fails_changes_nothing_and_nothing_is_written(rt: HostRuntime) {
    let alloc = rt.alloc();
    for (place, (request, answer)) in EXCHANGES.iter().enumerate() {
        let reads = reads_needed(alloc, place, request, answer, 1);
        assert!(rt; reads == Some(request.len()), "{request}");
        let reads = reads_needed(alloc, place, request, answer, usize::MAX);
        assert!(rt; reads == Some(1), "{request}");
    }
}
