//! Requests that are cut by the end of input.

use crate::exchanges::{BAD_REQUEST, EXCHANGES, answers, desk_after, is_after, status_told};
use desk_http::Served;
use memory_desk::PlainDesk;
use std::alloc::Global;
use test_doubles::serve_into;

// Whether the first bytes of a request are answered as a request that is cut; no bytes are not
// answered.
fn is_cut(alloc: Global, desk: &mut PlainDesk, request: &str, length: usize) -> bool {
    let Some(front) = request.as_bytes().get(..length) else {
        return false;
    };
    let mut written = Vec::new(alloc);
    let told = serve_into(alloc, desk, front, &mut written);
    if front.is_empty() {
        matches!(told, Ok(Served::Closed)) && written.is_empty()
    } else {
        status_told(&told) == Some(400) && written.as_slice() == BAD_REQUEST.as_bytes()
    }
}

// Whether a request that is cut anywhere is so answered and changes nothing, and the whole request
// has its answer afterwards.
fn is_good_whole_alone(alloc: Global, place: usize, request: &str, answer: &str) -> bool {
    let mut desk = desk_after(alloc, place);
    for length in 0..request.len() {
        if !is_cut(alloc, &mut desk, request, length) || !is_after(alloc, &mut desk, place) {
            return false;
        }
    }
    answers(alloc, &mut desk, request, answer)
}

#[test]
fn a_request_that_is_cut_is_refused_and_changes_nothing(rt: HostRuntime) {
    for (place, (request, answer)) in EXCHANGES.iter().enumerate() {
        assert!(rt;
            is_good_whole_alone(rt.alloc(), place, request, answer),
            "{request}"
        );
    }
}
