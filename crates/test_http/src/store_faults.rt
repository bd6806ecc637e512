//! Exchanges with a store that fails.

use crate::exchanges::{FIRST_BUG, REPORT, STORE_FAULT, answers, serve, status_told};
use base_faults::StoreFault;
use memory_desk::PlainDesk;
use std::alloc::Global;
use store_contract::Records;
use store_failing::FailAt;
use test_doubles::serve_into;

const NOT_FOUND: &str = "HTTP/1.1 404 Not Found\r\nConnection: close\r\nContent-Length: 21\r\n\
    Content-Type: application/json\r\n\r\n{\"error\":\"not found\"}";

// A store of so many bugs.
// One of its next changes fails, the one of this number.
fn failing(alloc: Global, bugs: u32, at: u64) -> FailAt<PlainDesk> {
    let mut desk = PlainDesk::new(alloc, 1);
    let mut written = Vec::new(alloc);
    for _ in 0..bugs {
        serve(alloc, &mut desk, REPORT, &mut written);
    }
    FailAt::new(desk, at, StoreFault::Device)
}

// Whether a request is answered so and told as 500, and the store has failed once then.
fn fails_at(alloc: Global, store: &mut FailAt<PlainDesk>, request: &str, answer: &str) -> bool {
    let mut written = Vec::new(alloc);
    let told = serve_into(alloc, store, request.as_bytes(), &mut written);
    status_told(&told) == Some(500)
        && written.as_slice() == answer.as_bytes()
        && store.faults() == 1
}

#[test]
fn a_message_is_cut_at_the_line_where_the_store_fails(rt: HostRuntime) {
    let alloc = rt.alloc();
    let mut store = failing(alloc, 3, 2);
    let request = "POST /control HTTP/1.1\r\nContent-Length: 79\r\n\r\n\
        {\"from\":\"ann\",\"message\":\"severity 1 grave\\nseverity 2 grave\\nseverity 3 grave\"}";
    let answer = "HTTP/1.1 500 Internal Server Error\r\nConnection: close\r\n\
        Content-Length: 99\r\nContent-Type: application/json\r\n\r\n\
        {\"end\":\"store\",\"transcript\":\
        \"> severity 1 grave\\nOK 1\\n> severity 2 grave\\nStore fault: device.\\n\"}";
    assert!(rt; fails_at(alloc, &mut store, request, answer));
    let request = "POST /control HTTP/1.1\r\nContent-Length: 81\r\n\r\n\
        {\"from\":\"ann\",\
        \"message\":\"severity 1 grave\\nseverity 2 normal\\nseverity 3 normal\"}";
    let answer = "HTTP/1.1 200 OK\r\nConnection: close\r\nContent-Length: 139\r\n\
        Content-Type: application/json\r\n\r\n\
        {\"end\":\"all\",\"transcript\":\"> severity 1 grave\\nOK, no change.\\n\
        > severity 2 normal\\nOK, no change.\\n> severity 3 normal\\nOK, no change.\\n\"}";
    assert!(rt; answers(alloc, &mut store, request, answer));
}

#[test]
fn a_report_at_which_the_store_fails_adds_no_bug(rt: HostRuntime) {
    let alloc = rt.alloc();
    let mut store = failing(alloc, 0, 1);
    assert!(rt; fails_at(alloc, &mut store, REPORT, STORE_FAULT));
    // no bug is there: the next one is the first
    assert!(rt; store.next() == Ok(1));
    assert!(rt; answers(alloc, &mut store, "GET /bugs/1 HTTP/1.1\r\n\r\n", NOT_FOUND));
    assert!(rt; answers(alloc, &mut store, REPORT, FIRST_BUG));
}

#[test]
fn a_branch_at_which_the_store_fails_is_not_taken(rt: HostRuntime) {
    let alloc = rt.alloc();
    let mut store = failing(alloc, 0, 1);
    let request = "POST /branches HTTP/1.1\r\nContent-Length: 28\r\n\r\n\
        {\"branch\":[\"foo/3\",\"foo/2\"]}";
    assert!(rt; fails_at(alloc, &mut store, request, STORE_FAULT));
    // the failed branch left foo/3 without a parent: it can have another one
    let request = "POST /branches HTTP/1.1\r\nContent-Length: 28\r\n\r\n\
        {\"branch\":[\"foo/3\",\"foo/1\"]}";
    let answer = "HTTP/1.1 200 OK\r\nConnection: close\r\nContent-Length: 11\r\n\
        Content-Type: application/json\r\n\r\n{\"ok\":true}";
    assert!(rt; answers(alloc, &mut store, request, answer));
}
