//! Exchanges that a new desk has in turn, and what such a desk shows.

use desk_http::{ServeFault, Served};
use memory_desk::PlainDesk;
use std::alloc::Global;
use store_contract::Records;
use test_doubles::serve_into;

/// The requests and their answers: a report, a message, a list, and a branch that is refused.
pub(crate) const EXCHANGES: [(&str, &str); 4] = [
    (
        "POST /bugs HTTP/1.1\r\nContent-Length: 76\r\n\r\n\
        {\"from\":\"ann\",\"package\":\"foo\",\"severity\":\"normal\",\
        \"title\":\"a\",\"version\":\"1\"}",
        "HTTP/1.1 201 Created\r\nConnection: close\r\nContent-Length: 9\r\n\
        Content-Type: application/json\r\n\r\n{\"bug\":1}",
    ),
    (
        "POST /control HTTP/1.1\r\nContent-Length: 51\r\n\r\n\
        {\"from\":\"ann\",\"message\":\"severity 1 grave\\nthanks\"}",
        "HTTP/1.1 200 OK\r\nConnection: close\r\nContent-Length: 79\r\n\
        Content-Type: application/json\r\n\r\n\
        {\"end\":\"stopped\",\
        \"transcript\":\"> severity 1 grave\\nOK 1\\n> thanks\\nStopped.\\n\"}",
    ),
    (
        "GET /list/foo/%31 HTTP/1.1\r\n\r\n",
        "HTTP/1.1 200 OK\r\nConnection: close\r\nContent-Length: 54\r\n\
        Content-Type: text/plain; charset=utf-8\r\n\r\n\
        Bugs in foo at foo/1: 1\n        1  grave      open  a\n",
    ),
    (
        "POST /branches HTTP/1.1\r\nContent-Length: 26\r\n\r\n{\"branch\":[\"foo/2\",\"foo\"]}",
        "HTTP/1.1 400 Bad Request\r\nConnection: close\r\nContent-Length: 23\r\n\
        Content-Type: application/json\r\n\r\n{\"error\":\"bad version\"}",
    ),
];

/// A report without a version.
pub(crate) const REPORT: &str = "POST /bugs HTTP/1.1\r\nContent-Length: 62\r\n\r\n\
    {\"from\":\"ann\",\"package\":\"foo\",\"severity\":\"normal\",\"title\":\"a\"}";

/// The answer to the first report.
pub(crate) const FIRST_BUG: &str = "HTTP/1.1 201 Created\r\nConnection: close\r\n\
    Content-Length: 9\r\nContent-Type: application/json\r\n\r\n{\"bug\":1}";

/// The answer to what a store that fails leaves undone.
pub(crate) const STORE_FAULT: &str = "HTTP/1.1 500 Internal Server Error\r\nConnection: close\r\n\
    Content-Length: 23\r\nContent-Type: application/json\r\n\r\n{\"error\":\"store fault\"}";

/// The answer to a request that is cut.
pub(crate) const BAD_REQUEST: &str =
    "HTTP/1.1 400 Bad Request\r\nConnection: close\r\nContent-Length: 23\r\n\
    Content-Type: application/json\r\n\r\n{\"error\":\"bad request\"}";

// Requests that change nothing.
const QUESTIONS: [&str; 3] = [
    "GET /bugs/1 HTTP/1.1\r\n\r\n",
    "GET /bugs/2 HTTP/1.1\r\n\r\n",
    "GET /list/foo/1 HTTP/1.1\r\n\r\n",
];

/// Serves a request, and adds what is written.
pub(crate) fn serve<S: Records>(
    alloc: Global,
    store: &mut S,
    request: &str,
    written: &mut Vec<u8>,
) {
    let _ = serve_into(alloc, store, request.as_bytes(), written);
}

/// The status that is told of an exchange, where an answer is.
pub(crate) fn status_told(told: &Result<Served, ServeFault>) -> Option<u16> {
    match told {
        Ok(Served::Answered(status)) => Some(status.as_u16()),
        _ => None,
    }
}

/// Whether a request is answered so.
pub(crate) fn answers<S: Records>(
    alloc: Global,
    store: &mut S,
    request: &str,
    answer: &str,
) -> bool {
    let mut written = Vec::new(alloc);
    serve(alloc, store, request, &mut written);
    written.as_slice() == answer.as_bytes()
}

/// A desk that has had so many of the exchanges.
pub(crate) fn desk_after(alloc: Global, count: usize) -> PlainDesk {
    let mut desk = PlainDesk::new(alloc, 1);
    let mut written = Vec::new(alloc);
    for (request, _) in EXCHANGES.iter().take(count) {
        serve(alloc, &mut desk, request, &mut written);
    }
    desk
}

// What a desk answers to the questions.
fn shown(alloc: Global, desk: &mut PlainDesk) -> Vec<u8> {
    let mut written = Vec::new(alloc);
    for request in QUESTIONS {
        serve(alloc, desk, request, &mut written);
    }
    written
}

/// Whether a desk shows what it shows after so many of the exchanges.
pub(crate) fn is_after(alloc: Global, desk: &mut PlainDesk, count: usize) -> bool {
    let mut other = desk_after(alloc, count);
    let first = shown(alloc, desk);
    let second = shown(alloc, &mut other);
    desk.next() == other.next() && first.as_slice() == second.as_slice()
}

#[test]
fn the_exchanges_have_their_answers(rt: HostRuntime) {
    let alloc = rt.alloc();
    let mut desk = PlainDesk::new(alloc, 1);
    for (request, answer) in EXCHANGES.iter() {
        assert!(rt; answers(alloc, &mut desk, request, answer), "{request}");
    }
}
