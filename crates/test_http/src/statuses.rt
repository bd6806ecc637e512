//! The status that is told of an answer.

use crate::exchanges::{REPORT, status_told};
use memory_desk::PlainDesk;
use std::alloc::Global;
use test_doubles::serve_into;

// Requests to a new desk, one for each status, and the first lines of their answers.
const STATUSES: [(&str, u16, &str); 8] = [
    (
        "GET /list/foo/1 HTTP/1.1\r\n\r\n",
        200,
        "HTTP/1.1 200 OK\r\n",
    ),
    (REPORT, 201, "HTTP/1.1 201 Created\r\n"),
    ("GET\r\n\r\n", 400, "HTTP/1.1 400 Bad Request\r\n"),
    ("GET /x HTTP/1.1\r\n\r\n", 404, "HTTP/1.1 404 Not Found\r\n"),
    (
        "GET /bugs HTTP/1.1\r\n\r\n",
        405,
        "HTTP/1.1 405 Method Not Allowed\r\n",
    ),
    (
        "POST /bugs HTTP/1.1\r\n\r\n",
        411,
        "HTTP/1.1 411 Length Required\r\n",
    ),
    (
        "POST /bugs HTTP/1.1\r\nContent-Length: 65537\r\n\r\n",
        413,
        "HTTP/1.1 413 Payload Too Large\r\n",
    ),
    (
        "POST /bugs HTTP/1.1\r\nTransfer-Encoding: chunked\r\n\r\n",
        501,
        "HTTP/1.1 501 Not Implemented\r\n",
    ),
];

// The status that is told of a request to a new desk, where its answer begins with this line.
fn status_of(alloc: Global, request: &str, line: &str) -> Option<u16> {
    let mut desk = PlainDesk::new(alloc, 1);
    let mut written = Vec::new(alloc);
    let told = serve_into(alloc, &mut desk, request.as_bytes(), &mut written);
    if !written.starts_with(line.as_bytes()) {
        return None;
    }
    status_told(&told)
}

#[test]
fn the_status_that_is_told_is_the_one_written(rt: HostRuntime) {
    for (request, status, line) in STATUSES.iter() {
        assert!(rt;
            status_of(rt.alloc(), request, line) == Some(*status),
            "{line}"
        );
    }
}
