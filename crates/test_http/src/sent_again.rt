//! Messages at which a store fails, over a desk in memory and over one in tables: what was taken is
//! told, with the fault, and the same message goes on after it.

use crate::exchanges::{REPORT, serve};
use base_faults::StoreFault;
use std::alloc::Global;
use store_contract::Records;
use test_doubles::{DeskTask, in_memory_failing, in_tables_failing};

/// A message of three lines.
const MESSAGE: &str = "POST /control HTTP/1.1\r\nContent-Length: 79\r\n\r\n\
    {\"from\":\"ann\",\"message\":\"severity 1 grave\\nseverity 2 grave\\nseverity 3 grave\"}";

/// The same, with an id.
const WITH_ID: &str = "POST /control HTTP/1.1\r\nContent-Length: 89\r\n\r\n\
    {\"from\":\"ann\",\"id\":\"m1\",\
    \"message\":\"severity 1 grave\\nseverity 2 grave\\nseverity 3 grave\"}";

/// All lines were taken.
const TAKEN: &str = "HTTP/1.1 200 OK\r\nConnection: close\r\nContent-Length: 107\r\n\
    Content-Type: application/json\r\n\r\n{\"end\":\"all\",\"transcript\":\
    \"> severity 1 grave\\nOK 1\\n> severity 2 grave\\nOK 2\\n> severity 3 grave\\nOK 3\\n\"}";

/// The first two lines change nothing.
const LAST_TAKEN: &str = "HTTP/1.1 200 OK\r\nConnection: close\r\nContent-Length: 127\r\n\
    Content-Type: application/json\r\n\r\n{\"end\":\"all\",\"transcript\":\
    \"> severity 1 grave\\nOK, no change.\\n> severity 2 grave\\nOK, no change.\\n\
    > severity 3 grave\\nOK 3\\n\"}";

/// The disk failed at the first line, and at the third; or it was full there.
const DEVICE_AT_FIRST: &str = "HTTP/1.1 500 Internal Server Error\r\nConnection: close\r\n\
    Content-Length: 73\r\nContent-Type: application/json\r\n\r\n\
    {\"end\":\"store\",\"transcript\":\"> severity 1 grave\\nStore fault: device.\\n\"}";

const DEVICE_AT_THIRD: &str = "HTTP/1.1 500 Internal Server Error\r\nConnection: close\r\n\
    Content-Length: 125\r\nContent-Type: application/json\r\n\r\n\
    {\"end\":\"store\",\"transcript\":\"> severity 1 grave\\nOK 1\\n> severity 2 grave\\nOK 2\\n\
    > severity 3 grave\\nStore fault: device.\\n\"}";

const FULL_AT_FIRST: &str = "HTTP/1.1 500 Internal Server Error\r\nConnection: close\r\n\
    Content-Length: 71\r\nContent-Type: application/json\r\n\r\n\
    {\"end\":\"store\",\"transcript\":\"> severity 1 grave\\nStore fault: full.\\n\"}";

const FULL_AT_THIRD: &str = "HTTP/1.1 500 Internal Server Error\r\nConnection: close\r\n\
    Content-Length: 123\r\nContent-Type: application/json\r\n\r\n\
    {\"end\":\"store\",\"transcript\":\"> severity 1 grave\\nOK 1\\n> severity 2 grave\\nOK 2\\n\
    > severity 3 grave\\nStore fault: full.\\n\"}";

// A message that is sent twice, after three reports.
#[derive(Clone, Copy)]
struct Twice<'a> {
    request: &'a str,
}

impl DeskTask<Vec<u8>> for Twice<'_> {
    fn run_on<R: Records>(&self, alloc: Global, desk: &mut R, told: &mut Vec<u8>) {
        for _ in 0..3 {
            serve(alloc, desk, REPORT, told);
        }
        told.clear();
        serve(alloc, desk, self.request, told);
        serve(alloc, desk, self.request, told);
    }
}

// Whether a message at whose line the store fails so is told so, and the same once more so, over
// both desks.
// The line is counted from 1; the three reports before it are changes, too.
fn are_told(
    alloc: Global,
    line: u64,
    fault: StoreFault,
    request: &str,
    first: &str,
    second: &str,
) -> bool {
    let task = Twice { request };
    let call = line.saturating_add(3);
    let mut in_memory = Vec::new(alloc);
    let mut in_tables = Vec::new(alloc);
    in_memory_failing(alloc, call, fault, &task, &mut in_memory);
    in_tables_failing(alloc, call, fault, &task, &mut in_tables);
    match format!(in alloc; "{first}{second}") {
        Ok(answers) => {
            in_memory.as_slice() == answers.as_bytes() && in_tables.as_slice() == answers.as_bytes()
        }
        Err(_) => false,
    }
}

// At which line of which message the store fails, how, and how the message is answered, both times.
const FAILURES: [(u64, StoreFault, &str, &str, &str); 8] = [
    (1, StoreFault::Device, MESSAGE, DEVICE_AT_FIRST, TAKEN),
    (1, StoreFault::Full, MESSAGE, FULL_AT_FIRST, TAKEN),
    (1, StoreFault::Device, WITH_ID, DEVICE_AT_FIRST, TAKEN),
    (1, StoreFault::Full, WITH_ID, FULL_AT_FIRST, TAKEN),
    (3, StoreFault::Device, MESSAGE, DEVICE_AT_THIRD, LAST_TAKEN),
    (3, StoreFault::Full, MESSAGE, FULL_AT_THIRD, LAST_TAKEN),
    (3, StoreFault::Device, WITH_ID, DEVICE_AT_THIRD, TAKEN),
    (3, StoreFault::Full, WITH_ID, FULL_AT_THIRD, TAKEN),
];

#[test]
fn a_fault_at_a_line_is_told_with_the_transcript_up_to_it(rt: HostRuntime) {
    for (line, fault, request, first, second) in FAILURES.iter() {
        assert!(rt;
            are_told(rt.alloc(), *line, *fault, request, first, second),
            "{line} {first}"
        );
    }
}
