//! What desks answer to requests.

use desk_http::{ServeFault, Served, serve_one};
use desk_run::Records;
use std::alloc::Global;

/// Serves a request, and adds what is written to a text.
pub fn serve_into<S: Records>(
    alloc: Global,
    store: &mut S,
    request: &[u8],
    text: &mut Vec<u8>,
) -> Result<Served, ServeFault> {
    let mut reader = request;
    serve_one(alloc, store, &mut reader, text)
}
