//! Connections, one after another.

ghost use Rattle.http_answers.specs.Stored.{stored};
ghost use Rattle.desk_http.specs.Serving.{TakesTurn, IsServing};

use crate::connection::{drain_connection, serve_within};
use crate::listening::Listens;
use crate::port::ServerFault;
use http_bytes::Limits;
use std::alloc::Global;
use std::io::{Read, Write};
use std::time::Clock;
use store_contract::Records;

// Accepts a connection, serves it and ends it, if one could be accepted.
fn serve_next<C, S: Records, R, W, L: Listens<R, W>>(
    clock: C,
    alloc: Global,
    store: &mut S,
    listener: &mut L,
)
where
    C: Clock + Copy + Drop,
    R: Read + Limits + Drop,
    W: Write + Limits + Drop,
    ensures { TakesTurn S.is_kept S.is_honest S.leaves (stored S.desk S.keeping) S.faults L.clients store.old store.new listener.old listener.new }
{
    let Some(connection) = listener.next_connection() else {
        return;
    };
    let (served, connection) = serve_within(clock, alloc, store, connection);
    let connection = drain_connection(clock, &served, connection);
    listener.end_connection(connection);
}

/// Serves so many connections of a listener, one after another.
///
/// A connection that can't be accepted, or whose exchange fails, counts like any other, so a client
/// that goes away ends nothing but its own exchange.
/// A client that says nothing keeps the others waiting for 1 second, one that sends its request
/// slowly for less than 10, and one that takes its answer slowly for 5, and one more for each whole
/// 1,000,000 bytes of the answer that it took.
/// After an answer the server writes no more, and reads what the client still sends, for 1 second a
/// read and 4 in all, and at most 16,777,216 bytes, so that the answer is not lost.
/// These are this project's own rules.
/// Over a listener whose clients are known, each was sent its answer, and nothing else.
/// Which bytes a socket gives and takes, and how long anything takes, is not proved.
///
/// # Errors
///
/// `Store` where the count of the store's faults rose, right after the exchange that raised it; no
/// other.
pub fn serve_connections<C: Clock, S: Records, R, W, L: Listens<R, W>>(
    clock: &C,
    alloc: Global,
    store: &mut S,
    listener: &mut L,
    count: u64,
) -> Result<(), ServerFault>
where
    R: Read + Limits + Drop,
    W: Write + Limits + Drop,
    ensures { IsServing S.is_kept S.is_honest S.leaves (stored S.desk S.keeping) S.faults count store.old store.new
        (L.clients listener.old) (L.clients listener.new) result }
{
    let before = store.faults();
    for done in 0..count {
        serve_next(clock, alloc, store, listener);
        if before < store.faults() {
            return Err(ServerFault::Store);
        }
    }
    Ok(())
}
