//! One connection of a server.

ghost use Rattle.std.specs.Prelude.{◌≡◌, ◌≢◌, [], Ok, Err, IfOk, IfSome};
ghost use Rattle.std.specs.Io.KnownBytes.{Appends};
ghost use Rattle.store_contract.specs.Store.{Holds};
ghost use Rattle.http_bytes.specs.Head.{HasNoHead};
ghost use Rattle.http_requests.specs.Answer.{answer_bytes};
ghost use Rattle.http_requests.specs.Asking.{bad_request};
ghost use Rattle.http_requests.specs.Taken.{TakesRequest};
ghost use Rattle.desk_http.specs.Crashes.{LeavesServed};
ghost use Rattle.desk_http.specs.Exchange.{IsServed, IsCounted, TellsFault};
ghost use Rattle.http_answers.specs.Stored.{stored};

use crate::serve::{ServeFault, Served, serve_one};
use http_bytes::{Deadline, Limits, TimedReader, TimedWriter};
use std::alloc::Global;
use std::io::{Read, Write};
use std::time::Clock;
use store_contract::Records;

/// How long a client may be silent before its first byte, in seconds.
/// A browser opens further connections on which it says nothing.
const FIRST_BYTE: u64 = 1;

/// How long a client may take for the head and the body of its request, in seconds.
const REQUEST: u64 = 10;

/// How long a read may take after the answer, in seconds.
const LATE_CALL: u64 = 1;

/// How long the reads after the answer may take in all, in seconds.
const DRAIN: u64 = 4;

/// The most bytes that are read after the answer.
const LATE_BYTES: usize = 16_777_216;

/// The most bytes of a read after the answer.
const PIECE: usize = 8_192;

/// The two ends of a connection.
#[derive(Drop)]
pub struct Connection<R, W> {
    /// What the client sends is read from it.
    pub reader: R,
    /// What the client is sent is written to it.
    pub writer: W,
}

/// Serves one connection within its limits of time, and hands its two ends back.
///
/// All that `serve_one` says of what is answered holds here of the two ends.
/// The first byte has to come within 1 second, and the head and the body within 10 seconds of the
/// call.
/// The answer has 5 seconds from its first write, and one more for each whole 1,000,000 bytes of it
/// that were taken.
/// However a limit ends it, what was written is a beginning of that one answer, and nothing is read
/// that the request does not ask for.
/// These are this project's own rules.
/// How long anything takes is not proved.
///
/// # Errors
///
/// `Read` where a read failed or took too long, or the clock can't be read: no answer is begun, and
/// nothing has changed.
/// `Write` where a write did: the request was carried out as far as its answer says.
pub fn serve_within<C, S: Records, R, W>(
    clock: C,
    alloc: Global,
    store: &mut S,
    connection: Connection<R, W>,
) -> (Result<Served, ServeFault>, Connection<R, W>)
where
    C: Clock + Copy + Drop,
    R: Read + Limits + Drop,
    W: Write + Limits + Drop,
    ensures answer { Holds S.is_kept S.is_honest store.old store.new (IsServed (R.remaining connection.reader)
        (stored S.desk S.keeping store.old) (stored S.desk S.keeping store.new) (S.faults store.old) (S.faults store.new)
        (W.contents connection.writer) (W.contents result.1.writer) result.0) }
    ensures count { IsCounted result.0 (S.faults store.old) (S.faults store.new) }
    ensures told { TellsFault result.0 (S.faults store.old) (S.faults store.new) (W.contents connection.writer) (W.contents result.1.writer) }
    ensures crash { Holds S.is_kept S.is_honest store.old store.new
        (LeavesServed S.leaves store.old store.new (R.remaining connection.reader) result.0 (S.desk store.old, S.keeping store.old) (S.desk store.new, S.keeping store.new)) }

    // No byte came: nothing is written, and the store is not called.
    ensures closed { result.0 ≡ Ok Served.Closed → (store.new ≡ store.old)
        × (W.contents result.1.writer ≡ W.contents connection.writer) × IfSome (R.remaining connection.reader) (λ input. input ≡ []) }
    ensures read { result.0 ≡ Err ServeFault.Read → (store.new ≡ store.old)
        × (W.contents result.1.writer ≡ W.contents connection.writer) }

    // A wrong head is answered 400, and the store is not called.
    ensures wrong { IfSome (R.remaining connection.reader) (λ input. input ≢ [] → HasNoHead input
        → (store.new ≡ store.old) × IfOk result.0 (λ served. (served ≡ Served.Answered 400)
        × Appends (W.contents connection.writer) (W.contents result.1.writer) (answer_bytes bad_request))) }

    // However it ends, what is read ends with the head, or with the body that its head asks for.
    ensures taken { TakesRequest (R.remaining connection.reader) (R.remaining result.1.reader) }
{
    let Ok(deadline) = Deadline::after(&clock, REQUEST) else {
        return (Err(ServeFault::Read), connection);
    };
    let mut reader = TimedReader::new(clock, connection.reader, deadline, FIRST_BYTE, REQUEST);
    let mut writer = TimedWriter::new(clock, connection.writer);
    let served = serve_one(alloc, store, &mut reader, &mut writer);
    let ends = Connection {
        reader: reader.into_inner(),
        writer: writer.into_inner(),
    };
    (served, ends)
}

// Reads what a client still sends, up to its end, an error or the bound, and lets it go.
fn drain<R: Read>(reader: &mut R) {
    let mut piece = [0; PIECE];
    let mut left = LATE_BYTES;
    while left > 0 {
        let most = left.min(PIECE);
        match reader.read(&mut piece[..most]) {
            Ok(0) | Err(_) => return,
            Ok(count) => left -= count,
        }
    }
}

/// Ends a connection that was served so.
/// Where its answer is written, no more is, and what the client still sends is read, for 1 second a
/// read, 4 seconds in all and 16,777,216 bytes, since a connection that is closed with bytes unread
/// may be reset, and the answer lost.
/// These are this project's own rules.
pub fn drain_connection<C, R, W>(
    clock: C,
    served: &Result<Served, ServeFault>,
    connection: Connection<R, W>,
) -> Connection<R, W>
where
    C: Clock + Copy + Drop,
    R: Read + Limits + Drop,
    W: Drop,
    ensures { result.writer ≡ connection.writer }
{
    if served.is_err() || connection.reader.end_writes().is_err() {
        return connection;
    }
    let Ok(deadline) = Deadline::after(&clock, DRAIN) else {
        return connection;
    };
    let mut reader = TimedReader::new(clock, connection.reader, deadline, LATE_CALL, LATE_CALL);
    drain(&mut reader);
    Connection {
        reader: reader.into_inner(),
        writer: connection.writer,
    }
}
