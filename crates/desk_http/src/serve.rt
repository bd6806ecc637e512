//! One connection.

ghost use Rattle.std.specs.Prelude.{◌≡◌, ◌≢◌, [], drop, None, Ok, Err, IfOk, IfErr, IfSome};
ghost use Rattle.std.specs.Io.KnownBytes.{Appends};
ghost use Rattle.httparse.specs.Grammar.{RequestHead};
ghost use Rattle.httparse.specs.Spans.{IsRequestAt, IsRequestWithin};
ghost use Rattle.http_bytes.specs.Body.{TakesBody};
ghost use Rattle.http_bytes.specs.Head.{HasNoHead};
ghost use Rattle.store_contract.specs.Store.{Holds};
ghost use Rattle.http_requests.specs.Answer.{answer_bytes};
ghost use Rattle.http_requests.specs.Shown.{shown};
ghost use Rattle.http_answers.specs.Stored.{stored};
ghost use Rattle.http_requests.specs.Asking.{bad_request};
ghost use Rattle.desk_http.specs.Exchange.{IsServed, IsCounted, TellsFault};
ghost use Rattle.desk_http.specs.Crashes.{LeavesHead, LeavesExchanged, LeavesServed, fault_told};
ghost use Rattle.desk_http.specs.Steps.{IsHeadAnswered, IsHeadCounted, IsExchanged, IsExchangeCounted, IsGiven};
ghost use Rattle.http_requests.specs.Taken.{TakesRequest, size_of};

use crate::answering::answer_request;
use base_faults::StoreFault;
use http::StatusCode;
use http_bytes::{Head, MAX_HEAD, MAX_HEADERS, read_head};
use http_requests::{AskFault, Reply, RequestRefusal, ask, refuse, store_fault, write_reply};
use http_routes::RouteTable;
use httparse::spans::{EMPTY_HEADER_SPAN, HeaderSpan, RequestSpans};
use std::alloc::Global;
use std::io::{Read, Write};
use store_contract::Records;
use thiserror::Error;

/// How a connection was served.
#[derive(Clone, Copy, Drop)]
pub enum Served {
    /// An answer of this status was written.
    Answered(StatusCode),
    /// The input ended before its first byte, and nothing was written.
    Closed,
}

/// Why a connection was not served.
#[derive(Clone, Copy, Debug, PartialEq, Eq, Drop, Error)]
pub enum ServeFault {
    /// A read failed, an interrupted one too: nothing was written, and nothing has changed.
    #[error("the request could not be read")]
    Read,
    /// A write failed, an interrupted one too, or took no byte: the request was carried out as far
    /// as its answer says.
    #[error("the answer could not be written")]
    Write,
}

// Answers the request whose head the buffer has, with what else has come, out of a table of the
// routes that is made: so what its head refuses, for want of a route, for its method or for its
// length, is so refused whatever memory there is.
// The error is `Read`, where a read failed.
fn answer_head<S: Records, R: Read>(
    alloc: Global,
    routes: &RouteTable,
    store: &mut S,
    reader: &mut R,
    buf: &[u8],
    headers: &[HeaderSpan],
    spans: RequestSpans,
) -> Result<Reply, ServeFault>
    requires { IsRequestWithin buf.now headers.now spans }
    ensures answer { (head : RequestHead) → IsRequestAt buf.now headers.now spans head
        → Holds S.is_kept S.is_honest store.old store.new (IsHeadAnswered head (drop spans.len buf.now) (R.remaining reader.old)
        (stored S.desk S.keeping store.old) (stored S.desk S.keeping store.new) result) }
    ensures count { IsHeadCounted result (S.faults store.old) (S.faults store.new) }
    ensures crash { (head : RequestHead) → IsRequestAt buf.now headers.now spans head
        → Holds S.is_kept S.is_honest store.old store.new (LeavesHead S.leaves store.old store.new head (drop spans.len buf.now)
        (R.remaining reader.old) (fault_told result) (S.desk store.old, S.keeping store.old) (S.desk store.new, S.keeping store.new)) }
    ensures read { IfErr result (λ fault. (fault ≡ ServeFault.Read) × (store.new ≡ store.old)) }
    ensures taken { (head : RequestHead) → IsRequestAt buf.now headers.now spans head
        → TakesBody (size_of head) (drop spans.len buf.now) (R.remaining reader.old) (R.remaining reader.new) }
{
    match ask(alloc, routes, reader, buf, headers, spans) {
        Ok(request) => Ok(answer_request(alloc, store, &request)),
        Err(AskFault::Refused(refusal)) => Ok(refuse(refusal)),
        Err(AskFault::Memory) => Ok(store_fault(StoreFault::Memory)),
        Err(AskFault::Read) => Err(ServeFault::Read),
    }
}

// Reads one request, carries it out, and makes its answer, which is not written yet; there is none
// where no byte came.
// The error is `Read`, where a read failed.
fn exchange<S: Records, R: Read>(
    alloc: Global,
    store: &mut S,
    reader: &mut R,
) -> Result<Option<Reply>, ServeFault>
    ensures answer { Holds S.is_kept S.is_honest store.old store.new (IsExchanged (R.remaining reader.old)
        (stored S.desk S.keeping store.old) (stored S.desk S.keeping store.new) (S.faults store.old) (S.faults store.new) result) }
    ensures count { IsExchangeCounted result (S.faults store.old) (S.faults store.new) }
    ensures crash { Holds S.is_kept S.is_honest store.old store.new
        (LeavesExchanged S.leaves store.old store.new (R.remaining reader.old) result (S.desk store.old, S.keeping store.old) (S.desk store.new, S.keeping store.new)) }
    ensures closed { IfOk result (λ reply. reply ≡ None → (store.new ≡ store.old)
        × IfSome (R.remaining reader.old) (λ input. input ≡ [])) }
    ensures read { IfErr result (λ fault. (fault ≡ ServeFault.Read) × (store.new ≡ store.old)) }
    ensures wrong { IfSome (R.remaining reader.old) (λ input. input ≢ [] → HasNoHead input
        → (store.new ≡ store.old) × IfOk result (λ reply. IsGiven bad_request reply)) }
    ensures taken { TakesRequest (R.remaining reader.old) (R.remaining reader.new) }
{
    let mut buf = [0; MAX_HEAD];
    let mut headers = [EMPTY_HEADER_SPAN; MAX_HEADERS];
    let Ok(head) = read_head(reader, &mut buf, &mut headers) else {
        return Err(ServeFault::Read);
    };
    let (spans, filled) = match head {
        Head::Nothing => return Ok(None),
        Head::Wrong => return Ok(Some(refuse(RequestRefusal::BadRequest))),
        Head::Complete { spans, filled } => (spans, filled),
    };
    let Ok(routes) = RouteTable::new(alloc) else {
        return Ok(Some(store_fault(StoreFault::Memory)));
    };
    let reply = answer_head(
        alloc,
        &routes,
        store,
        reader,
        &buf[..filled],
        &headers,
        spans,
    )?;
    Ok(Some(reply))
}

/// Serves one connection: reads one request, carries it out, and writes its answer.
///
/// The answer depends on the bytes and the desk, and not on the pieces in which the bytes come.
/// Over a reader whose bytes no contract knows, as a socket, there are some bytes of which the
/// answer, its status and the desk after it are those.
/// A head is read by the grammar of `httparse`, of at most 8,192 bytes and 32 headers, and a body
/// of at most 65,536 bytes; bytes after the body are not looked at.
/// No read is begun once the head is whole, where none of its body is asked for (a GET, a 404, 405,
/// 411, 413, 501 and a wrong length), nor once the head is wrong; and none of a body takes a byte
/// after it.
/// `POST /bugs`, `/control` and `/branches`, `GET /bugs/{n}` and `/list/{package}/{version}` are
/// answered 200, 201, or 400 or 404 where they are refused, and a message 409 whose id stands for
/// another; what is no such request is answered 400
/// for its head, 404, 405, 501, 411, 400 or 413 for its length, or 400 for its body, in this order.
/// A head that is wrong is answered 400, whatever the store, and takes no memory.
/// Where the store fails, or there is no memory, the answer is 500, and nothing has changed, except
/// that of a control message some lines from the first, or all, may have been taken.
/// A 404 for want of a route, 405, 411, 413, 501 and a 400 for a wrong length take no memory but
/// for the table of the routes, which is made once the head is read: they are 500 only where there
/// is none for that table.
/// Where a crash as the call began left what the store held alone, a crash as it returns leaves
/// what is held then, or, after a 500 or a failed write, what would be held after one line more.
/// These are this project's own rules.
/// Unlike RFC 9110 and RFC 9112, no `Host` is asked for, an absolute target has no route, `HEAD` is
/// another method, whose 405 has a body, `Expect` is not looked at, and no `Date` is sent.
///
/// # Errors
///
/// `Read` where a read failed; `Write` where the answer could not be written.
pub fn serve_one<S: Records, R: Read, W: Write>(
    alloc: Global,
    store: &mut S,
    reader: &mut R,
    writer: &mut W,
) -> Result<Served, ServeFault>
    ensures answer { Holds S.is_kept S.is_honest store.old store.new (IsServed (R.remaining reader.old)
        (stored S.desk S.keeping store.old) (stored S.desk S.keeping store.new) (S.faults store.old) (S.faults store.new)
        (W.contents writer.old) (W.contents writer.new) result) }
    ensures count { IsCounted result (S.faults store.old) (S.faults store.new) }
    ensures told { TellsFault result (S.faults store.old) (S.faults store.new) (W.contents writer.old) (W.contents writer.new) }
    ensures crash { Holds S.is_kept S.is_honest store.old store.new
        (LeavesServed S.leaves store.old store.new (R.remaining reader.old) result (S.desk store.old, S.keeping store.old) (S.desk store.new, S.keeping store.new)) }

    // No byte came: nothing is written, and the store is not called.
    ensures closed { result ≡ Ok Served.Closed → (store.new ≡ store.old)
        × (W.contents writer.new ≡ W.contents writer.old) × IfSome (R.remaining reader.old) (λ input. input ≡ []) }
    ensures read { result ≡ Err ServeFault.Read → (store.new ≡ store.old)
        × (W.contents writer.new ≡ W.contents writer.old) }

    // A wrong head is answered 400, and the store is not called.
    ensures wrong { IfSome (R.remaining reader.old) (λ input. input ≢ [] → HasNoHead input
        → (store.new ≡ store.old) × IfOk result (λ served. (served ≡ Served.Answered 400)
        × Appends (W.contents writer.old) (W.contents writer.new) (answer_bytes bad_request))) }

    // However it ends, what is read ends with the head, or with the body that its head asks for.
    ensures taken { TakesRequest (R.remaining reader.old) (R.remaining reader.new) }
{
    let Some(reply) = exchange(alloc, store, reader)? else {
        return Ok(Served::Closed);
    };
    match write_reply(writer, &reply) {
        Ok(()) => Ok(Served::Answered(reply.status)),
        Err(_) => Err(ServeFault::Write),
    }
}
