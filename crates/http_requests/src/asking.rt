//! What a request asks, out of its head and its body.

ghost use Rattle.std.specs.Prelude.{◌≡◌, ◌≤◌, ◌++◌, Err, length, map, drop, is_ok, IfOk, IsTrue, All};
ghost use Rattle.httparse.specs.Grammar.{RequestHead};
ghost use Rattle.httparse.specs.Spans.{IsHeaderWithin, header_bytes, IsRequestWithin, IsRequestAt};
ghost use Rattle.http_requests.specs.Requests.{IsGoodAsked};
ghost use Rattle.http_requests.specs.Shown.{asked};
ghost use Rattle.http_routes.specs.Routes.{route};
ghost use Rattle.http_routes.specs.Shown.{found_shown};
ghost use Rattle.http_bytes.specs.Body.{body_of, size_told, TakesBody};
ghost use Rattle.http_bytes.specs.Found.{HadBytes};
ghost use Rattle.http_bytes.specs.Headers.{body_length};
ghost use Rattle.http_requests.specs.Asking.{asked_at, asked_by, asked_with, asked_of};
ghost use Rattle.http_requests.specs.Refused.{IfAsked};
ghost use Rattle.http_requests.specs.Memory.{takes_memory_at, takes_memory_by, takes_memory};
ghost use Rattle.http_requests.specs.Taken.{size_at, size_by, size_of};

use crate::bodies::ask_body;
use crate::fault::AskFault;
use crate::paths::{ask_list, ask_page, route_of};
use crate::refusal::RequestRefusal;
use crate::request::Request;
use http_bytes::read_body;
use http_routes::{Found, Route, RouteTable, method, path};
use httparse::spans::{HeaderSpan, RequestSpans};
use std::alloc::Global;
use std::io::Read;

// What is asked at a route by its body.
fn ask_with_body<R: Read>(
    alloc: Global,
    reader: &mut R,
    buf: &[u8],
    headers: &[HeaderSpan],
    start: usize,
    route: Route,
) -> Result<Request, AskFault>
    requires within { All (IsHeaderWithin (length buf.now)) headers.now }
    requires started { start ≤ length buf.now }
    ensures asks { IfAsked result (λ asked. HadBytes (R.remaining reader.old) (λ more. asked
        ≡ asked_with route (body_of (map (header_bytes buf.now) headers.now) (drop start buf.now ++ more)))) }
    ensures sender { IfOk result (λ request. IsGoodAsked (asked request)) }
    ensures memory { result ≡ Err AskFault.Memory → IsTrue (is_ok (body_length (map (header_bytes buf.now) headers.now))) }
    ensures taken { TakesBody (size_told (body_length (map (header_bytes buf.now) headers.now)))
        (drop start buf.now) (R.remaining reader.old) (R.remaining reader.new) }
{
    let body = read_body(alloc, reader, buf, headers, start)?;
    ask_body(alloc, route, body.as_slice())
}

// What is asked at a route by its own method.
fn ask_at<R: Read>(
    alloc: Global,
    reader: &mut R,
    buf: &[u8],
    headers: &[HeaderSpan],
    start: usize,
    found: Found<'_>,
) -> Result<Request, AskFault>
    requires within { All (IsHeaderWithin (length buf.now)) headers.now }
    requires started { start ≤ length buf.now }
    ensures asks { IfAsked result (λ asked. HadBytes (R.remaining reader.old) (λ more. asked
        ≡ asked_at (found_shown found.entry) (map (header_bytes buf.now) headers.now) (drop start buf.now ++ more))) }
    ensures sender { IfOk result (λ request. IsGoodAsked (asked request)) }
    ensures memory { result ≡ Err AskFault.Memory
        → IsTrue (takes_memory_at (route (found_shown found.entry)) (map (header_bytes buf.now) headers.now)) }
    ensures taken { TakesBody (size_at (route (found_shown found.entry)) (map (header_bytes buf.now) headers.now))
        (drop start buf.now) (R.remaining reader.old) (R.remaining reader.new) }
{
    match found {
        Found::Bug(number) => ask_page(alloc, number),
        Found::List(parts) => ask_list(alloc, parts),
        Found::Bugs => ask_with_body(alloc, reader, buf, headers, start, Route::Bugs),
        Found::Control => ask_with_body(alloc, reader, buf, headers, start, Route::Control),
        Found::Branches => ask_with_body(alloc, reader, buf, headers, start, Route::Branches),
    }
}

// What is asked of a target by this method.
fn ask_target<R: Read>(
    alloc: Global,
    routes: &RouteTable,
    reader: &mut R,
    buf: &[u8],
    headers: &[HeaderSpan],
    start: usize,
    method_asked: &[u8],
    target: &[u8],
) -> Result<Request, AskFault>
    requires within { All (IsHeaderWithin (length buf.now)) headers.now }
    requires started { start ≤ length buf.now }
    ensures asks { IfAsked result (λ asked. HadBytes (R.remaining reader.old) (λ more. asked
        ≡ asked_by method_asked.now target.now (map (header_bytes buf.now) headers.now) (drop start buf.now ++ more))) }
    ensures sender { IfOk result (λ request. IsGoodAsked (asked request)) }
    ensures memory { result ≡ Err AskFault.Memory
        → IsTrue (takes_memory_by method_asked.now target.now (map (header_bytes buf.now) headers.now)) }
    ensures taken { TakesBody (size_by method_asked.now target.now (map (header_bytes buf.now) headers.now))
        (drop start buf.now) (R.remaining reader.old) (R.remaining reader.new) }
{
    let Some(found) = route_of(routes, path(target)) else {
        return Err(AskFault::Refused(RequestRefusal::NotFound));
    };
    let route = found.route();
    if method_asked != method(route).as_bytes() {
        return Err(AskFault::Refused(RequestRefusal::NotAllowed(route)));
    }
    ask_at(alloc, reader, buf, headers, start, found)
}

/// What a request asks whose head the buffer has, with what else has come; its body is read as far
/// as its route and its headers ask for.
/// The bytes after the body are not looked at.
///
/// # Errors
///
/// `Refused` where the request is refused; `Memory` where there was none for a part of the path, or
/// for the body and what it holds, so never where there is no route, or another method, or a length
/// that is not taken; `Read` where a read failed before the body was whole.
pub fn ask<R: Read>(
    alloc: Global,
    routes: &RouteTable,
    reader: &mut R,
    buf: &[u8],
    headers: &[HeaderSpan],
    spans: RequestSpans,
) -> Result<Request, AskFault>
    requires { IsRequestWithin buf.now headers.now spans }
    ensures asks { IfAsked result (λ asked. (head : RequestHead) → IsRequestAt buf.now headers.now spans head
        → HadBytes (R.remaining reader.old) (λ more. asked ≡ asked_of head (drop spans.len buf.now ++ more))) }
    ensures sender { IfOk result (λ request. IsGoodAsked (asked request)) }

    // A request that its head refuses takes no memory.
    ensures memory { result ≡ Err AskFault.Memory
        → (head : RequestHead) → IsRequestAt buf.now headers.now spans head → IsTrue (takes_memory head) }
    ensures taken { (head : RequestHead) → IsRequestAt buf.now headers.now spans head
        → TakesBody (size_of head) (drop spans.len buf.now) (R.remaining reader.old) (R.remaining reader.new) }
{
    let method_asked = spans.method.of(buf);
    let target = spans.path.of(buf);
    let headers = &headers[..spans.headers];
    ask_target(
        alloc,
        routes,
        reader,
        buf,
        headers,
        spans.len,
        method_asked,
        target,
    )
}
