//! Why a request is refused before it is carried out.

ghost use Rattle.std.specs.Prelude.{◌≡◌, Some, option_map};
ghost use Rattle.http_routes.specs.Routes.{method};
ghost use Rattle.http_requests.specs.Answer.{json_answer};
ghost use Rattle.http_requests.specs.Told.{IsTold};
ghost use Rattle.http_requests.specs.Shown.{shown};
ghost use Rattle.http_requests.specs.Steps.{Gives};
ghost use Rattle.http_requests.specs.Asking.{bad_request, body_refused, not_allowed};
ghost use Rattle.http_requests.specs.Refused.{refused};

use crate::reply::{Body, Reply, not_found};
use http::StatusCode;
use http_bytes::BodyRefusal;
use http_routes::{Route, method};
use thiserror::Error;

/// Why a request is refused.
#[derive(Clone, Copy, Debug, PartialEq, Eq, Error)]
pub enum RequestRefusal {
    /// The head is wrong, or the body says nothing that its route asks for.
    #[error("bad request")]
    BadRequest,
    /// The path has no route, or there is no such bug or list.
    #[error("not found")]
    NotFound,
    /// The route has another method.
    #[error("method not allowed")]
    NotAllowed(Route),
    /// There is no body that can be read.
    #[error(transparent)]
    BodyRefused(BodyRefusal),
}

// A refusal with a text that is known beforehand.
fn fixed(status: StatusCode, text: &'static str) -> Reply
    ensures { Gives (json_answer status text.entry.now) result }
{
    Reply {
        status,
        allow: None,
        body: Body::Fixed(text),
        fault: None,
    }
}

fn bad_request() -> Reply
    ensures { Gives bad_request result }
{
    fixed(StatusCode::BAD_REQUEST, "{\"error\":\"bad request\"}")
}

// The route has another method, which `Allow` names.
fn not_allowed(route: Route) -> Reply
    ensures { Gives (not_allowed route) result }
{
    Reply {
        status: StatusCode::METHOD_NOT_ALLOWED,
        allow: Some(method(route)),
        body: Body::Fixed("{\"error\":\"method not allowed\"}"),
        fault: None,
    }
}

// The refusal of a request by that of its body.
fn body_refused(refusal: BodyRefusal) -> Reply
    ensures { Gives (body_refused refusal) result }
{
    match refusal {
        BodyRefusal::NotImplemented => {
            fixed(
                StatusCode::NOT_IMPLEMENTED,
                "{\"error\":\"not implemented\"}",
            )
        }
        BodyRefusal::LengthRequired => {
            fixed(
                StatusCode::LENGTH_REQUIRED,
                "{\"error\":\"length required\"}",
            )
        }
        BodyRefusal::BadRequest => bad_request(),
        BodyRefusal::TooLarge => fixed(StatusCode::PAYLOAD_TOO_LARGE, "{\"error\":\"too large\"}"),
    }
}

/// The answer to a request that is refused.
/// It takes no memory.
pub fn refuse(refusal: RequestRefusal) -> Reply
    ensures is { Gives (refused refusal) result }
    ensures told { IsTold result.fault (shown result) }
{
    match refusal {
        RequestRefusal::BadRequest => bad_request(),
        RequestRefusal::NotFound => not_found(),
        RequestRefusal::NotAllowed(route) => not_allowed(route),
        RequestRefusal::BodyRefused(refusal) => body_refused(refusal),
    }
}
