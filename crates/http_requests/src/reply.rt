//! An answer, as it is to be written.

ghost use Rattle.std.specs.Prelude.{◌≡◌, string_bytes};
ghost use Rattle.http_requests.specs.Answer.{json_answer, page_answer};
ghost use Rattle.http_requests.specs.Answer.{not_found as not_found_answer};
ghost use Rattle.http_requests.specs.Told.{IsTold};
ghost use Rattle.http_requests.specs.Shown.{media_of, body_of, shown};
ghost use Rattle.http_requests.specs.Steps.{Fails, Gives};

use base_faults::StoreFault;
use http::StatusCode;

/// What stands in an answer.
#[derive(Drop)]
pub enum Body {
    /// A JSON text that is known beforehand, so that it takes no memory.
    Fixed(&'static str),
    /// Another JSON text.
    Json(String),
    /// A page or a list.
    Page(Vec<u8>),
}

impl Body {
    /// The bytes of the body.
    pub fn bytes(&self) -> &[u8]
        ensures { result.now ≡ body_of self.now }
    {
        match self {
            Body::Fixed(text) => text.as_bytes(),
            Body::Json(text) => text.as_bytes(),
            Body::Page(text) => text.as_slice(),
        }
    }

    /// What `Content-Type` says of the body.
    pub fn media(&self) -> &'static str
        ensures { result.now ≡ media_of self.now }
    {
        match self {
            Body::Fixed(_) => "application/json",
            Body::Json(_) => "application/json",
            Body::Page(_) => "text/plain; charset=utf-8",
        }
    }
}

/// An answer, and the fault of the store that was met, if one was.
#[derive(Drop)]
pub struct Reply {
    pub status: StatusCode,
    /// The method that a 405 allows.
    pub allow: Option<&'static str>,
    pub body: Body,
    /// The fault that was met; out of memory, wherever it was met, is `Memory`.
    pub fault: Option<StoreFault>,
}

// A JSON text.
pub fn json_reply(status: StatusCode, text: String) -> Reply
    ensures { Gives (json_answer status (string_bytes text)) result }
{
    Reply {
        status,
        allow: None,
        body: Body::Json(text),
        fault: None,
    }
}

// A page or a list.
pub fn page_reply(text: Vec<u8>) -> Reply
    ensures is { Gives (page_answer text.items) result }
    ensures told { IsTold result.fault (shown result) }
{
    Reply {
        status: StatusCode::OK,
        allow: None,
        body: Body::Page(text),
        fault: None,
    }
}

/// What is asked for isn't there: 404, `{"error":"not found"}`.
/// It takes no memory.
pub fn not_found() -> Reply
    ensures is { Gives not_found_answer result }
    ensures told { IsTold result.fault (shown result) }
{
    Reply {
        status: StatusCode::NOT_FOUND,
        allow: None,
        body: Body::Fixed("{\"error\":\"not found\"}"),
        fault: None,
    }
}

/// This fault was met: 500, `{"error":"store fault"}`.
/// It takes no memory.
pub fn store_fault(fault: StoreFault) -> Reply
    ensures is { Fails fault result }
    ensures told { IsTold result.fault (shown result) }
{
    Reply {
        status: StatusCode::INTERNAL_SERVER_ERROR,
        allow: None,
        body: Body::Fixed("{\"error\":\"store fault\"}"),
        fault: Some(fault),
    }
}
