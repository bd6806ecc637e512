//! What the body of a request asks.

ghost use Rattle.std.specs.Prelude.{◌≡◌, IfOk, map, option_map, string_bytes};
ghost use Rattle.serde_json.specs.View.{view};
ghost use Rattle.base_words.specs.Texts.{IsText};
ghost use Rattle.http_routes.specs.Shown.{report_shown, control_shown, texts_shown};
ghost use Rattle.http_requests.specs.Requests.{IsGoodAsked};
ghost use Rattle.http_requests.specs.Shown.{asked, report_asked, message_asked};
ghost use Rattle.http_routes.specs.Members.{control_members, id_member};
ghost use Rattle.http_requests.specs.Asking.{is_good_asked, control_asked, posted, members_of, asked_by_body};
ghost use Rattle.http_requests.specs.Refused.{asks, IfAsked};

use crate::fault::AskFault;
use crate::refusal::RequestRefusal;
use crate::request::{MessageRequest, OnceRequest, ReportRequest, Request};
use base_words::{is_id, is_text};
use http_routes::{
    ControlMembers, ReportMembers, Route, branch_member, control_members, id_member, parse,
    report_members,
};
use serde_json::Value;
use std::alloc::{AllocError, Global};

// A version, where one is given.
fn copy_version(alloc: Global, version: Option<&str>) -> Result<Option<String>, AllocError>
    ensures { IfOk result (λ copy. option_map string_bytes copy ≡ option_map (λ s. s.now) version.entry) }
{
    match version {
        Some(version) => Ok(Some(String::from_str(alloc, version)?)),
        None => Ok(None),
    }
}

// The members of a report, kept.
fn keep_report(alloc: Global, members: ReportMembers<'_>) -> Result<ReportRequest, AllocError>
    ensures { IfOk result (λ request. report_asked request ≡ report_shown members.entry) }
{
    Ok(ReportRequest {
        from: String::from_str(alloc, members.from)?,
        package: String::from_str(alloc, members.package)?,
        severity: String::from_str(alloc, members.severity)?,
        title: String::from_str(alloc, members.title)?,
        version: copy_version(alloc, members.version)?,
    })
}

// The members of a control message, kept.
fn keep_message(alloc: Global, members: ControlMembers<'_>) -> Result<MessageRequest, AllocError>
    ensures { IfOk result (λ request. message_asked request ≡ control_shown members.entry) }
{
    Ok(MessageRequest {
        from: String::from_str(alloc, members.from)?,
        message: String::from_str(alloc, members.message)?,
    })
}

// The words of a branch, kept.
fn keep_words(alloc: Global, words: &[&str]) -> Result<Vec<String>, AllocError>
    ensures { IfOk result (λ kept. map string_bytes kept.items ≡ map (λ s. s.now) words.now) }
{
    let mut kept = Vec::new(alloc);
    for word in words {
        kept.push(String::from_str(alloc, word)?)?;
    }
    Ok(kept)
}

// The control message of a value's members, with its id if it has one.
fn control_of(alloc: Global, value: &Value) -> Result<Option<Request>, AllocError>
    ensures { IfOk result (λ request. option_map asked request
        ≡ control_asked (control_members (view value.now)) (id_member (view value.now))) }
{
    let Some(members) = control_members(value) else {
        return Ok(None);
    };
    let Some(id) = id_member(value) else {
        return Ok(None);
    };
    let message = keep_message(alloc, members)?;
    match id {
        Some(id) => {
            let id = String::from_str(alloc, id)?;
            Ok(Some(Request::Once(OnceRequest { id, message })))
        }
        None => Ok(Some(Request::Message(message))),
    }
}

// What the members of a value ask at a route; at one without a body, nothing.
fn request_of(alloc: Global, route: Route, value: &Value) -> Result<Option<Request>, AllocError>
    ensures { IfOk result (λ request. option_map asked request ≡ members_of route (view value.now)) }
{
    match route {
        Route::Bugs => match report_members(value) {
            Some(members) => Ok(Some(Request::Report(keep_report(alloc, members)?))),
            None => Ok(None),
        },
        Route::Control => control_of(alloc, value),
        Route::Branches => match branch_member(alloc, value)? {
            Some(words) => Ok(Some(Request::Branch(keep_words(alloc, words.as_slice())?))),
            None => Ok(None),
        },
        Route::Bug | Route::List => Ok(None),
    }
}

// Whether the sender, if there is one, is a text of 1 to 200 bytes, and an id is one.
fn is_good_asked(request: &Request) -> bool
    ensures { result ≡ is_good_asked (asked request.now) }
{
    match request {
        Request::Report(report) => is_text(report.from.as_str()),
        Request::Message(message) => is_text(message.from.as_str()),
        Request::Once(once) => is_id(once.id.as_str()) && is_text(once.message.from.as_str()),
        Request::Branch(_) => true,
        Request::Page(_) => true,
        Request::ListOf(_) => true,
    }
}

// The request, where there is one, its sender is good, and an id is one.
fn posted(request: Option<Request>) -> Result<Request, RequestRefusal>
    ensures asks { asks result ≡ posted (option_map asked request) }
    ensures sender { IfOk result (λ request. IsGoodAsked (asked request)) }
{
    match request {
        Some(request) => {
            if is_good_asked(&request) {
                Ok(request)
            } else {
                Err(RequestRefusal::BadRequest)
            }
        }
        None => Err(RequestRefusal::BadRequest),
    }
}

/// What a body asks at a route.
///
/// # Errors
///
/// `Refused` where it asks nothing there; `Memory` where there is none for what it asks.
#[tactic(auto, unfolding(crate::specs::Asking::asked_by_body))]
pub(crate) fn ask_body(alloc: Global, route: Route, body: &[u8]) -> Result<Request, AskFault>
    ensures asks { IfAsked result (λ asked. asked ≡ asked_by_body route body.now) }
    ensures sender { IfOk result (λ request. IsGoodAsked (asked request)) }
{
    let Some(value) = parse(alloc, body)? else {
        return Err(AskFault::Refused(RequestRefusal::BadRequest));
    };
    Ok(posted(request_of(alloc, route, &value)?)?)
}
