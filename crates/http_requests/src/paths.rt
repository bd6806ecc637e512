//! What the path of a request asks.

ghost use Rattle.std.specs.Prelude.{◌≡◌, IfOk, option_map, string_bytes};
ghost use Rattle.http_routes.specs.Shown.{found_shown};
ghost use Rattle.http_requests.specs.Requests.{IsGoodAsked};
ghost use Rattle.http_requests.specs.Shown.{asked};
ghost use Rattle.http_requests.specs.Asking.{page_by, list_by, route_of};
ghost use Rattle.http_requests.specs.Refused.{IfAsked};

use crate::fault::AskFault;
use crate::refusal::RequestRefusal;
use crate::request::{ListRequest, Request};
use base_words::number_word;
use http_routes::{Found, ListParts, RouteTable, decoded_text};
use std::alloc::Global;
use std::str;

/// The page that a part of a path asks for.
///
/// # Errors
///
/// `Refused` where the part is no number word; `Memory` where there is none for its text.
#[tactic(auto, unfolding(crate::specs::Asking::page_by))]
pub(crate) fn ask_page(alloc: Global, part: &str) -> Result<Request, AskFault>
    ensures asks { IfAsked result (λ asked. asked ≡ page_by part.now) }
    ensures sender { IfOk result (λ request. IsGoodAsked (asked request)) }
{
    let Some(word) = decoded_text(alloc, part.as_bytes())? else {
        return Err(AskFault::Refused(RequestRefusal::NotFound));
    };
    match number_word(word.as_str()) {
        Some(number) => Ok(Request::Page(number)),
        None => Err(AskFault::Refused(RequestRefusal::NotFound)),
    }
}

/// The list that the parts of a path ask for.
///
/// # Errors
///
/// `Refused` where a part is no text; `Memory` where there is none for the texts.
#[tactic(auto, unfolding(crate::specs::Asking::list_by))]
pub(crate) fn ask_list(alloc: Global, parts: ListParts<'_>) -> Result<Request, AskFault>
    ensures asks { IfAsked result (λ asked. asked ≡ list_by parts.entry.«package».now parts.entry.version.now) }
    ensures sender { IfOk result (λ request. IsGoodAsked (asked request)) }
{
    let Some(package) = decoded_text(alloc, parts.package.as_bytes())? else {
        return Err(AskFault::Refused(RequestRefusal::NotFound));
    };
    let Some(version) = decoded_text(alloc, parts.version.as_bytes())? else {
        return Err(AskFault::Refused(RequestRefusal::NotFound));
    };
    Ok(Request::ListOf(ListRequest { package, version }))
}

/// The route of a path, with its parts; it has none where it is no UTF-8.
#[tactic(auto, unfolding(crate::specs::Asking::route_of))]
pub(crate) fn route_of<'p>(routes: &RouteTable, path: &'p [u8]) -> Option<Found<'p>>
    ensures { option_map found_shown result ≡ route_of path.now }
{
    match str::from_utf8(path) {
        Ok(path) => routes.find(path),
        Err(_) => None,
    }
}
