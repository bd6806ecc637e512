//! Reports of bugs.

ghost use Rattle.std.specs.Prelude.{◌≡◌, None, Some, Ok, Err, IfOk, string_bytes, option_map};
ghost use Rattle.base_words.specs.Texts.{IsText};
ghost use Rattle.store_contract.specs.Store.{Holds};
ghost use Rattle.http_requests.specs.Requests.{Always, PostBug};
ghost use Rattle.http_requests.specs.Told.{IsTold};
ghost use Rattle.http_answers.specs.Crashes.{LeavesAnswered};
ghost use Rattle.http_answers.specs.Faults.{IsAnswer, counted_with};
ghost use Rattle.http_requests.specs.Shown.{shown, report_asked};
ghost use Rattle.http_answers.specs.Cases.{RefusesReport};

use crate::refusals::refuse;
use debver::Text;
use desk_text::{ReportFault, StoreFault, report_refusal};
use http::StatusCode;
use http_requests::{Reply, ReportRequest, json_reply, store_fault};
use http_routes::bug_json;
use message_directives::report;
use std::alloc::Global;
use store_contract::Records;

// The version that a report gives.
fn version_of(request: &ReportRequest) -> Option<&str>
    ensures { option_map (λ s. s.now) result ≡ option_map string_bytes request.now.version }
{
    match &request.version {
        Some(version) => Some(version.as_str()),
        None => None,
    }
}

// The answer to a report that was not taken.
fn not_taken(alloc: Global, fault: ReportFault) -> Reply
    ensures is { RefusesReport fault result }
    ensures told { IsTold result.fault (shown result) }
{
    match fault {
        ReportFault::Store(fault) => store_fault(fault),
        refusal => refuse(alloc, report_refusal(refusal)),
    }
}

/// Takes a report.
/// The room for its answer is made before it is taken.
pub fn answer_report<S: Records>(alloc: Global, store: &mut S, request: &ReportRequest) -> Reply
    requires { IsText (string_bytes request.now.from) }
    ensures answer { Holds S.is_kept S.is_honest store.old store.new (IsAnswer (PostBug (report_asked request.now))
        (S.desk store.old) result.fault (shown result) (S.desk store.new)) }
    ensures stays { Holds S.is_kept S.is_honest store.old store.new (S.keeping store.new ≡ S.keeping store.old) }
    ensures crash { Holds S.is_kept S.is_honest store.old store.new (LeavesAnswered S.leaves store.old store.new
        (Always (PostBug (report_asked request.now))) (S.desk store.old, S.keeping store.old) result.fault
        (S.desk store.new, S.keeping store.new)) }
    ensures count { S.faults store.new ≡ counted_with result.fault (S.faults store.old) }
    ensures told { IsTold result.fault (shown result) }
{
    let next = match store.next() {
        Ok(next) => next,
        Err(fault) => return store_fault(fault),
    };
    let Ok(text) = bug_json(alloc, next) else {
        return store_fault(StoreFault::Memory);
    };
    let Ok(from) = Text::of(alloc, request.from.as_str()) else {
        return store_fault(StoreFault::Memory);
    };
    let taken = report(
        alloc,
        store,
        &from,
        request.package.as_str(),
        version_of(request),
        request.severity.as_str(),
        request.title.as_str(),
    );
    match taken {
        Ok(_) => json_reply(StatusCode::CREATED, text),
        Err(fault) => not_taken(alloc, fault),
    }
}
