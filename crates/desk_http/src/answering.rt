//! What a request is answered.

ghost use Rattle.std.specs.Prelude.{◌≡◌};
ghost use Rattle.store_contract.specs.Store.{Holds};
ghost use Rattle.http_requests.specs.Requests.{IsGoodAsked};
ghost use Rattle.http_requests.specs.Told.{IsTold};
ghost use Rattle.http_answers.specs.Crashes.{LeavesAnswered};
ghost use Rattle.http_answers.specs.Faults.{counted_with};
ghost use Rattle.http_answers.specs.Repeats.{IsAskedAnswer};
ghost use Rattle.http_answers.specs.Stored.{stored};
ghost use Rattle.http_requests.specs.Shown.{shown, asked};

use crate::messages::answer_message;
use crate::once::answer_once;
use http_answers::{answer_branch, answer_list, answer_page, answer_report};
use http_requests::{Reply, Request};
use std::alloc::Global;
use store_contract::Records;

/// Carries a request out, and answers it.
///
/// A report is answered 201 with the number of the new bug, a message 200 with its end and its
/// transcript, a branch 200, a page or a list 200 with its text; a report or a branch that is
/// refused 400 with the reason, and a page or a list that is not there 404.
/// A message with an id is answered with the outcomes of all its lines, and those that were kept
/// before are not taken again; one whose id is known with another sender or text is refused 409.
///
/// Where the store fails, or there is no memory, the answer is 500, and the reply's `fault` says
/// which.
/// Nothing has changed then, except that of a control message some lines from the first, or all,
/// may have been taken; where the store failed at one of its lines, for another cause than memory,
/// the answer has the transcript up to there.
/// The room for the answer to a report is made before the report.
/// This is this project's own rule.
pub fn answer_request<S: Records>(alloc: Global, store: &mut S, request: &Request) -> Reply
    requires { IsGoodAsked (asked request.now) }
    ensures answer { Holds S.is_kept S.is_honest store.old store.new (IsAskedAnswer (asked request.now)
        (stored S.desk S.keeping store.old) result.fault (shown result) (stored S.desk S.keeping store.new)) }
    ensures crash { Holds S.is_kept S.is_honest store.old store.new (LeavesAnswered S.leaves store.old store.new
        (asked request.now) (S.desk store.old, S.keeping store.old) result.fault
        (S.desk store.new, S.keeping store.new)) }
    ensures count { S.faults store.new ≡ counted_with result.fault (S.faults store.old) }
    ensures told { IsTold result.fault (shown result) }
{
    match request {
        Request::Report(report) => answer_report(alloc, store, report),
        Request::Message(message) => answer_message(alloc, store, message),
        Request::Once(once) => answer_once(alloc, store, once),
        Request::Branch(words) => answer_branch(alloc, store, words.as_slice()),
        Request::Page(number) => answer_page(alloc, store, *number),
        Request::ListOf(list) => answer_list(alloc, store, list),
    }
}
