//! Pages and lists.

ghost use Rattle.std.specs.Prelude.{◌≡◌, Ok, Err, string_bytes};
ghost use Rattle.store_contract.specs.Store.{Holds};
ghost use Rattle.http_requests.specs.Requests.{Always, GetBug, GetList};
ghost use Rattle.http_requests.specs.Told.{IsTold};
ghost use Rattle.http_answers.specs.Crashes.{LeavesAnswered};
ghost use Rattle.http_answers.specs.Faults.{IsAnswer, counted_with};
ghost use Rattle.http_requests.specs.Shown.{shown};
ghost use Rattle.http_answers.specs.Cases.{AnswersQuestion};

use base_faults::StoreFault;
use http_requests::{ListRequest, Reply, not_found, page_reply, store_fault};
use message_directives::{QuestionFault, Told, list_of, page_of};
use std::alloc::Global;
use store_contract::Records;

// What a question is told: its text, or that there is no such thing.
fn answer_question(told: Result<Told, QuestionFault>) -> Reply
    ensures is { AnswersQuestion told result }
    ensures told { IsTold result.fault (shown result) }
{
    match told {
        Ok(told) => {
            if told.refused {
                not_found()
            } else {
                page_reply(told.text)
            }
        }
        Err(QuestionFault::Memory) => store_fault(StoreFault::Memory),
        Err(QuestionFault::Store(fault)) => store_fault(fault),
    }
}

/// Shows the page of a bug.
pub fn answer_page<S: Records>(alloc: Global, store: &mut S, number: u64) -> Reply
    ensures answer { Holds S.is_kept S.is_honest store.old store.new (IsAnswer (GetBug number)
        (S.desk store.old) result.fault (shown result) (S.desk store.new)) }
    ensures stays { Holds S.is_kept S.is_honest store.old store.new (S.keeping store.new ≡ S.keeping store.old) }
    ensures crash { Holds S.is_kept S.is_honest store.old store.new (LeavesAnswered S.leaves store.old store.new
        (Always (GetBug number)) (S.desk store.old, S.keeping store.old) result.fault
        (S.desk store.new, S.keeping store.new)) }
    ensures count { S.faults store.new ≡ counted_with result.fault (S.faults store.old) }
    ensures told { IsTold result.fault (shown result) }
{
    answer_question(page_of(alloc, store, number))
}

/// Lists the bugs of a package at a version.
pub fn answer_list<S: Records>(alloc: Global, store: &mut S, list: &ListRequest) -> Reply
    ensures answer { Holds S.is_kept S.is_honest store.old store.new
        (IsAnswer (GetList (string_bytes list.now.«package») (string_bytes list.now.version))
        (S.desk store.old) result.fault (shown result) (S.desk store.new)) }
    ensures stays { Holds S.is_kept S.is_honest store.old store.new (S.keeping store.new ≡ S.keeping store.old) }
    ensures crash { Holds S.is_kept S.is_honest store.old store.new (LeavesAnswered S.leaves store.old store.new
        (Always (GetList (string_bytes list.now.«package») (string_bytes list.now.version))) (S.desk store.old, S.keeping store.old) result.fault
        (S.desk store.new, S.keeping store.new)) }
    ensures count { S.faults store.new ≡ counted_with result.fault (S.faults store.old) }
    ensures told { IsTold result.fault (shown result) }
{
    answer_question(list_of(alloc, store, list.package.as_str(), list.version.as_str()))
}
