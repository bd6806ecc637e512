//! Requests that are refused once they were read.

ghost use Rattle.desk_text.specs.Answers.{nodes_refusal};
ghost use Rattle.http_answers.specs.Answers.{refused_answer};
ghost use Rattle.http_requests.specs.Told.{IsTold};
ghost use Rattle.http_requests.specs.Shown.{shown};
ghost use Rattle.http_answers.specs.Cases.{GivesOrFails};

use desk_text::{StoreFault, nodes_refusal};
use http::StatusCode;
use http_requests::{Reply, json_reply, store_fault};
use http_routes::error_json;
use std::alloc::Global;
use version_nodes::BranchFault;

/// A refusal of a request that was read: 400, and why.
pub(crate) fn refuse(alloc: Global, why: &str) -> Reply
    ensures is { GivesOrFails (refused_answer why.now) result }
    ensures told { IsTold result.fault (shown result) }
{
    match error_json(alloc, why) {
        Ok(text) => json_reply(StatusCode::BAD_REQUEST, text),
        Err(_) => store_fault(StoreFault::Memory),
    }
}

/// A refusal of a branch of nodes, which no store gives as out of memory.
pub(crate) fn refuse_nodes(alloc: Global, fault: BranchFault) -> Reply
    ensures is { GivesOrFails (refused_answer (nodes_refusal fault)) result }
    ensures told { IsTold result.fault (shown result) }
{
    if fault == BranchFault::Memory {
        return store_fault(StoreFault::Memory);
    }
    match nodes_refusal(alloc, fault) {
        Ok(why) => refuse(alloc, why.as_str()),
        Err(_) => store_fault(StoreFault::Memory),
    }
}
