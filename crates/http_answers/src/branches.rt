//! Branches of versions.

ghost use Rattle.std.specs.Prelude.{◌≡◌, None, Some, IfOk, map, string_bytes};
ghost use Rattle.store_contract.specs.Store.{Holds};
ghost use Rattle.message_directives.specs.Branches.{nodes_of};
ghost use Rattle.message_directives.specs.BranchWords.{AreRead};
ghost use Rattle.http_routes.specs.Answers.{ok_json};
ghost use Rattle.http_requests.specs.Answer.{json_answer};
ghost use Rattle.http_requests.specs.Requests.{Always, PostBranch};
ghost use Rattle.http_requests.specs.Told.{IsTold};
ghost use Rattle.http_answers.specs.Crashes.{LeavesAnswered};
ghost use Rattle.http_answers.specs.Faults.{IsAnswer, counted_with};
ghost use Rattle.http_requests.specs.Shown.{shown};
ghost use Rattle.http_requests.specs.Steps.{Gives};

use crate::refusals::{refuse, refuse_nodes};
use base_faults::StoreFault;
use http::StatusCode;
use http_requests::{Body, Reply, store_fault};
use http_routes::ok_json;
use message_directives::add_node;
use std::alloc::Global;
use store_contract::Records;
use version_nodes::{BranchFault, Node, NodeFault};

// The nodes of these words.
// `BadNode` where a word is no node, `Memory` where there was none.
fn read_nodes(alloc: Global, words: &[String]) -> Result<Vec<Node>, NodeFault>
    ensures { AreRead (nodes_of (map string_bytes words.now)) result }
{
    let mut nodes = Vec::new(alloc);
    for word in words {
        add_node(alloc, &mut nodes, word.as_str())?;
    }
    Ok(nodes)
}

// The answer to a branch that was taken.
fn taken() -> Reply
    ensures is { Gives (json_answer 200 ok_json) result }
    ensures told { IsTold result.fault (shown result) }
{
    Reply {
        status: StatusCode::OK,
        allow: None,
        body: Body::Fixed(ok_json()),
        fault: None,
    }
}

// Takes the branch of these nodes.
fn answer_nodes<S: Records>(alloc: Global, store: &mut S, words: &[String], nodes: &[Node]) -> Reply
    requires { nodes_of (map string_bytes words.now) ≡ Some nodes.now }
    ensures answer { Holds S.is_kept S.is_honest store.old store.new (IsAnswer (PostBranch (map string_bytes words.now))
        (S.desk store.old) result.fault (shown result) (S.desk store.new)) }
    ensures stays { Holds S.is_kept S.is_honest store.old store.new (S.keeping store.new ≡ S.keeping store.old) }
    ensures crash { Holds S.is_kept S.is_honest store.old store.new (LeavesAnswered S.leaves store.old store.new
        (Always (PostBranch (map string_bytes words.now))) (S.desk store.old, S.keeping store.old) result.fault
        (S.desk store.new, S.keeping store.new)) }
    ensures count { S.faults store.new ≡ counted_with result.fault (S.faults store.old) }
    ensures told { IsTold result.fault (shown result) }
{
    match store.branch(nodes) {
        Ok(Ok(())) => taken(),
        Ok(Err(fault)) => refuse_nodes(alloc, fault),
        Err(fault) => store_fault(fault),
    }
}

/// Takes a branch, by the words of its nodes.
pub fn answer_branch<S: Records>(alloc: Global, store: &mut S, words: &[String]) -> Reply
    ensures answer { Holds S.is_kept S.is_honest store.old store.new (IsAnswer (PostBranch (map string_bytes words.now))
        (S.desk store.old) result.fault (shown result) (S.desk store.new)) }
    ensures stays { Holds S.is_kept S.is_honest store.old store.new (S.keeping store.new ≡ S.keeping store.old) }
    ensures crash { Holds S.is_kept S.is_honest store.old store.new (LeavesAnswered S.leaves store.old store.new
        (Always (PostBranch (map string_bytes words.now))) (S.desk store.old, S.keeping store.old) result.fault
        (S.desk store.new, S.keeping store.new)) }
    ensures count { S.faults store.new ≡ counted_with result.fault (S.faults store.old) }
    ensures told { IsTold result.fault (shown result) }
{
    match read_nodes(alloc, words) {
        Ok(nodes) => answer_nodes(alloc, store, words, nodes.as_slice()),
        Err(NodeFault::BadNode) => refuse(alloc, "bad version"),
        Err(NodeFault::Memory) => store_fault(StoreFault::Memory),
    }
}
