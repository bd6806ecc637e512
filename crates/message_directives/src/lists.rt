//! Lists of a package's bugs at a version.

ghost use Rattle.std.specs.Prelude.{◌≡◌, true, Some, IfOk, IfErr, ⊤};
ghost use Rattle.store_contract.specs.Store.{Holds};
ghost use Rattle.store_contract.specs.Tried.{LeavesTried};
ghost use Rattle.message_directives.specs.Questions.{list_at, list_told, AsksForList, IsTold, faults_after_question};

use crate::told::{QuestionFault, Told};
use debver::check_name;
use desk_text::{bad_package_answer, bad_version_answer, list_text};
use std::alloc::Global;
use store_contract::Records;
use version_nodes::{Node, NodeFault};

// A refusal by a text that is at hand.
fn refuse(alloc: Global, answer: &str) -> Result<Told, QuestionFault>
    ensures answer { IfOk result (λ told. told.text.items ≡ answer.now) }
    ensures refused { IfOk result (λ told. told.refused ≡ true) }
    ensures memory { IfErr result (λ fault. fault ≡ QuestionFault.Memory) }
{
    let text = Vec::from_slice(alloc, answer.as_bytes())?;
    Ok(Told {
        text,
        refused: true,
    })
}

// The list of a package at a node.
fn list_at<S: Records>(
    alloc: Global,
    store: &mut S,
    package: &str,
    node: &Node,
) -> Result<Told, QuestionFault>
    ensures answer { Holds S.is_kept S.is_honest store.old store.new
        (IsTold (list_at (S.desk store.old) «package».now (Some node.now)) ⊤ (S.desk store.old) result (S.desk store.new)) }
    ensures stays { S.keeping store.new ≡ S.keeping store.old }
    ensures crash { Holds S.is_kept S.is_honest store.old store.new
        (LeavesTried S.leaves store.old store.new (S.keeping store.old) (S.desk store.old) (S.desk store.new) (S.desk store.new)) }
    ensures count { S.faults store.new ≡ faults_after_question result (S.faults store.old) }
{
    let rows = store.listed(package, node)?;
    let mut text = Vec::new(alloc);
    list_text(&mut text, package, node, rows.as_slice())?;
    Ok(Told {
        text,
        refused: false,
    })
}

/// The list of a package's bugs at a version, which is bare (a version of that package), or
/// `source/version`.
/// A bad name of the package is refused before a bad version.
/// The store stays as it was.
/// This is this project's own rule.
///
/// # Errors
///
/// `Store` where the store failed; `Memory` where there was none for the words, or for the text.
pub fn list_of<S: Records>(
    alloc: Global,
    store: &mut S,
    package: &str,
    version: &str,
) -> Result<Told, QuestionFault>
    ensures answer { Holds S.is_kept S.is_honest store.old store.new
        (IsTold (list_told (S.desk store.old) «package».now version.now) (AsksForList «package».now version.now)
        (S.desk store.old) result (S.desk store.new)) }
    ensures stays { S.keeping store.new ≡ S.keeping store.old }
    ensures crash { Holds S.is_kept S.is_honest store.old store.new
        (LeavesTried S.leaves store.old store.new (S.keeping store.old) (S.desk store.old) (S.desk store.new) (S.desk store.new)) }
    ensures count { S.faults store.new ≡ faults_after_question result (S.faults store.old) }
{
    match check_name(package) {
        Ok(()) => {}
        Err(_) => return refuse(alloc, bad_package_answer()),
    }
    match Node::at(alloc, package, version) {
        Ok(node) => list_at(alloc, store, package, &node),
        Err(NodeFault::BadNode) => refuse(alloc, bad_version_answer()),
        Err(NodeFault::Memory) => Err(QuestionFault::Memory),
    }
}
