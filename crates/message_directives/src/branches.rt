//! The words of branches.

ghost use Rattle.message_directives.specs.BranchWords.{IsNodeAdded};
ghost use Rattle.version_nodes.specs.Nodes.{node_of_text};

use std::alloc::Global;
use version_nodes::{Node, NodeFault};

/// Reads a word of a branch, and puts its node after those of the words before it.
/// `BadNode` where the word is no node, `Memory` where there was none; the nodes then stay.
/// This project's own rule.
pub fn add_node(alloc: Global, nodes: &mut Vec<Node>, word: &str) -> Result<(), NodeFault>
    ensures { IsNodeAdded (node_of_text word.now) nodes.old.items nodes.new.items result }
{
    let node = Node::read(alloc, word)?;
    match nodes.push(node) {
        Ok(()) => Ok(()),
        Err(_) => Err(NodeFault::Memory),
    }
}
