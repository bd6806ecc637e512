//! The nodes that a branch changes.

ghost use Rattle.std.specs.Prelude.{◌≡◌, IfOk};
ghost use Rattle.table_nodes.specs.Grown.{unknown_of, roots_of, changed_of};

use ancestry::Tree;
use std::alloc::{AllocError, Global};
use version_nodes::Node;

/// Those nodes of a branch that it may change, as they are before it is taken.
#[derive(Drop)]
pub struct OpenNodes {
    /// The nodes that are not known.
    pub unknown: Vec<Node>,
    /// The known ones without a parent.
    pub roots: Vec<Node>,
}

/// Those nodes of a branch that it may change, before it is taken: the unknown ones, and the known
/// ones without a parent.
/// The error is that there was no memory.
/// This project's own rule.
pub fn open_nodes(alloc: Global, tree: &Tree, nodes: &[Node]) -> Result<OpenNodes, AllocError>
    ensures unknown { IfOk result (λ made. made.unknown.items ≡ unknown_of tree.now nodes.now) }
    ensures roots { IfOk result (λ made. made.roots.items ≡ roots_of tree.now nodes.now) }
{
    let mut unknown = Vec::new(alloc);
    let mut roots = Vec::new(alloc);
    for node in nodes {
        if !tree.knows(node) {
            unknown.push(node.copy()?)?;
        } else if tree.parent(node).is_none() {
            roots.push(node.copy()?)?;
        }
    }
    Ok(OpenNodes { unknown, roots })
}

/// Of these, once the branch is taken, those that changed: the ones that were unknown, and those
/// that have a parent now.
/// The error is that there was no memory.
/// This project's own rule.
pub fn changed_nodes(tree: &Tree, nodes: OpenNodes) -> Result<Vec<Node>, AllocError>
    ensures { IfOk result (λ changed. changed.items ≡ changed_of tree.now nodes.unknown.items nodes.roots.items) }
{
    let mut changed = nodes.unknown;
    for node in nodes.roots {
        if tree.parent(&node).is_some() {
            changed.push(node)?;
        }
    }
    Ok(changed)
}
