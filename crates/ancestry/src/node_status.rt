//! The status of a bug at a node, by its marks.

ghost use Rattle.std.specs.Prelude.{◌≡◌};
ghost use Rattle.version_nodes.specs.Trees.{has_node, line};
ghost use Rattle.version_nodes.specs.Statuses.{first_kind, status_from, status};

use crate::tree::Tree;
use version_nodes::{MarkKind, Node, Status};

fn has_node(nodes: &[Node], node: &Node) -> bool
    ensures { result ≡ has_node nodes.now node.now }
{
    nodes.contains(node)
}

// The kind of the first mark of a node's line.
fn first_kind(tree: &Tree, found: &[Node], fixed: &[Node], node: &Node) -> Option<MarkKind>
    ensures { result ≡ first_kind found.now fixed.now (line tree.now node.now) }
{
    let mut at = Some(node);
    while let Some(here) = at {
        if has_node(found, here) {
            return Some(MarkKind::Found);
        }
        if has_node(fixed, here) {
            return Some(MarkKind::Fixed);
        }
        at = tree.parent(here);
    }
    None
}

/// The status of a bug at a node by the kind of the first mark of the node's line, by whether no
/// node at all is marked as found and none as fixed, and by whether the bug is closed.
/// It is `Done` where the bug is closed and nothing is marked as fixed; otherwise the kind decides.
/// With no mark in the line it is `Found` where nothing is marked as found, and else `Absent`.
/// Takes no memory.
/// This project's own rule.
pub fn status_from(
    nearest: Option<MarkKind>,
    found_empty: bool,
    fixed_empty: bool,
    closed: bool,
) -> Status
    ensures { result ≡ status_from nearest found_empty fixed_empty closed }
{
    if closed && fixed_empty {
        return Status::Done;
    }
    match nearest {
        Some(MarkKind::Found) => Status::Found,
        Some(MarkKind::Fixed) => Status::Fixed,
        None if found_empty => Status::Found,
        None => Status::Absent,
    }
}

/// The status at a node of a bug that is marked as found and as fixed at these nodes.
/// It is `Done` where the bug is closed and nothing is marked as fixed.
/// Otherwise the first node of the line that is marked decides, found before fixed.
/// With no such node it is `Found` where nothing is marked as found, and else `Absent`.
/// Takes no memory.
/// This project's own rule.
#[tactic(auto, unfolding(version_nodes::specs::Statuses::status, version_nodes::specs::Statuses::status_on))]
pub fn status(tree: &Tree, found: &[Node], fixed: &[Node], closed: bool, node: &Node) -> Status
    ensures { result ≡ status tree.now found.now fixed.now closed node.now }
{
    status_from(
        first_kind(tree, found, fixed, node),
        found.is_empty(),
        fixed.is_empty(),
        closed,
    )
}
