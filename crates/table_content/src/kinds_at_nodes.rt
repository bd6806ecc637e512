//! What is asked of a set at a node.

ghost use Rattle.std.specs.Prelude.{◌≡◌};
ghost use Rattle.version_nodes.specs.Trees.{has_node};
ghost use Rattle.table_content.specs.KindsAtNodes.{kind_here};

use version_nodes::{MarkKind, Node};

// Whether the node is one of these.
pub(crate) fn has_node(nodes: &[Node], node: &Node) -> bool
    ensures { result ≡ has_node nodes.now node.now }
{
    nodes.contains(node)
}

/// The kind of the first mark on a node's line, where the row is that of a content that is kept: of
/// the node's own mark, found before fixed, or else of the nearest mark that its row says.
/// For a node that is not known there is no row, and its own mark is the whole answer.
/// It takes no memory.
/// This project's own rule.
pub fn kind_here(
    found: &[Node],
    fixed: &[Node],
    nearest: Option<MarkKind>,
    node: &Node,
) -> Option<MarkKind>
    ensures { result ≡ kind_here found.now fixed.now nearest node.now }
{
    if has_node(found, node) {
        return Some(MarkKind::Found);
    }
    if has_node(fixed, node) {
        return Some(MarkKind::Fixed);
    }
    nearest
}
