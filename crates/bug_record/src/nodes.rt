//! Sets of nodes, in node order, as a bug's marks are.

ghost use Rattle.std.specs.Prelude.{◌≡◌, not, filter, IfOk, OnOk, OnErr};
ghost use Rattle.version_nodes.specs.Nodes.{same_node};
ghost use Rattle.bug_record.specs.Marks.{with_node, without_node};

use base_sequences::Sequence;
use std::alloc::AllocError;
use version_nodes::Node;

/// A set of nodes, kept in node order.
pub type Nodes = Sequence<Node>;

/// Adds the node to a list in node order, unless it is there.
/// Where there is no memory, the list is as before.
pub fn add_node(nodes: &mut Nodes, node: Node) -> Result<(), AllocError>
    ensures ok { OnOk result (nodes.new ≡ with_node nodes.old node) }
    ensures err { OnErr result (nodes.new ≡ nodes.old) }
{
    nodes.add_ordered(node)
}

/// Takes the node out.
pub fn remove_node(nodes: &mut Nodes, node: &Node)
    ensures { nodes.new ≡ without_node nodes.old node.now }
{
    nodes.retain(|other| node != other);
}

/// An equal list, whose nodes share their texts with these.
/// It answers out of memory where there is none for the list, or where no more copies of a text
/// can be counted.
pub fn copy_nodes(nodes: &Nodes) -> Result<Nodes, AllocError>
    ensures { IfOk result (λ r. r ≡ nodes.now) }
{
    let alloc = nodes.allocator();
    let nodes = nodes.as_slice();
    if let [node] = nodes {
        return Ok(Sequence::one(alloc, node.copy()?));
    }
    let mut copies = Vec::with_capacity(alloc, nodes.len())?;
    for node in nodes {
        copies.push(node.copy()?)?;
    }
    Ok(Sequence::from_vec(copies))
}
