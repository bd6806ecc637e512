//! The nodes that a branch touches.

ghost use Rattle.std.specs.Prelude.{◌≡◌, ◌&&◌, true, map, IfOk};
ghost use Rattle.version_nodes.specs.Nodes.{Node};
ghost use Rattle.version_nodes.specs.Trees.{has_node, knows, line};
ghost use Rattle.version_marks.specs.Nearest.{meets, is_once};

use crate::family::Family;
use crate::near::{NearRow, nearest_rows};
use std::alloc::{AllocError, Global};
use version_nodes::Node;

// The nodes of rows.
fn nodes_of(alloc: Global, rows: Vec<NearRow>) -> Result<Vec<Node>, AllocError>
    ensures { IfOk result (λ nodes. nodes.items ≡ map (λ row. row.node) rows.items) }
{
    let mut nodes = Vec::new(alloc);
    for row in rows {
        nodes.push(row.node)?;
    }
    Ok(nodes)
}

/// The known nodes whose line has one of the changed nodes, each once: of all others a change of
/// those nodes' parents leaves the line as it was.
/// They are those that see a mark where the changed nodes are marked, and it goes down to them so.
/// The error is that there was no memory.
/// This project's own rule.
pub fn affected(alloc: Global, family: &Family, changed: &[Node]) -> Result<Vec<Node>, AllocError>
    ensures once { IfOk result (λ nodes. is_once nodes.items ≡ true) }
    ensures nodes { IfOk result (λ nodes. (v : Node) →
        has_node nodes.items v ≡ (knows family.now v && meets changed.now (line family.now v))) }
{
    let rows = nearest_rows(alloc, family, changed, &[])?;
    nodes_of(alloc, rows)
}
