//! What is put for a branch.

ghost use Rattle.std.specs.Prelude.{◌≡◌, ◌++◌, OnOk, IfOk};
ghost use Rattle.std.specs.Option.{option_copied};
ghost use Rattle.version_nodes.specs.Trees.{IsForest};
ghost use Rattle.table_content.specs.Content.{Content};
ghost use Rattle.table_content.specs.Edits.{edited_all};
ghost use Rattle.table_content.specs.Free.{AreFree};
ghost use Rattle.table_content.specs.Branches.{with_nodes, ChangesNodes, AreMissing};
ghost use Rattle.table_content.specs.BranchLists.{link_puts, set_near_puts};

use crate::edit::Edit;
use ancestry::Tree;
use bug_record::Sequence;
use std::alloc::{AllocError, Global};
use version_marks::NearRow;
use version_nodes::Node;

/// A row of nearest marks: of the set of this key, as seen from a node.
#[derive(Drop)]
pub struct SetNear {
    pub key: u64,
    pub row: NearRow,
}

// A copy of the node, if there is one.
fn copy_node(node: Option<&Node>) -> Result<Option<Node>, AllocError>
    ensures { IfOk result (λ copy. copy ≡ option_copied node.entry) }
{
    match node {
        Some(node) => Ok(Some(node.copy()?)),
        None => Ok(None),
    }
}

// The changed nodes come anew, each with its parent or none.
fn put_links(edits: &mut Sequence<Edit>, tree: &Tree, changed: &[Node]) -> Result<(), AllocError>
    ensures { OnOk result (edits.new ≡ edits.old ++ link_puts tree.now changed.now) }
{
    for node in changed {
        edits.push(Edit::DropLink { node: node.copy()? })?;
        edits.push(Edit::PutLink {
            node: node.copy()?,
            parent: copy_node(tree.parent(node))?,
        })?;
    }
    Ok(())
}

// Nearest marks of sets come.
fn put_set_near(edits: &mut Sequence<Edit>, rows: Vec<SetNear>) -> Result<(), AllocError>
    ensures { OnOk result (edits.new ≡ edits.old ++ set_near_puts rows.items) }
{
    for set in rows {
        edits.push(Edit::PutNear {
            key: set.key,
            node: set.row.node,
            near: set.row.near,
        })?;
    }
    Ok(())
}

/// What is put for a branch that left this tree: the nodes that it changed, and the rows of nearest
/// marks that are not there yet.
/// The error is that there was no memory.
/// This project's own rule.
pub fn branch_edits(
    alloc: Global,
    tree: &Tree,
    changed: &[Node],
    rows: Vec<SetNear>,
) -> Result<Sequence<Edit>, AllocError>
    ensures content { IfOk result (λ edits. (c : Content) → ChangesNodes c tree.now changed.now →
        AreMissing c tree.now rows.items → IsForest c.nodes → edited_all edits c ≡ with_nodes tree.now c) }
    ensures free { IfOk result (λ edits. (c : Content) → AreMissing c tree.now rows.items → AreFree edits c) }
{
    let mut edits = Sequence::new(alloc);
    put_links(&mut edits, tree, changed)?;
    put_set_near(&mut edits, rows)?;
    Ok(edits)
}
