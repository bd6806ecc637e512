//! What goes and what comes for the image of a set whose bugs stay, and of whose marks none is
//! lost: most nearest marks stay.

ghost use Rattle.std.specs.Prelude.{◌≡◌, ◌++◌, ◌∷◌, [], List, OnOk, IfOk};
ghost use Rattle.version_nodes.specs.Nodes.{Node};
ghost use Rattle.store_keys.specs.Keys.{key_of};
ghost use Rattle.version_marks.specs.Nearest.{nearest_of, row_at, once};
ghost use Rattle.version_marks.specs.declared.near.NearRow.{NearRow};
ghost use Rattle.table_content.specs.EditLists.{row_drops, mark_puts, mark_moves, near_moves, moves};
ghost use Rattle.table_content.specs.declared.edit.Edit.TheVariants.{DropNearAt, PutNear};
ghost use Rattle.table_content.specs.Moving.{is_marked, are_marked, loses_none, stood, is_part, others};

use crate::edit::Edit;
use crate::image_edits::{put_marks, put_shared};
use crate::kinds_at_nodes::has_node;
use bug_record::{Sequence, SetImage};
use std::alloc::{AllocError, Global};
use store_keys::key_of;
use version_marks::{Family, Near, NearRow, nearest_rows};
use version_nodes::{MarkKind, Node};

// Whether a node is marked.
fn is_marked(found: &[Node], fixed: &[Node], node: &Node) -> bool
    ensures { result ≡ is_marked found.now fixed.now node.now }
{
    has_node(found, node) || has_node(fixed, node)
}

// Whether each of these nodes is marked.
fn are_marked(found: &[Node], fixed: &[Node], nodes: &[Node]) -> bool
    ensures { result ≡ are_marked found.now fixed.now nodes.now }
{
    nodes.iter().all(|node| is_marked(found, fixed, node))
}

// Whether the image has a mark at each node at which these lists have one.
pub(crate) fn loses_none(image: &SetImage, found: &[Node], fixed: &[Node]) -> bool
    ensures { result ≡ loses_none image.now found.now fixed.now }
{
    let shared = image.shared.fields();
    let (new_found, new_fixed) = (shared.found.as_slice(), shared.fixed.as_slice());
    are_marked(new_found, new_fixed, found) && are_marked(new_found, new_fixed, fixed)
}

// Whether a nearest mark was a mark of this kind among these.
fn stood(found: &[Node], fixed: &[Node], near: &Near) -> bool
    ensures { result ≡ stood found.now fixed.now near.now }
{
    let is_found = has_node(found, &near.mark);
    match near.kind {
        MarkKind::Found => is_found,
        MarkKind::Fixed => !is_found && has_node(fixed, &near.mark),
    }
}

// A nearest mark comes in the place of the one at its node, if there is one.
fn move_one(edits: &mut Sequence<Edit>, key: u64, row: NearRow) -> Result<(), AllocError>
    ensures { OnOk result (edits.new ≡ edits.old ++ (DropNearAt key row.node ∷ PutNear key row.node row.near ∷ [])) }
{
    let node = row.node.copy()?;
    edits.push(Edit::DropNearAt { key, node })?;
    edits.push(Edit::PutNear {
        key,
        node: row.node,
        near: row.near,
    })
}

// Those of the rows come that did not stand where these were the marks.
fn move_near(
    edits: &mut Sequence<Edit>,
    key: u64,
    found: &[Node],
    fixed: &[Node],
    rows: Vec<NearRow>,
) -> Result<(), AllocError>
    ensures { OnOk result (edits.new ≡ edits.old ++ near_moves key found.now fixed.now rows.items) }
{
    for row in rows {
        if !stood(found, fixed, &row.near) {
            move_one(edits, key, row)?;
        }
    }
    Ok(())
}

// Whether these nodes are part of others, in the same order.
fn is_part(part: &[Node], nodes: &[Node]) -> bool
    ensures { result ≡ is_part part.now nodes.now }
{
    let mut left = part;
    for node in nodes {
        if left.first() == Some(node) {
            left = &left[1..];
        }
    }
    left.is_empty()
}

// Marks of a kind come at those nodes that are not among these.
fn put_others(
    edits: &mut Sequence<Edit>,
    key: u64,
    kind: MarkKind,
    stood: &[Node],
    nodes: &[Node],
) -> Result<(), AllocError>
    ensures { OnOk result (edits.new ≡ edits.old ++ mark_puts key kind (others stood.now nodes.now)) }
{
    for node in nodes {
        if !has_node(stood, node) {
            let node = node.copy()?;
            edits.push(Edit::PutMark { key, kind, node })?;
        }
    }
    Ok(())
}

// The marks of the image come in the place of these: where it has all of them, they stay.
fn move_marks(
    edits: &mut Sequence<Edit>,
    key: u64,
    image: &SetImage,
    found: &[Node],
    fixed: &[Node],
) -> Result<(), AllocError>
    requires { key ≡ key_of image.now }
    ensures { OnOk result (edits.new ≡ edits.old ++ mark_moves image.now found.now fixed.now) }
{
    let shared = image.shared.fields();
    let (new_found, new_fixed) = (shared.found.as_slice(), shared.fixed.as_slice());
    if is_part(found, new_found) && is_part(fixed, new_fixed) {
        put_others(edits, key, MarkKind::Found, found, new_found)?;
        return put_others(edits, key, MarkKind::Fixed, fixed, new_fixed);
    }
    edits.push(Edit::DropMarks { key })?;
    put_marks(edits, key, MarkKind::Found, new_found)?;
    put_marks(edits, key, MarkKind::Fixed, new_fixed)
}

// What stands under a key goes, but for its bugs and its marks.
pub(crate) fn drop_rows(alloc: Global, key: u64) -> Result<Sequence<Edit>, AllocError>
    ensures { IfOk result (λ edits. edits ≡ row_drops key) }
{
    let mut edits = Sequence::new(alloc);
    edits.push(Edit::DropFields { key })?;
    edits.push(Edit::DropBlockers { key })?;
    edits.push(Edit::DropAffects { key })?;
    Ok(edits)
}

// What goes and what comes for the image of a set whose bugs stay, where these are the marks that
// stand under its key.
pub(crate) fn moving_edits(
    alloc: Global,
    family: &Family,
    image: &SetImage,
    found: &[Node],
    fixed: &[Node],
) -> Result<Sequence<Edit>, AllocError>
    ensures { IfOk result (λ edits. (rows : List NearRow) × once rows
        × ((v : Node) → row_at rows v ≡ nearest_of family.now image.now.shared.found image.now.shared.fixed v)
        × (edits ≡ moves image.now found.now fixed.now rows)) }
{
    let key = key_of(image);
    let shared = image.shared.fields();
    let (new_found, new_fixed) = (shared.found.as_slice(), shared.fixed.as_slice());
    let rows = nearest_rows(alloc, family, new_found, new_fixed)?;
    let mut edits = drop_rows(alloc, key)?;
    put_shared(&mut edits, key, image)?;
    move_marks(&mut edits, key, image, found, fixed)?;
    move_near(&mut edits, key, found, fixed, rows)?;
    Ok(edits)
}
