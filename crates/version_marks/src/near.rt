//! Nearest marks.

ghost use Rattle.std.specs.Prelude.{◌≡◌, ◌<◌, ◌++◌, Some, is_some, length, IfOk, OnOk, if◌then◌else◌};
ghost use Rattle.std.specs.BTreeMap.{get};
ghost use Rattle.std.specs.List.Sorted.{IsStrictlySortedBy};
ghost use Rattle.std.specs.Map.{keys_of};
ghost use Rattle.version_nodes.specs.Nodes.{Node, node_cmp};
ghost use Rattle.version_nodes.specs.Trees.{has_node};
ghost use Rattle.version_marks.specs.Nearest.{nearest_of, row_at, once};
ghost use Rattle.version_marks.specs.Walks.{row_of, rows_of_marks, rows_below, AreMarks, Step};

use crate::family::Family;
use ancestry::Tree;
use std::alloc::{AllocError, Global};
use std::collections::{BTreeMap, BTreeSet};
use version_nodes::{MarkKind, Node};

/// The nearest mark as seen from a node: the first marked node of its line, and as what it is
/// marked.
#[derive(Drop)]
pub struct Near {
    pub mark: Node,
    pub kind: MarkKind,
}

/// A node, and the nearest mark as seen from it.
#[derive(Drop)]
pub struct NearRow {
    pub node: Node,
    pub near: Near,
}

// Gives each of these nodes this kind.
fn put_marks(
    marks: &mut BTreeMap<Node, MarkKind>,
    nodes: &[Node],
    kind: MarkKind,
) -> Result<(), AllocError>
    ensures { OnOk result ((v : Node) → get node_cmp marks.new v
        ≡ (if has_node nodes.now v then Some kind else get node_cmp marks.old v)) }
{
    for node in nodes {
        marks.insert(node.copy()?, kind)?;
    }
    Ok(())
}

// The marked nodes, found before fixed.
fn marks_of(
    alloc: Global,
    found: &[Node],
    fixed: &[Node],
) -> Result<BTreeMap<Node, MarkKind>, AllocError>
    ensures { IfOk result (λ marks. AreMarks found.now fixed.now marks) }
{
    let mut marks = BTreeMap::new(alloc);
    put_marks(&mut marks, fixed, MarkKind::Fixed)?;
    put_marks(&mut marks, found, MarkKind::Found)?;
    Ok(marks)
}

// The row of a node that sees this mark.
fn row_of(node: &Node, mark: &Node, kind: MarkKind) -> Result<NearRow, AllocError>
    ensures { IfOk result (λ row. row ≡ row_of node.now mark.now kind) }
{
    let node = node.copy()?;
    let mark = mark.copy()?;
    Ok(NearRow {
        node,
        near: Near { mark, kind },
    })
}

// The rows of the marked nodes that are known: each sees itself.
fn rows_of_marks(
    alloc: Global,
    tree: &Tree,
    marks: &BTreeMap<Node, MarkKind>,
) -> Result<Vec<NearRow>, AllocError>
    ensures rows { IfOk result (λ rows. rows.items ≡ rows_of_marks tree.now marks.now.entries) }
    ensures ordered { IsStrictlySortedBy node_cmp (keys_of marks.now.entries) }
{
    let mut rows = Vec::new(alloc);
    for (mark, kind) in marks {
        if tree.knows(mark) {
            rows.push(row_of(mark, mark, *kind)?)?;
        }
    }
    Ok(rows)
}

// Adds the rows of those children of a node that aren't marked: they see what it sees.
fn push_below(
    rows: &mut Vec<NearRow>,
    marks: &BTreeMap<Node, MarkKind>,
    near: &Near,
    children: &BTreeSet<Node>,
) -> Result<(), AllocError>
    ensures rows { OnOk result (rows.new.items
        ≡ rows.old.items ++ rows_below (λ c. is_some (get node_cmp marks.now c)) near.now children.now.keys) }
    ensures ordered { IsStrictlySortedBy node_cmp children.now.keys }
{
    for child in children {
        if !marks.contains_key(child) {
            rows.push(row_of(child, &near.mark, near.kind)?)?;
        }
    }
    Ok(())
}

// Adds the rows of those children of the node of a row that aren't marked.
fn push_children(
    family: &Family,
    marks: &BTreeMap<Node, MarkKind>,
    rows: &mut Vec<NearRow>,
    place: usize,
) -> Result<(), AllocError>
    requires within { place < length rows.old.items }
    ensures { OnOk result (Step family.now (λ c. is_some (get node_cmp marks.now c)) rows.old.items place rows.new.items) }
{
    let row = &rows[place];
    let Some(children) = family.children(&row.node) else {
        return Ok(());
    };
    let near = Near {
        mark: row.near.mark.copy()?,
        kind: row.near.kind,
    };
    push_below(rows, marks, &near, children)
}

/// The nearest marks of a set with these marks, as seen from the known nodes of a tree: a row for
/// each known node whose line has a marked node, and no other.
/// It goes down from the known marks, and past none that is marked itself, so it looks up each
/// mark, and each child of a node with a row.
/// The error is that there was no memory.
/// This project's own rule.
pub fn nearest_rows(
    alloc: Global,
    family: &Family,
    found: &[Node],
    fixed: &[Node],
) -> Result<Vec<NearRow>, AllocError>
    ensures once { IfOk result (λ rows. once rows.items) }
    ensures rows { IfOk result (λ rows. (v : Node) → row_at rows.items v ≡ nearest_of family.now found.now fixed.now v) }
{
    let marks = marks_of(alloc, found, fixed)?;
    let mut rows = rows_of_marks(alloc, family.tree(), &marks)?;
    let mut place = 0;
    while place < rows.len() {
        push_children(family, &marks, &mut rows, place)?;
        place += 1;
    }
    Ok(rows)
}
