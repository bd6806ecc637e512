//! Nearest marks, and the nodes that branches affect.

use crate::trees::{add_sorted, given, read_nodes, sort};
use crate::words::{MarkWords, mark_words};
use bug_record::Nodes;
use std::alloc::{AllocError, Global};
use version_marks::{Family, NearRow, affected, nearest_rows};
use version_nodes::{MarkKind, Node};

// The row of a node, if there is one.
fn row_of<'a>(rows: &'a [NearRow], node: &Node) -> Option<&'a NearRow> {
    rows.iter().find(|row| row.node == *node)
}

// The word of a kind of marks.
pub(crate) fn kind_word(kind: MarkKind) -> &'static str {
    match kind {
        MarkKind::Found => "found",
        MarkKind::Fixed => "fixed",
    }
}

// Puts nodes that are written with blanks between them into a set; answers whether each is a node.
fn read_set(alloc: Global, set: &mut Nodes, text: &str) -> Result<bool, AllocError> {
    let mut nodes = Vec::new(alloc);
    let are_nodes = read_nodes(alloc, &mut nodes, text)?;
    sort(set, &nodes)?;
    Ok(are_nodes)
}

// The sets of nodes where a bug is found, and where it is fixed.
#[derive(Drop)]
pub(crate) struct MarkSets {
    pub found: Nodes,
    pub fixed: Nodes,
}

// No marks.
pub(crate) fn no_marks(alloc: Global) -> MarkSets {
    MarkSets {
        found: Nodes::new(alloc),
        fixed: Nodes::new(alloc),
    }
}

// Puts the nodes of marks into sets; answers whether each word is a node.
pub(crate) fn read_marks(
    alloc: Global,
    marks: &mut MarkSets,
    words: MarkWords<'_>,
) -> Result<bool, AllocError> {
    Ok(
        read_set(alloc, &mut marks.found, words.found)?
            && read_set(alloc, &mut marks.fixed, words.fixed)?,
    )
}

// Adds the mark of a row, where there is one.
fn add_row(out: &mut String, row: Option<&NearRow>) -> Result<(), AllocError> {
    match row {
        Some(row) => write!(out, "{} {}", kind_word(row.near.kind), row.near.mark),
        None => out.push_str("none"),
    }
}

// Adds the nearest of these marks as seen from a node.
fn add_nearest_of(
    alloc: Global,
    out: &mut String,
    family: &Family,
    marks: &MarkSets,
    node: &Node,
) -> Result<(), AllocError> {
    let rows = nearest_rows(
        alloc,
        family,
        marks.found.as_slice(),
        marks.fixed.as_slice(),
    )?;
    add_row(out, row_of(&rows, node))
}

// Adds the nearest mark as seen from a node, of the marks that are written so.
// Answers whether each word of these is a node.
fn add_nearest_at(
    alloc: Global,
    out: &mut String,
    family: &Family,
    words: MarkWords<'_>,
    node: &Node,
) -> Result<bool, AllocError> {
    let mut marks = no_marks(alloc);
    let are_nodes = read_marks(alloc, &mut marks, words)?;
    add_nearest_of(alloc, out, family, &marks, node)?;
    Ok(are_nodes)
}

/// Adds the nearest mark as seen from a node: `NODE, found NODES, fixed NODES`.
/// Answers whether the text tells all of these.
pub(crate) fn add_nearest(
    alloc: Global,
    out: &mut String,
    family: &Family,
    text: &str,
) -> Result<bool, AllocError> {
    let Some(words) = mark_words(text) else {
        return Ok(false);
    };
    match given(Node::read(alloc, words.first))? {
        Some(node) => add_nearest_at(alloc, out, family, words, &node),
        None => Ok(false),
    }
}

/// Adds the nodes whose line has one of these, in their order.
/// Answers whether each word is a node.
pub(crate) fn add_affected(
    alloc: Global,
    out: &mut String,
    family: &Family,
    text: &str,
) -> Result<bool, AllocError> {
    let mut nodes = Vec::new(alloc);
    let are_nodes = read_nodes(alloc, &mut nodes, text)?;
    add_sorted(alloc, out, &affected(alloc, family, &nodes)?)?;
    Ok(are_nodes)
}
