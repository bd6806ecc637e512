//! Nodes, branches, and the status of a bug at a node.

use crate::kinds::NodeKind;
use crate::words::{StatusWords, status_words};
use ancestry::{BranchFault, Tree, status};
use bug_record::{Nodes, Sequence};
use std::alloc::{AllocError, Global};
use version_marks::Family;
use version_nodes::{Node, NodeFault};

// The node, if the text gave one.
pub(crate) fn given(node: Result<Node, NodeFault>) -> Result<Option<Node>, AllocError> {
    match node {
        Ok(node) => Ok(Some(node)),
        Err(NodeFault::BadNode) => Ok(None),
        Err(NodeFault::Memory) => Err(AllocError),
    }
}

// Adds the source and the version of a node.
fn add_parts(out: &mut String, node: &Node) -> Result<(), AllocError> {
    write!(out, "source {}, version {}", node.source(), node.version())
}

/// Adds the source and the version of a node, where there is one.
pub(crate) fn add_node(out: &mut String, node: Result<Node, NodeFault>) -> Result<(), AllocError> {
    match given(node)? {
        Some(node) => add_parts(out, &node),
        None => out.push_str("BadNode"),
    }
}

/// Adds the node that a word means for a package, which stands before it.
/// Answers whether a package stands there.
pub(crate) fn add_meant(alloc: Global, out: &mut String, text: &str) -> Result<bool, AllocError> {
    match text.split_once(' ') {
        Some((package, word)) => {
            add_node(out, Node::at(alloc, package, word))?;
            Ok(true)
        }
        None => Ok(false),
    }
}

// Puts the nodes that are written so, with blanks between them, into a list; answers whether each
// word is a node.
pub(crate) fn read_nodes(
    alloc: Global,
    nodes: &mut Vec<Node>,
    text: &str,
) -> Result<bool, AllocError> {
    for word in text.split_ascii_whitespace() {
        match given(Node::read(alloc, word))? {
            Some(node) => nodes.push(node)?,
            None => return Ok(false),
        }
    }
    Ok(true)
}

// Adds the node that stands at a place of a list, after a blank where it is not the first.
fn add_listed(out: &mut String, place: usize, node: &Node) -> Result<(), AllocError> {
    if place > 0 {
        out.push(' ')?;
    }
    write!(out, "{node}")
}

// Adds nodes as they are written; `-` where there is none.
fn add_nodes(out: &mut String, nodes: &[Node]) -> Result<(), AllocError> {
    if nodes.is_empty() {
        return out.push('-');
    }
    for (place, node) in nodes.iter().enumerate() {
        add_listed(out, place, node)?;
    }
    Ok(())
}

// Puts copies of the nodes into their order, each once.
pub(crate) fn sort(sorted: &mut Nodes, nodes: &[Node]) -> Result<(), AllocError> {
    for node in nodes {
        bug_record::add_node(sorted, node.copy()?)?;
    }
    Ok(())
}

// Adds the nodes in their order, each once.
pub(crate) fn add_sorted(
    alloc: Global,
    out: &mut String,
    nodes: &[Node],
) -> Result<(), AllocError> {
    let mut sorted = Sequence::new(alloc);
    sort(&mut sorted, nodes)?;
    add_nodes(out, sorted.as_slice())
}

/// Adds the nodes of a list in their order, each once.
/// Answers whether each word is a node.
pub(crate) fn add_node_list(
    alloc: Global,
    out: &mut String,
    text: &str,
) -> Result<bool, AllocError> {
    let mut nodes = Vec::new(alloc);
    let are_nodes = read_nodes(alloc, &mut nodes, text)?;
    if are_nodes {
        add_sorted(alloc, out, &nodes)?;
    }
    Ok(are_nodes)
}

// Takes a branch, and adds what came of it.
fn add_taken(out: &mut String, family: &mut Family, nodes: &[Node]) -> Result<(), AllocError> {
    match family.take_branch(nodes) {
        Ok(()) => out.push_str("Ok"),
        Err(BranchFault::Memory) => Err(AllocError),
        Err(fault) => write!(out, "{fault:?}"),
    }
}

/// Takes the branch of these nodes, and adds what came of it.
/// Answers whether each word is a node.
pub(crate) fn add_branch(
    alloc: Global,
    out: &mut String,
    family: &mut Family,
    text: &str,
) -> Result<bool, AllocError> {
    let mut nodes = Vec::new(alloc);
    let are_nodes = read_nodes(alloc, &mut nodes, text)?;
    if are_nodes {
        add_taken(out, family, &nodes)?;
    }
    Ok(are_nodes)
}

// Adds what a tree tells of a node.
fn add_told(out: &mut String, tree: &Tree, kind: NodeKind, node: &Node) -> Result<(), AllocError> {
    match kind {
        NodeKind::Knows => out.push_str(if tree.knows(node) { "yes" } else { "no" }),
        NodeKind::Line => add_nodes(out, &tree.line(node)?),
    }
}

/// Adds what a tree tells of the node that is written so.
/// Answers whether it is a node.
pub(crate) fn add_of_node(
    alloc: Global,
    out: &mut String,
    tree: &Tree,
    kind: NodeKind,
    text: &str,
) -> Result<bool, AllocError> {
    match given(Node::read(alloc, text))? {
        Some(node) => {
            add_told(out, tree, kind, &node)?;
            Ok(true)
        }
        None => Ok(false),
    }
}

/// Adds the heads of a package.
pub(crate) fn add_heads(out: &mut String, tree: &Tree, text: &str) -> Result<(), AllocError> {
    add_nodes(out, &tree.heads(text)?)
}

// Whether a state is that of a closed bug; `None` where it is no state.
fn is_closed(state: &str) -> Option<bool> {
    match state {
        "open" => Some(false),
        "closed" => Some(true),
        _ => None,
    }
}

// The nodes where a bug is found, and those where it is fixed.
#[derive(Drop)]
struct MarkLists {
    found: Vec<Node>,
    fixed: Vec<Node>,
}

// Puts the nodes of a status into lists; answers whether each word is a node.
fn read_marks(
    alloc: Global,
    marks: &mut MarkLists,
    words: StatusWords<'_>,
) -> Result<bool, AllocError> {
    Ok(
        read_nodes(alloc, &mut marks.found, words.found)?
            && read_nodes(alloc, &mut marks.fixed, words.fixed)?,
    )
}

// Adds the status, at a node, of a bug in a state with these marks.
fn add_status_of(
    out: &mut String,
    tree: &Tree,
    marks: &MarkLists,
    closed: bool,
    node: &Node,
) -> Result<(), AllocError> {
    write!(
        out,
        "{:?}",
        status(tree, &marks.found, &marks.fixed, closed, node)
    )
}

// Adds the status, at a node, of a bug that is found and fixed at the nodes that are written so.
fn add_marked(
    alloc: Global,
    out: &mut String,
    tree: &Tree,
    words: StatusWords<'_>,
    closed: bool,
    node: &Node,
) -> Result<bool, AllocError> {
    let mut marks = MarkLists {
        found: Vec::new(alloc),
        fixed: Vec::new(alloc),
    };
    let are_nodes = read_marks(alloc, &mut marks, words)?;
    if are_nodes {
        add_status_of(out, tree, &marks, closed, node)?;
    }
    Ok(are_nodes)
}

/// Adds the status, at a node, of a bug in a state, with nodes where it is found and fixed.
/// Answers whether the text tells all of these.
pub(crate) fn add_status(
    alloc: Global,
    out: &mut String,
    tree: &Tree,
    text: &str,
) -> Result<bool, AllocError> {
    let Some(words) = status_words(text) else {
        return Ok(false);
    };
    let Some(closed) = is_closed(words.state) else {
        return Ok(false);
    };
    match given(Node::read(alloc, words.node))? {
        Some(node) => add_marked(alloc, out, tree, words, closed, &node),
        None => Ok(false),
    }
}
