//! The children of each node.

ghost use Rattle.std.specs.Prelude.{◌≡◌, ◌+◌, ◌<◌, ◌&&◌, ◌||◌, true, false, not, Some, IfOk, OnOk, OnErr};
ghost use Rattle.version_nodes.specs.Nodes.{Node, same_node};
ghost use Rattle.version_nodes.specs.Trees.{IsForest};
ghost use Rattle.ancestry.specs.Links.{has_parent};
ghost use Rattle.version_marks.specs.Children.{is_child, is_pair, AreChildren};

use ancestry::Tree;
use std::alloc::{AllocError, Global};
use std::collections::{BTreeSet, HashMap};
use version_nodes::Node;

// Adds a child to those of a node.
// It is one look-up.
fn add_child(
    alloc: Global,
    children: &mut HashMap<Node, BTreeSet<Node>>,
    child: &Node,
    parent: &Node,
) -> Result<(), AllocError>
    ensures ok { OnOk result ((p c : Node) → is_child children.new p c
        ≡ ((same_node c child.now && same_node p parent.now) || is_child children.old p c)) }
    ensures err { OnErr result ((p c : Node) → is_child children.new p c ≡ is_child children.old p c) }
{
    let copy = child.copy()?;
    let own = children
        .entry(parent.copy()?)?
        .or_insert(BTreeSet::new(alloc));
    own.insert(copy)?;
    Ok(())
}

// The children of each node of a tree.
pub(crate) fn children_of(
    alloc: Global,
    tree: &Tree,
) -> Result<HashMap<Node, BTreeSet<Node>>, AllocError>
    ensures children { IfOk result (AreChildren tree.now) }
    ensures forest { IsForest tree.now }
{
    let links = tree.links();
    let mut children = HashMap::with_capacity(alloc, links.len())?;
    for (node, parent) in links {
        if let Some(parent) = parent {
            add_child(alloc, &mut children, node, parent)?;
        }
    }
    Ok(children)
}

// Takes a child out of those of a node.
// This takes no memory.
fn remove_child(children: &mut HashMap<Node, BTreeSet<Node>>, child: &Node, parent: &Node)
    ensures { (p c : Node) → is_child children.new p c
        ≡ (not (same_node c child.now && same_node p parent.now) && is_child children.old p c) }
{
    if let Some(own) = children.get_mut(parent) {
        own.remove(child);
    }
}

// Adds each node of a branch to the children of the next one.
// After an error some of it may have been done.
pub(crate) fn add_pairs(
    alloc: Global,
    children: &mut HashMap<Node, BTreeSet<Node>>,
    nodes: &[Node],
) -> Result<(), AllocError>
    ensures others { (p c : Node) → is_pair nodes.now c p ≡ false → is_child children.new p c ≡ is_child children.old p c }
    ensures kept { (p c : Node) → is_child children.old p c ≡ true → is_child children.new p c ≡ true }
    ensures added { OnOk result ((p c : Node) → is_pair nodes.now c p ≡ true → is_child children.new p c ≡ true) }
{
    for place in 1..nodes.len() {
        add_child(alloc, children, &nodes[place - 1], &nodes[place])?;
    }
    Ok(())
}

// Whether this is the node's parent.
fn has_parent(tree: &Tree, node: &Node, parent: &Node) -> bool
    ensures { result ≡ has_parent tree.now node.now (Some parent.now) }
{
    match tree.parent(node) {
        Some(own) => parent == own,
        None => false,
    }
}

// Takes a node out of the children of one that isn't its parent.
fn settle(children: &mut HashMap<Node, BTreeSet<Node>>, tree: &Tree, child: &Node, parent: &Node)
    ensures { (p c : Node) → is_child children.new p c
        ≡ ((not (same_node c child.now && same_node p parent.now) || has_parent tree.now c (Some p)) && is_child children.old p c) }
{
    if !has_parent(tree, child, parent) {
        remove_child(children, child, parent);
    }
}

// Takes each node of a branch out of the children of the next one, unless that is its parent.
pub(crate) fn settle_pairs(
    children: &mut HashMap<Node, BTreeSet<Node>>,
    tree: &Tree,
    nodes: &[Node],
)
    ensures { (p c : Node) → is_child children.new p c
        ≡ ((not (is_pair nodes.now c p) || has_parent tree.now c (Some p)) && is_child children.old p c) }
{
    for place in 1..nodes.len() {
        settle(children, tree, &nodes[place - 1], &nodes[place]);
    }
}
