//! A tree that is made of all its links at once.

ghost use Rattle.std.specs.Prelude.{◌≡◌, ◌++◌, true, false, Some, flat_map, vec_items, IfOk, IfSome, OnOk};
ghost use Rattle.std.specs.BTreeMap.{IsFromIterResult};
ghost use Rattle.std.specs.List.Sorted.{IsPermutation};
ghost use Rattle.std.specs.Option.{option_copied, option_map_or};
ghost use Rattle.std.specs.Ordering.{is_lt};
ghost use Rattle.version_nodes.specs.Nodes.{Node, same_node, node_cmp};
ghost use Rattle.version_nodes.specs.Trees.{Ancestry, known_at, knows, parent_of, IsForest};
ghost use Rattle.ancestry.specs.Kept.{AreParents, HasParents};
ghost use Rattle.ancestry.specs.Whole.{HasLine, Stands};

use crate::branch::{mark_parent, put_above};
use crate::tree::Tree;
use std::alloc::{AllocError, Global};
use std::cmp::Ordering;
use std::collections::{BTreeMap, HashMap, HashSet};
use version_nodes::Node;

// The node's parent in these links, where it is known and has one.
pub(crate) fn parent_in<'a>(
    links: &'a BTreeMap<Node, Option<Node>>,
    node: &Node,
) -> Option<&'a Node>
    ensures { option_copied result ≡ parent_of links.now.entries node.now }
{
    match links.get(node) {
        Some(Some(parent)) => Some(parent),
        _ => None,
    }
}

// Whether the parents lead from a node to one that has none.
fn has_line<'a>(links: &'a BTreeMap<Node, Option<Node>>, from: &'a Node) -> bool
    ensures line { result ≡ true → HasLine links.now.entries from.now }
    ensures sure { IsForest links.now.entries → result ≡ true }
{
    let mut at = from;
    let mut steps = links.len();
    while let Some(parent) = parent_in(links, at) {
        if steps == 0 {
            return false;
        }
        steps -= 1;
        at = parent;
    }
    true
}

// Whether a parent is known, and comes before its node or has a line.
fn is_sound(links: &BTreeMap<Node, Option<Node>>, node: &Node, parent: &Node) -> bool
    ensures known { result ≡ true → knows links.now.entries parent.now ≡ true }
    ensures line { result ≡ true → is_lt (node_cmp parent.now node.now) ≡ false → HasLine links.now.entries parent.now }
    ensures sure { IsForest links.now.entries → parent_of links.now.entries node.now ≡ Some parent.now → result ≡ true }
{
    if !links.contains_key(parent) {
        return false;
    }
    if parent.cmp(node).is_lt() {
        return true;
    }
    has_line(links, parent)
}

// Whether it is this node.
fn is_node(maybe: Option<&Node>, node: &Node) -> bool
    ensures { result ≡ option_map_or (λ m. same_node m node.now) (option_copied maybe.entry) false }
{
    match maybe {
        Some(own) => own == node,
        None => false,
    }
}

// Whether the parent of a node, if it has one, is the node before it, which stands, or sound.
fn stands(
    links: &BTreeMap<Node, Option<Node>>,
    before: Option<&Node>,
    node: &Node,
    parent: &Option<Node>,
) -> bool
    requires link { known_at links.now.entries node.now ≡ Some parent.now }
    requires below { (p : Node) → knows links.now.entries p ≡ true → is_lt (node_cmp p node.now) ≡ true → Stands links.now.entries p }
    requires before { IfSome (option_copied before) (Stands links.now.entries) }
    ensures stands { result ≡ true → Stands links.now.entries node.now }
    ensures sure { IsForest links.now.entries → result ≡ true }
{
    // A look at the node, so that its texts are known to be a node's.
    let _ = node.source();
    let Some(parent) = parent else {
        return true;
    };
    if is_node(before, parent) {
        return true;
    }
    is_sound(links, node, parent)
}

// Whether all parents are known, and no node is in the line of its parent.
// It goes through the nodes in their order: a parent that comes before its node was seen to.
fn are_forest(links: &BTreeMap<Node, Option<Node>>) -> bool
    ensures forest { result ≡ true → IsForest links.now.entries }
    ensures sure { IsForest links.now.entries → result ≡ true }
{
    let mut before = None;
    for (node, parent) in links {
        if !stands(links, before, node, parent) {
            return false;
        }
        before = Some(node);
    }
    true
}

// The parents in links.
fn parents_of(
    alloc: Global,
    links: &BTreeMap<Node, Option<Node>>,
) -> Result<HashSet<Node>, AllocError>
    ensures { IfOk result (AreParents links.now.entries) }
{
    let mut parents = HashSet::with_capacity(alloc, links.len())?;
    for parent in links.values() {
        if let Some(parent) = parent {
            mark_parent(&mut parents, parent)?;
        }
    }
    Ok(parents)
}

// The parent of each node that has one in links.
fn parents_above(
    alloc: Global,
    links: &BTreeMap<Node, Option<Node>>,
) -> Result<HashMap<Node, Node>, AllocError>
    ensures { IfOk result (HasParents links.now.entries) }
{
    let mut above = HashMap::with_capacity(alloc, links.len())?;
    for (node, parent) in links {
        if let Some(parent) = parent {
            put_above(&mut above, node, parent)?;
        }
    }
    Ok(above)
}

// The order of two links of one source by the texts of their versions: the shorter comes first.
fn by_version(a: &(Node, Option<Node>), b: &(Node, Option<Node>)) -> Ordering {
    let left = a.0.version().as_bytes();
    let right = b.0.version().as_bytes();
    left.len().cmp(&right.len()).then(left.cmp(right))
}

// The order of two groups by the sources of their first links; an empty group stands alone.
fn by_source(a: &Vec<(Node, Option<Node>)>, b: &Vec<(Node, Option<Node>)>) -> Ordering {
    match (a.first(), b.first()) {
        (Some(a), Some(b)) => a.0.source().as_bytes().cmp(b.0.source().as_bytes()),
        _ => Ordering::Equal,
    }
}

// Whether both are there, and of two sources.
fn are_of_two(a: Option<&(Node, Option<Node>)>, b: Option<&(Node, Option<Node>)>) -> bool {
    match (a, b) {
        (Some(a), Some(b)) => !a.0.is_of(b.0.source()),
        _ => false,
    }
}

// These links in groups, each of links that follow one another and are of one source.
fn in_groups(
    alloc: Global,
    links: Vec<(Node, Option<Node>)>,
) -> Result<Vec<Vec<(Node, Option<Node>)>>, AllocError>
    ensures { IfOk result (λ groups. flat_map vec_items groups.items ≡ links.items) }
{
    let mut groups = Vec::new(alloc);
    let mut group = Vec::new(alloc);
    for link in links {
        if are_of_two(group.last(), Some(&link)) {
            groups.push(group)?;
            group = Vec::new(alloc);
        }
        group.push(link)?;
    }
    groups.push(group)?;
    Ok(groups)
}

// Puts the links of a source at the end of others, by their versions.
// Those that descend, as they mostly do, are sorted in one pass.
fn put_source(
    links: &mut Vec<(Node, Option<Node>)>,
    mut group: Vec<(Node, Option<Node>)>,
) -> Result<(), AllocError>
    ensures { OnOk result (IsPermutation (links.old.items ++ group.items) links.new.items) }
{
    group.sort_by(by_version)?;
    links.append(&mut group)?;
    Ok(())
}

// The links of these groups, those of each source by their versions.
fn joined(
    alloc: Global,
    groups: Vec<Vec<(Node, Option<Node>)>>,
) -> Result<Vec<(Node, Option<Node>)>, AllocError>
    ensures { IfOk result (λ links. IsPermutation (flat_map vec_items groups.items) links.items) }
{
    let mut links = Vec::new(alloc);
    let mut group = Vec::new(alloc);
    for mut next in groups {
        if are_of_two(group.last(), next.first()) {
            put_source(&mut links, group)?;
            group = next;
        } else {
            group.append(&mut next)?;
        }
    }
    put_source(&mut links, group)?;
    Ok(links)
}

// These links by their texts, which mostly is the order of their nodes: there each is then
// compared with its neighbours alone.
// Links of one source mostly stand together, so that there are few groups to be sorted.
fn in_text_order(
    alloc: Global,
    links: Vec<(Node, Option<Node>)>,
) -> Result<Vec<(Node, Option<Node>)>, AllocError>
    ensures { IfOk result (λ sorted. IsPermutation links.items sorted.items) }
{
    let mut groups = in_groups(alloc, links)?;
    groups.sort_by(by_source)?;
    joined(alloc, groups)
}

// These links as a map.
fn map_of(
    alloc: Global,
    links: Vec<(Node, Option<Node>)>,
) -> Result<BTreeMap<Node, Option<Node>>, AllocError>
    ensures { IfOk result (IsFromIterResult node_cmp links.items) }
{
    links.into_iter().collect(alloc)
}

impl Tree {
    /// The tree of these links, in any order: each has a node, and its parent if it has one.
    /// `None` where a parent has no link of its own, or where a node is in the line of its parent.
    /// A node has one link; of several the last is taken.
    /// The error is that there was no memory.
    /// It sorts the links, and looks up only a parent that is not the node right before its own;
    /// from one that comes after its node it walks up the line.
    /// This project's own rule.
    pub fn of_links(
        alloc: Global,
        links: Vec<(Node, Option<Node>)>,
    ) -> Result<Option<Tree>, AllocError>
        ensures tree { (t : Ancestry) → IsForest t → IsPermutation t links.items → IfOk result (λ tree. tree ≡ Some t) }
        ensures forest { IfOk result (λ tree. IfSome tree IsForest) }
    {
        let sorted = in_text_order(alloc, links)?;
        let links = map_of(alloc, sorted)?;
        if !are_forest(&links) {
            return Ok(None);
        }
        let above = parents_above(alloc, &links)?;
        let parents = parents_of(alloc, &links)?;
        Ok(Some(Tree {
            links,
            above,
            parents,
            alloc,
        }))
    }
}
