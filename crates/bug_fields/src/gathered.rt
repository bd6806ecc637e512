//! The found or the fixed nodes of several sets, gathered into one.

ghost use Rattle.std.specs.Prelude.{◌≡◌, [], None, IfOk, OnOk};
ghost use Rattle.std.specs.Option.{option_copied};
ghost use Rattle.bug_record.specs.Marks.{with_node};
ghost use Rattle.bug_fields.specs.Gathered.{comes_after, is_ordered, with_nodes};

use bug_record::{Nodes, Sequence, copy_nodes};
use std::alloc::{AllocError, Global};
use std::collections::BTreeSet;
use std::marker::Model;
use version_nodes::Node;

/// A set of nodes that is gathered, which contracts see as a list in node order.
/// As long as all lists that are added are one list or empty, it is that list.
/// From the first other one on it is a tree, so that one more node is added in the logarithm of
/// their number.
#[derive(Drop)]
pub struct GatheredNodes {
    list: Nodes,
    tree: Option<BTreeSet<Node>>,
}

impl Model for GatheredNodes {
    ghost use Rattle.std.specs.Prelude.{List};
    ghost use Rattle.std.specs.List.Sorted.{IsStrictlySortedBy};
    ghost use Rattle.version_nodes.specs.Nodes.{Node, node_cmp};
    ghost use Rattle.bug_fields.specs.Gathered.{gathered};

    ghost Value = { List Node };

    ghost view = { λ m. gathered m.list m.tree };

    ghost invariant = { λ m. IsStrictlySortedBy node_cmp m.list };
}

// Whether the node comes after the last one, if there is one.
fn comes_after(last: Option<&Node>, node: &Node) -> bool
    ensures { result ≡ comes_after (option_copied last.entry) node.now }
{
    match last {
        Some(last) => last.cmp(node).is_lt(),
        None => true,
    }
}

// Whether each node stands once, in node order.
fn is_ordered(nodes: &[Node]) -> bool
    ensures { result ≡ is_ordered None nodes.now }
{
    let mut last = None;
    for node in nodes {
        if !comes_after(last, node) {
            return false;
        }
        last = Some(node);
    }
    true
}

// Adds a copy of the node, unless it is there.
fn add_node(set: &mut BTreeSet<Node>, node: &Node) -> Result<(), AllocError>
    ensures { OnOk result (set.new.keys ≡ with_node set.old.keys node.now) }
{
    set.insert(node.copy()?)?;
    Ok(())
}

fn add_nodes(set: &mut BTreeSet<Node>, nodes: &[Node]) -> Result<(), AllocError>
    ensures { OnOk result (set.new.keys ≡ with_nodes set.old.keys nodes.now) }
{
    for node in nodes {
        add_node(set, node)?;
    }
    Ok(())
}

// The set of the nodes of both lists.
fn both(alloc: Global, nodes: &[Node], others: &[Node]) -> Result<BTreeSet<Node>, AllocError>
    ensures { IfOk result (λ set. set.keys ≡ with_nodes (with_nodes [] nodes.now) others.now) }
{
    let mut set = BTreeSet::new(alloc);
    add_nodes(&mut set, nodes)?;
    add_nodes(&mut set, others)?;
    Ok(set)
}

impl GatheredNodes {
    /// The empty set.
    /// It takes no memory.
    pub fn new(alloc: Global) -> GatheredNodes
        ensures { result ≡ [] }
    {
        GatheredNodes {
            list: Sequence::new(alloc),
            tree: None,
        }
    }

    /// Adds copies of the nodes.
    pub fn add(&mut self, alloc: Global, nodes: &Nodes) -> Result<(), AllocError>
        ensures { OnOk result (self.new ≡ with_nodes self.old nodes.now) }
    {
        if let Some(tree) = &mut self.tree {
            return add_nodes(tree, nodes.as_slice());
        }
        if nodes.as_slice().is_empty() {
            return Ok(());
        }
        if self.list == *nodes {
            return Ok(());
        }
        if self.list.as_slice().is_empty() && is_ordered(nodes.as_slice()) {
            self.list = copy_nodes(nodes)?;
            return Ok(());
        }
        self.tree = Some(both(alloc, self.list.as_slice(), nodes.as_slice())?);
        Ok(())
    }

    /// The nodes, in order.
    pub fn into_nodes(self, alloc: Global) -> Result<Nodes, AllocError>
        ensures { IfOk result (λ nodes. nodes ≡ self) }
    {
        let GatheredNodes { list, tree } = self;
        match tree {
            Some(tree) => Sequence::of_set(alloc, tree),
            None => Ok(list),
        }
    }
}
