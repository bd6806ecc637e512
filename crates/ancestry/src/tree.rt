//! Which node is based on which.

ghost use Rattle.std.specs.Prelude.{◌≡◌, ◌++◌, not, true, false, filter, IfOk, OnOk, IfSome};
ghost use Rattle.std.specs.List.Sorted.{IsStrictlySortedBy};
ghost use Rattle.std.specs.Option.{option_copied, option_map_or};
ghost use Rattle.ancestry.specs.Kept.{listed};
ghost use Rattle.version_nodes.specs.Nodes.{node_cmp, same_node};
ghost use Rattle.version_nodes.specs.Trees.{no_nodes, knows, parent_of, IsLine, line, is_parent, heads, IsForest};

use std::alloc::{AllocError, Global};
use std::collections::{BTreeMap, HashMap, HashSet};
use std::marker::Model;
use version_nodes::{Node, NodeFault};

/// The known nodes, each with its parent, if it has one: parents are known, and there are no
/// cycles.
/// Contracts see the links in node order.
/// This project's own rule.
#[derive(Drop)]
pub struct Tree {
    pub(crate) links: BTreeMap<Node, Option<Node>>,
    // The parents once more: a node is found by its texts, and its version is not compared.
    pub(crate) above: HashMap<Node, Node>,
    // The nodes that are some node's parent, whatever the source of that one.
    pub(crate) parents: HashSet<Node>,
    pub(crate) alloc: Global,
}

impl Model for Tree {
    ghost use Rattle.version_nodes.specs.Trees.{Ancestry, IsForest};
    ghost use Rattle.ancestry.specs.Kept.{AreParents, HasParents};

    ghost Value = { Ancestry };

    ghost view = { λ t. t.links.entries };

    ghost invariant = { λ t. IsForest t.links.entries × AreParents t.links.entries t.parents
        × HasParents t.links.entries t.above };
}

// Whether this node is the given one.
fn is_given(given: Option<&Node>, node: &Node) -> bool
    ensures { result ≡ option_map_or (same_node node.now) (option_copied given.entry) false }
{
    match given {
        Some(given) => node == given,
        None => false,
    }
}

impl Tree {
    /// A tree that knows no node.
    pub fn new(alloc: Global) -> Tree
        ensures { result ≡ no_nodes }
    {
        Tree {
            links: BTreeMap::new(alloc),
            above: HashMap::new(alloc),
            parents: HashSet::new(alloc),
            alloc,
        }
    }

    /// The known nodes in node order, each with its parent, if it has one.
    pub fn links(&self) -> &BTreeMap<Node, Option<Node>>
        ensures links { result.now.entries ≡ self.now }
        ensures forest { IsForest self.now }
    {
        &self.links
    }

    /// Whether a node is known.
    /// Takes no memory.
    pub fn knows(&self, node: &Node) -> bool
        ensures { result ≡ knows self.now node.now }
    {
        self.links.contains_key(node)
    }

    /// The node's parent, where it is known and has one.
    /// Takes no memory.
    pub fn parent(&self, node: &Node) -> Option<&Node>
        ensures value { option_copied result ≡ parent_of self.now node.now }
        ensures forest { IsForest self.now }
    {
        self.above.get(node)
    }

    /// The line of a node: copies of the node, its parent, and so on to one that has none.
    /// An unknown node's line is itself alone.
    /// The error is that there was no memory.
    pub fn line(&self, node: &Node) -> Result<Vec<Node>, AllocError>
        ensures value { IfOk result (λ nodes. nodes.items ≡ line self.now node.now) }
        ensures is_line { IfOk result (λ nodes. IsLine self.now node.now nodes.items) }
        ensures forest { IsForest self.now }
    {
        let mut nodes = Vec::new(self.alloc);
        let mut at = Some(node);
        while let Some(here) = at {
            nodes.push(here.copy()?)?;
            at = self.parent(here);
        }
        Ok(nodes)
    }

    // Whether a node is some node's parent.
    pub(crate) fn is_parent(&self, node: &Node) -> bool
        ensures { result ≡ is_parent self.now node.now }
    {
        self.parents.contains(node)
    }

    // Adds the node, if there is one and it is no node's parent, where this is some node's parent.
    // Most nodes are the parent of the node that follows them, and are not looked up.
    fn push_head(
        &self,
        heads: &mut Vec<Node>,
        node: Option<&Node>,
        parent: Option<&Node>,
    ) -> Result<(), AllocError>
        requires { IfSome (option_copied parent) (λ p. is_parent self.now p ≡ true) }
        ensures { OnOk result (heads.new.items ≡ heads.old.items
            ++ filter (λ n. not (is_parent self.now n)) (listed (option_copied node.entry))) }
    {
        let Some(node) = node else {
            return Ok(());
        };
        if is_given(parent, node) {
            return Ok(());
        }
        if self.is_parent(node) {
            return Ok(());
        }
        heads.push(node.copy()?)?;
        Ok(())
    }

    /// The heads of a source package: copies of its known nodes that are no node's parent, in node
    /// order.
    /// A text that is no package name has none.
    /// The error is that there was no memory.
    /// It goes through the known nodes of that package alone, up to the one after them; to find the
    /// first is a look-up in a sorted map.
    pub fn heads(&self, source: &str) -> Result<Vec<Node>, AllocError>
        ensures value { IfOk result (λ nodes. nodes.items ≡ heads self.now source.now) }
        ensures ascending { IfOk result (λ nodes. IsStrictlySortedBy node_cmp nodes.items) }
    {
        let mut heads = Vec::new(self.alloc);
        let lowest = match Node::lowest(self.alloc, source) {
            Ok(lowest) => lowest,
            Err(NodeFault::BadNode) => return Ok(heads),
            Err(NodeFault::Memory) => return Err(AllocError),
        };
        let mut last = None;
        for (node, parent) in self.links.range(lowest..) {
            if !node.is_of(source) {
                break;
            }
            self.push_head(&mut heads, last, parent.as_ref())?;
            last = Some(node);
        }
        self.push_head(&mut heads, last, None)?;
        Ok(heads)
    }
}
