//! A tree of versions in which one can go from a node to its children.

ghost use Rattle.std.specs.Prelude.{◌≡◌, true, false, Some, Err, All, IfOk, OnOk};
ghost use Rattle.std.specs.Option.{option_copied, option_map_or};
ghost use Rattle.std.specs.BTreeSet.{contains};
ghost use Rattle.version_nodes.specs.Nodes.{Node, node_cmp};
ghost use Rattle.version_nodes.specs.Trees.{Ancestry, no_nodes, knows, is_ancestor, IsForest};
ghost use Rattle.version_nodes.specs.Branches.{branched, TakesMemory, IsBranched, AreBased, Extends};
ghost use Rattle.ancestry.specs.Links.{has_parent};
ghost use Rattle.version_nodes.specs.declared.fault.BranchFault.TheVariants.{Memory};
ghost use Rattle.version_marks.specs.Children.{is_child, is_pair, AreChildren};

use crate::children::{add_pairs, children_of, settle_pairs};
use crate::refusals::fault_without_memory;
use ancestry::Tree;
use std::alloc::{AllocError, Global};
use std::collections::{BTreeSet, HashMap};
use std::marker::Model;
use version_nodes::{BranchFault, Node};

/// A tree of versions in which one can go from a node to those that are based on it.
/// Contracts see its ancestry.
#[derive(Drop)]
pub struct Family {
    tree: Tree,
    // The children of each node that has some; of others there may be none, too.
    children: HashMap<Node, BTreeSet<Node>>,
    alloc: Global,
}

impl Model for Family {
    ghost use Rattle.version_nodes.specs.Trees.{Ancestry, IsForest};
    ghost use Rattle.version_marks.specs.Children.{AreChildren};

    ghost Value = { Ancestry };

    ghost view = { λ f. f.tree };

    ghost invariant = { λ f. IsForest f.tree × AreChildren f.tree f.children };
}

// Takes a branch, and adds its nodes to the children of the next ones, whether they are or not.
fn take_into(
    alloc: Global,
    tree: &mut Tree,
    children: &mut HashMap<Node, BTreeSet<Node>>,
    nodes: &[Node],
) -> Result<(), BranchFault>
    requires was_forest { IsForest tree.old }
    requires fitted { AreChildren tree.old children.old }
    ensures exact { IsBranched tree.old nodes.now result tree.new }
    ensures memory { result ≡ Err Memory → TakesMemory (branched tree.old nodes.now) }
    ensures based { OnOk result (AreBased tree.new nodes.now) }
    ensures keeps { OnOk result ((n p : Node) → is_ancestor tree.old p n ≡ true → is_ancestor tree.new p n ≡ true) }
    ensures known { OnOk result (All (λ n. knows tree.new n ≡ true) nodes.now) }
    ensures extends { OnOk result (Extends tree.old nodes.now tree.new) }
    ensures forest { IsForest tree.new }
    ensures others { (p c : Node) → is_pair nodes.now c p ≡ false → is_child children.new p c ≡ has_parent tree.new c (Some p) }
    ensures pairs { (p c : Node) → is_pair nodes.now c p ≡ true → has_parent tree.new c (Some p) ≡ true
        → is_child children.new p c ≡ true }
{
    match add_pairs(alloc, children, nodes) {
        Ok(()) => tree.take_branch(nodes),
        Err(_) => Err(fault_without_memory(nodes)),
    }
}

impl Family {
    /// No node is known.
    /// It takes no memory.
    pub fn new(alloc: Global) -> Family
        ensures { result ≡ no_nodes }
    {
        Family {
            tree: Tree::new(alloc),
            children: HashMap::new(alloc),
            alloc,
        }
    }

    /// The family of a tree.
    /// The error is that there was no memory.
    pub fn of_tree(alloc: Global, tree: Tree) -> Result<Family, AllocError>
        ensures { IfOk result (λ family. family ≡ tree) }
    {
        let children = children_of(alloc, &tree)?;
        Ok(Family {
            tree,
            children,
            alloc,
        })
    }

    /// The tree.
    pub fn tree(&self) -> &Tree
        ensures tree { result.now ≡ self.now }
        ensures forest { IsForest self.now }
    {
        &self.tree
    }

    // The children of a node, if it has some.
    pub(crate) fn children(&self, node: &Node) -> Option<&BTreeSet<Node>>
        ensures { (c : Node) → option_map_or (λ cs. contains node_cmp cs c) (option_copied result) false
            ≡ has_parent self.now c (Some node.now) }
    {
        self.children.get(node)
    }

    /// Takes a branch, which is a list of 1 to 200 nodes, each based on the next, as
    /// `ancestry::Tree::take_branch` does.
    /// The error says why it is refused, or that there was no memory; after it the tree is as
    /// before.
    pub fn take_branch(&mut self, nodes: &[Node]) -> Result<(), BranchFault>
        ensures exact { IsBranched self.old nodes.now result self.new }
        ensures memory { result ≡ Err Memory → TakesMemory (branched self.old nodes.now) }
        ensures based { OnOk result (AreBased self.new nodes.now) }
        ensures keeps { OnOk result ((n p : Node) → is_ancestor self.old p n ≡ true → is_ancestor self.new p n ≡ true) }
        ensures known { OnOk result (All (λ n. knows self.new n ≡ true) nodes.now) }
        ensures extends { OnOk result (Extends self.old nodes.now self.new) }
        ensures forest { IsForest self.new }
    {
        let result = take_into(self.alloc, &mut self.tree, &mut self.children, nodes);
        settle_pairs(&mut self.children, &self.tree, nodes);
        result
    }
}
