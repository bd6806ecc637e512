//! Branches: lists of nodes, each based on the next.

ghost use Rattle.std.specs.Prelude.{◌≡◌, Bool, true, false, List, [], ◌∷◌, None, Some, is_some, Ok, Err, map, option_map, All, IfOk, OnOk};
ghost use Rattle.std.specs.Prelude.{OnErr, if◌then◌else◌};
ghost use Rattle.std.specs.List.Sorted.{IsStrictlySortedBy};
ghost use Rattle.std.specs.HashMap.{get};
ghost use Rattle.std.specs.HashSet.{contains};
ghost use Rattle.std.specs.Map.{keys_of};
ghost use Rattle.version_nodes.specs.Nodes.{Node, same_node, node_cmp};
ghost use Rattle.version_nodes.specs.Trees.{Ancestry, has_node, known_at, knows, parent_of, line, is_ancestor, is_parent, IsForest};
ghost use Rattle.version_nodes.specs.Branches.{learn, learn_all, with_parent, or_conflict, base_on, base_all, is_repeat, first_repeat};
ghost use Rattle.version_nodes.specs.Branches.{branched, IsBranched, TakesMemory, AreBased, may_change, Extends};
ghost use Rattle.ancestry.specs.Changes.{Makes, past_of};
ghost use Rattle.ancestry.specs.Kept.{Adds};
ghost use Rattle.version_nodes.specs.declared.fault.BranchFault.TheVariants.{Memory};

use crate::tree::Tree;
use crate::whole::parent_in;
use std::alloc::AllocError;
use std::collections::{BTreeMap, HashMap, HashSet};
use version_nodes::{BranchFault, Node};

// How many nodes a branch has at most.
const MOST_NODES: usize = 200;

// What was known of a node before a branch is taken.
#[derive(Clone, Copy, Drop)]
enum Past {
    // It was not known.
    Unknown,
    // It had no parent.
    Root,
    // It had a parent.
    Based,
}

// Whether the node at a place stands earlier, too.
fn is_repeat(nodes: &[Node], place: usize) -> bool
    ensures { result ≡ is_repeat nodes.now place }
{
    match nodes.get(place) {
        Some(node) => nodes[..place].contains(node),
        None => false,
    }
}

// The first place whose node stands earlier.
fn first_repeat(nodes: &[Node]) -> Option<usize>
    ensures { result ≡ first_repeat nodes.now }
{
    (0..nodes.len()).find(|place| is_repeat(nodes, *place))
}

// Puts a copy of a node among the parents.
pub(crate) fn mark_parent(parents: &mut HashSet<Node>, node: &Node) -> Result<(), AllocError>
    ensures ok { OnOk result ((n : Node) → contains same_node parents.new n
        ≡ (if same_node node.now n then true else contains same_node parents.old n)) }
    ensures err { OnErr result ((n : Node) → contains same_node parents.new n ≡ contains same_node parents.old n) }
{
    parents.insert(node.copy()?)?;
    Ok(())
}

// Puts a copy of a node's parent where it is found by the node's texts.
pub(crate) fn put_above(
    above: &mut HashMap<Node, Node>,
    node: &Node,
    parent: &Node,
) -> Result<(), AllocError>
    ensures ok { OnOk result ((n : Node) → get same_node above.new n
        ≡ (if same_node node.now n then Some parent.now else get same_node above.old n)) }
    ensures err { OnErr result ((n : Node) → get same_node above.new n ≡ get same_node above.old n) }
{
    above.insert(node.copy()?, parent.copy()?)?;
    Ok(())
}

// Puts the parent of a node that has none where it is found by the node's texts, and among the
// parents; where there is no memory, both are as before.
fn note_parent(
    above: &mut HashMap<Node, Node>,
    parents: &mut HashSet<Node>,
    node: &Node,
    parent: &Node,
) -> Result<(), AllocError>
    requires { get same_node above.old node.now ≡ None }
    ensures above { OnOk result ((n : Node) → get same_node above.new n
        ≡ (if same_node node.now n then Some parent.now else get same_node above.old n)) }
    ensures parents { OnOk result ((n : Node) → contains same_node parents.new n
        ≡ (if same_node parent.now n then true else contains same_node parents.old n)) }
    ensures no_above { OnErr result ((n : Node) → get same_node above.new n ≡ get same_node above.old n) }
    ensures no_parents { OnErr result ((n : Node) → contains same_node parents.new n ≡ contains same_node parents.old n) }
{
    put_above(above, node, parent)?;
    match mark_parent(parents, parent) {
        Ok(()) => Ok(()),
        Err(error) => {
            above.remove(node);
            Err(error)
        }
    }
}

// Gives a node its parent.
// For a known node there is always memory.
fn link(
    links: &mut BTreeMap<Node, Option<Node>>,
    node: Node,
    parent: Node,
) -> Result<(), AllocError>
    ensures ok { OnOk result (links.new.entries ≡ with_parent links.old.entries node parent) }
    ensures err { OnErr result (knows links.old.entries node ≡ false) }
{
    links.insert(node, Some(parent))?;
    Ok(())
}

// Takes a node's parent away, where the node is known.
fn make_root(links: &mut BTreeMap<Node, Option<Node>>, node: &Node)
    ensures links { (n : Node) → known_at links.new.entries n
        ≡ (if same_node node.now n then option_map (λ parent. None) (known_at links.old.entries n)
        else known_at links.old.entries n) }
    ensures ascending { IsStrictlySortedBy node_cmp (keys_of links.new.entries) }
{
    if let Some(parent) = links.get_mut(node) {
        *parent = None;
    }
}

// Puts back what was known of a node.
fn put_back_one(links: &mut BTreeMap<Node, Option<Node>>, node: &Node, past: Past)
    ensures { (t : Ancestry) (nodes : List Node) → past_of (known_at t node.now) ≡ past
        → Extends t (node.now ∷ nodes) links.old.entries → Extends t nodes links.new.entries }
{
    match past {
        Past::Unknown => {
            links.remove(node);
        }
        Past::Root => make_root(links, node),
        Past::Based => {}
    }
}

// Puts back what was known before a branch, whatever part of the branch was taken.
// This takes no memory.
fn put_back(links: &mut BTreeMap<Node, Option<Node>>, nodes: &[Node], pasts: &[Past])
    ensures { (t : Ancestry) → IsForest t → pasts.now ≡ map (λ n. past_of (known_at t n)) nodes.now
        → Extends t nodes.now links.old.entries → links.new.entries ≡ t }
{
    for (node, past) in nodes.iter().zip(pasts) {
        put_back_one(links, node, *past);
    }
}

// Takes out of the parents those nodes that were not among them before a branch.
// This takes no memory.
fn forget_parents(parents: &mut HashSet<Node>, nodes: &[Node], were: &[bool])
    ensures { (was : Node → Bool) → were.now ≡ map was nodes.now → Adds was nodes.now (contains same_node parents.old)
        → (n : Node) → contains same_node parents.new n ≡ was n }
{
    for (node, was) in nodes.iter().zip(were) {
        if !*was {
            parents.remove(node);
        }
    }
}

// Whether a node has a parent in these links.
fn has_parent(links: &BTreeMap<Node, Option<Node>>, node: &Node) -> bool
    ensures { result ≡ is_some (parent_of links.now.entries node.now) }
{
    parent_in(links, node).is_some()
}

// Takes the parents away of those nodes that have none in these links.
// This takes no memory.
fn forget_above(
    above: &mut HashMap<Node, Node>,
    links: &BTreeMap<Node, Option<Node>>,
    nodes: &[Node],
)
    ensures { ((n : Node) → may_change links.now.entries nodes.now n ≡ false → get same_node above.old n ≡ parent_of links.now.entries n)
        → (n : Node) → get same_node above.new n ≡ parent_of links.now.entries n }
{
    for node in nodes {
        if !has_parent(links, node) {
            above.remove(node);
        }
    }
}

impl Tree {
    // What is known of a node, in a word.
    fn past(&self, node: &Node) -> Past
        ensures { result ≡ past_of (known_at self.now node.now) }
    {
        match self.links.get(node) {
            None => Past::Unknown,
            Some(None) => Past::Root,
            Some(Some(_)) => Past::Based,
        }
    }

    // The same of each node.
    fn pasts(&self, nodes: &[Node]) -> Result<Vec<Past>, AllocError>
        ensures { IfOk result (λ pasts. pasts.items ≡ map (λ n. past_of (known_at self.now n)) nodes.now) }
    {
        nodes.iter().map(|node| self.past(node)).collect(self.alloc)
    }

    // Whether each node is some node's parent.
    fn are_parents(&self, nodes: &[Node]) -> Result<Vec<bool>, AllocError>
        ensures { IfOk result (λ are. are.items ≡ map (is_parent self.now) nodes.now) }
    {
        nodes
            .iter()
            .map(|node| self.is_parent(node))
            .collect(self.alloc)
    }

    // Makes a node known.
    pub(crate) fn learn(&mut self, node: &Node) -> Result<(), AllocError>
        ensures ok { OnOk result (self.new ≡ learn self.old node.now) }
        ensures err { OnErr result (self.new ≡ self.old) }
        ensures forest { IsForest self.new }
    {
        if self.links.contains_key(node) {
            return Ok(());
        }
        self.links.insert(node.copy()?, None)?;
        Ok(())
    }

    // Makes all nodes known.
    fn learn_all(&mut self, nodes: &[Node]) -> Result<(), AllocError>
        ensures ok { OnOk result (self.new ≡ learn_all self.old nodes.now) }
        ensures extends { Extends self.old nodes.now self.new }
        ensures parents { Adds (is_parent self.old) nodes.now (is_parent self.new) }
        ensures was_forest { IsForest self.old }
        ensures forest { IsForest self.new }
    {
        // A look at the tree, so that its invariant is known here.
        let _ = &self.links;
        for node in nodes {
            self.learn(node)?;
        }
        Ok(())
    }

    // Whether a node is in the line of another.
    fn leads_to<'a>(&'a self, from: &'a Node, node: &Node) -> bool
        ensures { result ≡ has_node (line self.now from.now) node.now }
    {
        let mut at = from;
        while let Some(parent) = self.parent(at) {
            if node == at {
                return true;
            }
            at = parent;
        }
        node == at
    }

    // Whether a node is a proper ancestor of another.
    fn is_ancestor(&self, ancestor: &Node, node: &Node) -> bool
        ensures value { result ≡ is_ancestor self.now ancestor.now node.now }
        ensures forest { IsForest self.now }
    {
        match self.parent(node) {
            Some(parent) => self.leads_to(parent, ancestor),
            None => false,
        }
    }

    // Gives a root its parent, and puts that one among the parents.
    fn set_parent(&mut self, node: &Node, parent: &Node) -> Result<(), AllocError>
        requires knows_node { knows self.old node.now ≡ true }
        requires knows_parent { knows self.old parent.now ≡ true }
        requires root { parent_of self.old node.now ≡ None }
        requires apart { has_node (line self.old parent.now) node.now ≡ false }
        ensures ok { OnOk result (self.new ≡ with_parent self.old node.now parent.now) }
        ensures forest { OnOk result (IsForest self.new) }
        ensures err { OnErr result (self.new ≡ self.old) }
    {
        let child = node.copy()?;
        let own = parent.copy()?;
        note_parent(&mut self.above, &mut self.parents, node, parent)?;
        link(&mut self.links, child, own)
    }

    // Bases a node, which has this place in a branch, on another.
    fn base_on(&mut self, place: usize, node: &Node, parent: &Node) -> Result<(), BranchFault>
        requires knows_node { knows self.old node.now ≡ true }
        requires knows_parent { knows self.old parent.now ≡ true }
        ensures exact { Makes (or_conflict place (base_on self.old node.now parent.now) Ok) result self.new }
        ensures err { OnErr result (self.new ≡ self.old) }
        ensures forest { IsForest self.new }
    {
        if self.is_ancestor(parent, node) {
            return Ok(());
        }
        if self.parent(node).is_some() || self.leads_to(parent, node) {
            return Err(BranchFault::Conflict(place));
        }
        match self.set_parent(node, parent) {
            Ok(()) => Ok(()),
            Err(_) => Err(BranchFault::Memory),
        }
    }

    // Bases each node of a branch on the next, from the left.
    fn base_all(&mut self, nodes: &[Node]) -> Result<(), BranchFault>
        requires knows_all { All (λ n. knows self.old n ≡ true) nodes.now }
        ensures exact { Makes (base_all 0 self.old nodes.now) result self.new }
        ensures extends { Extends self.old nodes.now self.new }
        ensures parents { Adds (is_parent self.old) nodes.now (is_parent self.new) }
        ensures forest { IsForest self.new }
    {
        // A look at the tree, so that its invariant is known here.
        let _ = &self.links;
        let Some((mut node, others)) = nodes.split_first() else {
            return Ok(());
        };
        for (place, parent) in others.iter().enumerate() {
            self.base_on(place, node, parent)?;
            node = parent;
        }
        Ok(())
    }

    // Takes a branch.
    // After a refusal some of it may have been taken.
    fn take_all(&mut self, nodes: &[Node]) -> Result<(), BranchFault>
        ensures exact { Makes (base_all 0 (learn_all self.old nodes.now) nodes.now) result self.new }
        ensures extends { Extends self.old nodes.now self.new }
        ensures parents { Adds (is_parent self.old) nodes.now (is_parent self.new) }
        ensures based { OnOk result (AreBased self.new nodes.now) }
        ensures keeps { OnOk result ((n p : Node) → is_ancestor self.old p n ≡ true → is_ancestor self.new p n ≡ true) }
        ensures known { OnOk result (All (λ n. knows self.new n ≡ true) nodes.now) }
        ensures forest { IsForest self.new }
    {
        match self.learn_all(nodes) {
            Ok(()) => self.base_all(nodes),
            Err(_) => Err(BranchFault::Memory),
        }
    }

    /// Takes a branch, which is a list of 1 to 200 nodes, each based on the next.
    /// From the left each node gets the next one as its parent, unless that is a proper ancestor of
    /// it already.
    /// All nodes of the branch are known afterwards, and no node loses a proper ancestor.
    /// A node that had a parent keeps it, and of a node that is not of the branch the same is
    /// known.
    /// Errors, in this order: `EmptyBranch`; `TooLong`; `Repeated`, with the first place whose node
    /// stands earlier; `Conflict`, with the place of a node that has another parent or is in the
    /// line of the next one; and `Memory`, which no branch gets in place of one of the first three.
    /// After an error the tree is as before.
    /// This project's own rule.
    pub fn take_branch(&mut self, nodes: &[Node]) -> Result<(), BranchFault>
        ensures exact { IsBranched self.old nodes.now result self.new }
        ensures memory { result ≡ Err Memory → TakesMemory (branched self.old nodes.now) }
        ensures based { OnOk result (AreBased self.new nodes.now) }
        ensures keeps { OnOk result ((n p : Node) → is_ancestor self.old p n ≡ true → is_ancestor self.new p n ≡ true) }
        ensures known { OnOk result (All (λ n. knows self.new n ≡ true) nodes.now) }
        ensures extends { OnOk result (Extends self.old nodes.now self.new) }
        ensures forest { IsForest self.new }
    {
        // A look at the tree, so that its invariant is known here.
        let _ = &self.links;
        if nodes.is_empty() {
            return Err(BranchFault::EmptyBranch);
        }
        if nodes.len() > MOST_NODES {
            return Err(BranchFault::TooLong);
        }
        if let Some(place) = first_repeat(nodes) {
            return Err(BranchFault::Repeated(place));
        }
        let Ok(pasts) = self.pasts(nodes) else {
            return Err(BranchFault::Memory);
        };
        let Ok(were_parents) = self.are_parents(nodes) else {
            return Err(BranchFault::Memory);
        };
        match self.take_all(nodes) {
            Ok(()) => Ok(()),
            Err(fault) => {
                put_back(&mut self.links, nodes, pasts.as_slice());
                forget_parents(&mut self.parents, nodes, were_parents.as_slice());
                forget_above(&mut self.above, &self.links, nodes);
                Err(fault)
            }
        }
    }
}
