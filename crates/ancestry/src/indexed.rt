//! A line that is asked for the status of many bugs.

ghost use Rattle.std.specs.Prelude.{◌≡◌, ◌<◌, ℕ, nat_lt, None, Some, IfOk, OnOk, if◌then◌else◌};
ghost use Rattle.std.specs.HashMap.{get};
ghost use Rattle.std.specs.Option.{option_map_or};
ghost use Rattle.ancestry.specs.Heights.{HasHeights, height, greatest_height};
ghost use Rattle.ancestry.specs.Slots.{HasSlots, slot_of};
ghost use Rattle.ancestry.specs.declared.indexed.TheConstants.{SLOTS};
ghost use Rattle.version_nodes.specs.Nodes.{Node, same_node};
ghost use Rattle.version_nodes.specs.Statuses.{first_kind, status_on};
ghost use Rattle.version_nodes.specs.declared.statuses.MarkKind.TheVariants.{Found, Fixed};

use crate::node_status::status_from;
use std::alloc::{AllocError, Global};
use std::collections::HashMap;
use std::hash::{FoldHasher, Hasher};
use std::marker::Model;
use version_nodes::{MarkKind, Node, Status};

/// A line, and how many nodes it has from each of its nodes on.
/// Contracts see the line.
/// This project's own rule.
#[derive(Drop)]
pub struct IndexedLine {
    nodes: Vec<Node>,
    // How many nodes the line has from each of its nodes on, from its first place.
    heights: HashMap<Node, usize>,
    // How many nodes the line has from the first one with each slot on; 0 where none has it.
    // A look-up begins here, since that costs less than one in the map.
    slots: Vec<usize>,
}

impl Model for IndexedLine {
    ghost use Rattle.std.specs.Prelude.{List};
    ghost use Rattle.ancestry.specs.Heights.{HasHeights};
    ghost use Rattle.ancestry.specs.Slots.{HasSlots};
    ghost use Rattle.version_nodes.specs.Nodes.{Node as Seen};

    ghost Value = { List Seen };

    ghost view = { λ l. l.nodes.items };

    ghost invariant = { λ l. HasHeights l.heights l.nodes.items × HasSlots l.slots.items l.nodes.items };
}

// Keeps the height of a node, where none is kept yet.
fn keep_height(
    heights: &mut HashMap<Node, usize>,
    node: &Node,
    height: usize,
) -> Result<(), AllocError>
    ensures { OnOk result ((n : Node) (other : ℕ) → option_map_or (λ h. h) (get same_node heights.new n) other
        ≡ option_map_or (λ h. h) (get same_node heights.old n) (if same_node node.now n then height else other)) }
{
    if !heights.contains_key(node) {
        heights.insert(node.copy()?, height)?;
    }
    Ok(())
}

// The heights of the nodes of a line.
fn heights_of(alloc: Global, line: &[Node]) -> Result<HashMap<Node, usize>, AllocError>
    ensures { IfOk result (λ heights. HasHeights heights line.now) }
{
    let mut heights = HashMap::new(alloc);
    for (place, node) in line.iter().enumerate() {
        keep_height(&mut heights, node, line.len() - place)?;
    }
    Ok(heights)
}

// How many slots there are: many more than most lines have nodes.
// A number that is known as the program is built costs no division.
const SLOTS: usize = 1_024;

// The slot of a version.
#[tactic(auto, unfolding(crate::specs::Slots::slot_of))]
fn slot_of(version: &str) -> usize
    ensures value { result ≡ slot_of version.now }
    ensures within { result < SLOTS }
{
    let mut hasher = FoldHasher::default();
    hasher.write(version.as_bytes());
    (hasher.finish() % SLOTS as u64) as usize
}

// The slots of the nodes of a line.
// The first node of those with one slot is written last, and so keeps it.
fn slots_of(alloc: Global, line: &[Node]) -> Result<Vec<usize>, AllocError>
    ensures { IfOk result (λ slots. HasSlots slots.items line.now) }
{
    let mut slots = vec![in alloc; 0; SLOTS]?;
    let mut place = line.len();
    while place > 0 {
        place -= 1;
        slots[slot_of(line[place].version())] = line.len() - place;
    }
    Ok(slots)
}

// Whether two nodes are equal.
// Their versions are compared first, since these differ more often than the sources.
fn is_same(node: &Node, other: &Node) -> bool
    ensures { result ≡ same_node node.now other.now }
{
    node.version() == other.version() && node.source() == other.source()
}

// The kind of the line's first mark, by whether a bug is found at a node of the line, and whether
// it is fixed at one that stands above those.
fn kind_of(found: bool, fixed: bool) -> Option<MarkKind>
    ensures { result ≡ (if fixed then Some Fixed else if found then Some Found else None) }
{
    if fixed {
        Some(MarkKind::Fixed)
    } else if found {
        Some(MarkKind::Found)
    } else {
        None
    }
}

impl IndexedLine {
    /// Keeps a line, and where its nodes stand.
    /// The error is that there was no memory.
    pub fn of(alloc: Global, line: Vec<Node>) -> Result<IndexedLine, AllocError>
        ensures { IfOk result (λ indexed. indexed ≡ line.items) }
    {
        let heights = heights_of(alloc, line.as_slice())?;
        let slots = slots_of(alloc, line.as_slice())?;
        Ok(IndexedLine {
            nodes: line,
            heights,
            slots,
        })
    }

    // How many nodes the line has from this one on; none, where it doesn't have this one.
    fn height(&self, node: &Node) -> usize
        ensures { result ≡ height self.now node.now }
    {
        let height = self.slots[slot_of(node.version())];
        if height == 0 {
            return 0;
        }
        let first = &self.nodes[self.nodes.len() - height];
        if is_same(first, node) {
            return height;
        }
        match self.heights.get(node) {
            Some(height) => *height,
            None => 0,
        }
    }

    // The height of the one of these nodes that stands highest.
    fn greatest_height(&self, nodes: &[Node]) -> usize
        ensures { result ≡ greatest_height self.now nodes.now }
    {
        let mut greatest = 0;
        for node in nodes {
            greatest = self.height(node).max(greatest);
        }
        greatest
    }

    // Whether one of these nodes stands above a height.
    fn any_above(&self, nodes: &[Node], height: usize) -> bool
        ensures { result ≡ nat_lt height (greatest_height self.now nodes.now) }
    {
        for node in nodes {
            if self.height(node) > height {
                return true;
            }
        }
        false
    }

    // The kind of the first mark of the line.
    fn first_kind(&self, found: &[Node], fixed: &[Node]) -> Option<MarkKind>
        ensures { result ≡ first_kind found.now fixed.now self.now }
    {
        if fixed.is_empty() {
            return kind_of(self.any_above(found, 0), false);
        }
        let highest = self.greatest_height(found);
        kind_of(highest > 0, self.any_above(fixed, highest))
    }

    /// The status of a bug that is marked as found and as fixed at these nodes, at the first node
    /// of the line: as the function `status` tells it where this is that node's line.
    /// It is for one line and many bugs: each of these nodes is looked up at most once, and the
    /// line isn't gone through.
    /// Takes no memory.
    /// This project's own rule.
    #[tactic(auto, unfolding(version_nodes::specs::Statuses::status_on))]
    pub fn status(&self, found: &[Node], fixed: &[Node], closed: bool) -> Status
        ensures { result ≡ status_on self.now found.now fixed.now closed }
    {
        status_from(
            self.first_kind(found, fixed),
            found.is_empty(),
            fixed.is_empty(),
            closed,
        )
    }
}
