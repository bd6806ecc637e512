//! Why a branch is refused, where there is no memory to take it.

ghost use Rattle.std.specs.Prelude.{◌≡◌, Err};
ghost use Rattle.version_nodes.specs.Trees.{Ancestry};
ghost use Rattle.version_nodes.specs.Branches.{is_repeat, first_repeat, branched, IsBranched, TakesMemory};
ghost use Rattle.version_nodes.specs.declared.fault.BranchFault.TheVariants.{Memory};

use version_nodes::{BranchFault, Node};

// How many nodes a branch has at most.
const MOST_NODES: usize = 200;

// Whether the node at a place stands earlier, too.
fn is_repeat(nodes: &[Node], place: usize) -> bool
    ensures { result ≡ is_repeat nodes.now place }
{
    match nodes.get(place) {
        Some(node) => nodes[..place].contains(node),
        None => false,
    }
}

// The first place whose node stands earlier.
fn first_repeat(nodes: &[Node]) -> Option<usize>
    ensures { result ≡ first_repeat nodes.now }
{
    (0..nodes.len()).find(|place| is_repeat(nodes, *place))
}

// The fault of a branch that can't be taken, out of memory: one that it has whatever the memory
// and the tree, or that memory ran out.
pub(crate) fn fault_without_memory(nodes: &[Node]) -> BranchFault
    ensures exact { (t : Ancestry) → IsBranched t nodes.now (Err result) t }
    ensures memory { (t : Ancestry) → result ≡ Memory → TakesMemory (branched t nodes.now) }
{
    if nodes.is_empty() {
        return BranchFault::EmptyBranch;
    }
    if nodes.len() > MOST_NODES {
        return BranchFault::TooLong;
    }
    match first_repeat(nodes) {
        Some(place) => BranchFault::Repeated(place),
        None => BranchFault::Memory,
    }
}
