//! Why a text gives no node, and why a branch is refused.

use std::alloc::AllocError;
use thiserror::Error;

/// Why a text gives no node.
#[derive(Clone, Copy, Debug, PartialEq, Eq, Drop, Error)]
pub enum NodeFault {
    /// The text is no package name and version.
    #[error("bad package name or version")]
    BadNode,
    /// There was no memory.
    #[error("out of memory")]
    Memory,
}

impl From<AllocError> for NodeFault {
    ghost use Rattle.std.specs.Prelude.{◌≡◌};
    ghost use Rattle.version_nodes.specs.declared.fault.NodeFault.TheVariants.{Memory};

    ghost from_gives = { λ _ e. e ≡ Memory };

    fn from(_error: AllocError) -> NodeFault {
        NodeFault::Memory
    }
}

/// Why a branch is refused.
/// Places count from 0.
#[derive(Clone, Copy, Debug, PartialEq, Eq, Drop, Error)]
pub enum BranchFault {
    /// The branch has no node.
    #[error("the branch has no node")]
    EmptyBranch,
    /// The first place whose node stands earlier.
    #[error("the node at place {0} of the branch stands there earlier")]
    Repeated(usize),
    /// The place of a node that can't be based on the next one.
    #[error("the node at place {0} of the branch can't be based on the next one")]
    Conflict(usize),
    /// More than 200 nodes.
    #[error("the branch has more than 200 nodes")]
    TooLong,
    /// There was no memory.
    #[error("out of memory")]
    Memory,
}

impl From<AllocError> for BranchFault {
    ghost use Rattle.std.specs.Prelude.{◌≡◌};
    ghost use Rattle.version_nodes.specs.declared.fault.BranchFault.TheVariants.{Memory};

    ghost from_gives = { λ _ e. e ≡ Memory };

    fn from(_error: AllocError) -> BranchFault {
        BranchFault::Memory
    }
}
