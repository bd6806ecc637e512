//! Nodes, which are versions of source packages: read, kept and ordered.
//! The definitions (`specs/`) say which is based on which, what a branch does, and the status of a
//! bug at a node.
#![tactic(auto)]

mod fault;
mod node;
mod statuses;

pub use fault::{BranchFault, NodeFault};
pub use node::{Node, at_first_slash};
pub use statuses::{MarkKind, Status};
