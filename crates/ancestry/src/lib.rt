//! The tree of versions, each based on another: branches taken into it, the status at a version.
#![tactic(auto)]

mod branch;
mod indexed;
mod laws;
mod node_status;
mod tree;
mod whole;

pub use indexed::IndexedLine;
pub use laws::{one_line, valid_nodes};
pub use node_status::{status, status_from};
pub use tree::Tree;
pub use version_nodes::{BranchFault, MarkKind, Node, NodeFault, Status, at_first_slash};
