//! The nearest mark of a set of merged bugs, as seen from each node of the tree of versions.
#![tactic(auto)]

mod children;
mod family;
mod laws;
mod near;
mod refusals;
mod touched;

pub use family::Family;
pub use laws::{
    nearest_after_branches, nearest_by_parents, nearest_elsewhere, nearest_of_longer_lines,
};
pub use near::{Near, NearRow, nearest_rows};
pub use touched::affected;
