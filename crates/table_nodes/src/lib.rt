//! The SQL statements on versions, nearest marks, the next number, and messages with an id.
//! And what a branch of versions changes in the rows of nodes and of nearest marks.
#![tactic(auto)]

mod family;
mod first_marks;
mod grown;
mod laws;
mod messages;
mod meta;
mod nearest;
mod nodes;
mod outcome_numbers;
mod outcomes;
mod places;

pub use family::read_family;
pub use first_marks::add_first_marks;
pub use grown::{OpenNodes, changed_nodes, open_nodes};
pub use laws::{
    branches_grow, first_marks_go_on, grown_nodes_change, marked_sets_are_there, rows_are_missing,
    rows_go_on,
};
pub use messages::{add_message, read_message};
pub use meta::{read_next, write_next};
pub use nearest::{add_near, clear_near, clear_near_at};
pub use nodes::{add_node, clear_node};
pub use outcome_numbers::{add_outcome_number, read_outcome_numbers};
pub use outcomes::{add_outcome, read_outcomes};
pub use places::read_next_place;
