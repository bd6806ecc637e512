//! The SQL statements on sets of bugs and on the packages that they affect, one function each.
#![tactic(auto)]

mod affects;
mod blocks;
mod bugs;
mod listed;
mod marks;
mod near_kind;
mod node_marks;
mod sets;
mod shared;

pub use affects::{add_affected, clear_affected, read_affected, read_affecting};
pub use blocks::{add_blocker, clear_blockers, read_blockers, read_waiting};
pub use bugs::{add_bug, clear_bug, has_members, read_key, read_members};
pub use listed::{ListedSet, RowFields, read_sets_of};
pub use marks::{Marks, add_mark, clear_marks, read_marks};
pub use near_kind::read_near_kind;
pub use node_marks::{SetMark, read_marks_at};
pub use sets::{add_fields, clear_fields, read_fields};
pub use shared::read_shared;
