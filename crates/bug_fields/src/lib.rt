//! What a command makes of the fields, titles and submitters of a set of merged bugs.
//! And the change that a new report makes.
//! The values and definitions are those of `bug_record`.
#![tactic(auto)]

mod affects;
mod fields;
mod gathered;
mod laws;
mod members;
mod report;
mod tags;
mod versions;

pub use fields::shared_after;
pub use gathered::GatheredNodes;
pub use laws::{joined_are_sets, joined_by_membership, marks_by_membership};
pub use members::{leaves_members, members_with};
pub use report::report_change;
