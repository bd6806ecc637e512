//! What the tables of a desk say, with no row and no SQL, and what a change makes of it.
#![tactic(auto)]

mod branches;
mod edit;
mod image_edits;
mod keeping;
mod kinds_at_nodes;
mod laws;
mod moving;
mod sparing;
mod staying;

pub use branches::{SetNear, branch_edits};
pub use edit::{Edit, SentMessage, SetFields, ToldOutcome};
pub use image_edits::{RowEdits, has_marks, row_edits};
pub use keeping::keep_edits;
pub use kinds_at_nodes::kind_here;
pub use laws::{
    branches_are_put, bugs_are_asked_by_sets, changes_are_put, images_are_ready, kinds_are_nearest,
    new_contents_are_kept, outcomes_are_kept, sets_stay,
};
pub use staying::stay_edits;
