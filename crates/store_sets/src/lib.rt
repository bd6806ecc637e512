//! Sets of merged bugs held in a map in memory: what is put into it, and what is asked of it.
//! The map gives each bug its place in its set; the image of the set stands at the first of them.
#![tactic(auto)]

mod bug_sets;
mod fresh;
mod heads;
mod lists;
mod named;
mod passing;
mod places;
mod rows;
mod summed_image;
mod waiting;

pub use bug_sets::BugSets;
pub use heads::open_head;
