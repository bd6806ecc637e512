//! What the commands of a desk do, planned on images of sets of merged bugs.
//! Which numbers a change touches is told by `bug_images`.
//! The values and definitions are those of `bug_record`, whose names stand here too.
#![tactic(auto)]

mod by_number;
mod clones;
mod images;
mod joins;
mod merges;
mod plans;
mod unmerge;

pub use base_words::is_text;
pub use bug_fields::report_change;
pub use bug_images::{bug_named, changed, changed_numbers_differ, find_image, other_bugs};
pub use bug_record::{
    Bug, Change, Command, Field, Member, Members, Nodes, Numbered, Numbers, PlanFault, Refusal,
    Sequence, SetImage, Severity, Shared, Tag, TagStep, Tags, VersionArg, Who,
};
pub use plans::plan;
