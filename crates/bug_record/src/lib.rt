//! A bug's whole record, commands and refusals as values, and what each command does to a desk.
//! The definitions (`specs/`) are the model: a desk of bugs, what keeps it sound, and each step.
#![tactic(auto)]

mod agreed;
mod bug;
mod command;
mod members;
mod names;
mod nodes;
mod outcome;
mod row;
mod severity;
mod tag;
mod tag_sets;

pub use agreed::Agreed;
pub use base_sequences::{Numbered, Numbers, Sequence, add_number, add_numbers, number_set};
pub use bug::{Bug, Member, SetImage, Shared, member_at};
pub use command::{
    AffectsStep, Change, Command, Field, PlanFault, Refusal, TagStep, VersionArg, Who,
};
pub use members::Members;
pub use names::{
    Names, add_all_names, add_names, copy_names, name_set, remove_names, replace_names,
};
pub use nodes::{Nodes, add_node, copy_nodes, remove_node};
pub use outcome::Outcome;
pub use row::ListRow;
pub use severity::Severity;
pub use tag::Tag;
pub use tag_sets::{Tags, copy_tags, remove_tag};
