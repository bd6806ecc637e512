//! The numbers that stand in tables for severities, tags, flags, marks and outcomes.
#![tactic(auto)]

mod encodings;
mod laws;
mod outcomes;

pub use encodings::{
    flag_of_number, kind_of_number, number_of_flag, number_of_kind, number_of_tags,
    severity_of_number, tags_of_number,
};
pub use laws::numbers_are_read_back;
pub use outcomes::{
    field_of_outcome, kind_of_outcome, node_of_outcome, number_of_outcome, outcome_of_numbers,
};
