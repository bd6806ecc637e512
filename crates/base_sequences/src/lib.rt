//! Lists that contracts see as lists, and sets in the order of their numbers or items.
#![tactic(auto)]

mod sequence;

pub use sequence::{Numbered, Numbers, Sequence, add_number, add_numbers, number_set};
