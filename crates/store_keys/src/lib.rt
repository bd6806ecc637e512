//! The keys by which a store keeps sets of merged bugs, and the order of lists by severity.
#![tactic(auto)]

mod keys;
mod order;

pub use keys::key_of;
pub use order::by_severity;
