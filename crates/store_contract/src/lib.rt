//! `Records`, which every store of a desk is, and how a message's lines are taken over any.
//! What is kept of messages that have an id; what has come of one so far; commands over names as
//! commands over numbers.
#![tactic(auto)]

mod giving;
mod kept;
mod known;
mod laws;
mod outcomes_so_far;
mod records;
mod refusals;
mod telling;

pub use base_words::is_id;
pub use giving::{into_names, name_refusal, note_names};
pub use kept::{Kept, copy_outcome};
pub use known::KnownNames;
pub use laws::{faults_rise_by_one, names_stand_for_copies};
pub use outcomes_so_far::{Progress, Received, goes_on, make_room, settle};
pub use records::Records;
pub use refusals::{refusal_meant, with_names};
pub use telling::{command_told, names_in};
