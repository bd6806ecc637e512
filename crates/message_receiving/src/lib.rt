//! Messages taken line by line, over any store; those that have an id act once per line.
//! What is kept of an id is recalled, and the message goes on at the first line that has an
//! outcome and has none kept; this is the project's own rule.
#![tactic(auto)]

mod command_decision;
mod going_on;
mod line_decision;
mod message;
mod once;

pub use command_decision::Decision;
pub use line_decision::decide_line;
pub use message::{receive, receive_lines};
pub use once::{OnceFault, receive_once};
pub use store_contract::{Progress, Received, goes_on, make_room, settle};
