//! What is kept of a message that has an id, recalled: at which line it goes on.
//! It is apart from `message_receiving` so that both are proved sooner.
#![tactic(auto)]

mod recalling;

pub use recalling::{RecallFault, Recalled, recall};
