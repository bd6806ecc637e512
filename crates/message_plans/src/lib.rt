//! What a store is asked before a command is planned, and which images of the plan it writes.
//! It is apart from `message_receiving` so that both are proved sooner.
#![tactic(auto)]

mod images;
mod plan_inputs;
mod written_images;

pub use plan_inputs::ask;
pub use written_images::written;
