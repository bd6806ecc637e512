//! One HTTP request, read from a connection's bytes to its head and body; and limits of time.
#![tactic(auto)]

mod body;
mod body_size;
mod deadline;
mod head;
mod laws;
mod pieces;
mod refusal;
mod timed;

pub use body::read_body;
pub use body_size::{MAX_BODY, body_length};
pub use deadline::Deadline;
pub use head::{Head, MAX_HEAD, MAX_HEADERS, read_head};
pub use laws::an_input_begins_with_one_head;
pub use refusal::{BodyFault, BodyRefusal};
pub use timed::{Limits, TimedReader, TimedWriter};
