//! What an HTTP request asks, or why it is refused without the desk; the bytes of an answer.
#![tactic(auto)]

mod asking;
mod bodies;
mod fault;
mod laws;
mod paths;
mod refusal;
mod reply;
mod request;
mod writing;

pub use asking::ask;
pub use fault::AskFault;
pub use laws::{
    an_input_has_one_request, nothing_is_taken_after_a_request, what_takes_no_memory_is_refused,
};
pub use refusal::{RequestRefusal, refuse};
pub use reply::{Body, Reply, json_reply, not_found, page_reply, store_fault};
pub use request::{ListRequest, MessageRequest, OnceRequest, ReportRequest, Request};
pub use writing::{write_reply, write_three};
