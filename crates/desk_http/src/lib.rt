//! The desk over HTTP: messages carried out, one exchange, and a port that serves connections.
#![tactic(auto)]

mod accepting;
mod answering;
mod connection;
mod laws;
mod listening;
mod messages;
mod once;
mod port;
mod serve;

pub use accepting::serve_connections;
pub use answering::answer_request;
pub use connection::{Connection, drain_connection, serve_within};
pub use http_bytes::Limits;
pub use laws::what_was_served_has_an_input;
pub use listening::Listens;
pub use port::{ServerFault, serve_port};
pub use serve::{ServeFault, Served, serve_one};
