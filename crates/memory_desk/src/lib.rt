//! A desk in memory, as a store.
#![tactic(auto)]

mod kept_messages;
mod plain;
mod shared_texts;

pub use plain::PlainDesk;
