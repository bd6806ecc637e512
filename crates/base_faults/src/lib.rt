//! Why a store failed, and how a message ends.
#![tactic(auto)]

mod store_fault;

pub use store_fault::{End, StoreFault};
