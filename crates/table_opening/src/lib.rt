//! What creating or opening a desk finds in a database, and the fault where that is refused.
//! A database is made, recognised or carried over as that of a desk, each in one transaction.
#![tactic(auto)]

mod calls;
mod open_fault;
mod opening;

pub use calls::finish;
pub use open_fault::OpenFault;
pub use opening::{create_tables, find_desk};
