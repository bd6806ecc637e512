//! A desk that is kept in tables: `TableDesk`, created, opened and closed, and a store.
#![tactic(auto)]

mod asking;
mod calls;
mod changing;
mod counts;
mod desk;
mod loading;
mod opening;
mod questions;
mod records;
mod remembering;

pub use desk::TableDesk;
pub use table_opening::OpenFault;
