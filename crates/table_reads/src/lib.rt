//! What is asked of a desk within one transaction: a set, who waits on a bug, lists, heads.
//! And the sets that need not be read again.
#![tactic(auto)]

mod bug_tests;
mod found;
mod heads;
mod images;
mod keys;
mod known;
mod listed;
mod rows;
mod waiting;

pub use heads::read_open_head;
pub use images::{FoundSet, read_set_of};
pub use known::KnownSets;
pub use listed::read_listed;
pub use waiting::read_waiting_on;
