//! What a crash leaves of a desk in tables, and what the next open finds.
//! That is the desk as it was, or as the one call after it made it.
//! What is left in two files that are closed is what the next open finds there.
//!
//! The crash is that of a store which can be made to crash and to come back, as
//! `sqlite_trees::store::Reopen` has it: a store in memory, or two files over any disk that can
//! crash.
//! What is lost of a disk then is what its contract allows, whichever it is.
#![tactic(auto)]

mod calls;
mod counting;
mod files;
mod laws;
mod left;
mod opening;
mod scripts;
mod starts;

pub use calls::{apply_and_crash, branch_and_crash, crash_and_open, keep_and_crash};
pub use counting::CountsCrashes;
pub use files::{close_and_open, close_files, crash_files, open_files};
pub use laws::{serving_desks_are_settled, settled_desks_are_left, what_is_left_is_found};
pub use scripts::run_and_crash;
pub use starts::{crash_in_open, create_and_crash, open_and_crash};
