//! What changes a desk within one transaction: sets, a branch, an outcome that is kept.
//! And what is kept of an id, read back.
#![tactic(auto)]

mod branch;
mod change;
mod first_marks;
mod keeping;
mod known_place;
mod marks_stay;
mod missing;
mod new_rows;
mod play;
mod puts;
mod read_back;
mod staying;

pub use branch::put_branch;
pub use change::put_change;
pub use keeping::put_kept;
pub use known_place::KnownPlace;
pub use marks_stay::{known_marks_stay, read_marks_stay};
pub use read_back::read_kept;
