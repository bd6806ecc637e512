//! What HTTP requests are answered on a desk: reports, branches, lists and pages.
//! And what is told of a message that was received.
#![tactic(auto)]

mod branches;
mod lists_and_pages;
mod messages;
mod refusals;
mod reports;

pub use branches::answer_branch;
pub use lists_and_pages::{answer_list, answer_page};
pub use messages::{id_in_use, tell_lines};
pub use reports::answer_report;
