//! Reports, lists, pages and branches in words, asked of any store; transcripts of messages.
#![tactic(auto)]

mod branches;
mod laws;
mod lists;
mod pages;
mod reporting;
mod told;
mod transcript;

pub use branches::add_node;
pub use desk_text::ReportFault;
pub use laws::a_list_has_the_bugs_found_there;
pub use lists::list_of;
pub use pages::page_of;
pub use reporting::report;
pub use told::{QuestionFault, Told};
pub use transcript::{line_of_end, received_bytes, received_text, transcript_bytes};
