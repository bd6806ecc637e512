//! The options and words of the program's command line, as the job that they name.
#![tactic(auto)]

mod command_jobs;
mod cut;
mod help;
mod job;
mod laws;
mod message;
mod numbers;
mod options;
mod reading;
mod text;

pub use job::{Job, Lines, WordsError};
pub use laws::sent_lines_are_cut_again;
pub use reading::read_words;
pub use text::message_text;
