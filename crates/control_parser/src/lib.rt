//! Reads the lines of a control message, by the grammar of `control_grammar`.
#![tactic(auto)]

mod affects;
mod blocks;
mod bugs;
mod clones;
mod commands;
mod fault;
mod few_words;
mod merges;
mod reading;
mod reassign;
mod severity;
mod shapes;
mod signs;
mod tags;
mod texts;

pub use commands::read_command;
pub use fault::LineFault;
pub use reading::read_line;
