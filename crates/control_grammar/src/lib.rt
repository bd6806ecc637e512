//! What the lines of a control message say, or why one is refused: the grammar.
//! The definitions (`specs/`) are those of the BTS page 'control and manipulation'.
//! Beside them stand the words of commands and the values that are read.
//! It is apart from `control_parser` so that what needs the grammar alone is proved sooner.
#![tactic(auto)]

mod command_word;
mod dropping;
mod laws;
mod line;
mod signs;

pub use command_word::CommandWord;
pub use dropping::drop_command;
pub use laws::refusals_of_lines;
pub use line::Line;
pub use signs::Sign;
