//! The spelling of commands, read back; and words in the manner of bts(1) as such lines.
//! Commands are spelled as the BTS page 'control and manipulation' has them.
//! What a line says, or why it is refused, is given on from `control_grammar` and `control_parser`.
#![tactic(auto)]

mod bug_places;
mod cut;
mod fault;
mod laws;
mod limits;
mod spelling;
mod word_laws;
mod word_lines;
mod writer;

pub use base_words::{Named, next_word, number_word, trim};
pub use control_grammar::{Line, refusals_of_lines};
pub use control_parser::{LineFault, read_line};
pub use fault::WordsFault;
pub use laws::spelling_is_read_back;
pub use limits::well_formed;
pub use spelling::write_command;
pub use word_laws::a_line_has_the_words_of_its_command;
pub use word_lines::words_to_lines;
