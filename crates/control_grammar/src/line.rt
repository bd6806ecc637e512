//! What a line of a control message says.

use base_words::Named;
use bug_record::Command;

/// What a line says.
#[derive(Drop)]
pub enum Line {
    /// Nothing, or blanks alone.
    Blank,
    /// The first character that is no blank is `#`.
    Comment,
    /// The end of the message.
    Stop,
    /// A command.
    Do(Command<Named>),
}
