//! What comes of a line.

use crate::command::Refusal;
use base_sequences::Numbers;

/// What comes of a line that is neither blank nor a comment.
#[derive(Drop)]
pub enum Outcome {
    /// Accepted: the numbers of the bugs that differ afterwards, ascending.
    Changed(Numbers),
    /// Refused: nothing is changed.
    Refused(Refusal),
    /// The line ends the message.
    Stopped,
}
