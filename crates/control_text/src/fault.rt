//! Why words are no lines.

use std::alloc::AllocError;
use thiserror::Error;

/// Why words are no lines, in the order in which it is tested.
/// A place counts all words that were handed in, from 0.
#[derive(Clone, Copy, Debug, PartialEq, Eq, Drop, Error)]
pub enum WordsFault {
    /// The word at this place, the first of its kind, has an ASCII control character other than
    /// tab.
    #[error("word {0} has a control character")]
    BadWord(usize),
    /// No command is there.
    #[error("there is no command")]
    NoCommand,
    /// The `it` at this place, the first of its kind, has no bug to stand for.
    #[error("word {0}, `it`, has no bug to stand for")]
    ItUnset(usize),
    /// Memory was refused.
    #[error("out of memory")]
    Memory,
}

impl From<AllocError> for WordsFault {
    ghost use Rattle.std.specs.Prelude.{◌≡◌};
    ghost use Rattle.control_text.specs.declared.fault.WordsFault.TheVariants.{Memory};

    ghost from_gives = { λ _ e. e ≡ Memory };

    fn from(_error: AllocError) -> WordsFault {
        WordsFault::Memory
    }
}
