//! What a question is told.

use base_faults::StoreFault;
use std::alloc::AllocError;
use thiserror::Error;

/// What is told: a text, and whether it refuses the question.
#[derive(Debug, Drop)]
pub struct Told {
    pub text: Vec<u8>,
    pub refused: bool,
}

/// Why nothing is told.
#[derive(Clone, Copy, Debug, PartialEq, Eq, Drop, Error)]
pub enum QuestionFault {
    /// There was no memory for the question or for its answer.
    #[error("out of memory")]
    Memory,
    /// The store failed.
    #[error(transparent)]
    Store(StoreFault),
}

impl From<AllocError> for QuestionFault {
    ghost use Rattle.std.specs.Prelude.{◌≡◌};
    ghost use Rattle.message_directives.specs.declared.told.QuestionFault.TheVariants.{Memory};

    ghost from_gives = { λ _ e. e ≡ Memory };

    fn from(_error: AllocError) -> QuestionFault {
        QuestionFault::Memory
    }
}

impl From<StoreFault> for QuestionFault {
    ghost use Rattle.std.specs.Prelude.{◌≡◌};
    ghost use Rattle.message_directives.specs.declared.told.QuestionFault.TheVariants.{Store};

    ghost from_gives = { λ fault e. e ≡ Store fault };

    fn from(fault: StoreFault) -> QuestionFault {
        QuestionFault::Store(fault)
    }
}
