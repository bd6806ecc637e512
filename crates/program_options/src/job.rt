//! What the program is asked to do.

use bug_record::Sequence;
use debver::Text;
use std::alloc::AllocError;
use thiserror::Error;

/// The lines of a message.
pub type Lines = Sequence<Text>;

/// What the words of a command line ask of the program.
/// A store is the name of its file.
#[derive(Drop)]
pub enum Job {
    /// Runs the script of its input; without a store, on a desk in memory.
    Run {
        store: Option<Text>,
    },
    /// Makes the store of a desk whose first bug has the number `first`, from 1 to 999,999,999.
    Init {
        store: Text,
        first: u64,
    },
    /// Answers HTTP on this port, from 1 to 65,535, and ends after `count` connections, from 1 to
    /// 1,000,000; without a store, for a desk in memory.
    Serve {
        store: Option<Text>,
        port: u16,
        count: u64,
    },
    /// Sends the lines as one message from this sender, a text of 1 to 200 bytes.
    /// With an id, of 1 to 100 visible ASCII characters, lines that were taken before are not taken
    /// again.
    Send {
        store: Text,
        from: Text,
        id: Option<Text>,
        lines: Lines,
    },
}

/// Why words are no job.
#[derive(Debug, Drop, Error)]
pub enum WordsError {
    /// They ask for help, which is this text.
    #[error("{}", .0.as_str())]
    Help(Text),
    /// They are no good words.
    #[error("bad words")]
    Bad,
    /// Memory was refused.
    #[error("out of memory")]
    Memory,
}

impl From<AllocError> for WordsError {
    ghost use Rattle.std.specs.Prelude.{◌≡◌};
    ghost use Rattle.program_options.specs.declared.job.WordsError.TheVariants.{Memory};

    ghost from_gives = { λ _ e. e ≡ Memory };

    fn from(_error: AllocError) -> WordsError {
        WordsError::Memory
    }
}
