//! Why a store failed, and how a message ends.

ghost use Rattle.std.specs.Prelude.{◌≡◌, Some};
ghost use Rattle.base_faults.specs.Faults.{fault_word, fault_message};

use std::alloc::AllocError;
use std::fmt;

/// Why a store did not do what it was asked.
#[derive(Clone, Copy, Debug, PartialEq, Eq, Drop)]
pub enum StoreFault {
    /// There was no memory.
    Memory,
    /// The disk or file failed.
    Device,
    /// There was no room.
    Full,
    /// The store holds what is no desk's.
    Foreign,
}

impl StoreFault {
    /// The word of this fault, as its message and the answer of a desk have it.
    pub fn word(self) -> &'static str
        ensures { result.now ≡ fault_word self }
    {
        match self {
            StoreFault::Memory => "memory",
            StoreFault::Device => "device",
            StoreFault::Full => "full",
            StoreFault::Foreign => "foreign",
        }
    }
}

impl fmt::Display for StoreFault {
    ghost output = { λ fault. Some (fault_message fault) };

    #[tactic(auto, unfolding(crate::specs::Faults::fault_message))]
    fn fmt<W: fmt::Write>(&self, f: &mut fmt::Formatter<W>) -> fmt::Result {
        write!(f, "the store failed: {}", self.word())
    }
}

impl std::error::Error for StoreFault {}

impl From<AllocError> for StoreFault {
    ghost use Rattle.base_faults.specs.declared.store_fault.StoreFault.TheVariants.{Memory};

    ghost from_gives = { λ _ e. e ≡ Memory };

    fn from(_error: AllocError) -> StoreFault {
        StoreFault::Memory
    }
}

/// How a message ends.
#[derive(Clone, Copy, Debug, PartialEq, Eq, Drop)]
pub enum End {
    /// All lines were taken.
    All,
    /// A line stopped it.
    Stopped,
    /// The fifth line that could not be read stopped it.
    TooManyUnreadable,
    /// The store failed at this line, counted from 1: the lines before it were carried out, it and
    /// the later ones not.
    Store(StoreFault, u64),
}
