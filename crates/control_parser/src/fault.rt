//! Why a line gives nothing.

use bug_record::Refusal;
use std::alloc::AllocError;
use std::fmt;
use thiserror::Error;

/// Why a line gives nothing.
#[derive(Drop, Error)]
pub enum LineFault {
    /// The line is refused.
    #[error("the line is refused")]
    Refused(Refusal),
    /// There was no memory.
    #[error("out of memory")]
    Memory,
}

impl fmt::Debug for LineFault {
    fn fmt<W: fmt::Write>(&self, f: &mut fmt::Formatter<W>) -> fmt::Result {
        fmt::Display::fmt(self, f)
    }
}

impl From<AllocError> for LineFault {
    ghost use Rattle.std.specs.Prelude.{◌≡◌};
    ghost use Rattle.control_parser.specs.declared.fault.LineFault.TheVariants.{Memory};

    ghost from_gives = { λ _ e. e ≡ Memory };

    fn from(_error: AllocError) -> LineFault {
        LineFault::Memory
    }
}
