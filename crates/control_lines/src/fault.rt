//! How a script ends before its end.

use base_faults::StoreFault;
use std::alloc::{AllocError, AllocFailed};
use thiserror::Error;

/// Why a script was not run to its end.
/// Lines count from 1.
#[derive(Clone, Copy, Debug, PartialEq, Eq, Drop, Error)]
pub enum ScriptFault {
    /// A read failed, or more than 16,777,216 reads were needed.
    #[error("the script could not be read")]
    Read,
    /// A write failed, or took no byte.
    #[error("the answers could not be written")]
    Write,
    /// The line is not UTF-8.
    #[error("line {0} is not UTF-8")]
    NotUtf8(u64),
    /// The line has more than 65,536 bytes.
    #[error("line {0} is too long")]
    LineTooLong(u64),
    /// There was no memory.
    #[error("out of memory")]
    Memory,
    /// The store failed.
    #[error(transparent)]
    Store(StoreFault),
}

impl From<AllocError> for ScriptFault {
    ghost use Rattle.std.specs.Prelude.{◌≡◌};
    ghost use Rattle.control_lines.specs.declared.fault.ScriptFault.TheVariants.{Memory};

    ghost from_gives = { λ _ e. e ≡ Memory };

    fn from(_error: AllocError) -> ScriptFault {
        ScriptFault::Memory
    }
}

impl<T: Drop> From<AllocFailed<T>> for ScriptFault {
    ghost use Rattle.std.specs.Prelude.{◌≡◌};
    ghost use Rattle.control_lines.specs.declared.fault.ScriptFault.TheVariants.{Memory};

    ghost from_gives = { λ _ e. e ≡ Memory };

    fn from(_error: AllocFailed<T>) -> ScriptFault {
        ScriptFault::Memory
    }
}

impl From<StoreFault> for ScriptFault {
    ghost use Rattle.std.specs.Prelude.{◌≡◌};
    ghost use Rattle.control_lines.specs.declared.fault.ScriptFault.TheVariants.{Store};

    ghost from_gives = { λ fault e. e ≡ Store fault };

    fn from(fault: StoreFault) -> ScriptFault {
        ScriptFault::Store(fault)
    }
}
