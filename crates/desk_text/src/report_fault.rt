//! Why a report is not taken.

ghost use Rattle.std.specs.Prelude.{◌≡◌};

use base_faults::StoreFault;
use thiserror::Error;

/// Why a report is not taken, in the order in which the causes are tested; a store fault at which
/// the next number could not be read comes before `Full`.
#[derive(Clone, Copy, Debug, PartialEq, Eq, Drop, Error)]
pub enum ReportFault {
    /// The package is no package name.
    #[error("bad package name")]
    BadPackage,
    /// The version is no version.
    #[error("bad version")]
    BadVersion,
    /// The word names no severity.
    #[error("unknown severity")]
    BadSeverity,
    /// The title is no text of 1 to 200 bytes.
    #[error("bad title")]
    BadTitle,
    /// No bug number is left.
    #[error("no bug number is left")]
    Full,
    /// The store failed; nothing is changed.
    #[error(transparent)]
    Store(StoreFault),
}

impl From<StoreFault> for ReportFault {
    ghost use Rattle.desk_text.specs.declared.report_fault.ReportFault.TheVariants.{Store};

    ghost from_gives = { λ fault e. e ≡ Store fault };

    fn from(fault: StoreFault) -> ReportFault {
        ReportFault::Store(fault)
    }
}
