//! Why no request was read.

ghost use Rattle.std.specs.Prelude.{◌≡◌};
ghost use Rattle.http_requests.specs.Refused.{ask_fault};

use crate::refusal::RequestRefusal;
use http_bytes::BodyFault;
use std::alloc::AllocError;
use thiserror::Error;

/// Why no request was read.
#[derive(Clone, Copy, Debug, PartialEq, Eq, Error)]
pub enum AskFault {
    /// The request is refused.
    #[error(transparent)]
    Refused(RequestRefusal),
    /// There was no memory for it.
    #[error("out of memory")]
    Memory,
    /// The reader failed before the body was whole.
    #[error("the request could not be read")]
    Read,
}

impl From<RequestRefusal> for AskFault {
    ghost use Rattle.http_requests.specs.declared.fault.AskFault.TheVariants.{Refused};

    ghost from_gives = { λ refusal e. e ≡ Refused refusal };

    fn from(refusal: RequestRefusal) -> AskFault {
        AskFault::Refused(refusal)
    }
}

impl From<AllocError> for AskFault {
    ghost use Rattle.http_requests.specs.declared.fault.AskFault.TheVariants.{Memory};

    ghost from_gives = { λ _ e. e ≡ Memory };

    fn from(_error: AllocError) -> AskFault {
        AskFault::Memory
    }
}

impl From<BodyFault> for AskFault {
    ghost from_gives = { λ fault e. e ≡ ask_fault fault };

    fn from(fault: BodyFault) -> AskFault {
        match fault {
            BodyFault::Refused(refusal) => AskFault::Refused(RequestRefusal::BodyRefused(refusal)),
            BodyFault::Memory => AskFault::Memory,
            BodyFault::Read => AskFault::Read,
        }
    }
}
