//! Why a request has no body.

use std::alloc::AllocError;
use std::io;
use thiserror::Error;

/// Why the body of a request is refused.
#[derive(Clone, Copy, Debug, PartialEq, Eq, Error)]
pub enum BodyRefusal {
    /// It has a `Transfer-Encoding`, and no coding is carried out.
    #[error("a transfer coding is not carried out")]
    NotImplemented,
    /// It has no `Content-Length`.
    #[error("the request has no length")]
    LengthRequired,
    /// Its length is no number of one to nine digits, or is told more than once, or the input ended
    /// before the body was whole.
    #[error("the length of the request is wrong")]
    BadRequest,
    /// It is longer than 65,536 bytes.
    #[error("the body has more than 65,536 bytes")]
    TooLarge,
}

/// Why a body was not given.
#[derive(Clone, Copy, Debug, PartialEq, Eq, Error)]
pub enum BodyFault {
    /// It is refused.
    #[error(transparent)]
    Refused(BodyRefusal),
    /// There was no memory for it.
    #[error("out of memory")]
    Memory,
    /// The reader failed before it was whole.
    #[error("the request could not be read")]
    Read,
}

impl From<BodyRefusal> for BodyFault {
    ghost use Rattle.std.specs.Prelude.{◌≡◌};
    ghost use Rattle.http_bytes.specs.declared.refusal.BodyFault.TheVariants.{Refused};

    ghost from_gives = { λ refusal e. e ≡ Refused refusal };

    fn from(refusal: BodyRefusal) -> BodyFault {
        BodyFault::Refused(refusal)
    }
}

impl From<AllocError> for BodyFault {
    ghost use Rattle.std.specs.Prelude.{◌≡◌};
    ghost use Rattle.http_bytes.specs.declared.refusal.BodyFault.TheVariants.{Memory};

    ghost from_gives = { λ _ e. e ≡ Memory };

    fn from(_error: AllocError) -> BodyFault {
        BodyFault::Memory
    }
}

impl From<io::Error> for BodyFault {
    ghost use Rattle.std.specs.Prelude.{◌≡◌};
    ghost use Rattle.http_bytes.specs.declared.refusal.BodyFault.TheVariants.{Read};

    ghost from_gives = { λ _ e. e ≡ Read };

    fn from(_error: io::Error) -> BodyFault {
        BodyFault::Read
    }
}
