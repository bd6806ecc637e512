//! The shared fields of a set of merged bugs, which copies of its image share.

ghost use Rattle.std.specs.Prelude.{◌≡◌, IfOk};

use crate::bug::Shared;
use std::alloc::{AllocError, Global};
use std::marker::Model;
use std::rc::Rc;

/// The fields on which the bugs of a set agree, which contracts see as those fields.
/// A copy shares them.
#[derive(Drop)]
pub struct Agreed {
    kept: Rc<Shared>,
}

impl Model for Agreed {
    ghost use Rattle.bug_record.specs.declared.bug.Shared.{Shared};

    ghost Value = { Shared };

    ghost view = { λ a. a.kept.value };
}

impl Agreed {
    /// Keeps these fields.
    /// The error is that there was no memory.
    pub fn of(alloc: Global, fields: Shared) -> Result<Agreed, AllocError>
        ensures { IfOk result (λ a. a ≡ fields) }
    {
        Ok(Agreed {
            kept: Rc::new(alloc, fields)?,
        })
    }

    /// The fields.
    pub fn fields(&self) -> &Shared
        ensures { result.now ≡ self.now }
    {
        self.kept.as_ref()
    }

    /// An equal value, which shares the fields.
    /// It takes no memory itself, and answers out of memory only where no more owners of the fields
    /// can be counted.
    pub fn copy(&self) -> Result<Agreed, AllocError>
        ensures { IfOk result (λ a. a ≡ self.now) }
    {
        Ok(Agreed {
            kept: self.kept.clone()?,
        })
    }
}
