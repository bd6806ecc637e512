//! The members of a set of merged bugs, which copies of it share.

ghost use Rattle.std.specs.Prelude.{◌≡◌, ◌∷◌, [], IfOk};

use crate::bug::Member;
use base_sequences::Sequence;
use std::alloc::AllocError;
use std::marker::Model;
use std::rc::RcSlice;

// How the members are kept: one by itself takes no memory of its own.
#[derive(Drop)]
enum Kept {
    One(Member),
    Many(RcSlice<Member>),
}

/// The members of a set of merged bugs, which contracts see as a list.
/// A copy shares the members, and a bug by itself takes no memory for them.
#[derive(Drop)]
pub struct Members {
    kept: Kept,
}

impl Model for Members {
    ghost use Rattle.std.specs.Prelude.{List};
    ghost use Rattle.bug_record.specs.declared.bug.Member.{Member};

    ghost Value = { List Member };

    ghost use Rattle.bug_record.specs.Kept.{kept_members};

    ghost view = { λ m. kept_members m.kept };
}

impl Members {
    /// One bug by itself.
    /// It takes no memory.
    pub fn one(member: Member) -> Members
        ensures { result ≡ member ∷ [] }
    {
        Members {
            kept: Kept::One(member),
        }
    }

    /// The members of a list.
    pub fn of(members: Sequence<Member>) -> Result<Members, AllocError>
        ensures { IfOk result (λ ms. ms ≡ members) }
    {
        match members.into_kept() {
            Ok(member) => Ok(Members::one(member)),
            Err(items) => Ok(Members {
                kept: Kept::Many(RcSlice::from_vec(items)?),
            }),
        }
    }

    /// The members.
    pub fn as_slice(&self) -> &[Member]
        ensures { result.now ≡ self.now }
    {
        match &self.kept {
            Kept::One(member) => std::slice::from_ref(member),
            Kept::Many(members) => members.as_slice(),
        }
    }

    /// An equal value, which shares the members of a set of several bugs.
    /// A bug by itself shares its texts.
    /// It takes no memory itself, and answers out of memory only where no more owners of the
    /// members, or of a text, can be counted.
    pub fn copy(&self) -> Result<Members, AllocError>
        ensures { IfOk result (λ ms. ms ≡ self.now) }
    {
        match &self.kept {
            Kept::One(member) => Ok(Members {
                kept: Kept::One(member.copy()?),
            }),
            Kept::Many(members) => Ok(Members {
                kept: Kept::Many(members.clone()?),
            }),
        }
    }
}
