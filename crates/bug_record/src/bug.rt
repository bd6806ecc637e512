//! Bugs, and the images of sets of merged bugs.

ghost use Rattle.std.specs.Prelude.{◌≡◌, IfOk};
ghost use Rattle.std.specs.Option.{option_copied};
ghost use Rattle.base_sequences.specs.Sets.{has};
ghost use Rattle.bug_record.specs.Images.{member_at, numbers_of};

use crate::agreed::Agreed;
use crate::members::Members;
use crate::names::{Names, copy_names};
use crate::nodes::{Nodes, copy_nodes};
use crate::severity::Severity;
use crate::tag_sets::{Tags, copy_tags};
use base_sequences::{Numbered, Numbers};
use debver::Text;
use std::alloc::AllocError;

/// The fields on which merged bugs agree.
#[derive(Drop)]
pub struct Shared {
    pub package: Text,
    pub severity: Severity,
    pub closed: bool,
    /// Where the bug was forwarded to.
    pub forwarded: Option<Text>,
    /// Who works on it.
    pub owner: Option<Text>,
    pub tags: Tags,
    /// The packages under which it is listed too.
    pub affects: Names,
    /// The nodes that are marked as having the bug.
    pub found: Nodes,
    /// The nodes that are marked as not having it.
    pub fixed: Nodes,
    /// The bugs on which this one waits.
    pub blockers: Numbers,
    pub archived: bool,
}

/// A bug of a set, with the fields of its own.
#[derive(Drop)]
pub struct Member {
    pub number: u64,
    pub title: Text,
    pub submitter: Text,
}

/// The image of a set of merged bugs: the shared fields once, and the members, which on every desk
/// ascend by number.
/// A bug that is merged with none is a set of one.
#[derive(Drop)]
pub struct SetImage {
    pub shared: Agreed,
    pub members: Members,
}

/// A bug's whole record, and the numbers of the bugs merged with it, itself among them, ascending.
#[derive(Drop)]
pub struct Bug {
    pub title: Text,
    pub submitter: Text,
    pub shared: Shared,
    pub merged: Numbers,
}

impl Numbered for Member {
    ghost number = { λ m. m.number };

    fn number(&self) -> u64 {
        self.number
    }
}

// A copy of the text, if there is one.
fn copy_text(text: &Option<Text>) -> Result<Option<Text>, AllocError>
    ensures { IfOk result (λ r. r ≡ text.now) }
{
    match text {
        Some(text) => Ok(Some(text.copy()?)),
        None => Ok(None),
    }
}

impl Shared {
    // Copies of the package, of where it was forwarded to, and of the owner.
    fn copy_texts(&self) -> Result<(Text, Option<Text>, Option<Text>), AllocError>
        ensures { IfOk result (λ r. r ≡ (self.now.package, self.now.forwarded, self.now.owner)) }
    {
        Ok((
            self.package.copy()?,
            copy_text(&self.forwarded)?,
            copy_text(&self.owner)?,
        ))
    }

    // Copies of the tags, of the affected packages, and of the blockers.
    fn copy_sets(&self) -> Result<(Tags, Names, Numbers), AllocError>
        ensures { IfOk result (λ r. r ≡ (self.now.tags, self.now.affects, self.now.blockers)) }
    {
        Ok((
            copy_tags(&self.tags)?,
            copy_names(&self.affects)?,
            self.blockers.copy()?,
        ))
    }

    // Copies of the found and of the fixed nodes.
    fn copy_marks(&self) -> Result<(Nodes, Nodes), AllocError>
        ensures { IfOk result (λ r. r ≡ (self.now.found, self.now.fixed)) }
    {
        Ok((copy_nodes(&self.found)?, copy_nodes(&self.fixed)?))
    }

    /// Equal fields, which share their texts with these.
    /// It answers out of memory where there is none for the lists of tags, names, nodes and
    /// blockers, or where no more copies of a text can be counted.
    pub fn copy(&self) -> Result<Shared, AllocError>
        ensures { IfOk result (λ r. r ≡ self.now) }
    {
        let texts = self.copy_texts()?;
        let sets = self.copy_sets()?;
        let (found, fixed) = self.copy_marks()?;
        let (package, forwarded, owner) = texts;
        let (tags, affects, blockers) = sets;
        Ok(Shared {
            package,
            severity: self.severity,
            closed: self.closed,
            forwarded,
            owner,
            tags,
            affects,
            found,
            fixed,
            blockers,
            archived: self.archived,
        })
    }
}

impl Member {
    /// An equal member, which shares its texts with this one.
    /// It takes no memory itself, and answers out of memory only where no more copies of a text can
    /// be counted.
    pub fn copy(&self) -> Result<Member, AllocError>
        ensures { IfOk result (λ r. r ≡ self.now) }
    {
        Ok(Member {
            number: self.number,
            title: self.title.copy()?,
            submitter: self.submitter.copy()?,
        })
    }
}

impl SetImage {
    /// Whether the bug is in the set.
    pub fn has(&self, number: u64) -> bool
        ensures { result ≡ has (numbers_of self.now.members) number }
    {
        self.members
            .as_slice()
            .iter()
            .any(|member| member.number == number)
    }

    /// An equal image, which shares the fields and the members with this one.
    /// It takes no memory itself, and answers out of memory only where no more copies of the
    /// fields, of the members or of a text can be counted.
    pub fn copy(&self) -> Result<SetImage, AllocError>
        ensures { IfOk result (λ r. r ≡ self.now) }
    {
        Ok(SetImage {
            members: self.members.copy()?,
            shared: self.shared.copy()?,
        })
    }
}

/// The member of the number; `None` where there is none.
/// It takes no memory.
pub fn member_at(members: &[Member], number: u64) -> Option<&Member>
    ensures { option_copied result ≡ member_at members.now number }
{
    for member in members {
        if member.number == number {
            return Some(member);
        }
    }
    None
}
