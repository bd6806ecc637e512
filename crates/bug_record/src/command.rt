//! Commands on bugs, why one is refused, and what one changes.

ghost use Rattle.std.specs.Prelude.{IsTrue};
ghost use Rattle.std.specs.Str.{is_utf8};
ghost use Rattle.bug_record.specs.Commands.{IsUtf8Person, HasUtf8Texts};

use crate::bug::SetImage;
use crate::severity::Severity;
use crate::tag::Tag;
use base_sequences::Sequence;
use debver::Text;
use std::alloc::AllocError;
use std::fmt;
use thiserror::Error;
use version_nodes::Node;

/// A version as a command names it: of this source package, or of the bug's own where there is
/// none.
#[derive(Drop)]
pub struct VersionArg {
    pub source: Option<Text>,
    pub version: Text,
}

/// Somebody, as a command names them.
#[derive(Drop)]
pub enum Who {
    /// The sender, written `!`.
    Sender,
    /// This address.
    Given(Text),
}

/// A step in a change of tags.
#[derive(Clone, Copy, Drop)]
pub enum TagStep {
    /// The tag is added.
    Add(Tag),
    /// The tag is taken out.
    Remove(Tag),
    /// All tags are taken out.
    Clear,
}

/// What a command does with the packages that a bug affects.
#[derive(Clone, Copy, Drop)]
pub enum AffectsStep {
    /// These are added.
    Add,
    /// These are taken out.
    Remove,
    /// These are all that it affects.
    Replace,
}

/// A command of the BTS page 'control and manipulation', whose bugs are given as `N`.
/// A change of a field on which merged bugs agree changes the bug and all bugs that are merged with
/// it.
#[derive(Drop)]
pub enum Command<N> {
    /// `found n [v]`: the bug is in the version, which may reopen it; without a version it is open
    /// and nowhere fixed.
    Found(N, Option<VersionArg>),
    /// `notfound n v`: the mark that the bug is in the version goes.
    NotFound(N, VersionArg),
    /// `fixed n v`: the version does not have the bug.
    /// It is not closed by that.
    Fixed(N, VersionArg),
    /// `notfixed n v`: the mark that the version does not have the bug goes.
    /// It is not reopened by that.
    NotFixed(N, VersionArg),
    /// `close n [v]`: closes the bug, as one that the version does not have.
    Close(N, Option<VersionArg>),
    /// `reopen n [who]`: opens a closed bug, which is then nowhere fixed, and has the new
    /// submitter, if one is given.
    Reopen(N, Option<Who>),
    /// `severity n s`: sets the severity.
    Severity(N, Severity),
    /// `tags n ..`: takes these steps with the tags, in the order written.
    Tags(N, Sequence<TagStep>),
    /// `retitle n text`: changes the title of this bug alone.
    Retitle(N, Text),
    /// `submitter n who`: changes the submitter of this bug alone.
    Submitter(N, Who),
    /// `reassign n package [v]`: moves the bug to a package, and marks it found in the version
    /// there.
    Reassign(N, Text, Option<VersionArg>),
    /// `merge n m ..`: the sets of all these bugs become one.
    /// Those after the first have to equal it in package, state, forwarded and severity.
    Merge(N, Sequence<N>),
    /// `forcemerge n m ..`: as `Merge`, but the package alone has to be equal, and the first bug's
    /// state, forwarded and severity become those of all.
    ForceMerge(N, Sequence<N>),
    /// `unmerge n`: takes the bug out of its set.
    /// The others stay together.
    Unmerge(N),
    /// `clone n -1 ..`: one new bug for each of these names, which are numbered upward in the order
    /// written, each a copy of the bug, which may be merged with no other.
    /// The name -k is given as k.
    Clone(N, Sequence<u32>),
    /// `block n by m ..`: the bug waits on these bugs too.
    Block(N, Sequence<N>),
    /// `unblock n by m ..`: the bug waits on none of these.
    Unblock(N, Sequence<N>),
    /// `forwarded n text`: the bug was forwarded to this address.
    Forwarded(N, Text),
    /// `notforwarded n`: the bug was forwarded to nobody.
    NotForwarded(N),
    /// `owner n who`: somebody works on the bug.
    Owner(N, Who),
    /// `noowner n`: nobody works on the bug.
    NoOwner(N),
    /// `archive n`: puts a bug into the archive that is closed, and found in no head of its
    /// package.
    /// Until it is taken out no command but `unarchive` changes it.
    Archive(N),
    /// `unarchive n`: takes the bug out of the archive.
    Unarchive(N),
    /// `affects n [+|-|=] package ..`: the bug is listed under these packages too, or under these
    /// no more, or, besides its own, under these alone.
    Affects(N, AffectsStep, Sequence<Text>),
}

// A text is UTF-8, as the `str` that it keeps.
fn text_is_utf8(text: &Text)
    ensures { IsTrue (is_utf8 text.now) }
{
    let _kept = text.as_str();
}

// So is the address of somebody.
fn person_is_utf8(who: &Who)
    ensures { IsUtf8Person who.now }
{
    match who {
        Who::Sender => {}
        Who::Given(text) => text_is_utf8(text),
    }
}

impl Command<u64> {
    /// The law that the texts of a command are UTF-8, as every `Text` is.
    /// Nothing is done.
    pub fn texts_are_utf8(&self)
        ensures { HasUtf8Texts self.now }
    {
        match self {
            Command::Retitle(_, text) | Command::Forwarded(_, text) => text_is_utf8(text),
            Command::Submitter(_, who) | Command::Owner(_, who) => person_is_utf8(who),
            Command::Reopen(_, Some(who)) => person_is_utf8(who),
            _ => {}
        }
    }
}

/// A field that is compared before bugs are merged.
#[derive(Clone, Copy, Debug, PartialEq, Eq, Drop)]
pub enum Field {
    Package,
    /// Whether the bug is closed.
    State,
    Forwarded,
    Severity,
}

/// Why a line is refused, in the order in which the causes are tested.
#[derive(Drop)]
pub enum Refusal {
    /// The first word is no command.
    Unknown,
    /// The shape is wrong, or the line holds a control character other than tab.
    Malformed,
    /// A text of more than 200 bytes.
    TooLong,
    /// A word that names no severity.
    BadSeverity,
    /// A word that names no tag.
    BadTag,
    /// A word that is no version.
    BadVersion,
    /// A word that is no package name.
    BadPackage,
    /// The name -k is not known.
    NoName(u64),
    /// There is no bug of this number.
    NoBug(u64),
    /// The bug is archived.
    Archived(u64),
    /// The bug that is to be taken out of the archive is not in it.
    NotArchived(u64),
    /// The bug differs in this field from the first bug that is to be merged.
    Differ(Field, u64),
    /// The bug is merged with no other.
    NotMerged(u64),
    /// The bug that is to be copied is merged with another.
    Merged(u64),
    /// The name -k is known already, or stands more than once in the line.
    NameTaken(u64),
    /// The bug that is to block another is merged with it, or is that bug.
    OwnSet(u64),
    /// The bug that is to be archived is open.
    NotDone(u64),
    /// The bug that is to be archived is still found at this node, the first such head of its
    /// package.
    StillFound(Node),
    /// Fewer bug numbers are left than are asked for.
    Full,
}

/// Why nothing is planned.
#[derive(Drop, Error)]
pub enum PlanFault {
    /// The command is refused.
    #[error("the command is refused")]
    Refused(Refusal),
    /// There was no memory.
    #[error("out of memory")]
    Memory,
}

impl fmt::Debug for PlanFault {
    fn fmt<W: fmt::Write>(&self, f: &mut fmt::Formatter<W>) -> fmt::Result {
        fmt::Display::fmt(self, f)
    }
}

impl From<AllocError> for PlanFault {
    ghost use Rattle.std.specs.Prelude.{◌≡◌};
    ghost use Rattle.bug_record.specs.declared.command.PlanFault.TheVariants.{Memory};

    ghost from_gives = { λ _ e. e ≡ Memory };

    fn from(_error: AllocError) -> PlanFault {
        PlanFault::Memory
    }
}

/// A change of a desk: the images replace all sets that they cover, and `next` becomes the next
/// number.
#[derive(Drop)]
pub struct Change {
    pub images: Sequence<SetImage>,
    pub next: u64,
}
