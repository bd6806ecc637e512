//! Images in which many or few bugs are looked up.

ghost use Rattle.std.specs.Prelude.{◌≡◌, MatchOption, Some, None, false, IfOk};
ghost use Rattle.bug_record.specs.Images.{bug_of, bug_in};
ghost use Rattle.bug_record.specs.Words.{bug_refusal, first_bug_refusal};

use crate::index::Index;
use crate::refusals::archived_refusal;
use bug_record::{Member, Refusal, SetImage, member_at};
use std::alloc::{AllocError, Global};
use std::marker::Model;

/// So many bugs are found sooner by going over members for each than by an index or a tree of
/// numbers.
pub const FEW: usize = 4;

/// Images in which bugs are looked up, which contracts see as their list.
/// Many are looked up by an index, and few by going over the images.
#[derive(Drop)]
pub struct Lookup<'a> {
    images: &'a [SetImage],
    index: Option<Index<'a>>,
}

impl<'a> Model for Lookup<'a> {
    ghost use Rattle.std.specs.Prelude.{◌≡◌, List, IfSome};
    ghost use Rattle.bug_record.specs.declared.bug.SetImage.{SetImage};

    ghost Value = { List SetImage };

    ghost view = { λ l. l.images.now };

    ghost invariant = { λ l. IfSome l.index (λ index. index ≡ l.images.now) };
}

// The first image that has the bug, and the member.
fn find_in(images: &[SetImage], number: u64) -> Option<(&SetImage, &Member)>
    ensures { MatchOption result (bug_in images.now number ≡ None)
        (λ p. bug_in images.now number ≡ Some (bug_of p.0.now p.1.now)) }
{
    for image in images {
        if let Some(member) = member_at(image.members.as_slice(), number) {
            return Some((image, member));
        }
    }
    None
}

impl<'a> Lookup<'a> {
    /// The images, in which so many bugs are looked up.
    pub fn of(alloc: Global, images: &'a [SetImage], count: usize) -> Result<Lookup<'a>, AllocError>
        ensures { IfOk result (λ lookup. lookup ≡ images.now) }
    {
        let index = if count > FEW {
            Some(Index::of(alloc, images)?)
        } else {
            None
        };
        Ok(Lookup { images, index })
    }

    /// The image and the member of a bug.
    pub fn find_bug(&self, number: u64) -> Option<(&SetImage, &Member)>
        ensures { MatchOption result (bug_in self.now number ≡ None)
            (λ p. bug_in self.now number ≡ Some (bug_of p.0.now p.1.now)) }
    {
        match &self.index {
            Some(index) => index.find_bug(number),
            None => find_in(self.images, number),
        }
    }
}

// The refusal of a bug that is not there, or is archived.
fn bug_refusal(lookup: &Lookup, number: u64) -> Option<Refusal>
    ensures { result ≡ bug_refusal false (bug_in lookup.now number) number }
{
    match lookup.find_bug(number) {
        Some((image, _)) => archived_refusal(false, number, image.shared.fields()),
        None => Some(Refusal::NoBug(number)),
    }
}

/// The refusal of the first bug that is not there, or is archived.
/// It takes no memory.
pub fn first_bug_refused(lookup: &Lookup, numbers: &[u64]) -> Option<Refusal>
    ensures { result ≡ first_bug_refusal false (bug_in lookup.now) numbers.now }
{
    for number in numbers {
        if let Some(refusal) = bug_refusal(lookup, *number) {
            return Some(refusal);
        }
    }
    None
}
