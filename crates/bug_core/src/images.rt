//! Images of sets: the change that puts some in the place of those of named bugs.

ghost use Rattle.std.specs.Prelude.{◌≡◌, ◌++◌, IfOk, OnOk};
ghost use Rattle.bug_record.specs.Images.{numbers_of};
ghost use Rattle.bug_core.specs.Others.{has_any, is_other, others};
ghost use Rattle.bug_core.specs.Named.{named_numbers};

use bug_images::FEW;
use bug_record::{Change, Member, Sequence, SetImage};
use std::alloc::AllocError;
use std::collections::BTreeSet;

/// The bugs whose sets a change replaces.
#[derive(Clone, Copy)]
pub(crate) enum Replaced<'a> {
    One(u64),
    Several(&'a BTreeSet<u64>),
}

// Whether one of the members has one of the numbers.
fn has_some(members: &[Member], numbers: &BTreeSet<u64>) -> bool
    ensures { result ≡ has_any (numbers_of members.now) numbers.now.keys }
{
    for member in members {
        if numbers.contains(&member.number) {
            return true;
        }
    }
    false
}

// Whether one of the numbers is that of a member.
fn has_one_of(image: &SetImage, numbers: &BTreeSet<u64>) -> bool
    ensures { result ≡ has_any (numbers_of image.now.members) numbers.now.keys }
{
    for number in numbers {
        if image.has(*number) {
            return true;
        }
    }
    false
}

/// Whether one of the bugs is in the image.
pub(crate) fn has_any(image: &SetImage, named: Replaced) -> bool
    ensures { result ≡ has_any (numbers_of image.now.members) (named_numbers named.entry) }
{
    match named {
        Replaced::One(number) => image.has(number),
        Replaced::Several(numbers) if numbers.len() <= FEW => has_one_of(image, numbers),
        Replaced::Several(numbers) => has_some(image.members.as_slice(), numbers),
    }
}

// Whether the image has a member, and none of the bugs.
fn is_other(image: &SetImage, named: Replaced) -> bool
    ensures { result ≡ is_other (named_numbers named.entry) image.now }
{
    !image.members.as_slice().is_empty() && !has_any(image, named)
}

// Adds the images of other sets than the bugs'.
fn add_others(
    kept: &mut Sequence<SetImage>,
    images: &[SetImage],
    named: Replaced,
) -> Result<(), AllocError>
    ensures { OnOk result (kept.new ≡ kept.old ++ others (named_numbers named.entry) images.now) }
{
    for image in images {
        if is_other(image, named) {
            kept.push(image.copy()?)?;
        }
    }
    Ok(())
}

/// The change that puts these images in the place of those of the bugs' sets, and keeps the others.
pub(crate) fn replace(
    mut parts: Sequence<SetImage>,
    images: &[SetImage],
    named: Replaced,
    next: u64,
) -> Result<Change, AllocError>
    ensures images { IfOk result (λ change. change.images ≡ parts ++ others (named_numbers named.entry) images.now) }
    ensures next { IfOk result (λ change. change.next ≡ next) }
{
    add_others(&mut parts, images, named)?;
    Ok(Change {
        images: parts,
        next,
    })
}
