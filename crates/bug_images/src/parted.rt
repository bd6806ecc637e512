//! Which bugs a change touches, where no set stays the same bugs.

ghost use Rattle.std.specs.Prelude.{◌≡◌, ◌++◌, IsTrue, IfOk, OnOk};
ghost use Rattle.bug_record.specs.Images.{numbers_of, bug_in};
ghost use Rattle.bug_record.specs.Changed.{AreChanged};
ghost use Rattle.bug_images.specs.Parted.{is_unlike, numbers_in, IsParted, AreAmong, HasAll};

use crate::equal::same_numbers;
use crate::kept::{add_members, is_ascending, numbers_of};
use crate::sorted::in_order;
use bug_record::{Member, Numbers, Sequence, SetImage};
use std::alloc::{AllocError, Global};

// Whether the image has other bugs than each of the others.
fn is_unlike(image: &SetImage, others: &[SetImage]) -> bool
    ensures { result ≡ is_unlike image.now others.now }
{
    let members = image.members.as_slice();
    for other in others {
        if same_numbers(members, other.members.as_slice()) {
            return false;
        }
    }
    true
}

/// Whether no set stays the same bugs, as is told where one side is one set alone: it is parted,
/// or comes of the others.
pub(crate) fn is_parted(old: &[SetImage], new: &[SetImage]) -> bool
    ensures { IsTrue result → IsParted old.now new.now }
{
    match (old, new) {
        ([image], images) => is_unlike(image, images),
        (images, [image]) => is_unlike(image, images),
        _ => false,
    }
}

// Adds the numbers of all bugs of the images.
fn add_numbers(numbers: &mut Vec<u64>, images: &[SetImage]) -> Result<(), AllocError>
    ensures { OnOk result (numbers.new.items ≡ numbers.old.items ++ numbers_in images.now) }
{
    for image in images {
        add_members(numbers, image.members.as_slice())?;
    }
    Ok(())
}

// Whether all of the members are found in the whole set, one after another.
fn are_within(members: &[Member], whole: &[Member]) -> bool
    ensures { IsTrue result → AreAmong (numbers_of members.now) (numbers_of whole.now) }
{
    let mut found = 0;
    for other in whole {
        if found < members.len() && members[found].number == other.number {
            found += 1;
        }
    }
    found == members.len()
}

// Whether the members of all parts are found in the whole set.
fn are_parts(parts: &[SetImage], whole: &[Member]) -> bool
    ensures { IsTrue result → AreAmong (numbers_in parts.now) (numbers_of whole.now) }
{
    for part in parts {
        if !are_within(part.members.as_slice(), whole) {
            return false;
        }
    }
    true
}

// Whether the whole set ascends, and has all bugs of the parts, as where it is parted, or is merged
// of them.
fn has_all(whole: &SetImage, parts: &[SetImage]) -> bool
    ensures { IsTrue result → HasAll whole.now parts.now }
{
    let members = whole.members.as_slice();
    is_ascending(members) && are_parts(parts, members)
}

// The numbers of all bugs of the images, gathered and then sorted.
fn all_numbers(alloc: Global, old: &[SetImage], new: &[SetImage]) -> Result<Numbers, AllocError>
    requires { IsParted old.now new.now }
    ensures { IfOk result (λ r. AreChanged (bug_in old.now) (bug_in new.now) r) }
{
    let mut numbers = Vec::new(alloc);
    add_numbers(&mut numbers, old)?;
    add_numbers(&mut numbers, new)?;
    Ok(Sequence::from_vec(in_order(numbers)))
}

/// The numbers of the bugs that differ: all of them.
/// They are those of one set, where it has all.
pub(crate) fn changed_parted(
    alloc: Global,
    old: &[SetImage],
    new: &[SetImage],
) -> Result<Numbers, AllocError>
    requires { IsParted old.now new.now }
    ensures { IfOk result (λ r. AreChanged (bug_in old.now) (bug_in new.now) r) }
{
    match (old, new) {
        ([whole], parts) if has_all(whole, parts) => numbers_of(alloc, whole.members.as_slice()),
        (parts, [whole]) if has_all(whole, parts) => numbers_of(alloc, whole.members.as_slice()),
        _ => all_numbers(alloc, old, new),
    }
}
