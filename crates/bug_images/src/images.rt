//! The image of a bug's set, and the numbers of its bugs.

ghost use Rattle.std.specs.Prelude.{◌≡◌, MatchOption, Some, None, IfOk};
ghost use Rattle.bug_record.specs.Images.{image_with, numbers_of};
ghost use Rattle.bug_record.specs.Sets.{number_set};

use bug_record::{Member, SetImage, add_number};
use std::alloc::{AllocError, Global};
use std::collections::BTreeSet;

/// The image that has the bug.
pub fn find_image(images: &[SetImage], number: u64) -> Option<&SetImage>
    ensures { MatchOption result (image_with images.now number ≡ None) (λ i. image_with images.now number ≡ Some i.now) }
{
    for image in images {
        if image.has(number) {
            return Some(image);
        }
    }
    None
}

/// The set of the numbers of the members.
///
/// # Errors
///
/// Only where there was no memory.
pub fn member_numbers(alloc: Global, members: &[Member]) -> Result<BTreeSet<u64>, AllocError>
    ensures { IfOk result (λ set. set.keys ≡ number_set (numbers_of members.now)) }
{
    let mut set = BTreeSet::new(alloc);
    for member in members {
        add_number(&mut set, member.number)?;
    }
    Ok(set)
}
