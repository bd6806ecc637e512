//! What is written of a change.

ghost use Rattle.std.specs.Prelude.{◌≡◌, IsTrue, IfOk};
ghost use Rattle.bug_record.specs.Sets.{has};
ghost use Rattle.message_plans.specs.Images.{meets};
ghost use Rattle.message_plans.specs.Written.{images_with, written};

use crate::images::meets;
use bug_record::{Change, Sequence, SetImage, number_set};
use std::alloc::{AllocError, Global};

// Whether the first member of the image is one of these bugs.
fn begins_with(image: &SetImage, numbers: &[u64]) -> bool
    ensures { IsTrue result → IsTrue (meets (has numbers.now) image.now.members) }
{
    match image.members.as_slice().first() {
        Some(member) => numbers.contains(&member.number),
        None => false,
    }
}

// Whether that of each image is.
fn all_begin_with(images: &[SetImage], numbers: &[u64]) -> bool
    ensures { IsTrue result → images_with numbers.now images.now ≡ images.now }
{
    for image in images {
        if !begins_with(image, numbers) {
            return false;
        }
    }
    true
}

// The images that have one of these bugs.
fn images_with(
    alloc: Global,
    mut images: Sequence<SetImage>,
    numbers: &[u64],
) -> Result<Sequence<SetImage>, AllocError>
    ensures { IfOk result (λ r. r ≡ images_with numbers.now images) }
{
    let bugs = number_set(alloc, numbers)?;
    images.retain(|image| meets(&bugs, image.members.as_slice()));
    Ok(images)
}

/// What is written of a change that changes these bugs: where it has more than one image, those
/// that have such a bug.
pub fn written(alloc: Global, change: Change, numbers: &[u64]) -> Result<Change, AllocError>
    ensures { IfOk result (λ r. r ≡ written numbers.now change) }
{
    let images = change.images.as_slice();
    if images.len() < 2 || all_begin_with(images, numbers) {
        return Ok(change);
    }
    Ok(Change {
        images: images_with(alloc, change.images, numbers)?,
        next: change.next,
    })
}
