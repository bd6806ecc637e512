//! What is known of the bugs of an image.

ghost use Rattle.std.specs.Prelude.{◌≡◌};
ghost use Rattle.table_reads.specs.BugTests.{is_unknown, is_alone, are_unknown, are_alone, is_known};

use bug_images::same_numbers;
use bug_record::{Member, SetImage};
use store_sets::BugSets;

// Whether a bug is in no set that is known.
fn is_unknown(bugs: &BugSets, number: u64) -> bool
    ensures { result ≡ is_unknown bugs.now number }
{
    bugs.image_of(number).is_none()
}

/// Whether none of these bugs is in a set that is known.
pub(crate) fn are_unknown(bugs: &BugSets, members: &[Member]) -> bool
    ensures { result ≡ are_unknown bugs.now members.now }
{
    members.iter().all(|member| is_unknown(bugs, member.number))
}

// Whether a bug is in no set that is known, or known to be a set by itself.
fn is_alone(bugs: &BugSets, number: u64) -> bool
    ensures { result ≡ is_alone bugs.now number }
{
    match bugs.image_of(number) {
        Some(image) => image.members.as_slice().len() == 1,
        None => true,
    }
}

/// Whether each of these bugs is in no set that is known, or known to be a set by itself.
pub(crate) fn are_alone(bugs: &BugSets, members: &[Member]) -> bool
    ensures { result ≡ are_alone bugs.now members.now }
{
    members.iter().all(|member| is_alone(bugs, member.number))
}

/// Whether the first of an image's bugs is in a set that is known and has the same bugs.
pub(crate) fn is_known(bugs: &BugSets, image: &SetImage) -> bool
    ensures { result ≡ is_known bugs.now image.now.members }
{
    let members = image.members.as_slice();
    let Some(first) = members.first() else {
        return false;
    };
    match bugs.image_of(first.number) {
        Some(known) => same_numbers(known.members.as_slice(), members),
        None => false,
    }
}
