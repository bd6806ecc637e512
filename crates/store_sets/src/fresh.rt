//! The bugs of a change that have no place yet.
//! Most members of a change are members of one set that is there, and are found by going along it.

ghost use Rattle.std.specs.Prelude.{◌≡◌, ◌++◌, ℕ, filter, IsTrue, IfOk, OnOk};
ghost use Rattle.bug_record.specs.Sets.{has};
ghost use Rattle.bug_record.specs.Images.{numbers_of};
ghost use Rattle.store_keys.specs.Keys.{IsKeyed};
ghost use Rattle.store_sets.specs.Places.{keys, sets};
ghost use Rattle.store_sets.specs.PlacesOfImages.{numbers_in, is_there, is_fresh, HavePlaces};

use crate::places::{Place, image_of};
use bug_record::{Member, SetImage};
use std::alloc::{AllocError, Global};
use std::collections::HashMap;

// The members of the set that the first of these bugs is in, or none where it has no place.
fn known_members<'a>(bugs: &'a HashMap<u64, Place>, members: &[Member]) -> &'a [Member]
    requires { IsKeyed (keys bugs.now) (sets bugs.now) }
    ensures { HavePlaces bugs.now (numbers_of result.now) }
{
    let Some(first) = members.first() else {
        return &[];
    };
    match image_of(bugs, first.number) {
        Some(image) => image.members.as_slice(),
        None => &[],
    }
}

// The members from the first one on that is not below the number.
fn from_number(members: &[Member], number: u64) -> &[Member]
    ensures { (n : ℕ) → IsTrue (has (numbers_of result.now) n) → IsTrue (has (numbers_of members.now) n) }
{
    for (i, member) in members.iter().enumerate() {
        if member.number >= number {
            return &members[i..];
        }
    }
    &[]
}

// Whether the first member has the number.
fn starts_with(members: &[Member], number: u64) -> bool
    ensures { IsTrue result → IsTrue (has (numbers_of members.now) number) }
{
    match members.first() {
        Some(member) => member.number == number,
        None => false,
    }
}

// Whether the bug of this number has a place; it isn't looked up where it is the next known one.
fn has_place(bugs: &HashMap<u64, Place>, known: &[Member], number: u64) -> bool
    requires { HavePlaces bugs.now (numbers_of known.now) }
    ensures { result ≡ is_there bugs.now number }
{
    starts_with(known, number) || bugs.contains_key(&number)
}

// Adds the numbers of the members that have no place.
// Those that are among the known ones, in the same order, are not looked up.
fn add_fresh(
    fresh: &mut Vec<u64>,
    bugs: &HashMap<u64, Place>,
    known: &[Member],
    members: &[Member],
) -> Result<(), AllocError>
    requires { HavePlaces bugs.now (numbers_of known.now) }
    ensures { OnOk result (fresh.new.items ≡ fresh.old.items ++ filter (is_fresh bugs.now) (numbers_of members.now)) }
{
    let mut left = known;
    for member in members {
        left = from_number(left, member.number);
        if !has_place(bugs, left, member.number) {
            fresh.push(member.number)?;
        }
    }
    Ok(())
}

/// The numbers of the images' members that have no place.
pub(crate) fn fresh_numbers(
    alloc: Global,
    bugs: &HashMap<u64, Place>,
    images: &[SetImage],
) -> Result<Vec<u64>, AllocError>
    requires { IsKeyed (keys bugs.now) (sets bugs.now) }
    ensures { IfOk result (λ fresh. fresh.items ≡ filter (is_fresh bugs.now) (numbers_in images.now)) }
{
    let mut fresh = Vec::new(alloc);
    for image in images {
        let members = image.members.as_slice();
        add_fresh(&mut fresh, bugs, known_members(bugs, members), members)?;
    }
    Ok(fresh)
}
