//! Which bugs of a set a change touches, where the set stays the same bugs.

ghost use Rattle.std.specs.Prelude.{◌≡◌, ◌∷◌, ◌++◌, [], true, None, length, IsTrue, IfOk, OnOk};
ghost use Rattle.bug_record.specs.Images.{numbers_of, bug_in};
ghost use Rattle.bug_record.specs.Changed.{AreChanged};
ghost use Rattle.bug_images.specs.Kept.{is_above, ascends, retold, IsKept};

use crate::equal::{same_numbers, same_shared, same_texts};
use bug_record::{Member, Numbers, Sequence, SetImage};
use std::alloc::{AllocError, Global};

// Whether the number is above the last one, if there is one.
fn is_above(last: Option<u64>, number: u64) -> bool
    ensures { result ≡ is_above last number }
{
    match last {
        Some(last) => last < number,
        None => true,
    }
}

/// Whether the members ascend by number.
pub(crate) fn is_ascending(members: &[Member]) -> bool
    ensures { result ≡ ascends None (numbers_of members.now) }
{
    let mut last = None;
    for member in members {
        if !is_above(last, member.number) {
            return false;
        }
        last = Some(member.number);
    }
    true
}

/// Whether the images are of the same bugs, which ascend by number.
pub(crate) fn is_kept(old: &SetImage, new: &SetImage) -> bool
    ensures { IsTrue result → IsKept old.now new.now }
{
    let members = new.members.as_slice();
    same_numbers(old.members.as_slice(), members) && is_ascending(members)
}

/// Adds the numbers of the members.
pub(crate) fn add_members(numbers: &mut Vec<u64>, members: &[Member]) -> Result<(), AllocError>
    ensures { OnOk result (numbers.new.items ≡ numbers.old.items ++ numbers_of members.now) }
{
    numbers.reserve(members.len())?;
    for member in members {
        numbers.push(member.number)?;
    }
    Ok(())
}

/// The numbers of the members.
pub(crate) fn numbers_of(alloc: Global, members: &[Member]) -> Result<Numbers, AllocError>
    ensures { IfOk result (λ numbers. numbers ≡ numbers_of members.now) }
{
    if let [only] = members {
        return Ok(Sequence::one(alloc, only.number));
    }
    let mut numbers = Vec::new(alloc);
    add_members(&mut numbers, members)?;
    Ok(Sequence::from_vec(numbers))
}

// The numbers of the members whose titles or submitters differ.
fn retold(alloc: Global, old: &[Member], new: &[Member]) -> Result<Numbers, AllocError>
    requires len { length old.now ≡ length new.now }
    ensures { IfOk result (λ numbers. numbers ≡ retold old.now new.now) }
{
    let mut numbers = Sequence::new(alloc);
    for i in 0..new.len() {
        if !same_texts(&old[i], &new[i]) {
            numbers.push(new[i].number)?;
        }
    }
    Ok(numbers)
}

/// The numbers of the bugs that differ where the members are the same: all where the shared fields
/// do.
pub(crate) fn changed_together(
    alloc: Global,
    old: &SetImage,
    new: &SetImage,
) -> Result<Numbers, AllocError>
    requires alike { old.now.members ≡ new.now.members }
    requires ascending { ascends None (numbers_of new.now.members) ≡ true }
    ensures { IfOk result (λ r. AreChanged (bug_in (old.now ∷ [])) (bug_in (new.now ∷ [])) r) }
{
    if same_shared(old.shared.fields(), new.shared.fields()) {
        return Ok(Sequence::new(alloc));
    }
    numbers_of(alloc, new.members.as_slice())
}

/// The numbers of the bugs that differ: all where the shared fields do.
pub(crate) fn changed_in_place(
    alloc: Global,
    old: &SetImage,
    new: &SetImage,
) -> Result<Numbers, AllocError>
    requires kept { IsKept old.now new.now }
    ensures { IfOk result (λ r. AreChanged (bug_in (old.now ∷ [])) (bug_in (new.now ∷ [])) r) }
{
    let members = new.members.as_slice();
    if !same_shared(old.shared.fields(), new.shared.fields()) {
        return numbers_of(alloc, members);
    }
    retold(alloc, old.members.as_slice(), members)
}
