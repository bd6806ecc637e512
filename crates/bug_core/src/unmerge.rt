//! The command `unmerge`.

ghost use Rattle.std.specs.Prelude.{◌≡◌, ◌∷◌, ◌++◌, [], filter, true, false, IfOk, OnOk};
ghost use Rattle.bug_record.specs.Images.{AreApart};
ghost use Rattle.bug_record.specs.Merges.{unmerged};
ghost use Rattle.bug_core.specs.Joins.{is_part};
ghost use Rattle.bug_core.specs.Others.{others};
ghost use Rattle.bug_core.specs.Planned.{IsPlannedOf};

use crate::by_number::add_copy;
use crate::images::{Replaced, replace};
use bug_images::{archived_refusal, find_image};
use bug_record::{Agreed, Change, Member, Members, PlanFault, Refusal, Sequence, SetImage};
use std::alloc::{AllocError, Global};

// Whether this is the member of the number, or, of the rest, whether it is another.
fn is_part(own: bool, number: u64, member: &Member) -> bool
    ensures { result ≡ is_part own number member.now }
{
    if own {
        member.number == number
    } else {
        member.number != number
    }
}

// Adds copies of the members of the number, or of the rest.
fn add_part(
    copies: &mut Sequence<Member>,
    own: bool,
    number: u64,
    members: &[Member],
) -> Result<(), AllocError>
    ensures { OnOk result (copies.new ≡ copies.old ++ filter (is_part own number) members.now) }
{
    for member in members {
        if is_part(own, number, member) {
            add_copy(copies, member)?;
        }
    }
    Ok(())
}

// Copies of the members of the number, or of the rest.
fn part(
    alloc: Global,
    own: bool,
    number: u64,
    members: &[Member],
) -> Result<Sequence<Member>, AllocError>
    ensures { IfOk result (λ ms. ms ≡ filter (is_part own number) members.now) }
{
    // One by itself needs no room.
    let room = if own || members.len() <= 2 {
        0
    } else {
        members.len()
    };
    let mut copies = Sequence::from_vec(Vec::with_capacity(alloc, room)?);
    add_part(&mut copies, own, number, members)?;
    Ok(copies)
}

// The image of a set with a copy of the shared fields.
fn part_image(shared: &Agreed, members: Sequence<Member>) -> Result<SetImage, AllocError>
    ensures { IfOk result (λ image. image ≡ record { shared = shared.now; members = members }) }
{
    Ok(SetImage {
        shared: shared.copy()?,
        members: Members::of(members)?,
    })
}

// The images of two sets with copies of the shared fields.
fn two_images(
    alloc: Global,
    shared: &Agreed,
    own: Sequence<Member>,
    rest: Sequence<Member>,
) -> Result<Sequence<SetImage>, AllocError>
    ensures { IfOk result
        (λ is. is ≡ record { shared = shared.now; members = own } ∷ record { shared = shared.now; members = rest } ∷ []) }
{
    let mut images = Sequence::one(alloc, part_image(shared, own)?);
    images.push(part_image(shared, rest)?)?;
    Ok(images)
}

// The change that puts both parts in the place of the set: the members of the number, and the rest.
fn part_set(
    alloc: Global,
    shared: &Agreed,
    members: &[Member],
    rest: Sequence<Member>,
    number: u64,
    images: &[SetImage],
    next: u64,
) -> Result<Change, AllocError>
    ensures images { IfOk result (λ change. change.images
        ≡ record { shared = shared.now; members = filter (is_part true number) members.now }
        ∷ record { shared = shared.now; members = rest } ∷ others (number ∷ []) images.now) }
    ensures next { IfOk result (λ change. change.next ≡ next) }
{
    let own = part(alloc, true, number, members)?;
    let parts = two_images(alloc, shared, own, rest)?;
    replace(parts, images, Replaced::One(number), next)
}

/// Takes a bug out of its set.
/// Both parts keep the shared fields.
/// No number is new, so the images stay disjoint.
pub(crate) fn plan_unmerge(
    alloc: Global,
    number: u64,
    images: &[SetImage],
    next: u64,
) -> Result<Change, PlanFault>
    requires apart { AreApart images.now }
    ensures planned { IsPlannedOf (number ∷ []) (λ d. unmerged d number) images.now next result }
    ensures apart { IfOk result (λ change. AreApart change.images) }
{
    let Some(image) = find_image(images, number) else {
        return Err(PlanFault::Refused(Refusal::NoBug(number)));
    };
    if let Some(refusal) = archived_refusal(false, number, image.shared.fields()) {
        return Err(PlanFault::Refused(refusal));
    }
    let members = image.members.as_slice();
    let rest = part(alloc, false, number, members)?;
    if rest.as_slice().is_empty() {
        // In one call, for the proof's sake: the parts are many.
        drop(rest);
        return Err(PlanFault::Refused(Refusal::NotMerged(number)));
    }
    let shared = &image.shared;
    Ok(part_set(alloc, shared, members, rest, number, images, next)?)
}
