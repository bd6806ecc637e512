//! The command `clone`.

ghost use Rattle.std.specs.Prelude.{◌≡◌, ◌∷◌, [], ◌++◌, ◌≤◌, ◌+◌, None, nat_lt, IfOk};
ghost use Rattle.bug_record.specs.Images.{AreApart};
ghost use Rattle.bug_record.specs.Clones.{cloned};
ghost use Rattle.bug_core.specs.Clones.{clone_image, clone_images};
ghost use Rattle.bug_core.specs.Others.{others};
ghost use Rattle.bug_core.specs.Planned.{IsPlannedOf};

use crate::images::{Replaced, replace};
use base_words::AFTER_LARGEST;
use bug_images::{archived_refusal, find_image};
use bug_record::{Agreed, Change, Member, Members, PlanFault, Refusal, Sequence, SetImage};
use std::alloc::{AllocError, Global};
use std::collections::BTreeSet;

// A copy of a bug under a number, alone in its set.
fn clone_image(shared: &Agreed, member: &Member, number: u64) -> Result<SetImage, AllocError>
    ensures { IfOk result (λ i. i ≡ clone_image shared.now member.now number) }
{
    let mut member = member.copy()?;
    member.number = number;
    Ok(SetImage {
        shared: shared.copy()?,
        members: Members::one(member),
    })
}

// So many copies of a bug, numbered upward from the next number.
fn clone_images(
    alloc: Global,
    shared: &Agreed,
    member: &Member,
    next: u64,
    many: u64,
) -> Result<Sequence<SetImage>, AllocError>
    requires { next + many ≤ AFTER_LARGEST }
    ensures { IfOk result (λ is. is ≡ clone_images shared.now member.now next many) }
{
    let mut images = Sequence::new(alloc);
    for i in 0..many {
        images.push(clone_image(shared, member, next + i)?)?;
    }
    Ok(images)
}

// Whether fewer numbers are left than are asked for.
fn is_full(next: u64, asked: u64) -> bool
    ensures { result ≡ nat_lt AFTER_LARGEST (next + asked) }
{
    asked > AFTER_LARGEST || next > AFTER_LARGEST - asked
}

// The change that adds so many copies of a bug.
fn add_clones(
    alloc: Global,
    shared: &Agreed,
    member: &Member,
    many: u64,
    images: &[SetImage],
    next: u64,
) -> Result<Change, AllocError>
    requires { next + many ≤ AFTER_LARGEST }
    ensures images { IfOk result (λ change. change.images ≡ clone_images shared.now member.now next many ++ others [] images.now) }
    ensures next { IfOk result (λ change. change.next ≡ next + many) }
{
    let clones = clone_images(alloc, shared, member, next, many)?;
    let replaced = BTreeSet::new(alloc);
    replace(clones, images, Replaced::Several(&replaced), next + many)
}

/// Copies a bug that is merged with no other, once for each name, whatever the names.
pub(crate) fn plan_clone(
    alloc: Global,
    number: u64,
    names: &[u32],
    images: &[SetImage],
    next: u64,
) -> Result<Change, PlanFault>
    requires apart { AreApart images.now }
    ensures { IsPlannedOf (number ∷ []) (λ d. cloned (λ ks. None) d number names.now) images.now next result }
{
    let Some(image) = find_image(images, number) else {
        return Err(PlanFault::Refused(Refusal::NoBug(number)));
    };
    if let Some(refusal) = archived_refusal(false, number, image.shared.fields()) {
        return Err(PlanFault::Refused(refusal));
    }
    let members = image.members.as_slice();
    if members.len() > 1 {
        return Err(PlanFault::Refused(Refusal::Merged(number)));
    }
    let many = names.len() as u64;
    if is_full(next, many) {
        return Err(PlanFault::Refused(Refusal::Full));
    }
    match members.first() {
        Some(member) => Ok(add_clones(alloc, &image.shared, member, many, images, next)?),
        // An image in which a bug was found has a member.
        None => Err(PlanFault::Refused(Refusal::NoBug(number))),
    }
}
