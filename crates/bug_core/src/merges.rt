//! The commands `merge` and `forcemerge`.

ghost use Rattle.std.specs.Prelude.{◌≡◌, ◌∷◌, false, IfOk};
ghost use Rattle.bug_record.specs.Bugs.{first_refusal};
ghost use Rattle.bug_record.specs.Differences.{differing};
ghost use Rattle.bug_record.specs.Images.{bug_in, AreApart};
ghost use Rattle.bug_record.specs.Merges.{sets_joined};
ghost use Rattle.bug_core.specs.Agreements.{difference_of};
ghost use Rattle.bug_core.specs.Joins.{joined_image};
ghost use Rattle.bug_core.specs.Others.{others};
ghost use Rattle.bug_core.specs.Planned.{IsPlannedOf};

use crate::images::{Replaced, replace};
use crate::joins::joined_image;
use bug_images::{Lookup, archived_refusal, find_image, first_bug_refused, same_text};
use bug_record::{
    Change, Field, Numbers, PlanFault, Refusal, Sequence, SetImage, Shared, number_set,
};
use std::alloc::{AllocError, Global};

/// What has to be equal before bugs are merged.
#[derive(Clone, Copy)]
pub(crate) enum Agreement {
    /// Package, state, forwarded and severity.
    FourFields,
    PackageAlone,
}

// The first field in which a bug differs, of those that have to be equal.
fn difference(agreement: Agreement, first: &Shared, shared: &Shared) -> Option<Field>
    ensures { result ≡ difference_of agreement first.now shared.now }
{
    if first.package != shared.package {
        return Some(Field::Package);
    }
    match agreement {
        Agreement::PackageAlone => None,
        Agreement::FourFields if first.closed != shared.closed => Some(Field::State),
        Agreement::FourFields if !same_text(&first.forwarded, &shared.forwarded) => {
            Some(Field::Forwarded)
        }
        Agreement::FourFields if first.severity.rank() != shared.severity.rank() => {
            Some(Field::Severity)
        }
        Agreement::FourFields => None,
    }
}

// The refusal of a bug, if it is there and differs.
fn differing(agreement: Agreement, first: &Shared, lookup: &Lookup, number: u64) -> Option<Refusal>
    ensures { result ≡ differing (difference_of agreement first.now) (bug_in lookup.now number) number }
{
    let Some((image, _)) = lookup.find_bug(number) else {
        return None;
    };
    match difference(agreement, first, image.shared.fields()) {
        Some(field) => Some(Refusal::Differ(field, number)),
        None => None,
    }
}

// The refusal of the first bug that differs.
fn first_differing(
    agreement: Agreement,
    first: &Shared,
    lookup: &Lookup,
    numbers: &[u64],
) -> Option<Refusal>
    ensures { result ≡ first_refusal (differing (difference_of agreement first.now)) (bug_in lookup.now) numbers.now }
{
    for number in numbers {
        if let Some(refusal) = differing(agreement, first, lookup, *number) {
            return Some(refusal);
        }
    }
    None
}

// The numbers of all bugs that are to be merged.
fn all_numbers(alloc: Global, first: u64, others: &[u64]) -> Result<Numbers, AllocError>
    ensures { IfOk result (λ numbers. numbers ≡ first ∷ others.now) }
{
    let mut numbers = Numbers::one(alloc, first);
    for number in others {
        numbers.push(*number)?;
    }
    Ok(numbers)
}

// The change that makes one set of those of the bugs, with the fields of the first one's.
// The bugs are looked up in the images.
fn join_sets(
    alloc: Global,
    first: &Shared,
    lookup: &Lookup,
    images: &[SetImage],
    numbers: &[u64],
    next: u64,
) -> Result<Change, AllocError>
    requires images { lookup.now ≡ images.now }
    ensures images { IfOk result (λ change. change.images
        ≡ joined_image first.now images.now numbers.now ∷ others numbers.now images.now) }
    ensures next { IfOk result (λ change. change.next ≡ next) }
{
    let set = number_set(alloc, numbers)?;
    let image = joined_image(alloc, first, lookup, images, numbers, &set)?;
    let parts = Sequence::one(alloc, image);
    replace(parts, images, Replaced::Several(&set), next)
}

// The change that makes one set of those of a bug with these fields and of the others.
fn join_all(
    alloc: Global,
    shared: &Shared,
    lookup: &Lookup,
    images: &[SetImage],
    first: u64,
    more: &[u64],
    next: u64,
) -> Result<Change, AllocError>
    requires images { lookup.now ≡ images.now }
    ensures images { IfOk result (λ change. change.images
        ≡ joined_image shared.now images.now (first ∷ more.now) ∷ others (first ∷ more.now) images.now) }
    ensures next { IfOk result (λ change. change.next ≡ next) }
{
    let numbers = all_numbers(alloc, first, more)?;
    join_sets(alloc, shared, lookup, images, numbers.as_slice(), next)
}

/// Merges bugs: their sets become one.
pub(crate) fn plan_merge(
    alloc: Global,
    agreement: Agreement,
    first: u64,
    others: &[u64],
    images: &[SetImage],
    next: u64,
) -> Result<Change, PlanFault>
    requires apart { AreApart images.now }
    ensures { IsPlannedOf (first ∷ others.now) (λ d. sets_joined (difference_of agreement) d first others.now) images.now next
        result }
{
    let Some(image) = find_image(images, first) else {
        return Err(PlanFault::Refused(Refusal::NoBug(first)));
    };
    let shared = image.shared.fields();
    if let Some(refusal) = archived_refusal(false, first, shared) {
        return Err(PlanFault::Refused(refusal));
    }
    let lookup = Lookup::of(alloc, images, others.len())?;
    // In one call wherever it is given up, for the proof's sake: the parts are many.
    if let Some(refusal) = first_bug_refused(&lookup, others) {
        drop(lookup);
        return Err(PlanFault::Refused(refusal));
    }
    if let Some(refusal) = first_differing(agreement, shared, &lookup, others) {
        drop(lookup);
        return Err(PlanFault::Refused(refusal));
    }
    let joined = join_all(alloc, shared, &lookup, images, first, others, next);
    drop(lookup);
    Ok(joined?)
}
