//! What a command does, planned on the images of the sets of merged bugs that it names.

ghost use Rattle.std.specs.Prelude.{◌≡◌, ◌≤◌, ◌∷◌, [], true, false, map, IfOk, IfErr, Option, Some, None};
ghost use Rattle.version_nodes.specs.Nodes.{Node};
ghost use Rattle.bug_record.specs.Sets.{Each};
ghost use Rattle.base_words.specs.Texts.{IsText};
ghost use Rattle.bug_record.specs.Desk.{Desk, IsSound};
ghost use Rattle.bug_record.specs.Commands.{HasGoodParts, bug_named, bugs_named};
ghost use Rattle.bug_record.specs.Steps.{step_of_numbers};
ghost use Rattle.bug_record.specs.Images.{AreApart, HasMember, AreSetsOf, FitsDesk, image_with};
ghost use Rattle.bug_record.specs.Plans.{AllKnown, IsShownBy, IsOpenHeadFor, IsPlanFor, CoverImages, BringNone};
ghost use Rattle.std.specs.Option.{option_copied};
ghost use Rattle.bug_record.specs.declared.bug.SetImage.{SetImage};
ghost use Rattle.bug_fields.specs.Members.{member_after, changes_members, leaves_members};
ghost use Rattle.bug_core.specs.Others.{others};
ghost use Rattle.bug_images.specs.Alike.{BeginAlike};
ghost use Rattle.bug_images.specs.Refusals.{records_refusal};
ghost use Rattle.bug_core.specs.Planned.{step_with, IsPlanned, IsRecordsPlan};
ghost use Rattle.bug_core.specs.Refused.{HasName, IsRefusedAs, IsFaultOfPlan};

use crate::clones::plan_clone;
use crate::images::{Replaced, replace};
use crate::merges::{Agreement, plan_merge};
use crate::unmerge::plan_unmerge;
use bug_fields::{members_with, shared_after};
use bug_images::{bug_named, find_image, records_refusal};
use bug_record::{Agreed, Change, Command, PlanFault, Refusal, Sequence, SetImage, Shared};
use std::alloc::{AllocError, Global};
use version_nodes::Node;

// The change that gives the bug's set these shared fields, and its members what the command gives
// them.
fn changed_set(
    alloc: Global,
    command: &Command<u64>,
    from: &str,
    image: &SetImage,
    shared: Shared,
    images: &[SetImage],
    next: u64,
) -> Result<Change, AllocError>
    ensures images { IfOk result (λ change. change.images
        ≡ record { shared = shared; members = map (member_after from.now command.now image.now.shared) image.now.members }
        ∷ others (bug_named command.now ∷ []) images.now) }
    ensures next { IfOk result (λ change. change.next ≡ next) }
{
    let shared = Agreed::of(alloc, shared)?;
    let members = members_with(alloc, command, from, image.shared.fields(), &image.members)?;
    let image = SetImage { shared, members };
    let named = Replaced::One(bug_named(command));
    replace(Sequence::one(alloc, image), images, named, next)
}

// What a command does to the records of the set of the bug that it names, where no test refuses it.
// No set changes.
fn change_records(
    alloc: Global,
    command: &Command<u64>,
    from: &str,
    image: &SetImage,
    images: &[SetImage],
    next: u64,
) -> Result<Change, PlanFault>
    requires sender { IsText from.now }
    requires parts { HasGoodParts command.now }
    requires apart { AreApart images.now }
    requires named { image_with images.now (bug_named command.now) ≡ Some image.now }
    ensures leaves { changes_members command.now image.now.shared ≡ false
        → IfOk result (λ change. BeginAlike (image.now ∷ []) change.images) }
    ensures plan { (head : Option Node) → records_refusal command.now head images.now image.now ≡ None
        → IsRecordsPlan head from.now command.now images.now next result }
{
    let shared = match shared_after(alloc, command, from, image.shared.fields()) {
        Ok(shared) => shared,
        Err(PlanFault::Memory) => return Err(PlanFault::Memory),
        // The image's package is no package name: no desk has such a bug.
        Err(PlanFault::Refused(refusal)) => {
            // In one call, for the proof's sake: its kinds are many.
            drop(refusal);
            return Err(PlanFault::Refused(Refusal::NoBug(bug_named(command))));
        }
    };
    command.texts_are_utf8();
    match changed_set(alloc, command, from, image, shared, images, next) {
        Ok(change) => Ok(change),
        Err(_) => Err(PlanFault::Memory),
    }
}

// What a command comes to that changes records of the set of the bug that it names.
fn plan_records(
    alloc: Global,
    command: &Command<u64>,
    from: &str,
    images: &[SetImage],
    next: u64,
    open_head: Option<&Node>,
) -> Result<Change, PlanFault>
    requires sender { IsText from.now }
    requires parts { HasGoodParts command.now }
    requires apart { AreApart images.now }
    ensures leaves { (i : SetImage) → image_with images.now (bug_named command.now) ≡ Some i
        → changes_members command.now i.shared ≡ false → IfOk result (λ change. BeginAlike (i ∷ []) change.images) }
    ensures plan { IsRecordsPlan (option_copied open_head.entry) from.now command.now images.now next result }
{
    let number = bug_named(command);
    let Some(image) = find_image(images, number) else {
        return Err(PlanFault::Refused(Refusal::NoBug(number)));
    };
    if let Some(refusal) = records_refusal(alloc, command, open_head, images, image)? {
        return Err(PlanFault::Refused(refusal));
    }
    change_records(alloc, command, from, image, images, next)
}

// What a command does, by its kind.
fn plan_command(
    alloc: Global,
    command: &Command<u64>,
    from: &str,
    images: &[SetImage],
    next: u64,
    open_head: Option<&Node>,
) -> Result<Change, PlanFault>
    requires sender { IsText from.now }
    requires parts { HasGoodParts command.now }
    requires apart { AreApart images.now }
    ensures leaves { (i : SetImage) → image_with images.now (bug_named command.now) ≡ Some i
        → leaves_members command.now i.shared ≡ true → IfOk result (λ change. BeginAlike (i ∷ []) change.images) }
    ensures plan { IsPlanned (bugs_named command.now) (step_with (option_copied open_head.entry) from.now command.now) images.now
        next result }
{
    match command {
        Command::Merge(number, others) => {
            let all = Agreement::FourFields;
            plan_merge(alloc, all, *number, others.as_slice(), images, next)
        }
        Command::ForceMerge(number, others) => {
            let package = Agreement::PackageAlone;
            plan_merge(alloc, package, *number, others.as_slice(), images, next)
        }
        Command::Unmerge(number) => plan_unmerge(alloc, *number, images, next),
        Command::Clone(number, names) => {
            plan_clone(alloc, *number, names.as_slice(), images, next)
        }
        _ => plan_records(alloc, command, from, images, next, open_head),
    }
}

/// The change that a command makes on a desk (the BTS page 'control and manipulation').
/// The images show the desk's sets of merged bugs that have a bug which the command names; more
/// sets may be among them.
/// `from` is the sender, and `next` the desk's next number.
/// `open_head` is asked for by `archive` alone: the first head of the bug's package, in node order,
/// at which the bug is still found, if there is one.
/// The command's versions, package names and texts are within their limits.
///
/// The change's images are those handed in that have a member, with what the command does to them:
/// put on the desk they leave the desk of the command's step.
/// Where `leaves_members` holds, its first image has the members of that of the bug named first.
///
/// # Errors
///
/// `Refused(NoBug(n))` where the command names a bug n that is in no image: n may be any number.
/// `Refused(Archived(n))` where a bug that it names is archived, unless it stands after the `by` of
/// `block` or `unblock`, or the command is `unarchive`.
/// The bugs are tested from the left, and the first that is refused decides.
/// Then `Refused(NotArchived(n))` where a bug is to be taken out of the archive and is not in it;
/// `Refused(Differ(field, n))` where the bug n is to be merged and differs from the first one in a
/// field that has to be equal; `Refused(NotMerged(n))` where a bug is to be taken out of its set
/// and is merged with no other; `Refused(Merged(n))` where a bug is to be copied and is merged with
/// another; `Refused(OwnSet(n))` where the bug n is to block a bug of its own set;
/// `Refused(NotDone(n))` where a bug is to be archived and is open, and else
/// `Refused(StillFound(node))` where there is an open head; and `Refused(Full)` where fewer numbers
/// are left than a `clone` has names, the last number being 999,999,999.
/// Whether those names may be given is not looked at.
/// There is no other refusal: where the command has a version for an image whose package is no
/// package name, as no desk shows one, it is `Refused(NoBug(n))` of the bug named.
/// `Memory` where there was none.
pub fn plan(
    alloc: Global,
    command: &Command<u64>,
    from: &str,
    images: &[SetImage],
    next: u64,
    open_head: Option<&Node>,
) -> Result<Change, PlanFault>
    requires sender { IsText from.now }
    requires parts { HasGoodParts command.now }
    requires apart { AreApart images.now }
    ensures right { (d : Desk) → IsShownBy d images.now next (bugs_named command.now)
        → IsOpenHeadFor d command.now (option_copied open_head.entry) → IsPlanFor d from.now command.now result }
    ensures fits { (d : Desk) → IsShownBy d images.now next (bugs_named command.now) → IfOk result (λ change. FitsDesk d change) }
    ensures refusals { (d : Desk) → d.next ≡ next → AllKnown d images.now (bugs_named command.now) → Each HasName images.now
        → IsOpenHeadFor d command.now (option_copied open_head.entry)
        → IsRefusedAs (step_of_numbers d from.now command.now) result }
    ensures own { IfErr result IsFaultOfPlan }
    ensures apart { (d : Desk) → IsSound d → d.next ≡ next → AreSetsOf d images.now
        → IfOk result (λ change. AreApart change.images) }
    ensures members { IfOk result (λ change. Each HasMember change.images) }
    ensures covers { IfOk result (λ change. CoverImages images.now change.images) }
    ensures brings { (d : Desk) → IsShownBy d images.now next (bugs_named command.now)
        → IfOk result (λ change. BringNone d images.now change.images) }
    ensures later { IfOk result (λ change. next ≤ change.next) }
    ensures leaves { (i : SetImage) → image_with images.now (bug_named command.now) ≡ Some i
        → leaves_members command.now i.shared ≡ true → IfOk result (λ change. BeginAlike (i ∷ []) change.images) }
{
    plan_command(alloc, command, from, images, next, open_head)
}
