//! What is tested of bugs before a command of them is planned.

ghost use Rattle.std.specs.Prelude.{◌≡◌, option_map, Some, IfOk};
ghost use Rattle.std.specs.List.{find};
ghost use Rattle.std.specs.Option.{option_copied};
ghost use Rattle.bug_record.specs.Bugs.{first_of};
ghost use Rattle.bug_record.specs.Commands.{bug_named, other_bugs};
ghost use Rattle.bug_record.specs.Images.{numbers_of, bug_in, image_with};
ghost use Rattle.bug_record.specs.Sets.{has};
ghost use Rattle.bug_record.specs.Steps.{own_tests};
ghost use Rattle.bug_record.specs.Words.{archived_refusal, bug_refusal, first_bug_refusal, others_may_be_archived};
ghost use Rattle.bug_images.specs.Refusals.{records_refusal};

use crate::images::member_numbers;
use crate::index::Index;
use crate::named::{bug_named, first_may_be_archived, other_bugs, others_may_be_archived};
use bug_record::{Command, Refusal, SetImage, Shared};
use std::alloc::{AllocError, Global};
use std::collections::BTreeSet;
use version_nodes::Node;

/// The refusal of a bug that is archived and may not be.
pub fn archived_refusal(may_be: bool, number: u64, shared: &Shared) -> Option<Refusal>
    ensures { result ≡ archived_refusal may_be number shared.now }
{
    if shared.archived && !may_be {
        return Some(Refusal::Archived(number));
    }
    None
}

// The refusal of a bug that is not there, or is archived and may not be.
fn bug_refusal(index: &Index, may_be: bool, number: u64) -> Option<Refusal>
    ensures { result ≡ bug_refusal may_be (bug_in index.now number) number }
{
    match index.find_bug(number) {
        Some((image, _)) => archived_refusal(may_be, number, image.shared.fields()),
        None => Some(Refusal::NoBug(number)),
    }
}

/// The refusal of the first such bug.
pub fn first_refused(index: &Index, may_be: bool, numbers: &[u64]) -> Option<Refusal>
    ensures { result ≡ first_bug_refusal may_be (bug_in index.now) numbers.now }
{
    for number in numbers {
        if let Some(refusal) = bug_refusal(index, may_be, *number) {
            return Some(refusal);
        }
    }
    None
}

// The first refusal of the bugs that a command names besides.
fn others_refusal(
    alloc: Global,
    command: &Command<u64>,
    images: &[SetImage],
) -> Result<Option<Refusal>, AllocError>
    ensures { IfOk result (λ refusal. refusal
        ≡ first_bug_refusal (others_may_be_archived command.now) (bug_in images.now) (other_bugs command.now)) }
{
    let others = other_bugs(command);
    if others.is_empty() {
        return Ok(None);
    }
    let index = Index::of(alloc, images)?;
    Ok(first_refused(&index, others_may_be_archived(command), others))
}

// Whether the number is in the set.
fn is_in(set: &BTreeSet<u64>, number: u64) -> bool
    ensures { result ≡ has set.now.keys number }
{
    set.contains(&number)
}

// The first of the numbers that is in the set.
fn first_in(set: &BTreeSet<u64>, numbers: &[u64]) -> Option<u64>
    ensures { result ≡ find (has set.now.keys) numbers.now }
{
    for blocker in numbers {
        if is_in(set, *blocker) {
            return Some(*blocker);
        }
    }
    None
}

// The refusal of the first of these bugs that is in the set: no bug waits on its own set.
fn own_set_refusal(
    alloc: Global,
    image: &SetImage,
    numbers: &[u64],
) -> Result<Option<Refusal>, AllocError>
    ensures { IfOk result
        (λ refusal. refusal ≡ option_map Refusal.OwnSet (find (has (numbers_of image.now.members)) numbers.now)) }
{
    let own = member_numbers(alloc, image.members.as_slice())?;
    match first_in(&own, numbers) {
        Some(number) => Ok(Some(Refusal::OwnSet(number))),
        None => Ok(None),
    }
}

// Why a bug can't be archived: it is open, or still found at its open head.
fn archive_refusal(
    number: u64,
    open_head: Option<&Node>,
    image: &SetImage,
) -> Result<Option<Refusal>, AllocError>
    ensures { IfOk result
        (λ refusal. refusal ≡ first_of (own_tests (Command.Archive number) (option_copied open_head.entry) (numbers_of image.now.members) image.now.shared)) }
{
    if !image.shared.fields().closed {
        return Ok(Some(Refusal::NotDone(number)));
    }
    match open_head {
        Some(node) => Ok(Some(Refusal::StillFound(node.copy()?))),
        None => Ok(None),
    }
}

// The first refusal of a command's own tests.
fn own_refusal(
    alloc: Global,
    command: &Command<u64>,
    open_head: Option<&Node>,
    image: &SetImage,
) -> Result<Option<Refusal>, AllocError>
    ensures { IfOk result (λ refusal. refusal ≡ first_of
        (own_tests command.now (option_copied open_head.entry) (numbers_of image.now.members) image.now.shared)) }
{
    match command {
        Command::Block(_, numbers) => own_set_refusal(alloc, image, numbers.as_slice()),
        Command::Archive(number) => archive_refusal(*number, open_head, image),
        Command::Unarchive(number) if !image.shared.fields().archived => {
            Ok(Some(Refusal::NotArchived(*number)))
        }
        _ => Ok(None),
    }
}

/// The refusal of a command that changes records, of whose bug this is the image.
pub fn records_refusal(
    alloc: Global,
    command: &Command<u64>,
    open_head: Option<&Node>,
    images: &[SetImage],
    image: &SetImage,
) -> Result<Option<Refusal>, AllocError>
    requires named { image_with images.now (bug_named command.now) ≡ Some image.now }
    ensures { IfOk result
        (λ refusal. refusal ≡ records_refusal command.now (option_copied open_head.entry) images.now image.now) }
{
    let number = bug_named(command);
    if let Some(refusal) = archived_refusal(
        first_may_be_archived(command),
        number,
        image.shared.fields(),
    ) {
        return Ok(Some(refusal));
    }
    if let Some(refusal) = others_refusal(alloc, command, images)? {
        return Ok(Some(refusal));
    }
    own_refusal(alloc, command, open_head, image)
}
