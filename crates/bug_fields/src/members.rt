//! What a command makes of the titles and submitters of a set's bugs.

ghost use Rattle.std.specs.Prelude.{◌≡◌, ℕ, List, false, map, unwrap_or, IfOk};
ghost use Rattle.std.specs.Option.{option_copied};
ghost use Rattle.bug_record.specs.Steps.{new_title, new_submitter};
ghost use Rattle.bug_fields.specs.Members.{member_after, changes_members, leaves_members};

use crate::fields::person;
use bug_record::{Command, Member, Members, Sequence, Shared};
use debver::Text;
use std::alloc::{AllocError, Global};

// The new title of a bug of the set, where a command gives it one: it names that bug.
fn new_title<'a>(command: &'a Command<u64>, number: u64) -> Option<&'a str>
    ensures { option_copied result ≡ new_title command.now number }
{
    match command {
        Command::Retitle(named, text) if number == *named => Some(text.as_str()),
        _ => None,
    }
}

// The new submitter of a bug of the set, where a command gives it one: it names that bug, or
// reopens the set by somebody.
fn new_submitter<'a>(
    command: &'a Command<u64>,
    from: &'a str,
    old: &Shared,
    number: u64,
) -> Option<&'a str>
    ensures { option_copied result ≡ new_submitter from.now command.now old.now number }
{
    match command {
        Command::Submitter(named, who) if number == *named => Some(person(from, who)),
        Command::Reopen(_, Some(who)) if old.closed => Some(person(from, who)),
        _ => None,
    }
}

// A copy of the given text, if there is one, or of the other.
fn text_or(alloc: Global, given: Option<&str>, text: &Text) -> Result<Text, AllocError>
    ensures { IfOk result (λ t. t ≡ unwrap_or (option_copied given.entry) text.now) }
{
    match given {
        Some(given) => Text::of(alloc, given),
        None => text.copy(),
    }
}

// The member after a command of this sender.
fn member_after(
    alloc: Global,
    command: &Command<u64>,
    from: &str,
    old: &Shared,
    member: &Member,
) -> Result<Member, AllocError>
    ensures { IfOk result (λ m. m ≡ member_after from.now command.now old.now member.now) }
{
    let title = new_title(command, member.number);
    let submitter = new_submitter(command, from, old, member.number);
    Ok(Member {
        number: member.number,
        title: text_or(alloc, title, &member.title)?,
        submitter: text_or(alloc, submitter, &member.submitter)?,
    })
}

// Whether the command gives a title or a submitter to a bug of a set with these shared fields.
fn changes_members(command: &Command<u64>, old: &Shared) -> bool
    ensures { result ≡ changes_members command.now old.now }
{
    match command {
        Command::Retitle(_, _) | Command::Submitter(_, _) => true,
        Command::Reopen(_, Some(_)) => old.closed,
        _ => false,
    }
}

/// Whether a command changes records of the set of the bug that it names, whose shared fields these
/// are, and no title and no submitter of that set.
/// Takes no memory.
pub fn leaves_members(command: &Command<u64>, old: &Shared) -> bool
    ensures { result ≡ leaves_members command.now old.now }
{
    match command {
        Command::Merge(_, _)
        | Command::ForceMerge(_, _)
        | Command::Unmerge(_)
        | Command::Clone(_, _) => false,
        _ => !changes_members(command, old),
    }
}

// The members after a command of this sender, one by one.
fn members_after(
    alloc: Global,
    command: &Command<u64>,
    from: &str,
    old: &Shared,
    members: &[Member],
) -> Result<Sequence<Member>, AllocError>
    ensures { IfOk result (λ ms. ms ≡ map (member_after from.now command.now old.now) members.now) }
{
    let mut after = Sequence::new(alloc);
    for member in members {
        after.push(member_after(alloc, command, from, old, member)?)?;
    }
    Ok(after)
}

/// The members of a set of merged bugs after a command of the sender `from`, in the order of
/// `members`, where the set's shared fields before it are `old` (the BTS page 'control and
/// manipulation').
/// `retitle` and `submitter` change the bug that they name alone, if it is a member; `reopen` by
/// somebody changes the submitter of every member, where the set was closed.
/// No number changes.
/// Every other command hands a copy of the members on.
///
/// # Errors
///
/// Only where there was no memory.
pub fn members_with(
    alloc: Global,
    command: &Command<u64>,
    from: &str,
    old: &Shared,
    members: &Members,
) -> Result<Members, AllocError>
    ensures { IfOk result (λ ms. ms ≡ map (member_after from.now command.now old.now) members.now) }
{
    if !changes_members(command, old) {
        return members.copy();
    }
    let members = members.as_slice();
    Members::of(members_after(alloc, command, from, old, members)?)
}
