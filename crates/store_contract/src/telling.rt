//! A command as it is told, by numbers alone.

ghost use Rattle.std.specs.Prelude.{◌≡◌, ℕ, List, map, IfOk};
ghost use Rattle.base_words.specs.Bugs.{IsGoodBug};
ghost use Rattle.bug_record.specs.Commands.{HasGoodParts, bugs_named, names_in};
ghost use Rattle.bug_record.specs.Desk.{Desk, IsSound};
ghost use Rattle.bug_record.specs.Sets.{Each};
ghost use Rattle.bug_record.specs.Steps.{step};
ghost use Rattle.store_contract.specs.Known.{AreOfBugs};
ghost use Rattle.store_contract.specs.Telling.{number_told, command_told, result_meant, step_among};

use crate::known::KnownNames;
use base_words::{AFTER_LARGEST, Named};
use bug_record::{Command, Sequence};
use std::alloc::{AllocError, Global};

// The number that a bug word is told as.
fn number_told(known: &KnownNames, bug: Named) -> u64
    ensures { result ≡ number_told known.now.names bug }
{
    match bug {
        Named::Number(number) => number,
        Named::Name(name) => match known.number_of(name) {
            Some(number) => number,
            None => AFTER_LARGEST + u64::from(name),
        },
    }
}

// The numbers that bug words are told as.
fn numbers_told(
    alloc: Global,
    known: &KnownNames,
    bugs: Sequence<Named>,
) -> Result<Sequence<u64>, AllocError>
    ensures { IfOk result (λ numbers. numbers ≡ map (number_told known.now.names) bugs) }
{
    let mut numbers = Sequence::new(alloc);
    let words = bugs.as_slice();
    for bug in words {
        numbers.push(number_told(known, *bug))?;
    }
    Ok(numbers)
}

// The command over the numbers that its bug words are told as.
fn numbered(
    alloc: Global,
    known: &KnownNames,
    command: Command<Named>,
) -> Result<Command<u64>, AllocError>
    ensures { IfOk result (λ told. told ≡ command_told known.now.names command) }
{
    Ok(match command {
        Command::Found(bug, version) => Command::Found(number_told(known, bug), version),
        Command::NotFound(bug, version) => Command::NotFound(number_told(known, bug), version),
        Command::Fixed(bug, version) => Command::Fixed(number_told(known, bug), version),
        Command::NotFixed(bug, version) => Command::NotFixed(number_told(known, bug), version),
        Command::Close(bug, version) => Command::Close(number_told(known, bug), version),
        Command::Reopen(bug, who) => Command::Reopen(number_told(known, bug), who),
        Command::Severity(bug, severity) => Command::Severity(number_told(known, bug), severity),
        Command::Tags(bug, steps) => Command::Tags(number_told(known, bug), steps),
        Command::Retitle(bug, title) => Command::Retitle(number_told(known, bug), title),
        Command::Submitter(bug, who) => Command::Submitter(number_told(known, bug), who),
        Command::Reassign(bug, package, version) => {
            Command::Reassign(number_told(known, bug), package, version)
        }
        Command::Merge(bug, bugs) => Command::Merge(
            number_told(known, bug),
            numbers_told(alloc, known, bugs)?,
        ),
        Command::ForceMerge(bug, bugs) => Command::ForceMerge(
            number_told(known, bug),
            numbers_told(alloc, known, bugs)?,
        ),
        Command::Unmerge(bug) => Command::Unmerge(number_told(known, bug)),
        Command::Clone(bug, names) => Command::Clone(number_told(known, bug), names),
        Command::Block(bug, bugs) => Command::Block(
            number_told(known, bug),
            numbers_told(alloc, known, bugs)?,
        ),
        Command::Unblock(bug, bugs) => Command::Unblock(
            number_told(known, bug),
            numbers_told(alloc, known, bugs)?,
        ),
        Command::Forwarded(bug, address) => Command::Forwarded(number_told(known, bug), address),
        Command::NotForwarded(bug) => Command::NotForwarded(number_told(known, bug)),
        Command::Owner(bug, who) => Command::Owner(number_told(known, bug), who),
        Command::NoOwner(bug) => Command::NoOwner(number_told(known, bug)),
        Command::Archive(bug) => Command::Archive(number_told(known, bug)),
        Command::Unarchive(bug) => Command::Unarchive(number_told(known, bug)),
        Command::Affects(bug, step, names) => {
            Command::Affects(number_told(known, bug), step, names)
        }
    })
}

/// The command as it is told where these names are known: each name stands for its number, and one
/// that is not known for 1,000,000,000 + k, which is above the number of any bug.
/// The names that it gives are handed on.
pub fn command_told(
    alloc: Global,
    known: &KnownNames,
    command: Command<Named>,
) -> Result<Command<u64>, AllocError>
    ensures told { IfOk result (λ told. told ≡ command_told known.now.names command) }
    ensures meant { IfOk result (λ told. AreOfBugs known.now.names → Each IsGoodBug (bugs_named command)
        → (d : Desk) (sender : List ℕ) → IsSound d
        → result_meant (step_among known.now.names d sender told) ≡ step known.now.names d sender command) }
    ensures parts { IfOk result (λ told. HasGoodParts command → HasGoodParts told) }
    ensures names { IfOk result (λ told. names_in told ≡ names_in command) }
{
    numbered(alloc, known, command)
}

/// The names that a command gives, in the order written.
pub fn names_in(command: &Command<u64>) -> &[u32]
    ensures { result.now ≡ names_in command.now }
{
    match command {
        Command::Clone(_, names) => names.as_slice(),
        _ => &[],
    }
}
