//! The bugs that a command names.

ghost use Rattle.std.specs.Prelude.{◌≡◌};
ghost use Rattle.bug_record.specs.Commands.{bug_named, other_bugs};
ghost use Rattle.bug_record.specs.Words.{first_may_be_archived, others_may_be_archived};

use bug_record::Command;

/// The bug that a command names first.
pub fn bug_named(command: &Command<u64>) -> u64
    ensures { result ≡ bug_named command.now }
{
    match command {
        Command::Found(number, _)
        | Command::NotFound(number, _)
        | Command::Fixed(number, _)
        | Command::NotFixed(number, _)
        | Command::Close(number, _)
        | Command::Reopen(number, _)
        | Command::Severity(number, _)
        | Command::Tags(number, _)
        | Command::Retitle(number, _)
        | Command::Submitter(number, _)
        | Command::Reassign(number, _, _)
        | Command::Merge(number, _)
        | Command::ForceMerge(number, _)
        | Command::Unmerge(number)
        | Command::Clone(number, _)
        | Command::Block(number, _)
        | Command::Unblock(number, _)
        | Command::Forwarded(number, _)
        | Command::NotForwarded(number)
        | Command::Owner(number, _)
        | Command::NoOwner(number)
        | Command::Archive(number)
        | Command::Unarchive(number)
        | Command::Affects(number, _, _) => *number,
    }
}

/// The bugs that a command names besides, in the order written: those that `merge` and `forcemerge`
/// merge with the first one, and the blockers of `block` and `unblock`.
/// Every other command names none.
pub fn other_bugs(command: &Command<u64>) -> &[u64]
    ensures { result.now ≡ other_bugs command.now }
{
    match command {
        Command::Merge(_, numbers)
        | Command::ForceMerge(_, numbers)
        | Command::Block(_, numbers)
        | Command::Unblock(_, numbers) => numbers.as_slice(),
        _ => &[],
    }
}

/// Whether the bug that a command names first may be archived: that of `unarchive` alone.
pub(crate) fn first_may_be_archived(command: &Command<u64>) -> bool
    ensures { result ≡ first_may_be_archived command.now }
{
    match command {
        Command::Unarchive(_) => true,
        _ => false,
    }
}

/// Whether the bugs that it names after the first may be archived: those of `block` and `unblock`
/// alone.
pub(crate) fn others_may_be_archived(command: &Command<u64>) -> bool
    ensures { result ≡ others_may_be_archived command.now }
{
    match command {
        Command::Block(_, _) | Command::Unblock(_, _) => true,
        _ => false,
    }
}
