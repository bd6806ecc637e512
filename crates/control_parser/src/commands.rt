//! How each command's line is read.

ghost use Rattle.std.specs.Prelude.{◌≡◌};
ghost use Rattle.control_grammar.specs.Commands.{command_of};
ghost use Rattle.control_parser.specs.Reads.{Reads};

use crate::affects::read_affects;
use crate::blocks::{read_block, read_unblock};
use crate::clones::read_clone;
use crate::fault::LineFault;
use crate::merges::{read_force_merge, read_merge};
use crate::reassign::read_reassign;
use crate::severity::read_severity;
use crate::shapes::{bug_alone, bug_and_optional_version, bug_and_version};
use crate::tags::read_tags;
use crate::texts::{read_forwarded, read_owner, read_reopen, read_retitle, read_submitter};
use base_words::Named;
use bug_record::Command;
use control_grammar::CommandWord;
use std::alloc::Global;

/// The command that its word and the text after it give.
///
/// # Errors
///
/// `Refused` with the refusal that they have, of those that need no desk: `Malformed`, `TooLong`,
/// `BadSeverity`, `BadTag`, `BadVersion`, `BadPackage`.
/// `Memory` where there was none.
pub fn read_command(
    alloc: Global,
    word: CommandWord,
    arguments: &str,
) -> Result<Command<Named>, LineFault>
    ensures { Reads (command_of word arguments.now) result }
{
    match word {
        CommandWord::Found => {
            let (bug, version) = bug_and_optional_version(alloc, arguments)?;
            Ok(Command::Found(bug, version))
        }
        CommandWord::NotFound => {
            let (bug, version) = bug_and_version(alloc, arguments)?;
            Ok(Command::NotFound(bug, version))
        }
        CommandWord::Fixed => {
            let (bug, version) = bug_and_version(alloc, arguments)?;
            Ok(Command::Fixed(bug, version))
        }
        CommandWord::NotFixed => {
            let (bug, version) = bug_and_version(alloc, arguments)?;
            Ok(Command::NotFixed(bug, version))
        }
        CommandWord::Close => {
            let (bug, version) = bug_and_optional_version(alloc, arguments)?;
            Ok(Command::Close(bug, version))
        }
        CommandWord::Reopen => read_reopen(alloc, arguments),
        CommandWord::Severity => read_severity(arguments),
        CommandWord::Tags | CommandWord::Tag => read_tags(alloc, arguments),
        CommandWord::Retitle => read_retitle(alloc, arguments),
        CommandWord::Submitter => read_submitter(alloc, arguments),
        CommandWord::Reassign => read_reassign(alloc, arguments),
        CommandWord::Merge => read_merge(alloc, arguments),
        CommandWord::ForceMerge => read_force_merge(alloc, arguments),
        CommandWord::Unmerge => Ok(Command::Unmerge(bug_alone(arguments)?)),
        CommandWord::Clone => read_clone(alloc, arguments),
        CommandWord::Block => read_block(alloc, arguments),
        CommandWord::Unblock => read_unblock(alloc, arguments),
        CommandWord::Forwarded => read_forwarded(alloc, arguments),
        CommandWord::NotForwarded => Ok(Command::NotForwarded(bug_alone(arguments)?)),
        CommandWord::Owner => read_owner(alloc, arguments),
        CommandWord::NoOwner => Ok(Command::NoOwner(bug_alone(arguments)?)),
        CommandWord::Archive => Ok(Command::Archive(bug_alone(arguments)?)),
        CommandWord::Unarchive => Ok(Command::Unarchive(bug_alone(arguments)?)),
        CommandWord::Affects => read_affects(alloc, arguments),
    }
}
