//! The commands `merge` and `forcemerge`.

ghost use Rattle.base_words.specs.Words.{words};
ghost use Rattle.control_grammar.specs.Commands.{bug_and_others, command_of};
ghost use Rattle.control_parser.specs.Reads.{Reads};
ghost use Rattle.control_grammar.specs.declared.command_word.CommandWord.TheVariants.{Merge, ForceMerge};

use crate::bugs::some_bugs;
use crate::fault::LineFault;
use crate::shapes::{MALFORMED, read_bug};
use base_words::{Named, Separators, split_word};
use bug_record::{Command, Sequence};
use std::alloc::Global;

// `n m ..`: two bugs or more.
fn bug_and_others(alloc: Global, arguments: &str) -> Result<(Named, Sequence<Named>), LineFault>
    ensures { Reads (bug_and_others (words arguments.now)) result }
{
    let (first, rest) = split_word(arguments).ok_or(MALFORMED)?;
    let bug = read_bug(first)?;
    let others = some_bugs(alloc, Separators::Blanks, rest)?;
    Ok((bug, others))
}

/// The command that the text after the word `merge` gives: `merge n m ..`.
pub(crate) fn read_merge(alloc: Global, arguments: &str) -> Result<Command<Named>, LineFault>
    ensures { Reads (command_of Merge arguments.now) result }
{
    let (bug, others) = bug_and_others(alloc, arguments)?;
    Ok(Command::Merge(bug, others))
}

/// The command that the text after the word `forcemerge` gives: `forcemerge n m ..`.
pub(crate) fn read_force_merge(alloc: Global, arguments: &str) -> Result<Command<Named>, LineFault>
    ensures { Reads (command_of ForceMerge arguments.now) result }
{
    let (bug, others) = bug_and_others(alloc, arguments)?;
    Ok(Command::ForceMerge(bug, others))
}
