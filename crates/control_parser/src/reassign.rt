//! The command `reassign`.

ghost use Rattle.base_words.specs.Words.{words};
ghost use Rattle.control_grammar.specs.Commands.{reassign_command};
ghost use Rattle.control_parser.specs.Reads.{Reads};

use crate::fault::LineFault;
use crate::few_words::{three_words, two_words};
use crate::shapes::{MALFORMED, read_bug, read_package, read_version};
use base_words::Named;
use bug_record::Command;
use std::alloc::Global;

/// The command that the text after the word `reassign` gives: `reassign n package [v]`.
#[tactic(auto, using(crate::proofs::ShapeLemmas::no_package))]
pub(crate) fn read_reassign(alloc: Global, arguments: &str) -> Result<Command<Named>, LineFault>
    ensures { Reads (reassign_command (words arguments.now)) result }
{
    if let Some((first, second)) = two_words(arguments) {
        let bug = read_bug(first)?;
        let package = read_package(alloc, second)?;
        return Ok(Command::Reassign(bug, package, None));
    }
    let (first, second, third) = three_words(arguments).ok_or(MALFORMED)?;
    let bug = read_bug(first)?;
    let package = read_package(alloc, second)?;
    let version = read_version(alloc, third)?;
    Ok(Command::Reassign(bug, package, Some(version)))
}
