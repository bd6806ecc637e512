//! The commands `block` and `unblock`.

ghost use Rattle.std.specs.Prelude.{◌≡◌};
ghost use Rattle.control_grammar.specs.Commands.{is_by, by_bugs, bug_by_bugs, command_of};
ghost use Rattle.control_parser.specs.Reads.{Reads};
ghost use Rattle.control_grammar.specs.declared.command_word.CommandWord.TheVariants.{Block, Unblock};

use crate::bugs::some_bugs;
use crate::fault::LineFault;
use crate::shapes::{MALFORMED, read_bug};
use base_words::{Named, Separators, is_word, next_word};
use bug_record::{Command, Sequence};
use std::alloc::Global;

// Whether the word may stand before blockers.
fn is_by(word: &str) -> bool
    ensures { result ≡ is_by word.now }
{
    is_word(word, "by") || is_word(word, "with")
}

// `by m ..`: one bug or more, between which commas may stand.
fn by_bugs(alloc: Global, text: &str) -> Result<Sequence<Named>, LineFault>
    ensures { Reads (by_bugs text.now) result }
{
    let (by, rest) = next_word(text);
    if !is_by(by) {
        return Err(MALFORMED);
    }
    some_bugs(alloc, Separators::BlanksAndCommas, rest)
}

// `n by m ..`: a bug, and the bugs after `by`.
fn bug_by_bugs(alloc: Global, arguments: &str) -> Result<(Named, Sequence<Named>), LineFault>
    ensures { Reads (bug_by_bugs arguments.now) result }
{
    let (first, rest) = next_word(arguments);
    let bug = read_bug(first)?;
    let others = by_bugs(alloc, rest)?;
    Ok((bug, others))
}

/// The command that the text after the word `block` gives: `block n by m ..`.
pub(crate) fn read_block(alloc: Global, arguments: &str) -> Result<Command<Named>, LineFault>
    ensures { Reads (command_of Block arguments.now) result }
{
    let (bug, others) = bug_by_bugs(alloc, arguments)?;
    Ok(Command::Block(bug, others))
}

/// The command that the text after the word `unblock` gives: `unblock n by m ..`.
pub(crate) fn read_unblock(alloc: Global, arguments: &str) -> Result<Command<Named>, LineFault>
    ensures { Reads (command_of Unblock arguments.now) result }
{
    let (bug, others) = bug_by_bugs(alloc, arguments)?;
    Ok(Command::Unblock(bug, others))
}
