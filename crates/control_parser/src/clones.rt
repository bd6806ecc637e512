//! The command `clone`.

ghost use Rattle.base_words.specs.Words.{words};
ghost use Rattle.control_grammar.specs.Commands.{read_name, each_word, some_names, bug_and_names, command_of};
ghost use Rattle.control_parser.specs.Reads.{Reads};
ghost use Rattle.control_grammar.specs.declared.command_word.CommandWord.TheVariants.{Clone};

use crate::fault::LineFault;
use crate::shapes::{MALFORMED, read_bug};
use base_words::{Named, name_word, split_word};
use bug_record::{Command, Sequence};
use std::alloc::Global;

// The name that a word gives.
fn read_name(word: &str) -> Result<u32, LineFault>
    ensures { Reads (read_name word.now) result }
{
    name_word(word).ok_or(MALFORMED)
}

// The name of each word.
fn all_names(alloc: Global, text: &str) -> Result<Sequence<u32>, LineFault>
    ensures { Reads (each_word read_name (words text.now)) result }
{
    let mut names = Sequence::new(alloc);
    let mut rest = text;
    while let Some((word, more)) = split_word(rest) {
        let name = read_name(word)?;
        names.push(name)?;
        rest = more;
    }
    Ok(names)
}

// `-1 ..`: one name or more.
fn some_names(alloc: Global, text: &str) -> Result<Sequence<u32>, LineFault>
    ensures { Reads (some_names (words text.now)) result }
{
    if split_word(text).is_none() {
        return Err(MALFORMED);
    }
    all_names(alloc, text)
}

// `n -1 ..`: a bug, and one name or more.
fn bug_and_names(alloc: Global, arguments: &str) -> Result<(Named, Sequence<u32>), LineFault>
    ensures { Reads (bug_and_names (words arguments.now)) result }
{
    let (first, rest) = split_word(arguments).ok_or(MALFORMED)?;
    let bug = read_bug(first)?;
    let names = some_names(alloc, rest)?;
    Ok((bug, names))
}

/// The command that the text after the word `clone` gives: `clone n -1 ..`.
pub(crate) fn read_clone(alloc: Global, arguments: &str) -> Result<Command<Named>, LineFault>
    ensures { Reads (command_of Clone arguments.now) result }
{
    let (bug, names) = bug_and_names(alloc, arguments)?;
    Ok(Command::Clone(bug, names))
}
