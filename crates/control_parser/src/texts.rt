//! Texts of commands: the rest of a line, without outer blanks.

ghost use Rattle.std.specs.Prelude.{◌≡◌, MatchOption, Ok, Err};
ghost use Rattle.bug_record.specs.declared.command.Refusal.TheVariants.{Malformed};
ghost use Rattle.control_grammar.specs.Commands.{limited_text, who_of_text, some_text, some_who, optional_who, bug_and_text};
ghost use Rattle.control_grammar.specs.Commands.{bug_and_some_text, bug_and_some_who, reopen_command, command_of};
ghost use Rattle.control_parser.specs.Reads.{Reads};
ghost use Rattle.control_grammar.specs.declared.command_word.CommandWord.TheVariants.{Retitle, Submitter, Forwarded, Owner};

use crate::fault::LineFault;
use crate::shapes::MALFORMED;
use base_words::{Named, bug_word, next_word, trim};
use bug_record::{Command, Refusal, Who};
use debver::Text;
use std::alloc::Global;

// A bug, and the text after its word, without outer blanks.
fn bug_and_rest(arguments: &str) -> Option<(Named, &str)>
    ensures { MatchOption result
        (bug_and_text arguments.now ≡ Err Malformed)
        (λ both. bug_and_text arguments.now ≡ Ok (both.0, both.1.now)) }
{
    let (first, rest) = next_word(arguments);
    Some((bug_word(first)?, trim(rest)))
}

// A text of its own, of 200 bytes at most.
fn limited_text(alloc: Global, text: &str) -> Result<Text, LineFault>
    ensures { Reads (limited_text text.now) result }
{
    if text.len() > 200 {
        return Err(LineFault::Refused(Refusal::TooLong));
    }
    Ok(Text::of(alloc, text)?)
}

// A text that has to be given.
fn some_text(alloc: Global, text: &str) -> Result<Text, LineFault>
    ensures { Reads (some_text text.now) result }
{
    if text.is_empty() {
        return Err(MALFORMED);
    }
    limited_text(alloc, text)
}

// Who a text is.
fn read_who(alloc: Global, text: &str) -> Result<Who, LineFault>
    ensures { Reads (who_of_text text.now) result }
{
    if text == "!" {
        return Ok(Who::Sender);
    }
    Ok(Who::Given(limited_text(alloc, text)?))
}

// Somebody, who has to be given.
fn some_who(alloc: Global, text: &str) -> Result<Who, LineFault>
    ensures { Reads (some_who text.now) result }
{
    if text.is_empty() {
        return Err(MALFORMED);
    }
    read_who(alloc, text)
}

// Who is to be the submitter, if somebody is.
fn optional_who(alloc: Global, text: &str) -> Result<Option<Who>, LineFault>
    ensures { Reads (optional_who text.now) result }
{
    if text.is_empty() || text == "=" {
        return Ok(None);
    }
    Ok(Some(read_who(alloc, text)?))
}

/// The command that the text after the word `reopen` gives: `reopen n [who or =]`.
pub(crate) fn read_reopen(alloc: Global, arguments: &str) -> Result<Command<Named>, LineFault>
    ensures { Reads (reopen_command arguments.now) result }
{
    let (bug, text) = bug_and_rest(arguments).ok_or(MALFORMED)?;
    let who = optional_who(alloc, text)?;
    Ok(Command::Reopen(bug, who))
}

// `n text`: a bug and a text.
fn bug_and_some_text(alloc: Global, arguments: &str) -> Result<(Named, Text), LineFault>
    ensures { Reads (bug_and_some_text arguments.now) result }
{
    let (bug, text) = bug_and_rest(arguments).ok_or(MALFORMED)?;
    let text = some_text(alloc, text)?;
    Ok((bug, text))
}

// `n who`: a bug and somebody.
fn bug_and_some_who(alloc: Global, arguments: &str) -> Result<(Named, Who), LineFault>
    ensures { Reads (bug_and_some_who arguments.now) result }
{
    let (bug, text) = bug_and_rest(arguments).ok_or(MALFORMED)?;
    let who = some_who(alloc, text)?;
    Ok((bug, who))
}

/// The command that the text after the word `retitle` gives: `retitle n text`.
pub(crate) fn read_retitle(alloc: Global, arguments: &str) -> Result<Command<Named>, LineFault>
    ensures { Reads (command_of Retitle arguments.now) result }
{
    let (bug, text) = bug_and_some_text(alloc, arguments)?;
    Ok(Command::Retitle(bug, text))
}

/// The command that the text after the word `forwarded` gives: `forwarded n text`.
pub(crate) fn read_forwarded(alloc: Global, arguments: &str) -> Result<Command<Named>, LineFault>
    ensures { Reads (command_of Forwarded arguments.now) result }
{
    let (bug, text) = bug_and_some_text(alloc, arguments)?;
    Ok(Command::Forwarded(bug, text))
}

/// The command that the text after the word `submitter` gives: `submitter n who`.
pub(crate) fn read_submitter(alloc: Global, arguments: &str) -> Result<Command<Named>, LineFault>
    ensures { Reads (command_of Submitter arguments.now) result }
{
    let (bug, who) = bug_and_some_who(alloc, arguments)?;
    Ok(Command::Submitter(bug, who))
}

/// The command that the text after the word `owner` gives: `owner n who`.
pub(crate) fn read_owner(alloc: Global, arguments: &str) -> Result<Command<Named>, LineFault>
    ensures { Reads (command_of Owner arguments.now) result }
{
    let (bug, who) = bug_and_some_who(alloc, arguments)?;
    Ok(Command::Owner(bug, who))
}
