//! Texts, number words, and lines of messages.

ghost use Rattle.control_text.specs.WellFormed.{IsWellFormed, IsWellFormedLine};

use base_words::is_text;
use bug_record::Command;
use control_text::{Line, LineFault, Named, number_word, read_line, write_command};
use desk_text::{Outcome, outcome_text};
use std::alloc::{AllocError, Global};

/// Adds whether it is a text of 1 to 200 bytes.
pub(crate) fn add_is_text(out: &mut String, text: &str) -> Result<(), AllocError> {
    out.push_str(if is_text(text) { "yes" } else { "no" })
}

/// Adds the number of a number word.
pub(crate) fn add_number(out: &mut String, text: &str) -> Result<(), AllocError> {
    match number_word(text) {
        Some(number) => write!(out, "{number}"),
        None => out.push_str("none"),
    }
}

// Adds the answer of a transcript, which has an empty line for the one that is answered.
fn add_answer(out: &mut String, transcript: &[u8]) -> Result<(), AllocError> {
    let text = str::from_utf8(transcript).unwrap_or("");
    out.push_str(text.trim_start_matches("> \n").trim_end())
}

// Adds the answer of an outcome, as transcripts have it.
fn add_outcome(alloc: Global, out: &mut String, outcome: &Outcome) -> Result<(), AllocError> {
    let mut told = Vec::new(alloc);
    outcome_text(alloc, &mut told, "", outcome)?;
    add_answer(out, &told)
}

// Adds the answer to a line that is not read, unless there was no memory.
fn add_fault(alloc: Global, out: &mut String, fault: LineFault) -> Result<(), AllocError> {
    match fault {
        LineFault::Refused(refusal) => add_outcome(alloc, out, &Outcome::Refused(refusal)),
        LineFault::Memory => Err(AllocError),
    }
}

// Adds the canonical spelling of a command.
fn add_command(alloc: Global, out: &mut String, command: &Command<Named>) -> Result<(), AllocError>
    requires { IsWellFormed command.now }
{
    let spelling = write_command(alloc, command)?;
    out.push_str(spelling.as_str())
}

// Adds the canonical spelling of a line, or what the line is.
fn add_spelling(alloc: Global, out: &mut String, line: &Line) -> Result<(), AllocError>
    requires { IsWellFormedLine line.now }
{
    match line {
        Line::Blank => out.push_str("blank"),
        Line::Comment => out.push_str("comment"),
        Line::Stop => out.push_str("stop"),
        Line::Do(command) => add_command(alloc, out, command),
    }
}

/// Adds the canonical spelling of a line of a message, or what the line is, or the answer where it
/// is refused.
pub(crate) fn add_line(alloc: Global, out: &mut String, text: &str) -> Result<(), AllocError> {
    match read_line(alloc, text) {
        Ok(line) => add_spelling(alloc, out, &line),
        Err(fault) => add_fault(alloc, out, fault),
    }
}
