//! The command `severity`.

ghost use Rattle.base_words.specs.Words.{words};
ghost use Rattle.control_grammar.specs.Commands.{severity_command};
ghost use Rattle.control_parser.specs.Reads.{Reads};

use crate::fault::LineFault;
use crate::few_words::two_words;
use crate::shapes::{MALFORMED, read_bug};
use base_words::Named;
use bug_record::{Command, Refusal, Severity};

/// The command that the text after the word `severity` gives: `severity n s`.
#[tactic(auto, using(crate::proofs::ShapeLemmas::no_severity))]
pub(crate) fn read_severity(arguments: &str) -> Result<Command<Named>, LineFault>
    ensures { Reads (severity_command (words arguments.now)) result }
{
    let (first, second) = two_words(arguments).ok_or(MALFORMED)?;
    let bug = read_bug(first)?;
    match Severity::read(second) {
        Some(severity) => Ok(Command::Severity(bug, severity)),
        None => Err(LineFault::Refused(Refusal::BadSeverity)),
    }
}
