//! A line of a control message.

ghost use Rattle.std.specs.Prelude.{◌≡◌, ◌∷◌, IfOk, IfErr};
ghost use Rattle.base_words.specs.Words.{words};
ghost use Rattle.control_parser.specs.Reads.{Reads};
ghost use Rattle.control_grammar.specs.Lines.{begins_hash, is_stop_word, is_stop_line, reading, BeginsWithCommand};
ghost use Rattle.control_grammar.specs.WellFormed.{IsWellFormedLine};

use crate::commands::read_command;
use crate::fault::LineFault;
use base_words::{has_control, is_word, next_word, split_word};
use bug_record::Refusal;
use control_grammar::{CommandWord, Line};
use std::alloc::Global;

fn begins_hash(word: &str) -> bool
    ensures { result ≡ begins_hash word.now }
{
    word.starts_with('#')
}

fn is_stop_word(word: &str) -> bool
    ensures { result ≡ is_stop_word word.now }
{
    is_word(word, "quit")
        || is_word(word, "stop")
        || is_word(word, "thank")
        || is_word(word, "thanks")
        || is_word(word, "thankyou")
        || is_word(word, "--")
}

// Whether the first word and the text after it are a stop.
fn is_stop_line(word: &str, rest: &str) -> bool
    ensures { result ≡ is_stop_line (word.now ∷ words rest.now) }
{
    // The first word of most lines tells at once that they are none.
    if !is_stop_word(word) {
        return false;
    }
    let Some((second, rest)) = split_word(rest) else {
        return true;
    };
    if split_word(rest).is_some() {
        return false;
    }
    is_word(word, "thank") && is_word(second, "you")
}

/// What a line of a control message says, or why it is refused (the BTS page 'control and
/// manipulation').
/// The line is given without its end.
///
/// # Errors
///
/// `Refused` with the refusal that the line has, of those that need no desk: `Unknown`,
/// `Malformed`, `TooLong`, `BadSeverity`, `BadTag`, `BadVersion`, `BadPackage`.
/// `Memory` where there was none, which a line asks for only where its first word is a command.
#[tactic(auto, unfolding(control_grammar::specs::Lines::reading))]
pub fn read_line(alloc: Global, text: &str) -> Result<Line, LineFault>
    ensures exact { Reads (reading text.now) result }
    ensures well_formed { IfOk result IsWellFormedLine }
    ensures memory { IfErr result (λ fault. fault ≡ LineFault.Memory → BeginsWithCommand text.now) }
{
    let (word, rest) = next_word(text);
    if word.is_empty() {
        return Ok(Line::Blank);
    }
    if begins_hash(word) {
        return Ok(Line::Comment);
    }
    if is_stop_line(word, rest) {
        return Ok(Line::Stop);
    }
    let Some(command) = CommandWord::read(word) else {
        return Err(LineFault::Refused(Refusal::Unknown));
    };
    if has_control(text) {
        return Err(LineFault::Refused(Refusal::Malformed));
    }
    Ok(Line::Do(read_command(alloc, command, rest)?))
}
