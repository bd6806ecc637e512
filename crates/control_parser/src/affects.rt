//! The command `affects`.

ghost use Rattle.std.specs.Prelude.{◌≡◌, [], not};
ghost use Rattle.base_words.specs.Words.{words_with_commas};
ghost use Rattle.control_grammar.specs.Commands.{read_package, each_word, with_rest, affects_step, are_given, affects_command};
ghost use Rattle.control_parser.specs.Reads.{Reads};
ghost use Rattle.control_parser.specs.Growing.{ReadsMore};

use crate::fault::LineFault;
use crate::shapes::{MALFORMED, read_bug, read_package};
use crate::signs::sign_and_rest;
use base_words::{Named, next_word, split_word_with_commas};
use bug_record::{AffectsStep, Command, Names, Sequence};
use control_grammar::Sign;
use std::alloc::Global;

// What is done by a sign, or without one, with packages that are given or not.
fn affects_step(sign: Option<Sign>, given: bool) -> Result<AffectsStep, LineFault>
    ensures { Reads (affects_step sign given) result }
{
    match sign {
        Some(Sign::Equals) => Ok(AffectsStep::Replace),
        Some(Sign::Plus) if given => Ok(AffectsStep::Add),
        Some(Sign::Minus) if given => Ok(AffectsStep::Remove),
        Some(Sign::Plus | Sign::Minus) => Err(MALFORMED),
        None if given => Ok(AffectsStep::Add),
        None => Ok(AffectsStep::Replace),
    }
}

// Whether the rest of a word or the text after it has a package.
fn are_given(rest: &str, text: &str) -> bool
    ensures { result ≡ are_given (with_rest rest.now (words_with_commas text.now)) }
{
    !rest.is_empty() || split_word_with_commas(text).is_some()
}

// The package that is the rest of a word, if it is one.
fn first_name(alloc: Global, rest: &str) -> Result<Names, LineFault>
    ensures { Reads (each_word read_package (with_rest rest.now [])) result }
{
    let mut names = Sequence::new(alloc);
    if rest.is_empty() {
        return Ok(names);
    }
    let name = read_package(alloc, rest)?;
    names.push(name)?;
    Ok(names)
}

// Puts the packages of a text behind others.
fn push_names(alloc: Global, names: &mut Names, text: &str) -> Result<(), LineFault>
    ensures { ReadsMore (each_word read_package (words_with_commas text.now)) names.old names.new result }
{
    let mut left = text;
    while let Some((word, more)) = split_word_with_commas(left) {
        let name = read_package(alloc, word)?;
        names.push(name)?;
        left = more;
    }
    Ok(())
}

// The packages of the rest of a word and of the text after it.
fn all_names(alloc: Global, rest: &str, text: &str) -> Result<Names, LineFault>
    ensures { Reads (each_word read_package (with_rest rest.now (words_with_commas text.now))) result }
{
    let mut names = first_name(alloc, rest)?;
    push_names(alloc, &mut names, text)?;
    Ok(names)
}

/// The command that the text after the word `affects` gives: `affects n [+|-|=] package ..`, a sign
/// and packages, between which commas may stand.
pub(crate) fn read_affects(alloc: Global, arguments: &str) -> Result<Command<Named>, LineFault>
    ensures { Reads (affects_command arguments.now) result }
{
    let (first, text) = next_word(arguments);
    let bug = read_bug(first)?;
    let Some((word, more)) = split_word_with_commas(text) else {
        return Ok(Command::Affects(bug, AffectsStep::Replace, Sequence::new(alloc)));
    };
    let (sign, rest) = sign_and_rest(word);
    let step = affects_step(sign, are_given(rest, more))?;
    let names = all_names(alloc, rest, more)?;
    Ok(Command::Affects(bug, step, names))
}
