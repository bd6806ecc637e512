//! The options, as `clap` reads them.

ghost use Rattle.std.specs.Prelude.{◌≡◌, [], IfOk, IfErr, map, codes};
ghost use Rattle.clap.specs.Words.{rows_of, found_of, matches_of, app_of, new_app, with_rule};
ghost use Rattle.clap.specs.Words.{kind_of};
ghost use Rattle.program_options.specs.Options.{option, without_name, options, refusals, given_in};
ghost use Rattle.program_options.specs.Told.{given_of, IsToldOf, IsToldOfKind};

use crate::help;
use crate::job::WordsError;
use clap::error::ErrorKind;
use clap::{Arg, ArgMatches, Command, Error};
use debver::Text;
use std::alloc::{AllocError, Global};

/// The values of the options, of those that are given.
#[derive(Drop)]
pub(crate) struct Values<'a> {
    pub store: Option<&'a str>,
    pub from: Option<&'a str>,
    pub id: Option<&'a str>,
    pub port: Option<&'a str>,
    pub count: Option<&'a str>,
    pub first: Option<&'a str>,
}

// A command with no option of its own.
fn no_options<'a>(alloc: Global) -> Command<'a>
    ensures { app_of result ≡ without_name (new_app (codes "bts")) }
{
    Command::new(alloc, "bts")
        .no_binary_name(true)
        .about(help::ABOUT)
        .override_usage(help::USAGE)
        .after_help(help::COMMANDS)
}

// One more option: its name, and what the help calls its value and says of it.
fn with_option<'a>(
    alloc: Global,
    command: Command<'a>,
    name: &'a str,
    value: &'a str,
    text: &'a str,
) -> Result<Command<'a>, AllocError>
    ensures { IfOk result (λ c.
        app_of c ≡ with_rule (app_of command.entry) (option name.entry.now)) }
{
    command.arg(
        Arg::new(alloc, name)
            .long(name)
            .value_name(value)
            .help(text),
    )
}

// The command of the options.
#[tactic(auto, unfolding(crate::specs::Options::options))]
fn option_command<'a>(alloc: Global) -> Result<Command<'a>, AllocError>
    ensures { IfOk result (λ c. app_of c ≡ options) }
{
    let command = no_options(alloc);
    let command = with_option(alloc, command, "store", "FILE", help::STORE)?;
    let command = with_option(alloc, command, "from", "TEXT", help::FROM)?;
    let command = with_option(alloc, command, "id", "TEXT", help::ID)?;
    let command = with_option(alloc, command, "port", "N", help::PORT)?;
    let command = with_option(alloc, command, "count", "N", help::COUNT)?;
    with_option(alloc, command, "first", "N", help::FIRST)
}

// The help, as `clap` writes it.
fn help_of(alloc: Global, error: &Error) -> Result<Text, AllocError> {
    let text = error.to_string(alloc)?;
    Text::of(alloc, text.as_str())
}

// What is told where `clap` gives this error.
fn told_of(alloc: Global, error: &Error) -> WordsError
    ensures { IsToldOfKind (kind_of error.now) result }
{
    match error.kind() {
        ErrorKind::OutOfMemory => WordsError::Memory,
        ErrorKind::DisplayHelp => match help_of(alloc, error) {
            Ok(text) => WordsError::Help(text),
            Err(_) => WordsError::Memory,
        },
        _ => WordsError::Bad,
    }
}

// Reads the words of the options by `clap`.
fn match_options<'a>(alloc: Global, words: &'a [&'a str]) -> Result<ArgMatches<'a>, WordsError>
    ensures taken { IfOk result (λ m. refusals (map (λ s. s.now) words.entry.now) ≡ []) }
    ensures rows { IfOk result (λ m.
        rows_of (found_of m) ≡ matches_of options (map (λ s. s.now) words.entry.now)) }
    ensures err { IfErr result (IsToldOf (refusals (map (λ s. s.now) words.entry.now))) }
{
    let command = option_command(alloc)?;
    match command.try_get_matches_from(words) {
        Ok(matches) => Ok(matches),
        Err(error) => Err(told_of(alloc, &error)),
    }
}

/// The values of the options that these words give.
///
/// # Errors
///
/// `Help` where they ask for help, `Bad` where `clap` refuses one otherwise, and `Memory`.
pub(crate) fn read_values<'a>(alloc: Global, words: &'a [&'a str]) -> Result<Values<'a>, WordsError>
    ensures taken { IfOk result (λ v. refusals (map (λ s. s.now) words.entry.now) ≡ []) }
    ensures values { IfOk result (λ v. given_of v ≡ given_in (map (λ s. s.now) words.entry.now)) }
    ensures err { IfErr result (IsToldOf (refusals (map (λ s. s.now) words.entry.now))) }
{
    let matches = match_options(alloc, words)?;
    Ok(Values {
        store: matches.get_str("store"),
        from: matches.get_str("from"),
        id: matches.get_str("id"),
        port: matches.get_str("port"),
        count: matches.get_str("count"),
        first: matches.get_str("first"),
    })
}
