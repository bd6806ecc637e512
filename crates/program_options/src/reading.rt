//! The job that words name.

ghost use Rattle.std.specs.Prelude.{◌≡◌, IfOk, IfErr, map};
ghost use Rattle.program_options.specs.Jobs.{IsJobOf, IsGoodJob, IsErrorOf};

use crate::command_jobs::job_of;
use crate::cut::{cut, has_lone_dash};
use crate::job::{Job, WordsError};
use crate::options::read_values;
use std::alloc::Global;

/// The job that the words of the program's command line name; the program's own name is not one of
/// them.
///
/// The leading words that begin with `-` are options, which `clap` reads: `--store=FILE`,
/// `--from=TEXT`, `--id=TEXT`, `--port=N`, `--count=N`, `--first=N`, and `--help` or `-h`.
/// The other words are the command.
/// `run`, `init` and `serve` are meant where it is that one word, in lower case; no word means
/// `run`, and any other words are the lines of a message, in the manner of bts(1).
///
/// `run` has the option `--store`; `init` has `--store`, which is required, and `--first`, which is
/// 1 where it is not given; `serve` has `--port`, which is required, `--store` and `--count`, which
/// is 1,000,000 where it is not given; a message has `--store` and `--from`, both required, and
/// `--id`.
/// Numbers are ASCII digits: 1 to 65,535 for a port, 1 to 1,000,000 for a count, 1 to 999,999,999
/// for a first bug.
/// A sender is a text of 1 to 200 bytes, and an id 1 to 100 visible ASCII characters.
///
/// # Errors
///
/// `Help` where `clap` is asked for help; `Bad` where an option is a lone `-`, where `clap` refuses
/// one otherwise, or where the words name no job; `Memory`.
pub fn read_words<'a>(alloc: Global, words: &'a [&'a str]) -> Result<Job, WordsError>
    ensures ok { IfOk result (IsJobOf (map (λ s. s.now) words.entry.now)) }
    ensures good { IfOk result IsGoodJob }
    ensures err { IfErr result (IsErrorOf (map (λ s. s.now) words.entry.now)) }
{
    let (options, command) = cut(words);
    if has_lone_dash(options) {
        return Err(WordsError::Bad);
    }
    let values = read_values(alloc, options)?;
    match job_of(alloc, &values, command)? {
        Some(job) => Ok(job),
        None => Err(WordsError::Bad),
    }
}
