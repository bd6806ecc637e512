//! The program, from its words to its exit status.

ghost use Rattle.std.specs.Prelude.{◌≡◌, IfOk, IfErr, MatchResult, map, drop};
ghost use Rattle.std.specs.String.{string_bytes};
ghost use Rattle.program_jobs.specs.Endings.{IsTold};
ghost use Rattle.program_jobs.specs.Jobs.{EndsUnopened};
ghost use Rattle.program_jobs.specs.Program.{IsDone, IsArgsEnd};
ghost use Rattle.program_jobs.specs.InFile.{wary};

use crate::ending::{Cause, Ending, JobEnd, end_with};
use crate::jobs::do_job_from;
use crate::left::LeftFiles;
use crate::making::give_text;
use program_options::{WordsError, read_words};
use sqlite::{FileFrom, Start, Wary};
use std::alloc::{AllocError, Global};
use std::io::{ErrorKind, Read, Write};

// Does what words ask, and answers how that ended, with what is left of the files of their store.
fn do_words_from<S: Start, R: Read, W: Write>(
    rt: &HostRuntime,
    alloc: Global,
    start: S,
    words: &[&str],
    reader: &mut R,
    writer: &mut W,
) -> (JobEnd, LeftFiles<FileFrom<S>>)
    ensures { IsDone S.Start (map (λ s. s.now) words.entry.now) (R.remaining reader.old) (W.contents writer.old)
        (W.contents writer.new) result.0 result.1 }
{
    match read_words(alloc, words) {
        Ok(job) => do_job_from(rt, alloc, start, &job, reader, writer),
        Err(WordsError::Help(text)) => (
            give_text(writer, text.as_str(), JobEnd::Done),
            LeftFiles::Nothing,
        ),
        Err(WordsError::Bad) => (JobEnd::BadWords, LeftFiles::Nothing),
        Err(WordsError::Memory) => (JobEnd::Fault(Cause::Memory), LeftFiles::Nothing),
    }
}

/// Does what words ask, over the input and the two outputs that are handed in; the program's own
/// name is not one of the words.
///
/// The words are read by `program_options::read_words`, and the job is carried out by
/// `do_job_from`, for files of which `start` says what they hold; what is left of them is handed
/// back, closed once it is dropped.
/// `--help` writes clap's text, which is a fault where it can't be written.
/// Of bad words, and of words for which there is no memory, nothing is written.
/// Then the complaint of the end, if it has one, is written to the error output: `bts: bad words`
/// or `bts: fault`, and a second line that says what to do, or why.
pub fn run_words_from<S: Start, R: Read, W: Write, E: Write>(
    rt: &HostRuntime,
    alloc: Global,
    start: S,
    words: &[&str],
    reader: &mut R,
    writer: &mut W,
    errors: &mut E,
) -> (Ending, LeftFiles<FileFrom<S>>)
    ensures done { IsDone S.Start (map (λ s. s.now) words.entry.now) (R.remaining reader.old) (W.contents writer.old)
        (W.contents writer.new) result.0.end result.1 }
    ensures told { IsTold result.0.end result.0.is_told (E.contents errors.old) (E.contents errors.new) }
{
    let (end, left) = do_words_from(rt, alloc, start, words, reader, writer);
    (end_with(errors, end), left)
}

/// Does what words ask, as `run_words_from` does at `Wary`.
pub fn run_words<R: Read, W: Write, E: Write>(
    rt: &HostRuntime,
    alloc: Global,
    words: &[&str],
    reader: &mut R,
    writer: &mut W,
    errors: &mut E,
) -> (Ending, LeftFiles<FileFrom<Wary>>)
    ensures done { IsDone wary (map (λ s. s.now) words.entry.now) (R.remaining reader.old) (W.contents writer.old)
        (W.contents writer.new) result.0.end result.1 }
    ensures told { IsTold result.0.end result.0.is_told (E.contents errors.old) (E.contents errors.new) }
{
    run_words_from(rt, alloc, Wary, words, reader, writer, errors)
}

// The texts of strings.
fn texts_of<'a>(alloc: Global, strings: &'a [String]) -> Result<Vec<&'a str>, AllocError>
    ensures { IfOk result (λ v. map (λ s. s.now) v.items ≡ map string_bytes strings.now) }
{
    let mut texts = Vec::new(alloc);
    for string in strings {
        texts.push(string.as_str())?;
    }
    Ok(texts)
}

// What stands after the first one, if there is one.
fn after_first(args: &[String]) -> &[String]
    ensures { result.now ≡ drop 1 args.now }
{
    match args {
        [_, rest @ ..] => rest,
        [] => args,
    }
}

/// Does what the arguments of a process ask, as `run_words_from` does; the first one, if there is
/// one, is the program's own name, and no word.
/// Where there is no memory for them, that is a fault.
pub fn run_args_from<S: Start, R: Read, W: Write, E: Write>(
    rt: &HostRuntime,
    alloc: Global,
    start: S,
    args: &[String],
    reader: &mut R,
    writer: &mut W,
    errors: &mut E,
) -> (Ending, LeftFiles<FileFrom<S>>)
    ensures done { IsDone S.Start (map string_bytes (drop 1 args.entry.now)) (R.remaining reader.old) (W.contents writer.old)
        (W.contents writer.new) result.0.end result.1 }
    ensures told { IsTold result.0.end result.0.is_told (E.contents errors.old) (E.contents errors.new) }
{
    match texts_of(alloc, after_first(args)) {
        Ok(words) => run_words_from(rt, alloc, start, &words, reader, writer, errors),
        Err(_) => (
            end_with(errors, JobEnd::Fault(Cause::Memory)),
            LeftFiles::Nothing,
        ),
    }
}

/// Does what the arguments of a process ask, as `run_args_from` does at `Wary`.
pub fn run_args<R: Read, W: Write, E: Write>(
    rt: &HostRuntime,
    alloc: Global,
    args: &[String],
    reader: &mut R,
    writer: &mut W,
    errors: &mut E,
) -> (Ending, LeftFiles<FileFrom<Wary>>)
    ensures done { IsDone wary (map string_bytes (drop 1 args.entry.now)) (R.remaining reader.old) (W.contents writer.old)
        (W.contents writer.new) result.0.end result.1 }
    ensures told { IsTold result.0.end result.0.is_told (E.contents errors.old) (E.contents errors.new) }
{
    run_args_from(rt, alloc, Wary, args, reader, writer, errors)
}

/// Reads the arguments of the process; the error is the end where they can't be read: bad words
/// where one is not UTF-8, or out of memory.
/// That these are the process's own is not told to a contract, since no clause of `std::env::args`
/// says it.
pub fn read_args(rt: &HostRuntime, alloc: Global) -> Result<Vec<String>, JobEnd>
    ensures { IfErr result IsArgsEnd }
{
    let args = match std::env::args(rt) {
        Ok(args) => args,
        Err(error) => match error.kind() {
            ErrorKind::InvalidData => return Err(JobEnd::BadWords),
            _ => return Err(JobEnd::Fault(Cause::Memory)),
        },
    };
    let mut kept = Vec::new(alloc);
    for arg in args {
        if kept.push(arg).is_err() {
            return Err(JobEnd::Fault(Cause::Memory));
        }
    }
    Ok(kept)
}

/// Does what the arguments of a process ask that `read_args` read, as `run_args_from` does; where
/// it could not read them, that is the end.
pub fn run_program_from<S: Start, R: Read, W: Write, E: Write>(
    rt: &HostRuntime,
    alloc: Global,
    start: S,
    args: Result<Vec<String>, JobEnd>,
    reader: &mut R,
    writer: &mut W,
    errors: &mut E,
) -> (Ending, LeftFiles<FileFrom<S>>)
    ensures done { MatchResult args
        (λ args. IsDone S.Start (map string_bytes (drop 1 args.items)) (R.remaining reader.old) (W.contents writer.old)
        (W.contents writer.new) result.0.end result.1)
        (λ end. EndsUnopened S.Start end (W.contents writer.old) (W.contents writer.new) result.0.end result.1) }
    ensures told { IsTold result.0.end result.0.is_told (E.contents errors.old) (E.contents errors.new) }
{
    match args {
        Ok(args) => run_args_from(rt, alloc, start, &args, reader, writer, errors),
        Err(end) => (end_with(errors, end), LeftFiles::Nothing),
    }
}

/// Does what the arguments of a process ask, as `run_program_from` does at `Wary`.
pub fn run_program<R: Read, W: Write, E: Write>(
    rt: &HostRuntime,
    alloc: Global,
    args: Result<Vec<String>, JobEnd>,
    reader: &mut R,
    writer: &mut W,
    errors: &mut E,
) -> (Ending, LeftFiles<FileFrom<Wary>>)
    ensures done { MatchResult args
        (λ args. IsDone wary (map string_bytes (drop 1 args.items)) (R.remaining reader.old) (W.contents writer.old)
        (W.contents writer.new) result.0.end result.1)
        (λ end. EndsUnopened wary end (W.contents writer.old) (W.contents writer.new) result.0.end result.1) }
    ensures told { IsTold result.0.end result.0.is_told (E.contents errors.old) (E.contents errors.new) }
{
    run_program_from(rt, alloc, Wary, args, reader, writer, errors)
}
