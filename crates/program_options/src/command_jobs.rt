//! The jobs of the commands, out of the values of the options.

ghost use Rattle.std.specs.Prelude.{◌≡◌, IfOk, map};
ghost use Rattle.std.specs.Option.{option_copied};
ghost use Rattle.program_options.specs.Told.{given_of};
ghost use Rattle.program_options.specs.Jobs.{run_job, init_job, serve_job, send_job, job_of_word, job_of};
ghost use Rattle.program_options.specs.Jobs.{first_in, port_in, count_in, sender_in, id_in};

use crate::job::Job;
use crate::message::message_lines;
use crate::numbers::{number_in, number_or};
use crate::options::Values;
use base_words::{LARGEST_NUMBER, is_id, is_text};
use debver::Text;
use std::alloc::{AllocError, Global};

/// The highest port.
const MAX_PORT: u64 = 65_535;

/// The highest count of connections, and the one that is meant where none is given.
const MAX_COUNT: u64 = 1_000_000;

// The text, kept.
fn kept(alloc: Global, text: Option<&str>) -> Result<Option<Text>, AllocError>
    ensures { IfOk result (λ kept. kept ≡ option_copied text.entry) }
{
    match text {
        Some(text) => Ok(Some(Text::of(alloc, text)?)),
        None => Ok(None),
    }
}

// `run`, with the option `--store`.
fn run_job(alloc: Global, values: &Values) -> Result<Option<Job>, AllocError>
    ensures { IfOk result (λ job. job ≡ run_job (given_of values.now)) }
{
    if values.from.is_some()
        || values.id.is_some()
        || values.port.is_some()
        || values.count.is_some()
        || values.first.is_some()
    {
        return Ok(None);
    }
    let store = kept(alloc, values.store)?;
    Ok(Some(Job::Run { store }))
}

// The number of the first bug that a value names, or 1.
fn first_in(text: Option<&str>) -> Option<u64>
    ensures { result ≡ first_in (option_copied text.entry) }
{
    number_or(1, 1, LARGEST_NUMBER, text)
}

// `init`, with the options `--store` and `--first`.
fn init_job(alloc: Global, values: &Values) -> Result<Option<Job>, AllocError>
    ensures { IfOk result (λ job. job ≡ init_job (given_of values.now)) }
{
    if values.from.is_some()
        || values.id.is_some()
        || values.port.is_some()
        || values.count.is_some()
    {
        return Ok(None);
    }
    let Some(file) = values.store else {
        return Ok(None);
    };
    let Some(first) = first_in(values.first) else {
        return Ok(None);
    };
    let store = Text::of(alloc, file)?;
    Ok(Some(Job::Init { store, first }))
}

// The port that a value names.
fn port_in(text: Option<&str>) -> Option<u16>
    ensures { result ≡ port_in (option_copied text.entry) }
{
    let port = number_in(1, MAX_PORT, text?)?;
    Some(port as u16)
}

// The count of connections that a value names, or the most.
fn count_in(text: Option<&str>) -> Option<u64>
    ensures { result ≡ count_in (option_copied text.entry) }
{
    number_or(MAX_COUNT, 1, MAX_COUNT, text)
}

// `serve`, with the options `--port`, `--store` and `--count`.
fn serve_job(alloc: Global, values: &Values) -> Result<Option<Job>, AllocError>
    ensures { IfOk result (λ job. job ≡ serve_job (given_of values.now)) }
{
    if values.from.is_some() || values.id.is_some() || values.first.is_some() {
        return Ok(None);
    }
    let Some(port) = port_in(values.port) else {
        return Ok(None);
    };
    let Some(count) = count_in(values.count) else {
        return Ok(None);
    };
    let store = kept(alloc, values.store)?;
    Ok(Some(Job::Serve { store, port, count }))
}

// The sender that a value names: a text of 1 to 200 bytes.
fn sender_in<'a>(text: Option<&'a str>) -> Option<&'a str>
    ensures { option_copied result ≡ sender_in (option_copied text.entry) }
{
    match text {
        Some(text) if is_text(text) => Some(text),
        _ => None,
    }
}

// The id that a value is, kept, where there is one; `None` where the value is no id.
fn id_in(alloc: Global, text: Option<&str>) -> Result<Option<Option<Text>>, AllocError>
    ensures { IfOk result (λ id. id ≡ id_in (option_copied text.entry)) }
{
    match text {
        Some(text) => {
            if is_id(text) {
                Ok(Some(Some(Text::of(alloc, text)?)))
            } else {
                Ok(None)
            }
        }
        None => Ok(Some(None)),
    }
}

// The job of a message, with the options `--store`, `--from` and `--id`.
fn send_job(alloc: Global, values: &Values, words: &[&str]) -> Result<Option<Job>, AllocError>
    ensures { IfOk result (λ job.
        job ≡ send_job (given_of values.now) (map (λ s. s.now) words.now)) }
{
    if values.port.is_some() || values.count.is_some() || values.first.is_some() {
        return Ok(None);
    }
    let Some(file) = values.store else {
        return Ok(None);
    };
    let Some(sender) = sender_in(values.from) else {
        return Ok(None);
    };
    let Some(id) = id_in(alloc, values.id)? else {
        return Ok(None);
    };
    let Some(lines) = message_lines(alloc, words)? else {
        return Ok(None);
    };
    let store = Text::of(alloc, file)?;
    let from = Text::of(alloc, sender)?;
    Ok(Some(Job::Send {
        store,
        from,
        id,
        lines,
    }))
}

// The job of a command of one word.
fn job_of_word(alloc: Global, values: &Values, word: &str) -> Result<Option<Job>, AllocError>
    ensures { IfOk result (λ job. job ≡ job_of_word (given_of values.now) word.now) }
{
    match word {
        "run" => run_job(alloc, values),
        "init" => init_job(alloc, values),
        "serve" => serve_job(alloc, values),
        _ => send_job(alloc, values, &[word]),
    }
}

/// The job of a command with these values of options; `None` where there is none.
pub(crate) fn job_of(
    alloc: Global,
    values: &Values,
    words: &[&str],
) -> Result<Option<Job>, AllocError>
    ensures { IfOk result (λ job.
        job ≡ job_of (given_of values.now) (map (λ s. s.now) words.now)) }
{
    match words {
        [] => run_job(alloc, values),
        [word] => job_of_word(alloc, values, word),
        _ => send_job(alloc, values, words),
    }
}
