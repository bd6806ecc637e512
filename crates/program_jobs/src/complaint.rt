//! What is said on the error output.

ghost use Rattle.std.specs.Prelude.{◌≡◌, ◌++◌, decimal};
ghost use Rattle.program_jobs.specs.Endings.{cause_message, cause_line, IsWritten, IsTold};

use crate::ending::{Cause, JobEnd};
use control_lines::write_out;
use itoa::Buffer;
use std::io::Write;

// Writes a text, and answers whether all of it was.
fn write_text<E: Write>(errors: &mut E, text: &str) -> bool
    ensures { IsWritten text.now result (E.contents errors.old) (E.contents errors.new) }
{
    match write_out(errors, text.as_bytes()) {
        Ok(()) => true,
        Err(_) => false,
    }
}

// Writes a number.
fn write_number<E: Write>(errors: &mut E, number: u64) -> bool
    ensures { IsWritten (decimal number) result (E.contents errors.old) (E.contents errors.new) }
{
    let mut digits = Buffer::new();
    write_text(errors, digits.format(number))
}

// Writes two texts.
fn write_both<E: Write>(errors: &mut E, first: &str, second: &str) -> bool
    ensures { IsWritten (first.now ++ second.now) result (E.contents errors.old) (E.contents errors.new) }
{
    if !write_text(errors, first) {
        return false;
    }
    write_text(errors, second)
}

// Writes a number between two texts.
fn write_numbered<E: Write>(errors: &mut E, before: &str, number: u64, after: &str) -> bool
    ensures { IsWritten (before.now ++ (decimal number ++ after.now)) result (E.contents errors.old) (E.contents errors.new) }
{
    if !write_text(errors, before) {
        return false;
    }
    if !write_number(errors, number) {
        return false;
    }
    write_text(errors, after)
}

// Writes what is said of a cause.
fn write_message<E: Write>(errors: &mut E, cause: Cause) -> bool
    ensures { IsWritten (cause_message cause) result (E.contents errors.old) (E.contents errors.new) }
{
    let parts = cause.parts();
    match parts.number {
        Some(number) => write_numbered(errors, parts.before, number, parts.after),
        None => write_both(errors, parts.before, parts.after),
    }
}

// Writes the line that tells a cause.
fn write_cause<E: Write>(errors: &mut E, cause: Cause) -> bool
    ensures { IsWritten (cause_line cause) result (E.contents errors.old) (E.contents errors.new) }
{
    if !write_text(errors, "bts: ") {
        return false;
    }
    if !write_message(errors, cause) {
        return false;
    }
    write_text(errors, "\n")
}

/// Writes what is said of an end: nothing where there was no fault and the words are good; else the
/// line `bts: bad words` or `bts: fault`, and a second line that says what to do, or why.
/// Answers whether all of it was written; where it wasn't, a front of it was.
pub(crate) fn write_complaint<E: Write>(errors: &mut E, end: JobEnd) -> bool
    ensures { IsTold end result (E.contents errors.old) (E.contents errors.new) }
{
    match end {
        JobEnd::Done | JobEnd::Refused => true,
        JobEnd::BadWords => write_text(errors, "bts: bad words\nbts: try --help\n"),
        JobEnd::Fault(cause) => {
            if !write_text(errors, "bts: fault\n") {
                return false;
            }
            write_cause(errors, cause)
        }
    }
}
