//! The lines of examples that are taken while there is a desk.

use crate::example::Example;
use crate::questions::{are_answered_well, ask_all};
use crate::words::call_all;
use desk_run::{Records, ScriptEnd, ScriptFault};
use std::alloc::{AllocError, Global};
use test_doubles::run_into;

// Takes a line of a script, and adds it to the script, without its sign.
fn take_part(example: &mut Example, script: &mut String) -> Result<(), AllocError> {
    script.push_str(example.line().strip_prefix("| ").unwrap_or(""))?;
    script.push('\n')?;
    example.pass();
    Ok(())
}

// Takes the lines of a script.
fn take_script(example: &mut Example, script: &mut String) -> Result<(), AllocError> {
    for _ in 0..example.left() {
        if !example.begins_with("| ") {
            return Ok(());
        }
        take_part(example, script)?;
    }
    Ok(())
}

// What is told of how a script ended.
fn end_text(alloc: Global, end: Result<ScriptEnd, ScriptFault>) -> Result<String, AllocError> {
    match end {
        Ok(ScriptEnd::Accepted) => String::from_str(alloc, "-- accepted\n"),
        Ok(ScriptEnd::Refused) => String::from_str(alloc, "-- refused\n"),
        Err(fault) => format!(in alloc; "-- fault: {fault}\n"),
    }
}

// Runs a script, and tells what it writes and how it ends.
fn run_taken<R: Records>(alloc: Global, desk: &mut R, script: &str, example: &mut Example) {
    let end = run_into(alloc, desk, script, &mut example.output.text);
    example.output.add_made(end_text(alloc, end));
}

// Takes the lines of a script, runs it, and tells what it writes and how it ends.
fn run_lines<R: Records>(alloc: Global, desk: &mut R, example: &mut Example) {
    let mut script = String::new(alloc);
    match take_script(example, &mut script) {
        Ok(()) => run_taken(alloc, desk, script.as_str(), example),
        Err(error) => example.output.note(Err(error)),
    }
}

// Takes a line that asks for the next number.
fn answer_next<R: Records>(alloc: Global, desk: &mut R, example: &mut Example) {
    match desk.next() {
        Ok(next) => example.answer_number(alloc, next),
        Err(fault) => example.answer_fault(alloc, fault),
    }
}

// Takes a line that asks the questions again.
fn answer_again<R: Records>(alloc: Global, desk: &mut R, example: &mut Example) {
    if are_answered_well(alloc, desk, &example.answers) {
        example.answer("as before, or Device that is counted");
    } else {
        example.answer("something else");
    }
}

// Takes a line that is none of a script.
fn take_call<R: Records>(alloc: Global, desk: &mut R, example: &mut Example) {
    match example.line() {
        "calls" => example.answer(call_all(alloc, desk)),
        "asked again" => answer_again(alloc, desk, example),
        "next" => answer_next(alloc, desk, example),
        "faults" => example.answer_number(alloc, desk.faults()),
        _ if example.begins_with("-- ") => example.pass(),
        _ if example.begins_with("sql ") => example.answer("no connection"),
        _ if example.begins_with("ask ") => example.answer("no connection"),
        _ => example.answer("not asked"),
    }
}

// Takes a line, or all lines of a script.
fn take_line<R: Records>(alloc: Global, desk: &mut R, example: &mut Example) {
    if example.begins_with("| ") {
        run_lines(alloc, desk, example);
    } else {
        take_call(alloc, desk, example);
    }
}

// Notes what the questions are answered.
fn ask_before<R: Records>(alloc: Global, desk: &mut R, example: &mut Example) {
    let told = ask_all(alloc, desk, &mut example.answers);
    example.output.note(told);
}

/// Takes the lines of a desk, up to one that closes it or asks for other files; before calls or
/// room are limited the questions are asked.
pub(crate) fn take_lines<R: Records>(alloc: Global, desk: &mut R, example: &mut Example) {
    for _ in 0..example.left() {
        if example.limits_files() {
            return ask_before(alloc, desk, example);
        }
        if example.line() == "close" || example.is_at_end() {
            return;
        }
        take_line(alloc, desk, example);
    }
}
