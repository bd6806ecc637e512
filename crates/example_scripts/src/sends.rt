//! Messages that are sent to a desk in memory, and to one in tables, again and again.

use crate::message_with_id::MessageWithId;
use base_faults::StoreFault;
use base_words::number_word;
use desk_run::Records;
use std::alloc::{AllocError, Global};
use std::io;
use test_doubles::{DeskTask, in_memory_failing, in_tables_failing, run_into};

// Tells the next number.
fn next_text<S: Records>(alloc: Global, desk: &mut S) -> Result<String, AllocError> {
    match desk.next() {
        Ok(next) => format!(in alloc; "-> {next}\n"),
        Err(_) => String::from_str(alloc, "-> a fault\n"),
    }
}

// Takes a line of an example, and adds it and its answer to a text.
fn take_line<S: Records>(
    alloc: Global,
    desk: &mut S,
    message: &mut MessageWithId,
    line: &str,
    text: &mut Vec<u8>,
) -> Result<(), AllocError> {
    text.extend_from_slice(line.as_bytes())?;
    text.push(b'\n')?;
    if message.take(line)? {
        return Ok(());
    }
    if let Some(script) = line.strip_prefix("! ") {
        let _ = run_into(alloc, desk, script, text);
        return Ok(());
    }
    match line {
        "send" => {
            message.send(alloc, desk, text)?;
            Ok(())
        }
        "next" => text.extend_from_slice(next_text(alloc, desk)?.as_bytes()),
        _ => Ok(()),
    }
}

// Takes the lines of an example, and adds them and their answers to a text.
fn take_lines<S: Records>(
    alloc: Global,
    desk: &mut S,
    message: &mut MessageWithId,
    example: &str,
    text: &mut Vec<u8>,
) -> Result<(), AllocError> {
    for line in example.lines() {
        take_line(alloc, desk, message, line, text)?;
    }
    Ok(())
}

// Adds to a text what the lines of an example come to on a desk.
fn run_lines<S: Records>(
    alloc: Global,
    desk: &mut S,
    example: &str,
    text: &mut Vec<u8>,
) -> Result<(), AllocError> {
    let mut message = MessageWithId::new(alloc)?;
    take_lines(alloc, desk, &mut message, example, text)
}

// The lines of an example, which are taken on a desk.
#[derive(Clone, Copy)]
struct ExampleLines<'a> {
    example: &'a str,
}

// What the lines of an example come to, and whether there was memory for all of it.
#[derive(Drop)]
struct ExampleAnswers {
    text: Vec<u8>,
    is_whole: bool,
}

impl DeskTask<ExampleAnswers> for ExampleLines<'_> {
    fn run_on<R: Records>(&self, alloc: Global, desk: &mut R, answers: &mut ExampleAnswers) {
        let told = run_lines(alloc, desk, self.example, &mut answers.text);
        answers.is_whole = told.is_ok();
    }
}

impl ExampleAnswers {
    // Nothing yet.
    fn new(alloc: Global) -> ExampleAnswers {
        ExampleAnswers {
            text: Vec::new(alloc),
            is_whole: true,
        }
    }

    // Whether there was memory for all.
    fn whole(&self) -> Result<(), AllocError> {
        if self.is_whole {
            Ok(())
        } else {
            Err(AllocError)
        }
    }
}

// The call that a line `fails K` or `fails K full` names, and its fault; nothing of another line.
fn call_of(line: &str) -> Option<(u64, StoreFault)> {
    let words = line.strip_prefix("fails ")?;
    let (word, fault) = match words.strip_suffix(" full") {
        Some(word) => (word, StoreFault::Full),
        None => (words, StoreFault::Device),
    };
    Some((number_word(word).unwrap_or(0), fault))
}

// Which call that changes or keeps something fails, of an example, and by which fault: that of its
// first line that names one.
fn fails(example: &str) -> (u64, StoreFault) {
    for line in example.lines() {
        if let Some(named) = call_of(line) {
            return named;
        }
    }
    (0, StoreFault::Device)
}

// Prints bytes that are UTF-8.
fn print_text(rt: &HostRuntime, bytes: &[u8]) -> io::Result<()> {
    match std::str::from_utf8(bytes) {
        Ok(text) => print!(rt; "{text}"),
        Err(_) => println!(rt; "-- no UTF-8"),
    }
}

// Prints what comes of an example on a desk in memory, and whether a desk in tables answers alike.
fn print_both(
    rt: &HostRuntime,
    in_memory: &ExampleAnswers,
    in_tables: &ExampleAnswers,
) -> io::Result<()> {
    in_memory.whole()?;
    in_tables.whole()?;
    print_text(rt, &in_memory.text)?;
    if in_memory.text == in_tables.text {
        return println!(rt; "-- in tables: alike");
    }
    println!(rt; "-- in tables:")?;
    print_text(rt, &in_tables.text)
}

// Runs an example on both desks, and prints what comes of it.
fn run_example(rt: &HostRuntime, example: &str) -> io::Result<()> {
    let alloc = rt.alloc();
    let lines = ExampleLines { example };
    let (call, fault) = fails(example);
    let mut in_memory = ExampleAnswers::new(alloc);
    let mut in_tables = ExampleAnswers::new(alloc);
    in_memory_failing(alloc, call, fault, &lines, &mut in_memory);
    in_tables_failing(alloc, call, fault, &lines, &mut in_tables);
    print_both(rt, &in_memory, &in_tables)
}

// Adds a line to an example; where it begins another, the one before is run.
fn add_line(rt: &HostRuntime, example: &mut String, line: &str) -> io::Result<()> {
    if line.starts_with("== ") && !example.is_empty() {
        run_example(rt, example.as_str())?;
        example.clear();
    }
    example.push_str(line)?;
    example.push('\n')?;
    Ok(())
}

/// Runs the examples of a file, each on new desks; each begins with a line `==` and its name.
pub(crate) fn run_file(rt: &HostRuntime, text: &str) -> io::Result<()> {
    let mut example = String::new(rt.alloc());
    for line in text.lines() {
        add_line(rt, &mut example, line)?;
    }
    run_example(rt, example.as_str())
}
