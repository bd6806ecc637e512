//! Command lines, run on an input: what each wrote, and how it ended.

use crate::files;
use crate::help::print_help;
use crate::ports::{FREE, TAKEN, free_port, words_of};
use crate::streams::{Caller, GivenInput, KeptOutput};
use base_words::number_word;
use program_jobs::{Ending, close_desk, open_desk, read_args, run_program, run_words};
use sqlite::Wary;
use std::alloc::{AllocError, Global};
use std::io;
use std::net::TcpListener;
use test_doubles::add_text;

// What a command line is run on.
#[derive(Drop)]
struct Run {
    input: Vec<u8>,
    is_input_bad: bool,
    output_room: usize,
    errors_room: usize,
    // The file with the desk that is open meanwhile; empty where there is none.
    open: String,
}

impl Run {
    fn new(alloc: Global) -> Run {
        Run {
            input: Vec::new(alloc),
            is_input_bad: false,
            output_room: usize::MAX,
            errors_room: usize::MAX,
            open: String::new(alloc),
        }
    }
}

// Prints what was written; of a help, what it names.
fn print_output(rt: &HostRuntime, output: &[u8]) -> io::Result<()> {
    match std::str::from_utf8(output) {
        Ok(text) if text.contains("Usage:") => print_help(rt, text),
        Ok(text) => print!(rt; "{text}"),
        Err(_) => println!(rt; "-- no UTF-8"),
    }
}

// Prints what was said of an end; the number of a port that was taken is shown as `TAKEN`.
fn print_complaint(rt: &HostRuntime, complaint: &str, port: Option<&str>) -> io::Result<()> {
    match port {
        Some(port) => match complaint.split_once(port) {
            Some((before, after)) => print!(rt; "{before}TAKEN{after}"),
            None => print!(rt; "{complaint}"),
        },
        None => print!(rt; "{complaint}"),
    }
}

// Prints an exit status, and what was said of it.
fn print_ending(
    rt: &HostRuntime,
    ending: Ending,
    complaint: &[u8],
    port: Option<&str>,
) -> io::Result<()> {
    println!(rt; "-- status {}", ending.end.status())?;
    if let Ok(text) = std::str::from_utf8(complaint) {
        print_complaint(rt, text, port)?;
    }
    if !ending.is_told {
        println!(rt; "")?;
        println!(rt; "-- not told")?;
    }
    Ok(())
}

// Runs words, and prints what came of them.
fn run_on(rt: &HostRuntime, words: &[&str], run: &Run, port: Option<&str>) -> io::Result<()> {
    let alloc = rt.alloc();
    let mut reader = GivenInput {
        left: run.input.as_slice(),
        fails: run.is_input_bad,
    };
    let mut output = KeptOutput::new(alloc, run.output_room);
    let mut errors = KeptOutput::new(alloc, run.errors_room);
    let (ending, _left) = run_words(rt, alloc, words, &mut reader, &mut output, &mut errors);
    print_output(rt, &output.bytes)?;
    print_ending(rt, ending, &errors.bytes, port)
}

// Runs words that name a port which is taken meanwhile.
fn run_on_taken_port(rt: &HostRuntime, call: &str, run: &Run) -> io::Result<()> {
    let alloc = rt.alloc();
    let listener = TcpListener::bind(rt, "127.0.0.1:0")?;
    let port = listener.local_addr()?.port();
    let number = format!(in alloc; "{port}")?;
    let option = format!(in alloc; "--port={port}")?;
    let words = words_of(alloc, call, option.as_str())?;
    run_on(rt, &words, run, Some(number.as_str()))
}

// Runs words that name this port; the input is sent to it as a request.
fn run_and_call(rt: &HostRuntime, words: &[&str], run: &Run, port: u16) -> io::Result<()> {
    let alloc = rt.alloc();
    let mut reader = GivenInput {
        left: run.input.as_slice(),
        fails: run.is_input_bad,
    };
    let mut caller = Caller::new(rt, port, run.input.as_slice());
    let mut errors = KeptOutput::new(alloc, run.errors_room);
    let (ending, _left) = run_words(rt, alloc, words, &mut reader, &mut caller, &mut errors);
    print_ending(rt, ending, &errors.bytes, None)
}

// Runs words that name a port on which nobody listens.
fn run_on_free_port(rt: &HostRuntime, call: &str, run: &Run) -> io::Result<()> {
    let alloc = rt.alloc();
    let port = free_port(rt)?;
    let option = format!(in alloc; "--port={port}")?;
    let words = words_of(alloc, call, option.as_str())?;
    run_and_call(rt, &words, run, port)
}

// Runs words while the desk in a file is open.
fn run_beside(rt: &HostRuntime, words: &[&str], run: &Run) -> io::Result<()> {
    match open_desk(rt, Wary, run.open.as_str()) {
        Ok(desk) => {
            let told = run_on(rt, words, run, None);
            drop(close_desk(desk));
            told
        }
        Err(_) => println!(rt; "-- no desk"),
    }
}

// Runs the command line of a call, and prints what came of it.
fn run_call(rt: &HostRuntime, call: &str, run: &Run) -> io::Result<()> {
    println!(rt; "{call}")?;
    if call.contains(TAKEN) {
        return run_on_taken_port(rt, call, run);
    }
    if call.contains(FREE) {
        return run_on_free_port(rt, call, run);
    }
    let words = words_of(rt.alloc(), call, "")?;
    if run.open.is_empty() {
        run_on(rt, &words, run, None)
    } else {
        run_beside(rt, &words, run)
    }
}

// Whether a line of the table is a command line.
fn is_call(line: &str) -> bool {
    line == "bts" || line.starts_with("bts|")
}

// Takes a line that says what the next command line is run on.
fn take_setting(run: &mut Run, setting: &str) -> Result<(), AllocError> {
    if setting == "no input" {
        run.is_input_bad = true;
    }
    if let Some(room) = setting.strip_prefix("output: ") {
        run.output_room = number_word(room).unwrap_or(0) as usize;
    }
    if let Some(room) = setting.strip_prefix("errors: ") {
        run.errors_room = number_word(room).unwrap_or(0) as usize;
    }
    if let Some(name) = setting.strip_prefix("open ") {
        run.open.push_str(name)?;
    }
    Ok(())
}

// Takes a line that does something with files, or says what the next command line is run on.
fn take_note(rt: &HostRuntime, seen: &mut Vec<u8>, run: &mut Run, note: &str) -> io::Result<()> {
    match files::answer(rt, seen, note)? {
        Some(answer) => println!(rt; "-- {note} -> {answer}"),
        None => {
            take_setting(run, note)?;
            println!(rt; "-- {note}")
        }
    }
}

// Takes a line of the input of the next command line.
fn take_input(run: &mut Run, line: &str) -> io::Result<()> {
    add_text(&mut run.input, line)?;
    run.input.push(b'\n')?;
    Ok(())
}

// Runs a call, if there is one; then the next one is run on nothing yet.
fn run_pending(rt: &HostRuntime, call: Option<&str>, run: &mut Run) -> io::Result<()> {
    if let Some(call) = call {
        run_call(rt, call, run)?;
        *run = Run::new(rt.alloc());
    }
    Ok(())
}

/// Runs the command lines of a table.
/// A line that begins with `bts` is one: the program's name and the words after it, with a bar
/// between them; `--port=TAKEN` names a port that is taken, and `--port=FREE` one that is free.
/// The lines after it, up to the next of another kind, are its standard input, with the signs of
/// requests, or the request that is sent to the free port.
/// Before it may stand `-- no input`, where its input can't be read, `-- output: N` and
/// `-- errors: N`, where these have room for N bytes, and `-- open NAME`, where the desk in that
/// file is open meanwhile.
/// Other lines that begin with `-- ` do something with files.
/// A line that begins with `==` is a heading.
pub(crate) fn run_file(rt: &HostRuntime, table: &str) -> io::Result<()> {
    let mut call = None;
    let mut run = Run::new(rt.alloc());
    let mut seen = Vec::new(rt.alloc());
    for line in table.lines() {
        if line.starts_with("==") {
            run_pending(rt, call, &mut run)?;
            call = None;
            println!(rt; "{line}")?;
        } else if let Some(note) = line.strip_prefix("-- ") {
            run_pending(rt, call, &mut run)?;
            call = None;
            take_note(rt, &mut seen, &mut run, note)?;
        } else if is_call(line) {
            run_pending(rt, call, &mut run)?;
            call = Some(line);
        } else {
            take_input(&mut run, line)?;
        }
    }
    run_pending(rt, call, &mut run)
}

/// Runs the words of this process, and prints what came of them.
pub(crate) fn run_process(rt: &HostRuntime) -> io::Result<()> {
    let alloc = rt.alloc();
    let run = Run::new(alloc);
    let mut reader = GivenInput {
        left: run.input.as_slice(),
        fails: run.is_input_bad,
    };
    let mut output = KeptOutput::new(alloc, run.output_room);
    let mut errors = KeptOutput::new(alloc, run.errors_room);
    let args = read_args(rt, alloc);
    let (ending, _left) = run_program(rt, alloc, args, &mut reader, &mut output, &mut errors);
    println!(rt; "== the words of this process")?;
    print_output(rt, &output.bytes)?;
    print_ending(rt, ending, &errors.bytes, None)
}
