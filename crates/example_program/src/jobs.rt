//! Command lines, and the jobs that they name.

use crate::help::print_help;
use crate::words::{add_words, keep_words};
use bug_record::Sequence;
use debver::Text;
use program_options::{Job, WordsError, read_words};
use std::alloc::{AllocError, Global};
use std::io;

// What is told of a store that may be left out.
fn store_part(alloc: Global, store: &Option<Text>) -> Result<String, AllocError> {
    match store {
        Some(file) => format!(in alloc; " store [{}]", file.as_str()),
        None => Ok(String::new(alloc)),
    }
}

// What is told of an id that may be left out.
fn id_part(alloc: Global, id: &Option<Text>) -> Result<String, AllocError> {
    match id {
        Some(id) => format!(in alloc; " id [{}]", id.as_str()),
        None => Ok(String::new(alloc)),
    }
}

// Prints the lines of a message.
fn print_lines(rt: &HostRuntime, lines: &Sequence<Text>) -> io::Result<()> {
    for line in lines.as_slice() {
        println!(rt; "   {}", line.as_str())?;
    }
    Ok(())
}

// Prints a job with all its parts.
fn print_job(rt: &HostRuntime, job: &Job) -> io::Result<()> {
    match job {
        Job::Run { store } => {
            let store = store_part(rt.alloc(), store)?;
            println!(rt; "-> run{}", store.as_str())
        }
        Job::Init { store, first } => {
            println!(rt; "-> init store [{}] first {first}", store.as_str())
        }
        Job::Serve { store, port, count } => {
            let store = store_part(rt.alloc(), store)?;
            println!(rt; "-> serve port {port} count {count}{}", store.as_str())
        }
        Job::Send {
            store,
            from,
            id,
            lines,
        } => {
            let id = id_part(rt.alloc(), id)?;
            println!(rt;
                "-> send store [{}] from [{}]{}",
                store.as_str(),
                from.as_str(),
                id.as_str()
            )?;
            print_lines(rt, lines)
        }
    }
}

// Prints what words come to.
fn print_answer(rt: &HostRuntime, words: &[&str]) -> io::Result<()> {
    match read_words(rt.alloc(), words) {
        Ok(job) => print_job(rt, &job),
        Err(WordsError::Help(text)) => print_help(rt, text.as_str()),
        Err(WordsError::Bad) => println!(rt; "-- bad words"),
        Err(WordsError::Memory) => println!(rt; "-- no memory"),
    }
}

// Prints what the words after the program's name come to.
fn print_call(rt: &HostRuntime, call: &str) -> io::Result<()> {
    let mut kept = Vec::new(rt.alloc());
    keep_words(rt.alloc(), &mut kept, call)?;
    let mut words = Vec::new(rt.alloc());
    add_words(&mut words, kept.get(1..).unwrap_or(&[]))?;
    print_answer(rt, &words)
}

/// Prints the command lines of a table, the first word of each being the program's name, and what
/// each comes to.
/// A line that begins with `==` is a heading.
pub(crate) fn run_file(rt: &HostRuntime, table: &str) -> io::Result<()> {
    for line in table.lines() {
        println!(rt; "{line}")?;
        if !line.starts_with("==") {
            print_call(rt, line)?;
        }
    }
    Ok(())
}
