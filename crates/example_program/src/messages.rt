//! Words of messages, and the lines that they stand for.

use crate::words::{add_words, keep_words};
use control_text::{WordsFault, words_to_lines};
use std::io;

// Prints texts, one a line.
fn print_texts(rt: &HostRuntime, texts: &[String]) -> io::Result<()> {
    for text in texts {
        println!(rt; "-> {}", text.as_str())?;
    }
    Ok(())
}

// Prints the lines of words of a message, or why there are none.
fn print_message(rt: &HostRuntime, words: &[&str]) -> io::Result<()> {
    match words_to_lines(rt.alloc(), words) {
        Ok(lines) => print_texts(rt, &lines),
        Err(WordsFault::BadWord(place)) => println!(rt; "-- bad word at {place}"),
        Err(WordsFault::NoCommand) => println!(rt; "-- no command"),
        Err(WordsFault::ItUnset(place)) => println!(rt; "-- no bug for it at {place}"),
        Err(WordsFault::Memory) => println!(rt; "-- no memory"),
    }
}

// Prints what the words of a line come to.
fn print_words(rt: &HostRuntime, line: &str) -> io::Result<()> {
    let mut kept = Vec::new(rt.alloc());
    keep_words(rt.alloc(), &mut kept, line)?;
    let mut words = Vec::new(rt.alloc());
    add_words(&mut words, &kept)?;
    print_message(rt, &words)
}

/// Prints the words of a table, a message a line, and the lines that they stand for.
pub(crate) fn run_file(rt: &HostRuntime, table: &str) -> io::Result<()> {
    for line in table.lines() {
        println!(rt; "{line}")?;
        print_words(rt, line)?;
    }
    Ok(())
}
