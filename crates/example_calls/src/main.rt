//! Prints calls of the crates and what they answer: each line of its tables is a call.
#![tactic(auto)]

mod edits;
mod kinds;
mod messages;
mod numbers;
mod rows;
mod trees;
mod versions;
mod words;

use kinds::{Kind, NodeKind};
use std::alloc::{AllocError, Global};
use std::{fs, io};
use version_marks::Family;
use version_nodes::Node;

/// The name of the file that lists the tables.
const FILES: &str = "files";

// Adds what a call of versions, texts and lines answers.
// Answers whether the text is of the call's kind.
fn add_plain_answer(
    alloc: Global,
    out: &mut String,
    kind: Kind,
    text: &str,
) -> Result<bool, AllocError> {
    match kind {
        Kind::Version => versions::add_parts(out, text)?,
        Kind::Name => versions::add_name(out, text)?,
        Kind::Node => trees::add_node(out, Node::read(alloc, text))?,
        Kind::Text => messages::add_is_text(out, text)?,
        Kind::Number => messages::add_number(out, text)?,
        Kind::Read => messages::add_line(alloc, out, text)?,
        Kind::Order => return versions::add_sorted(alloc, out, text),
        Kind::At => return trees::add_meant(alloc, out, text),
        Kind::Nodes => return trees::add_node_list(alloc, out, text),
        Kind::Tags => return numbers::add_tags(alloc, out, text),
        Kind::TagNumber => return numbers::add_tags_of(alloc, out, text),
        Kind::Severity => return numbers::add_severity(out, text),
        _ => return Ok(false),
    }
    Ok(true)
}

// Adds what a call answers, which may be about the nearest marks in a tree.
// Answers whether the text is of the call's kind.
fn add_row_answer(
    alloc: Global,
    out: &mut String,
    family: &Family,
    kind: Kind,
    text: &str,
) -> Result<bool, AllocError> {
    match kind {
        Kind::Nearest => rows::add_nearest(alloc, out, family, text),
        Kind::Affected => rows::add_affected(alloc, out, family, text),
        Kind::Edits => edits::add_edits(alloc, out, family, text),
        _ => add_plain_answer(alloc, out, kind, text),
    }
}

// Adds what a call answers, which may be about the tree.
// Answers whether the text is of the call's kind.
fn add_answer(
    alloc: Global,
    out: &mut String,
    family: &mut Family,
    kind: Kind,
    text: &str,
) -> Result<bool, AllocError> {
    match kind {
        Kind::Tree => {
            *family = Family::new(alloc);
            out.push_str("nothing is known")?;
            Ok(true)
        }
        Kind::Branch => trees::add_branch(alloc, out, family, text),
        Kind::Knows => trees::add_of_node(alloc, out, family.tree(), NodeKind::Knows, text),
        Kind::Line => trees::add_of_node(alloc, out, family.tree(), NodeKind::Line, text),
        Kind::Heads => {
            trees::add_heads(out, family.tree(), text)?;
            Ok(true)
        }
        Kind::Status => trees::add_status(alloc, out, family.tree(), text),
        _ => add_row_answer(alloc, out, family, kind, text),
    }
}

// Adds what the call of a line answers; answers whether the line is a call.
fn add_call(
    alloc: Global,
    out: &mut String,
    family: &mut Family,
    line: &str,
) -> Result<bool, AllocError> {
    let (word, text) = line.split_once(' ').unwrap_or((line, ""));
    match Kind::read(word) {
        Some(kind) => add_answer(alloc, out, family, kind, text),
        None => Ok(false),
    }
}

// Prints a line of a table, and what is told of it.
fn print_told(rt: &HostRuntime, line: &str, told: &str) -> io::Result<()> {
    println!(rt; "{line} -> {told}")
}

// Prints a line of a table, and what its call answers.
fn print_call(rt: &HostRuntime, family: &mut Family, line: &str) -> io::Result<()> {
    let mut answer = String::new(rt.alloc());
    if add_call(rt.alloc(), &mut answer, family, line)? {
        print_told(rt, line, answer.as_str())
    } else {
        print_told(rt, line, "bad line of a table")
    }
}

// Prints the calls of a table.
// A line that begins with `==` is a heading.
fn print_table(rt: &HostRuntime, table: &str) -> io::Result<()> {
    let mut family = Family::new(rt.alloc());
    for line in table.split_terminator('\n') {
        if line.starts_with("==") {
            println!(rt; "{line}")?;
        } else {
            print_call(rt, &mut family, line)?;
        }
    }
    Ok(())
}

fn main(rt: HostRuntime) -> io::Result<()> {
    for name in fs::read_to_string(&rt, FILES)?.lines() {
        print_table(&rt, fs::read_to_string(&rt, name)?.as_str())?;
    }
    Ok(())
}
