//! The first calls of the crates that others may want by themselves.
//! The page CALLING.md beside each of these crates has its lines of them.

ghost use Rattle.control_text.specs.WellFormed.{IsWellFormed, IsWellFormedLine};

use crate::answers::shown;
use ancestry::{BranchFault, Tree, status};
use base_faults::StoreFault;
use base_words::is_text;
use bug_core::{Severity, report_change};
use bug_record::Command;
use control_text::{Line, LineFault, Named, WordsFault, read_line, words_to_lines, write_command};
use debver::{Text, VersionFault, check, order};
use desk_http::{ServeFault, serve_one};
use desk_run::{ScriptFault, run_script};
use desk_tables::TableDesk;
use memory_desk::PlainDesk;
use message_receiving::receive;
use sqlite::{Alter, Connection};
use sqlite_pager::Options;
use std::alloc::{AllocError, Global};
use std::fmt::Display;
use std::io;
use store_contract::Records;
use test_doubles::{ConnectionTask, new_files, over_files};
use thiserror::Error;
use version_nodes::{Node, NodeFault, Status};

/// Why one of these calls answers nothing: faults of other crates become it by `?`.
#[derive(Debug, Drop, Error)]
pub(crate) enum Stopped {
    #[error(transparent)]
    Version(#[from] VersionFault),
    #[error(transparent)]
    Node(#[from] NodeFault),
    #[error(transparent)]
    Branch(#[from] BranchFault),
    #[error(transparent)]
    Line(#[from] LineFault),
    #[error(transparent)]
    Words(#[from] WordsFault),
    #[error(transparent)]
    Store(#[from] StoreFault),
    #[error(transparent)]
    Script(#[from] ScriptFault),
    #[error(transparent)]
    Serve(#[from] ServeFault),
    #[error(transparent)]
    Memory(#[from(alloc)] AllocError),
}

// debver: whether one version is newer than another.
fn is_newer(version: &str, than: &str) -> Result<bool, Stopped> {
    let version = check(version)?;
    let than = check(than)?;
    Ok(order(&version, &than).is_gt())
}

// ancestry: the status at a version of a bug that was found in the version before it.
fn status_after(alloc: Global) -> Result<Status, Stopped> {
    let found = Node::read(alloc, "hello/1.0-1")?;
    let later = Node::read(alloc, "hello/1.0-2")?;
    let mut tree = Tree::new(alloc);
    tree.take_branch(&[later.copy()?, found.copy()?])?;
    Ok(status(&tree, &[found], &[], false, &later))
}

// control_text: the lines of a message that words of bts(1) stand for, as the desk spells them.
fn spelled(alloc: Global, words: &[&str]) -> Result<String, Stopped> {
    let mut text = String::new(alloc);
    for line in words_to_lines(alloc, words)?.as_slice() {
        add_spelled(alloc, &mut text, line.as_str())?;
    }
    Ok(text)
}

// The same of one line.
fn add_spelled(alloc: Global, text: &mut String, line: &str) -> Result<(), Stopped> {
    match read_line(alloc, line) {
        Ok(line) => add_spelling(alloc, text, &line),
        Err(fault) => Err(Stopped::Line(fault)),
    }
}

// The same of a line that was read.
fn add_spelling(alloc: Global, text: &mut String, line: &Line) -> Result<(), Stopped>
    requires { IsWellFormedLine line.now }
{
    match line {
        Line::Do(command) => add_command(alloc, text, command),
        _ => Ok(()),
    }
}

// The same of a command.
fn add_command(alloc: Global, text: &mut String, command: &Command<Named>) -> Result<(), Stopped>
    requires { IsWellFormed command.now }
{
    let spelling = write_command(alloc, command)?;
    text.push_str(spelling.as_str())?;
    text.push('\n')?;
    Ok(())
}

// bug_core: the number after the first report of a desk; none where one of these is no text.
fn next_after_report(alloc: Global, from: &str, title: &str) -> Result<Option<u64>, Stopped> {
    if !is_text(from) || !is_text(title) {
        return Ok(None);
    }
    let from = Text::of(alloc, from)?;
    let change = report_change(alloc, &from, "hello", Severity::Grave, title, None, 1)?;
    Ok(Some(change.next))
}

// store_contract: the number of the next bug, of any store.
fn next_number<S: Records>(store: &mut S) -> Result<u64, Stopped> {
    let next = store.next()?;
    Ok(next)
}

// message_receiving: how many lines of a message a desk answers; none where the sender is no text.
fn lines_answered<S: Records>(alloc: Global, desk: &mut S, from: &str, message: &str) -> usize {
    if !is_text(from) {
        return 0;
    }
    let received = receive(alloc, desk, from, message);
    received.outcomes.as_slice().len()
}

// desk_run: what a script writes, over any store.
fn written<S: Records>(alloc: Global, desk: &mut S, script: &str) -> Result<Vec<u8>, Stopped> {
    let mut input = script.as_bytes();
    let mut output = Vec::new(alloc);
    run_script(alloc, desk, &mut input, &mut output)?;
    Ok(output)
}

// desk_http: the answer to a request, over any store.
fn answer<S: Records>(alloc: Global, desk: &mut S, request: &str) -> Result<String, Stopped> {
    let mut input = request.as_bytes();
    let mut output = Vec::new(alloc);
    serve_one(alloc, desk, &mut input, &mut output)?;
    let text = shown(alloc, &output)?;
    Ok(text)
}

// desk_tables: what a script writes on a new desk in tables.
fn written_in_tables<S: Alter>(
    alloc: Global,
    conn: Connection<S>,
    script: &str,
    text: &mut Vec<u8>,
) -> Connection<S> {
    if !conn.is_autocommit() {
        return conn;
    }
    match TableDesk::create(alloc, conn, 1) {
        Ok(desk) => {
            let mut desk = desk;
            let mut input = script.as_bytes();
            let _ = run_script(alloc, &mut desk, &mut input, text);
            desk.close()
        }
        Err((_, conn)) => conn,
    }
}

// A script that is run on a new desk in tables.
#[derive(Drop)]
struct Script<'a> {
    text: &'a str,
}

impl ConnectionTask<Vec<u8>> for Script<'_> {
    fn run_over<S: Alter>(
        &self,
        alloc: Global,
        conn: Connection<S>,
        written: &mut Vec<u8>,
    ) -> Connection<S> {
        written_in_tables(alloc, conn, self.text, written)
    }
}

// Prints what a call answers, or why it answers nothing.
fn print<T: Display + Drop>(
    rt: &HostRuntime,
    call: &str,
    told: Result<T, Stopped>,
) -> io::Result<()> {
    match told {
        Ok(answer) => println!(rt; "{call}: {answer}"),
        Err(fault) => println!(rt; "{call}: nothing, {fault}"),
    }
}

// Prints a text that was written.
fn print_bytes(rt: &HostRuntime, call: &str, bytes: &[u8]) -> io::Result<()> {
    match str::from_utf8(bytes) {
        Ok(text) => println!(rt; "{call}:\n{}", text.trim_end()),
        Err(_) => println!(rt; "{call}: no text"),
    }
}

// Prints a text that was written, or why there is none.
fn print_text(rt: &HostRuntime, call: &str, told: Result<Vec<u8>, Stopped>) -> io::Result<()> {
    match told {
        Ok(text) => print_bytes(rt, call, text.as_slice()),
        Err(fault) => println!(rt; "{call}: nothing, {fault}"),
    }
}

// Prints what calls that need no desk answer.
fn print_plain(rt: &HostRuntime) -> io::Result<()> {
    let alloc = rt.alloc();
    print(rt, "debver", is_newer("2.0-1", "2.0~rc1-1"))?;
    print(rt, "debver", is_newer("2.0-1", "2_0"))?;
    match status_after(alloc) {
        Ok(status) => println!(rt; "ancestry: {status:?}")?,
        Err(fault) => println!(rt; "ancestry: nothing, {fault}")?,
    }
    let words = ["severity", "1", "grave,", "owner", "it", "ann@example.org"];
    print(rt, "control_text", spelled(alloc, &words))?;
    match next_after_report(alloc, "ann@example.org", "it crashes") {
        Ok(next) => println!(rt; "bug_core: {next:?}"),
        Err(fault) => println!(rt; "bug_core: nothing, {fault}"),
    }
}

// Prints what calls over desks answer.
fn print_desks(rt: &HostRuntime) -> io::Result<()> {
    let alloc = rt.alloc();
    let script = "@report hello - normal it crashes\nseverity 1 grave\n";
    let mut desk = PlainDesk::new(alloc, 1);
    print(rt, "store_contract", next_number(&mut desk))?;
    print_text(rt, "desk_run", written(alloc, &mut desk, script))?;
    let answered = lines_answered(alloc, &mut desk, "ann", "# two lines\nclose 1\nclose 2\n");
    println!(rt; "message_receiving: {answered}")?;
    let request = "GET /bugs/1 HTTP/1.1\r\nHost: 127.0.0.1\r\n\r\n";
    print(rt, "desk_http", answer(alloc, &mut desk, request))?;
    let mut text = Vec::new(alloc);
    let task = Script { text: script };
    drop(over_files(alloc, new_files(alloc), Options::new(1), &task, &mut text));
    print_bytes(rt, "desk_tables", text.as_slice())
}

/// Prints what each of these calls answers.
pub(crate) fn print_all(rt: &HostRuntime) -> io::Result<()> {
    println!(rt; "== first calls")?;
    print_plain(rt)?;
    print_desks(rt)
}
