//! Calls on desks in tables, and statements of SQL between them.

use crate::desk_calls::take_lines;
use crate::example::Example;
use base_words::number_word;
use desk_tables::TableDesk;
use sqlite::{Alter, Connection};
use sqlite_pager::Options;
use std::alloc::Global;
use std::io;
use test_doubles::{
    ConnectionTask, DatabaseFiles, MadeDesk, create, files_in, limited, new_files, open,
    over_files, with_room,
};
use test_trials::number_asked;

// What is asked of a connection.
#[derive(Clone, Copy)]
enum Call {
    Create(u64),
    Open,
    Other,
}

// What a line asks of a connection.
fn call_of(line: &str) -> Call {
    if line == "open" {
        return Call::Open;
    }
    match line.strip_prefix("create ") {
        Some(first) => Call::Create(number_word(first).unwrap_or(1)),
        None => Call::Other,
    }
}

// Takes the lines of a desk, and closes it.
fn use_desk<S: Alter>(alloc: Global, desk: TableDesk<S>, example: &mut Example) -> Connection<S> {
    let mut desk = desk;
    example.is_desk = true;
    take_lines(alloc, &mut desk, example);
    desk.close()
}

// Tells what came of a line that makes a desk, and takes the lines of the desk.
fn use_made<S: Alter>(alloc: Global, made: MadeDesk<S>, example: &mut Example) -> Connection<S> {
    match made {
        Ok(desk) => {
            example.answer("ok");
            use_desk(alloc, desk, example)
        }
        Err((fault, conn)) => {
            example.answer_refusal(alloc, fault);
            conn
        }
    }
}

// Runs a batch of SQL.
fn run_sql<S: Alter>(conn: &mut Connection<S>, sql: &str) -> &'static str {
    match conn.execute_batch(sql) {
        Ok(()) => "ok",
        Err(_) => "refused",
    }
}

// Takes a line that asks for a number.
fn take_question<S: Alter>(alloc: Global, conn: &mut Connection<S>, example: &mut Example) {
    match number_asked(conn, example.line().strip_prefix("ask ").unwrap_or("")) {
        Some(number) => example.answer_number(alloc, number),
        None => example.answer("none"),
    }
}

// Takes a line that makes no desk.
fn take_other<S: Alter>(alloc: Global, conn: &mut Connection<S>, example: &mut Example) {
    match example.line().strip_prefix("sql ") {
        Some(sql) => {
            let answer = run_sql(conn, sql);
            example.answer(answer);
        }
        None if example.begins_with("ask ") => take_question(alloc, conn, example),
        None if example.line() == "close" => {
            example.is_desk = false;
            example.answer("ok");
        }
        None if example.begins_with("-- ") => example.pass(),
        None => example.answer("no desk"),
    }
}

// Takes a line of a connection, and the lines of the desk that it makes.
fn take_line<S: Alter>(alloc: Global, conn: Connection<S>, example: &mut Example) -> Connection<S> {
    match call_of(example.line()) {
        Call::Create(first) => use_made(alloc, create(alloc, conn, first), example),
        Call::Open => use_made(alloc, open(alloc, conn), example),
        Call::Other => {
            let mut conn = conn;
            take_other(alloc, &mut conn, example);
            conn
        }
    }
}

// Opens the desk, if there was one, and takes its lines.
fn resume<S: Alter>(alloc: Global, conn: Connection<S>, example: &mut Example) -> Connection<S> {
    if !example.is_desk {
        return conn;
    }
    match open(alloc, conn) {
        Ok(desk) => use_desk(alloc, desk, example),
        Err((_, conn)) => {
            example.is_desk = false;
            conn
        }
    }
}

// Takes the lines of a connection, up to one that asks for other files.
fn take_all<S: Alter>(alloc: Global, conn: Connection<S>, example: &mut Example) -> Connection<S> {
    let mut conn = resume(alloc, conn, example);
    for _ in 0..example.left() {
        if example.is_at_end() {
            return conn;
        }
        conn = take_line(alloc, conn, example);
    }
    conn
}

// Takes the lines that are left where there is no connection, up to one that asks for other files.
fn take_none(example: &mut Example) {
    for _ in 0..example.left() {
        if example.is_at_end() {
            return;
        }
        example.answer("no connection");
    }
}

// Takes the lines of a connection, up to one that asks for other files.
struct ConnectionLines;

impl ConnectionTask<Example> for ConnectionLines {
    fn run_over<S: Alter>(
        &self,
        alloc: Global,
        conn: Connection<S>,
        example: &mut Example,
    ) -> Connection<S> {
        take_all(alloc, conn, example)
    }
}

// The files of a line that names a file of data, or that begins a new database.
fn begun_files(rt: &HostRuntime, line: &str) -> io::Result<DatabaseFiles> {
    match line.strip_prefix("file ") {
        Some(name) => files_in(rt, name),
        None => Ok(new_files(rt.alloc())),
    }
}

// The files that a line asks for: those before, with fewer calls or less room, or others.
fn other_files(rt: &HostRuntime, files: &DatabaseFiles, line: &str) -> io::Result<DatabaseFiles> {
    if let Some(word) = line.strip_prefix("calls-left ") {
        return limited(rt.alloc(), files, word.parse::<u64>().ok());
    }
    match line.strip_prefix("room-left ") {
        Some(word) => with_room(rt.alloc(), files, word.parse::<usize>().ok()),
        None => begun_files(rt, line),
    }
}

// Takes a line that asks for other files, which have a desk only if it limits those before.
fn pass_files(example: &mut Example) {
    if !example.limits_files() {
        example.is_desk = false;
    }
    example.pass();
}

// Takes a line that asks for other files, and the lines of those files.
fn take_files(
    rt: &HostRuntime,
    files: &mut DatabaseFiles,
    example: &mut Example,
) -> io::Result<()> {
    let begun = other_files(rt, files, example.line())?;
    pass_files(example);
    *files = over_files(
        rt.alloc(),
        begun,
        Options::new(1),
        &ConnectionLines,
        example,
    );
    take_none(example);
    Ok(())
}

// Takes all lines.
fn take_file(rt: &HostRuntime, example: &mut Example) -> io::Result<()> {
    let mut files = new_files(rt.alloc());
    for _ in 0..example.left() {
        if example.left() > 0 {
            take_files(rt, &mut files, example)?;
        }
    }
    Ok(())
}

/// Runs the examples of a file, and prints each line and after it what it is answered.
pub(crate) fn run_file(rt: &HostRuntime, text: &str) -> io::Result<()> {
    let mut example = Example::new(rt.alloc(), text)?;
    take_file(rt, &mut example)?;
    example.output.print(rt)
}
