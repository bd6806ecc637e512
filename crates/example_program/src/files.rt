//! What the lines between command lines do with files.

use program_jobs::{JobEnd, open_desk, run_script_over};
use sqlite::{Connection, Wary};
use std::os::unix::fs::PermissionsExt;
use std::{fs, io};
use test_doubles::add_text;

// What is told of something that was to be done.
fn done(is_done: bool) -> Option<&'static str> {
    Some(if is_done { "done" } else { "refused" })
}

// A name, and the text after it.
fn name_and_text(rest: &str) -> (&str, &str) {
    rest.split_once(": ").unwrap_or((rest, ""))
}

// Writes a file with this text, in which signs stand for bytes.
fn write_file(rt: &HostRuntime, rest: &str) -> io::Result<Option<&'static str>> {
    let (name, text) = name_and_text(rest);
    let mut bytes = Vec::new(rt.alloc());
    let is_good = add_text(&mut bytes, text)?;
    Ok(done(is_good && fs::write(rt, name, bytes.as_slice()).is_ok()))
}

// Looks at a file.
fn look(rt: &HostRuntime, seen: &mut Vec<u8>, name: &str) -> io::Result<Option<&'static str>> {
    *seen = fs::read(rt, name)?;
    Ok(done(true))
}

// Whether a file is as it was when it was looked at.
fn compare(rt: &HostRuntime, seen: &[u8], name: &str) -> io::Result<Option<&'static str>> {
    let is_same = fs::read(rt, name)?.as_slice() == seen;
    Ok(Some(if is_same { "yes" } else { "no" }))
}

// Sets the rights of a file or a folder, written as three octal digits.
fn set_rights(rt: &HostRuntime, rest: &str) -> bool {
    let (name, digits) = name_and_text(rest);
    match u32::from_str_radix(digits, 8) {
        Ok(mode) => fs::set_permissions(rt, name, fs::Permissions::from_mode(mode)).is_ok(),
        Err(_) => false,
    }
}

// Carries a text of SQL out on the database in a file, which is made where there is none.
fn run_sql(rt: &HostRuntime, rest: &str) -> bool {
    let (name, sql) = name_and_text(rest);
    match Connection::open_from(rt, name, false, Wary) {
        Ok(conn) => {
            let mut conn = conn;
            let is_done = conn.execute_batch(sql).is_ok();
            conn.close().is_ok() && is_done
        }
        Err(_) => false,
    }
}

// Whether a script runs to its end over the desk in a file, which is dropped then and not closed.
fn runs_and_drops(rt: &HostRuntime, name: &str, script: &[u8], output: &mut Vec<u8>) -> bool {
    let mut reader = script;
    match open_desk(rt, Wary, name) {
        Ok(desk) => {
            let mut desk = desk;
            run_script_over(rt.alloc(), &mut desk, &mut reader, output) == JobEnd::Done
        }
        Err(_) => false,
    }
}

// Runs a script, in which signs stand for bytes, over the desk in a file, which is dropped then.
fn run_and_drop(rt: &HostRuntime, rest: &str) -> io::Result<Option<&'static str>> {
    let (name, text) = name_and_text(rest);
    let mut script = Vec::new(rt.alloc());
    let is_good = add_text(&mut script, text)?;
    let mut output = Vec::new(rt.alloc());
    let is_done = runs_and_drops(rt, name, script.as_slice(), &mut output);
    Ok(done(is_good && is_done))
}

/// Does what a line says of files, and answers what came of it; nothing where it says nothing of
/// them.
/// `folder NAME` makes a folder, and `remove folder NAME` removes one that is empty;
/// `write NAME: TEXT` makes a file, whose text has the signs of requests;
/// `rights NAME: DIGITS` sets the rights of a file or a folder;
/// `look at NAME` keeps what a file holds, and `as seen NAME` compares it with what it holds then;
/// `sql NAME: TEXT` carries SQL out, and `drop NAME: TEXT` runs a script over a desk that is
/// dropped then.
pub(crate) fn answer(
    rt: &HostRuntime,
    seen: &mut Vec<u8>,
    line: &str,
) -> io::Result<Option<&'static str>> {
    if let Some(name) = line.strip_prefix("folder ") {
        Ok(done(fs::create_dir(rt, name).is_ok()))
    } else if let Some(name) = line.strip_prefix("remove folder ") {
        Ok(done(fs::remove_dir(rt, name).is_ok()))
    } else if let Some(rest) = line.strip_prefix("write ") {
        write_file(rt, rest)
    } else if let Some(rest) = line.strip_prefix("rights ") {
        Ok(done(set_rights(rt, rest)))
    } else if let Some(name) = line.strip_prefix("look at ") {
        look(rt, seen, name)
    } else if let Some(name) = line.strip_prefix("as seen ") {
        compare(rt, seen, name)
    } else if let Some(rest) = line.strip_prefix("sql ") {
        Ok(done(run_sql(rt, rest)))
    } else if let Some(rest) = line.strip_prefix("drop ") {
        run_and_drop(rt, rest)
    } else {
        Ok(None)
    }
}
