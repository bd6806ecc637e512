//! Scripts, each run on a new desk in memory and on one in tables: what each wrote, and how it
//! ended.

use crate::header::{Header, read_header};
use base_words::LARGEST_NUMBER;
use desk_run::{ScriptEnd, ScriptFault, run_script};
use memory_desk::PlainDesk;
use sqlite::{Alter, Connection};
use sqlite_pager::Options;
use std::alloc::{AllocError, Global};
use std::io::{self, Write};
use store_contract::Records;
use test_doubles::{ConnectionTask, create, over_bytes};

// A script that runs on a new desk, whose first bug has this number.
#[derive(Clone, Copy)]
struct Script<'a> {
    first: u64,
    lines: &'a [u8],
}

// How a script ended, as a line.
fn end_line(alloc: Global, end: Result<ScriptEnd, ScriptFault>) -> Result<String, AllocError> {
    match end {
        Ok(ScriptEnd::Accepted) => String::from_str(alloc, "-- accepted\n"),
        Ok(ScriptEnd::Refused) => String::from_str(alloc, "-- refused\n"),
        Err(fault) => format!(in alloc; "-- fault: {fault}\n"),
    }
}

impl Script<'_> {
    // Runs it on a desk, and adds what it writes, and a line that tells how it ended; what is added
    // ends early where there is no memory for it.
    fn run_on<R: Records>(&self, alloc: Global, desk: &mut R, written: &mut Vec<u8>) {
        let mut reader = self.lines;
        let end = run_script(alloc, desk, &mut reader, written);
        match end_line(alloc, end) {
            Ok(line) => drop(written.extend_from_slice(line.as_bytes())),
            Err(_) => {}
        }
    }
}

impl ConnectionTask<Vec<u8>> for Script<'_> {
    fn run_over<S: Alter>(
        &self,
        alloc: Global,
        conn: Connection<S>,
        written: &mut Vec<u8>,
    ) -> Connection<S> {
        match create(alloc, conn, self.first) {
            Ok(desk) => {
                let mut desk = desk;
                self.run_on(alloc, &mut desk, written);
                desk.close()
            }
            Err((_, conn)) => conn,
        }
    }
}

// What a script writes over a new desk in memory, and how it ended.
fn run_in_memory(alloc: Global, script: &Script<'_>) -> Vec<u8> {
    let mut desk = PlainDesk::new(alloc, script.first.clamp(1, LARGEST_NUMBER));
    let mut written = Vec::new(alloc);
    script.run_on(alloc, &mut desk, &mut written);
    written
}

// The same over a new desk in tables; nothing where there is no such desk.
fn run_in_tables(alloc: Global, script: &Script<'_>) -> io::Result<Vec<u8>> {
    let mut written = Vec::new(alloc);
    over_bytes(alloc, &[], &[], Options::new(1), script, &mut written)?;
    Ok(written)
}

// Runs one script, where it has a header.
fn run_example(rt: &HostRuntime, header: Option<Header<'_>>, lines: &[u8]) -> io::Result<()> {
    let Some(header) = header else {
        return Ok(());
    };
    println!(rt; "== {}", header.text)?;
    let script = Script {
        first: header.first,
        lines,
    };
    let in_memory = run_in_memory(rt.alloc(), &script);
    io::writer(rt).write_all(&in_memory)?;
    let in_tables = run_in_tables(rt.alloc(), &script)?;
    if in_tables != in_memory {
        println!(rt; "-- over tables:")?;
        io::writer(rt).write_all(&in_tables)?;
    }
    Ok(())
}

/// Runs the scripts of a file.
/// Each is the lines, as they are, between its header and the next one; what precedes the first
/// header is none.
pub(crate) fn run_file(rt: &HostRuntime, bytes: &[u8]) -> io::Result<()> {
    let mut header = None;
    let mut script = Vec::new(rt.alloc());
    for line in bytes.split_inclusive(|byte| *byte == b'\n') {
        match read_header(line) {
            Some(next) => {
                run_example(rt, header, &script)?;
                header = Some(next);
                script.clear();
            }
            None => script.extend_from_slice(line)?,
        }
    }
    run_example(rt, header, &script)
}
