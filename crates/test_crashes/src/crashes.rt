//! Desks that crash or are closed between two calls, and are opened again.

use crate::counted::Counted;
use crate::desks::{desk_after, writes};
use crate::tasks::{Came, CrashTask, over_new_files};
use desk_tables::TableDesk;
use sqlite::{Alter, Connection, FileStore, Options};
use sqlite_disk::{Disk, Files, Memory};
use sqlite_trees::store::Reopen;
use std::alloc::Global;
use table_crashes::{close_and_open, close_files, crash_and_open, crash_files, open_files};
use test_doubles::{connected, new_files};

// Two bugs that are merged, and a branch.
const SCRIPT: &str =
    "@from ann\n@branch foo/2 foo/1\n@report foo 1 normal a\n@report foo 1 normal b\nmerge 1 2\n";

const ANSWERS: &str = "OK\nOK 1\nOK 2\n> merge 1 2\nOK 1 2\n";

// Questions that show all that the script has done, and the number that the next bug gets.
const QUESTIONS: &str = "@list foo 2\nmerge 1 2\n@report foo - normal c\n";

const SHOWN: &str =
    "Bugs in foo at foo/2: 2\n        1  normal     open  a\n        2  normal     open  b\n\
    > merge 1 2\nOK, no change.\nOK 3\n";

// The script, and a crash.
struct Crash;

/// Whether there is a desk, and it is as after the script.
pub(crate) fn shows_all<S: Alter + Drop>(alloc: Global, desk: Option<TableDesk<S>>) -> bool {
    match desk {
        Some(mut desk) => writes(alloc, &mut desk, QUESTIONS, SHOWN),
        None => false,
    }
}

impl CrashTask for Crash {
    fn run_over<S: Alter + Reopen + Drop>(&self, alloc: Global, conn: Connection<S>) -> Came {
        let Some(desk) = desk_after(alloc, conn, SCRIPT, ANSWERS) else {
            return Came::NoDesk;
        };
        if shows_all(alloc, crash_and_open(alloc, desk)) {
            Came::Done
        } else {
            Came::Wrong
        }
    }
}

// A desk in two files that count their crashes.
type CountedDesk = TableDesk<FileStore<Counted<Memory>>>;

// Two empty files that count their crashes.
fn counted_files(alloc: Global) -> Files<Counted<Memory>> {
    Files {
        log: Counted::new(Memory::new(alloc)),
        db: Counted::new(Memory::new(alloc)),
    }
}

/// The desk after the script, in two new files.
pub(crate) fn desk_in_files<D: Disk + Drop>(
    alloc: Global,
    files: Files<D>,
) -> Option<TableDesk<FileStore<D>>> {
    match connected(alloc, files, Options::new(1)) {
        Ok(conn) => desk_after(alloc, conn, SCRIPT, ANSWERS),
        Err(_) => None,
    }
}

// Closes a desk, crashes, and opens what is left.
// `None` also where a file has crashed another number of times than once.
fn close_and_crash(alloc: Global, desk: CountedDesk) -> Option<CountedDesk> {
    let files = close_files(desk).ok()?;
    let files = crash_files(files);
    if (files.log.crashes(), files.db.crashes()) != (1, 1) {
        return None;
    }
    open_files(alloc, files, Options::new(1))
}

// Whether all is there after a close.
fn survives_a_close(alloc: Global) -> bool {
    match desk_in_files(alloc, new_files(alloc)) {
        Some(desk) => shows_all(alloc, close_and_open(alloc, desk, Options::new(1))),
        None => false,
    }
}

// Whether all is there after a close and a crash.
fn survives_a_crash(alloc: Global) -> bool {
    match desk_in_files(alloc, counted_files(alloc)) {
        Some(desk) => shows_all(alloc, close_and_crash(alloc, desk)),
        None => false,
    }
}

#[test]
fn a_crash_between_two_calls_loses_nothing(rt: HostRuntime) {
    assert!(rt; over_new_files(rt.alloc(), u64::MAX, &Crash) == Came::Done);
}

#[test]
fn a_desk_that_was_closed_is_found_as_it_was(rt: HostRuntime) {
    assert!(rt; survives_a_close(rt.alloc()));
}

#[test]
fn a_crash_after_a_close_loses_nothing(rt: HostRuntime) {
    assert!(rt; survives_a_crash(rt.alloc()));
}
