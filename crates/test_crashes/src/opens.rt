//! Desks that are stopped as they are created or opened, crash, and are opened again.

use crate::crashes::shows_all;
use crate::desks::writes;
use crate::earlier::{TO_FIRST, TO_SECOND, earlier_files};
use crate::stops::{fails_from, outcome_of};
use crate::tasks::{Came, CrashTask};
use sqlite::{Alter, Connection};
use sqlite_pager::Options;
use sqlite_trees::store::Reopen;
use std::alloc::Global;
use std::io;
use table_crashes::{crash_in_open, create_and_crash, open_and_crash};
use test_doubles::{DatabaseFiles, stopping};

// More calls of the log than an open takes.
const CALLS_OF_AN_OPEN: u64 = 256;

// A new desk.
struct Create;

impl CrashTask for Create {
    fn run_over<S: Alter + Reopen + Drop>(&self, alloc: Global, conn: Connection<S>) -> Came {
        if !conn.is_autocommit() {
            return Came::NoDesk;
        }
        let (done, again) = create_and_crash(alloc, conn, 1);
        match again {
            Some(mut desk) => {
                let is_new = writes(alloc, &mut desk, "@report foo 1 normal a\n", "OK 1\n");
                outcome_of(done.is_ok(), is_new, false)
            }
            None => outcome_of(done.is_ok(), false, true),
        }
    }
}

// The files whose desk is opened, after a crash, and whether it was answered as opened; `None`
// where no database is opened or comes back.
fn crashed(alloc: Global, files: DatabaseFiles) -> Option<(bool, DatabaseFiles)> {
    if !files.may_be_used() {
        return None;
    }
    match Connection::open_files(alloc, files, Options::new(1)) {
        Ok(conn) => {
            let (answered, left) = crash_in_open(alloc, conn);
            match left {
                Some(store) => Some((answered.is_ok(), store.close())),
                None => None,
            }
        }
        Err(_) => None,
    }
}

// What comes of files whose desk is opened, with a crash right after it.
fn found(alloc: Global, files: DatabaseFiles) -> Came {
    if !files.may_be_used() {
        return Came::NoDesk;
    }
    match Connection::open_files(alloc, files, Options::new(1)) {
        Ok(conn) => {
            let (answered, again) = open_and_crash(alloc, conn);
            outcome_of(answered.is_ok(), shows_all(alloc, again), false)
        }
        Err(_) => Came::NoDesk,
    }
}

// Whether the desk is found in files whose log stops again as they are opened, after so many calls
// and after half of these.
fn is_found_again(alloc: Global, files: &DatabaseFiles, calls: u64) -> io::Result<bool> {
    for again in [calls / 2, calls] {
        let files = stopping(alloc, files, true, again)?;
        if found(alloc, files) == Came::Wrong {
            return Ok(false);
        }
    }
    Ok(true)
}

// Whether the log stops some open of the desk, and the desk is found after each, and after another
// stop; each has one call of the log more.
fn survives_stops(alloc: Global, base: &DatabaseFiles) -> io::Result<bool> {
    let mut has_failed = false;
    for calls in 0..CALLS_OF_AN_OPEN {
        let files = stopping(alloc, base, true, calls)?;
        if let Some((answered, left)) = crashed(alloc, files) {
            if !is_found_again(alloc, &left, calls)? {
                return Ok(false);
            }
            if answered {
                return Ok(has_failed);
            }
            has_failed = true;
        }
    }
    Ok(false)
}

// Whether a desk whose tables were taken back survives each stop as it is opened.
fn earlier_survives(alloc: Global, back: &str) -> bool {
    match earlier_files(alloc, back) {
        Some(base) => matches!(survives_stops(alloc, &base), Ok(true)),
        None => false,
    }
}

#[test]
fn a_new_desk_is_there_as_a_whole_or_not_at_all(rt: HostRuntime) {
    assert!(rt; fails_from(rt.alloc(), 0, &Create));
}

#[test]
fn a_desk_of_schema_1_is_found_after_two_crashes(rt: HostRuntime) {
    assert!(rt; earlier_survives(rt.alloc(), TO_FIRST));
}

#[test]
fn a_desk_of_schema_2_is_found_after_two_crashes(rt: HostRuntime) {
    assert!(rt; earlier_survives(rt.alloc(), TO_SECOND));
}
