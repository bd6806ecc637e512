//! What is done over a connection to files in memory that stop, and what came of it.

use sqlite::{Alter, Connection};
use sqlite_disk::{Files, Fuse, Memory};
use sqlite_pager::Options;
use sqlite_trees::store::Reopen;
use std::alloc::Global;
use test_doubles::connected;

/// What comes of a call after so many calls of a file, and a crash.
#[derive(Clone, Copy, PartialEq, Eq)]
pub(crate) enum Came {
    /// There was no desk yet.
    NoDesk,
    /// The call failed, and what is opened is the desk before or after it.
    Failed,
    /// The call was answered, and what is opened is the desk after it.
    Done,
    /// Anything else.
    Wrong,
}

/// What is done over a connection, whatever its store.
pub(crate) trait CrashTask {
    /// Does it, and tells what came of it.
    fn run_over<S: Alter + Reopen + Drop>(&self, alloc: Global, conn: Connection<S>) -> Came;
}

// Two empty files in memory, of which the log passes so many calls on, and the other file all.
fn new_files(alloc: Global, calls: u64) -> Files<Fuse<Memory>> {
    Files {
        log: Fuse::new(Memory::new(alloc), calls),
        db: Fuse::new(Memory::new(alloc), u64::MAX),
    }
}

/// Does a task over new files, of which the log passes so many calls on.
pub(crate) fn over_new_files<K: CrashTask>(alloc: Global, calls: u64, task: &K) -> Came {
    match connected(alloc, new_files(alloc, calls), Options::new(1)) {
        Ok(conn) => task.run_over(alloc, conn),
        Err(_) => Came::NoDesk,
    }
}
