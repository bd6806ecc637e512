//! How a desk is made over a connection, or found there.

use crate::memory_files::{DatabaseFiles, new_files};
use crate::tasks::{ConnectionTask, over_files};
use base_words::LARGEST_NUMBER;
use desk_tables::{OpenFault, TableDesk};
use sqlite::{Alter, Connection};
use sqlite_pager::Options;
use std::alloc::Global;

/// A desk, or the connection with what kept it from being one: nothing where it was not asked, in a
/// transaction that is open.
pub type MadeDesk<S> = Result<TableDesk<S>, (Option<OpenFault>, Connection<S>)>;

// Creates a desk, and closes it.
struct Creation;

/// Creates a desk, whose first bug gets the number that is nearest to this one.
pub fn create<S: Alter>(alloc: Global, conn: Connection<S>, first: u64) -> MadeDesk<S> {
    if !conn.is_autocommit() {
        return Err((None, conn));
    }
    match TableDesk::create(alloc, conn, first.clamp(1, LARGEST_NUMBER)) {
        Ok(desk) => Ok(desk),
        Err((fault, conn)) => Err((Some(fault), conn)),
    }
}

/// Opens the desk.
pub fn open<S: Alter>(alloc: Global, conn: Connection<S>) -> MadeDesk<S> {
    if !conn.is_autocommit() {
        return Err((None, conn));
    }
    match TableDesk::open(alloc, conn) {
        Ok(desk) => Ok(desk),
        Err((fault, conn)) => Err((Some(fault), conn)),
    }
}

impl ConnectionTask<()> for Creation {
    fn run_over<S: Alter>(
        &self,
        alloc: Global,
        conn: Connection<S>,
        _told: &mut (),
    ) -> Connection<S> {
        match create(alloc, conn, 1) {
            Ok(desk) => desk.close(),
            Err((_, conn)) => conn,
        }
    }
}

/// Files with a new desk.
pub fn new_desk(alloc: Global) -> DatabaseFiles {
    over_files(alloc, new_files(alloc), Options::new(1), &Creation, &mut ())
}
