//! What is done on a desk or on a connection, whatever keeps it, and what it is done on.
//!
//! The desks and connections are made and let go of here, so that a program owns none of them.

use crate::made_desks::{MadeDesk, new_desk, open};
use crate::memory_files::{connected, files_with};
use base_faults::StoreFault;
use desk_run::{FailAt, PlainDesk, Records};
use sqlite::{Alter, Connection};
use sqlite_disk::{Disk, Files};
use sqlite_pager::Options;
use std::alloc::Global;
use std::io;

/// What is done on a desk, whatever keeps it.
pub trait DeskTask<T> {
    /// Does it, and notes what comes of it.
    fn run_on<R: Records>(&self, alloc: Global, desk: &mut R, told: &mut T);
}

/// What is done on a connection, whatever its store.
pub trait ConnectionTask<T> {
    /// Does it, notes what comes of it, and hands the connection back.
    fn run_over<S: Alter>(&self, alloc: Global, conn: Connection<S>, told: &mut T) -> Connection<S>;
}

/// Does a task on a new desk in memory.
pub fn in_memory<T, K: DeskTask<T>>(alloc: Global, task: &K, told: &mut T) {
    let mut desk = PlainDesk::new(alloc, 1);
    task.run_on(alloc, &mut desk, told);
}

// Does a task on a desk, of whose calls that change or keep something one fails.
fn on_failing<R: Records + Drop, T, K: DeskTask<T>>(
    alloc: Global,
    desk: R,
    call: u64,
    fault: StoreFault,
    task: &K,
    told: &mut T,
) {
    let mut desk = FailAt::new(desk, call, fault);
    task.run_on(alloc, &mut desk, told);
}

/// Does a task on a new desk in memory, of whose calls that change or keep something one fails, by
/// this fault.
pub fn in_memory_failing<T, K: DeskTask<T>>(
    alloc: Global,
    call: u64,
    fault: StoreFault,
    task: &K,
    told: &mut T,
) {
    on_failing(alloc, PlainDesk::new(alloc, 1), call, fault, task, told);
}

/// Does a task on a desk that was made, and closes it; nothing where there is none.
pub fn on_made<S: Alter, T, K: DeskTask<T>>(
    alloc: Global,
    made: MadeDesk<S>,
    task: &K,
    told: &mut T,
) -> Connection<S> {
    match made {
        Ok(desk) => {
            let mut desk = desk;
            task.run_on(alloc, &mut desk, told);
            desk.close()
        }
        Err((_, conn)) => conn,
    }
}

// Does a task on a connection, and hands its store back.
fn store_after<S: Alter + Drop, T, K: ConnectionTask<T>>(
    alloc: Global,
    conn: Connection<S>,
    task: &K,
    told: &mut T,
) -> S {
    task.run_over(alloc, conn, told).into_store()
}

/// Does a task on a connection over files, and hands the files back; nothing where they can't be
/// opened.
pub fn over_files<D: Disk + Drop, T, K: ConnectionTask<T>>(
    alloc: Global,
    files: Files<D>,
    options: Options,
    task: &K,
    told: &mut T,
) -> Files<D> {
    match connected(alloc, files, options) {
        Ok(conn) => store_after(alloc, conn, task, told).close(),
        Err(files) => files,
    }
}

/// Does a task on a connection over files with these bytes; nothing where they can't be opened.
pub fn over_bytes<T, K: ConnectionTask<T>>(
    alloc: Global,
    log: &[u8],
    db: &[u8],
    options: Options,
    task: &K,
    told: &mut T,
) -> io::Result<()> {
    let files = files_with(alloc, log, db)?;
    drop(over_files(alloc, files, options, task, told));
    Ok(())
}

// Does a task on the desk of a connection, of whose calls that change or keep something one fails.
fn on_failing_of<S: Alter + Drop, T, K: DeskTask<T>>(
    alloc: Global,
    conn: Connection<S>,
    call: u64,
    fault: StoreFault,
    task: &K,
    told: &mut T,
) {
    match open(alloc, conn) {
        Ok(desk) => on_failing(alloc, desk, call, fault, task, told),
        Err(_) => {}
    }
}

// Does a task on the desk in files, of whose calls that change or keep something one fails.
fn over_failing<D: Disk + Drop, T, K: DeskTask<T>>(
    alloc: Global,
    files: Files<D>,
    call: u64,
    fault: StoreFault,
    task: &K,
    told: &mut T,
) {
    match connected(alloc, files, Options::new(1)) {
        Ok(conn) => on_failing_of(alloc, conn, call, fault, task, told),
        Err(_) => {}
    }
}

/// Does a task on a new desk in tables, of whose calls that change or keep something one fails, by
/// this fault; nothing where there is no such desk.
pub fn in_tables_failing<T, K: DeskTask<T>>(
    alloc: Global,
    call: u64,
    fault: StoreFault,
    task: &K,
    told: &mut T,
) {
    over_failing(alloc, new_desk(alloc), call, fault, task, told);
}
