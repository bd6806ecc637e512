//! Files in memory, and what is done with a connection over files.

use crate::room::Room;
use sqlite::Connection;
use sqlite_disk::{Disk, Files, Fuse, Memory};
use sqlite_pager::Options;
use sqlite_store::FileStore;
use std::alloc::Global;
use std::{fs, io};

/// A file in memory, with so much room and so many calls left.
pub type MemoryFile = Fuse<Room<Memory>>;

/// The two files of a database.
pub type DatabaseFiles = Files<MemoryFile>;

/// Two empty files.
pub fn new_files(alloc: Global) -> DatabaseFiles {
    Files {
        log: Fuse::new(Room::new(Memory::new(alloc), usize::MAX), u64::MAX),
        db: Fuse::new(Room::new(Memory::new(alloc), usize::MAX), u64::MAX),
    }
}

// A file in memory with these bytes, which has so much room and passes so many calls on.
fn file_within(alloc: Global, bytes: &[u8], room: usize, calls: u64) -> io::Result<MemoryFile> {
    let mut file = Memory::new(alloc);
    file.write_at(0, bytes)?;
    file.sync()?;
    Ok(Fuse::new(Room::new(file, room), calls))
}

/// A file in memory with these bytes, which passes so many calls on.
pub fn file_of(alloc: Global, bytes: &[u8], calls: u64) -> io::Result<MemoryFile> {
    file_within(alloc, bytes, usize::MAX, calls)
}

/// The bytes of a file.
pub fn bytes_of(file: &MemoryFile) -> &[u8] {
    file.inner().inner().bytes()
}

/// Files with these bytes, which pass all calls on.
pub fn files_with(alloc: Global, log: &[u8], db: &[u8]) -> io::Result<DatabaseFiles> {
    let log = file_of(alloc, log, u64::MAX)?;
    let db = file_of(alloc, db, u64::MAX)?;
    Ok(Files { log, db })
}

/// A file of data, with an empty log beside it.
pub fn files_in(rt: &HostRuntime, name: &str) -> io::Result<DatabaseFiles> {
    let bytes = fs::read(rt, name)?;
    files_with(rt.alloc(), &[], &bytes)
}

/// Files with the bytes of these, which pass so many calls on: the log, and the other.
pub fn copy_of(
    alloc: Global,
    files: &DatabaseFiles,
    log: u64,
    db: u64,
) -> io::Result<DatabaseFiles> {
    let log = file_of(alloc, bytes_of(&files.log), log)?;
    let db = file_of(alloc, bytes_of(&files.db), db)?;
    Ok(Files { log, db })
}

/// Files with the bytes of these, of which the log has room for so many bytes more, or for all.
pub fn with_room(
    alloc: Global,
    files: &DatabaseFiles,
    more: Option<usize>,
) -> io::Result<DatabaseFiles> {
    let held = bytes_of(&files.log);
    let room = match more {
        Some(more) => held.len().saturating_add(more),
        None => usize::MAX,
    };
    let log = file_within(alloc, held, room, u64::MAX)?;
    let db = file_of(alloc, bytes_of(&files.db), u64::MAX)?;
    Ok(Files { log, db })
}

/// A connection over files, or the files back where they can't be opened.
pub fn connected<D: Disk + Drop>(
    alloc: Global,
    files: Files<D>,
    options: Options,
) -> Result<Connection<FileStore<D>>, Files<D>> {
    if !files.may_be_used() {
        return Err(files);
    }
    match Connection::open_files(alloc, files, options) {
        Ok(conn) => Ok(conn),
        Err((_, left)) => Err(left.into_files()),
    }
}
