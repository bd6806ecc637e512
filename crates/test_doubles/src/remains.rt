//! What files hold once their use has ended at some call.

use crate::memory_files::{DatabaseFiles, MemoryFile, bytes_of};
use sqlite_disk::Crash;
use std::alloc::{AllocError, Global};

/// What a file holds as it is, and once the machine has stopped.
#[derive(Drop)]
pub struct FileRemains {
    pub written: Vec<u8>,
    pub synced: Vec<u8>,
}

/// What the two files of a database hold.
#[derive(Drop)]
pub struct DatabaseRemains {
    pub log: FileRemains,
    pub db: FileRemains,
}

// What a file holds, for which the machine stops.
fn remains_of_file(alloc: Global, file: &mut MemoryFile) -> Result<FileRemains, AllocError> {
    let written = Vec::from_slice(alloc, bytes_of(file))?;
    file.crash();
    let synced = Vec::from_slice(alloc, bytes_of(file))?;
    Ok(FileRemains { written, synced })
}

// What the two files hold, for which the machine stops.
fn remains_of_both(
    alloc: Global,
    files: &mut DatabaseFiles,
) -> Result<DatabaseRemains, AllocError> {
    let log = remains_of_file(alloc, &mut files.log)?;
    let db = remains_of_file(alloc, &mut files.db)?;
    Ok(DatabaseRemains { log, db })
}

/// What the two files of a database hold.
pub fn remains_of(alloc: Global, files: DatabaseFiles) -> Result<DatabaseRemains, AllocError> {
    let mut files = files;
    remains_of_both(alloc, &mut files)
}
