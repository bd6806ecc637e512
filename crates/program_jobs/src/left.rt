//! What is left of the files of a job.

use sqlite::{Error, FileStore, Files, Leftover};
use sqlite_disk::Disk;

/// What is left of the two files of a desk once its job has ended.
/// Dropped, it closes them, and up to then no other process can open them.
pub enum LeftFiles<D: Disk> {
    /// The job had no desk in a file, or no file was opened.
    Nothing,
    /// The two files, of which nothing but a length was asked.
    Untouched(Files<D>),
    /// What is left of files to which no connection could be made.
    Unconnected(Leftover<D>),
    /// The two files: the log is copied into the database file.
    Copied(Files<D>),
    /// The log could not be copied, for this error.
    Uncopied(Error, FileStore<D>),
}

// It is written out, so that a caller does not prove again how each part is dropped.
impl<D: Disk + Drop> Drop for LeftFiles<D> {
    fn drop(self) {
        match self {
            LeftFiles::Nothing => {}
            LeftFiles::Untouched(_files) => {}
            LeftFiles::Unconnected(_rest) => {}
            LeftFiles::Copied(_files) => {}
            LeftFiles::Uncopied(_error, _store) => {}
        }
    }
}
