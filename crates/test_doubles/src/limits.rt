//! Files of which the log passes only so many calls on once they are opened.

use crate::memory_files::{DatabaseFiles, copy_of};
use crate::tasks::{ConnectionTask, over_files};
use sqlite::{Alter, Connection};
use sqlite_pager::Options;
use std::alloc::Global;
use std::io;

// Notes that there is a connection.
struct Opening;

impl ConnectionTask<bool> for Opening {
    fn run_over<S: Alter>(
        &self,
        _alloc: Global,
        conn: Connection<S>,
        is_open: &mut bool,
    ) -> Connection<S> {
        *is_open = true;
        conn
    }
}

// Whether files can be opened.
fn can_be_opened(alloc: Global, files: DatabaseFiles) -> bool {
    let mut is_open = false;
    drop(over_files(alloc, files, Options::new(1), &Opening, &mut is_open));
    is_open
}

// The fewest calls of the log with which files can be opened.
fn fewest_calls(alloc: Global, files: &DatabaseFiles) -> io::Result<u64> {
    let (mut low, mut high) = (0u64, 512u64);
    for _ in 0..10 {
        let middle = low.midpoint(high);
        if can_be_opened(alloc, copy_of(alloc, files, middle, u64::MAX)?) {
            high = middle;
        } else {
            low = middle.saturating_add(1);
        }
    }
    Ok(high)
}

/// Files with the bytes of these, of which the log passes so many calls on once they are opened, or
/// all of them.
pub fn limited(
    alloc: Global,
    files: &DatabaseFiles,
    calls: Option<u64>,
) -> io::Result<DatabaseFiles> {
    match calls {
        Some(calls) => {
            let opening = fewest_calls(alloc, files)?;
            copy_of(alloc, files, opening.saturating_add(calls), u64::MAX)
        }
        None => copy_of(alloc, files, u64::MAX, u64::MAX),
    }
}
