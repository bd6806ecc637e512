//! Files of which one stops after so many calls.

use crate::memory_files::{DatabaseFiles, MemoryFile, copy_of};
use sqlite_disk::Disk;
use sqlite_pager::Options;
use std::alloc::Global;
use std::io;

/// Little memory and a short log, so that pages spill and are copied into the database file.
const TIGHT: Options = Options {
    cache_pages: 4,
    spill_pages: 4,
    checkpoint_frames: 8,
    seed: 1,
};

/// Which file stops, and how the files are used.
#[derive(Clone, Copy)]
pub struct StopSetting {
    pub is_log: bool,
    pub options: Options,
}

/// What a line asks for: `log` or `database`, with `tight` after it for little memory; nothing
/// where it is another line.
pub fn setting_of(line: &str) -> Option<StopSetting> {
    let (file, rest) = line.split_once(' ').unwrap_or((line, ""));
    let options = match rest {
        "tight" => TIGHT,
        _ => Options::new(1),
    };
    match file {
        "log" => Some(StopSetting {
            is_log: true,
            options,
        }),
        "database" => Some(StopSetting {
            is_log: false,
            options,
        }),
        _ => None,
    }
}

// Whether a file passes a further call on.
fn passes_on(file: &mut MemoryFile) -> bool {
    file.may_be_used() && file.len().is_ok()
}

/// The files of a base, of which one stops after so many calls.
pub fn stopping(
    alloc: Global,
    base: &DatabaseFiles,
    is_log: bool,
    calls: u64,
) -> io::Result<DatabaseFiles> {
    if is_log {
        copy_of(alloc, base, calls, u64::MAX)
    } else {
        copy_of(alloc, base, u64::MAX, calls)
    }
}

/// Whether the file that stops passes a further call on.
pub fn goes_on(files: &mut DatabaseFiles, is_log: bool) -> bool {
    if is_log {
        passes_on(&mut files.log)
    } else {
        passes_on(&mut files.db)
    }
}
