//! Files with a desk under an earlier schema.

use crate::crashes::desk_in_files;
use std::alloc::Global;
use test_doubles::{DatabaseFiles, new_files};

/// What takes tables of schema 3 back to schema 2, which has none of messages.
pub(crate) const TO_SECOND: &str =
    "DROP TABLE outcome_numbers; DROP TABLE outcomes; DROP TABLE messages; UPDATE meta SET schema = 2";

/// What takes them back to schema 1, which has none of the packages that are affected either.
pub(crate) const TO_FIRST: &str =
    "DROP TABLE outcome_numbers; DROP TABLE outcomes; DROP TABLE messages; DROP TABLE affects; \
    UPDATE meta SET schema = 1";

/// Files with the desk after the script, closed once its tables were taken back by these
/// statements.
pub(crate) fn earlier_files(alloc: Global, back: &str) -> Option<DatabaseFiles> {
    let Some(desk) = desk_in_files(alloc, new_files(alloc)) else {
        return None;
    };
    let mut conn = desk.close();
    match conn.execute_batch(back) {
        Ok(()) => {}
        Err(_) => return None,
    }
    match conn.close_files() {
        Ok(files) => Some(files),
        Err((_, store)) => {
            drop(store.close());
            None
        }
    }
}
