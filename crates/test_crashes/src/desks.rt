//! Desks in tables over a connection, and what they answer.

use desk_tables::TableDesk;
use sqlite::{Alter, Connection};
use std::alloc::Global;
use store_contract::Records;
use test_doubles::{answer_to, create};

/// Whether a script writes this, however it ends.
pub(crate) fn writes<R: Records>(alloc: Global, store: &mut R, script: &str, text: &str) -> bool {
    answer_to(alloc, store, script).as_slice() == text.as_bytes()
}

/// A new desk after a script that writes this; `None` where it writes something else, or there is
/// no desk.
pub(crate) fn desk_after<S: Alter + Drop>(
    alloc: Global,
    conn: Connection<S>,
    script: &str,
    text: &str,
) -> Option<TableDesk<S>> {
    let mut desk = match create(alloc, conn, 1) {
        Ok(desk) => desk,
        Err(_) => return None,
    };
    if writes(alloc, &mut desk, script, text) {
        Some(desk)
    } else {
        None
    }
}

/// A new desk with one bug.
pub(crate) fn desk_with_bug<S: Alter + Drop>(
    alloc: Global,
    conn: Connection<S>,
) -> Option<TableDesk<S>> {
    desk_after(alloc, conn, "@report foo 1 normal a\n", "OK 1\n")
}
