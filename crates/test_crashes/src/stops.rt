//! Calls of a file that stop sooner and later, and what comes of a desk over it.

use crate::desks::desk_with_bug;
use crate::tasks::{Came, CrashTask, over_new_files};
use sqlite::{Alter, Connection};
use sqlite_trees::store::Reopen;
use std::alloc::Global;

// More calls of the log than a desk with one bug takes.
const CALLS_OF_A_DESK: u64 = 4_096;

// More calls of the log than a branch, a report or an outcome takes.
const CALLS_OF_ONE_CALL: u64 = 256;

// A desk with one bug, and no more.
struct OneBug;

impl CrashTask for OneBug {
    fn run_over<S: Alter + Reopen + Drop>(&self, alloc: Global, conn: Connection<S>) -> Came {
        match desk_with_bug(alloc, conn) {
            Some(_desk) => Came::Done,
            None => Came::NoDesk,
        }
    }
}

/// What comes of a call that was answered or not, by whether the desk that is opened is the one
/// after it, or the one before it.
pub(crate) fn outcome_of(answered: bool, is_after: bool, is_before: bool) -> Came {
    if answered && is_after {
        Came::Done
    } else if !answered && (is_after || is_before) {
        Came::Failed
    } else {
        Came::Wrong
    }
}

// The fewest calls of the log that suffice for a desk with one bug.
fn fewest_calls(alloc: Global) -> u64 {
    let (mut low, mut high) = (0u64, CALLS_OF_A_DESK);
    for _ in 0..12 {
        let middle = low.midpoint(high);
        if over_new_files(alloc, middle, &OneBug) == Came::Done {
            high = middle;
        } else {
            low = middle.saturating_add(1);
        }
    }
    high
}

/// Whether some run of a task fails, and then one is done, and none before ends wrongly, from so
/// many calls of the log on, each with one more.
pub(crate) fn fails_from<K: CrashTask>(alloc: Global, fewest: u64, task: &K) -> bool {
    let mut has_failed = false;
    for more in 0..CALLS_OF_ONE_CALL {
        match over_new_files(alloc, fewest.saturating_add(more), task) {
            Came::NoDesk => {}
            Came::Failed => has_failed = true,
            Came::Done => return has_failed,
            Came::Wrong => return false,
        }
    }
    false
}

/// The same of a task on a desk with one bug, from the calls on that this desk takes.
pub(crate) fn fails_until_done<K: CrashTask>(alloc: Global, task: &K) -> bool {
    fails_from(alloc, fewest_calls(alloc), task)
}
