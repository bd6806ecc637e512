//! An outcome that is kept on a desk that is stopped within the call, crashes, and is opened again.

use crate::desks::desk_with_bug;
use crate::stops::{fails_until_done, outcome_of};
use crate::tasks::{Came, CrashTask};
use bug_record::Outcome;
use desk_tables::TableDesk;
use sqlite::{Alter, Connection};
use sqlite_trees::store::Reopen;
use std::alloc::Global;
use store_contract::Records;
use table_crashes::keep_and_crash;

// An outcome that is kept of a message.
struct Keep;

/// Keeps that the only line of a message stopped it, and crashes right after it: whether it was
/// answered, and the desk that is opened; `None` where something may be kept of the id already.
#[tactic(auto, unfolding(base_words::specs::Texts::is_text, base_words::specs::Ids::is_id))]
fn stop_and_crash<S: Alter + Reopen + Drop>(
    alloc: Global,
    desk: TableDesk<S>,
) -> Option<(bool, Option<TableDesk<S>>)> {
    let mut desk = desk;
    let Ok(kept) = desk.kept("m1") else {
        return None;
    };
    match kept {
        Some(_) => None,
        None => {
            let stopped = Outcome::Stopped;
            let (done, again) = keep_and_crash(alloc, desk, "m1", "ann", "stop", &stopped, None);
            Some((done.is_ok(), again))
        }
    }
}

// How many outcomes are kept of the message; `None` where that can't be read.
fn kept_outcomes<R: Records>(desk: &mut R) -> Option<usize> {
    match desk.kept("m1") {
        Ok(Some(kept)) => Some(kept.outcomes.as_slice().len()),
        Ok(None) => Some(0),
        Err(_) => None,
    }
}

// What came of an outcome that was answered or not, by what the desk that is opened has kept.
fn kept_on<S: Alter + Drop>(again: Option<TableDesk<S>>, answered: bool) -> Came {
    let Some(mut again) = again else {
        return Came::Wrong;
    };
    let kept = kept_outcomes(&mut again);
    outcome_of(answered, kept == Some(1), kept == Some(0))
}

impl CrashTask for Keep {
    fn run_over<S: Alter + Reopen + Drop>(&self, alloc: Global, conn: Connection<S>) -> Came {
        let Some(desk) = desk_with_bug(alloc, conn) else {
            return Came::NoDesk;
        };
        match stop_and_crash(alloc, desk) {
            Some((answered, again)) => kept_on(again, answered),
            None => Came::NoDesk,
        }
    }
}

#[test]
fn an_outcome_is_kept_as_a_whole_or_not_at_all(rt: HostRuntime) {
    assert!(rt; fails_until_done(rt.alloc(), &Keep));
}
