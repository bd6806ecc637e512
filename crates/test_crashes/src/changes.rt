//! A branch or a report on a desk that is stopped within the call, crashes, and is opened again.

use crate::desks::{desk_with_bug, writes};
use crate::stops::{fails_until_done, outcome_of};
use crate::tasks::{Came, CrashTask};
use base_words::AFTER_LARGEST;
use bug_core::report_change;
use bug_record::Severity;
use debver::Text;
use desk_tables::TableDesk;
use sqlite::{Alter, Connection};
use sqlite_trees::store::Reopen;
use std::alloc::Global;
use store_contract::Records;
use table_crashes::{apply_and_crash, branch_and_crash};
use version_nodes::{Node, NodeFault};

// A branch of these nodes.
#[derive(Clone, Copy)]
struct Branch<'a> {
    nodes: &'a [Node],
}

// The report of a second bug.
struct Report;

// The nodes of a branch in which version 2 is based on version 1.
fn nodes_of_a_branch(alloc: Global) -> Result<Vec<Node>, NodeFault> {
    let mut nodes = Vec::new(alloc);
    for text in ["foo/2", "foo/1"] {
        let node = Node::read(alloc, text)?;
        if nodes.push(node).is_err() {
            return Err(NodeFault::Memory);
        }
    }
    Ok(nodes)
}

// The report of a second bug, and a crash right after it: whether it was answered, and the desk
// that is opened; `None` where it is not reported.
#[tactic(auto, unfolding(base_words::specs::Texts::is_text))]
fn report_and_crash<S: Alter + Reopen + Drop>(
    alloc: Global,
    desk: TableDesk<S>,
) -> Option<(bool, Option<TableDesk<S>>)> {
    let mut desk = desk;
    let next = match desk.next() {
        Ok(next) => next,
        Err(_) => return None,
    };
    if next >= AFTER_LARGEST {
        return None;
    }
    let Ok(from) = Text::of(alloc, "ann") else {
        return None;
    };
    let Ok(change) = report_change(alloc, &from, "foo", Severity::Normal, "b", None, next) else {
        return None;
    };
    let (done, again) = apply_and_crash(alloc, desk, &change);
    Some((done.is_ok(), again))
}

// What came of a call that was answered or not, by what the desk that is opened writes: one text
// after the call, and another one before it.
fn shown_by<S: Alter + Drop>(
    alloc: Global,
    again: Option<TableDesk<S>>,
    answered: bool,
    question: &str,
    after: &str,
    before: &str,
) -> Came {
    let Some(mut again) = again else {
        return Came::Wrong;
    };
    let is_after = writes(alloc, &mut again, question, after);
    let is_before = writes(alloc, &mut again, question, before);
    outcome_of(answered, is_after, is_before)
}

impl CrashTask for Branch<'_> {
    fn run_over<S: Alter + Reopen + Drop>(&self, alloc: Global, conn: Connection<S>) -> Came {
        let Some(desk) = desk_with_bug(alloc, conn) else {
            return Came::NoDesk;
        };
        let (done, again) = branch_and_crash(alloc, desk, self.nodes);
        let there = "Bugs in foo at foo/2: 1\n        1  normal     open  a\n";
        let absent = "Bugs in foo at foo/2: 0\n";
        let answered = matches!(done, Ok(Ok(())));
        shown_by(alloc, again, answered, "@list foo 2\n", there, absent)
    }
}

impl CrashTask for Report {
    fn run_over<S: Alter + Reopen + Drop>(&self, alloc: Global, conn: Connection<S>) -> Came {
        let Some(desk) = desk_with_bug(alloc, conn) else {
            return Came::NoDesk;
        };
        let Some((answered, again)) = report_and_crash(alloc, desk) else {
            return Came::NoDesk;
        };
        let there = "> severity 2 normal\nOK, no change.\n";
        let absent = "> severity 2 normal\nNO no such bug 2\n";
        shown_by(alloc, again, answered, "severity 2 normal\n", there, absent)
    }
}

#[test]
fn a_branch_is_there_as_a_whole_or_not_at_all(rt: HostRuntime) {
    let alloc = rt.alloc();
    match nodes_of_a_branch(alloc) {
        Ok(nodes) => {
            let task = Branch {
                nodes: nodes.as_slice(),
            };
            assert!(rt; fails_until_done(alloc, &task));
        }
        Err(_) => assert!(rt; false),
    }
}

#[test]
fn a_report_is_there_as_a_whole_or_not_at_all(rt: HostRuntime) {
    assert!(rt; fails_until_done(rt.alloc(), &Report));
}
