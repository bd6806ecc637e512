//! Stores that fail once: what such a change was to do is left as it was before.

use crate::scripts::writes;
use base_faults::StoreFault;
use desk_run::{ScriptEnd, ScriptFault};
use memory_desk::PlainDesk;
use std::alloc::Global;
use store_contract::Records;
use store_failing::FailAt;
use test_doubles::answer_to;

/// Reports of three bugs of the package foo, with version 1 and severity normal.
pub(crate) const REPORTS: &str =
    "@from ann\n@report foo 1 normal a\n@report foo 1 normal b\n@report foo 1 normal c\n";

/// A store of three bugs that fails at its second change.
pub(crate) fn failing(alloc: Global) -> FailAt<PlainDesk> {
    let mut desk = PlainDesk::new(alloc, 1);
    drop(answer_to(alloc, &mut desk, REPORTS));
    FailAt::new(desk, 2, StoreFault::Device)
}

// Whether the store fails in a script, which writes this.
fn has_failed(alloc: Global, store: &mut FailAt<PlainDesk>, script: &str, answers: &str) -> bool {
    let end = Err(ScriptFault::Store(StoreFault::Device));
    writes(alloc, store, script.as_bytes(), end, answers) && store.faults() == 1
}

// Whether a script after that writes this, and the store does not fail again.
fn goes_on(alloc: Global, store: &mut FailAt<PlainDesk>, script: &str, answers: &str) -> bool {
    answer_to(alloc, store, script).as_slice() == answers.as_bytes() && store.faults() == 1
}

// Whether a script at whose second change the store fails, after the reports, writes this, and
// another one after it that.
fn fails_so(
    alloc: Global,
    script: &str,
    answers: &str,
    next_script: &str,
    next_answers: &str,
) -> bool {
    let mut store = failing(alloc);
    has_failed(alloc, &mut store, script, answers)
        && goes_on(alloc, &mut store, next_script, next_answers)
}

// What is tried, a script at whose second change the store fails, after the reports, and what it
// writes; and then another one, and what that writes.
const FAILURES: [(&str, &str, &str, &str, &str); 6] = [
    (
        "a command changes nothing",
        "severity 1 grave\nseverity 2 grave\nseverity 3 grave\n@from ann\nclose 3\n",
        "> severity 1 grave\nOK 1\n> severity 2 grave\nStore fault: device.\n",
        "severity 2 normal\nseverity 3 normal\nclose 3\n",
        "> severity 2 normal\nOK, no change.\n> severity 3 normal\nOK, no change.\n> close 3\nOK 3\n",
    ),
    (
        "a merge joins nothing",
        "close 3\nmerge 1 2\n",
        "> close 3\nOK 3\n> merge 1 2\nStore fault: device.\n",
        "severity 1 grave\nunmerge 2\n",
        "> severity 1 grave\nOK 1\n> unmerge 2\nNO bug 2 is not merged\n",
    ),
    (
        "a report adds no bug",
        "@report foo 1 normal d\n@report foo 1 normal e\n@report foo 1 normal f\n",
        "OK 4\nStore fault: device.\n",
        "close 5\n@report foo 1 normal e\n",
        "> close 5\nNO no such bug 5\nOK 5\n",
    ),
    (
        "a clone adds no bug",
        "close 3\nclone 1 -1 -2\nretitle -1 x\n",
        "> close 3\nOK 3\n> clone 1 -1 -2\nStore fault: device.\n",
        "close 3\nretitle 4 x\nretitle -1 x\nclone 1 -1 -2\n",
        "> close 3\nOK, no change.\n> retitle 4 x\nNO no such bug 4\n\
        > retitle -1 x\nNO no such name -1\n> clone 1 -1 -2\nOK 4 5\n",
    ),
    // The failed branch leaves foo/3 without a parent: it can have another one.
    (
        "a branch is not taken",
        "@branch foo/2 foo/1\n@branch foo/3 foo/2\n@branch foo/4 foo/3\n",
        "OK\nStore fault: device.\n",
        "@branch foo/3 foo/1\n",
        "OK\n",
    ),
    (
        "a line that changes nothing writes nothing",
        "close 1\nclose 1\nseverity 1 normal\nseverity 1 minor\n",
        "> close 1\nOK 1\n> close 1\nOK, no change.\n> severity 1 normal\nOK, no change.\n\
        > severity 1 minor\nStore fault: device.\n",
        "severity 1 normal\n",
        "> severity 1 normal\nOK, no change.\n",
    ),
];

#[test]
fn a_change_at_which_the_store_fails_leaves_the_desk_as_before(rt: HostRuntime) {
    for (name, script, answers, next, next_answers) in FAILURES.iter() {
        assert!(rt;
            fails_so(rt.alloc(), script, answers, next, next_answers),
            "{name}"
        );
    }
}

// How many faults a store has had that fails at no change, after the reports; `None` where these
// have not their answers.
fn faults_of_none(alloc: Global) -> Option<u64> {
    let mut store = FailAt::new(PlainDesk::new(alloc, 1), 0, StoreFault::Device);
    let end = Ok(ScriptEnd::Accepted);
    let answers = "OK 1\nOK 2\nOK 3\n";
    writes(alloc, &mut store, REPORTS.as_bytes(), end, answers).then_some(store.faults())
}

#[test]
fn no_change_fails_where_none_is_to(rt: HostRuntime) {
    assert!(rt; faults_of_none(rt.alloc()) == Some(0));
}
