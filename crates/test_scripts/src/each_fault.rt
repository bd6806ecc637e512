//! Each fault of a store, at each call that a script makes of it.

use crate::failing_store::FailsAtAnyCall;
use crate::scripts::writes;
use base_faults::StoreFault;
use desk_run::{ScriptEnd, ScriptFault, run_script};
use memory_desk::PlainDesk;
use std::alloc::Global;
use std::process::Abort;

// Two reports, a merge, two commands for both bugs, and a branch: sixteen calls of the store.
const SCRIPT: &str =
    "@report foo 1 normal a\n@report foo 1 normal b\nmerge 1 2\nclose 1\narchive 1\n@branch foo/2 foo/1\n";

// What is written up to the merge, the closing and the archiving.
const MERGE: &str = "OK 1\nOK 2\n> merge 1 2\n";

const CLOSE: &str = "OK 1\nOK 2\n> merge 1 2\nOK 1 2\n> close 1\n";

const ARCHIVE: &str = "OK 1\nOK 2\n> merge 1 2\nOK 1 2\n> close 1\nOK 1 2\n> archive 1\n";

const ARCHIVED: &str = "OK 1\nOK 2\n> merge 1 2\nOK 1 2\n> close 1\nOK 1 2\n> archive 1\nOK 1 2\n";

// What is written where a call fails, before the line of the fault.
const BEFORE: [(u64, &str); 16] = [
    (1, ""),
    (2, ""),
    (3, "OK 1\n"),
    (4, "OK 1\n"),
    (5, MERGE),
    (6, MERGE),
    (7, MERGE),
    (8, MERGE),
    (9, CLOSE),
    (10, CLOSE),
    (11, CLOSE),
    (12, ARCHIVE),
    (13, ARCHIVE),
    (14, ARCHIVE),
    (15, ARCHIVE),
    (16, ARCHIVED),
];

// A report, two clones with names, and a command for one of them: eight calls of the store.
const CLONES: &str = "@report foo 1 normal a\nclone 1 -1 -2\nretitle -2 b\n";

// What is written of it where a call fails, before the line of the fault.
const BEFORE_IN_CLONES: [(u64, &str); 8] = [
    (1, ""),
    (2, ""),
    (3, "OK 1\n> clone 1 -1 -2\n"),
    (4, "OK 1\n> clone 1 -1 -2\n"),
    (5, "OK 1\n> clone 1 -1 -2\n"),
    (6, "OK 1\n> clone 1 -1 -2\nOK 2 3\n> retitle -2 b\n"),
    (7, "OK 1\n> clone 1 -1 -2\nOK 2 3\n> retitle -2 b\n"),
    (8, "OK 1\n> clone 1 -1 -2\nOK 2 3\n> retitle -2 b\n"),
];

// A report, a list and a page: five calls of the store.
const QUESTIONS: &str = "@report foo 1 normal a\n@list foo 1\n@show 1\n";

// What is written up to the list.
const LIST: &str = "OK 1\nBugs in foo at foo/1: 1\n        1  normal     open  a\n";

// What is written of it where a call fails, before the line of the fault.
const BEFORE_IN_QUESTIONS: [(u64, &str); 5] = [
    (1, ""),
    (2, ""),
    (3, "OK 1\n"),
    (4, LIST),
    (5, LIST),
];

const FAULTS: [(StoreFault, &str); 4] = [
    (StoreFault::Memory, "Store fault: memory.\n"),
    (StoreFault::Device, "Store fault: device.\n"),
    (StoreFault::Full, "Store fault: full.\n"),
    (StoreFault::Foreign, "Store fault: foreign.\n"),
];

// Whether a script ends with this fault where it is the answer to this call of the store, which is
// the last one, and writes this text and then the fault's line.
fn ends_so(
    alloc: Global,
    script: &str,
    at: u64,
    fault: StoreFault,
    before: &str,
    line: &str,
) -> bool {
    let mut store = FailsAtAnyCall::new(PlainDesk::new(alloc, 1), at, fault);
    let mut reader = script.as_bytes();
    let mut writer = Vec::new(alloc);
    let end = run_script(alloc, &mut store, &mut reader, &mut writer);
    end == Err(ScriptFault::Store(fault))
        && writer.as_slice().strip_prefix(before.as_bytes()) == Some(line.as_bytes())
        && store.calls() == at
}

// Sees that a script ends as this fault where it is the answer to one of these calls, each with
// what is written before.
fn assert_ends(
    rt: &impl Abort,
    alloc: Global,
    script: &str,
    fault: StoreFault,
    line: &str,
    calls: &[(u64, &str)],
) {
    for (at, before) in calls {
        assert!(rt;
            ends_so(alloc, script, *at, fault, before, line),
            "{at} {line}"
        );
    }
}

// The same of each fault.
fn assert_all_end(rt: &impl Abort, alloc: Global, script: &str, calls: &[(u64, &str)]) {
    for (fault, line) in FAULTS.iter() {
        assert_ends(rt, alloc, script, *fault, line, calls);
    }
}

#[test]
fn a_fault_of_the_store_ends_the_script_as_that_fault(rt: HostRuntime) {
    let scripts = [
        (SCRIPT, BEFORE.as_slice()),
        (CLONES, BEFORE_IN_CLONES.as_slice()),
        (QUESTIONS, BEFORE_IN_QUESTIONS.as_slice()),
    ];
    for (script, calls) in scripts {
        assert_all_end(&rt, rt.alloc(), script, calls);
    }
}

// How many calls of the store a script makes that is accepted and writes this, where the call of
// this number would fail; `None` where it ends otherwise.
fn calls_made(alloc: Global, script: &str, at: u64, written: &str) -> Option<u64> {
    let mut store = FailsAtAnyCall::new(PlainDesk::new(alloc, 1), at, StoreFault::Device);
    let end = Ok(ScriptEnd::Accepted);
    writes(alloc, &mut store, script.as_bytes(), end, written).then_some(store.calls())
}

// Scripts, a call that they do not come to, what they write, and how many calls they make.
const WITHOUT_FAULT: [(&str, u64, &str, u64); 2] = [
    (
        SCRIPT,
        17,
        "OK 1\nOK 2\n> merge 1 2\nOK 1 2\n> close 1\nOK 1 2\n> archive 1\nOK 1 2\nOK\n",
        16,
    ),
    (
        CLONES,
        9,
        "OK 1\n> clone 1 -1 -2\nOK 2 3\n> retitle -2 b\nOK 3\n",
        8,
    ),
];

#[test]
fn a_script_whose_store_does_not_fail_makes_so_many_calls(rt: HostRuntime) {
    for (script, at, written, calls) in WITHOUT_FAULT.iter() {
        assert!(rt;
            calls_made(rt.alloc(), script, *at, written) == Some(*calls),
            "{calls}"
        );
    }
}
