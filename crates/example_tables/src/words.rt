//! Scripts that make each call of a store.

use desk_run::Records;
use std::alloc::Global;
use test_doubles::answer_to;

/// The scripts.
const CALLS: [&str; 11] = [
    "@show 1",
    "@show 2",
    "@show 3",
    "@list foo 1",
    "@list foo 3",
    "archive 1",
    "severity 1 minor",
    "found 1 6",
    "@report foo 1 normal one more",
    "@branch foo/1",
    "@branch foo/9 foo/8 foo/3",
];

/// Makes each call, and tells that they returned.
pub(crate) fn call_all<S: Records>(alloc: Global, store: &mut S) -> &'static str {
    for call in &CALLS {
        drop(answer_to(alloc, store, call));
    }
    "each call returned"
}
