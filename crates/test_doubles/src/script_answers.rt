//! What scripts write on a desk.

use desk_run::{Records, ScriptEnd, ScriptFault, run_script};
use std::alloc::Global;

/// Runs a script, and adds what it writes to a text.
pub fn run_into<S: Records>(
    alloc: Global,
    store: &mut S,
    script: &str,
    text: &mut Vec<u8>,
) -> Result<ScriptEnd, ScriptFault> {
    let mut reader = script.as_bytes();
    run_script(alloc, store, &mut reader, text)
}

/// What a script writes.
pub fn answer_to<S: Records>(alloc: Global, store: &mut S, script: &str) -> Vec<u8> {
    let mut answer = Vec::new(alloc);
    let _ = run_into(alloc, store, script, &mut answer);
    answer
}
