//! How a script that is run has to end, and what it has to write.

use desk_run::{ScriptEnd, ScriptFault, run_script};
use std::alloc::Global;
use store_contract::Records;

/// Whether a script has this end and writes these bytes.
pub(crate) fn writes<S: Records>(
    alloc: Global,
    store: &mut S,
    script: &[u8],
    end: Result<ScriptEnd, ScriptFault>,
    written: &str,
) -> bool {
    let mut reader = script;
    let mut writer = Vec::new(alloc);
    let ended = run_script(alloc, store, &mut reader, &mut writer);
    ended == end && writer.as_slice() == written.as_bytes()
}
