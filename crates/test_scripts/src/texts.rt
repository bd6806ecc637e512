//! The texts of the faults of scripts, which no script in data comes to.

use base_faults::StoreFault;
use control_lines::ScriptFault;
use std::alloc::{AllocError, Global};
use std::test::Fail;

const TEXTS: [(ScriptFault, &str); 6] = [
    (ScriptFault::Read, "the script could not be read"),
    (ScriptFault::Write, "the answers could not be written"),
    (ScriptFault::NotUtf8(3), "line 3 is not UTF-8"),
    (ScriptFault::LineTooLong(20), "line 20 is too long"),
    (ScriptFault::Memory, "out of memory"),
    (
        ScriptFault::Store(StoreFault::Foreign),
        "the store failed: foreign",
    ),
];

// Whether a fault has this text.
fn has_text(alloc: Global, fault: ScriptFault, text: &str) -> Result<bool, AllocError> {
    let told = format!(in alloc; "{fault}")?;
    Ok(told.as_str() == text)
}

#[test]
fn faults_of_scripts_have_their_texts(rt: HostRuntime) -> Result<(), Fail> {
    for (fault, text) in TEXTS.iter() {
        assert!(rt; has_text(rt.alloc(), *fault, text)?, "{text}");
    }
    Ok(())
}
