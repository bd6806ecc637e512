//! How a command is given up.

use bug_record::Command;

/// Gives a command up, with all of its parts.
/// How each kind is given up is proved here once, and not in each crate that does so.
pub fn drop_command<Bug: Copy>(_command: Command<Bug>) {}
