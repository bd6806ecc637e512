//! A crash at any moment of a script.

ghost use Rattle.std.specs.Prelude.{◌⊎◌, IfSome};
ghost use Rattle.bug_record.specs.Desk.{Desk};
ghost use Rattle.store_contract.specs.Kept.{Keeping};
ghost use Rattle.control_lines.specs.Reading.{Known};
ghost use Rattle.desk_run.specs.Script.{begin};
ghost use Rattle.table_crashes.specs.Settled.{HasHonestDisk, IsSettled, IsFoundAfter};

use crate::calls::crash_and_open;
use control_lines::ScriptFault;
use desk_run::{ScriptEnd, run_script};
use desk_tables::TableDesk;
use sqlite::Alter;
use sqlite_trees::store::Reopen;
use std::alloc::Global;
use std::io::{Read, Write};

/// Runs a script, and crashes as it returns, whatever it answered; then it opens what is left.
/// It returns also where the disk stopped at any of its calls, so this is a crash at any moment of
/// the script.
/// Where the desk was settled, what is opened is the desk after some of the script's lines, and
/// none that was answered is missing: the desk as the script left it, or the desk after its next
/// line, with what is kept of messages, and settled.
/// Where the script was answered to its end, it is the desk after all of its lines.
/// The second answer is `None` where nothing is opened: out of memory, or by a fault of the
/// store.
pub fn run_and_crash<S: Alter + Reopen + Drop, R: Read, W: Write>(
    alloc: Global,
    desk: TableDesk<S>,
    reader: &mut R,
    writer: &mut W,
) -> (Result<ScriptEnd, ScriptFault>, Option<TableDesk<S>>)
    ensures found { IfSome result.1 (λ again. HasHonestDisk S.Store again → (d : Desk) (k : Keeping) → IsSettled S.Store d k desk →
        Known (R.remaining reader.old) (λ input. IsFoundAfter S.Store input (begin d) (W.contents writer.old) (W.contents writer.new) k result.0 again)) }
{
    let mut desk = desk;
    let ended = run_script(alloc, &mut desk, reader, writer);
    let again = crash_and_open(alloc, desk);
    (ended, again)
}
