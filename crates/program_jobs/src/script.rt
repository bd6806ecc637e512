//! The job of a script.

ghost use Rattle.std.specs.Prelude.{◌≡◌};
ghost use Rattle.control_lines.specs.Reading.{Known};
ghost use Rattle.program_jobs.specs.Endings.{cause_of_script, end_of_script};
ghost use Rattle.program_jobs.specs.Jobs.{IsRun, IsRunOver, IsOverFile};
ghost use Rattle.program_jobs.specs.InFile.{desk_in_file, keeping_in_file, IsKeptInFile, HasHonestFile, leaves_in_file, faults_in_file};

use crate::ending::{Cause, JobEnd};
use crate::file_desk::{close_desk, open_desk};
use crate::left::LeftFiles;
use desk_run::{ScriptEnd, ScriptFault, run_script};
use memory_desk::PlainDesk;
use sqlite::{FileFrom, Start};
use std::alloc::Global;
use std::io::{Read, Write};
use std::mem;
use store_contract::Records;

// Why a script was not run to its end.
fn cause_of(fault: ScriptFault) -> Cause
    ensures { result ≡ cause_of_script fault }
{
    match fault {
        ScriptFault::Read => Cause::Input,
        ScriptFault::Write => Cause::Output,
        ScriptFault::NotUtf8(line) => Cause::NotUtf8(line),
        ScriptFault::LineTooLong(line) => Cause::LineTooLong(line),
        ScriptFault::Memory => Cause::Memory,
        ScriptFault::Store(fault) => Cause::Store(fault),
    }
}

// How the job of a script ends.
fn end_of(end: Result<ScriptEnd, ScriptFault>) -> JobEnd
    ensures { result ≡ end_of_script end }
{
    match end {
        Ok(ScriptEnd::Accepted) => JobEnd::Done,
        Ok(ScriptEnd::Refused) => JobEnd::Refused,
        Err(fault) => JobEnd::Fault(cause_of(fault)),
    }
}

/// Runs a script over a desk, and answers how it ended.
/// A crash at any moment of it leaves the desk after some of its lines, and none that was answered
/// is missing, as `table_crashes::run_and_crash` says of a desk in tables and the open after it.
pub fn run_script_over<D: Records, R: Read, W: Write>(
    alloc: Global,
    desk: &mut D,
    reader: &mut R,
    writer: &mut W,
) -> JobEnd
    ensures { IsRunOver D.is_kept D.is_honest D.desk D.keeping D.faults D.leaves (R.remaining reader.old) (W.contents writer.old)
        (W.contents writer.new) desk.old desk.new result }
{
    end_of(run_script(alloc, desk, reader, writer))
}

/// Runs a script over an empty desk in memory whose first bug gets the number 1, and answers how it
/// ended.
pub fn run_script_job<R: Read, W: Write>(alloc: Global, reader: &mut R, writer: &mut W) -> JobEnd
    ensures { Known (R.remaining reader.old) (λ input. IsRun input (W.contents writer.old) (W.contents writer.new) result) }
{
    let mut desk = PlainDesk::new(alloc, 1);
    let end = run_script_over(alloc, &mut desk, reader, writer);
    // The program ends with this call, and the system takes its memory back as a whole.
    mem::forget(desk);
    end
}

/// Runs a script over the desk in a file, and answers how it ended, with what is left of its
/// files.
pub(crate) fn run_script_in_file<S: Start, R: Read, W: Write>(
    rt: &HostRuntime,
    start: S,
    path: &str,
    reader: &mut R,
    writer: &mut W,
) -> (JobEnd, LeftFiles<FileFrom<S>>)
    ensures { IsOverFile S.Start (W.contents writer.old) (W.contents writer.new) result.0 result.1
        (λ old new. IsRunOver IsKeptInFile HasHonestFile desk_in_file keeping_in_file faults_in_file leaves_in_file
        (R.remaining reader.old)
        (W.contents writer.old) (W.contents writer.new) old new result.0) }
{
    match open_desk(rt, start, path) {
        Ok(mut desk) => {
            let end = run_script_over(rt.alloc(), &mut desk, reader, writer);
            (end, close_desk(desk))
        }
        Err((cause, left)) => (JobEnd::Fault(cause), left),
    }
}
