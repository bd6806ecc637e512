//! The job that makes a desk.

ghost use Rattle.program_jobs.specs.Jobs.{GivesText, IsInit};

use crate::ending::{Cause, JobEnd};
use crate::file_desk::{close_desk, create_desk};
use crate::left::LeftFiles;
use base_words::LARGEST_NUMBER;
use control_lines::write_out;
use sqlite::{FileFrom, Start};
use std::io::Write;

/// Writes a text, and answers this end, or that it could not be written.
pub(crate) fn give_text<W: Write>(writer: &mut W, text: &str, end: JobEnd) -> JobEnd
    ensures { GivesText end text.now (W.contents writer.old) (W.contents writer.new) result }
{
    match write_out(writer, text.as_bytes()) {
        Ok(()) => end,
        Err(_) => JobEnd::Fault(Cause::Output),
    }
}

/// Makes a desk in a file that is not there or is empty, writes the line `OK`, and answers how that
/// ended, with what is left of the files.
/// Where the files held a desk they hold it still.
pub(crate) fn make_desk<S: Start, W: Write>(
    rt: &HostRuntime,
    start: S,
    path: &str,
    first: u64,
    writer: &mut W,
) -> (JobEnd, LeftFiles<FileFrom<S>>)
    ensures { IsInit S.Start first (W.contents writer.old) (W.contents writer.new) result.0 result.1 }
{
    if first < 1 || LARGEST_NUMBER < first {
        return (JobEnd::BadWords, LeftFiles::Nothing);
    }
    match create_desk(rt, start, path, first) {
        Ok(desk) => {
            let end = give_text(writer, "OK\n", JobEnd::Done);
            (end, close_desk(desk))
        }
        Err((cause, left)) => (JobEnd::Fault(cause), left),
    }
}
