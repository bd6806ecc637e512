//! A job, carried out.

ghost use Rattle.std.specs.Prelude.{◌≡◌};
ghost use Rattle.program_jobs.specs.Endings.{status_of};
ghost use Rattle.program_jobs.specs.InFile.{wary};
ghost use Rattle.program_jobs.specs.Jobs.{IsJobDone, IsJobLeaving};

use crate::ending::JobEnd;
use crate::left::LeftFiles;
use crate::making::make_desk;
use crate::repeats::send_once_to_file;
use crate::script::{run_script_in_file, run_script_job};
use crate::sending::send_to_file;
use crate::server::{serve_file, serve_job};
use program_options::Job;
use sqlite::{FileFrom, Start, Wary};
use sqlite_disk::Disk;
use std::alloc::Global;
use std::io::{Read, Write};

/// Carries a job out over the input and the output that are handed in, and answers how it ended,
/// with what is left of the files of its store.
///
/// `start` stands for what the store's files hold as they are opened, which no code can read: what
/// is promised of a desk in a file is promised for whatever they hold.
///
/// `Run` and `Serve` without a store work on a desk in memory whose first bug gets the number 1.
/// With a store they work on the desk in its file, which has to be there.
/// `Init` makes the file of a new desk and writes the line `OK`; a number of the first bug outside
/// 1 to 999,999,999 is bad words.
/// `Send` takes its lines as one message and writes the transcript, as a script does; a sender that
/// is no text of 1 to 200 bytes is bad words.
/// With an id, lines that were taken before are not taken again, and `NO id in use` is written
/// where the id is known with another sender or text; an id that is none is bad words.
/// Where a file can't be opened, or no desk can be made in it, nothing is written, and that is a
/// fault; a desk that the files held they hold still.
/// At the end the log beside the file is copied into it, and the files are handed back: over an
/// honest disk they hold the desk as the job left it, with the log and without it, also after a
/// crash.
/// Where the log can't be copied that is not told by the end, since all that was answered is in the
/// log already.
pub fn do_job_from<S: Start, R: Read, W: Write>(
    rt: &HostRuntime,
    alloc: Global,
    start: S,
    job: &Job,
    reader: &mut R,
    writer: &mut W,
) -> (JobEnd, LeftFiles<FileFrom<S>>)
    ensures { IsJobLeaving S.Start job.now (R.remaining reader.old) (W.contents writer.old) (W.contents writer.new) result.0 result.1 }
{
    match job {
        Job::Run { store: None } => (run_script_job(alloc, reader, writer), LeftFiles::Nothing),
        Job::Run { store: Some(store) } => {
            run_script_in_file(rt, start, store.as_str(), reader, writer)
        }
        Job::Serve {
            store: None,
            port,
            count,
        } => (
            serve_job(rt, alloc, *port, *count, writer),
            LeftFiles::Nothing,
        ),
        Job::Serve {
            store: Some(store),
            port,
            count,
        } => serve_file(rt, start, store.as_str(), *port, *count, writer),
        Job::Init { store, first } => make_desk(rt, start, store.as_str(), *first, writer),
        Job::Send {
            store,
            from,
            id: None,
            lines,
        } => send_to_file(
            rt,
            start,
            store.as_str(),
            from.as_str(),
            lines.as_slice(),
            writer,
        ),
        Job::Send {
            store,
            from,
            id: Some(id),
            lines,
        } => send_once_to_file(
            rt,
            start,
            store.as_str(),
            id.as_str(),
            from.as_str(),
            lines.as_slice(),
            writer,
        ),
    }
}

// How a job ended; what is left of its files is closed.
fn end_alone<D: Disk + Drop>(done: (JobEnd, LeftFiles<D>)) -> JobEnd
    ensures { result ≡ done.0 }
{
    let (end, left) = done;
    drop(left);
    end
}

/// Carries a job out, as `do_job_from` does, closes what is left of its files, and answers the exit
/// status.
pub fn run_job_from<S: Start, R: Read, W: Write>(
    rt: &HostRuntime,
    alloc: Global,
    start: S,
    job: &Job,
    reader: &mut R,
    writer: &mut W,
) -> u8
    ensures { (end : JobEnd) × IsJobDone S.Start job.now (R.remaining reader.old) (W.contents writer.old) (W.contents writer.new) end
        × (result ≡ status_of end) }
{
    end_alone(do_job_from(rt, alloc, start, job, reader, writer)).status()
}

/// Carries a job out, as `run_job_from` does at `Wary`, which supposes nothing of a write that a
/// loss of power cuts short.
/// What a contract says at `Wary` is about new files alone; `run_job_from` has the same clause for
/// any.
pub fn run_job<R: Read, W: Write>(
    rt: &HostRuntime,
    alloc: Global,
    job: &Job,
    reader: &mut R,
    writer: &mut W,
) -> u8
    ensures { (end : JobEnd) × IsJobDone wary job.now (R.remaining reader.old) (W.contents writer.old) (W.contents writer.new) end
        × (result ≡ status_of end) }
{
    run_job_from(rt, alloc, Wary, job, reader, writer)
}
