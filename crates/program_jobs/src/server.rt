//! The job of a server.

ghost use Rattle.std.specs.Prelude.{◌≡◌};
ghost use Rattle.program_jobs.specs.Endings.{end_of_server};
ghost use Rattle.program_jobs.specs.Jobs.{IsServer, IsServerOver, IsOverFile};
ghost use Rattle.program_jobs.specs.InFile.{desk_in_file, keeping_in_file, IsKeptInFile, HasHonestFile, leaves_in_file, faults_in_file};

use crate::ending::{Cause, JobEnd};
use crate::file_desk::{close_desk, open_desk};
use crate::left::LeftFiles;
use desk_http::{ServerFault, serve_port};
use memory_desk::PlainDesk;
use sqlite::{FileFrom, Start};
use std::alloc::Global;
use std::io::Write;
use std::mem;
use store_contract::Records;

// How the job of a server on a port ends.
fn end_of(port: u16, end: Result<(), ServerFault>) -> JobEnd
    ensures { result ≡ end_of_server port end }
{
    match end {
        Ok(()) => JobEnd::Done,
        Err(ServerFault::Bind) => JobEnd::Fault(Cause::Port(port)),
        Err(ServerFault::Write) => JobEnd::Fault(Cause::Output),
        Err(ServerFault::Store) => JobEnd::Fault(Cause::ServedStore),
    }
}

/// Answers HTTP for a desk on a port of 127.0.0.1, ends after `count` connections, and answers how
/// it ended: done, or a fault where the port can't be listened on, the line that tells it can't be
/// written, or the store failed.
pub fn serve_over<D: Records, W: Write>(
    rt: &HostRuntime,
    alloc: Global,
    desk: &mut D,
    port: u16,
    count: u64,
    writer: &mut W,
) -> JobEnd
    ensures { IsServerOver D.is_kept D.is_honest D.desk D.keeping D.faults D.leaves port count (W.contents writer.old) (W.contents writer.new)
        desk.old desk.new result }
{
    end_of(port, serve_port(rt, alloc, desk, port, count, writer))
}

/// Answers HTTP on a port of 127.0.0.1 for an empty desk in memory whose first bug gets the number
/// 1, ends after `count` connections, and answers how it ended: done, or a fault where the port
/// can't be listened on or the line that tells it can't be written.
/// A desk in memory has no fault of its own that ends a server.
pub fn serve_job<W: Write>(
    rt: &HostRuntime,
    alloc: Global,
    port: u16,
    count: u64,
    writer: &mut W,
) -> JobEnd
    ensures { IsServer port count (W.contents writer.old) (W.contents writer.new) result }
{
    let mut desk = PlainDesk::new(alloc, 1);
    let end = serve_over(rt, alloc, &mut desk, port, count, writer);
    // The program ends with this call, and the system takes its memory back as a whole.
    mem::forget(desk);
    end
}

/// Answers HTTP for the desk in a file, as `serve_over` does; the second answer is what is left of
/// the files.
pub(crate) fn serve_file<S: Start, W: Write>(
    rt: &HostRuntime,
    start: S,
    path: &str,
    port: u16,
    count: u64,
    writer: &mut W,
) -> (JobEnd, LeftFiles<FileFrom<S>>)
    ensures { IsOverFile S.Start (W.contents writer.old) (W.contents writer.new) result.0 result.1
        (λ old new. IsServerOver IsKeptInFile HasHonestFile desk_in_file keeping_in_file faults_in_file leaves_in_file port count
        (W.contents writer.old) (W.contents writer.new) old new result.0) }
{
    match open_desk(rt, start, path) {
        Ok(mut desk) => {
            let end = serve_over(rt, rt.alloc(), &mut desk, port, count, writer);
            (end, close_desk(desk))
        }
        Err((cause, left)) => (JobEnd::Fault(cause), left),
    }
}
