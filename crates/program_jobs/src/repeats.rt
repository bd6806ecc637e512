//! The job of a message that has an id.

ghost use Rattle.base_words.specs.Texts.{IsText};
ghost use Rattle.program_jobs.specs.Jobs.{IsSentOnceOver, IsSentOnceToFile};

use crate::ending::{Cause, JobEnd};
use crate::file_desk::{close_desk, open_desk};
use crate::left::LeftFiles;
use crate::making::give_text;
use crate::sending::tell;
use base_words::is_text;
use debver::Text;
use message_receiving::{OnceFault, receive_once};
use program_options::message_text;
use sqlite::{FileFrom, Start};
use std::alloc::Global;
use std::io::Write;
use store_contract::{Records, is_id};

/// Takes a message from this sender into a desk, under this id: lines that were taken before are
/// not taken again.
/// Writes its transcript, or that the id is in use, and answers how that ended.
pub fn send_once_over<D: Records, W: Write>(
    alloc: Global,
    desk: &mut D,
    id: &str,
    from: &str,
    message: &str,
    writer: &mut W,
) -> JobEnd
    requires { IsText from.now }
    ensures { IsSentOnceOver D.is_kept D.is_honest D.desk D.keeping D.faults D.leaves id.now from.now message.now
        (W.contents writer.old) (W.contents writer.new) desk.old desk.new result }
{
    match receive_once(alloc, desk, id, from, message) {
        Ok(received) => tell(alloc, &received, message, writer),
        Err(OnceFault::BadId) => JobEnd::BadWords,
        Err(OnceFault::Reused) => give_text(writer, "NO id in use\n", JobEnd::Refused),
        Err(OnceFault::Store(fault)) => JobEnd::Fault(Cause::Store(fault)),
    }
}

/// Takes a message from this sender into the desk in a file, as `send_once_over` does; its text is
/// the lines, with a line feed between two of them.
/// The second answer is what is left of the files.
pub(crate) fn send_once_to_file<S: Start, W: Write>(
    rt: &HostRuntime,
    start: S,
    path: &str,
    id: &str,
    from: &str,
    lines: &[Text],
    writer: &mut W,
) -> (JobEnd, LeftFiles<FileFrom<S>>)
    ensures { IsSentOnceToFile S.Start id.now from.now lines.now (W.contents writer.old) (W.contents writer.new) result.0 result.1 }
{
    if !is_text(from) || !is_id(id) {
        return (JobEnd::BadWords, LeftFiles::Nothing);
    }
    let Ok(message) = message_text(rt.alloc(), lines) else {
        return (JobEnd::Fault(Cause::Memory), LeftFiles::Nothing);
    };
    match open_desk(rt, start, path) {
        Ok(mut desk) => {
            let end = send_once_over(rt.alloc(), &mut desk, id, from, message.as_str(), writer);
            (end, close_desk(desk))
        }
        Err((cause, left)) => (JobEnd::Fault(cause), left),
    }
}
