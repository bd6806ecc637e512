//! The job of a message.

ghost use Rattle.std.specs.Prelude.{◌≡◌};
ghost use Rattle.base_words.specs.Texts.{IsText};
ghost use Rattle.control_lines.specs.Lines.{lines_of};
ghost use Rattle.program_jobs.specs.Endings.{end_of_message};
ghost use Rattle.program_jobs.specs.Jobs.{IsSentOver, IsSentToFile, TellsMessage};

use crate::ending::{Cause, JobEnd};
use crate::file_desk::{close_desk, open_desk};
use crate::left::LeftFiles;
use base_faults::End;
use base_words::is_text;
use control_lines::{split_lines, write_out};
use debver::Text;
use desk_run::refuses;
use message_directives::received_bytes;
use message_receiving::{Received, receive};
use program_options::message_text;
use sqlite::{FileFrom, Start};
use std::alloc::Global;
use std::io::Write;
use store_contract::Records;

// How the job of a message ends that came to this.
fn end_of(received: &Received) -> JobEnd
    ensures { result ≡ end_of_message received.now.outcomes received.now.end }
{
    match received.end {
        End::Store(fault, _) => JobEnd::Fault(Cause::Store(fault)),
        _ => {
            if refuses(received) {
                JobEnd::Refused
            } else {
                JobEnd::Done
            }
        }
    }
}

// Writes what came of a message of these lines, and answers how its job ends.
fn tell_lines<W: Write>(
    alloc: Global,
    received: &Received,
    lines: &[Text],
    writer: &mut W,
) -> JobEnd
    ensures { TellsMessage lines.now received.now.outcomes received.now.end (W.contents writer.old) (W.contents writer.new)
        result }
{
    let Ok(text) = received_bytes(alloc, received, lines) else {
        return JobEnd::Fault(Cause::Memory);
    };
    match write_out(writer, text.as_slice()) {
        Ok(()) => end_of(received),
        Err(_) => JobEnd::Fault(Cause::Output),
    }
}

/// Writes what came of a message of this text, and answers how its job ends.
pub(crate) fn tell<W: Write>(
    alloc: Global,
    received: &Received,
    message: &str,
    writer: &mut W,
) -> JobEnd
    ensures { TellsMessage (lines_of message.now) received.now.outcomes received.now.end (W.contents writer.old)
        (W.contents writer.new) result }
{
    match split_lines(alloc, message) {
        Ok(lines) => tell_lines(alloc, received, lines.as_slice(), writer),
        Err(_) => JobEnd::Fault(Cause::Memory),
    }
}

/// Takes a message from this sender into a desk, writes its transcript, and answers how that ended.
/// A crash then leaves the desk as it is, or, where the store failed at a line, the desk after that
/// line.
pub fn send_over<D: Records, W: Write>(
    alloc: Global,
    desk: &mut D,
    from: &str,
    message: &str,
    writer: &mut W,
) -> JobEnd
    requires { IsText from.now }
    ensures { IsSentOver D.is_kept D.is_honest D.desk D.keeping D.faults D.leaves from.now message.now (W.contents writer.old)
        (W.contents writer.new) desk.old desk.new result }
{
    let received = receive(alloc, desk, from, message);
    tell(alloc, &received, message, writer)
}

/// Takes a message from this sender into the desk in a file, as `send_over` does; its text is the
/// lines, with a line feed between two of them.
/// The second answer is what is left of the files.
pub(crate) fn send_to_file<S: Start, W: Write>(
    rt: &HostRuntime,
    start: S,
    path: &str,
    from: &str,
    lines: &[Text],
    writer: &mut W,
) -> (JobEnd, LeftFiles<FileFrom<S>>)
    ensures { IsSentToFile S.Start from.now lines.now (W.contents writer.old) (W.contents writer.new) result.0 result.1 }
{
    if !is_text(from) {
        return (JobEnd::BadWords, LeftFiles::Nothing);
    }
    let Ok(message) = message_text(rt.alloc(), lines) else {
        return (JobEnd::Fault(Cause::Memory), LeftFiles::Nothing);
    };
    match open_desk(rt, start, path) {
        Ok(mut desk) => {
            let end = send_over(rt.alloc(), &mut desk, from, message.as_str(), writer);
            (end, close_desk(desk))
        }
        Err((cause, left)) => (JobEnd::Fault(cause), left),
    }
}
