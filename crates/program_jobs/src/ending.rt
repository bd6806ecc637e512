//! How the program ends.

ghost use Rattle.std.specs.Prelude.{◌≡◌, ◌≢◌};
ghost use Rattle.program_jobs.specs.Endings.{status_of, IsTold, end_by_output};

use crate::complaint::write_complaint;
use base_faults::StoreFault;
use std::io::Write;

/// Why the program did not do all that its words ask.
#[derive(Clone, Copy, Debug, PartialEq, Eq, Drop)]
pub enum Cause {
    /// There was no memory.
    Memory,
    /// The input could not be read, or took more than 16,777,216 reads.
    Input,
    /// The output could not be written.
    Output,
    /// The line of the input that has this number, counted from 1, is not UTF-8.
    NotUtf8(u64),
    /// The line of the input that has this number has more than 65,536 bytes.
    LineTooLong(u64),
    /// The store failed: at a line of a script or a message, or as it was opened or made.
    Store(StoreFault),
    /// The store failed while it was served.
    ServedStore,
    /// This port of 127.0.0.1 could not be listened on.
    Port(u16),
    /// The store's file is not there.
    NoFile,
    /// Another process, or another desk of this one, has the store's file open.
    InUse,
    /// The store's file is no desk.
    NotADesk,
    /// The store's file has this number of a desk's schema, above 3: a later version made it.
    NewerSchema(u64),
    /// A desk is to be made, and the store's file holds one, or a table with the name of one of a
    /// desk's.
    NotEmpty,
    /// The store's file can't be opened: it is a folder, the rights are missing, or there is
    /// another cause that the system tells.
    CannotOpen,
}

/// How a job ended, or words that name none.
#[derive(Clone, Copy, Debug, PartialEq, Eq, Drop)]
pub enum JobEnd {
    /// All of a script was accepted, a server served all its connections, or the help was written.
    Done,
    /// Something of a script was refused.
    Refused,
    /// The words of the command line are no good.
    BadWords,
    /// A fault.
    Fault(Cause),
}

impl JobEnd {
    /// The exit status: 0 where all was done, 1 where something was refused, 2 of bad words, and 3
    /// of a fault.
    /// This is this project's own rule.
    pub fn status(self) -> u8
        ensures { result ≡ status_of self }
    {
        match self {
            JobEnd::Done => 0,
            JobEnd::Refused => 1,
            JobEnd::BadWords => 2,
            JobEnd::Fault(_) => 3,
        }
    }
}

/// How the program ended.
#[derive(Clone, Copy, Debug, PartialEq, Eq, Drop)]
pub struct Ending {
    /// How its job ended.
    pub end: JobEnd,
    /// Whether its complaint was written, all of it; so it is where there is none.
    pub is_told: bool,
}

/// Ends so, and writes the complaint of that end, if it has one.
/// Where the complaint can't be written, a front of it is, and the status alone tells the end.
pub(crate) fn end_with<E: Write>(errors: &mut E, end: JobEnd) -> Ending
    ensures end { result.end ≡ end }
    ensures told { IsTold end result.is_told (E.contents errors.old) (E.contents errors.new) }
{
    let is_told = write_complaint(errors, end);
    Ending { end, is_told }
}

/// Ends as a job that ended so does whose output is handed on at last: where it can't be, which a
/// job without a fault is not told, that is the fault, and its complaint is written.
/// Else the end stays, and nothing more is said of it.
pub fn end_output<E: Write>(ending: Ending, is_written: bool, errors: &mut E) -> Ending
    ensures end { result.end ≡ end_by_output is_written ending.end }
    ensures once { result.end ≡ ending.end → (result ≡ ending) × (errors.new ≡ errors.old) }
    ensures told { result.end ≢ ending.end → IsTold result.end result.is_told (E.contents errors.old) (E.contents errors.new) }
{
    match (is_written, ending.end) {
        (false, JobEnd::Done | JobEnd::Refused) => end_with(errors, JobEnd::Fault(Cause::Output)),
        _ => ending,
    }
}
