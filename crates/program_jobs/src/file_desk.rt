//! The desk in a file.

ghost use Rattle.std.specs.Prelude.{◌≡◌, ◌≤◌, IfOk, IfErr};
ghost use Rattle.base_words.specs.declared.named.TheConstants.{LARGEST_NUMBER};
ghost use Rattle.sqlite_wal.specs.Files.{image_at};
ghost use Rattle.sqlite.specs.State.{HasCleanDisk};
ghost use Rattle.sqlite.specs.Held.{IsNew};
ghost use Rattle.sqlite.specs.Start.{FindsIn};
ghost use Rattle.sqlite.specs.Files.{file_state, IsOpened};
ghost use Rattle.program_jobs.specs.Endings.{cause_of_opening};
ghost use Rattle.program_jobs.specs.InFile.{IsNewInFile, IsOpenedInFile};
ghost use Rattle.program_jobs.specs.Left.{IsLeftBy};
ghost use Rattle.program_jobs.specs.Refusals.{IsUnopened, IsUnmade};

use crate::connecting::{close, connect, is_empty, look, open_pair};
use crate::ending::Cause;
use crate::left::LeftFiles;
use desk_tables::{OpenFault, TableDesk};
use sqlite::{Connection, FileFrom, FileStore, Start};
use std::alloc::Global;

/// A desk in the tables of a database file and of the log beside it, whose name is the file's with
/// `-wal` after it.
/// `S` stands for what the two held as they were opened.
///
/// While the desk is open, no other process can open its file.
/// What is answered of the desk is in the log, or in the file, as the call returns.
pub type FileDesk<S> = TableDesk<FileStore<FileFrom<S>>>;

// Why a database is not opened as a desk's, or made one.
fn cause_of(fault: OpenFault) -> Cause
    ensures { result ≡ cause_of_opening fault }
{
    match fault {
        OpenFault::NotADesk => Cause::NotADesk,
        OpenFault::NewerSchema(number) => Cause::NewerSchema(number),
        OpenFault::Store(fault) => Cause::Store(fault),
        OpenFault::NotEmpty => Cause::NotEmpty,
    }
}

// The desk that a database holds.
fn open_over<S: Start>(
    alloc: Global,
    conn: Connection<FileStore<FileFrom<S>>>,
) -> Result<FileDesk<S>, (Cause, LeftFiles<FileFrom<S>>)>
    requires fresh { IsNew conn }
    requires opened { HasCleanDisk (file_state conn) → IsOpened conn }
    requires found { HasCleanDisk (file_state conn) → FindsIn (image_at S.Start) (file_state conn) }
    ensures cause { IfErr result (λ e. IsUnopened S.Start e.0 e.1) }
    ensures opened { IfOk result (IsOpenedInFile (image_at S.Start)) }
{
    match TableDesk::open(alloc, conn) {
        Ok(desk) => Ok(desk),
        Err((fault, conn)) => Err((cause_of(fault), close(conn))),
    }
}

// A new desk in a database.
fn create_over<S: Start>(
    alloc: Global,
    conn: Connection<FileStore<FileFrom<S>>>,
    first: u64,
) -> Result<FileDesk<S>, (Cause, LeftFiles<FileFrom<S>>)>
    requires fresh { IsNew conn }
    requires opened { HasCleanDisk (file_state conn) → IsOpened conn }
    requires found { HasCleanDisk (file_state conn) → FindsIn (image_at S.Start) (file_state conn) }
    requires some { 1 ≤ first }
    requires few { first ≤ LARGEST_NUMBER }
    ensures cause { IfErr result (λ e. IsUnmade S.Start e.0 e.1) }
    ensures made { IfOk result (IsNewInFile (image_at S.Start) first) }
{
    match TableDesk::create(alloc, conn, first) {
        Ok(desk) => Ok(desk),
        Err((fault, found)) => Err((cause_of(fault), close(found))),
    }
}

/// Makes a desk in a file that is not there, or that is empty; its first bug gets this number:
/// 1 to 999,999,999.
/// It is synced as the call returns, in the log beside the file.
/// Where it is refused, what is left of the files is handed back; a desk that they held they hold
/// still, also after a crash.
/// Where a connection failed while a log was taken over, that is what the toolchain says of it.
/// A file that holds other tables keeps its bytes, and an empty log may stay beside it; this is
/// tested and not proved, and so are `InUse` and `CannotOpen`, which the system tells.
///
/// # Errors
///
/// `InUse` where the file is open already; `CannotOpen` where the system does not open it, as a
/// folder, or without the rights; `NotADesk` where it is no database, or a damaged one;
/// `NotEmpty` where it has a table with the name of one of a desk's; `Store` of the fault where
/// the store failed, and `Store(Foreign)` where there are other tables.
pub fn create_desk<S: Start>(
    rt: &HostRuntime,
    start: S,
    path: &str,
    first: u64,
) -> Result<FileDesk<S>, (Cause, LeftFiles<FileFrom<S>>)>
    requires some { 1 ≤ first }
    requires few { first ≤ LARGEST_NUMBER }
    ensures cause { IfErr result (λ e. IsUnmade S.Start e.0 e.1) }
    ensures made { IfOk result (IsNewInFile (image_at S.Start) first) }
{
    let (files, options) = match open_pair(rt, path, start) {
        Ok(pair) => pair,
        Err(cause) => return Err((cause, LeftFiles::Nothing)),
    };
    match connect(rt, files, options) {
        Ok(conn) => create_over(rt.alloc(), conn, first),
        Err((cause, rest)) => Err((cause, LeftFiles::Unconnected(rest))),
    }
}

/// Opens the desk in a file.
/// No file is made where there is none: the call looks first whether there is one, and another
/// process may make or remove it between.
/// This is tested and not proved, and so are `NoFile`, `InUse` and `CannotOpen`, which the system
/// tells.
/// Where it is refused, what is left of the files is handed back; a desk that they held they hold
/// still, also after a crash.
/// Where a connection failed while a log was taken over, that is what the toolchain says of it.
///
/// # Errors
///
/// `NoFile` where there is no file of this name; `InUse` where it is open already;
/// `CannotOpen` where the system does not open it, as a folder, or without the rights;
/// `NotADesk` where it is empty, no database, a damaged one, or one of something else;
/// `NewerSchema` where a later version made it; `Store` of the fault where the store failed, and
/// `Store(Foreign)` where its tables say schema 1 or 2 and are no desk's.
pub fn open_desk<S: Start>(
    rt: &HostRuntime,
    start: S,
    path: &str,
) -> Result<FileDesk<S>, (Cause, LeftFiles<FileFrom<S>>)>
    ensures cause { IfErr result (λ e. IsUnopened S.Start e.0 e.1) }
    ensures opened { IfOk result (IsOpenedInFile (image_at S.Start)) }
{
    if let Err(cause) = look(rt, path) {
        return Err((cause, LeftFiles::Nothing));
    }
    let (mut files, options) = match open_pair(rt, path, start) {
        Ok(pair) => pair,
        Err(cause) => return Err((cause, LeftFiles::Nothing)),
    };
    // A connection would make a database in an empty file.
    if is_empty(&mut files) {
        return Err((Cause::NotADesk, LeftFiles::Untouched(files)));
    }
    match connect(rt, files, options) {
        Ok(conn) => open_over(rt.alloc(), conn),
        Err((cause, rest)) => Err((cause, LeftFiles::Unconnected(rest))),
    }
}

/// Copies the log into the file, and hands both back, closed once they are dropped.
/// Over an honest disk they hold the desk then, with the log and without it, and so they do after
/// any crash.
/// Where the log can't be copied, what was answered is in the log already, and the next open finds
/// it there.
pub fn close_desk<S: Start>(desk: FileDesk<S>) -> LeftFiles<FileFrom<S>>
    ensures { IsLeftBy S.Start desk result }
{
    close(desk.close())
}
