//! The two files of a database, and a connection to the database in them.

ghost use Rattle.std.specs.Prelude.{◌≡◌, ◌⊎◌, [], IfOk, IfErr, IsTrue};
ghost use Rattle.sqlite_wal.specs.Files.{image_at};
ghost use Rattle.sqlite_wal.specs.Reads.{AreClean};
ghost use Rattle.sqlite.specs.State.{HasCleanDisk};
ghost use Rattle.sqlite.specs.Held.{IsNew};
ghost use Rattle.sqlite.specs.Start.{FindsIn};
ghost use Rattle.sqlite.specs.Files.{file_state, IsOpened};
ghost use Rattle.program_jobs.specs.Endings.{cause_of_error};
ghost use Rattle.program_jobs.specs.InFile.{file_disk};
ghost use Rattle.program_jobs.specs.Left.{AreUntouched, AreUsable, IsClosedTo};
ghost use Rattle.program_jobs.specs.Refusals.{IsSystemCause, IsUnconnected};

use crate::ending::Cause;
use crate::left::LeftFiles;
use base_faults::StoreFault;
use sqlite::{Connection, Error, ErrorCode, FileFrom, FileStore, Files, Leftover, Options, Start};
use sqlite_disk::Disk;
use sqlite_std_file::OpenError;
use std::fs;
use std::hash::{BuildHasher, RandomState};
use std::io::ErrorKind;

// Why files are not opened as those of a database.
fn cause_of_error(error: Error) -> Cause
    ensures { result ≡ cause_of_error error }
{
    match error {
        Error::SqliteFailure(ErrorCode::CannotOpen) => Cause::CannotOpen,
        Error::SqliteFailure(ErrorCode::DatabaseBusy) => Cause::InUse,
        Error::SqliteFailure(ErrorCode::OutOfMemory) => Cause::Store(StoreFault::Memory),
        Error::SqliteFailure(ErrorCode::DiskFull) => Cause::Store(StoreFault::Full),
        Error::SqliteFailure(ErrorCode::TooBig) => Cause::Store(StoreFault::Full),
        Error::SqliteFailure(ErrorCode::NotADatabase) => Cause::NotADesk,
        Error::SqliteFailure(ErrorCode::DatabaseCorrupt) => Cause::NotADesk,
        _ => Cause::Store(StoreFault::Device),
    }
}

/// Looks whether there is a file of this name.
pub(crate) fn look(rt: &HostRuntime, path: &str) -> Result<(), Cause>
    ensures { IfErr result (λ cause. (cause ≡ Cause.NoFile) ⊎ IsSystemCause cause) }
{
    match fs::metadata(rt, path) {
        Ok(_) => Ok(()),
        Err(error) => match error.kind() {
            ErrorKind::NotFound => Err(Cause::NoFile),
            _ => Err(Cause::CannotOpen),
        },
    }
}

// The options of a connection; the salts of its log come from a random number.
fn draw_options(rt: &HostRuntime) -> Result<Options, Cause>
    ensures { IfErr result IsSystemCause }
{
    match RandomState::new(rt) {
        Ok(state) => Ok(Options::new(state.hash_one(&0u8))),
        Err(_) => Err(Cause::CannotOpen),
    }
}

// The log and the database file of this name; those that are missing are made.
fn open_files<S: Start>(rt: &HostRuntime, path: &str, start: S) -> Result<Files<FileFrom<S>>, Cause>
    ensures usable { IfOk result (AreUsable S.Start) }
    ensures untouched { IfOk result (AreUntouched S.Start) }
    ensures cause { IfErr result IsSystemCause }
{
    match sqlite_std_file::open(rt, path, start) {
        Ok(files) => Ok(files),
        Err(OpenError::OutOfMemory) => Err(Cause::Store(StoreFault::Memory)),
        Err(OpenError::Busy) => Err(Cause::InUse),
        Err(OpenError::Io(error)) if error.kind() == ErrorKind::OutOfMemory => {
            Err(Cause::Store(StoreFault::Memory))
        }
        Err(_) => Err(Cause::CannotOpen),
    }
}

/// The log and the database file of this name, and the options of a connection to them.
/// Files that are missing are made; a name that is `:memory:` or a URI is refused, as sqlite does.
pub(crate) fn open_pair<S: Start>(
    rt: &HostRuntime,
    path: &str,
    start: S,
) -> Result<(Files<FileFrom<S>>, Options), Cause>
    ensures usable { IfOk result (λ pair. AreUsable S.Start pair.0) }
    ensures untouched { IfOk result (λ pair. AreUntouched S.Start pair.0) }
    ensures cause { IfErr result IsSystemCause }
{
    if path == ":memory:" || path.starts_with("file:") {
        return Err(Cause::CannotOpen);
    }
    let options = draw_options(rt)?;
    let files = open_files(rt, path, start)?;
    Ok((files, options))
}

/// Whether the database file is empty; where its length can't be asked, that is left to the
/// connection.
pub(crate) fn is_empty<S: Start>(files: &mut Files<FileFrom<S>>) -> bool
    requires usable { AreUsable S.Start files.old }
    requires untouched { AreUntouched S.Start files.old }
    ensures usable { AreUsable S.Start files.new }
    ensures untouched { AreUntouched S.Start files.new }
    ensures empty { IsTrue result → AreClean (file_disk S.Start) files.new.log files.new.db → (image_at S.Start).db ≡ [] }
{
    match files.db.len() {
        Ok(length) => length == 0,
        Err(_) => false,
    }
}

/// A connection to the database in these files, which is made where they hold none.
pub(crate) fn connect<S: Start>(
    rt: &HostRuntime,
    files: Files<FileFrom<S>>,
    options: Options,
) -> Result<Connection<FileStore<FileFrom<S>>>, (Cause, Leftover<FileFrom<S>>)>
    requires usable { AreUsable S.Start files }
    requires untouched { AreUntouched S.Start files }
    ensures cause { IfErr result (λ e. IsUnconnected S.Start e.0 e.1) }
    ensures fresh { IfOk result IsNew }
    ensures opened { IfOk result (λ c. HasCleanDisk (file_state c) → IsOpened c) }
    ensures found { IfOk result (λ c. HasCleanDisk (file_state c) → FindsIn (image_at S.Start) (file_state c)) }
{
    match Connection::open_files(rt.alloc(), files, options) {
        Ok(conn) => Ok(conn),
        Err((error, rest)) => Err((cause_of_error(error), rest)),
    }
}

/// Rolls back, copies the log into the database file, and hands both back, closed once they are
/// dropped.
pub(crate) fn close<S: Start>(conn: Connection<FileStore<FileFrom<S>>>) -> LeftFiles<FileFrom<S>>
    ensures { IsClosedTo S.Start conn result }
{
    match conn.close_files() {
        Ok(files) => LeftFiles::Copied(files),
        Err((error, store)) => LeftFiles::Uncopied(error, store),
    }
}
