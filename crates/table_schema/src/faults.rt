//! How an error of the database is told as a fault.

ghost use Rattle.std.specs.Prelude.{◌≡◌};
ghost use Rattle.table_forms.specs.Faults as faults;

use base_faults::StoreFault;
use sqlite::{Error, ErrorCode};

/// The fault that an error of the database is told as: no memory, a device that failed or holds
/// what can't be read, no room on the disk, or, for all else, tables that are no desk's.
/// A row that is too long for the database, or finds no rowid, is told as no memory: nothing of the
/// store has failed.
pub fn fault_of(error: &Error) -> StoreFault
    ensures fault { result ≡ faults.fault_of error.now }
{
    match error {
        Error::SqliteFailure(ErrorCode::OutOfMemory | ErrorCode::TooBig | ErrorCode::NoRowid) => {
            StoreFault::Memory
        }
        Error::SqliteFailure(
            ErrorCode::SystemIoFailure | ErrorCode::DatabaseCorrupt | ErrorCode::Closed,
        ) => StoreFault::Device,
        Error::SqliteFailure(ErrorCode::DiskFull) => StoreFault::Full,
        _ => StoreFault::Foreign,
    }
}

/// What a statement that writes answers, as a desk tells it: how many rows it wrote is left out.
pub fn written(answer: Result<usize, Error>) -> Result<(), StoreFault>
    ensures told { result ≡ faults.written answer }
{
    match answer {
        Ok(_) => Ok(()),
        Err(error) => Err(fault_of(&error)),
    }
}

/// What a statement that reads answers, as a desk tells it.
pub fn told<T>(answer: Result<T, Error>) -> Result<T, StoreFault>
    ensures told { result ≡ faults.told answer }
{
    match answer {
        Ok(found) => Ok(found),
        Err(error) => Err(fault_of(&error)),
    }
}
