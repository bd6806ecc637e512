//! A desk in two files that are closed and opened again.

ghost use Rattle.std.specs.Prelude.{◌≡◌, IfErr, IfOk, IfSome, IsTrue};
ghost use Rattle.sqlite.specs.Files.{over_files, image_of};
ghost use Rattle.sqlite_store.specs.FileStore.{recovers};
ghost use Rattle.sqlite_trees.specs.Tree.{Trees};
ghost use Rattle.sqlite_wal.specs.Files.{outcomes};
ghost use Rattle.sqlite_wal.specs.Reads.{AreClean};
ghost use Rattle.bug_record.specs.Desk.{Desk};
ghost use Rattle.store_contract.specs.Kept.{Keeping};
ghost use Rattle.store_contract.specs.Store.{one_more};
ghost use Rattle.table_content.specs.Content.{Content};
ghost use Rattle.table_content.specs.View.{desk_in, keeping_in};
ghost use Rattle.desk_tables.specs.Files.{HoldDesk, LeaveDesk};
ghost use Rattle.desk_tables.specs.Desk.{content_shown, desk_of, keeping_of};
ghost use Rattle.table_opening.specs.Shown.{AreTablesOf};
ghost use Rattle.table_crashes.specs.Settled.{HasHonestDisk, HasKeptTables, IsSettled};

use crate::counting::CountsCrashes;
use crate::opening::open_connection;
use desk_tables::TableDesk;
use sqlite::{Connection, FileStore, Files, Options};
use sqlite_disk::Disk;
use std::alloc::Global;

/// Opens the desk in two files.
/// Where they hold a desk that is kept, under schema 1, 2 or 3, it is that desk, with what is kept
/// of messages, and settled.
/// `None` where it is not opened: there is no desk, out of memory, or by a fault of a disk.
pub fn open_files<D: Disk + Drop>(
    alloc: Global,
    files: Files<D>,
    options: Options,
) -> Option<TableDesk<FileStore<D>>>
    requires log { IsTrue (D.Disk.is_usable files.log) }
    requires db { IsTrue (D.Disk.is_usable files.db) }
    ensures honest { IfSome result (λ again. HasHonestDisk over_files again → AreClean D.Disk files.log files.db) }
    ensures found { IfSome result (λ again. HasHonestDisk over_files again → (c : Content) → HoldDesk (image_of D.Disk files) c →
        IsSettled over_files (desk_in c) (keeping_in c) again) }
{
    match Connection::open_files(alloc, files, options) {
        Ok(conn) => open_connection(alloc, conn),
        Err(_) => None,
    }
}

/// Closes a desk in two files: its log is copied into the database file, and the two are left with
/// the desk, as they are and after a crash.
/// Where the log can't be copied, for memory or by a fault of a disk, a crash leaves the desk that
/// was settled.
pub fn close_files<D: Disk + Drop>(desk: TableDesk<FileStore<D>>) -> Result<Files<D>, FileStore<D>>
    ensures usable { IfOk result (λ files. IsTrue (D.Disk.is_usable files.log) × IsTrue (D.Disk.is_usable files.db)) }
    ensures left { IfOk result (λ files. AreClean D.Disk files.log files.db → HasKeptTables over_files desk →
        LeaveDesk D.Disk files (content_shown desk)) }
    ensures crash { IfErr result (λ store. (d : Desk) (k : Keeping) → IsSettled over_files d k desk → (db : Trees) → recovers store db →
        AreTablesOf (content_shown desk) db) }
{
    match desk.close().close_files() {
        Ok(files) => Ok(files),
        Err((_, store)) => Err(store),
    }
}

/// Closes a desk in two files, and opens it again: it is the same desk, and settled.
/// `None` where it is not closed or not opened: out of memory, or by a fault of a disk.
pub fn close_and_open<D: Disk + Drop>(
    alloc: Global,
    desk: TableDesk<FileStore<D>>,
    options: Options,
) -> Option<TableDesk<FileStore<D>>>
    ensures same { IfSome result (λ again. HasHonestDisk over_files again → HasKeptTables over_files desk →
        IsSettled over_files (desk_of desk) (keeping_of desk) again) }
{
    match close_files(desk) {
        Ok(files) => open_files(alloc, files, options),
        Err(store) => {
            drop(store.close());
            None
        }
    }
}

/// Both disks crash, once each.
/// Two files that a close has left with a desk hold it then.
pub fn crash_files<D: CountsCrashes>(files: Files<D>) -> Files<D>
    ensures log { D.crashes result.log ≡ one_more (D.crashes files.log) }
    ensures db { D.crashes result.db ≡ one_more (D.crashes files.db) }
    ensures usable { IsTrue (D.Disk.is_usable result.log) × IsTrue (D.Disk.is_usable result.db) }
    ensures honest { AreClean D.Disk result.log result.db → AreClean D.Disk files.log files.db }
    ensures left { outcomes D.Disk files.log files.db (image_of D.Disk result) }
    ensures held { (c : Content) → LeaveDesk D.Disk files c → HoldDesk (image_of D.Disk result) c }
{
    let mut files = files;
    files.log.crash_once();
    files.db.crash_once();
    files
}
