//! Which desks are settled, and what joins one use of two files to the next.

ghost use Rattle.std.specs.Prelude.{IsTrue};
ghost use Rattle.sqlite.specs.Held.{state};
ghost use Rattle.sqlite_wal.specs.Recovery.{Image};
ghost use Rattle.bug_record.specs.Desk.{Desk};
ghost use Rattle.store_contract.specs.Kept.{Keeping};
ghost use Rattle.table_content.specs.Content.{Content};
ghost use Rattle.desk_tables.specs.Files.{HoldDesk, LeaveDesk, IsFoundIn};
ghost use Rattle.desk_tables.specs.Desk.{desk_of, keeping_of, LeavesTables};
ghost use Rattle.table_crashes.specs.Settled.{HasHonestDisk, HasKeptTables, IsSettled};

use desk_tables::TableDesk;
use sqlite::{Alter, Files};
use sqlite_disk::Disk;

/// A desk whose tables are kept, and whose connection no fault has shut, is settled: a crash at
/// this moment leaves its tables and no others.
/// So a new desk is settled, by the clauses of `TableDesk::create`.
pub fn serving_desks_are_settled<S: Alter>(_desk: &TableDesk<S>)
    ensures { HasKeptTables S.Store _desk.now → HasHonestDisk S.Store _desk.now → IsTrue (state S.Store _desk.now.conn).is_open →
        IsSettled S.Store (desk_of _desk.now) (keeping_of _desk.now) _desk.now }
{}

/// A crash leaves a settled desk alone.
pub fn settled_desks_are_left<S: Alter>(_desk: &TableDesk<S>)
    ensures { (d : Desk) (k : Keeping) → IsSettled S.Store d k _desk.now → LeavesTables _desk.now (d, k) (d, k) }
{}

/// What is left in two files is what the next open finds.
/// Where they were left with a desk, what is found in them holds that desk: as they were left, or
/// after a crash, with the log or without it.
/// So where a job left them with a desk, a job that finds such files opens the same desk, by the
/// clauses `found` of `open_files` and `opened` of `program_jobs::open_desk`.
pub fn what_is_left_is_found<D: Disk>(_files: &Files<D>)
    ensures { (c : Content) (image : Image) → LeaveDesk D.Disk _files.now c → IsFoundIn D.Disk _files.now image → HoldDesk image c }
{}
