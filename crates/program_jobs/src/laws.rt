//! Laws of the definitions that the contracts of this crate cite.

ghost use Rattle.std.specs.Prelude.{ℕ, List, Option};
ghost use Rattle.sqlite_wal.specs.Files.{image_at};
ghost use Rattle.sqlite_wal.specs.Reads.{AreClean};
ghost use Rattle.program_jobs.specs.InFile.{file_disk, HasHonestFile, IsKeptInFile, IsOpenedInFile};
ghost use Rattle.program_jobs.specs.Jobs.{HasItsDesk, IsInit, IsJobLeaving};
ghost use Rattle.program_jobs.specs.Left.{IsLeftBy, IsSameDesk};
ghost use Rattle.program_jobs.specs.declared.ending.JobEnd.{JobEnd};
ghost use Rattle.table_content.specs.Content.{Content};
ghost use Rattle.desk_tables.specs.Files.{HoldDesk, IsFoundIn, LeaveDesk};
ghost use Rattle.program_options.specs.declared.job.Job.{Job};

use crate::file_desk::FileDesk;
use crate::left::LeftFiles;
use sqlite::{FileFrom, Files, Start};

/// A job over the desk in a file leaves a desk there, with the log and without it, also after a
/// crash, as far as the disk was honest; so does the job that makes one, and so does one that is
/// refused where a desk is there.
/// Which desk that is, the clause of `do_job_from` tells.
pub fn a_job_leaves_a_desk<S: Start>(_files: &Files<FileFrom<S>>)
    ensures { (job : Job) (r0 c0 c1 : Option (List ℕ)) (end : JobEnd) → IsJobLeaving S.Start job r0 c0 c1 end (LeftFiles.Copied _files.now)
        → AreClean (file_disk S.Start) _files.now.log _files.now.db → HasItsDesk job end (image_at S.Start)
        → (c : Content) × LeaveDesk (file_disk S.Start) _files.now c }
{}

/// The job that makes a desk never overwrites one: where the files held a desk, they hold it as the
/// job ends, with the log and without it, also after a crash, as far as the disk was honest.
pub fn init_overwrites_no_desk<S: Start>(_files: &Files<FileFrom<S>>)
    ensures { (first : ℕ) (c0 c1 : Option (List ℕ)) (end : JobEnd) → IsInit S.Start first c0 c1 end (LeftFiles.Copied _files.now)
        → AreClean (file_disk S.Start) _files.now.log _files.now.db → (c : Content) → HoldDesk (image_at S.Start) c
        → LeaveDesk (file_disk S.Start) _files.now c }
{}

/// What one job left is what the next one finds.
/// Where a kept desk's log was copied, over an honest disk, a desk that is opened over what the
/// files hold then, or over what a crash leaves of them, with the log or without it, is that desk,
/// kept, with what is kept of messages.
/// That a path names the same files again is tested and not proved.
pub fn the_next_job_finds_the_desk<S: Start, T: Start>(
    _last: &FileDesk<S>,
    _files: &Files<FileFrom<S>>,
    _next: &FileDesk<T>,
)
    ensures { IsLeftBy S.Start _last.now (LeftFiles.Copied _files.now) → AreClean (file_disk S.Start) _files.now.log _files.now.db
        → IsKeptInFile _last.now → IsFoundIn (file_disk S.Start) _files.now (image_at T.Start) → IsOpenedInFile (image_at T.Start) _next.now
        → HasHonestFile _next.now → IsSameDesk _last.now _next.now }
{}
