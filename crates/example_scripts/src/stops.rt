//! A message that is sent again after each stop of the disk, until it comes to its end.

use crate::attempt::{Attempt, SendTask};
use crate::plan::Plan;
use std::alloc::Global;
use std::{fmt, io};
use test_doubles::{
    DatabaseFiles, DatabaseRemains, StopSetting, files_with, goes_on, over_files, remains_of,
    setting_of, stopping,
};

/// More calls than any run makes.
const MOST_CALLS: u64 = 100_000;

/// More tries than any message needs, since each has twice the calls of the one before.
const MOST_TRIES: u64 = 64;

// A sweep: what is sent, which file stops, and what has to come of it.
#[derive(Clone, Copy)]
struct Sweep<'a> {
    plan: &'a Plan,
    setting: StopSetting,
    goal: &'a Attempt,
}

// What comes of a message whose file stops after so many calls.
#[derive(Clone, Copy)]
enum Stop {
    // The message comes to its end, and the file passes a further call on.
    Never,
    // It was told at this line, and the message came to its end later.
    At(u64),
    Wrong,
}

// What comes of a sweep.
#[derive(Clone, Copy)]
enum Swept {
    // After each stop the message comes to its end.
    Well,
    NoStopAtLine,
    // Something is wrong after so many calls.
    Wrong { calls: u64 },
    NoEnd,
}

impl fmt::Display for Swept {
    fn fmt<W: fmt::Write>(&self, f: &mut fmt::Formatter<W>) -> fmt::Result {
        match *self {
            Swept::Well => {
                f.write_str("after each stop the message comes to its end, as if there were none")
            }
            Swept::NoStopAtLine => f.write_str("some line had no stop"),
            Swept::Wrong { calls } => write!(f, "wrong after {calls} calls"),
            Swept::NoEnd => f.write_str("no end"),
        }
    }
}

// What the machine finds in files once it has stopped.
fn after_crash(alloc: Global, files: DatabaseFiles) -> io::Result<DatabaseFiles> {
    let left = remains_of(alloc, files)?;
    files_with(alloc, &left.log.synced, &left.db.synced)
}

impl<'a> Sweep<'a> {
    // Sends the message over files, and asks the questions.
    fn send(
        &self,
        alloc: Global,
        files: DatabaseFiles,
        attempt: &mut Attempt,
        questions: &str,
    ) -> DatabaseFiles {
        let sent = SendTask {
            message: &self.plan.message,
            questions,
        };
        over_files(alloc, files, self.setting.options, &sent, attempt)
    }

    // Whether the message, sent once more, is answered as one that met no stop, and the desk shows
    // what it shows then.
    fn is_goal(&self, alloc: Global, files: DatabaseFiles) -> bool {
        let mut attempt = Attempt::new(alloc);
        drop(self.send(alloc, files, &mut attempt, self.plan.questions.as_str()));
        attempt.text == self.goal.text && attempt.shown == self.goal.shown
    }

    // Sends the message over files, of which one stops after so many calls, and leaves what the
    // machine finds in them then.
    fn send_again(
        &self,
        alloc: Global,
        files: &mut DatabaseFiles,
        calls: u64,
        attempt: &mut Attempt,
    ) -> io::Result<()> {
        let stopping = stopping(alloc, files, self.setting.is_log, calls)?;
        let stopped = self.send(alloc, stopping, attempt, "");
        *files = after_crash(alloc, stopped)?;
        Ok(())
    }

    // Does so, and says whether the message came to its end as if there were no stop; nothing
    // where it did not come to its end.
    fn try_again(
        &self,
        alloc: Global,
        files: &mut DatabaseFiles,
        calls: u64,
    ) -> io::Result<Option<bool>> {
        let mut attempt = Attempt::new(alloc);
        self.send_again(alloc, files, calls, &mut attempt)?;
        if attempt.is_done() {
            Ok(Some(attempt.text == self.goal.text))
        } else {
            Ok(None)
        }
    }

    // Sends the message again and again over files that a stop left, with twice the calls before
    // the next stop each time; whether it comes to its end as if there were no stop.
    fn try_on(&self, alloc: Global, files: &mut DatabaseFiles, calls: u64) -> io::Result<bool> {
        let mut calls = calls;
        for _ in 0..MOST_TRIES {
            calls = calls.saturating_mul(2).max(1);
            if let Some(is_like) = self.try_again(alloc, files, calls)? {
                return Ok(is_like);
            }
        }
        Ok(false)
    }

    // Whether the message, sent again and again over files with these bytes, comes to its end as if
    // there were no stop, and the desk shows that.
    fn comes_to_its_end(
        &self,
        alloc: Global,
        log: &[u8],
        db: &[u8],
        calls: u64,
    ) -> io::Result<bool> {
        let mut files = files_with(alloc, log, db)?;
        let is_like = self.try_on(alloc, &mut files, calls)?;
        Ok(is_like && self.is_goal(alloc, files))
    }

    // Whether it does so whichever of the files loses what was not synced.
    fn always_comes_to_its_end(
        &self,
        alloc: Global,
        left: &DatabaseRemains,
        calls: u64,
    ) -> io::Result<bool> {
        let DatabaseRemains { log, db } = left;
        Ok(
            self.comes_to_its_end(alloc, &log.written, &db.written, calls)?
                && self.comes_to_its_end(alloc, &log.synced, &db.synced, calls)?
                && self.comes_to_its_end(alloc, &log.written, &db.synced, calls)?
                && self.comes_to_its_end(alloc, &log.synced, &db.written, calls)?,
        )
    }

    // What came of a message whose files were left so, and that was whole or not.
    fn judged(
        &self,
        alloc: Global,
        place: Option<u64>,
        left: &DatabaseRemains,
        calls: u64,
        is_whole: bool,
    ) -> io::Result<Stop> {
        match place {
            Some(_) if is_whole => Ok(Stop::Never),
            Some(line) if self.always_comes_to_its_end(alloc, left, calls)? => Ok(Stop::At(line)),
            _ => Ok(Stop::Wrong),
        }
    }

    // Sends the message over files of which one stops after so many calls, and then again until it
    // comes to its end.
    fn stop_after(&self, alloc: Global, base: &DatabaseFiles, calls: u64) -> io::Result<Stop> {
        let is_log = self.setting.is_log;
        let files = stopping(alloc, base, is_log, calls)?;
        let mut attempt = Attempt::new(alloc);
        let mut files = self.send(alloc, files, &mut attempt, "");
        let is_whole = attempt.is_done() && goes_on(&mut files, is_log);
        let place = attempt.stopped_at(&self.plan.message);
        let left = remains_of(alloc, files)?;
        self.judged(alloc, place, &left, calls, is_whole)
    }
}

// Whether a stop was told at each line, or, of the database file, at one.
fn are_all_met(sweep: &Sweep<'_>, met: &[u64]) -> bool {
    if !sweep.setting.is_log {
        return !met.is_empty();
    }
    for line in 0..sweep.plan.message.lines.saturating_add(1) {
        if !met.contains(&line) {
            return false;
        }
    }
    true
}

// Has a file stop after each number of calls in turn, and notes the lines at which stops were told.
fn stops(
    alloc: Global,
    base: &DatabaseFiles,
    sweep: &Sweep<'_>,
    met: &mut Vec<u64>,
) -> io::Result<Swept> {
    for calls in 0..MOST_CALLS {
        match sweep.stop_after(alloc, base, calls)? {
            Stop::Never if are_all_met(sweep, met) => return Ok(Swept::Well),
            Stop::Never => return Ok(Swept::NoStopAtLine),
            Stop::At(line) => met.push(line)?,
            Stop::Wrong => return Ok(Swept::Wrong { calls }),
        }
    }
    Ok(Swept::NoEnd)
}

// Has a file stop after each number of calls in turn.
fn run_sweep(alloc: Global, plan: &Plan, setting: StopSetting) -> io::Result<Swept> {
    let goal = plan.goal(alloc);
    let base = plan.base(alloc);
    let mut met = Vec::new(alloc);
    let sweep = Sweep {
        plan,
        setting,
        goal: &goal,
    };
    stops(alloc, &base, &sweep, &mut met)
}

// Takes a line, and prints it with what comes of it.
fn take_line(rt: &HostRuntime, plan: &mut Plan, line: &str) -> io::Result<()> {
    if plan.take(line)? {
        return println!(rt; "{line}");
    }
    match setting_of(line) {
        Some(setting) => {
            let end = run_sweep(rt.alloc(), plan, setting)?;
            println!(rt; "{line} -> {end}")
        }
        None => println!(rt; "{line}"),
    }
}

// Takes the lines of a file.
fn take_lines(rt: &HostRuntime, plan: &mut Plan, text: &str) -> io::Result<()> {
    for line in text.lines() {
        take_line(rt, plan, line)?;
    }
    Ok(())
}

/// Takes the lines of a file: those that are run before the message, what is sent, what the desk is
/// asked after it, and then those that say which file stops: `log` or `database`, with `tight`
/// after it for little memory.
pub(crate) fn run_file(rt: &HostRuntime, text: &str) -> io::Result<()> {
    let mut plan = Plan::new(rt.alloc())?;
    take_lines(rt, &mut plan, text)
}
