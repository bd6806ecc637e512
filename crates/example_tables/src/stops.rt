//! A script over a desk in tables whose disk stops at each of its calls in turn.

use std::alloc::Global;
use std::{fmt, fs, io};
use test_doubles::{
    DatabaseFiles, DatabaseRemains, StopSetting, files_in, goes_on, new_desk, remains_of,
    setting_of, stopping,
};
use test_trials::{Fronts, Judge, Schema, SchemasFound, Trial, TrialScript, schema_in};

/// More calls than any run makes.
const MOST_CALLS: u64 = 100_000;

// What comes of a run whose file stops after so many calls.
#[derive(Clone, Copy)]
enum Stop {
    // The run is whole, and the file passes a further call on.
    Never,
    // So many lines were answered.
    After(usize),
    Wrong,
}

// What comes of a sweep.
#[derive(Clone, Copy)]
enum Swept {
    // Each stop left what it has to leave.
    Well,
    NoStopAtLine,
    NoStopUnderSchema,
    // Something is wrong after so many calls.
    Wrong { calls: u64 },
    NoEnd,
}

impl fmt::Display for Swept {
    fn fmt<W: fmt::Write>(&self, f: &mut fmt::Formatter<W>) -> fmt::Result {
        match *self {
            Swept::Well => f.write_str("each stop leaves the desk before or after one line"),
            Swept::NoStopAtLine => f.write_str("some line had no stop"),
            Swept::NoStopUnderSchema => f.write_str("some schema had no stop"),
            Swept::Wrong { calls } => write!(f, "wrong after {calls} calls"),
            Swept::NoEnd => f.write_str("no end"),
        }
    }
}

// What came of a run that left this of its files, and that was whole or not.
fn judged(
    alloc: Global,
    trial: &Trial,
    left: &DatabaseRemains,
    judge: &mut Judge<'_>,
    is_whole: bool,
) -> io::Result<Stop> {
    match trial.reached(judge.fronts) {
        Some(reach) if !trial.is_short() && judge.is_always_shown(alloc, left, reach)? => {
            if is_whole {
                Ok(Stop::Never)
            } else {
                Ok(Stop::After(reach.fewest))
            }
        }
        _ => Ok(Stop::Wrong),
    }
}

// Runs the script over files of which one stops after so many calls.
fn stop_after(
    alloc: Global,
    base: &DatabaseFiles,
    is_log: bool,
    judge: &mut Judge<'_>,
    calls: u64,
) -> io::Result<Stop> {
    let work = TrialScript {
        script: judge.fronts.script.as_str(),
        questions: "",
    };
    let files = stopping(alloc, base, is_log, calls)?;
    let mut trial = Trial::new(alloc);
    let mut files = trial.run_over(alloc, files, judge.options, work);
    let is_whole = trial.is_whole(judge.fronts) && goes_on(&mut files, is_log);
    let left = remains_of(alloc, files)?;
    judged(alloc, &trial, &left, judge, is_whole)
}

// Whether the disk stopped after so many lines, where the next line writes.
fn are_all_met(fronts: &Fronts, met: &[usize]) -> bool {
    for lines in 0..fronts.lines() {
        if fronts.writes_after(lines) && !met.contains(&lines) {
            return false;
        }
    }
    true
}

// Whether stops leave the desk under the schemas that they may: under that under which it began,
// and, where that is an earlier one and the log stops, under schema 3 too.
fn are_found(began: Schema, is_log: bool, found: SchemasFound) -> bool {
    match began {
        Schema::First => found.first && !found.second && (found.third || !is_log),
        Schema::Second => found.second && !found.first && (found.third || !is_log),
        Schema::Third => found.third && !found.first && !found.second,
        Schema::Other => false,
    }
}

// What comes of a sweep in which each stop left what it has to leave, under the schemas that it
// may.
fn swept_well(fronts: &Fronts, is_log: bool, met: &[usize]) -> Swept {
    if met.is_empty() || (is_log && !are_all_met(fronts, met)) {
        Swept::NoStopAtLine
    } else {
        Swept::Well
    }
}

// Has a file stop after each number of calls in turn, and notes after how many lines it did.
fn stops(
    alloc: Global,
    base: &DatabaseFiles,
    setting: StopSetting,
    judge: &mut Judge<'_>,
    met: &mut Vec<usize>,
) -> io::Result<Swept> {
    let began = schema_in(alloc, base)?;
    for calls in 0..MOST_CALLS {
        let found = judge.found;
        match stop_after(alloc, base, setting.is_log, judge, calls)? {
            Stop::Never if are_found(began, setting.is_log, found) => {
                return Ok(swept_well(judge.fronts, setting.is_log, met));
            }
            Stop::Never => return Ok(Swept::NoStopUnderSchema),
            Stop::After(lines) => met.push(lines)?,
            Stop::Wrong => return Ok(Swept::Wrong { calls }),
        }
    }
    Ok(Swept::NoEnd)
}

// Has a file stop after each number of calls in turn.
fn sweep(
    alloc: Global,
    base: &DatabaseFiles,
    setting: StopSetting,
    fronts: &Fronts,
) -> io::Result<Swept> {
    let mut judge = Judge::new(fronts, setting.options);
    let mut met = Vec::new(alloc);
    stops(alloc, base, setting, &mut judge, &mut met)
}

// Runs the script that the file was left by before the other.
fn take_script(rt: &HostRuntime, fronts: &mut Fronts, name: &str) -> io::Result<()> {
    let script = fs::read_to_string(rt, name)?;
    Ok(fronts.begin_after(rt.alloc(), script.as_str())?)
}

// Takes a line that names the file with which each run begins, and the script that it was left by.
fn take_file(
    rt: &HostRuntime,
    base: &mut DatabaseFiles,
    fronts: &mut Fronts,
    names: &str,
) -> io::Result<()> {
    let (file, script) = names.split_once(" script ").unwrap_or((names, ""));
    take_script(rt, fronts, script)?;
    *base = files_in(rt, file)?;
    Ok(())
}

// Takes a line that asks for a sweep, or has no meaning.
fn take_other(
    rt: &HostRuntime,
    base: &DatabaseFiles,
    fronts: &Fronts,
    line: &str,
) -> io::Result<()> {
    match setting_of(line) {
        Some(setting) => {
            let end = sweep(rt.alloc(), base, setting, fronts)?;
            println!(rt; "{line} -> {end}")
        }
        None => println!(rt; "{line}"),
    }
}

// Takes a line.
fn take_line(
    rt: &HostRuntime,
    base: &mut DatabaseFiles,
    fronts: &mut Fronts,
    line: &str,
) -> io::Result<()> {
    if fronts.take(rt.alloc(), line)? {
        return println!(rt; "{line}");
    }
    if let Some(names) = line.strip_prefix("file ") {
        take_file(rt, base, fronts, names)?;
    }
    take_other(rt, base, fronts, line)
}

// Takes the lines of a file.
fn take_lines(
    rt: &HostRuntime,
    base: &mut DatabaseFiles,
    fronts: &mut Fronts,
    text: &str,
) -> io::Result<()> {
    for line in text.lines() {
        take_line(rt, base, fronts, line)?;
    }
    Ok(())
}

/// Takes the lines of a file: first, where the runs begin with a file of data, that file and the
/// script that it was left by, then the questions, then the script, and then those that say which
/// file stops: `log` or `database`, with `tight` after it for little memory.
pub(crate) fn run_file(rt: &HostRuntime, text: &str) -> io::Result<()> {
    let mut fronts = Fronts::new(rt.alloc())?;
    let mut base = new_desk(rt.alloc());
    take_lines(rt, &mut base, &mut fronts, text)
}
