//! A script over a desk that is short of memory, with a little more of it in each run.

use base_words::number_word;
use sqlite_pager::Options;
use std::alloc::Global;
use std::{fmt, io};
use test_doubles::{DatabaseFiles, DatabaseRemains, copy_of, new_desk, remains_of};
use test_trials::{Fronts, Judge, Reach, Trial, TrialScript};

/// More runs than any sweep has.
const MOST_RUNS: usize = 100_000;

/// Room for what a script writes.
const TEXT_ROOM: usize = 65_536;

// What desk is short of memory, and how large the blocks are of which each run has one more.
#[derive(Clone, Copy)]
struct Setting {
    is_in_tables: bool,
    size: usize,
}

// What comes of a run.
#[derive(Clone, Copy, PartialEq, Eq)]
enum Run {
    Whole,
    // Memory ran out after so many lines.
    Short(usize),
    Wrong,
}

// What comes of a sweep.
#[derive(Clone, Copy)]
enum Swept {
    // Something is wrong with all memory.
    NotReady,
    // Its last run was whole, and some were short of memory once a line was answered, or none.
    Whole { is_short: bool },
    // Something is wrong with so many blocks.
    Wrong { blocks: usize },
    NoEnd,
}

// Tells of a sweep whose last run was whole.
fn whole_text(is_short: bool) -> &'static str {
    if is_short {
        "short of memory: some runs ended so, and each left the desk after some of its lines"
    } else {
        "no run was short of memory once a line was answered"
    }
}

impl fmt::Display for Swept {
    fn fmt<W: fmt::Write>(&self, f: &mut fmt::Formatter<W>) -> fmt::Result {
        match *self {
            Swept::NotReady => f.write_str("wrong with all memory"),
            Swept::Whole { is_short } => f.write_str(whole_text(is_short)),
            Swept::Wrong { blocks } => write!(f, "wrong with {blocks} blocks"),
            Swept::NoEnd => f.write_str("no end"),
        }
    }
}

// What a line asks for, if it names a desk.
fn setting_of(line: &str) -> Option<Setting> {
    let (desk, size) = line.split_once(" by ").unwrap_or((line, ""));
    let size = number_word(size).unwrap_or(0) as usize;
    match desk {
        "in memory" => Some(Setting {
            is_in_tables: false,
            size,
        }),
        "in tables" => Some(Setting {
            is_in_tables: true,
            size,
        }),
        _ => None,
    }
}

// What came of a run after which the desk may be there.
fn run_of(trial: &Trial, fronts: &Fronts, reach: Reach) -> Run {
    if trial.is_whole(fronts) {
        Run::Whole
    } else {
        Run::Short(reach.fewest)
    }
}

// Runs the script over a desk in memory, which is asked all questions.
fn run_in_memory(alloc: Global, fronts: &Fronts, trial: &mut Trial, questions: &str) -> Run {
    let work = TrialScript {
        script: fronts.script.as_str(),
        questions,
    };
    trial.run_in_memory(alloc, work);
    match trial.reached(fronts) {
        Some(reach) if fronts.shows(reach, &trial.shown) => run_of(trial, fronts, reach),
        _ => Run::Wrong,
    }
}

// Whether what is left of the files has the desk in this reach.
fn are_shown(
    alloc: Global,
    left: &DatabaseRemains,
    fronts: &Fronts,
    reach: Reach,
) -> io::Result<bool> {
    let DatabaseRemains { log, db } = left;
    Judge::new(fronts, Options::new(1)).is_shown(alloc, &log.written, &db.written, reach)
}

// Whether the questions were answered in this reach, where a desk was opened.
fn is_asked_well(trial: &Trial, fronts: &Fronts, reach: Reach) -> bool {
    !trial.is_opened() || fronts.shows_front(reach, &trial.shown)
}

// What came of a run over a desk in tables, of whose files this is left.
fn judged(
    alloc: Global,
    left: &DatabaseRemains,
    fronts: &Fronts,
    trial: &Trial,
) -> io::Result<Run> {
    match trial.reached(fronts) {
        Some(reach)
            if is_asked_well(trial, fronts, reach) && are_shown(alloc, left, fronts, reach)? => {
            Ok(run_of(trial, fronts, reach))
        }
        _ => Ok(Run::Wrong),
    }
}

// Runs the script over a desk in tables.
fn run_in_tables(
    alloc: Global,
    files: DatabaseFiles,
    fronts: &Fronts,
    trial: &mut Trial,
) -> io::Result<Run> {
    let work = TrialScript {
        script: fronts.script.as_str(),
        questions: fronts.questions.as_str(),
    };
    let files = trial.run_over(alloc, files, Options::new(1), work);
    trial.held.give_back();
    let left = remains_of(alloc, files)?;
    judged(alloc, &left, fronts, trial)
}

// Begins a run with so many blocks of memory, or with all of it where there is no number; whether
// there were as many.
fn begin(alloc: Global, size: usize, trial: &mut Trial, blocks: Option<usize>) -> bool {
    trial.begin();
    match blocks {
        Some(blocks) => trial.held.leave(alloc, blocks, size),
        None => true,
    }
}

// Runs the script over a desk in memory with so many blocks of memory, or with all of it.
fn run_short_in_memory(
    alloc: Global,
    size: usize,
    fronts: &Fronts,
    trial: &mut Trial,
    blocks: Option<usize>,
) -> io::Result<Run> {
    let questions = fronts.all_questions(alloc)?;
    if begin(alloc, size, trial, blocks) {
        Ok(run_in_memory(alloc, fronts, trial, questions.as_str()))
    } else {
        Ok(Run::Wrong)
    }
}

// Runs the script over a desk in tables with so many blocks of memory, or with all of it.
fn run_short_in_tables(
    alloc: Global,
    base: &DatabaseFiles,
    size: usize,
    fronts: &Fronts,
    trial: &mut Trial,
    blocks: Option<usize>,
) -> io::Result<Run> {
    let files = copy_of(alloc, base, u64::MAX, u64::MAX)?;
    if begin(alloc, size, trial, blocks) {
        run_in_tables(alloc, files, fronts, trial)
    } else {
        Ok(Run::Wrong)
    }
}

// Runs the script with so many blocks of memory, or with all of it.
fn run_with(
    alloc: Global,
    base: &DatabaseFiles,
    setting: Setting,
    fronts: &Fronts,
    trial: &mut Trial,
    blocks: Option<usize>,
) -> io::Result<Run> {
    let size = setting.size;
    if setting.is_in_tables {
        run_short_in_tables(alloc, base, size, fronts, trial, blocks)
    } else {
        run_short_in_memory(alloc, size, fronts, trial, blocks)
    }
}

// Whether the run with all memory is whole, and all memory can be held back after it.
fn is_ready(
    alloc: Global,
    base: &DatabaseFiles,
    setting: Setting,
    fronts: &Fronts,
    trial: &mut Trial,
) -> io::Result<bool> {
    let whole = run_with(alloc, base, setting, fronts, trial, None)?;
    Ok(whole == Run::Whole && trial.held.hold_all(alloc)?)
}

// Runs the script with no block of memory, then with one, and so on.
fn runs(
    alloc: Global,
    base: &DatabaseFiles,
    setting: Setting,
    fronts: &Fronts,
    trial: &mut Trial,
) -> io::Result<Swept> {
    let mut is_short = false;
    for blocks in 0..MOST_RUNS {
        match run_with(alloc, base, setting, fronts, trial, Some(blocks))? {
            Run::Whole => return Ok(Swept::Whole { is_short }),
            Run::Short(lines) => is_short = is_short || lines > 0,
            Run::Wrong => return Ok(Swept::Wrong { blocks }),
        }
    }
    Ok(Swept::NoEnd)
}

// Runs the script with all memory, and then with more and more of it.
fn sweep(
    alloc: Global,
    base: &DatabaseFiles,
    setting: Setting,
    fronts: &Fronts,
) -> io::Result<Swept> {
    let mut trial = Trial::with_room(alloc, TEXT_ROOM)?;
    if is_ready(alloc, base, setting, fronts, &mut trial)? {
        runs(alloc, base, setting, fronts, &mut trial)
    } else {
        Ok(Swept::NotReady)
    }
}

// Takes a line.
fn take_line(
    rt: &HostRuntime,
    base: &DatabaseFiles,
    fronts: &mut Fronts,
    line: &str,
) -> io::Result<()> {
    if fronts.take(rt.alloc(), line)? {
        return println!(rt; "{line}");
    }
    match setting_of(line) {
        Some(setting) => {
            let end = sweep(rt.alloc(), base, setting, fronts)?;
            println!(rt; "{line} -> {end}")
        }
        None => println!(rt; "{line}"),
    }
}

// Takes the lines of a file.
fn take_lines(
    rt: &HostRuntime,
    base: &DatabaseFiles,
    fronts: &mut Fronts,
    text: &str,
) -> io::Result<()> {
    for line in text.lines() {
        take_line(rt, base, fronts, line)?;
    }
    Ok(())
}

/// Takes the lines of a file: first the questions, then the script, and then those that say which
/// desk is short of memory, and by blocks of how many bytes: `in memory by N`, `in tables by N`.
pub(crate) fn run_file(rt: &HostRuntime, text: &str) -> io::Result<()> {
    let mut fronts = Fronts::new(rt.alloc())?;
    let base = new_desk(rt.alloc());
    take_lines(rt, &base, &mut fronts, text)
}
