//! Random scripts, each over a desk in memory, a desk in tables, and a desk in tables that is
//! closed and opened before each directive.

use base_words::number_word;
use sqlite::{Alter, Connection};
use sqlite_pager::Options;
use std::alloc::{AllocError, Global};
use std::io;
use test_doubles::{
    ConnectionTask, DatabaseFiles, ScriptMaker, create, in_memory, limited, new_files, on_made,
    open, over_files,
};
use test_trials::{ScriptRun, ScriptTask};

// What is done over files.
#[derive(Clone, Copy)]
enum Work<'a> {
    // Runs a script over a new desk, and asks the questions.
    Whole(&'a str),
    // Runs a script part by part over a new desk, which is closed and opened before each.
    Parts(&'a str),
    // Asks the desk the questions.
    Questions,
}

// What each desk told of a script.
#[derive(Drop)]
struct RunsOfScript {
    in_memory: ScriptRun,
    in_tables: ScriptRun,
    in_parts: ScriptRun,
}

// Runs a script part by part over a new desk.
fn run_parts<S: Alter>(
    alloc: Global,
    conn: Connection<S>,
    script: &str,
    told: &mut ScriptRun,
) -> Connection<S> {
    told.begin_parts();
    let mut conn = on_made(alloc, create(alloc, conn, 1), &ScriptTask::Nothing, told);
    for part in script.split("\n@").skip(1) {
        conn = on_made(alloc, open(alloc, conn), &ScriptTask::Part(part), told);
    }
    told.end_parts();
    conn
}

impl ConnectionTask<ScriptRun> for Work<'_> {
    fn run_over<S: Alter>(
        &self,
        alloc: Global,
        conn: Connection<S>,
        told: &mut ScriptRun,
    ) -> Connection<S> {
        match *self {
            Work::Whole(script) => {
                on_made(
                    alloc,
                    create(alloc, conn, 1),
                    &ScriptTask::Script(script),
                    told,
                )
            }
            Work::Parts(script) => run_parts(alloc, conn, script, told),
            Work::Questions => on_made(alloc, open(alloc, conn), &ScriptTask::Questions, told),
        }
    }
}

// Does something over files, and hands them back.
fn work_over(
    alloc: Global,
    files: DatabaseFiles,
    work: Work<'_>,
    told: &mut ScriptRun,
) -> DatabaseFiles {
    over_files(alloc, files, Options::new(1), &work, told)
}

// Runs a script part by part over a desk in tables, and asks the questions once its files are
// opened anew.
fn tell_in_parts(alloc: Global, script: &str, told: &mut ScriptRun) -> io::Result<()> {
    let files = work_over(alloc, new_files(alloc), Work::Parts(script), told);
    let files = limited(alloc, &files, None)?;
    drop(work_over(alloc, files, Work::Questions, told));
    Ok(())
}

impl RunsOfScript {
    // Nothing yet.
    fn new(alloc: Global) -> RunsOfScript {
        RunsOfScript {
            in_memory: ScriptRun::new(alloc),
            in_tables: ScriptRun::new(alloc),
            in_parts: ScriptRun::new(alloc),
        }
    }

    // Runs a script over each desk.
    fn tell(&mut self, alloc: Global, script: &str) -> io::Result<()> {
        let whole = Work::Whole(script);
        in_memory(alloc, &ScriptTask::Script(script), &mut self.in_memory);
        drop(work_over(alloc, new_files(alloc), whole, &mut self.in_tables));
        tell_in_parts(alloc, script, &mut self.in_parts)
    }

    // Whether all desks told the same; an error where there was no memory for it.
    fn are_alike(&self) -> Result<bool, AllocError> {
        self.in_memory.output.whole()?;
        self.in_tables.output.whole()?;
        self.in_parts.output.whole()?;
        Ok(self.in_tables.is_like(&self.in_memory) && self.in_parts.is_like(&self.in_memory))
    }

    // Prints a script, and what each desk told of it.
    fn print(&self, rt: &HostRuntime, script: &str) -> io::Result<()> {
        println!(rt; "{script}")?;
        println!(rt; "-- in memory:")?;
        self.in_memory.output.print(rt)?;
        println!(rt; "-- in tables:")?;
        self.in_tables.output.print(rt)?;
        println!(rt; "-- in tables, part by part:")?;
        self.in_parts.output.print(rt)
    }
}

// Fills in what each desk tells of a script, and says whether all told the same; else it prints
// that.
fn compare(rt: &HostRuntime, script: &str, runs: &mut RunsOfScript) -> io::Result<bool> {
    runs.tell(rt.alloc(), script)?;
    if runs.are_alike()? {
        return Ok(true);
    }
    runs.print(rt, script)?;
    Ok(false)
}

// Runs a script over each desk, and says whether all told the same; else it prints what they told.
fn run_script(rt: &HostRuntime, script: &str) -> io::Result<bool> {
    let mut runs = RunsOfScript::new(rt.alloc());
    compare(rt, script, &mut runs)
}

// Runs so many scripts of so many lines, up to the first that is not alike.
fn run_scripts(
    rt: &HostRuntime,
    maker: &mut ScriptMaker,
    scripts: u64,
    lines: u64,
) -> io::Result<()> {
    for _ in 0..scripts {
        let script = maker.next_script(lines)?;
        if !run_script(rt, script)? {
            return Ok(());
        }
    }
    println!(rt; "{scripts} scripts: both stores answer alike")
}

// The number after a word of a line; 0 where there is none.
fn number_after(line: &str, word: &str) -> u64 {
    match line.split_once(word) {
        Some((_, rest)) => {
            let (number, _) = rest.split_once(' ').unwrap_or((rest, ""));
            number_word(number).unwrap_or(0)
        }
        None => 0,
    }
}

// Makes the scripts of a line.
fn run_line(rt: &HostRuntime, line: &str) -> io::Result<()> {
    let scripts = number_after(line, "scripts ");
    let lines = number_after(line, "lines ");
    let mut maker = ScriptMaker::new(rt.alloc(), number_after(line, "seed "));
    run_scripts(rt, &mut maker, scripts, lines)
}

/// Makes the scripts of each line of a file, `seed S scripts N lines L`, and prints whether all
/// desks answer alike, or the first script where they do not.
pub(crate) fn run_file(rt: &HostRuntime, text: &str) -> io::Result<()> {
    for line in text.lines() {
        println!(rt; "{line}")?;
        run_line(rt, line)?;
    }
    Ok(())
}
