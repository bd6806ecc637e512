//! A script over the desk in files, whatever becomes of them, and what it leaves.

use crate::fronts::{DEVICE, Fronts, MEMORY, Reach};
use crate::held_memory::HeldMemory;
use base_faults::StoreFault;
use desk_run::{Records, ScriptEnd, ScriptFault};
use sqlite::{Alter, Connection};
use sqlite_disk::{Disk, Files};
use sqlite_pager::Options;
use std::alloc::{AllocError, Global};
use test_doubles::{ConnectionTask, DeskTask, in_memory, on_made, open, over_files, run_into};

/// What a script wrote, how it ended, and how often the store failed.
#[derive(Drop)]
pub struct Trial {
    pub text: Vec<u8>,
    /// What the questions were answered after the script.
    pub shown: Vec<u8>,
    /// The memory that the script does not have.
    pub held: HeldMemory,
    // Nothing where no desk could be opened.
    end: Option<Result<ScriptEnd, ScriptFault>>,
    faults: u64,
    counts_well: bool,
}

/// What is done on a desk.
#[derive(Clone, Copy)]
pub struct TrialScript<'a> {
    pub script: &'a str,
    /// What the desk is asked after it.
    pub questions: &'a str,
}

impl DeskTask<Trial> for TrialScript<'_> {
    fn run_on<R: Records>(&self, alloc: Global, desk: &mut R, trial: &mut Trial) {
        trial.run(alloc, desk, *self);
    }
}

impl ConnectionTask<Trial> for TrialScript<'_> {
    fn run_over<S: Alter>(
        &self,
        alloc: Global,
        conn: Connection<S>,
        trial: &mut Trial,
    ) -> Connection<S> {
        on_made(alloc, open(alloc, conn), self, trial)
    }
}

// Whether a question that fails is counted, and another is not.
fn counts_next<R: Records>(desk: &mut R) -> bool {
    let faults = desk.faults();
    let is_device = desk.next() == Err(StoreFault::Device);
    desk.faults() == faults.saturating_add(u64::from(is_device))
}

impl Trial {
    /// No script yet, and no memory that is held.
    pub fn new(alloc: Global) -> Trial {
        Trial {
            text: Vec::new(alloc),
            shown: Vec::new(alloc),
            held: HeldMemory::nothing(alloc),
            end: None,
            faults: 0,
            counts_well: true,
        }
    }

    // Makes room for what the script writes, and for the lists of the memory that is held.
    fn make_room(&mut self, room: usize) -> Result<(), AllocError> {
        self.text.reserve(room)?;
        self.held.make_room()
    }

    /// No script yet, with room for what it writes, and for the lists of the memory that is held.
    pub fn with_room(alloc: Global, room: usize) -> Result<Trial, AllocError> {
        let mut trial = Trial::new(alloc);
        trial.make_room(room)?;
        Ok(trial)
    }

    /// Begins anew.
    pub fn begin(&mut self) {
        self.text.clear();
        self.shown.clear();
        self.end = None;
    }

    // Asks a desk the questions; whether a fault of the disk is counted.
    fn ask<R: Records>(&mut self, alloc: Global, desk: &mut R, questions: &str) -> bool {
        let faults = desk.faults();
        let _ = run_into(alloc, desk, questions, &mut self.shown);
        let is_device = self.shown.ends_with(DEVICE.as_bytes());
        desk.faults() == faults.saturating_add(u64::from(is_device))
    }

    // Runs a script on a desk with the memory that is left, and then, with all of it, asks for the
    // next number three times, and the questions.
    fn run<R: Records>(&mut self, alloc: Global, desk: &mut R, work: TrialScript<'_>) {
        self.end = Some(run_into(alloc, desk, work.script, &mut self.text));
        self.held.give_back();
        self.faults = desk.faults();
        self.counts_well = counts_next(desk) && counts_next(desk) && counts_next(desk);
        self.counts_well = self.ask(alloc, desk, work.questions) && self.counts_well;
    }

    /// Runs a script on a new desk in memory.
    pub fn run_in_memory(&mut self, alloc: Global, work: TrialScript<'_>) {
        in_memory(alloc, &work, self);
    }

    /// Opens the desk in files, runs a script on it, and hands the files back.
    pub fn run_over<D: Disk + Drop>(
        &mut self,
        alloc: Global,
        files: Files<D>,
        options: Options,
        work: TrialScript<'_>,
    ) -> Files<D> {
        over_files(alloc, files, options, &work, self)
    }

    /// Whether the whole script ran.
    pub fn is_whole(&self, fronts: &Fronts) -> bool {
        matches!(self.end, Some(Ok(_)))
            && self.faults == 0
            && self.counts_well
            && fronts.is_whole(&self.text)
    }

    // Where the desk may be after a fault; nothing where it is not told as it has to be.
    fn reached_by(&self, fronts: &Fronts, fault: ScriptFault) -> Option<Reach> {
        match fault {
            ScriptFault::Store(StoreFault::Device) if self.faults == 1 => {
                fronts.failed(&self.text, DEVICE)
            }
            ScriptFault::Store(StoreFault::Memory) if self.faults == 0 => {
                fronts.failed(&self.text, MEMORY)
            }
            ScriptFault::Memory if self.faults == 0 => fronts.ran_out(&self.text),
            _ => None,
        }
    }

    /// Where the desk may be; nothing where what is told is not what has to be.
    pub fn reached(&self, fronts: &Fronts) -> Option<Reach> {
        match self.end {
            None => Some(Reach::exactly(0)),
            Some(Ok(_)) if self.is_whole(fronts) => Some(Reach::exactly(fronts.lines())),
            Some(Err(fault)) if self.counts_well => self.reached_by(fronts, fault),
            _ => None,
        }
    }

    /// Whether a desk was opened.
    pub fn is_opened(&self) -> bool {
        self.end.is_some()
    }

    /// Whether the script ended because there was no memory.
    pub fn is_short(&self) -> bool {
        matches!(
            self.end,
            Some(Err(ScriptFault::Memory | ScriptFault::Store(StoreFault::Memory)))
        )
    }
}
