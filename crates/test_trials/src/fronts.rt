//! What a desk in memory tells of each front of a script.

use desk_run::Records;
use std::alloc::{AllocError, Global};
use test_doubles::{DeskTask, answer_to, in_memory, run_into};

/// What is asked of a desk after the questions: it tells the next number.
const REPORT: &str = "@report foo - normal the last one\n";

/// What ends the output where the disk fails.
pub const DEVICE: &str = "Store fault: device.\n";

/// What ends the output where the store has no memory.
pub const MEMORY: &str = "Store fault: memory.\n";

/// The fewest and the most lines that a desk may have carried out.
#[derive(Clone, Copy)]
pub struct Reach {
    pub fewest: usize,
    pub most: usize,
}

/// A script, and, of each of its fronts, from no line to all lines, what it writes and how the desk
/// answers the questions after it.
#[derive(Drop)]
pub struct Fronts {
    // What was run on the desk before.
    before: String,
    /// The whole script.
    pub script: String,
    /// The questions.
    pub questions: String,
    // Of each line, whether it is a directive.
    directives: Vec<bool>,
    fronts: Vec<Front>,
}

// What a front of a script writes, and how the questions are answered after it.
#[derive(Drop)]
struct Front {
    written: Vec<u8>,
    shown: Vec<u8>,
}

// A text that is UTF-8; an empty one where it is not.
fn text_in(bytes: &[u8]) -> &str {
    std::str::from_utf8(bytes).unwrap_or("")
}

// Whether this is nothing, or a command that was being carried out.
fn is_echo(rest: &str) -> bool {
    rest.is_empty() || (rest.starts_with("> ") && rest.lines().count() == 1)
}

// Whether all questions but the report are answered so where all are answered like this; up to one
// at which the disk fails.
fn is_front(all: &str, answers: &str) -> bool {
    match answers.strip_suffix(DEVICE) {
        Some(answered) => all.starts_with(answered),
        None => match all.strip_prefix(answers) {
            Some(rest) => rest.lines().count() == 1,
            None => false,
        },
    }
}

// Adds a line to a text.
fn add_line(text: &mut String, line: &str) -> Result<(), AllocError> {
    text.push_str(line)?;
    text.push('\n')
}

impl Reach {
    /// So many lines.
    pub fn exactly(lines: usize) -> Reach {
        Reach {
            fewest: lines,
            most: lines,
        }
    }

    /// So many lines, or one more.
    pub fn around(lines: usize) -> Reach {
        Reach {
            fewest: lines,
            most: lines.saturating_add(1),
        }
    }
}

impl DeskTask<Front> for Fronts {
    fn run_on<R: Records>(&self, alloc: Global, desk: &mut R, front: &mut Front) {
        drop(answer_to(alloc, desk, self.before.as_str()));
        let _ = run_into(alloc, desk, self.script.as_str(), &mut front.written);
        let _ = run_into(alloc, desk, self.questions.as_str(), &mut front.shown);
        let _ = run_into(alloc, desk, REPORT, &mut front.shown);
    }
}

impl Fronts {
    /// A script of no line yet, on a new desk, and no question.
    pub fn new(alloc: Global) -> Result<Fronts, AllocError> {
        let mut fronts = Fronts {
            before: String::new(alloc),
            script: String::new(alloc),
            questions: String::new(alloc),
            directives: Vec::new(alloc),
            fronts: Vec::new(alloc),
        };
        fronts.note(alloc)?;
        Ok(fronts)
    }

    // Notes what the script writes, as far as it goes, and how the questions are answered then.
    fn note(&mut self, alloc: Global) -> Result<(), AllocError> {
        let mut front = Front {
            written: Vec::new(alloc),
            shown: Vec::new(alloc),
        };
        in_memory(alloc, self, &mut front);
        self.fronts.push(front)?;
        Ok(())
    }

    // Begins with no line of the script.
    fn begin(&mut self, alloc: Global) -> Result<(), AllocError> {
        self.script.clear();
        self.directives.clear();
        self.fronts.clear();
        self.note(alloc)
    }

    /// Begins the script on a desk on which this one was run before.
    pub fn begin_after(&mut self, alloc: Global, before: &str) -> Result<(), AllocError> {
        self.before.clear();
        self.before.push_str(before)?;
        self.begin(alloc)
    }

    // Adds a question, and begins the script.
    fn ask(&mut self, alloc: Global, question: &str) -> Result<(), AllocError> {
        add_line(&mut self.questions, question)?;
        self.begin(alloc)
    }

    // Adds a line of the script.
    fn add(&mut self, alloc: Global, line: &str) -> Result<(), AllocError> {
        add_line(&mut self.script, line)?;
        self.directives.push(line.starts_with("@"))?;
        self.note(alloc)
    }

    /// Takes a line of data that is one of the script, or a question; whether it was.
    pub fn take(&mut self, alloc: Global, line: &str) -> Result<bool, AllocError> {
        if let Some(part) = line.strip_prefix("| ") {
            self.add(alloc, part)?;
            return Ok(true);
        }
        match line.strip_prefix("? ") {
            Some(question) => {
                self.ask(alloc, question)?;
                Ok(true)
            }
            None => Ok(false),
        }
    }

    /// The questions, and the report after them.
    pub fn all_questions(&self, alloc: Global) -> Result<String, AllocError> {
        let mut text = String::from_str(alloc, self.questions.as_str())?;
        text.push_str(REPORT)?;
        Ok(text)
    }

    /// How many lines there are.
    pub fn lines(&self) -> usize {
        self.fronts.len().saturating_sub(1)
    }

    // What so many lines write; nothing where there are fewer.
    fn written(&self, lines: usize) -> Option<&str> {
        match self.fronts.get(lines) {
            Some(front) => Some(text_in(&front.written)),
            None => None,
        }
    }

    /// Whether this is what the whole script writes.
    pub fn is_whole(&self, text: &[u8]) -> bool {
        self.written(self.lines()) == Some(text_in(text))
    }

    // Whether this is what is written where the store fails so after so many lines.
    fn fails_after(&self, lines: usize, text: &str, fault: &str) -> bool {
        let Some(written) = self.written(lines) else {
            return false;
        };
        match text.strip_prefix(written).unwrap_or("").strip_suffix(fault) {
            Some(rest) => is_echo(rest),
            None => false,
        }
    }

    /// Where the desk may be where the store failed so and this was written: after the lines that
    /// were answered, as many as they may be, or after one more.
    pub fn failed(&self, text: &[u8], fault: &str) -> Option<Reach> {
        let mut reach = None;
        for lines in 0..self.fronts.len() {
            if self.fails_after(lines, text_in(text), fault) {
                reach = Some(Reach::around(lines));
            }
        }
        reach
    }

    // Whether the line that follows so many is a directive.
    fn is_directive(&self, lines: usize) -> bool {
        matches!(self.directives.get(lines), Some(true))
    }

    // The number of lines with which the part after so many ends: a directive, or a message.
    fn part_end(&self, lines: usize) -> usize {
        for end in lines.saturating_add(1)..self.lines() {
            if self.is_directive(end.saturating_sub(1)) || self.is_directive(end) {
                return end;
            }
        }
        self.lines()
    }

    /// Where the desk may be where memory ran out and this was written: after the lines that were
    /// answered, or after some of the part that follows, which has no answer then.
    pub fn ran_out(&self, text: &[u8]) -> Option<Reach> {
        let mut reach: Option<Reach> = None;
        for lines in 0..self.fronts.len() {
            if self.written(lines) == Some(text_in(text)) {
                let fewest = match reach {
                    Some(earlier) => earlier.fewest,
                    None => lines,
                };
                let most = self.part_end(lines);
                reach = Some(Reach { fewest, most });
            }
        }
        reach
    }

    // How all questions are answered after so many lines.
    fn shown(&self, lines: usize) -> &str {
        match self.fronts.get(lines) {
            Some(front) => text_in(&front.shown),
            None => "",
        }
    }

    /// Whether all questions are answered so somewhere in this reach.
    pub fn shows(&self, reach: Reach, answers: &[u8]) -> bool {
        for lines in reach.fewest..reach.most.saturating_add(1) {
            if !answers.is_empty() && self.shown(lines) == text_in(answers) {
                return true;
            }
        }
        false
    }

    /// Whether the questions, but for the report, are answered so somewhere in this reach, up to
    /// one at which the disk fails.
    pub fn shows_front(&self, reach: Reach, answers: &[u8]) -> bool {
        for lines in reach.fewest..reach.most.saturating_add(1) {
            if is_front(self.shown(lines), text_in(answers)) {
                return true;
            }
        }
        false
    }

    /// Whether the line that follows so many is accepted, so that the store writes.
    pub fn writes_after(&self, lines: usize) -> bool {
        let before = self.written(lines).unwrap_or("");
        let after = self.written(lines.saturating_add(1)).unwrap_or("");
        match after.strip_prefix(before) {
            Some(answer) => answer.contains("OK"),
            None => false,
        }
    }
}
