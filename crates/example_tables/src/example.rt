//! A file of examples while it is run.

use crate::questions::QuestionAnswers;
use base_faults::StoreFault;
use desk_tables::OpenFault;
use std::alloc::{AllocError, Global};
use test_trials::ExampleText;

/// The lines of a file, what is told of them, and what is to be known of one line at a later one.
#[derive(Drop)]
pub(crate) struct Example {
    lines: Vec<String>,
    // How many lines were taken.
    taken: usize,
    pub output: ExampleText,
    /// What the questions were answered when they were last asked.
    pub answers: QuestionAnswers,
    /// Whether there is a desk, which is to be opened once its files are opened anew.
    pub is_desk: bool,
}

impl Example {
    // No line.
    fn empty(alloc: Global) -> Example {
        Example {
            lines: Vec::new(alloc),
            taken: 0,
            output: ExampleText::new(alloc),
            answers: Vec::new(alloc),
            is_desk: false,
        }
    }

    // Adds the lines of a text.
    fn add_lines(&mut self, alloc: Global, text: &str) -> Result<(), AllocError> {
        for line in text.lines() {
            self.lines.push(String::from_str(alloc, line)?)?;
        }
        Ok(())
    }

    /// The lines of a text, of which none is taken.
    pub fn new(alloc: Global, text: &str) -> Result<Example, AllocError> {
        let mut example = Example::empty(alloc);
        example.add_lines(alloc, text)?;
        Ok(example)
    }

    /// How many lines are left.
    pub fn left(&self) -> usize {
        self.lines.len().saturating_sub(self.taken)
    }

    /// The next line; an empty one where none is left.
    pub fn line(&self) -> &str {
        match self.lines.get(self.taken) {
            Some(line) => line.as_str(),
            None => "",
        }
    }

    /// Whether the next line begins so.
    pub fn begins_with(&self, word: &str) -> bool {
        self.line().starts_with(word)
    }

    /// Whether the next line asks for the same files with fewer calls or less room.
    pub fn limits_files(&self) -> bool {
        self.begins_with("calls-left ") || self.begins_with("room-left ")
    }

    /// Whether no line is left that is taken with the same files.
    pub fn is_at_end(&self) -> bool {
        self.left() == 0
            || self.begins_with("== ")
            || self.begins_with("file ")
            || self.limits_files()
    }

    // Takes the next line, and tells it.
    fn take(&mut self) {
        let told = match self.lines.get(self.taken) {
            Some(line) => self.output.text.extend_from_slice(line.as_bytes()),
            None => Ok(()),
        };
        self.output.note(told);
        self.taken = self.taken.saturating_add(1);
    }

    /// Takes the next line, and tells it alone.
    pub fn pass(&mut self) {
        self.take();
        self.output.add("\n");
    }

    /// Takes the next line, and tells it with what it is answered.
    pub fn answer(&mut self, answer: &str) {
        self.take();
        self.output.add(" -> ");
        self.output.add(answer);
        self.output.add("\n");
    }

    /// Takes the next line, and tells it with a number.
    pub fn answer_number(&mut self, alloc: Global, number: u64) {
        self.take();
        self.output.add_made(format!(in alloc; " -> {number}\n"));
    }

    /// Takes the next line, and tells it with a fault.
    pub fn answer_fault(&mut self, alloc: Global, fault: StoreFault) {
        self.take();
        self.output.add_made(format!(in alloc; " -> {fault:?}\n"));
    }

    /// Takes the next line, and tells why no desk was made; nothing where it was not asked.
    pub fn answer_refusal(&mut self, alloc: Global, fault: Option<OpenFault>) {
        match fault {
            Some(fault) => {
                self.take();
                self.output.add_made(format!(in alloc; " -> {fault:?}\n"));
            }
            None => self.answer("not asked"),
        }
    }
}
