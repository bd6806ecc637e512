//! What a desk tells of a script.

use crate::example_text::ExampleText;
use desk_run::{Records, ScriptEnd, ScriptFault};
use std::alloc::{AllocError, Global};
use test_doubles::{DeskTask, run_into};

/// What is asked of each desk at the end.
const QUESTIONS: &str = "@show 1\n@show 2\n@show 3\n@show 4\n@show 5\n@show 6\n@show 7\n@show 8
@show 9\n@show 10\n@show 11\n@show 12
@list foo 1.0\n@list foo 1.0-0\n@list foo 1.0-1\n@list foo 2\n@list foo 2-0\n@list foo bar/2
@list bar 1.0\n@list bar foo/2\n@list libfoo1 2\n@list libfoo1 9
";

/// What a desk is given to do.
#[derive(Clone, Copy)]
pub enum ScriptTask<'a> {
    Nothing,
    /// A script, and then the questions.
    Script(&'a str),
    /// A part of a script, which begins with a directive without its sign.
    Part(&'a str),
    Questions,
}

/// What a desk told of a script, and how the script goes where it runs part by part.
#[derive(Drop)]
pub struct ScriptRun {
    pub output: ExampleText,
    // Who sends the messages of the next part.
    sender: String,
    is_refused: bool,
    fault: Option<ScriptFault>,
}

// What is told of an end, and of faults of the store.
fn end_text(end: Result<ScriptEnd, ScriptFault>, faults: u64) -> &'static str {
    match end {
        _ if faults > 0 => "-- faults\n",
        Ok(ScriptEnd::Accepted) => "-- accepted\n",
        Ok(ScriptEnd::Refused) => "-- refused\n",
        Err(_) => "-- fault\n",
    }
}

// A part with its sign, as a script by this sender.
fn script_of(alloc: Global, sender: &str, part: &str) -> Result<String, AllocError> {
    format!(in alloc; "@from {sender}\n@{part}\n")
}

impl DeskTask<ScriptRun> for ScriptTask<'_> {
    fn run_on<R: Records>(&self, alloc: Global, desk: &mut R, told: &mut ScriptRun) {
        told.run_task(alloc, desk, *self);
    }
}

impl ScriptRun {
    /// Nothing yet.
    pub fn new(alloc: Global) -> ScriptRun {
        ScriptRun {
            output: ExampleText::new(alloc),
            sender: String::new(alloc),
            is_refused: false,
            fault: None,
        }
    }

    /// Begins with a script that runs part by part, which nobody sends yet.
    pub fn begin_parts(&mut self) {
        self.name("nobody");
    }

    // Runs a script, and tells what it writes and how it ends.
    fn run<R: Records>(&mut self, alloc: Global, desk: &mut R, script: &str) {
        let end = run_into(alloc, desk, script, &mut self.output.text);
        self.output.add(end_text(end, desk.faults()));
    }

    // Takes another sender.
    fn name(&mut self, sender: &str) {
        self.sender.clear();
        let named = self.sender.push_str(sender);
        self.output.note(named);
    }

    // Notes how a part ended, and who sends the next one.
    fn go_on(&mut self, part: &str, end: Result<ScriptEnd, ScriptFault>) {
        self.is_refused = self.is_refused || end == Ok(ScriptEnd::Refused);
        self.fault = end.err();
        let (line, _) = part.split_once('\n').unwrap_or((part, ""));
        if let Some(sender) = line.strip_prefix("from ") {
            self.name(sender);
        }
    }

    // Runs a part, and tells what it writes, unless an earlier one ended with a fault.
    fn run_part<R: Records>(&mut self, alloc: Global, desk: &mut R, part: &str) {
        if self.fault.is_some() {
            return;
        }
        match script_of(alloc, self.sender.as_str(), part) {
            Ok(script) => {
                let end = run_into(alloc, desk, script.as_str(), &mut self.output.text);
                self.go_on(part, end);
            }
            Err(error) => self.output.note(Err(error)),
        }
    }

    // Has a desk do a task, and tells of it.
    fn run_task<R: Records>(&mut self, alloc: Global, desk: &mut R, task: ScriptTask<'_>) {
        match task {
            ScriptTask::Nothing => {}
            ScriptTask::Script(script) => {
                self.run(alloc, desk, script);
                self.run(alloc, desk, QUESTIONS);
            }
            ScriptTask::Part(part) => self.run_part(alloc, desk, part),
            ScriptTask::Questions => self.run(alloc, desk, QUESTIONS),
        }
    }

    /// Tells how the script ended that ran part by part.
    pub fn end_parts(&mut self) {
        let end = match self.fault {
            Some(fault) => Err(fault),
            None if self.is_refused => Ok(ScriptEnd::Refused),
            None => Ok(ScriptEnd::Accepted),
        };
        self.output.add(end_text(end, 0));
    }

    /// Whether the other told the same.
    pub fn is_like(&self, other: &ScriptRun) -> bool {
        self.output.text == other.output.text
    }
}
