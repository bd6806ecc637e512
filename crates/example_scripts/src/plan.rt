//! What is sent while a disk stops, and what has to come of it.

use crate::attempt::{Attempt, SendTask};
use crate::message_with_id::MessageWithId;
use desk_run::Records;
use sqlite::{Alter, Connection};
use sqlite_pager::Options;
use std::alloc::{AllocError, Global};
use test_doubles::{
    ConnectionTask, DatabaseFiles, DeskTask, answer_to, in_memory, new_desk, on_made, open,
    over_files,
};

/// A message, what is run on the desk before it, and what the desk is asked after it.
#[derive(Drop)]
pub(crate) struct Plan {
    before: String,
    /// The message.
    pub message: MessageWithId,
    /// The questions.
    pub questions: String,
}

// Adds a line to a text.
fn add_line(text: &mut String, line: &str) -> Result<(), AllocError> {
    text.push_str(line)?;
    text.push('\n')
}

// A script that is run before the message.
#[derive(Clone, Copy)]
struct Before<'a> {
    script: &'a str,
}

impl DeskTask<()> for Before<'_> {
    fn run_on<R: Records>(&self, alloc: Global, desk: &mut R, _told: &mut ()) {
        drop(answer_to(alloc, desk, self.script));
    }
}

impl ConnectionTask<()> for Before<'_> {
    fn run_over<S: Alter>(
        &self,
        alloc: Global,
        conn: Connection<S>,
        told: &mut (),
    ) -> Connection<S> {
        on_made(alloc, open(alloc, conn), self, told)
    }
}

impl DeskTask<Attempt> for Plan {
    fn run_on<R: Records>(&self, alloc: Global, desk: &mut R, goal: &mut Attempt) {
        drop(answer_to(alloc, desk, self.before.as_str()));
        self.sent().run_on(alloc, desk, goal);
    }
}

impl Plan {
    /// Nothing to send yet, and nothing to ask.
    pub fn new(alloc: Global) -> Result<Plan, AllocError> {
        let message = MessageWithId::new(alloc)?;
        Ok(Plan {
            before: String::new(alloc),
            message,
            questions: String::new(alloc),
        })
    }

    /// Takes a line of data that is run before the message, is asked after it, or says something of
    /// it; whether it was one.
    pub fn take(&mut self, line: &str) -> Result<bool, AllocError> {
        if let Some(part) = line.strip_prefix("! ") {
            add_line(&mut self.before, part)?;
            return Ok(true);
        }
        match line.strip_prefix("? ") {
            Some(question) => {
                add_line(&mut self.questions, question)?;
                Ok(true)
            }
            None => self.message.take(line),
        }
    }

    /// The message, and the questions after it.
    pub fn sent(&self) -> SendTask<'_> {
        SendTask {
            message: &self.message,
            questions: self.questions.as_str(),
        }
    }

    /// The files of a new desk on which the script before the message was run.
    pub fn base(&self, alloc: Global) -> DatabaseFiles {
        let before = Before {
            script: self.before.as_str(),
        };
        over_files(alloc, new_desk(alloc), Options::new(1), &before, &mut ())
    }

    /// What comes of the message on a desk in memory, which meets no stop.
    pub fn goal(&self, alloc: Global) -> Attempt {
        let mut goal = Attempt::new(alloc);
        in_memory(alloc, self, &mut goal);
        goal
    }
}
