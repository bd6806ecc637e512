//! A message that is sent to the desk in files, whatever becomes of them.

use crate::message_with_id::{Ended, MessageWithId};
use base_faults::StoreFault;
use desk_run::{End, OnceFault, Records};
use sqlite::{Alter, Connection};
use std::alloc::Global;
use test_doubles::{ConnectionTask, DeskTask, on_made, open, run_into};

/// What came of a message that was sent.
#[derive(Drop)]
pub(crate) struct Attempt {
    /// What was told of it.
    pub text: Vec<u8>,
    /// What the questions after it were answered.
    pub shown: Vec<u8>,
    // Nothing where no desk could be opened.
    ended: Ended,
}

/// A message that is sent to a desk, and what the desk is asked after it.
#[derive(Clone, Copy)]
pub(crate) struct SendTask<'a> {
    pub message: &'a MessageWithId,
    pub questions: &'a str,
}

impl DeskTask<Attempt> for SendTask<'_> {
    fn run_on<R: Records>(&self, alloc: Global, desk: &mut R, attempt: &mut Attempt) {
        attempt.send(alloc, desk, *self);
    }
}

impl ConnectionTask<Attempt> for SendTask<'_> {
    fn run_over<S: Alter>(
        &self,
        alloc: Global,
        conn: Connection<S>,
        attempt: &mut Attempt,
    ) -> Connection<S> {
        on_made(alloc, open(alloc, conn), self, attempt)
    }
}

impl Attempt {
    /// No message yet.
    pub fn new(alloc: Global) -> Attempt {
        Attempt {
            text: Vec::new(alloc),
            shown: Vec::new(alloc),
            ended: None,
        }
    }

    // Sends a message to a desk, and asks the desk the questions.
    fn send<R: Records>(&mut self, alloc: Global, desk: &mut R, sent: SendTask<'_>) {
        self.ended = sent
            .message
            .send(alloc, desk, &mut self.text)
            .unwrap_or(None);
        let _ = run_into(alloc, desk, sent.questions, &mut self.shown);
    }

    /// Whether the message came to its end.
    pub fn is_done(&self) -> bool {
        matches!(
            self.ended,
            Some(Ok(End::All | End::Stopped | End::TooManyUnreadable))
        )
    }

    /// The line at which a stop was told, 0 where it was met before any, and one more than the
    /// message has where it came to its end; nothing where something else is told.
    pub fn stopped_at(&self, message: &MessageWithId) -> Option<u64> {
        match self.ended {
            None | Some(Err(OnceFault::Store(StoreFault::Device))) => Some(0),
            Some(Ok(End::Store(StoreFault::Device, line))) => Some(line),
            _ if self.is_done() => Some(message.lines.saturating_add(1)),
            _ => None,
        }
    }
}
