//! A message that has an id, and what comes of it on a desk.

use base_words::is_text;
use desk_run::{End, OnceFault, Received, Records, receive_once, received_text};
use std::alloc::{AllocError, Global};

/// A message that has an id.
#[derive(Drop)]
pub(crate) struct MessageWithId {
    id: String,
    from: String,
    message: String,
    /// How many lines the message was given.
    pub lines: u64,
}

/// How a message was answered; nothing where its sender is none.
pub(crate) type Ended = Option<Result<End, OnceFault>>;

// Tells how a message ended.
fn end_text(alloc: Global, end: End) -> Result<String, AllocError> {
    match end {
        End::All => String::from_str(alloc, "-> all\n"),
        End::Stopped => String::from_str(alloc, "-> stopped\n"),
        End::TooManyUnreadable => String::from_str(alloc, "-> too many unreadable\n"),
        End::Store(fault, line) => {
            format!(in alloc; "-> store {} at line {line}\n", fault.word())
        }
    }
}

// Tells why a message is not taken.
fn fault_text(alloc: Global, fault: OnceFault) -> Result<String, AllocError> {
    match fault {
        OnceFault::BadId => String::from_str(alloc, "-> bad id\n"),
        OnceFault::Reused => String::from_str(alloc, "-> reused\n"),
        OnceFault::Store(fault) => format!(in alloc; "-> store {}\n", fault.word()),
    }
}

impl MessageWithId {
    /// A message without an id, and without lines.
    pub fn new(alloc: Global) -> Result<MessageWithId, AllocError> {
        let from = String::from_str(alloc, "ann")?;
        Ok(MessageWithId {
            id: String::new(alloc),
            from,
            message: String::new(alloc),
            lines: 0,
        })
    }

    // Begins a message with this id.
    fn begin(&mut self, id: &str) -> Result<(), AllocError> {
        self.id.clear();
        self.id.push_str(id)?;
        self.message.clear();
        self.lines = 0;
        Ok(())
    }

    // Adds a line to the message.
    fn add(&mut self, line: &str) -> Result<(), AllocError> {
        if self.lines > 0 {
            self.message.push('\n')?;
        }
        self.message.push_str(line)?;
        self.lines = self.lines.saturating_add(1);
        Ok(())
    }

    /// Takes a line of data that begins a message, names its sender or gives it a line; whether it
    /// did.
    pub fn take(&mut self, line: &str) -> Result<bool, AllocError> {
        if let Some(rest) = line.strip_prefix("id [") {
            self.begin(rest.strip_suffix("]").unwrap_or(rest))?;
            return Ok(true);
        }
        if let Some(from) = line.strip_prefix("from ") {
            self.from.clear();
            self.from.push_str(from)?;
            return Ok(true);
        }
        match line.strip_prefix("| ") {
            Some(part) => {
                self.add(part)?;
                Ok(true)
            }
            None => Ok(false),
        }
    }

    // Adds the transcript of the message to a text, and how it ended.
    fn tell(
        &self,
        alloc: Global,
        received: &Received,
        text: &mut Vec<u8>,
    ) -> Result<(), AllocError> {
        received_text(alloc, text, received, self.message.as_str())?;
        text.extend_from_slice(end_text(alloc, received.end)?.as_bytes())
    }

    /// Sends the message to a desk, adds to a text what comes of it, and answers how it ended.
    pub fn send<S: Records>(
        &self,
        alloc: Global,
        desk: &mut S,
        text: &mut Vec<u8>,
    ) -> Result<Ended, AllocError> {
        let from = self.from.as_str();
        if !is_text(from) {
            text.extend_from_slice(b"-> bad sender\n")?;
            return Ok(None);
        }
        match receive_once(alloc, desk, self.id.as_str(), from, self.message.as_str()) {
            Ok(received) => {
                self.tell(alloc, &received, text)?;
                Ok(Some(Ok(received.end)))
            }
            Err(fault) => {
                text.extend_from_slice(fault_text(alloc, fault)?.as_bytes())?;
                Ok(Some(Err(fault)))
            }
        }
    }
}
