//! A listener in memory: what each client sends stands beforehand, and what each was sent is kept.

ghost use Rattle.std.specs.Prelude.{Some, None};
ghost use Rattle.desk_http.specs.Serving.{HasEnded};

use desk_http::{Connection, Limits, Listens};
use std::alloc::Global;
use std::io::{self, Read, Write};
use std::time::Duration;

/// An end of a connection, whose bytes stand here.
#[derive(Drop)]
pub(crate) struct End<T> {
    bytes: T,
}

impl<T> Limits for End<T> {
    fn limit_reads(&self, _limit: Duration) -> io::Result<()> {
        Ok(())
    }

    fn limit_writes(&self, _limit: Duration) -> io::Result<()> {
        Ok(())
    }

    fn end_writes(&self) -> io::Result<()> {
        Ok(())
    }
}

impl Read for End<&[u8]> {
    ghost remaining = { λ s. Some s.bytes.now };

    fn read(&mut self, buf: &mut [u8]) -> io::Result<usize> {
        self.bytes.read(buf)
    }
}

impl Write for End<Vec<u8>> {
    ghost contents = { λ s. Some s.bytes.items };

    fn write(&mut self, buf: &[u8]) -> io::Result<usize> {
        self.bytes.write(buf)
    }

    fn flush(&mut self) -> io::Result<()> {
        Ok(())
    }
}

/// Clients, who wait with their requests, and what those were sent whose connections have ended.
#[derive(Drop)]
pub(crate) struct Visitors<'a> {
    alloc: Global,
    requests: &'a [&'a [u8]],
    // How many of them no longer wait.
    taken: usize,
    answers: Vec<Vec<u8>>,
    is_whole: bool,
}

impl<'a> Visitors<'a> {
    /// Clients who wait with these requests.
    pub fn new(alloc: Global, requests: &'a [&'a [u8]]) -> Visitors<'a> {
        Visitors {
            alloc,
            requests,
            taken: 0,
            answers: Vec::new(alloc),
            is_whole: true,
        }
    }

    /// Whether so many clients wait still, and the others were sent exactly these texts.
    pub fn got(&self, waiting: usize, texts: &[&str]) -> bool {
        self.is_whole
            && self.requests.len().saturating_sub(self.taken) == waiting
            && self.answers.len() == texts.len()
            && self
                .answers
                .iter()
                .zip(texts)
                .all(|(answer, text)| answer.as_slice() == text.as_bytes())
    }
}

impl<'a> Listens<End<&'a [u8]>, End<Vec<u8>>> for Visitors<'a> {
    ghost clients = { λ _. None };

    fn next_connection(&mut self) -> Option<Connection<End<&'a [u8]>, End<Vec<u8>>>> {
        let bytes = *self.requests.get(self.taken)?;
        self.taken = self.taken.saturating_add(1);
        Some(Connection {
            reader: End { bytes },
            writer: End {
                bytes: Vec::new(self.alloc),
            },
        })
    }

    fn end_connection(&mut self, connection: Connection<End<&'a [u8]>, End<Vec<u8>>>)
        ensures { HasEnded (Some connection.entry.writer.bytes.items) None None }
    {
        if self.answers.push(connection.writer.bytes).is_err() {
            self.is_whole = false;
        }
    }
}
