//! One exchange: a request that comes at once or in pieces, and what is written and told.

use crate::answers::shown;
use desk_http::{ServeFault, Served, serve_one};
use memory_desk::PlainDesk;
use std::alloc::{AllocError, Global};
use std::io::{self, Read};

/// Gives one byte a read.
#[derive(Drop)]
pub(crate) struct Trickle<'a> {
    pub left: &'a [u8],
}

impl Read for Trickle<'_> {
    fn read(&mut self, buf: &mut [u8]) -> io::Result<usize> {
        let len = self.left.len().min(buf.len()).min(1);
        buf[..len].copy_from_slice(&self.left[..len]);
        self.left = &self.left[len..];
        Ok(len)
    }
}

// Whether a status that was told stands in the first line of an answer.
fn is_status_of(alloc: Global, told: u16, answer: &[u8]) -> Result<bool, AllocError> {
    let start = format!(in alloc; "HTTP/1.1 {told} ")?;
    Ok(answer.starts_with(start.as_bytes()))
}

// What is told of an exchange, where it is not the status that the answer has.
fn told_text(
    alloc: Global,
    told: &Result<Served, ServeFault>,
    answer: &[u8],
) -> Result<&'static str, AllocError> {
    match told {
        Ok(Served::Answered(status)) => {
            if is_status_of(alloc, status.as_u16(), answer)? {
                Ok("")
            } else {
                Ok("-- told as another status\n")
            }
        }
        Ok(Served::Closed) => Ok("-- closed\n"),
        Err(ServeFault::Read) => Ok("-- fault: read\n"),
        Err(ServeFault::Write) => Ok("-- fault: write\n"),
    }
}

/// Serves one request on a desk: its answer as lines, and a line of its own where none is told, or
/// another status.
pub(crate) fn served<R: Read>(
    alloc: Global,
    desk: &mut PlainDesk,
    reader: &mut R,
) -> Result<String, AllocError> {
    let mut answer = Vec::new(alloc);
    let told = serve_one(alloc, desk, reader, &mut answer);
    let mut text = String::new(alloc);
    if !answer.is_empty() {
        text.push_str(&shown(alloc, &answer)?)?;
        text.push('\n')?;
    }
    text.push_str(told_text(alloc, &told, &answer)?)?;
    Ok(text)
}
