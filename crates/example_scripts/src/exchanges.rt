//! HTTP exchanges, each run on two desks: to one a request comes at once, to the other one byte at
//! a time.

use crate::data_lines::{DataLine, read_data_line};
use crate::requests::request_of;
use crate::serving::{Trickle, served};
use base_words::LARGEST_NUMBER;
use memory_desk::PlainDesk;
use std::alloc::Global;
use std::io;

// Two desks that have taken the same requests.
#[derive(Drop)]
struct Desks {
    at_once: PlainDesk,
    in_pieces: PlainDesk,
}

impl Desks {
    fn new(alloc: Global, first: u64) -> Desks {
        let first = first.clamp(1, LARGEST_NUMBER);
        Desks {
            at_once: PlainDesk::new(alloc, first),
            in_pieces: PlainDesk::new(alloc, first),
        }
    }
}

// Serves a request on both desks, and prints what comes of it; for its pieces only where it is
// something else.
fn serve(rt: &HostRuntime, desks: &mut Desks, request: &[u8]) -> io::Result<()> {
    let mut reader = request;
    let at_once = served(rt.alloc(), &mut desks.at_once, &mut reader)?;
    print!(rt; "{at_once}")?;
    let mut reader = Trickle { left: request };
    let in_pieces = served(rt.alloc(), &mut desks.in_pieces, &mut reader)?;
    if in_pieces.as_str() != at_once.as_str() {
        print!(rt; "-- in pieces:\n{in_pieces}")?;
    }
    Ok(())
}

// Serves the request of these lines, if there are any.
fn serve_lines(rt: &HostRuntime, desks: &mut Desks, lines: &[&str]) -> io::Result<()> {
    if lines.is_empty() {
        return Ok(());
    }
    match request_of(rt.alloc(), lines)? {
        Some(request) => serve(rt, desks, &request),
        None => println!(rt; "-- bad request line"),
    }
}

/// Runs the exchanges of a file, and prints its lines, and after each request what it is answered.
pub(crate) fn run_file(rt: &HostRuntime, text: &str) -> io::Result<()> {
    let mut desks = Desks::new(rt.alloc(), 1);
    let mut request = Vec::new(rt.alloc());
    for line in text.split_terminator('\n') {
        let part = read_data_line(line);
        if !matches!(part, DataLine::More(_)) {
            serve_lines(rt, &mut desks, &request)?;
            request.clear();
        }
        println!(rt; "{line}")?;
        match part {
            DataLine::Desk { first } => desks = Desks::new(rt.alloc(), first),
            DataLine::Note => {}
            DataLine::Request(text) | DataLine::More(text) => request.push(text)?,
        }
    }
    serve_lines(rt, &mut desks, &request)
}
