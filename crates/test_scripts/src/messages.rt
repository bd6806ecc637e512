//! Messages and their transcripts, as calls.

use crate::left_as_before::failing;
use base_faults::{End, StoreFault};
use desk_run::{Received, receive, received_text};
use memory_desk::PlainDesk;
use std::alloc::{AllocError, Global};
use std::test::Fail;
use store_contract::Records;

// Takes a message that ann sent.
#[tactic(auto, unfolding(base_words::specs::Texts::is_text))]
fn take_message<S: Records>(alloc: Global, store: &mut S, message: &str) -> Received {
    receive(alloc, store, "ann", message)
}

// Whether a message came to so many outcomes, this end, and this transcript.
fn came_to(
    alloc: Global,
    received: &Received,
    message: &str,
    outcomes: usize,
    end: End,
    transcript: &str,
) -> Result<bool, AllocError> {
    let mut text = Vec::from_slice(alloc, b"before\n")?;
    received_text(alloc, &mut text, received, message)?;
    Ok(
        received.outcomes.as_slice().len() == outcomes
            && received.end == end
            && text.as_slice() == transcript.as_bytes(),
    )
}

// What comes of a message to a new desk.
fn new_desk_takes(alloc: Global, message: &str) -> Received {
    let mut desk = PlainDesk::new(alloc, 1);
    take_message(alloc, &mut desk, message)
}

// Whether a message to a new desk comes to so many outcomes, this end, and this transcript.
fn comes_to(
    alloc: Global,
    message: &str,
    outcomes: usize,
    end: End,
    transcript: &str,
) -> Result<bool, AllocError> {
    let received = new_desk_takes(alloc, message);
    came_to(alloc, &received, message, outcomes, end, transcript)
}

// Whether a message to a new desk comes to so many outcomes and this end.
fn ends_so(alloc: Global, message: &str, outcomes: usize, end: End) -> bool {
    let received = new_desk_takes(alloc, message);
    received.outcomes.as_slice().len() == outcomes && received.end == end
}

#[test]
fn an_empty_message_has_no_outcomes(rt: HostRuntime) -> Result<(), Fail> {
    assert!(rt; comes_to(rt.alloc(), "", 0, End::All, "before\n")?);
    Ok(())
}

#[test]
fn the_lines_of_a_message_have_outcomes_up_to_its_end(rt: HostRuntime) -> Result<(), Fail> {
    let alloc = rt.alloc();
    let message = "close 1\r\n# x\nquit\r\nclose 1";
    let transcript = "before\n> close 1\nNO no such bug 1\n> quit\nStopped.\n";
    assert!(rt; comes_to(alloc, message, 2, End::Stopped, transcript)?);
    assert!(rt; ends_so(alloc, "a\nb\nc\nd\ne\nf\n", 5, End::TooManyUnreadable));
    Ok(())
}

// What comes of three commands where the store fails at the second one.
fn failed(alloc: Global) -> Received {
    let mut store = failing(alloc);
    let message = "severity 1 grave\nseverity 2 grave\nseverity 3 grave\n";
    take_message(alloc, &mut store, message)
}

#[test]
fn a_store_that_fails_ends_the_message_before_its_line(rt: HostRuntime) -> Result<(), Fail> {
    let alloc = rt.alloc();
    let received = failed(alloc);
    let end = End::Store(StoreFault::Device, 2);
    let message = "severity 1 grave\nseverity 2 grave\n";
    let transcript = "before\n> severity 1 grave\nOK 1\n> severity 2 grave\nStore fault: device.\n";
    assert!(rt; came_to(alloc, &received, message, 1, end, transcript)?);
    // a message that has no such line is told with an empty one
    let transcript = "before\n> severity 1 grave\nOK 1\n> \nStore fault: device.\n";
    assert!(rt; came_to(alloc, &received, "severity 1 grave\n", 1, end, transcript)?);
    Ok(())
}
