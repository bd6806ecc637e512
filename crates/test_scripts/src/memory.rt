//! A message with an id for whose lines there is no memory.

use base_faults::StoreFault;
use desk_run::{OnceFault, Received, receive_once};
use memory_desk::PlainDesk;
use std::alloc::{AllocError, Global};
use std::test::Fail;
use store_contract::Records;
use test_trials::HeldMemory;

/// How many lines a long message has.
const LINES: usize = 200_000;

/// The memory that is left for a call: so many blocks of so many bytes, which hold what is kept of
/// an id, and not the lines of a long message.
const BLOCKS: usize = 16;

const SIZE: usize = 4096;

// Takes a message with an id, that ann sent.
#[tactic(auto, unfolding(base_words::specs::Texts::is_text))]
fn take<S: Records>(
    alloc: Global,
    store: &mut S,
    id: &str,
    message: &str,
) -> Result<Received, OnceFault> {
    receive_once(alloc, store, id, "ann", message)
}

// A message of so many empty lines.
fn long_message(alloc: Global) -> Result<String, AllocError> {
    let mut text = String::new(alloc);
    for _ in 0..LINES {
        text.push('\n')?;
    }
    Ok(text)
}

// All memory but the room for the calls.
fn held(alloc: Global) -> Result<HeldMemory, AllocError> {
    let mut held = HeldMemory::nothing(alloc);
    held.make_room()?;
    held.hold_all(alloc)?;
    Ok(held)
}

// Why a message is not taken where there is little memory; `None` where it is taken, or there is
// less.
fn refused<S: Records>(
    alloc: Global,
    held: &mut HeldMemory,
    store: &mut S,
    id: &str,
    message: &str,
) -> Option<OnceFault> {
    let is_left = held.leave(alloc, BLOCKS, SIZE);
    let taken = take(alloc, store, id, message);
    held.give_back();
    match taken {
        Err(fault) if is_left => Some(fault),
        _ => None,
    }
}

#[test]
fn an_id_in_use_is_told_before_that_there_is_no_memory_for_the_lines(
    rt: HostRuntime,
) -> Result<(), Fail> {
    let alloc = rt.alloc();
    let mut desk = PlainDesk::new(alloc, 1);
    let long = long_message(alloc)?;
    assert!(rt; take(alloc, &mut desk, "m1", "close 1").is_ok());
    let mut held = held(alloc)?;
    let in_use = refused(alloc, &mut held, &mut desk, "m1", long.as_str());
    let is_new = refused(alloc, &mut held, &mut desk, "m2", long.as_str());
    drop(held);
    assert!(rt; in_use == Some(OnceFault::Reused));
    assert!(rt; is_new == Some(OnceFault::Store(StoreFault::Memory)));
    Ok(())
}
