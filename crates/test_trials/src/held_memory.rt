//! Memory that is held back, so that there is little for a desk.

use std::alloc::{AllocError, Global};

/// The largest block that is asked for.
const LARGEST: usize = 70_368_744_177_664;

/// How much memory is left for the runs in all.
const ROOM: usize = 67_108_864;

/// How many blocks a list has room for.
const MOST_BLOCKS: usize = 200_000;

/// Blocks of memory, to which nothing is written.
type Blocks = Vec<Vec<u8>>;

/// Memory that is held back.
#[derive(Drop)]
pub struct HeldMemory {
    // All but the room for the runs.
    all: Blocks,
    // What is held of that room during a run.
    rest: Blocks,
    // What a run may have, while the rest is taken.
    left: Blocks,
}

// The size after this one: half of it, and at last less by the step in which blocks are kept that
// are given back.
fn next_size(size: usize) -> usize {
    if size > 1024 {
        size / 2
    } else {
        size.saturating_sub(16)
    }
}

// Takes a block of this size; whether there was one, and the list had room for it.
fn take_block(alloc: Global, size: usize, blocks: &mut Blocks) -> bool {
    match Vec::with_capacity(alloc, size) {
        Ok(block) => blocks.push(block).is_ok(),
        Err(_) => false,
    }
}

// Takes blocks of this size up to so many in the list; whether there were as many.
fn take(alloc: Global, size: usize, most: usize, blocks: &mut Blocks) -> bool {
    for _ in blocks.len()..most {
        if !take_block(alloc, size, blocks) {
            return false;
        }
    }
    true
}

// Takes all memory, the largest blocks first; whether the list had room for all.
fn take_all(alloc: Global, largest: usize, blocks: &mut Blocks) -> bool {
    let mut size = largest;
    for _ in 0..128 {
        if size > 0 && take(alloc, size, MOST_BLOCKS, blocks) {
            return false;
        }
        size = next_size(size);
    }
    true
}

impl HeldMemory {
    /// Nothing, and no list for it.
    pub fn nothing(alloc: Global) -> HeldMemory {
        HeldMemory {
            all: Vec::new(alloc),
            rest: Vec::new(alloc),
            left: Vec::new(alloc),
        }
    }

    /// Makes room for all in the lists.
    pub fn make_room(&mut self) -> Result<(), AllocError> {
        self.all.reserve(MOST_BLOCKS)?;
        self.rest.reserve(MOST_BLOCKS)?;
        self.left.reserve(MOST_BLOCKS)
    }

    /// Holds all memory but the room for the runs; whether the list was long enough.
    pub fn hold_all(&mut self, alloc: Global) -> Result<bool, AllocError> {
        let room: Vec<u8> = Vec::with_capacity(alloc, ROOM)?;
        let is_all = take_all(alloc, LARGEST, &mut self.all);
        drop(room);
        Ok(is_all)
    }

    /// Holds all of the room but so many blocks of this size; whether there are as many, and the
    /// list was long enough.
    pub fn leave(&mut self, alloc: Global, blocks: usize, size: usize) -> bool {
        let are_left = take(alloc, size, blocks, &mut self.left);
        let is_all = take_all(alloc, ROOM, &mut self.rest);
        self.left.clear();
        are_left && is_all
    }

    /// Gives the room for the runs back.
    pub fn give_back(&mut self) {
        self.rest.clear();
    }
}
