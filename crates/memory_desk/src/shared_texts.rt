//! The texts of branches, so that marks of their versions share memory.

ghost use Rattle.std.specs.Prelude.{◌≡◌, IfSome};

use debver::Text;
use std::alloc::{AllocError, Global};
use std::hash::{FoldHasher, Hasher};
use version_nodes::Node;

// How many texts are kept at most.
const SLOTS: usize = 1_024;

/// The texts of nodes that branches had; of texts with one slot the last one is kept.
/// It is a matter of memory and time alone: no answer depends on what is kept.
/// This project's own rule.
#[derive(Drop)]
pub(crate) struct SharedTexts {
    // No slots before the first branch.
    slots: Vec<Option<Text>>,
}

// The slot of a text.
fn slot_of(text: &str) -> usize {
    let mut hasher = FoldHasher::default();
    hasher.write(text.as_bytes());
    (hasher.finish() % SLOTS as u64) as usize
}

// The slots, in which nothing is kept.
fn empty_slots(alloc: Global) -> Result<Vec<Option<Text>>, AllocError> {
    let mut slots = Vec::new(alloc);
    for _slot in 0..SLOTS {
        slots.push(None)?;
    }
    Ok(slots)
}

impl SharedTexts {
    /// No text.
    /// It takes no memory.
    pub(crate) fn new(alloc: Global) -> SharedTexts {
        SharedTexts {
            slots: Vec::new(alloc),
        }
    }

    // Keeps a text, unless it is kept.
    fn keep(&mut self, alloc: Global, text: &str) -> Result<(), AllocError> {
        if self.find(text).is_some() {
            return Ok(());
        }
        if let Some(slot) = self.slots.get_mut(slot_of(text)) {
            *slot = Some(Text::of(alloc, text)?);
        }
        Ok(())
    }

    /// Keeps the texts of these nodes.
    /// The error is that there was no memory; some of them may be kept then.
    pub(crate) fn keep_all(&mut self, alloc: Global, nodes: &[Node]) -> Result<(), AllocError> {
        if self.slots.is_empty() {
            self.slots = empty_slots(alloc)?;
        }
        for node in nodes {
            self.keep(alloc, node.source())?;
            self.keep(alloc, node.version())?;
        }
        Ok(())
    }

    /// This text, where it is kept.
    /// It takes no memory.
    pub(crate) fn find(&self, text: &str) -> Option<Text>
        ensures { IfSome result (λ kept. kept ≡ text.now) }
    {
        match self.slots.get(slot_of(text)) {
            Some(Some(kept)) if kept.as_str() == text => kept.copy().ok(),
            _ => None,
        }
    }
}
