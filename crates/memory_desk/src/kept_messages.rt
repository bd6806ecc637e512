//! What a desk in memory keeps of messages that have an id.

ghost use Rattle.std.specs.Prelude.{◌≡◌, ◌-◌, length, take, OnOk, OnErr, IfOk};
ghost use Rattle.std.specs.Option.{option_copied};
ghost use Rattle.store_contract.specs.Kept.{none_kept, IsOfMessage, kept_also};
ghost use Rattle.memory_desk.specs.KeptMessages.{one_outcome};

use bug_record::{Outcome, Sequence};
use debver::Text;
use std::alloc::{AllocError, Global};
use std::collections::BTreeMap;
use store_contract::Kept;

/// What a desk in memory keeps of messages, by their ids.
#[derive(Drop)]
pub(crate) struct KeptMessages {
    by_id: BTreeMap<String, Kept>,
}

// What is kept of a message with its first outcome.
fn first_kept(
    alloc: Global,
    from: &str,
    message: &str,
    outcome: Outcome,
) -> Result<Kept, AllocError>
    ensures { IfOk result (λ kept. kept ≡ one_outcome from.now message.now outcome) }
{
    let from = Text::of(alloc, from)?;
    let message = Text::of(alloc, message)?;
    let mut outcomes = Sequence::new(alloc);
    outcomes.push(outcome)?;
    Ok(Kept {
        from,
        message,
        outcomes,
    })
}

// Takes the last outcome away.
fn remove_last(outcomes: &mut Sequence<Outcome>)
    ensures { outcomes.new ≡ take (length outcomes.old - 1) outcomes.old }
{
    outcomes.remove_last();
}

impl KeptMessages {
    ghost use Rattle.memory_desk.specs.KeptMessages.{keeping_of, without_last};

    /// Nothing is kept.
    /// It takes no memory.
    pub(crate) fn new(alloc: Global) -> KeptMessages
        ensures { keeping_of result ≡ none_kept }
    {
        KeptMessages {
            by_id: BTreeMap::new(alloc),
        }
    }

    /// What is kept of the message of this id.
    pub(crate) fn get(&self, id: &str) -> Option<&Kept>
        ensures { option_copied result ≡ keeping_of self.now id.now }
    {
        self.by_id.get(id)
    }

    /// Keeps an outcome behind those of the id.
    /// Where there is no memory, all is as before.
    pub(crate) fn add(
        &mut self,
        alloc: Global,
        id: &str,
        from: &str,
        message: &str,
        outcome: Outcome,
    ) -> Result<(), AllocError>
        requires { IsOfMessage from.now message.now (keeping_of self.old id.now) }
        ensures ok { OnOk result (keeping_of self.new ≡ kept_also id.now from.now message.now outcome (keeping_of self.old)) }
        ensures err { OnErr result (keeping_of self.new ≡ keeping_of self.old) }
    {
        match self.by_id.get_mut(id) {
            Some(kept) => kept.outcomes.push(outcome),
            None => {
                let id = String::from_str(alloc, id)?;
                let kept = first_kept(alloc, from, message, outcome)?;
                self.by_id.insert(id, kept)?;
                Ok(())
            }
        }
    }

    /// Takes back the last outcome of the id; where there was no other, the id is not known any
    /// more.
    /// It takes no memory.
    pub(crate) fn take_back(&mut self, id: &str)
        ensures { keeping_of self.new ≡ without_last id.now (keeping_of self.old) }
    {
        if let Some(kept) = self.by_id.get_mut(id) {
            if kept.outcomes.as_slice().len() > 1 {
                remove_last(&mut kept.outcomes);
                return;
            }
        }
        self.by_id.remove(id);
    }
}
