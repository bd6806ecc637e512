//! What is kept of a message that has an id.

ghost use Rattle.std.specs.Prelude.{◌≡◌, Some, IfOk, IfErr};
ghost use Rattle.sqlite.specs.Held.{state};
ghost use Rattle.table_encodings.specs.Outcomes.{numbered};
ghost use Rattle.table_content.specs.View.{with_their_numbers, outcomes_of, keeping_in};
ghost use Rattle.table_schema.specs.Steps.{Reads, Serves};
ghost use Rattle.bug_record.specs.declared.outcome.Outcome.TheVariants.{Changed};
ghost use Rattle.base_faults.specs.declared.store_fault.StoreFault.TheVariants.{Memory};

use base_faults::StoreFault;
use bug_record::{Outcome, Sequence};
use sqlite::{Alter, Transaction};
use std::alloc::Global;
use store_contract::{Kept, copy_outcome};
use table_content::{SentMessage, ToldOutcome};
use table_nodes::{read_message, read_outcome_numbers, read_outcomes};
use table_schema::parameter;

// An equal outcome, or that there was no memory.
fn copied(outcome: &Outcome) -> Result<Outcome, StoreFault>
    ensures value { IfOk result (λ copy. copy ≡ outcome.now) }
    ensures memory { IfErr result (λ fault. fault ≡ Memory) }
{
    Ok(copy_outcome(outcome)?)
}

// The outcome of the accepted line at a place.
fn read_changed<S: Alter>(
    alloc: Global,
    tx: &mut Transaction<'_, S>,
    id: &str,
    place: u64,
) -> Result<Outcome, StoreFault>
    ensures same_reference { tx.new.conn.ghost_name ≡ tx.old.conn.ghost_name }
    ensures reads { Reads (λ c outcome. outcome ≡ Changed (c.outcome_numbers id.now place)) (state S.Store tx.old.conn.now) (state S.Store tx.new.conn.now) result }
{
    let place = parameter(place)?;
    let numbers = read_outcome_numbers(alloc, tx, id, place)?;
    Ok(Outcome::Changed(numbers))
}

// The outcome, with the numbers of its place where it is that of an accepted line.
fn read_numbered<S: Alter>(
    alloc: Global,
    tx: &mut Transaction<'_, S>,
    id: &str,
    told: &ToldOutcome,
) -> Result<Outcome, StoreFault>
    ensures same_reference { tx.new.conn.ghost_name ≡ tx.old.conn.ghost_name }
    ensures reads { Reads (λ c outcome. outcome ≡ numbered (c.outcome_numbers id.now told.now.place) told.now.outcome)
        (state S.Store tx.old.conn.now) (state S.Store tx.new.conn.now) result }
{
    match &told.outcome {
        Outcome::Changed(_) => read_changed(alloc, tx, id, told.place),
        outcome => copied(outcome),
    }
}

// The outcomes, each with the numbers of its place where it is that of an accepted line.
fn read_all_numbered<S: Alter>(
    alloc: Global,
    tx: &mut Transaction<'_, S>,
    id: &str,
    told: &[ToldOutcome],
) -> Result<Sequence<Outcome>, StoreFault>
    ensures same_reference { tx.new.conn.ghost_name ≡ tx.old.conn.ghost_name }
    ensures reads { Reads (λ c outcomes. outcomes ≡ with_their_numbers (c.outcome_numbers id.now) told.now)
        (state S.Store tx.old.conn.now) (state S.Store tx.new.conn.now) result }
{
    let mut outcomes = Sequence::new(alloc);
    for one in told {
        let outcome = read_numbered(alloc, tx, id, one)?;
        outcomes.push(outcome)?;
    }
    Ok(outcomes)
}

// The outcomes of the message of an id, in order.
fn read_told<S: Alter>(
    alloc: Global,
    tx: &mut Transaction<'_, S>,
    id: &str,
) -> Result<Sequence<Outcome>, StoreFault>
    ensures same_reference { tx.new.conn.ghost_name ≡ tx.old.conn.ghost_name }
    ensures reads { Reads (λ c outcomes. outcomes ≡ outcomes_of c id.now) (state S.Store tx.old.conn.now) (state S.Store tx.new.conn.now) result }
{
    let told = read_outcomes(alloc, tx, id)?;
    read_all_numbered(alloc, tx, id, told.as_slice())
}

// What is kept of a message that is known.
fn read_known<S: Alter>(
    alloc: Global,
    tx: &mut Transaction<'_, S>,
    id: &str,
    sent: SentMessage,
) -> Result<Option<Kept>, StoreFault>
    ensures same_reference { tx.new.conn.ghost_name ≡ tx.old.conn.ghost_name }
    ensures reads { Reads (λ c kept. kept ≡ Some (record { from = sent.from; message = sent.message; outcomes = outcomes_of c id.now }))
        (state S.Store tx.old.conn.now) (state S.Store tx.new.conn.now) result }
{
    let outcomes = read_told(alloc, tx, id)?;
    Ok(Some(Kept {
        from: sent.from,
        message: sent.message,
        outcomes,
    }))
}

/// What is kept of the message of an id; `None` where it is not known.
/// `Memory` where there is none for it.
pub fn read_kept<S: Alter>(
    alloc: Global,
    tx: &mut Transaction<'_, S>,
    id: &str,
) -> Result<Option<Kept>, StoreFault>
    ensures same_reference { tx.new.conn.ghost_name ≡ tx.old.conn.ghost_name }
    ensures reads { Reads (λ c kept. kept ≡ keeping_in c id.now) (state S.Store tx.old.conn.now) (state S.Store tx.new.conn.now) result }
    ensures serves { Serves (state S.Store tx.old.conn.now) (state S.Store tx.new.conn.now) result }
{
    match read_message(alloc, tx, id)? {
        Some(sent) => read_known(alloc, tx, id, sent),
        None => Ok(None),
    }
}
