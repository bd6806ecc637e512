//! What is put for an outcome that is kept.

ghost use Rattle.std.specs.Prelude.{◌≡◌, ◌++◌, length, OnOk, IfOk};
ghost use Rattle.store_contract.specs.Kept.{IsOfMessage, IsGoodOutcome};
ghost use Rattle.table_content.specs.Content.{Content};
ghost use Rattle.table_content.specs.Edits.{edited_all};
ghost use Rattle.table_content.specs.Free.{AreFree};
ghost use Rattle.table_content.specs.Kept.{IsKeptContent};
ghost use Rattle.table_content.specs.KeptOutcomes.{with_kept};
ghost use Rattle.table_content.specs.KeptOutcomeLists.{number_puts, message_puts, outcome_puts};
ghost use Rattle.table_encodings.specs.Outcomes.{numbers_of};
ghost use Rattle.table_content.specs.View.{keeping_in};

use crate::edit::Edit;
use bug_record::{Outcome, Sequence};
use debver::Text;
use std::alloc::{AllocError, Global};
use store_contract::copy_outcome;

// The numbers come.
fn put_numbers(
    edits: &mut Sequence<Edit>,
    id: &Text,
    place: u64,
    numbers: &[u64],
) -> Result<(), AllocError>
    ensures { OnOk result (edits.new ≡ edits.old ++ number_puts id.now place numbers.now) }
{
    for number in numbers {
        edits.push(Edit::PutOutcomeNumber {
            id: id.copy()?,
            place,
            number: *number,
        })?;
    }
    Ok(())
}

// The numbers of an accepted line come.
fn put_numbers_of(
    edits: &mut Sequence<Edit>,
    id: &Text,
    place: u64,
    outcome: &Outcome,
) -> Result<(), AllocError>
    ensures { OnOk result (edits.new ≡ edits.old ++ number_puts id.now place (numbers_of outcome.now)) }
{
    match outcome {
        Outcome::Changed(numbers) => put_numbers(edits, id, place, numbers.as_slice()),
        Outcome::Refused(_) | Outcome::Stopped => Ok(()),
    }
}

// The outcome comes, with its numbers.
fn put_outcome(
    edits: &mut Sequence<Edit>,
    id: &Text,
    place: u64,
    outcome: &Outcome,
) -> Result<(), AllocError>
    ensures { OnOk result (edits.new ≡ edits.old ++ outcome_puts id.now place outcome.now) }
{
    edits.push(Edit::PutOutcome {
        id: id.copy()?,
        place,
        outcome: copy_outcome(outcome)?,
    })?;
    put_numbers_of(edits, id, place, outcome)
}

// The message comes with its first outcome.
fn put_message(
    alloc: Global,
    edits: &mut Sequence<Edit>,
    id: &Text,
    from: &str,
    message: &str,
    place: u64,
) -> Result<(), AllocError>
    ensures { OnOk result (edits.new ≡ edits.old ++ message_puts id.now from.now message.now place) }
{
    if place > 0 {
        return Ok(());
    }
    edits.push(Edit::PutMessage {
        id: id.copy()?,
        from: Text::of(alloc, from)?,
        message: Text::of(alloc, message)?,
    })
}

/// What is put for an outcome that is kept of the message of an id, where this many outcomes are
/// kept of it already: the message where there is none, the outcome at that place, and the numbers
/// of an accepted line.
/// The edits are free, where the message is the one that is known of the id, if one is.
/// The error is that there was no memory.
/// This project's own rule.
pub fn keep_edits(
    alloc: Global,
    id: &str,
    from: &str,
    message: &str,
    place: u64,
    outcome: &Outcome,
) -> Result<Sequence<Edit>, AllocError>
    ensures put { IfOk result (λ edits. (c : Content) → IsKeptContent c → place ≡ length (c.outcomes id.now) →
        IsOfMessage from.now message.now (keeping_in c id.now) → IsGoodOutcome outcome.now →
        edited_all edits c ≡ with_kept id.now from.now message.now outcome.now c) }
    ensures free { IfOk result (λ edits. (c : Content) → IsKeptContent c → place ≡ length (c.outcomes id.now) →
        IsOfMessage from.now message.now (keeping_in c id.now) → IsGoodOutcome outcome.now → AreFree edits c) }
{
    let id = Text::of(alloc, id)?;
    let mut edits = Sequence::new(alloc);
    put_message(alloc, &mut edits, &id, from, message, place)?;
    put_outcome(&mut edits, &id, place, outcome)?;
    Ok(edits)
}
