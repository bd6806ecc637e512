//! What is kept of a message that has an id.

ghost use Rattle.std.specs.Prelude.{◌≡◌, IfOk};

use bug_record::{Outcome, Refusal, Sequence};
use debver::Text;
use std::alloc::AllocError;

/// What is kept of a message that has an id: its sender, its text, and the outcomes of its first
/// lines that are neither blank nor comments, in order.
#[derive(Drop)]
pub struct Kept {
    pub from: Text,
    pub message: Text,
    pub outcomes: Sequence<Outcome>,
}

impl Kept {
    /// An equal value, whose texts share the memory of these.
    /// It answers out of memory where there is none for the outcomes, or where no more copies of a
    /// text can be counted.
    pub fn copy(&self) -> Result<Kept, AllocError>
        ensures { IfOk result (λ k. k ≡ self.now) }
    {
        Ok(Kept {
            from: self.from.copy()?,
            message: self.message.copy()?,
            outcomes: copy_outcomes(&self.outcomes)?,
        })
    }
}

fn copy_outcomes(outcomes: &Sequence<Outcome>) -> Result<Sequence<Outcome>, AllocError>
    ensures { IfOk result (λ r. r ≡ outcomes.now) }
{
    let mut copies = outcomes.empty();
    for outcome in outcomes.as_slice() {
        copies.push(copy_outcome(outcome)?)?;
    }
    Ok(copies)
}

/// An equal outcome.
/// It answers out of memory where there is none for its numbers, or where no more copies of a text
/// can be counted.
pub fn copy_outcome(outcome: &Outcome) -> Result<Outcome, AllocError>
    ensures { IfOk result (λ r. r ≡ outcome.now) }
{
    match outcome {
        Outcome::Changed(numbers) => Ok(Outcome::Changed(numbers.copy()?)),
        Outcome::Refused(refusal) => Ok(Outcome::Refused(copy_refusal(refusal)?)),
        Outcome::Stopped => Ok(Outcome::Stopped),
    }
}

fn copy_refusal(refusal: &Refusal) -> Result<Refusal, AllocError>
    ensures { IfOk result (λ r. r ≡ refusal.now) }
{
    match refusal {
        Refusal::Unknown => Ok(Refusal::Unknown),
        Refusal::Malformed => Ok(Refusal::Malformed),
        Refusal::TooLong => Ok(Refusal::TooLong),
        Refusal::BadSeverity => Ok(Refusal::BadSeverity),
        Refusal::BadTag => Ok(Refusal::BadTag),
        Refusal::BadVersion => Ok(Refusal::BadVersion),
        Refusal::BadPackage => Ok(Refusal::BadPackage),
        Refusal::NoName(name) => Ok(Refusal::NoName(*name)),
        Refusal::NoBug(number) => Ok(Refusal::NoBug(*number)),
        Refusal::Archived(number) => Ok(Refusal::Archived(*number)),
        Refusal::NotArchived(number) => Ok(Refusal::NotArchived(*number)),
        Refusal::Differ(field, number) => Ok(Refusal::Differ(*field, *number)),
        Refusal::NotMerged(number) => Ok(Refusal::NotMerged(*number)),
        Refusal::Merged(number) => Ok(Refusal::Merged(*number)),
        Refusal::NameTaken(name) => Ok(Refusal::NameTaken(*name)),
        Refusal::OwnSet(number) => Ok(Refusal::OwnSet(*number)),
        Refusal::NotDone(number) => Ok(Refusal::NotDone(*number)),
        Refusal::StillFound(node) => Ok(Refusal::StillFound(node.copy()?)),
        Refusal::Full => Ok(Refusal::Full),
    }
}
