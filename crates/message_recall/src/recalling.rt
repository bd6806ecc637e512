//! What is kept of a message, recalled.

ghost use Rattle.std.specs.Prelude.{◌≡◌, ◌≤◌, ◌++◌, ◌∷◌, ◌<◌, [], vec_len, vec_capacity, true, None, IfOk, OnOk, OnErr, Result};
ghost use Rattle.bug_record.specs.Clones.{name_refusal};
ghost use Rattle.control_grammar.specs.Lines.{reading};
ghost use Rattle.store_contract.specs.Message.{end_of, unreadable_count, known_names, names_of};
ghost use Rattle.store_contract.specs.Kept.{has_outcome, told, new_names};
ghost use Rattle.store_contract.specs.Progress.{IsInStep};
ghost use Rattle.message_recall.specs.NamesRead.{names_read, names_accepted};
ghost use Rattle.message_recall.specs.Recalling.{AreOfLines, IsTaken};

use base_faults::End;
use bug_record::{Outcome, Sequence};
use control_grammar::Line;
use control_parser::{LineFault, read_line};
use debver::Text;
use std::alloc::{AllocError, Global};
use store_contract::{KnownNames, Progress, copy_outcome, goes_on, into_names, make_room, settle};
use thiserror::Error;

/// What kept outcomes come to: what has come of the message so far, how many of its lines that is,
/// and its end.
/// Where `goes_on(end)`, the message goes on at the line `lines`, counted from 0.
#[derive(Drop)]
pub struct Recalled {
    pub progress: Progress,
    pub lines: usize,
    pub end: End,
}

/// Why kept outcomes are not recalled.
#[derive(Clone, Copy, Debug, PartialEq, Eq, Drop, Error)]
pub enum RecallFault {
    /// They can't be those of the message.
    #[error("the kept outcomes are not those of the message")]
    Mismatch,
    /// There was no memory.
    #[error("out of memory")]
    Memory,
}

impl From<AllocError> for RecallFault {
    ghost use Rattle.std.specs.Prelude.{◌≡◌};
    ghost use Rattle.message_recall.specs.declared.recalling.RecallFault.TheVariants.{Memory};

    ghost from_gives = { λ _ e. e ≡ Memory };

    fn from(_error: AllocError) -> RecallFault {
        RecallFault::Memory
    }
}

// The names that a line gives where its command is accepted; `None` where it has no outcome.
fn names_read(alloc: Global, line: &Text) -> Result<Option<Sequence<u32>>, RecallFault>
    ensures names { IfOk result (λ names. names ≡ names_read (reading line.now)) }
    ensures memory { OnErr result (result ≡ Result.Err RecallFault.Memory) }
{
    match read_line(alloc, line.as_str()) {
        Ok(Line::Blank) => Ok(None),
        Ok(Line::Comment) => Ok(None),
        Ok(Line::Stop) => Ok(Some(Sequence::new(alloc))),
        Ok(Line::Do(command)) => Ok(Some(into_names(alloc, command))),
        Err(LineFault::Refused(_)) => Ok(Some(Sequence::new(alloc))),
        Err(LineFault::Memory) => Err(RecallFault::Memory),
    }
}

// Makes the names known that were given where this was the outcome.
fn note(
    alloc: Global,
    known: &mut KnownNames,
    names: &[u32],
    outcome: &Outcome,
) -> Result<(), RecallFault>
    ensures named { OnOk result (known.new.names ≡ known.old.names ++ names_of names.now outcome.now) }
    ensures mismatch { result ≡ Result.Err RecallFault.Mismatch
        → name_refusal known.old.names (names_accepted names.now outcome.now) ≡ None → ⊥ }
{
    let Outcome::Changed(numbers) = outcome else {
        return Ok(());
    };
    if names.is_empty() {
        return Ok(());
    }
    known.make_room(names.len())?;
    match known.refusal(alloc, names)? {
        None => {
            known.bind(names, numbers.as_slice());
            Ok(())
        }
        Some(_) => Err(RecallFault::Mismatch),
    }
}

// Makes room for a kept outcome, and copies it with its line.
fn copies(
    outcomes: &mut Vec<(Text, Outcome)>,
    line: &Text,
    outcome: &Outcome,
) -> Result<(Text, Outcome), RecallFault>
    ensures same { outcomes.new.items ≡ outcomes.old.items }
    ensures room { OnOk result (vec_len outcomes.new < vec_capacity outcomes.new) }
    ensures entry { IfOk result (λ entry. entry ≡ (line.now, outcome.now)) }
    ensures memory { OnErr result (result ≡ Result.Err RecallFault.Memory) }
{
    let Ok(text) = make_room(outcomes, line) else {
        return Err(RecallFault::Memory);
    };
    Ok((text, copy_outcome(outcome)?))
}

// Recalls the outcome that is kept of a line, if the line has one, and says whether it ends the
// message.
fn recall_line(
    alloc: Global,
    progress: &mut Progress,
    line: &Text,
    outcome: &Outcome,
) -> Result<End, RecallFault>
    requires in_step { IsInStep progress.old.outcomes.items progress.old.unreadable progress.old.known.names }
    ensures added { OnOk result
        (progress.new.outcomes.items ≡ progress.old.outcomes.items ++ told (line.now ∷ []) (outcome.now ∷ [])) }
    ensures counted { OnOk result (progress.new.unreadable ≡ unreadable_count progress.new.outcomes.items) }
    ensures known { OnOk result (progress.new.known.names ≡ known_names progress.new.outcomes.items) }
    ensures end { IfOk result (λ end. end_of progress.new.outcomes.items ≡ end) }
    ensures mismatch { result ≡ Result.Err RecallFault.Mismatch
        → name_refusal (known_names progress.old.outcomes.items) (new_names (line.now, outcome.now)) ≡ None → ⊥ }
    ensures told { result ≡ Result.Err RecallFault.Mismatch → has_outcome line.now ≡ true }
{
    let Some(names) = names_read(alloc, line)? else {
        return Ok(End::All);
    };
    let (text, outcome) = copies(&mut progress.outcomes, line, outcome)?;
    note(alloc, &mut progress.known, names.as_slice(), &outcome)?;
    Ok(settle(progress, text, outcome))
}

/// Recalls the outcomes that are kept of a message of these lines: its first lines that have an
/// outcome have these, in their order.
/// Neither the lines nor the kept outcomes are changed, and no store is asked.
///
/// # Errors
///
/// `Mismatch` where the kept outcomes can't be those of these lines: there are more than lines that
/// have one, one stands after one that ends the message, or a name is given twice.
/// `Memory` where there was no memory for what is recalled.
/// Then nothing is left of what was recalled so far.
pub fn recall(alloc: Global, lines: &[Text], kept: &[Outcome]) -> Result<Recalled, RecallFault>
    ensures outcomes { IfOk result (λ r. r.progress.outcomes.items ≡ told lines.now kept.now) }
    ensures lines { IfOk result (λ r. IsTaken lines.now kept.now r.lines) }
    ensures counted { IfOk result (λ r. r.progress.unreadable ≡ unreadable_count r.progress.outcomes.items) }
    ensures known { IfOk result (λ r. r.progress.known.names ≡ known_names r.progress.outcomes.items) }
    ensures end { IfOk result (λ r. end_of r.progress.outcomes.items ≡ r.end) }
    ensures mismatch { result ≡ Result.Err RecallFault.Mismatch → AreOfLines lines.now kept.now → ⊥ }
{
    let mut progress = Progress::new(alloc);
    let mut end = End::All;
    for (i, line) in lines.iter().enumerate() {
        let outcome = match kept.get(progress.outcomes.as_slice().len()) {
            Some(outcome) => outcome,
            None => {
                return Ok(Recalled {
                    progress,
                    lines: i,
                    end,
                });
            }
        };
        if !goes_on(end) {
            return Err(RecallFault::Mismatch);
        }
        end = recall_line(alloc, &mut progress, line, outcome)?;
    }
    if progress.outcomes.as_slice().len() < kept.len() {
        return Err(RecallFault::Mismatch);
    }
    Ok(Recalled {
        progress,
        lines: lines.len(),
        end,
    })
}
