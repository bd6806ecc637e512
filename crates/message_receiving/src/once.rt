//! Messages that act once per line.

ghost use Rattle.std.specs.Prelude.{◌≡◌, false, true, IfOk, IfErr, Result, ⊤};
ghost use Rattle.std.specs.Str.{bytes_eq};
ghost use Rattle.base_words.specs.Texts.{IsText};
ghost use Rattle.control_lines.specs.Lines.{lines_of};
ghost use Rattle.store_contract.specs.Store.{Holds, Asks};
ghost use Rattle.base_words.specs.Ids.{is_id};
ghost use Rattle.store_contract.specs.Kept.{IsOfMessage, outcomes_kept, told};
ghost use Rattle.store_contract.specs.Message.{known_names, unreadable_count, end_of};
ghost use Rattle.message_recall.specs.Recalling.{AreOfLines, IsTaken};
ghost use Rattle.message_receiving.specs.Ends.{IsLineOf};
ghost use Rattle.message_receiving.specs.Once.{IsOnce, faults_after_once};
ghost use Rattle.message_receiving.specs.Crashes.{LeavesOnce};

use crate::going_on::go_on;
use base_faults::StoreFault;
use bug_record::Outcome;
use control_lines::split_lines;
use debver::Text;
use message_recall::{RecallFault, Recalled, recall};
use std::alloc::Global;
use store_contract::{Kept, Received, Records, goes_on, is_id};
use thiserror::Error;

/// Why a message that has an id is not taken.
#[derive(Clone, Copy, Debug, PartialEq, Eq, Drop, Error)]
pub enum OnceFault {
    /// The id is none.
    #[error("bad id")]
    BadId,
    /// The id is known with another sender or another text.
    #[error("the id is known with another sender or another text")]
    Reused,
    /// The store failed, or there was no memory, before the first line that has no kept outcome.
    #[error(transparent)]
    Store(StoreFault),
}

impl From<StoreFault> for OnceFault {
    ghost use Rattle.std.specs.Prelude.{◌≡◌};
    ghost use Rattle.message_receiving.specs.declared.once.OnceFault.TheVariants.{Store};

    ghost from_gives = { λ fault e. e ≡ Store fault };

    fn from(fault: StoreFault) -> OnceFault {
        OnceFault::Store(fault)
    }
}

// Whether what is kept of an id, if it is known, is of this sender and this text.
fn is_of_message(kept: &Option<Kept>, from: &str, message: &str) -> bool
    ensures yes { result ≡ true → IsOfMessage from.now message.now kept.now }
    ensures no { result ≡ false → IsOfMessage from.now message.now kept.now → ⊥ }
{
    match kept {
        Some(kept) => kept.from.as_str() == from && kept.message.as_str() == message,
        None => true,
    }
}

// The outcomes that are kept of an id, if it is known.
fn outcomes_kept(kept: &Option<Kept>) -> &[Outcome]
    ensures { result.now ≡ outcomes_kept kept.now }
{
    match kept {
        Some(kept) => kept.outcomes.as_slice(),
        None => &[],
    }
}

// The lines of a message, and what is recalled of them where what is kept of its id is of this
// sender and this text; else that is a mismatch too.
fn recall_kept(
    alloc: Global,
    from: &str,
    message: &str,
    kept: &Option<Kept>,
) -> Result<(Vec<Text>, Recalled), RecallFault>
    ensures same { IfOk result (λ r. IsOfMessage from.now message.now kept.now) }
    ensures split { IfOk result (λ r. r.0.items ≡ lines_of message.now) }
    ensures outcomes { IfOk result (λ r. r.1.progress.outcomes.items ≡ told (lines_of message.now) (outcomes_kept kept.now)) }
    ensures lines { IfOk result (λ r. IsTaken (lines_of message.now) (outcomes_kept kept.now) r.1.lines) }
    ensures counted { IfOk result (λ r. r.1.progress.unreadable ≡ unreadable_count r.1.progress.outcomes.items) }
    ensures known { IfOk result (λ r. r.1.progress.known.names ≡ known_names r.1.progress.outcomes.items) }
    ensures end { IfOk result (λ r. end_of r.1.progress.outcomes.items ≡ r.1.end) }
    ensures mismatch { result ≡ Result.Err RecallFault.Mismatch → IsOfMessage from.now message.now kept.now
        → AreOfLines (lines_of message.now) (outcomes_kept kept.now) → ⊥ }
{
    if !is_of_message(kept, from, message) {
        return Err(RecallFault::Mismatch);
    }
    let Ok(lines) = split_lines(alloc, message) else {
        return Err(RecallFault::Memory);
    };
    match recall(alloc, lines.as_slice(), outcomes_kept(kept)) {
        Ok(recalled) => Ok((lines, recalled)),
        Err(fault) => Err(fault),
    }
}

// The same, and what is kept is given up.
// This is one call, so that what is promised is not proved beside it at each return.
fn recall_given(
    alloc: Global,
    from: &str,
    message: &str,
    kept: Option<Kept>,
) -> Result<(Vec<Text>, Recalled), RecallFault>
    ensures same { IfOk result (λ r. IsOfMessage from.now message.now kept) }
    ensures split { IfOk result (λ r. r.0.items ≡ lines_of message.now) }
    ensures outcomes { IfOk result (λ r. r.1.progress.outcomes.items ≡ told (lines_of message.now) (outcomes_kept kept)) }
    ensures lines { IfOk result (λ r. IsTaken (lines_of message.now) (outcomes_kept kept) r.1.lines) }
    ensures counted { IfOk result (λ r. r.1.progress.unreadable ≡ unreadable_count r.1.progress.outcomes.items) }
    ensures known { IfOk result (λ r. r.1.progress.known.names ≡ known_names r.1.progress.outcomes.items) }
    ensures end { IfOk result (λ r. end_of r.1.progress.outcomes.items ≡ r.1.end) }
    ensures mismatch { result ≡ Result.Err RecallFault.Mismatch → IsOfMessage from.now message.now kept
        → AreOfLines (lines_of message.now) (outcomes_kept kept) → ⊥ }
{
    let recalled = recall_kept(alloc, from, message, &kept);
    drop(kept);
    recalled
}

/// Takes a message that has an id from this sender, as `receive` does, but each of its lines that
/// has an outcome acts once: the outcomes that are kept of the message are answered again, and it
/// goes on at the first line that has an outcome and has none kept.
/// Where the kept ones end the message, no line is taken.
/// Each line's outcome is kept and its change is carried out in one step.
/// An id becomes known with its first kept outcome.
/// A fault of the store at line k is told as the end, as `receive` does.
///
/// # Errors
///
/// `BadId` where the id is none, `Reused` where it is known with another sender or text, and
/// `Store` for a fault, or where memory ran out, before the first line that has no kept outcome is
/// begun, in this order, except that a fault as what is kept is read comes before `Reused`.
/// Then nothing has changed, and the store was asked questions and no more: a fault at the first
/// new line is told as the end.
pub fn receive_once<S: Records>(
    alloc: Global,
    store: &mut S,
    id: &str,
    from: &str,
    message: &str,
) -> Result<Received, OnceFault>
    requires { IsText from.now }
    ensures answer { Holds S.is_kept S.is_honest store.old store.new
        (IsOnce id.now from.now message.now (S.desk store.old) (S.keeping store.old) result (S.desk store.new)
        (S.keeping store.new)) }
    ensures crash { Holds S.is_kept S.is_honest store.old store.new
        (LeavesOnce S.leaves store.old store.new id.now from.now message.now (S.desk store.old, S.keeping store.old) result
        (S.desk store.new, S.keeping store.new)) }
    ensures bad { is_id id.now ≡ false → result ≡ Result.Err OnceFault.BadId }
    ensures good { result ≡ Result.Err OnceFault.BadId → is_id id.now ≡ false }
    ensures same { result ≡ Result.Err OnceFault.BadId → store.new ≡ store.old }
    ensures asked { IfErr result (λ fault. Asks S.is_kept S.is_honest S.leaves store.old store.new ⊤) }
    ensures line { IfOk result (λ r. IsLineOf r.end (lines_of message.now)) }
    ensures count { S.faults store.new ≡ faults_after_once result (S.faults store.old) }
{
    if !is_id(id) {
        return Err(OnceFault::BadId);
    }
    let kept = store.kept(id)?;
    match recall_given(alloc, from, message, kept) {
        Ok((lines, recalled)) => {
            if !goes_on(recalled.end) {
                return Ok(recalled.progress.received(recalled.end));
            }
            let lines = lines.as_slice();
            Ok(go_on(alloc, store, id, from, message, lines, recalled))
        }
        Err(RecallFault::Mismatch) => Err(OnceFault::Reused),
        Err(RecallFault::Memory) => Err(OnceFault::Store(StoreFault::Memory)),
    }
}
