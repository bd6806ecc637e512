//! A message that has an id, as it goes on after what is kept of it.

ghost use Rattle.std.specs.Prelude.{◌≡◌, ◌≤◌, ◌+◌, ◌∷◌, [], length, take, true, Some, IfOk, OnOk, OnErr, IsTrue, slice_get};
ghost use Rattle.base_words.specs.Texts.{IsText};
ghost use Rattle.control_lines.specs.Lines.{lines_of};
ghost use Rattle.store_contract.specs.Store.{Holds, Since, faults_after, faults_after_end};
ghost use Rattle.base_words.specs.Ids.{IsId};
ghost use Rattle.store_contract.specs.Kept.{has_outcome, lines_told};
ghost use Rattle.store_contract.specs.Message.{end_of, unreadable_count, known_names};
ghost use Rattle.store_contract.specs.Progress.{IsInStep};
ghost use Rattle.message_receiving.specs.Ends.{IsLineOf};
ghost use Rattle.message_receiving.specs.GoingOn.{IsBegun, TakesOnce, LeavesLine, Resumes};
ghost use Rattle.message_receiving.specs.Crashes.{LeavesTried, tried_once};

use crate::line_decision::decide_line;
use base_faults::{End, StoreFault};
use debver::Text;
use message_recall::Recalled;
use std::alloc::Global;
use store_contract::{Progress, Received, Records, goes_on, settle};

// Takes one line of a message that has an id, and says whether it ends the message: its outcome is
// kept, and its change is carried out, in one step.
// After a fault nothing is changed.
fn take_line<S: Records>(
    alloc: Global,
    store: &mut S,
    id: &str,
    from: &str,
    message: &str,
    progress: &mut Progress,
    line: &Text,
) -> Result<End, StoreFault>
    requires id { IsId id.now }
    requires sender { IsText from.now }
    requires in_step { IsInStep progress.old.outcomes.items progress.old.unreadable progress.old.known.names }
    requires place { has_outcome line.now ≡ true
        → slice_get (lines_told (lines_of message.now)) (length progress.old.outcomes.items) ≡ Some line.now }
    requires begun { Since S.is_kept S.is_honest store.old
        (IsBegun id.now from.now message.now (S.keeping store.old) progress.old.outcomes.items progress.old.known.names) }
    ensures answer { (earlier : S) → Holds S.is_kept S.is_honest earlier store.old
        (IsBegun id.now from.now message.now (S.keeping store.old) progress.old.outcomes.items progress.old.known.names)
        → Holds S.is_kept S.is_honest earlier store.new
        (TakesOnce id.now from.now message.now (S.desk store.old) (S.desk store.new) (S.keeping store.old) (S.keeping store.new)
        progress.old.outcomes.items progress.new.outcomes.items progress.new.known.names result line.now) }
    ensures crash { (earlier : S) → Holds S.is_kept S.is_honest earlier store.old
        (IsBegun id.now from.now message.now (S.keeping store.old) progress.old.outcomes.items progress.old.known.names)
        → Holds S.is_kept S.is_honest earlier store.new
        (LeavesLine S.leaves store.old store.new id.now from.now message.now (S.desk store.old, S.keeping store.old)
        progress.old.outcomes.items line.now result (S.desk store.new, S.keeping store.new)) }
    ensures honest { S.is_honest store.new → S.is_honest store.old }
    ensures count { S.faults store.new ≡ faults_after result (S.faults store.old) }
    ensures length { OnOk result (length progress.new.outcomes.items ≡ length progress.old.outcomes.items + length (lines_told (line.now ∷ []))) }
    ensures counted { OnOk result (progress.new.unreadable ≡ unreadable_count progress.new.outcomes.items) }
    ensures known { OnOk result (progress.new.known.names ≡ known_names progress.new.outcomes.items) }
    ensures end { IfOk result (λ end. end_of progress.new.outcomes.items ≡ end) }
    ensures same { OnErr result (progress.new.outcomes.items ≡ progress.old.outcomes.items) }
    ensures failed { OnErr result (IsTrue (has_outcome line.now)) }
{
    match decide_line(alloc, store, from, progress, line) {
        Ok(Some((text, decision))) => {
            store.keep(
                id,
                from,
                message,
                &decision.outcome,
                decision.change.as_ref(),
            )?;
            Ok(settle(progress, text, decision.outcome))
        }
        Ok(None) => Ok(End::All),
        Err(fault) => Err(fault),
    }
}

/// Takes the lines of a message that have no kept outcome, where the recalled outcomes don't end
/// it.
pub(crate) fn go_on<S: Records>(
    alloc: Global,
    store: &mut S,
    id: &str,
    from: &str,
    message: &str,
    lines: &[Text],
    recalled: Recalled,
) -> Received
    requires id { IsId id.now }
    requires sender { IsText from.now }
    requires lines { lines.now ≡ lines_of message.now }
    requires within { recalled.lines ≤ length lines.now }
    requires all { length (lines_told (take recalled.lines lines.now)) ≡ length recalled.progress.outcomes.items }
    requires in_step { IsInStep recalled.progress.outcomes.items recalled.progress.unreadable recalled.progress.known.names }
    requires begun { Since S.is_kept S.is_honest store.old
        (IsBegun id.now from.now message.now (S.keeping store.old) recalled.progress.outcomes.items recalled.progress.known.names) }
    ensures answer { (earlier : S) → Holds S.is_kept S.is_honest earlier store.old
        (IsBegun id.now from.now message.now (S.keeping store.old) recalled.progress.outcomes.items recalled.progress.known.names)
        → Holds S.is_kept S.is_honest earlier store.new
        (Resumes id.now from.now message.now (S.desk store.old) (S.desk store.new) (S.keeping store.old) (S.keeping store.new)
        recalled.progress.outcomes.items result.outcomes result.end) }
    ensures crash { (earlier : S) → Holds S.is_kept S.is_honest earlier store.old
        (IsBegun id.now from.now message.now (S.keeping store.old) recalled.progress.outcomes.items recalled.progress.known.names)
        → Holds S.is_kept S.is_honest earlier store.new
        (LeavesTried S.leaves store.old store.new (S.desk store.old, S.keeping store.old) (S.desk store.new, S.keeping store.new)
        (tried_once id.now from.now message.now (S.desk store.old, S.keeping store.old) result.end
        (S.desk store.new, S.keeping store.new))) }
    ensures honest { S.is_honest store.new → S.is_honest store.old }
    ensures line { IsLineOf result.end lines.now }
    ensures count { S.faults store.new ≡ faults_after_end result.end (S.faults store.old) }
{
    let mut progress = recalled.progress;
    for i in recalled.lines..lines.len() {
        match take_line(alloc, store, id, from, message, &mut progress, &lines[i]) {
            Ok(end) => {
                if !goes_on(end) {
                    return progress.received(end);
                }
            }
            Err(fault) => return progress.received(End::Store(fault, i as u64 + 1)),
        }
    }
    progress.received(End::All)
}
