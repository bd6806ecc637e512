//! A message: its lines, taken one at a time.

ghost use Rattle.std.specs.Prelude.{◌≡◌, IfOk, OnOk, OnErr, IsTrue};
ghost use Rattle.base_words.specs.Texts.{IsText};
ghost use Rattle.store_contract.specs.Store.{Holds, with_change, faults_after, faults_after_end};
ghost use Rattle.store_contract.specs.Message.{unreadable_count, end_of, known_names, machine, takes, IsReceived};
ghost use Rattle.store_contract.specs.Progress.{HaveNumbers};
ghost use Rattle.message_plans.specs.Changes.{Fits};
ghost use Rattle.store_contract.specs.Progress.{IsInStep};
ghost use Rattle.message_receiving.specs.Taking.{TakesLine, HasMembers, CarriesOut};
ghost use Rattle.control_lines.specs.Lines.{lines_of};
ghost use Rattle.store_contract.specs.Kept.{has_outcome};
ghost use Rattle.message_receiving.specs.Ends.{IsLineOf, IsLineOfSplit};
ghost use Rattle.store_contract.specs.Tried.{LeavesTried, tried_by, tried_at};
ghost use Rattle.control_grammar.specs.Lines.{reading};

use crate::line_decision::decide_line;
use base_faults::{End, StoreFault};
use bug_record::{Change, Outcome, Sequence};
use control_lines::split_lines;
use debver::Text;
use std::alloc::Global;
use store_contract::{Progress, Received, Records, goes_on, settle};

// Carries a change out, if there is one.
fn carry_out<S: Records>(store: &mut S, change: &Option<Change>) -> Result<(), StoreFault>
    requires members { HasMembers change.now }
    requires fits { S.is_kept store.old → S.is_honest store.old → Fits (S.desk store.old) change.now }
    ensures answer { Holds S.is_kept S.is_honest store.old store.new
        (CarriesOut (S.desk store.old) (S.desk store.new) result change.now) }
    ensures stays { Holds S.is_kept S.is_honest store.old store.new (S.keeping store.new ≡ S.keeping store.old) }
    ensures crash { Holds S.is_kept S.is_honest store.old store.new
        (LeavesTried S.leaves store.old store.new (S.keeping store.old) (S.desk store.old) (S.desk store.new)
        (tried_by result (S.desk store.new) (with_change change.now (S.desk store.old)))) }
    ensures count { S.faults store.new ≡ faults_after result (S.faults store.old) }
{
    match change {
        Some(change) => store.apply(change),
        None => Ok(()),
    }
}

// Takes one line, and says whether it ends the message.
// After a fault nothing is changed.
fn take_line<S: Records>(
    alloc: Global,
    store: &mut S,
    from: &str,
    progress: &mut Progress,
    line: &Text,
) -> Result<End, StoreFault>
    requires sender { IsText from.now }
    requires in_step { IsInStep progress.old.outcomes.items progress.old.unreadable progress.old.known.names }
    ensures answer { Holds S.is_kept S.is_honest store.old store.new (HaveNumbers progress.old.known.names
        → TakesLine from.now (S.desk store.old) progress.old.outcomes.items (S.desk store.new)
        progress.new.outcomes.items progress.new.known.names result line.now) }
    ensures stays { Holds S.is_kept S.is_honest store.old store.new (S.keeping store.new ≡ S.keeping store.old) }
    ensures crash { Holds S.is_kept S.is_honest store.old store.new (HaveNumbers progress.old.known.names
        → LeavesTried S.leaves store.old store.new (S.keeping store.old) (S.desk store.old) (S.desk store.new)
        (tried_by result (S.desk store.new)
        (takes from.now (machine (S.desk store.old) progress.old.outcomes.items) line.now (reading line.now)).desk)) }
    ensures count { S.faults store.new ≡ faults_after result (S.faults store.old) }
    ensures counted { OnOk result (progress.new.unreadable ≡ unreadable_count progress.new.outcomes.items) }
    ensures known { OnOk result (progress.new.known.names ≡ known_names progress.new.outcomes.items) }
    ensures end { IfOk result (λ end. end_of progress.new.outcomes.items ≡ end) }
    ensures same { OnErr result (progress.new.outcomes.items ≡ progress.old.outcomes.items) }
    ensures failed { OnErr result (IsTrue (has_outcome line.now)) }
{
    match decide_line(alloc, store, from, progress, line) {
        Ok(Some((text, decision))) => {
            carry_out(store, &decision.change)?;
            Ok(settle(progress, text, decision.outcome))
        }
        Ok(None) => Ok(End::All),
        Err(fault) => Err(fault),
    }
}

/// Takes the lines of a message from this sender, as `receive` does: a line stands here without its
/// line feed and the carriage return before it.
/// The line that is told of a store fault is the one that failed: it is not blank and no comment.
pub fn receive_lines<S: Records>(
    alloc: Global,
    store: &mut S,
    from: &str,
    lines: &[Text],
) -> Received
    requires { IsText from.now }
    ensures answer { Holds S.is_kept S.is_honest store.old store.new
        (IsReceived from.now lines.now (S.desk store.old) result.outcomes result.end (S.desk store.new)) }
    ensures stays { Holds S.is_kept S.is_honest store.old store.new (S.keeping store.new ≡ S.keeping store.old) }
    ensures crash { Holds S.is_kept S.is_honest store.old store.new
        (LeavesTried S.leaves store.old store.new (S.keeping store.old) (S.desk store.old) (S.desk store.new)
        (tried_at from.now lines.now (S.desk store.old) result.end (S.desk store.new))) }
    ensures line { IsLineOf result.end lines.now }
    ensures count { S.faults store.new ≡ faults_after_end result.end (S.faults store.old) }
{
    let mut progress = Progress::new(alloc);
    for (i, line) in lines.iter().enumerate() {
        match take_line(alloc, store, from, &mut progress, line) {
            Ok(end) => {
                if !goes_on(end) {
                    return progress.received(end);
                }
            }
            Err(fault) => return progress.received(End::Store(fault, i as u64 + 1)),
        }
    }
    progress.received(End::All)
}

/// Takes a message from this sender.
/// At a store fault at line k the lines before k were carried out, line k changed nothing, and
/// later ones were not taken; all growths of a line come before its change.
/// Lines count from 1.
/// Line k is the one that failed: it is not blank and no comment, except that line 1 is told where
/// there was no memory to split the message into its lines.
/// What is kept of messages that have an id stays.
pub fn receive<S: Records>(alloc: Global, store: &mut S, from: &str, message: &str) -> Received
    requires { IsText from.now }
    ensures answer { Holds S.is_kept S.is_honest store.old store.new
        (IsReceived from.now (lines_of message.now) (S.desk store.old) result.outcomes result.end (S.desk store.new)) }
    ensures stays { Holds S.is_kept S.is_honest store.old store.new (S.keeping store.new ≡ S.keeping store.old) }
    ensures crash { Holds S.is_kept S.is_honest store.old store.new
        (LeavesTried S.leaves store.old store.new (S.keeping store.old) (S.desk store.old) (S.desk store.new)
        (tried_at from.now (lines_of message.now) (S.desk store.old) result.end (S.desk store.new))) }
    ensures line { IsLineOfSplit result.end (lines_of message.now) }
    ensures count { S.faults store.new ≡ faults_after_end result.end (S.faults store.old) }
{
    if message.is_empty() {
        return Received {
            outcomes: Sequence::new(alloc),
            end: End::All,
        };
    }
    match split_lines(alloc, message) {
        Ok(lines) => receive_lines(alloc, store, from, lines.as_slice()),
        Err(_) => Received {
            outcomes: Sequence::new(alloc),
            end: End::Store(StoreFault::Memory, 1),
        },
    }
}
