//! One line of a message, decided.

ghost use Rattle.std.specs.Prelude.{◌≡◌, ◌<◌, [], vec_len, vec_capacity, is_some, true, IfOk, OnErr, Ok, Some, Result, IsTrue};
ghost use Rattle.base_words.specs.Texts.{IsText, IfGiven};
ghost use Rattle.bug_record.specs.Commands.{HasGoodParts, bugs_named, names_in};
ghost use Rattle.bug_record.specs.Sets.{Each};
ghost use Rattle.base_words.specs.Bugs.{IsGoodBug};
ghost use Rattle.base_words.specs.Numbers.{IsGoodNumber};
ghost use Rattle.control_grammar.specs.Lines.{reading};
ghost use Rattle.control_grammar.specs.declared.line.Line.TheVariants.{Do};
ghost use Rattle.store_contract.specs.Store.{Asks, Answers, faults_after};
ghost use Rattle.store_contract.specs.Message.{names_given};
ghost use Rattle.store_contract.specs.Kept.{has_outcome};
ghost use Rattle.store_contract.specs.Progress.{HaveNumbers};
ghost use Rattle.store_contract.specs.Progress.{IsInStep};
ghost use Rattle.message_receiving.specs.Taking.{IsReadyFor, DecidesLine, FitsDecided, HasMembers, plainly};

use crate::command_decision::{Decision, decide_command, without_change};
use base_faults::StoreFault;
use base_words::Named;
use bug_record::{Command, Outcome};
use control_grammar::{Line, drop_command};
use control_parser::{LineFault, read_line};
use debver::Text;
use std::alloc::Global;
use store_contract::{Progress, Records, make_room};

// Decides a line with an outcome that makes no change and gives no name.
fn decide_plain(
    progress: &mut Progress,
    line: &Text,
    outcome: Outcome,
) -> Result<Option<(Text, Decision)>, StoreFault>
    requires in_step { IsInStep progress.old.outcomes.items progress.old.unreadable progress.old.known.names }
    requires plain { names_given (line.now, outcome) ≡ [] }
    ensures decided { IfOk result (λ decided. decided ≡ Some (plainly line.now outcome)) }
    ensures outcomes { progress.new.outcomes.items ≡ progress.old.outcomes.items }
    ensures known { progress.new.known.names ≡ progress.old.known.names }
    ensures ready { IfOk result
        (IsReadyFor progress.new.outcomes.items progress.new.unreadable progress.new.known.names line.now) }
    ensures room { IfOk result (λ decided. IfGiven (λ _. vec_len progress.new.outcomes < vec_capacity progress.new.outcomes) decided) }
    ensures memory { OnErr result (result ≡ Result.Err StoreFault.Memory) }
{
    let text = make_room(&mut progress.outcomes, line)?;
    Ok(Some((text, without_change(outcome))))
}

// Decides a line that is a command.
fn decide_command_line<S: Records>(
    alloc: Global,
    store: &mut S,
    from: &str,
    progress: &mut Progress,
    line: &Text,
    command: Command<Named>,
) -> Result<Option<(Text, Decision)>, StoreFault>
    requires sender { IsText from.now }
    requires bugs { Each IsGoodBug (bugs_named command) }
    requires names { Each IsGoodNumber (names_in command) }
    requires parts { HasGoodParts command }
    requires reads { reading line.now ≡ Ok (Do command) }
    requires in_step { IsInStep progress.old.outcomes.items progress.old.unreadable progress.old.known.names }
    ensures answer { Asks S.is_kept S.is_honest S.leaves store.old store.new
        (Answers (S.desk store.old) (S.desk store.new) result (λ decided. HaveNumbers progress.old.known.names
        → DecidesLine from.now (S.desk store.old) progress.old.outcomes.items line.now decided
        × HaveNumbers progress.new.known.names)) }
    ensures fits { S.is_kept store.new → S.is_honest store.new → IfOk result (FitsDecided (S.desk store.new)) }
    ensures some { IfOk result (λ decided. is_some decided ≡ true) }
    ensures outcomes { progress.new.outcomes.items ≡ progress.old.outcomes.items }
    ensures ready { IfOk result
        (IsReadyFor progress.new.outcomes.items progress.new.unreadable progress.new.known.names line.now) }
    ensures room { IfOk result (λ decided. IfGiven (λ _. vec_len progress.new.outcomes < vec_capacity progress.new.outcomes) decided) }
    ensures members { IfOk result (λ decided. IfGiven (λ d. HasMembers d.1.change) decided) }
    ensures stays { S.keeping store.new ≡ S.keeping store.old }
    ensures count { S.faults store.new ≡ faults_after result (S.faults store.old) }
{
    let text = match make_room(&mut progress.outcomes, line) {
        Ok(text) => text,
        Err(fault) => {
            // In one call, so that what is promised is not proved for each kind of command.
            drop_command(command);
            return Err(fault);
        }
    };
    let decision = decide_command(alloc, store, from, &mut progress.known, command)?;
    Ok(Some((text, decision)))
}

/// Decides one line of a message from this sender: the line with what it comes to, which is what
/// the machine does, and changes nothing yet; `None` for a blank line and a comment, which have no
/// outcome.
/// Room is made for the outcome, and the names are known that the line gives, so that `settle` may
/// add it.
/// After a fault the outcomes are as before, and no more lines may be taken; a blank line and a
/// comment have none, since they take no memory and ask nothing.
pub fn decide_line<S: Records>(
    alloc: Global,
    store: &mut S,
    from: &str,
    progress: &mut Progress,
    line: &Text,
) -> Result<Option<(Text, Decision)>, StoreFault>
    requires sender { IsText from.now }
    requires in_step { IsInStep progress.old.outcomes.items progress.old.unreadable progress.old.known.names }
    ensures answer { Asks S.is_kept S.is_honest S.leaves store.old store.new
        (Answers (S.desk store.old) (S.desk store.new) result (λ decided. HaveNumbers progress.old.known.names
        → DecidesLine from.now (S.desk store.old) progress.old.outcomes.items line.now decided
        × HaveNumbers progress.new.known.names)) }
    ensures fits { S.is_kept store.new → S.is_honest store.new → IfOk result (FitsDecided (S.desk store.new)) }
    ensures told { IfOk result (λ decided. is_some decided ≡ has_outcome line.now) }
    ensures failed { OnErr result (IsTrue (has_outcome line.now)) }
    ensures outcomes { progress.new.outcomes.items ≡ progress.old.outcomes.items }
    ensures ready { IfOk result
        (IsReadyFor progress.new.outcomes.items progress.new.unreadable progress.new.known.names line.now) }
    ensures room { IfOk result (λ decided. IfGiven (λ _. vec_len progress.new.outcomes < vec_capacity progress.new.outcomes) decided) }
    ensures members { IfOk result (λ decided. IfGiven (λ d. HasMembers d.1.change) decided) }
    ensures stays { S.keeping store.new ≡ S.keeping store.old }
    ensures count { S.faults store.new ≡ faults_after result (S.faults store.old) }
{
    match read_line(alloc, line.as_str()) {
        Ok(Line::Blank) => Ok(None),
        Ok(Line::Comment) => Ok(None),
        Ok(Line::Stop) => decide_plain(progress, line, Outcome::Stopped),
        Ok(Line::Do(command)) => decide_command_line(alloc, store, from, progress, line, command),
        Err(LineFault::Refused(refusal)) => {
            decide_plain(progress, line, Outcome::Refused(refusal))
        }
        Err(LineFault::Memory) => Err(StoreFault::Memory),
    }
}
