//! A finished part of a script, message or directive, carried out.

ghost use Rattle.std.specs.Prelude.{◌≡◌, ℕ, ◌<◌, ◌||◌, true, length, take, Some, Result, List, [], ◌∷◌, OnOk, OnErr};
ghost use Rattle.std.specs.Prelude.{IfErr};
ghost use Rattle.std.specs.Option.{option_copied};
ghost use Rattle.base_words.specs.Texts.{IsText};
ghost use Rattle.store_contract.specs.Store.{Holds};
ghost use Rattle.desk_run.specs.Script.{Report, Branch, Message, DirectiveLine, standing, directive_of};
ghost use Rattle.std.specs.Io.KnownBytes.{Appends};
ghost use Rattle.message_directives.specs.Branches.{nodes_of};
ghost use Rattle.desk_run.specs.RefusedAndFailed.{Tells, TellsFault};
ghost use Rattle.desk_run.specs.Running.{IsCounted};
ghost use Rattle.desk_run.specs.Carrying.{Carries, IsOfPart};
ghost use Rattle.desk_run.specs.Tried.{LeavesParts};

use crate::branch::read_nodes;
use crate::directive::{Directive, ReportWords, read_directive};
use crate::refused_and_failed::{
    fault_of_branch, fault_of_end, refuses, refuses_branch, store_fault,
};
use crate::writing::{write_branch, write_fault, write_received, write_report};
use control_lines::{ScriptFault, write_out};
use debver::Text;
use desk_text::{StoreFault, bad_directive_answer, bad_version_answer};
use message_directives::{QuestionFault, Told, list_of, page_of, report};
use message_receiving::receive_lines;
use std::alloc::Global;
use std::io::Write;
use store_contract::Records;
use version_nodes::{Node, NodeFault};

// A script in its course: the current sender, whether anything was refused, and the lines of the
// current message.
#[derive(Drop)]
pub(crate) struct Run {
    pub(crate) sender: Text,
    pub(crate) refused: bool,
    pub(crate) gathered: Vec<Text>,
    ghost good_sender: { IsText sender },
}

fn either(a: bool, b: bool) -> bool
    ensures { result ≡ (a || b) }
{
    a || b
}

// Carries the gathered message out.
pub(crate) fn finish_message<S: Records, W: Write>(
    alloc: Global,
    store: &mut S,
    writer: &mut W,
    run: &mut Run,
) -> Result<(), ScriptFault>
    ensures answer { Holds S.is_kept S.is_honest store.old store.new
        (Carries (Message run.old.gathered.items) run.new.sender run.new.refused (record {
          from = standing (S.desk store.old) run.old.sender run.old.refused;
          desk = S.desk store.new;
          faults_before = S.faults store.old;
          faults = S.faults store.new;
          written_before = W.contents writer.old;
          written = W.contents writer.new;
        }) result) }
    ensures stays { Holds S.is_kept S.is_honest store.old store.new (S.keeping store.new ≡ S.keeping store.old) }
    ensures crash { Holds S.is_kept S.is_honest store.old store.new
        (LeavesParts S.leaves store.old store.new (S.keeping store.old) (Message run.old.gathered.items ∷ [])
        (standing (S.desk store.old) run.old.sender run.old.refused) (S.desk store.new) result) }
    ensures own { IfErr result IsOfPart }
    ensures count { IsCounted result (S.faults store.old) (S.faults store.new) }
    ensures cleared { OnOk result (run.new.gathered.items ≡ []) }
{
    let lines = run.gathered.as_slice();
    let received = receive_lines(alloc, store, run.sender.as_str(), lines);
    match write_received(alloc, writer, &received, lines) {
        Ok(()) => {}
        Err(stop) => return Err(stop),
    }
    if let Some(fault) = fault_of_end(received.end) {
        return Err(ScriptFault::Store(fault));
    }
    run.refused = either(run.refused, refuses(&received));
    run.gathered.clear();
    Ok(())
}

// Writes the answer to a directive that is refused before the store is asked.
fn refuse<W: Write>(writer: &mut W, run: &mut Run, answer: &str) -> Result<(), ScriptFault>
    ensures all { OnOk result (Appends (W.contents writer.old) (W.contents writer.new) answer.now) }
    ensures unfinished { OnErr result
        ((n : ℕ) × (n < length answer.now) × Appends (W.contents writer.old) (W.contents writer.new) (take n answer.now)) }
    ensures write { OnErr result (result ≡ Result.Err ScriptFault.Write) }
    ensures refused { OnOk result (run.new.refused ≡ true) }
    ensures sender { run.new.sender ≡ run.old.sender }
    ensures gathered { run.new.gathered.items ≡ run.old.gathered.items }
{
    write_out(writer, answer.as_bytes())?;
    run.refused = true;
    Ok(())
}

// Carries a report out.
fn carry_report<S: Records, W: Write>(
    alloc: Global,
    store: &mut S,
    writer: &mut W,
    run: &mut Run,
    line: &str,
    words: ReportWords<'_>,
) -> Result<(), ScriptFault>
    requires { directive_of line.now ≡ Report words.package.now (option_copied words.version) words.severity.now words.title.now }
    ensures answer { Holds S.is_kept S.is_honest store.old store.new
        (Carries (DirectiveLine line.now) run.new.sender run.new.refused (record {
          from = standing (S.desk store.old) run.old.sender run.old.refused;
          desk = S.desk store.new;
          faults_before = S.faults store.old;
          faults = S.faults store.new;
          written_before = W.contents writer.old;
          written = W.contents writer.new;
        }) result) }
    ensures stays { Holds S.is_kept S.is_honest store.old store.new (S.keeping store.new ≡ S.keeping store.old) }
    ensures crash { Holds S.is_kept S.is_honest store.old store.new
        (LeavesParts S.leaves store.old store.new (S.keeping store.old) (DirectiveLine line.now ∷ [])
        (standing (S.desk store.old) run.old.sender run.old.refused) (S.desk store.new) result) }
    ensures own { IfErr result IsOfPart }
    ensures count { IsCounted result (S.faults store.old) (S.faults store.new) }
    ensures gathered { run.new.gathered.items ≡ run.old.gathered.items }
{
    let answer = report(
        alloc,
        store,
        &run.sender,
        words.package,
        words.version,
        words.severity,
        words.title,
    );
    match write_report(writer, &answer) {
        Ok(()) => {}
        Err(stop) => return Err(stop),
    }
    match answer {
        Ok(_) => Ok(()),
        Err(fault) => match store_fault(fault) {
            Some(fault) => Err(ScriptFault::Store(fault)),
            None => {
                run.refused = true;
                Ok(())
            }
        },
    }
}

// Carries the branch of these nodes out.
fn carry_nodes<S: Records, W: Write>(
    store: &mut S,
    writer: &mut W,
    run: &mut Run,
    line: &str,
    nodes: &[Node],
) -> Result<(), ScriptFault>
    requires { (names : List (List ℕ)) × (directive_of line.now ≡ Branch names) × (nodes_of names ≡ Some nodes.now) }
    ensures answer { Holds S.is_kept S.is_honest store.old store.new
        (Carries (DirectiveLine line.now) run.new.sender run.new.refused (record {
          from = standing (S.desk store.old) run.old.sender run.old.refused;
          desk = S.desk store.new;
          faults_before = S.faults store.old;
          faults = S.faults store.new;
          written_before = W.contents writer.old;
          written = W.contents writer.new;
        }) result) }
    ensures stays { Holds S.is_kept S.is_honest store.old store.new (S.keeping store.new ≡ S.keeping store.old) }
    ensures crash { Holds S.is_kept S.is_honest store.old store.new
        (LeavesParts S.leaves store.old store.new (S.keeping store.old) (DirectiveLine line.now ∷ [])
        (standing (S.desk store.old) run.old.sender run.old.refused) (S.desk store.new) result) }
    ensures own { IfErr result IsOfPart }
    ensures count { IsCounted result (S.faults store.old) (S.faults store.new) }
    ensures gathered { run.new.gathered.items ≡ run.old.gathered.items }
{
    let answer = store.branch(nodes);
    match write_branch(writer, &answer) {
        Ok(()) => {}
        Err(stop) => return Err(stop),
    }
    if let Some(fault) = fault_of_branch(&answer) {
        return Err(ScriptFault::Store(fault));
    }
    run.refused = either(run.refused, refuses_branch(&answer));
    Ok(())
}

// Writes that the store failed in a directive, which ends the script.
fn tell_fault<W: Write>(writer: &mut W, fault: StoreFault) -> Result<(), ScriptFault>
    ensures { TellsFault fault (W.contents writer.old) (W.contents writer.new) result }
{
    match write_fault(writer, fault) {
        Ok(()) => Err(ScriptFault::Store(fault)),
        Err(stop) => Err(stop),
    }
}

// Writes what a question is told, and keeps whether it is refused; or tells that the store failed.
fn answer_question<W: Write>(
    writer: &mut W,
    run: &mut Run,
    answer: Result<Told, QuestionFault>,
) -> Result<(), ScriptFault>
    ensures answer { Tells answer (W.contents writer.old) (W.contents writer.new) run.old.refused run.new.refused result }
    ensures sender { run.new.sender ≡ run.old.sender }
    ensures gathered { run.new.gathered.items ≡ run.old.gathered.items }
{
    match answer {
        Ok(told) => {
            write_out(writer, told.text.as_slice())?;
            run.refused = either(run.refused, told.refused);
            Ok(())
        }
        Err(QuestionFault::Memory) => Err(ScriptFault::Memory),
        Err(QuestionFault::Store(fault)) => tell_fault(writer, fault),
    }
}

// Carries a directive out.
pub(crate) fn carry_out<S: Records, W: Write>(
    alloc: Global,
    store: &mut S,
    writer: &mut W,
    run: &mut Run,
    line: &str,
) -> Result<(), ScriptFault>
    ensures answer { Holds S.is_kept S.is_honest store.old store.new
        (Carries (DirectiveLine line.now) run.new.sender run.new.refused (record {
          from = standing (S.desk store.old) run.old.sender run.old.refused;
          desk = S.desk store.new;
          faults_before = S.faults store.old;
          faults = S.faults store.new;
          written_before = W.contents writer.old;
          written = W.contents writer.new;
        }) result) }
    ensures stays { Holds S.is_kept S.is_honest store.old store.new (S.keeping store.new ≡ S.keeping store.old) }
    ensures crash { Holds S.is_kept S.is_honest store.old store.new
        (LeavesParts S.leaves store.old store.new (S.keeping store.old) (DirectiveLine line.now ∷ [])
        (standing (S.desk store.old) run.old.sender run.old.refused) (S.desk store.new) result) }
    ensures own { IfErr result IsOfPart }
    ensures count { IsCounted result (S.faults store.old) (S.faults store.new) }
    ensures gathered { run.new.gathered.items ≡ run.old.gathered.items }
{
    match read_directive(line) {
        Directive::From(sender) => {
            run.sender = Text::of(alloc, sender)?;
            Ok(())
        }
        Directive::Report(words) => carry_report(alloc, store, writer, run, line, words),
        Directive::Branch(words) => match read_nodes(alloc, words) {
            Ok(nodes) => carry_nodes(store, writer, run, line, nodes.as_slice()),
            Err(NodeFault::BadNode) => refuse(writer, run, bad_version_answer()),
            Err(NodeFault::Memory) => Err(ScriptFault::Memory),
        },
        Directive::ListOf(words) => {
            let answer = list_of(alloc, store, words.package, words.version);
            answer_question(writer, run, answer)
        }
        Directive::Show(number) => {
            let answer = page_of(alloc, store, number);
            answer_question(writer, run, answer)
        }
        Directive::Bad => refuse(writer, run, bad_directive_answer()),
    }
}
