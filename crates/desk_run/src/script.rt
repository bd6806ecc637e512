//! Scripts: messages and directives, from a reader to a writer.

ghost use Rattle.std.specs.Prelude.{◌≡◌, ℕ, ◌<◌, Result, List, [], ◌∷◌, ◌++◌, OnOk, IfOk};
ghost use Rattle.std.specs.Prelude.{IfErr, ◌≢◌};
ghost use Rattle.store_contract.specs.Store.{Holds};
ghost use Rattle.desk_run.specs.Script.{Part, Message, standing, begin, script_of};
ghost use Rattle.desk_run.specs.Tried.{LeavesParts};
ghost use Rattle.desk_run.specs.Gathering.{parts_from};
ghost use Rattle.control_lines.specs.Reading.{Known, Left};
ghost use Rattle.desk_run.specs.Running.{IsCounted, IsReadInPart, Ends};
ghost use Rattle.desk_run.specs.Stopping.{Stops};
ghost use Rattle.desk_run.specs.Carrying.{Runs, Carries, IsOfPart, EndsParts};

use crate::carrying::{Run, carry_out, finish_message};
use crate::directive::is_directive;
use control_lines::{Piece, ScriptFault, Source, next_line};
use debver::Text;
use std::alloc::Global;
use std::io::{Read, Write};
use store_contract::Records;

/// How a script that was run to its end went.
#[derive(Clone, Copy, Debug, PartialEq, Eq, Drop)]
pub enum ScriptEnd {
    /// Nothing was refused.
    Accepted,
    /// An answer `NO ..`, `Bad directive.` or `Too many unreadable lines.` was written.
    Refused,
}

// Takes one line of a script.
fn take_line<S: Records, W: Write>(
    alloc: Global,
    store: &mut S,
    writer: &mut W,
    run: &mut Run,
    line: Text,
) -> Result<(), ScriptFault>
    ensures ok { IfOk result (λ done. (parts : List Part)
        × ((lines : List (List ℕ))
        → parts_from run.old.gathered.items (line ∷ lines) ≡ parts ++ parts_from run.new.gathered.items lines)
        × Holds S.is_kept S.is_honest store.old store.new (Runs parts
        (standing (S.desk store.old) run.old.sender run.old.refused) (standing (S.desk store.new) run.new.sender run.new.refused)
        (W.contents writer.old) (W.contents writer.new))) }
    ensures err { IfErr result (λ fault. Holds S.is_kept S.is_honest store.old store.new
        ((lines : List (List ℕ)) → Stops (parts_from run.old.gathered.items (line ∷ lines)) (record {
          from = standing (S.desk store.old) run.old.sender run.old.refused;
          desk = S.desk store.new;
          faults_before = S.faults store.old;
          faults = S.faults store.new;
          written_before = W.contents writer.old;
          written = W.contents writer.new;
        }) fault (λ after. after ≢ []))) }
    ensures stays { Holds S.is_kept S.is_honest store.old store.new (S.keeping store.new ≡ S.keeping store.old) }
    ensures crash { (lines : List (List ℕ)) → Holds S.is_kept S.is_honest store.old store.new
        (LeavesParts S.leaves store.old store.new (S.keeping store.old) (parts_from run.old.gathered.items (line ∷ lines))
        (standing (S.desk store.old) run.old.sender run.old.refused) (S.desk store.new) result) }
    ensures own { IfErr result IsOfPart }
    ensures count { IsCounted result (S.faults store.old) (S.faults store.new) }
{
    if is_directive(line.as_str()) {
        finish_message(alloc, store, writer, run)?;
        carry_out(alloc, store, writer, run, line.as_str())?;
        Ok(())
    } else {
        Ok(run.gathered.push(line)?)
    }
}

// Carries the last message out.
fn finish_script<S: Records, W: Write>(
    alloc: Global,
    store: &mut S,
    writer: &mut W,
    run: &mut Run,
) -> Result<ScriptEnd, ScriptFault>
    ensures answer { Holds S.is_kept S.is_honest store.old store.new (EndsParts (Message run.old.gathered.items ∷ []) (record {
      from = standing (S.desk store.old) run.old.sender run.old.refused;
      desk = S.desk store.new;
      faults_before = S.faults store.old;
      faults = S.faults store.new;
      written_before = W.contents writer.old;
      written = W.contents writer.new;
    }) result) }
    ensures stays { Holds S.is_kept S.is_honest store.old store.new (S.keeping store.new ≡ S.keeping store.old) }
    ensures crash { Holds S.is_kept S.is_honest store.old store.new
        (LeavesParts S.leaves store.old store.new (S.keeping store.old) (Message run.old.gathered.items ∷ [])
        (standing (S.desk store.old) run.old.sender run.old.refused) (S.desk store.new) result) }
    ensures own { IfErr result IsOfPart }
    ensures count { IsCounted result (S.faults store.old) (S.faults store.new) }
{
    finish_message(alloc, store, writer, run)?;
    if run.refused {
        Ok(ScriptEnd::Refused)
    } else {
        Ok(ScriptEnd::Accepted)
    }
}

/// Runs a script: reads its lines to the end, carries messages and directives out in turn, and
/// writes their answers.
///
/// Where it answers `Ok` it has read to the end, and has written the script's output and nothing
/// else.
/// A fault of the store ends the script as `Store` of that very fault, and what was written is the
/// output up to there with the line at which it failed, in a message, and the fault's text, which
/// take no memory; where they could not be written, as `Write`, and where there was no memory for
/// the answers to the message's lines before that one, as `Memory`.
/// After `Read` (also where more than 16,777,216 reads were needed), `NotUtf8` and `LineTooLong`
/// the text of all earlier parts was written, whole, and the message whose lines were being
/// gathered was not begun; after `Memory` the same, and of the next part, if it was finished in the
/// lines read, by a directive that follows it or by the end, nothing was written: a directive has
/// changed nothing, and a message may have been carried out;
/// after `Write` a front of the output, and not all of what was to be written for the part at hand.
/// `NotUtf8` and `LineTooLong` name the first line of either kind; one that is both is too long.
/// At `Read` good lines were taken from the reader, and at most 65,536 bytes of the next one.
/// What is kept of messages that have an id stays.
/// Where a crash as the call began left the desk alone, a crash at any moment of it leaves the desk
/// after some of the script's lines, and none that was answered is missing: as it returns, also
/// where the disk stopped at one of its calls, that is the present desk, or that after the next
/// line.
pub fn run_script<S: Records, R: Read, W: Write>(
    alloc: Global,
    store: &mut S,
    reader: &mut R,
    writer: &mut W,
) -> Result<ScriptEnd, ScriptFault>
    ensures answer { Holds S.is_kept S.is_honest store.old store.new (Known (R.remaining reader.old) (λ input.
        Ends input (R.remaining reader.new) (record {
          from = begin (S.desk store.old);
          desk = S.desk store.new;
          faults_before = S.faults store.old;
          faults = S.faults store.new;
          written_before = W.contents writer.old;
          written = W.contents writer.new;
        }) result)) }
    ensures stays { Holds S.is_kept S.is_honest store.old store.new (S.keeping store.new ≡ S.keeping store.old) }
    ensures crash { Holds S.is_kept S.is_honest store.old store.new (Known (R.remaining reader.old) (λ input.
        LeavesParts S.leaves store.old store.new (S.keeping store.old) (script_of input) (begin (S.desk store.old))
        (S.desk store.new) result)) }
    ensures read { OnOk result (Left (R.remaining reader.old) (R.remaining reader.new) (λ input rest. rest ≡ [])) }
    ensures begun { result ≡ Result.Err ScriptFault.Read → Left (R.remaining reader.old) (R.remaining reader.new) IsReadInPart }
    ensures count { IsCounted result (S.faults store.old) (S.faults store.new) }
{
    let Ok(sender) = Text::of(alloc, "nobody") else {
        return Err(ScriptFault::Memory);
    };
    let mut run = Run {
        sender,
        refused: false,
        gathered: Vec::new(alloc),
    };
    let mut source = Source::new();
    for number in 1..u64::MAX {
        match next_line(alloc, &mut source, reader, number)? {
            Piece::Line(line) => take_line(alloc, store, writer, &mut run, line)?,
            Piece::Last(line) => {
                take_line(alloc, store, writer, &mut run, line)?;
                return finish_script(alloc, store, writer, &mut run);
            }
            Piece::End => return finish_script(alloc, store, writer, &mut run),
        }
    }
    Err(ScriptFault::Read)
}
