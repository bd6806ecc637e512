//! What is written for the parts of a script.
//! Faults, refusals and numbers are written without taking memory, so that a fault of the store is
//! told whatever memory there is.

ghost use Rattle.std.specs.Prelude.{◌≡◌, ◌++◌, decimal};
ghost use Rattle.desk_text.specs.Texts.{as_line, fault_text, store_end_text, end_text};
ghost use Rattle.desk_text.specs.Answers.{refused_line, nodes_refusal, report_answer, branch_answer};
ghost use Rattle.message_directives.specs.Transcripts.{received_text};
ghost use Rattle.desk_run.specs.Writing.{IsWritten, IsTranscribed};

use crate::refused_and_failed::store_fault;
use base_faults::{End, StoreFault};
use control_lines::{ScriptFault, write_out};
use debver::Text;
use desk_text::{ReportFault, fault_line, report_refusal, too_many_line};
use itoa::Buffer;
use message_directives::{line_of_end, transcript_bytes};
use message_receiving::Received;
use std::alloc::Global;
use std::io::Write;
use version_nodes::BranchFault;

fn write_bytes<W: Write>(writer: &mut W, bytes: &[u8]) -> Result<(), ScriptFault>
    ensures { IsWritten bytes.now (W.contents writer.old) (W.contents writer.new) result }
{
    write_out(writer, bytes)
}

fn write_text<W: Write>(writer: &mut W, text: &str) -> Result<(), ScriptFault>
    ensures { IsWritten text.now (W.contents writer.old) (W.contents writer.new) result }
{
    write_bytes(writer, text.as_bytes())
}

// Writes two texts, one after another.
fn write_two<W: Write>(writer: &mut W, first: &str, second: &str) -> Result<(), ScriptFault>
    ensures { IsWritten (first.now ++ second.now) (W.contents writer.old) (W.contents writer.new) result }
{
    match write_text(writer, first) {
        Ok(()) => write_text(writer, second),
        Err(stop) => Err(stop),
    }
}

// Writes three texts, one after another.
fn write_three<W: Write>(
    writer: &mut W,
    first: &str,
    second: &str,
    third: &str,
) -> Result<(), ScriptFault>
    ensures { IsWritten (first.now ++ (second.now ++ third.now)) (W.contents writer.old) (W.contents writer.new) result }
{
    match write_text(writer, first) {
        Ok(()) => write_two(writer, second, third),
        Err(stop) => Err(stop),
    }
}

// Writes the line of a refusal.
fn write_refusal<W: Write>(writer: &mut W, why: &str) -> Result<(), ScriptFault>
    ensures { IsWritten (refused_line why.now) (W.contents writer.old) (W.contents writer.new) result }
{
    write_three(writer, "NO ", why, "\n")
}

// Writes a number after a text, as a line.
fn write_number<W: Write>(writer: &mut W, before: &str, number: u64) -> Result<(), ScriptFault>
    ensures { IsWritten (as_line (before.now ++ decimal number)) (W.contents writer.old) (W.contents writer.new) result }
{
    write_three(writer, before, Buffer::new().format(number), "\n")
}

/// Writes the line of a fault of the store.
pub(crate) fn write_fault<W: Write>(writer: &mut W, fault: StoreFault) -> Result<(), ScriptFault>
    ensures { IsWritten (fault_text fault) (W.contents writer.old) (W.contents writer.new) result }
{
    write_text(writer, fault_line(fault))
}

/// Writes the answer to a report: its number, the refusal, or the fault of the store.
pub(crate) fn write_report<W: Write>(
    writer: &mut W,
    answer: &Result<u64, ReportFault>,
) -> Result<(), ScriptFault>
    ensures { IsWritten (report_answer answer.now) (W.contents writer.old) (W.contents writer.new) result }
{
    match answer {
        Ok(number) => write_number(writer, "OK ", *number),
        Err(refusal) => match store_fault(*refusal) {
            Some(fault) => write_fault(writer, fault),
            None => write_refusal(writer, report_refusal(*refusal)),
        },
    }
}

// Writes the line of a refusal of a branch.
fn write_nodes_refusal<W: Write>(writer: &mut W, fault: BranchFault) -> Result<(), ScriptFault>
    ensures { IsWritten (refused_line (nodes_refusal fault)) (W.contents writer.old) (W.contents writer.new) result }
{
    match fault {
        BranchFault::EmptyBranch => write_refusal(writer, "empty branch"),
        BranchFault::TooLong => write_refusal(writer, "more than 200 versions"),
        BranchFault::Repeated(place) => {
            write_number(writer, "NO repeated version at ", place as u64)
        }
        BranchFault::Conflict(place) => write_number(writer, "NO conflict at ", place as u64),
        BranchFault::Memory => write_refusal(writer, ""),
    }
}

/// Writes the answer to a branch whose words are nodes: `OK`, the refusal, or the fault of the
/// store.
pub(crate) fn write_branch<W: Write>(
    writer: &mut W,
    answer: &Result<Result<(), BranchFault>, StoreFault>,
) -> Result<(), ScriptFault>
    ensures { IsWritten (branch_answer answer.now) (W.contents writer.old) (W.contents writer.new) result }
{
    match answer {
        Ok(Ok(())) => write_text(writer, "OK\n"),
        Ok(Err(refusal)) => write_nodes_refusal(writer, *refusal),
        Err(fault) => write_fault(writer, *fault),
    }
}

// Writes the line at which the store failed, and the fault's line.
fn write_store_end<W: Write>(
    writer: &mut W,
    fault: StoreFault,
    line: &str,
) -> Result<(), ScriptFault>
    ensures { IsWritten (store_end_text fault line.now) (W.contents writer.old) (W.contents writer.new) result }
{
    match write_three(writer, "> ", line, "\n") {
        Ok(()) => write_fault(writer, fault),
        Err(stop) => Err(stop),
    }
}

// Writes what follows the last outcome of a message.
fn write_end<W: Write>(writer: &mut W, end: End, line: &str) -> Result<(), ScriptFault>
    ensures { IsWritten (end_text end line.now) (W.contents writer.old) (W.contents writer.new) result }
{
    match end {
        End::All => Ok(()),
        End::Stopped => Ok(()),
        End::TooManyUnreadable => write_text(writer, too_many_line()),
        End::Store(fault, _) => write_store_end(writer, fault, line),
    }
}

// Writes the lines of outcomes, and what follows the last one.
fn write_transcript<W: Write>(
    writer: &mut W,
    outcomes: &[u8],
    end: End,
    line: &str,
) -> Result<(), ScriptFault>
    ensures { IsWritten (outcomes.now ++ end_text end line.now) (W.contents writer.old) (W.contents writer.new) result }
{
    match write_bytes(writer, outcomes) {
        Ok(()) => write_end(writer, end, line),
        Err(stop) => Err(stop),
    }
}

/// Writes the transcript of a message of these lines.
/// Memory is taken for its outcomes alone, before the first byte is written.
pub(crate) fn write_received<W: Write>(
    alloc: Global,
    writer: &mut W,
    received: &Received,
    lines: &[Text],
) -> Result<(), ScriptFault>
    ensures { IsTranscribed received.now.outcomes (received_text received.now.outcomes received.now.end lines.now)
        (W.contents writer.old) (W.contents writer.new) result }
{
    match transcript_bytes(alloc, received.outcomes.as_slice()) {
        Ok(text) => {
            let line = line_of_end(received.end, lines);
            write_transcript(writer, text.as_slice(), received.end, line)
        }
        Err(_) => Err(ScriptFault::Memory),
    }
}
