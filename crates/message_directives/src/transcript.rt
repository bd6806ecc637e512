//! The transcript of a message.

ghost use Rattle.std.specs.Prelude.{◌≡◌, ◌≢◌, ◌++◌, [], IfOk, OnOk, OnErr, IsUtf8};
ghost use Rattle.control_lines.specs.Lines.{lines_of};
ghost use Rattle.message_directives.specs.Transcripts.{transcript, line_of_end, received_text};

use control_lines::split_lines;
use debver::Text;
use desk_text::{End, Outcome, end_text, outcome_text};
use std::alloc::{AllocError, Global};
use store_contract::Received;

/// The bytes that room is made for at once for each outcome.
const OUTCOME: usize = 64;

fn append_outcomes(
    alloc: Global,
    out: &mut Vec<u8>,
    outcomes: &[(Text, Outcome)],
) -> Result<(), AllocError>
    ensures ok { OnOk result (out.new.items ≡ out.old.items ++ transcript outcomes.now) }
    ensures utf8 { IsUtf8 out.old.items → IsUtf8 out.new.items }
    ensures some { OnErr result (outcomes.now ≢ []) }
{
    for entry in outcomes {
        outcome_text(alloc, out, entry.0.as_str(), &entry.1)?;
    }
    Ok(())
}

/// The line at which the store failed, if it did and there is such a line; else an empty one.
pub fn line_of_end(end: End, lines: &[Text]) -> &str
    ensures { result.now ≡ line_of_end end lines.now }
{
    let End::Store(_, line) = end else {
        return "";
    };
    match lines.get(line.saturating_sub(1) as usize) {
        Some(line) => line.as_str(),
        None => "",
    }
}

/// The two lines of each of these outcomes.
/// They are UTF-8.
///
/// # Errors
///
/// Where there is no memory; none is asked for where there is no outcome.
pub fn transcript_bytes(alloc: Global, outcomes: &[(Text, Outcome)]) -> Result<Vec<u8>, AllocError>
    ensures text { IfOk result (λ text. text.items ≡ transcript outcomes.now) }
    ensures some { OnErr result (outcomes.now ≢ []) }
    ensures utf8 { IfOk result (λ text. IsUtf8 text.items) }
{
    let mut text = Vec::new(alloc);
    let _ = text.reserve(outcomes.len().saturating_mul(OUTCOME));
    match append_outcomes(alloc, &mut text, outcomes) {
        Ok(()) => Ok(text),
        Err(fault) => Err(fault),
    }
}

/// The transcript of a message of these lines, as `received_text` appends it.
/// It is UTF-8.
///
/// # Errors
///
/// Where there is no memory.
#[tactic(auto, unfolding(crate::specs::Transcripts::received_text))]
pub fn received_bytes(
    alloc: Global,
    received: &Received,
    lines: &[Text],
) -> Result<Vec<u8>, AllocError>
    ensures text { IfOk result (λ text. text.items ≡ received_text received.now.outcomes received.now.end lines.now) }
    ensures utf8 { IfOk result (λ text. IsUtf8 text.items) }
{
    let mut text = transcript_bytes(alloc, received.outcomes.as_slice())?;
    let line = line_of_end(received.end, lines);
    end_text(alloc, &mut text, received.end, line)?;
    Ok(text)
}

/// Appends the transcript of this message, as it was received: the two lines of each outcome, and
/// the end's text.
/// Where the message has no line of the number at which the store failed (`receive` never says so),
/// an empty line is told; 0 is taken for 1.
/// Where there is no memory, `out` is as before.
/// The transcript is UTF-8: after UTF-8, `out` is UTF-8.
pub fn received_text(
    alloc: Global,
    out: &mut Vec<u8>,
    received: &Received,
    message: &str,
) -> Result<(), AllocError>
    ensures ok { OnOk result
        (out.new.items ≡ out.old.items ++ received_text received.now.outcomes received.now.end (lines_of message.now)) }
    ensures err { OnErr result (out.new.items ≡ out.old.items) }
    ensures utf8 { IsUtf8 out.old.items → IsUtf8 out.new.items }
{
    let lines = split_lines(alloc, message)?;
    let text = received_bytes(alloc, received, lines.as_slice())?;
    out.extend_from_slice(text.as_slice())
}
