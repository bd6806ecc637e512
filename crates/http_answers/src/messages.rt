//! What is told of a control message that was received.

ghost use Rattle.std.specs.Prelude.{◌≡◌, [], IfOk, string_bytes};
ghost use Rattle.control_lines.specs.Lines.{lines_of};
ghost use Rattle.http_requests.specs.Answer.{json_answer};
ghost use Rattle.http_answers.specs.Answers.{end_word, message_json};
ghost use Rattle.http_answers.specs.Repeats.{id_in_use};
ghost use Rattle.http_requests.specs.Told.{IsTold};
ghost use Rattle.http_requests.specs.Shown.{shown};
ghost use Rattle.http_requests.specs.Steps.{Gives};
ghost use Rattle.http_answers.specs.Cases.{GivesOrFails, TellsFault, AnswersEnd};

use base_faults::{End, StoreFault};
use control_lines::split_lines;
use debver::Text;
use http::StatusCode;
use http_requests::{Body, Reply, json_reply, store_fault};
use http_routes::control_json;
use message_directives::received_bytes;
use std::alloc::{AllocError, Global};
use store_contract::Received;

// How a message ended.
fn end_word(end: End) -> &'static str
    ensures { result.now ≡ end_word end }
{
    match end {
        End::All => "all",
        End::Stopped => "stopped",
        End::TooManyUnreadable => "unreadable",
        End::Store(_, _) => "store",
    }
}

// The end of a message and its transcript.
#[tactic(auto, unfolding(crate::specs::Answers::message_json))]
fn message_json(alloc: Global, received: &Received, lines: &[Text]) -> Result<String, AllocError>
    ensures { IfOk result (λ text. string_bytes text
        ≡ message_json received.now.outcomes received.now.end lines.now) }
{
    let transcript = received_bytes(alloc, received, lines)?;
    let Ok(transcript) = str::from_utf8(transcript.as_slice()) else {
        unreachable!("a transcript is UTF-8")
    };
    control_json(alloc, end_word(received.end), transcript)
}

// The answer to a message that came to its end, of which the transcript names no line.
fn tell_end(alloc: Global, received: &Received) -> Reply
    ensures is { GivesOrFails (json_answer 200 (message_json received.now.outcomes received.now.end [])) result }
    ensures told { IsTold result.fault (shown result) }
{
    match message_json(alloc, received, &[]) {
        Ok(text) => json_reply(StatusCode::OK, text),
        Err(_) => store_fault(StoreFault::Memory),
    }
}

// The answer to a message at which the store failed, whose lines are cut once more: the transcript
// names one.
fn tell_fault(alloc: Global, received: &Received, message: &str, fault: StoreFault) -> Reply
    ensures is { TellsFault (json_answer 500 (message_json received.now.outcomes received.now.end (lines_of message.now)))
        fault result }
    ensures told { IsTold result.fault (shown result) }
{
    if fault == StoreFault::Memory {
        return store_fault(fault);
    }
    let Ok(lines) = split_lines(alloc, message) else {
        return store_fault(fault);
    };
    match message_json(alloc, received, lines.as_slice()) {
        Ok(text) => Reply {
            status: StatusCode::INTERNAL_SERVER_ERROR,
            allow: None,
            body: Body::Json(text),
            fault: Some(fault),
        },
        Err(_) => store_fault(fault),
    }
}

/// The answer to a message that was received.
pub fn tell_lines(alloc: Global, received: &Received, message: &str) -> Reply
    ensures is { AnswersEnd received.now.outcomes received.now.end (lines_of message.now) result }
    ensures told { IsTold result.fault (shown result) }
{
    match received.end {
        End::Store(fault, _) => tell_fault(alloc, received, message, fault),
        _ => tell_end(alloc, received),
    }
}

/// The answer to a message whose id stands for another one already.
pub fn id_in_use() -> Reply
    ensures is { Gives id_in_use result }
    ensures told { IsTold result.fault (shown result) }
{
    Reply {
        status: StatusCode::CONFLICT,
        allow: None,
        body: Body::Fixed("{\"error\":\"id in use\"}"),
        fault: None,
    }
}
