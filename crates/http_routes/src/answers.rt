//! The texts of answers in JSON: compact, the members in the byte order of their names.

ghost use Rattle.std.specs.Prelude.{◌≡◌, Some, IfOk, string_bytes};
ghost use Rattle.serde_json.specs.Read.{read};
ghost use Rattle.serde_json.specs.View.{view};
ghost use Rattle.http_routes.specs.Answers.{bug_json, error_json, control_json, ok_json};
ghost use Rattle.http_routes.specs.Answers.{bug_value, error_value, control_value};

use serde_json::{Value, json};
use std::alloc::{AllocError, Global};

fn bug_value(alloc: Global, number: u64) -> Result<Value, AllocError>
    ensures { IfOk result (λ value. view value ≡ bug_value number) }
{
    json!(in alloc; {"bug": number})
}

/// The answer to a report: `{"bug":n}`, n in decimal, which reads back as that object.
/// This is this project's own rule.
///
/// # Errors
///
/// Where there is no memory for the text.
pub fn bug_json(alloc: Global, number: u64) -> Result<String, AllocError>
    ensures text { IfOk result (λ text. string_bytes text ≡ bug_json number) }
    ensures reads_back { IfOk result
        (λ text. read (string_bytes text) ≡ Some (bug_value number)) }
{
    bug_value(alloc, number)?.to_string(alloc)
}

fn error_value(alloc: Global, text: &str) -> Result<Value, AllocError>
    ensures { IfOk result (λ value. view value ≡ error_value text.now) }
{
    json!(in alloc; {"error": text})
}

/// The answer that refuses: `{"error":TEXT}`, which reads back as that object.
/// The text is quoted as `serde_json` does (RFC 8259, section 7).
/// This is this project's own rule.
///
/// # Errors
///
/// Where there is no memory for the text.
pub fn error_json(alloc: Global, text: &str) -> Result<String, AllocError>
    ensures text { IfOk result (λ json. string_bytes json ≡ error_json text.now) }
    ensures reads_back { IfOk result
        (λ json. read (string_bytes json) ≡ Some (error_value text.now)) }
{
    error_value(alloc, text)?.to_string(alloc)
}

fn control_value(alloc: Global, end: &str, transcript: &str) -> Result<Value, AllocError>
    ensures { IfOk result (λ value. view value ≡ control_value end.now transcript.now) }
{
    json!(in alloc; {"end": end, "transcript": transcript})
}

/// The answer to a control message: `{"end":E,"transcript":T}`, which reads back as that object.
/// The texts are quoted as `serde_json` does (RFC 8259, section 7).
/// This is this project's own rule.
///
/// # Errors
///
/// Where there is no memory for the text.
pub fn control_json(alloc: Global, end: &str, transcript: &str) -> Result<String, AllocError>
    ensures text { IfOk result (λ json. string_bytes json ≡ control_json end.now transcript.now) }
    ensures reads_back { IfOk result
        (λ json. read (string_bytes json) ≡ Some (control_value end.now transcript.now)) }
{
    control_value(alloc, end, transcript)?.to_string(alloc)
}

/// The answer to a branch that was taken: `{"ok":true}`.
/// This is this project's own rule.
pub fn ok_json() -> &'static str
    ensures { result.now ≡ ok_json }
{
    "{\"ok\":true}"
}
