//! The answers to the directives of a script.

ghost use Rattle.std.specs.Prelude.{◌≡◌, ◌++◌, IfOk, codes, decimal, string_bytes};
ghost use Rattle.desk_text.specs.Texts.{as_line};
ghost use Rattle.desk_text.specs.Answers.{bad_version_answer, bad_package_answer};
ghost use Rattle.desk_text.specs.Answers.{no_bug_answer, bad_directive_answer, report_refusal, nodes_refusal};

use crate::report_fault::ReportFault;
use crate::texts::{append_between, full_text};
use itoa::Buffer;
use std::alloc::{AllocError, Global};
use version_nodes::BranchFault;

// The bytes that a short answer has room for at once.
const ANSWER: usize = 64;

// A number after a text, as a line.
fn number_line(alloc: Global, before: &str, number: u64) -> Result<Vec<u8>, AllocError>
    ensures { IfOk result (λ line. line.items ≡ as_line (before.now ++ decimal number)) }
{
    let mut line = Vec::with_capacity(alloc, ANSWER)?;
    match append_between(&mut line, before, number, "\n") {
        Ok(()) => Ok(line),
        Err(fault) => Err(fault),
    }
}

/// Why a report is refused; nothing of a fault of the store.
pub fn report_refusal(fault: ReportFault) -> &'static str
    ensures { result.now ≡ report_refusal fault }
{
    match fault {
        ReportFault::BadPackage => "bad package name",
        ReportFault::BadVersion => "bad version",
        ReportFault::BadSeverity => "unknown severity",
        ReportFault::BadTitle => "bad title",
        ReportFault::Full => full_text(),
        ReportFault::Store(_) => "",
    }
}

// A text and a place.
fn text_at(alloc: Global, text: &str, place: usize) -> Result<String, AllocError>
    ensures { IfOk result (λ made. string_bytes made ≡ text.now ++ decimal place) }
{
    let mut made = String::from_str(alloc, text)?;
    made.push_str(Buffer::new().format(place as u64))?;
    Ok(made)
}

/// Why a branch of nodes is refused; nothing where it was for being out of memory, for which no
/// store refuses one.
///
/// # Errors
///
/// Where there is no memory.
pub fn nodes_refusal(alloc: Global, fault: BranchFault) -> Result<String, AllocError>
    ensures { IfOk result (λ text. string_bytes text ≡ nodes_refusal fault) }
{
    match fault {
        BranchFault::EmptyBranch => String::from_str(alloc, "empty branch"),
        BranchFault::TooLong => String::from_str(alloc, "more than 200 versions"),
        BranchFault::Repeated(place) => text_at(alloc, "repeated version at ", place),
        BranchFault::Conflict(place) => text_at(alloc, "conflict at ", place),
        BranchFault::Memory => Ok(String::new(alloc)),
    }
}

/// The line that answers a branch of which a word is no node, or a list whose version is none.
pub fn bad_version_answer() -> &'static str
    ensures { result.now ≡ bad_version_answer }
{
    "NO bad version\n"
}

/// The line that answers the list of a package whose name is bad.
pub fn bad_package_answer() -> &'static str
    ensures { result.now ≡ bad_package_answer }
{
    "NO bad package name\n"
}

/// The line that answers the page of a bug that is not there.
///
/// # Errors
///
/// Where there is no memory.
pub fn no_bug_answer(alloc: Global, number: u64) -> Result<Vec<u8>, AllocError>
    ensures { IfOk result (λ line. line.items ≡ no_bug_answer number) }
{
    number_line(alloc, "NO no such bug ", number)
}

/// The line that answers a line that begins with `@` and is no directive.
pub fn bad_directive_answer() -> &'static str
    ensures { result.now ≡ bad_directive_answer }
{
    "Bad directive.\n"
}
