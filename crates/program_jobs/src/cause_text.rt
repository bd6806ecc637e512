//! What is said of a cause.

ghost use Rattle.std.specs.Prelude.{◌≡◌, ◌++◌, Some, decimal};
ghost use Rattle.program_jobs.specs.CauseText.{parts_text};
ghost use Rattle.program_jobs.specs.Endings.{cause_message};

use crate::ending::Cause;
use std::error::Error;
use std::fmt;

/// A text with a number in it, or with none.
#[derive(Clone, Copy)]
pub(crate) struct Parts {
    pub(crate) before: &'static str,
    pub(crate) number: Option<u64>,
    pub(crate) after: &'static str,
}

// A text without a number.
fn plain(text: &'static str) -> Parts
    ensures { parts_text result ≡ text.now }
{
    Parts {
        before: text,
        number: None,
        after: "",
    }
}

// A text with a number between two texts.
fn numbered(before: &'static str, number: u64, after: &'static str) -> Parts
    ensures { parts_text result ≡ before.now ++ (decimal number ++ after.now) }
{
    Parts {
        before,
        number: Some(number),
        after,
    }
}

impl Cause {
    /// What is said of this cause.
    #[tactic(auto, unfolding(base_faults::specs::Faults::fault_message))]
    pub(crate) fn parts(self) -> Parts
        ensures { parts_text result ≡ cause_message self }
    {
        match self {
            Cause::Memory => plain("out of memory"),
            Cause::Input => plain("standard input can't be read"),
            Cause::Output => plain("standard output can't be written"),
            Cause::NotUtf8(line) => numbered("line ", line, ": not UTF-8"),
            Cause::LineTooLong(line) => numbered("line ", line, ": longer than 65,536 bytes"),
            Cause::Store(fault) => Parts {
                before: "the store failed: ",
                number: None,
                after: fault.word(),
            },
            Cause::ServedStore => plain("the store failed while it was served"),
            Cause::Port(port) => numbered("port ", u64::from(port), " can't be listened on"),
            Cause::NoFile => plain("the store's file is not there"),
            Cause::InUse => plain("the store's file is in use by another process"),
            Cause::NotADesk => plain("the store's file is no desk"),
            Cause::NewerSchema(number) => {
                numbered(
                    "the store's file has the schema ",
                    number,
                    " of a later version",
                )
            }
            Cause::NotEmpty => plain("the store's file holds a desk already"),
            Cause::CannotOpen => plain("the store's file can't be opened"),
        }
    }
}

impl fmt::Display for Cause {
    ghost output = { λ cause. Some (cause_message cause) };

    fn fmt<W: fmt::Write>(&self, f: &mut fmt::Formatter<W>) -> fmt::Result {
        let parts = self.parts();
        match parts.number {
            Some(number) => write!(f, "{}{number}{}", parts.before, parts.after),
            None => write!(f, "{}{}", parts.before, parts.after),
        }
    }
}

impl Error for Cause {}
