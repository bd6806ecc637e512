//! What the outcomes of a message, and the answers to directives, say of a script.

ghost use Rattle.std.specs.Prelude.{◌≡◌};
ghost use Rattle.std.specs.List.{list_any};
ghost use Rattle.desk_run.specs.Script.{is_refused, is_too_many, refuses};
ghost use Rattle.desk_run.specs.RefusedAndFailed.{refuses_branch, fault_of_branch, fault_of_end, store_fault};

use base_faults::{End, StoreFault};
use bug_record::Outcome;
use debver::Text;
use message_directives::ReportFault;
use message_receiving::Received;
use version_nodes::BranchFault;

fn is_refused(outcome: &Outcome) -> bool
    ensures { result ≡ is_refused outcome.now }
{
    match outcome {
        Outcome::Refused(_) => true,
        _ => false,
    }
}

fn any_refused(outcomes: &[(Text, Outcome)]) -> bool
    ensures { result ≡ list_any (λ entry. is_refused entry.1) outcomes.now }
{
    outcomes.iter().any(|entry| is_refused(&entry.1))
}

fn is_too_many(end: End) -> bool
    ensures { result ≡ is_too_many end }
{
    match end {
        End::TooManyUnreadable => true,
        _ => false,
    }
}

/// Whether an answer `NO ..` or `Too many unreadable lines.` is among those of a message.
pub fn refuses(received: &Received) -> bool
    ensures { result ≡ refuses received.now.outcomes received.now.end }
{
    any_refused(received.outcomes.as_slice()) || is_too_many(received.end)
}

/// The fault of the store at which a message ended.
pub(crate) fn fault_of_end(end: End) -> Option<StoreFault>
    ensures { result ≡ fault_of_end end }
{
    match end {
        End::Store(fault, _) => Some(fault),
        _ => None,
    }
}

/// The fault of the store at which a report ended, if it was that.
pub(crate) fn store_fault(fault: ReportFault) -> Option<StoreFault>
    ensures { result ≡ store_fault fault }
{
    match fault {
        ReportFault::Store(fault) => Some(fault),
        _ => None,
    }
}

/// Whether a branch is refused.
pub(crate) fn refuses_branch(answer: &Result<Result<(), BranchFault>, StoreFault>) -> bool
    ensures { result ≡ refuses_branch answer.now }
{
    match answer {
        Ok(Err(_)) => true,
        _ => false,
    }
}

/// The fault of the store at which a branch ended, if it was that.
pub(crate) fn fault_of_branch(
    answer: &Result<Result<(), BranchFault>, StoreFault>,
) -> Option<StoreFault>
    ensures { result ≡ fault_of_branch answer.now }
{
    match answer {
        Ok(_) => None,
        Err(fault) => Some(*fault),
    }
}
