//! What the refusals of a command that was told mean.

ghost use Rattle.std.specs.Prelude.{◌≡◌, ℕ, List, None, Ok, IfOk};
ghost use Rattle.bug_record.specs.Clones.{name_refusal};
ghost use Rattle.bug_record.specs.Commands.{names_in};
ghost use Rattle.bug_record.specs.Desk.{Desk};
ghost use Rattle.bug_record.specs.Plans.{IsPlanOf, IsPlanFor};
ghost use Rattle.bug_record.specs.Words.{Names};
ghost use Rattle.store_contract.specs.Telling.{refusal_meant, step_among};
ghost use Rattle.store_contract.specs.Taken.{with_names};

use base_words::AFTER_LARGEST;
use bug_record::{Change, Command, PlanFault, Refusal};

/// The refusal that is meant: `NoName(k)` for a bug that is not there of the number
/// 1,000,000,000 + k, as which a name that is not known is told, and any other as it is.
pub fn refusal_meant(refusal: Refusal) -> Refusal
    ensures { result ≡ refusal_meant refusal }
{
    match refusal {
        Refusal::NoBug(number) if number > AFTER_LARGEST => {
            Refusal::NoName(number - AFTER_LARGEST)
        }
        _ => refusal,
    }
}

/// What is planned, with the refusal of the names that a command gives, if there is one: it comes
/// before a change and before `Full`, and after any other refusal; `Memory` stays.
/// A plan knows no names, and is made as if each could be given.
pub fn with_names(
    taken: Option<Refusal>,
    planned: Result<Change, PlanFault>,
) -> Result<Change, PlanFault>
    ensures exact { result ≡ with_names taken planned }
    ensures change { IfOk result (λ change. (taken ≡ None) × (planned ≡ Ok change)) }
    ensures right { (names : Names) (d : Desk) (sender : List ℕ) (command : Command ℕ)
        → taken ≡ name_refusal names (names_in command) → IsPlanFor d sender command planned
        → IsPlanOf d (step_among names d sender command) result }
{
    let Some(refusal) = taken else {
        return planned;
    };
    match planned {
        Ok(_) | Err(PlanFault::Refused(Refusal::Full)) => Err(PlanFault::Refused(refusal)),
        Err(fault) => Err(fault),
    }
}
