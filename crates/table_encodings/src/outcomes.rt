//! The numbers, and the node, that stand for an outcome in the tables.

ghost use Rattle.std.specs.Prelude.{◌≡◌};
ghost use Rattle.std.specs.Option.{option_copied};
ghost use Rattle.table_encodings.specs.Outcomes.{refusal_kind, outcome_kind, refusal_number, outcome_number, field_number, field_in, outcome_field, outcome_node};
ghost use Rattle.table_encodings.specs.Outcomes.{plain_refusal, numbered_refusal, differing, refusal_in, outcome_in};

use bug_record::{Field, Outcome, Refusal, Sequence};
use std::alloc::Global;
use version_nodes::Node;

fn kind_of_refusal(refusal: &Refusal) -> u32
    ensures { result ≡ refusal_kind refusal.now }
{
    match refusal {
        Refusal::Unknown => 1,
        Refusal::Malformed => 2,
        Refusal::TooLong => 3,
        Refusal::BadSeverity => 4,
        Refusal::BadTag => 5,
        Refusal::BadVersion => 6,
        Refusal::BadPackage => 7,
        Refusal::NoName(_) => 8,
        Refusal::NoBug(_) => 9,
        Refusal::Archived(_) => 10,
        Refusal::NotArchived(_) => 11,
        Refusal::Differ(_, _) => 12,
        Refusal::NotMerged(_) => 13,
        Refusal::Merged(_) => 14,
        Refusal::NameTaken(_) => 15,
        Refusal::OwnSet(_) => 16,
        Refusal::NotDone(_) => 17,
        Refusal::StillFound(_) => 18,
        Refusal::Full => 19,
    }
}

/// The number of an outcome's kind: 0 for an accepted line, 20 for one that ends the message, and
/// between them 1 to 19 for a refusal, in the order in which its causes are tested.
/// This project's own rule.
pub fn kind_of_outcome(outcome: &Outcome) -> u32
    ensures { result ≡ outcome_kind outcome.now }
{
    match outcome {
        Outcome::Changed(_) => 0,
        Outcome::Refused(refusal) => kind_of_refusal(refusal),
        Outcome::Stopped => 20,
    }
}

fn number_of_refusal(refusal: &Refusal) -> Option<u64>
    ensures { result ≡ refusal_number refusal.now }
{
    match refusal {
        Refusal::NoName(number)
        | Refusal::NoBug(number)
        | Refusal::Archived(number)
        | Refusal::NotArchived(number)
        | Refusal::Differ(_, number)
        | Refusal::NotMerged(number)
        | Refusal::Merged(number)
        | Refusal::NameTaken(number)
        | Refusal::OwnSet(number)
        | Refusal::NotDone(number) => Some(*number),
        Refusal::Unknown
        | Refusal::Malformed
        | Refusal::TooLong
        | Refusal::BadSeverity
        | Refusal::BadTag
        | Refusal::BadVersion
        | Refusal::BadPackage
        | Refusal::StillFound(_)
        | Refusal::Full => None,
    }
}

/// The number of the bug or the name for which an outcome refuses its line.
/// This project's own rule.
pub fn number_of_outcome(outcome: &Outcome) -> Option<u64>
    ensures { result ≡ outcome_number outcome.now }
{
    match outcome {
        Outcome::Refused(refusal) => number_of_refusal(refusal),
        Outcome::Changed(_) | Outcome::Stopped => None,
    }
}

fn number_of_field(field: Field) -> u32
    ensures { result ≡ field_number field }
{
    match field {
        Field::Package => 0,
        Field::State => 1,
        Field::Forwarded => 2,
        Field::Severity => 3,
    }
}

/// The number of the field in which two bugs differ: 0 for the package, 1 for whether they are
/// closed, 2 for where they were forwarded to, 3 for the severity.
/// This project's own rule.
pub fn field_of_outcome(outcome: &Outcome) -> Option<u32>
    ensures { result ≡ outcome_field outcome.now }
{
    match outcome {
        Outcome::Refused(Refusal::Differ(field, _)) => Some(number_of_field(*field)),
        _ => None,
    }
}

/// The node at which a bug that is to be archived is still found.
/// This project's own rule.
pub fn node_of_outcome(outcome: &Outcome) -> Option<&Node>
    ensures { option_copied result ≡ outcome_node outcome.now }
{
    match outcome {
        Outcome::Refused(Refusal::StillFound(node)) => Some(node),
        _ => None,
    }
}

fn field_of_number(number: u64) -> Option<Field>
    ensures { result ≡ field_in number }
{
    match number {
        0 => Some(Field::Package),
        1 => Some(Field::State),
        2 => Some(Field::Forwarded),
        3 => Some(Field::Severity),
        _ => None,
    }
}

fn plain_refusal(kind: u64) -> Option<Refusal>
    ensures { result ≡ plain_refusal kind }
{
    match kind {
        1 => Some(Refusal::Unknown),
        2 => Some(Refusal::Malformed),
        3 => Some(Refusal::TooLong),
        4 => Some(Refusal::BadSeverity),
        5 => Some(Refusal::BadTag),
        6 => Some(Refusal::BadVersion),
        7 => Some(Refusal::BadPackage),
        19 => Some(Refusal::Full),
        _ => None,
    }
}

fn numbered_refusal(kind: u64, number: u64) -> Option<Refusal>
    ensures { result ≡ numbered_refusal kind number }
{
    match kind {
        8 => Some(Refusal::NoName(number)),
        9 => Some(Refusal::NoBug(number)),
        10 => Some(Refusal::Archived(number)),
        11 => Some(Refusal::NotArchived(number)),
        13 => Some(Refusal::NotMerged(number)),
        14 => Some(Refusal::Merged(number)),
        15 => Some(Refusal::NameTaken(number)),
        16 => Some(Refusal::OwnSet(number)),
        17 => Some(Refusal::NotDone(number)),
        _ => None,
    }
}

fn differing(number: Option<u64>, field: Option<u64>) -> Option<Refusal>
    ensures { result ≡ differing number field }
{
    let field = field_of_number(field?)?;
    Some(Refusal::Differ(field, number?))
}

fn refusal_of(
    kind: u64,
    number: Option<u64>,
    field: Option<u64>,
    node: Option<Node>,
) -> Option<Refusal>
    ensures { result ≡ refusal_in kind number field node }
{
    match kind {
        12 => differing(number, field),
        18 => match node {
            Some(node) => Some(Refusal::StillFound(node)),
            None => None,
        },
        _ => match (plain_refusal(kind), number) {
            (Some(refusal), _) => Some(refusal),
            (None, Some(number)) => numbered_refusal(kind, number),
            (None, None) => None,
        },
    }
}

/// The outcome of a kind, a number, a field and a node; `None` where they are no outcome's.
/// An accepted line has no numbers yet.
/// It takes no memory.
/// This project's own rule.
pub fn outcome_of_numbers(
    alloc: Global,
    kind: u64,
    number: Option<u64>,
    field: Option<u64>,
    node: Option<Node>,
) -> Option<Outcome>
    ensures { result ≡ outcome_in kind number field node }
{
    match kind {
        0 => Some(Outcome::Changed(Sequence::new(alloc))),
        20 => Some(Outcome::Stopped),
        _ => match refusal_of(kind, number, field, node) {
            Some(refusal) => Some(Outcome::Refused(refusal)),
            None => None,
        },
    }
}
