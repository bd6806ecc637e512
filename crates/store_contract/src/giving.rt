//! The names that a command gives: whether they can be given, and that they are known then.

ghost use Rattle.std.specs.Prelude.{◌≡◌, ◌≤◌, ◌++◌, ℕ, List, length, IfOk, OnOk, None};
ghost use Rattle.bug_record.specs.Clones.{name_refusal};
ghost use Rattle.bug_record.specs.Commands.{names_in};
ghost use Rattle.store_contract.specs.Message.{names_of};

use crate::known::KnownNames;
use base_words::Named;
use bug_record::{Command, Outcome, Refusal, Sequence};
use control_grammar::drop_command;
use std::alloc::{AllocError, Global};

/// The refusal of the first of these names that can't be given.
/// Makes room for them; no names need none.
pub fn name_refusal(
    alloc: Global,
    known: &mut KnownNames,
    names: &[u32],
) -> Result<Option<Refusal>, AllocError>
    ensures same { known.new.names ≡ known.old.names }
    ensures refusal { IfOk result (λ refusal. refusal ≡ name_refusal known.old.names names.now) }
    ensures room { OnOk result (length names.now ≤ known.new.room) }
{
    if names.is_empty() {
        return Ok(None);
    }
    known.make_room(names.len())?;
    known.refusal(alloc, names)
}

/// Makes the names known that a command gives, where it is accepted.
pub fn note_names(known: &mut KnownNames, names: &[u32], outcome: &Outcome)
    requires room { length names.now ≤ known.old.room }
    requires free { (numbers : List ℕ) → outcome.now ≡ Outcome.Changed numbers
        → name_refusal known.old.names names.now ≡ None }
    ensures { known.new.names ≡ known.old.names ++ names_of names.now outcome.now }
{
    if let Outcome::Changed(numbers) = outcome {
        known.bind(names, numbers.as_slice());
    }
}

/// The names that a command gives, taken out of it.
/// It takes no memory.
pub fn into_names(alloc: Global, command: Command<Named>) -> Sequence<u32>
    ensures { result ≡ names_in command }
{
    match command {
        Command::Clone(_, names) => names,
        other => {
            drop_command(other);
            Sequence::new(alloc)
        }
    }
}
