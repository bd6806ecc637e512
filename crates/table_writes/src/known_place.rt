//! The place that comes next of the message that was kept last.

ghost use Rattle.std.specs.Prelude.{◌≡◌, ◌+◌, None, Some, IfSome};

use debver::Text;
use std::alloc::Global;
use std::marker::Model;

/// The place that comes next of one message that has an id, so that it need not be asked for.
/// Contracts see the id and the place, if they are known.
/// This project's own rule.
#[derive(Drop)]
pub struct KnownPlace {
    last: Option<(Text, u64)>,
}

impl Model for KnownPlace {
    ghost use Rattle.std.specs.Prelude.{ℕ, List, Option};

    ghost Value = { Option (List ℕ × ℕ) };

    ghost view = { λ k. k.last };
}

// The place above this one of the message of the id; `None` too where there is no memory or no such
// number.
fn above(alloc: Global, id: &str, place: u64) -> Option<(Text, u64)>
    ensures { IfSome result (λ next. next ≡ (id.now, place + 1)) }
{
    let id = Text::of(alloc, id).ok()?;
    let next = place.checked_add(1)?;
    Some((id, next))
}

impl KnownPlace {
    /// No place is known.
    /// It takes no memory.
    pub fn new() -> KnownPlace
        ensures { result ≡ None }
    {
        KnownPlace { last: None }
    }

    /// The place that comes next of the message of this id, if it is known.
    pub fn of(&self, id: &str) -> Option<u64>
        ensures { IfSome result (λ place. self.now ≡ Some (id.now, place)) }
    {
        match &self.last {
            Some((known, place)) if known.as_str() == id => Some(*place),
            _ => None,
        }
    }

    /// Follows an outcome that was kept at this place of the message of the id: the place above it
    /// comes next, and of no other message a place is known.
    /// Where there is no memory, none is known.
    pub fn follow(&mut self, alloc: Global, id: &str, place: u64)
        ensures { IfSome self.new (λ next. next ≡ (id.now, place + 1)) }
    {
        self.last = above(alloc, id, place);
    }
}
