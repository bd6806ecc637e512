//! The bugs of a desk in memory that wait on another one.

ghost use Rattle.std.specs.Prelude.{◌≡◌, ℕ, IfOk};
ghost use Rattle.version_nodes.specs.Trees.{Ancestry};
ghost use Rattle.bug_record.specs.Desk.{IsSound};
ghost use Rattle.bug_record.specs.Waiting.{waiting_on};
ghost use Rattle.store_sets.specs.Plain.{desk_of};

use crate::bug_sets::BugSets;
use crate::passing::Question;
use bug_record::{Numbers, Sequence};
use std::alloc::{AllocError, Global};

impl BugSets {
    /// The bugs that wait on the bug of this number, ascending.
    /// Where the number was never a blocker nothing is looked at, and else each set once, not once
    /// for each of its bugs.
    pub fn waiting_on(&self, alloc: Global, number: u64) -> Result<Numbers, AllocError>
        ensures { (tree : Ancestry) (next : ℕ) → IsSound (desk_of self.now tree next)
            → IfOk result (λ numbers. numbers ≡ waiting_on (desk_of self.now tree next) number) }
    {
        if !self.blockers.contains(&number) {
            return Ok(Sequence::new(alloc));
        }
        self.passing(alloc, Question::WaitsOn(number))
    }
}
