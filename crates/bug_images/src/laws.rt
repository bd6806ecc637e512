//! Laws of the definitions that the contracts of this crate cite.
//! Each body is empty: the contract is the law.

ghost use Rattle.std.specs.Prelude.{◌≡◌, ◌+◌, ◌≤◌, ℕ, map};
ghost use Rattle.bug_record.specs.Bugs.{with_new_bugs};
ghost use Rattle.bug_record.specs.Desk.{Desk, IsSound};
ghost use Rattle.bug_record.specs.Changed.{AreChanged, changed_numbers};
ghost use Rattle.bug_record.specs.Sets.{numbers_below};
ghost use Rattle.bug_record.specs.declared.bug.Bug.{Bug};

/// The changed numbers of two sound desks, of which the second has the same next number or a higher
/// one, are exactly the ascending list of the numbers at which the whole records or the sets
/// differ.
pub fn changed_numbers_differ()
    ensures { (d e : Desk) → IsSound d → IsSound e → d.next ≤ e.next → AreChanged d.bug e.bug (changed_numbers d e) }
{}

/// The changed numbers of a sound desk and the same one with new bugs are those of the new bugs:
/// the next number, and so many upward from it.
pub fn new_bugs_are_changed()
    ensures { (d : Desk) (new : ℕ → Bug) (many : ℕ) → IsSound d
        → changed_numbers d (with_new_bugs d new many) ≡ map (λ k. d.next + k) (numbers_below many) }
{}
