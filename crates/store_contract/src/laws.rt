//! Laws of the faults that are counted, and of the names that a message gives.
//! Each body is empty: the contract is the law.

ghost use Rattle.std.specs.Prelude.{◌≡◌, ◌≢◌, ◌+◌, ℕ, List, length, map, zip, Ok};
ghost use Rattle.bug_record.specs.Changed.{changed_numbers};
ghost use Rattle.bug_record.specs.Sets.{numbers_below};
ghost use Rattle.bug_record.specs.Desk.{Desk, IsSound};
ghost use Rattle.bug_record.specs.Steps.{step};
ghost use Rattle.bug_record.specs.Words.{Names};
ghost use Rattle.bug_record.specs.declared.command.Command.TheVariants.{Clone};
ghost use Rattle.control_grammar.specs.declared.line.Line.TheVariants.{Do};
ghost use Rattle.store_contract.specs.Message.{names_with};
ghost use Rattle.store_contract.specs.Store.{Faults, counted, one_more, total};
ghost use Rattle.bug_record.specs.declared.outcome.Outcome.TheVariants.{Changed};
ghost use Rattle.base_words.specs.declared.named.Named.{Named};

use base_faults::StoreFault;

/// A fault of the store but out of memory raises the number of all faults by one, up to the largest
/// `u64`.
pub fn faults_rise_by_one()
    ensures { (fault : StoreFault) (faults : Faults) → fault ≢ StoreFault.Memory
        → total (counted fault faults) ≡ one_more (total faults) }
{}

/// The names that an accepted `clone` gives stand for its copies: the first one for the next number
/// of the desk before it, and each later one for the number after.
pub fn names_stand_for_copies()
    ensures { (names : Names) (d : Desk) (sender : List ℕ) (n : Named) (ks : List ℕ) (new : Desk) → IsSound d
        → step names d sender (Clone n ks) ≡ Ok new
        → names_with (Ok (Do (Clone n ks))) (Changed (changed_numbers d new))
        ≡ zip ks (map (λ k. d.next + k) (numbers_below (length ks))) }
{}
