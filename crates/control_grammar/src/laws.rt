//! A law of the definition of a line.
//! Its body is empty: the contract is the law.

ghost use Rattle.std.specs.Prelude.{ℕ, List, IfErr};
ghost use Rattle.control_grammar.specs.Lines.{reading, IsRefusalOfLine};

/// A line is refused by one of the seven refusals that need no desk, from `Unknown` to
/// `BadPackage`, and by no other.
pub fn refusals_of_lines()
    ensures { (text : List ℕ) → IfErr (reading text) IsRefusalOfLine }
{}
