//! A law of the definitions that the contracts of this crate cite.
//! Its body is empty: the contract is the law.

ghost use Rattle.std.specs.Prelude.{◌≡◌, Ok};
ghost use Rattle.control_grammar.specs.Lines.{reading};
ghost use Rattle.control_grammar.specs.WellFormed.{IsWellFormed};
ghost use Rattle.control_text.specs.Spelling.{spelling};
ghost use Rattle.control_grammar.specs.declared.line.Line.TheVariants.{Do};
ghost use Rattle.base_words.specs.declared.named.Named.{Named};
ghost use Rattle.bug_record.specs.declared.command.Command.{Command};

/// What is written of a well-formed command is read as it.
pub fn spelling_is_read_back()
    ensures { (c : Command Named) → IsWellFormed c → reading (spelling c) ≡ Ok (Do c) }
{}
