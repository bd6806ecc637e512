//! Laws of the definitions that the contracts of this crate cite.
//! Each body is empty: the contract is the law.

ghost use Rattle.std.specs.Prelude.{◌≡◌, List, Option, [], ◌∷◌, IsTrue, IsFalse};
ghost use Rattle.std.specs.List.{flat_map, list_any};
ghost use Rattle.base_words.specs.Blanks.{is_blank};
ghost use Rattle.base_words.specs.Words.{words, has_bytes};
ghost use Rattle.control_text.specs.Tokens.{Text};
ghost use Rattle.control_text.specs.BugPlaces.{Marked};
ghost use Rattle.control_text.specs.WordLines.{line_of, meant_words};

/// The line of a command is read as its words would be: the words between its blanks are those of
/// the command's words, one after another, and a word without a blank is one.
/// This is this project's own rule.
pub fn a_line_has_the_words_of_its_command()
    ensures joined { (last : Option Text) (command : List Marked) →
        words (line_of last command) ≡ flat_map words (meant_words last command) }
    ensures one { (text : Text) → IsTrue (has_bytes text) → IsFalse (list_any is_blank text) →
        words text ≡ text ∷ [] }
{}
