//! Laws of the definitions that the contracts of this crate cite.
//! Each body is empty: the contract is the law.

ghost use Rattle.std.specs.Prelude.{◌≡◌, ◌↔◌, ℕ, Bool, List};
ghost use Rattle.base_words.specs.Words.{words_between, IsCutInto};

/// A text is cut into words in just one way, whatever separates them.
pub fn one_list_of_words()
    ensures { (separates : ℕ → Bool) (text : List ℕ) (ws : List (List ℕ)) →
        IsCutInto separates text ws ↔ (ws ≡ words_between separates text) }
{}
