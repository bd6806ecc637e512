//! Texts that have just one word, just two, or just three.

ghost use Rattle.std.specs.Prelude.{◌≡◌, ◌≢◌, [], ◌∷◌, length, MatchOption};
ghost use Rattle.base_words.specs.Words.{words};

use base_words::split_word;

/// The word of a text that has just one.
pub(crate) fn one_word(text: &str) -> Option<&str>
    ensures { MatchOption result (length (words text.now) ≢ 1) (λ word. words text.now ≡ word.now ∷ []) }
{
    let (word, rest) = split_word(text)?;
    if split_word(rest).is_some() {
        return None;
    }
    Some(word)
}

/// The words of a text that has just two.
pub(crate) fn two_words(text: &str) -> Option<(&str, &str)>
    ensures { MatchOption result
        (length (words text.now) ≢ 2)
        (λ both. words text.now ≡ both.0.now ∷ both.1.now ∷ []) }
{
    let (first, rest) = split_word(text)?;
    Some((first, one_word(rest)?))
}

/// The words of a text that has just three.
pub(crate) fn three_words(text: &str) -> Option<(&str, &str, &str)>
    ensures { MatchOption result
        (length (words text.now) ≢ 3)
        (λ all. words text.now ≡ all.0.now ∷ all.1.now ∷ all.2.now ∷ []) }
{
    let (first, rest) = split_word(text)?;
    let (second, third) = two_words(rest)?;
    Some((first, second, third))
}
