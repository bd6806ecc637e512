//! The words of a text: the maximal runs of bytes between separators.

ghost use Rattle.std.specs.Prelude.{◌≡◌, ◌≤◌, ◌<◌, [], ◌∷◌, length, drop, MatchOption, IfSome, IsTrue, IsFalse};
ghost use Rattle.std.specs.List.{prefix_len, suffix_len, position_or_len, before_first};
ghost use Rattle.base_words.specs.Blanks.{is_blank};
ghost use Rattle.base_words.specs.Words.{has_bytes, words_between, words, words_with_commas, is_separator, without_first};
ghost use Rattle.base_words.specs.Words.{without_last_blanks, first_between, after_between, first_word, after_word, trimmed};

use crate::blanks::is_blank;

/// What stands between words.
#[derive(Clone, Copy, Debug, PartialEq, Eq, Drop)]
pub enum Separators {
    /// Spaces and tabs.
    Blanks,
    /// Spaces, tabs and commas.
    BlanksAndCommas,
}

impl Separators {
    fn contain(self, c: u8) -> bool
        ensures { result ≡ is_separator self c }
    {
        match self {
            Separators::Blanks => is_blank(c),
            Separators::BlanksAndCommas => is_blank(c) || c == b',',
        }
    }
}

fn leading_separators(separators: Separators, s: &[u8]) -> usize
    ensures { result ≡ prefix_len (is_separator separators) s.now }
{
    s.iter().take_while(|c| separators.contain(**c)).count()
}

fn leading_others(separators: Separators, s: &[u8]) -> usize
    ensures { result ≡ position_or_len (is_separator separators) s.now }
{
    s.iter().take_while(|c| !separators.contain(**c)).count()
}

// The text without the separators at its beginning.
fn without_first(separators: Separators, text: &str) -> &str
    ensures { result.now ≡ without_first (is_separator separators) text.now }
{
    text.split_at(leading_separators(separators, text.as_bytes()))
        .1
}

// What precedes the first separator, and the rest from it on.
fn at_separator(separators: Separators, text: &str) -> (&str, &str)
    ensures word { result.0.now ≡ before_first (is_separator separators) text.now }
    ensures rest { result.1.now ≡ drop (position_or_len (is_separator separators) text.now) text.now }
{
    text.split_at(leading_others(separators, text.as_bytes()))
}

// The first word, which is empty where there is none, and the text after it.
fn word_and_rest(separators: Separators, text: &str) -> (&str, &str)
    ensures word { result.0.now ≡ first_between (is_separator separators) text.now }
    ensures rest { result.1.now ≡ after_between (is_separator separators) text.now }
    ensures first { IsTrue (has_bytes result.0.now) →
        words_between (is_separator separators) text.now
        ≡ result.0.now ∷ words_between (is_separator separators) result.1.now }
    ensures none { IsFalse (has_bytes result.0.now) → words_between (is_separator separators) text.now ≡ [] }
    ensures shorter { IsTrue (has_bytes result.0.now) → length result.1.now < length text.now }
{
    at_separator(separators, without_first(separators, text))
}

/// The first word between these separators, and the text after it; `None` where there is no word.
pub fn split_word_by(separators: Separators, text: &str) -> Option<(&str, &str)>
    ensures cut { MatchOption result
        (words_between (is_separator separators) text.now ≡ [])
        (λ parts. words_between (is_separator separators) text.now
        ≡ parts.0.now ∷ words_between (is_separator separators) parts.1.now) }
    ensures shorter { IfSome result (λ parts. length parts.1.now < length text.now) }
{
    let (word, rest) = word_and_rest(separators, text);
    if word.is_empty() {
        None
    } else {
        Some((word, rest))
    }
}

/// The first word, which is empty where there is none, and the text after it.
pub fn next_word(text: &str) -> (&str, &str)
    ensures word { result.0.now ≡ first_word text.now }
    ensures rest { result.1.now ≡ after_word text.now }
    ensures first { IsTrue (has_bytes result.0.now) → words text.now ≡ result.0.now ∷ words result.1.now }
    ensures none { IsFalse (has_bytes result.0.now) → words text.now ≡ [] }
    ensures shorter { IsTrue (has_bytes result.0.now) → length result.1.now < length text.now }
{
    word_and_rest(Separators::Blanks, text)
}

/// The first word, and the text after it; `None` where there is no word.
pub fn split_word(text: &str) -> Option<(&str, &str)>
    ensures cut { MatchOption result
        (words text.now ≡ [])
        (λ parts. words text.now ≡ parts.0.now ∷ words parts.1.now) }
    ensures shorter { IfSome result (λ parts. length parts.1.now < length text.now) }
{
    split_word_by(Separators::Blanks, text)
}

/// The first word, and the text after it, where commas are blanks too; `None` where there is no
/// word.
pub fn split_word_with_commas(text: &str) -> Option<(&str, &str)>
    ensures cut { MatchOption result
        (words_with_commas text.now ≡ [])
        (λ parts. words_with_commas text.now ≡ parts.0.now ∷ words_with_commas parts.1.now) }
    ensures shorter { IfSome result (λ parts. length parts.1.now < length text.now) }
{
    split_word_by(Separators::BlanksAndCommas, text)
}

fn last_blanks(s: &[u8]) -> usize
    ensures value { result ≡ suffix_len is_blank s.now }
    ensures within { result ≤ length s.now }
{
    s.iter().rev().take_while(|c| is_blank(**c)).count()
}

fn without_last_blanks(text: &str) -> &str
    ensures { result.now ≡ without_last_blanks text.now }
{
    text.split_at(text.len() - last_blanks(text.as_bytes())).0
}

/// The text without outer blanks (spaces and tabs).
pub fn trim(text: &str) -> &str
    ensures { result.now ≡ trimmed text.now }
{
    without_last_blanks(without_first(Separators::Blanks, text))
}
