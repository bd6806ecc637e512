//! What a word that was handed in stands for.

ghost use Rattle.std.specs.Prelude.{◌≡◌};
ghost use Rattle.control_text.specs.Tokens.{text_of, ends_command};

/// The text of a word, which may be empty, and whether a separator follows it: a word `.`, or a
/// comma at the very end of a word, is a separator.
/// A `,` or `.` by itself is bts(1)'s; the comma at the end of a longer word is this project's own
/// rule.
pub(crate) fn cut(word: &str) -> (&str, bool)
    ensures text { result.0.now ≡ text_of word.now }
    ensures ends { result.1 ≡ ends_command word.now }
{
    if word == "." {
        return ("", true);
    }
    match word.strip_suffix(',') {
        Some(text) => (text, true),
        None => (word, false),
    }
}
