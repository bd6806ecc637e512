//! Signs that words begin with.

ghost use Rattle.std.specs.Prelude.{◌≡◌};
ghost use Rattle.control_grammar.specs.Commands.{sign_and_rest};

use control_grammar::Sign;

/// The sign that a word begins with, and what follows it.
pub(crate) fn sign_and_rest(word: &str) -> (Option<Sign>, &str)
    ensures sign { result.0 ≡ (sign_and_rest word.now).0 }
    ensures rest { result.1.now ≡ (sign_and_rest word.now).1 }
{
    if let Some(rest) = word.strip_prefix('+') {
        return (Some(Sign::Plus), rest);
    }
    if let Some(rest) = word.strip_prefix('-') {
        return (Some(Sign::Minus), rest);
    }
    if let Some(rest) = word.strip_prefix('=') {
        return (Some(Sign::Equals), rest);
    }
    (None, word)
}
