//! Where the words of a command stand for bugs.

ghost use Rattle.std.specs.Prelude.{◌≡◌, is_some};
ghost use Rattle.control_text.specs.BugPlaces.{takes_bugs, is_it, is_bug_word};
ghost use Rattle.control_text.specs.Writer.{place_after, stands_for_bug, is_begun};

use base_words::{bug_word, is_word};

/// Where the next word of a command stands.
#[derive(Clone, Copy, Drop)]
pub(crate) enum Place {
    /// At the head of the command.
    First,
    /// After the first word, which may say that all words after it stand for bugs.
    Second { bugs: bool },
    /// After two words or more.
    Later { bugs: bool },
}

/// Whether all words after this first one of a command stand for bugs.
fn takes_bugs(first: &str) -> bool
    ensures { result ≡ takes_bugs first.now }
{
    is_word(first, "merge")
        || is_word(first, "forcemerge")
        || is_word(first, "block")
        || is_word(first, "unblock")
}

/// Whether the word is `it`, in any ASCII case.
pub(crate) fn is_it(word: &str) -> bool
    ensures { result ≡ is_it word.now }
{
    is_word(word, "it")
}

/// Whether the word stands for a bug by its number or its name.
pub(crate) fn is_bug_word(word: &str) -> bool
    ensures { result ≡ is_bug_word word.now }
{
    bug_word(word).is_some()
}

impl Place {
    /// Where the word after this one stands.
    pub(crate) fn after(self, word: &str) -> Place
        ensures { result ≡ place_after self word.now }
    {
        match self {
            Place::First => Place::Second {
                bugs: takes_bugs(word),
            },
            Place::Second { bugs } | Place::Later { bugs } => Place::Later { bugs },
        }
    }

    /// Whether a word here is one that stands for a bug.
    pub(crate) fn stands_for_bug(self) -> bool
        ensures { result ≡ stands_for_bug self }
    {
        match self {
            Place::First => false,
            Place::Second { .. } => true,
            Place::Later { bugs } => bugs,
        }
    }

    /// Whether the command has begun.
    pub(crate) fn is_begun(self) -> bool
        ensures { result ≡ is_begun self }
    {
        !matches!(self, Place::First)
    }
}
