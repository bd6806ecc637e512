//! Severities of bugs.

ghost use Rattle.std.specs.Prelude.{◌≡◌};
ghost use Rattle.bug_record.specs.Severities.{all_severities, severity_of, severity_name, rank};

use base_words::{Spelled, find_spelled};

/// How severe a bug is, from `critical` down to `wishlist` (the severities of the BTS).
#[derive(Clone, Copy, Debug, PartialEq, Eq, Drop)]
pub enum Severity {
    Critical,
    Grave,
    Serious,
    Important,
    Normal,
    Minor,
    Wishlist,
}

// All severities, from the most severe down.
const ALL: [Severity; 7] = [
    Severity::Critical,
    Severity::Grave,
    Severity::Serious,
    Severity::Important,
    Severity::Normal,
    Severity::Minor,
    Severity::Wishlist,
];

impl Severity {
    /// All severities, from the most severe down.
    pub fn all() -> [Severity; 7]
        ensures { result ≡ all_severities }
    {
        ALL
    }

    /// The severity of this name, in any ASCII case; `None` where the word names none.
    pub fn read(word: &str) -> Option<Severity>
        ensures { result ≡ severity_of word.now }
    {
        find_spelled(ALL.as_slice(), word)
    }

    /// Its name, in lower case.
    pub fn name(self) -> &'static str
        ensures { result.now ≡ severity_name self }
    {
        match self {
            Severity::Critical => "critical",
            Severity::Grave => "grave",
            Severity::Serious => "serious",
            Severity::Important => "important",
            Severity::Normal => "normal",
            Severity::Minor => "minor",
            Severity::Wishlist => "wishlist",
        }
    }

    /// Its place: 0 for critical to 6 for wishlist.
    pub fn rank(self) -> u8
        ensures { result ≡ rank self }
    {
        match self {
            Severity::Critical => 0,
            Severity::Grave => 1,
            Severity::Serious => 2,
            Severity::Important => 3,
            Severity::Normal => 4,
            Severity::Minor => 5,
            Severity::Wishlist => 6,
        }
    }
}

impl Spelled for Severity {
    ghost spelled = { severity_name };

    fn spelled(&self) -> &'static str {
        self.name()
    }
}
