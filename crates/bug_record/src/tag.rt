//! Tags of bugs.

ghost use Rattle.std.specs.Prelude.{◌≡◌};
ghost use Rattle.bug_record.specs.Tags.{tag_place, tag_name, tag_of};

use base_sequences::Numbered;
use base_words::{Spelled, find_spelled};

/// A tag of a bug (the tags of the BTS without those that name a distribution or a version).
#[derive(Clone, Copy, PartialEq, Eq, Drop)]
pub enum Tag {
    A11y,
    Confirmed,
    DebianInstaller,
    FixedUpstream,
    Ftbfs,
    Help,
    Ipv6,
    L10n,
    Lfs,
    Moreinfo,
    Newcomer,
    Patch,
    Pending,
    Security,
    Unreproducible,
    Upstream,
    Wontfix,
}

// All tags, in their order.
const ALL: [Tag; 17] = [
    Tag::A11y,
    Tag::Confirmed,
    Tag::DebianInstaller,
    Tag::FixedUpstream,
    Tag::Ftbfs,
    Tag::Help,
    Tag::Ipv6,
    Tag::L10n,
    Tag::Lfs,
    Tag::Moreinfo,
    Tag::Newcomer,
    Tag::Patch,
    Tag::Pending,
    Tag::Security,
    Tag::Unreproducible,
    Tag::Upstream,
    Tag::Wontfix,
];

impl Tag {
    /// The tag of this name, in any ASCII case; `None` where the word names none.
    pub fn read(word: &str) -> Option<Tag>
        ensures { result ≡ tag_of word.now }
    {
        find_spelled(ALL.as_slice(), word)
    }

    /// Its name, in lower case.
    pub fn name(self) -> &'static str
        ensures { result.now ≡ tag_name self }
    {
        match self {
            Tag::A11y => "a11y",
            Tag::Confirmed => "confirmed",
            Tag::DebianInstaller => "d-i",
            Tag::FixedUpstream => "fixed-upstream",
            Tag::Ftbfs => "ftbfs",
            Tag::Help => "help",
            Tag::Ipv6 => "ipv6",
            Tag::L10n => "l10n",
            Tag::Lfs => "lfs",
            Tag::Moreinfo => "moreinfo",
            Tag::Newcomer => "newcomer",
            Tag::Patch => "patch",
            Tag::Pending => "pending",
            Tag::Security => "security",
            Tag::Unreproducible => "unreproducible",
            Tag::Upstream => "upstream",
            Tag::Wontfix => "wontfix",
        }
    }

    /// Its place in the order of tags, which is that of their names' bytes: 0 for `a11y` to 16 for
    /// `wontfix`.
    pub fn place(self) -> u8
        ensures { result ≡ tag_place self }
    {
        match self {
            Tag::A11y => 0,
            Tag::Confirmed => 1,
            Tag::DebianInstaller => 2,
            Tag::FixedUpstream => 3,
            Tag::Ftbfs => 4,
            Tag::Help => 5,
            Tag::Ipv6 => 6,
            Tag::L10n => 7,
            Tag::Lfs => 8,
            Tag::Moreinfo => 9,
            Tag::Newcomer => 10,
            Tag::Patch => 11,
            Tag::Pending => 12,
            Tag::Security => 13,
            Tag::Unreproducible => 14,
            Tag::Upstream => 15,
            Tag::Wontfix => 16,
        }
    }
}

impl Spelled for Tag {
    ghost spelled = { tag_name };

    fn spelled(&self) -> &'static str {
        self.name()
    }
}

impl Numbered for Tag {
    ghost number = { tag_place };

    fn number(&self) -> u64 {
        u64::from(self.place())
    }
}
