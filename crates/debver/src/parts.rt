//! The parts of a version text.

ghost use Rattle.std.specs.Prelude.{◌≡◌, ◌++◌, [], Some, None, MatchResult, IsTrue, unwrap_or};
ghost use Rattle.std.specs.List.{list_all};
ghost use Rattle.std.specs.Option.{option_copied};
ghost use Rattle.debver.specs.Characters.{is_digit};
ghost use Rattle.debver.specs.Parts.{epoch_text, revision_text, PrecedesFirstColon, FollowsLastHyphen};
ghost use Rattle.debver.specs.Cut.{cut, IsVersion};
ghost use Rattle.debver.specs.Faults.{text_fault};
ghost use Rattle.debver.specs.Versions.{revision_or_zero};

use crate::fault::{VersionFault, first_fault};
use std::marker::Model;

/// The parts of a version text.
/// Contracts see the text, which has its parts in one way.
#[derive(Drop)]
pub struct Parts<'a> {
    text: &'a str,
    epoch: Option<&'a str>,
    upstream: &'a str,
    revision: Option<&'a str>,
}

impl<'a> Model for Parts<'a> {
    ghost use Rattle.std.specs.Prelude.{List, ℕ, ◌≡◌};
    ghost use Rattle.std.specs.Option.{option_copied};
    ghost use Rattle.debver.specs.Parts.{parts_of};
    ghost use Rattle.debver.specs.Cut.{cut, IsVersion};

    ghost Value = { List ℕ };

    ghost view = { λ p. p.text.now };

    ghost invariant = { λ p.
        (parts_of (option_copied p.epoch) p.upstream.now (option_copied p.revision) ≡ cut p.text.now)
        × IsVersion p.text.now };
}

impl<'a> Parts<'a> {
    /// The whole text.
    pub fn text(&self) -> &'a str
        ensures text { result.now ≡ self.now }
        ensures version { IsVersion self.now }
    {
        self.text
    }

    /// The digits before the first colon, where there is one.
    pub fn epoch(&self) -> Option<&'a str>
        ensures { option_copied result ≡ (cut self.now).epoch }
    {
        self.epoch
    }

    /// The upstream part.
    pub fn upstream(&self) -> &'a str
        ensures { result.now ≡ (cut self.now).upstream }
    {
        self.upstream
    }

    /// What follows the last hyphen, where there is one.
    pub fn revision(&self) -> Option<&'a str>
        ensures { option_copied result ≡ (cut self.now).revision }
    {
        self.revision
    }

    // The digits of the epoch, of which there are none where it is absent.
    pub(crate) fn epoch_digits(&self) -> &'a [u8]
        ensures value { result.now ≡ unwrap_or (cut self.now).epoch [] }
        ensures digits { IsTrue (list_all is_digit result.now) }
    {
        match self.epoch {
            Some(epoch) => epoch.as_bytes(),
            None => &[],
        }
    }

    // The revision, and `0` where it is absent.
    pub(crate) fn revision_or_zero(&self) -> &'a [u8]
        ensures { result.now ≡ revision_or_zero (cut self.now) }
    {
        match self.revision {
            Some(revision) => revision.as_bytes(),
            None => b"0",
        }
    }
}

// What precedes the first colon, if there is one, and the rest.
fn at_first_colon(text: &str) -> (Option<&str>, &str)
    ensures whole { text.now ≡ epoch_text (option_copied result.0) ++ result.1.now }
    ensures first { PrecedesFirstColon (option_copied result.0) result.1.now }
{
    match text.split_once(':') {
        Some((epoch, rest)) => (Some(epoch), rest),
        None => (None, text),
    }
}

// The upstream part, and what follows the last hyphen, if there is one.
fn at_last_hyphen(rest: &str) -> (&str, Option<&str>)
    ensures whole { rest.now ≡ result.0.now ++ revision_text (option_copied result.1) }
    ensures last { FollowsLastHyphen result.0.now (option_copied result.1) }
{
    match rest.rsplit_once('-') {
        Some((upstream, revision)) => (upstream, Some(revision)),
        None => (rest, None),
    }
}

/// The parts of a text that is a version, which are not tested again.
pub fn cut(text: &str) -> Parts<'_>
    requires { IsVersion text.now }
    ensures { result ≡ text.now }
{
    let (before, rest) = at_first_colon(text);
    let (upstream, after) = at_last_hyphen(rest);
    Parts {
        text,
        epoch: before,
        upstream,
        revision: after,
    }
}

/// The parts of a version text, or the first fault of another.
pub fn check(text: &str) -> Result<Parts<'_>, VersionFault>
    ensures exact { MatchResult result
        (λ parts. (parts ≡ text.now) × (text_fault text.now ≡ None))
        (λ fault. text_fault text.now ≡ Some fault) }
    ensures version { MatchResult result (λ _. IsVersion text.now) (λ _. ¬ IsVersion text.now) }
{
    let (epoch, rest) = at_first_colon(text);
    let (upstream, revision) = at_last_hyphen(rest);
    match first_fault(text, epoch, upstream, revision) {
        Some(fault) => Err(fault),
        None => Ok(Parts {
            text,
            epoch,
            upstream,
            revision,
        }),
    }
}
