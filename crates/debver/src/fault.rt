//! Why a text is no version.

ghost use Rattle.std.specs.Prelude.{◌≡◌, ◌+◌, ◌^◌, ◌<◌, ◌≤◌, length, not, position, IfSome};
ghost use Rattle.std.specs.Option.{option_copied};
ghost use Rattle.debver.specs.Characters.{is_digit};
ghost use Rattle.debver.specs.Parts.{parts_of, written, epoch_text, revision_text, in_upstream, in_revision};
ghost use Rattle.debver.specs.Faults.{wrong_place, has_bad_epoch, upstream_fault_at, revision_fault_at, fault};

use thiserror::Error;

/// The first fault of a text, in the order in which they stand here.
/// A place is a byte offset in the whole text.
#[derive(Clone, Copy, Debug, PartialEq, Eq, Error)]
pub enum VersionFault {
    /// The text is empty.
    #[error("the version is empty")]
    Empty,
    /// What precedes the first colon is empty, or holds something that is no digit.
    #[error("the epoch of the version is no number")]
    BadEpoch,
    /// The first wrong character of the upstream part, or where an empty one would begin.
    #[error("the upstream part of the version is wrong at byte {0}")]
    BadUpstream(usize),
    /// The first wrong character of the revision, or where an empty one would begin.
    #[error("the revision of the version is wrong at byte {0}")]
    BadRevision(usize),
    /// More than 100 bytes.
    #[error("the version has more than 100 bytes")]
    TooLong,
}

fn in_revision(c: u8) -> bool
    ensures { result ≡ in_revision c }
{
    c.is_ascii_digit() || c.is_ascii_alphabetic() || c == b'.' || c == b'+' || c == b'~'
}

fn in_upstream(has_epoch: bool, c: u8) -> bool
    ensures { result ≡ in_upstream has_epoch c }
{
    in_revision(c) || c == b'-' || has_epoch && c == b':'
}

fn first_non_digit(s: &[u8]) -> Option<usize>
    ensures { result ≡ position (λ c. not (is_digit c)) s.now }
{
    s.iter().position(|c| !c.is_ascii_digit())
}

fn first_outside_upstream(has_epoch: bool, s: &[u8]) -> Option<usize>
    ensures value { result ≡ position (λ c. not (in_upstream has_epoch c)) s.now }
    ensures within { IfSome result (λ place. place < length s.now) }
{
    s.iter().position(|c| !in_upstream(has_epoch, *c))
}

fn first_outside_revision(s: &[u8]) -> Option<usize>
    ensures value { result ≡ position (λ c. not (in_revision c)) s.now }
    ensures within { IfSome result (λ place. place < length s.now) }
{
    s.iter().position(|c| !in_revision(*c))
}

// The first wrong character of an epoch, or where an empty one would begin.
fn wrong_in_epoch(epoch: &str) -> Option<usize>
    ensures { result ≡ wrong_place is_digit epoch.now }
{
    if epoch.is_empty() {
        Some(0)
    } else {
        first_non_digit(epoch.as_bytes())
    }
}

// The same of an upstream part.
fn wrong_in_upstream(has_epoch: bool, upstream: &str) -> Option<usize>
    ensures value { result ≡ wrong_place (in_upstream has_epoch) upstream.now }
    ensures within { IfSome result (λ place. place ≤ length upstream.now) }
{
    if upstream.is_empty() {
        Some(0)
    } else {
        first_outside_upstream(has_epoch, upstream.as_bytes())
    }
}

// The same of a revision.
fn wrong_in_revision(revision: &str) -> Option<usize>
    ensures value { result ≡ wrong_place in_revision revision.now }
    ensures within { IfSome result (λ place. place ≤ length revision.now) }
{
    if revision.is_empty() {
        Some(0)
    } else {
        first_outside_revision(revision.as_bytes())
    }
}

fn has_bad_epoch(epoch: Option<&str>) -> bool
    ensures { result ≡ has_bad_epoch (option_copied epoch.entry) }
{
    match epoch {
        Some(epoch) => wrong_in_epoch(epoch).is_some(),
        None => false,
    }
}

// The fault of an upstream part that begins at a place of the text.
fn upstream_fault(start: usize, has_epoch: bool, upstream: &str) -> Option<VersionFault>
    requires { start + length upstream.now < 2 ^ 64 }
    ensures { result ≡ upstream_fault_at start has_epoch upstream.now }
{
    match wrong_in_upstream(has_epoch, upstream) {
        Some(place) => Some(VersionFault::BadUpstream(start + place)),
        None => None,
    }
}

// The fault of a revision that begins at a place of the text.
fn revision_fault(start: usize, revision: Option<&str>) -> Option<VersionFault>
    requires { start + length (revision_text (option_copied revision)) < 2 ^ 64 }
    ensures { result ≡ revision_fault_at start (option_copied revision.entry) }
{
    match wrong_in_revision(revision?) {
        Some(place) => Some(VersionFault::BadRevision(start + place)),
        None => None,
    }
}

// How many bytes the epoch and its colon have.
fn epoch_length(epoch: Option<&str>) -> usize
    requires { length (epoch_text (option_copied epoch)) < 2 ^ 64 }
    ensures { result ≡ length (epoch_text (option_copied epoch.entry)) }
{
    match epoch {
        Some(epoch) => epoch.len() + 1,
        None => 0,
    }
}

// The first fault of a text that is cut into these parts.
pub(crate) fn first_fault(
    text: &str,
    epoch: Option<&str>,
    upstream: &str,
    revision: Option<&str>,
) -> Option<VersionFault>
    requires { text.now ≡ written (parts_of (option_copied epoch) upstream.now (option_copied revision)) }
    ensures { result ≡ fault
        (parts_of (option_copied epoch.entry) upstream.now (option_copied revision.entry)) }
{
    if text.is_empty() {
        return Some(VersionFault::Empty);
    }
    if has_bad_epoch(epoch) {
        return Some(VersionFault::BadEpoch);
    }
    let start = epoch_length(epoch);
    if let Some(fault) = upstream_fault(start, epoch.is_some(), upstream) {
        return Some(fault);
    }
    if let Some(fault) = revision_fault(start + upstream.len() + 1, revision) {
        return Some(fault);
    }
    if text.len() > 100 {
        Some(VersionFault::TooLong)
    } else {
        None
    }
}
