//! The order of versions.

ghost use Rattle.std.specs.Prelude.{◌≡◌, ◌↔◌};
ghost use Rattle.debver.specs.Versions.{text_cmp, total_cmp};

use crate::parts::Parts;
use crate::strings::{compare, compare_numbers};
use std::cmp::Ordering;

/// Compares two versions as Debian Policy 5.6.12 does: by the epochs as numbers, then by the
/// upstream parts, then by the revisions.
/// An absent epoch is 0, and an absent revision is `0`.
///
/// Two strings are compared from the left, a part without digits and a part of digits in turn.
/// Of parts without digits the characters decide: the tilde comes before the end of the part, the
/// end before letters, letters before all others; within a class by ASCII code.
/// Parts of digits are compared as numbers of any size, an empty one as 0.
///
/// Different texts may be Equal here, as `1.0` and `1.0-0` are.
/// It takes no memory.
pub fn order(a: &Parts<'_>, b: &Parts<'_>) -> Ordering
    ensures { result ≡ text_cmp a.now b.now }
{
    let by_epoch = compare_numbers(a.epoch_digits(), b.epoch_digits());
    if by_epoch.is_ne() {
        return by_epoch;
    }
    let by_upstream = compare(a.upstream().as_bytes(), b.upstream().as_bytes());
    if by_upstream.is_ne() {
        return by_upstream;
    }
    compare(a.revision_or_zero(), b.revision_or_zero())
}

/// Compares two versions as `order` does, and where they compare alike by the bytes of their texts:
/// this project's own rule.
/// Only equal texts are Equal.
/// It takes no memory.
pub fn total(a: &Parts<'_>, b: &Parts<'_>) -> Ordering
    ensures order { result ≡ total_cmp a.now b.now }
    ensures equal { (result ≡ Ordering.Equal) ↔ (a.now ≡ b.now) }
{
    order(a, b).then(a.text().as_bytes().cmp(b.text().as_bytes()))
}
