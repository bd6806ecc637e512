//! Whether two records are equal, field by field.

ghost use Rattle.std.specs.Prelude.{◌≡◌, ◌≢◌, false, IsTrue};
ghost use Rattle.std.specs.Str.{bytes_eq};
ghost use Rattle.bug_record.specs.Images.{numbers_of};
ghost use Rattle.bug_record.specs.Changed.{same_tags, same_shared};
ghost use Rattle.bug_record.specs.Differences.{same_text};
ghost use Rattle.bug_images.specs.Changes.{same_texts, same_set, same_member, same_members, same_image, same_images};

use bug_record::{Member, SetImage, Shared, Tag};
use debver::Text;

fn same_tags(a: &[Tag], b: &[Tag]) -> bool
    ensures { result ≡ same_tags a.now b.now }
{
    if a.len() != b.len() {
        return false;
    }
    for i in 0..a.len() {
        if a[i].place() != b[i].place() {
            return false;
        }
    }
    true
}

/// Whether both are none, or equal.
pub fn same_text(a: &Option<Text>, b: &Option<Text>) -> bool
    ensures { result ≡ same_text a.now b.now }
{
    match (a, b) {
        (Some(text), Some(other)) => *text == *other,
        (None, None) => true,
        (Some(_), None) | (None, Some(_)) => false,
    }
}

// Whether a flag, the severity or the length of a list differs, for which no text is compared.
fn differ_at_once(a: &Shared, b: &Shared) -> bool
    ensures { a.now ≡ b.now → result ≡ false }
{
    a.closed != b.closed
        || a.archived != b.archived
        || a.severity.rank() != b.severity.rank()
        || a.found.as_slice().len() != b.found.as_slice().len()
        || a.fixed.as_slice().len() != b.fixed.as_slice().len()
        || a.tags.as_slice().len() != b.tags.as_slice().len()
}

// Whether all shared fields are equal, which are compared in their order.
fn same_fields(a: &Shared, b: &Shared) -> bool
    ensures { result ≡ same_shared a.now b.now }
{
    a.package == b.package
        && a.severity.rank() == b.severity.rank()
        && a.closed == b.closed
        && same_text(&a.forwarded, &b.forwarded)
        && same_text(&a.owner, &b.owner)
        && same_tags(a.tags.as_slice(), b.tags.as_slice())
        && a.affects == b.affects
        && a.found == b.found
        && a.fixed == b.fixed
        && a.blockers == b.blockers
        && a.archived == b.archived
}

/// Whether all shared fields are equal.
pub(crate) fn same_shared(a: &Shared, b: &Shared) -> bool
    ensures { result ≡ same_shared a.now b.now }
{
    !differ_at_once(a, b) && same_fields(a, b)
}

/// Whether the members are the same bugs, in the same order.
pub fn same_numbers(a: &[Member], b: &[Member]) -> bool
    ensures { result ≡ bytes_eq (numbers_of a.now) (numbers_of b.now) }
{
    if a.len() != b.len() {
        return false;
    }
    for i in 0..a.len() {
        if a[i].number != b[i].number {
            return false;
        }
    }
    true
}

/// Whether the titles and the submitters are equal.
pub(crate) fn same_texts(a: &Member, b: &Member) -> bool
    ensures { result ≡ same_texts a.now b.now }
{
    a.title == b.title && a.submitter == b.submitter
}

/// Whether the sets of two images are the same bugs, with equal shared fields.
pub(crate) fn same_set(a: &SetImage, b: &SetImage) -> bool
    ensures { result ≡ same_set a.now b.now }
{
    same_numbers(a.members.as_slice(), b.members.as_slice())
        && same_shared(a.shared.fields(), b.shared.fields())
}

fn same_member(a: &Member, b: &Member) -> bool
    ensures { result ≡ same_member a.now b.now }
{
    a.number == b.number && same_texts(a, b)
}

fn same_members(a: &[Member], b: &[Member]) -> bool
    ensures { result ≡ same_members a.now b.now }
{
    if a.len() != b.len() {
        return false;
    }
    for i in 0..a.len() {
        if !same_member(&a[i], &b[i]) {
            return false;
        }
    }
    true
}

/// Whether the members are equal: the same bugs in the same order, with the same texts.
/// Takes no memory.
pub fn equal_members(a: &[Member], b: &[Member]) -> bool
    ensures equal { IsTrue result → a.now ≡ b.now }
    ensures other { result ≡ false → a.now ≢ b.now }
{
    same_members(a, b)
}

fn same_image(a: &SetImage, b: &SetImage) -> bool
    ensures { result ≡ same_image a.now b.now }
{
    same_shared(a.shared.fields(), b.shared.fields())
        && same_members(a.members.as_slice(), b.members.as_slice())
}

/// Whether the images are equal, in the same order.
pub(crate) fn same_images(a: &[SetImage], b: &[SetImage]) -> bool
    ensures { result ≡ same_images a.now b.now }
{
    if a.len() != b.len() {
        return false;
    }
    for i in 0..a.len() {
        if !same_image(&a[i], &b[i]) {
            return false;
        }
    }
    true
}
