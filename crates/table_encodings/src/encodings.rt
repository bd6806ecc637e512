//! The numbers that stand for severities, flags, tags and kinds of marks in the tables.

ghost use Rattle.std.specs.Prelude.{◌≡◌, ◌≤◌, ◌<◌, ◌^◌, ◌++◌, length, map, OnOk, IfOk};
ghost use Rattle.bug_record.specs.Tags.{all_tags, has_tag};
ghost use Rattle.table_encodings.specs.Encodings.{severity_in, flag, flag_in, kind_number, kind_in, binary, tags_number, chosen, tags_in};

use bug_record::{Severity, Tag, Tags};
use std::alloc::{AllocError, Global};
use version_nodes::MarkKind;

// All tags, in their order.
const ALL_TAGS: [Tag; 17] = [
    Tag::A11y,
    Tag::Confirmed,
    Tag::DebianInstaller,
    Tag::FixedUpstream,
    Tag::Ftbfs,
    Tag::Help,
    Tag::Ipv6,
    Tag::L10n,
    Tag::Lfs,
    Tag::Moreinfo,
    Tag::Newcomer,
    Tag::Patch,
    Tag::Pending,
    Tag::Security,
    Tag::Unreproducible,
    Tag::Upstream,
    Tag::Wontfix,
];

/// The severity of this place, 0 for critical to 6 for wishlist; `None` where there is none.
/// This project's own rule.
pub fn severity_of_number(number: u64) -> Option<Severity>
    ensures { result ≡ severity_in number }
{
    match number {
        0 => Some(Severity::Critical),
        1 => Some(Severity::Grave),
        2 => Some(Severity::Serious),
        3 => Some(Severity::Important),
        4 => Some(Severity::Normal),
        5 => Some(Severity::Minor),
        6 => Some(Severity::Wishlist),
        _ => None,
    }
}

/// The number of a flag: 0 or 1.
/// This project's own rule.
pub fn number_of_flag(is_set: bool) -> u32
    ensures { result ≡ flag is_set }
{
    if is_set { 1 } else { 0 }
}

/// The flag of 0 or 1; `None` of another number.
/// This project's own rule.
pub fn flag_of_number(number: u64) -> Option<bool>
    ensures { result ≡ flag_in number }
{
    match number {
        0 => Some(false),
        1 => Some(true),
        _ => None,
    }
}

/// The number of a kind of marks: 0 for found, 1 for fixed.
/// This project's own rule.
pub fn number_of_kind(kind: MarkKind) -> u32
    ensures { result ≡ kind_number kind }
{
    match kind {
        MarkKind::Found => 0,
        MarkKind::Fixed => 1,
    }
}

/// The kind of marks of 0 or 1; `None` of another number.
/// This project's own rule.
pub fn kind_of_number(number: u64) -> Option<MarkKind>
    ensures { result ≡ kind_in number }
{
    match number {
        0 => Some(MarkKind::Found),
        1 => Some(MarkKind::Fixed),
        _ => None,
    }
}

// Whether the tag is among these.
fn has_tag(tags: &[Tag], tag: Tag) -> bool
    ensures { result ≡ has_tag tags.now tag }
{
    for other in tags {
        if tag.place() == other.place() {
            return true;
        }
    }
    false
}

// The binary number of which of some tags, at most 20, are among others.
fn number_among(tags: &[Tag], all: &[Tag]) -> u32
    requires { length all.now ≤ 20 }
    ensures value { result ≡ binary (map (has_tag tags.now) all.now) }
    ensures bound { result < 2 ^ length all.now }
{
    match all {
        [] => 0,
        [tag, rest @ ..] => {
            let higher = number_among(tags, rest);
            number_of_flag(has_tag(tags, *tag)) + 2 * higher
        }
    }
}

/// The number of a set of tags: the binary number, below 131,072, whose digit at a tag's place says
/// whether the tag is there.
/// This project's own rule.
pub fn number_of_tags(tags: &Tags) -> u32
    ensures { result ≡ tags_number tags.now }
{
    number_among(tags.as_slice(), ALL_TAGS.as_slice())
}

// Adds those of the tags whose digits in the number are 1.
fn add_chosen(tags: &mut Tags, number: u64, all: &[Tag]) -> Result<(), AllocError>
    ensures { OnOk result (tags.new ≡ tags.old ++ chosen number all.now) }
{
    match all {
        [] => Ok(()),
        [tag, rest @ ..] => {
            if number % 2 == 1 {
                tags.push(*tag)?;
            }
            add_chosen(tags, number / 2, rest)
        }
    }
}

/// The set of tags of a number; digits above those of the tags say nothing.
/// This project's own rule.
pub fn tags_of_number(alloc: Global, number: u64) -> Result<Tags, AllocError>
    ensures { IfOk result (λ tags. tags ≡ tags_in number) }
{
    let mut tags = Tags::new(alloc);
    match add_chosen(&mut tags, number, ALL_TAGS.as_slice()) {
        Ok(()) => Ok(tags),
        Err(error) => Err(error),
    }
}
