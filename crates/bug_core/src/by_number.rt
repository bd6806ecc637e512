//! The members of the set that merged bugs become, by number.

ghost use Rattle.std.specs.Prelude.{◌≡◌, ◌∷◌, [], ◌++◌, None, IfOk, OnOk, MatchOption};
ghost use Rattle.std.specs.BTreeMap.{values};
ghost use Rattle.bug_record.specs.Images.{numbers_of};
ghost use Rattle.bug_record.specs.Sets.{with_item, with_items, IsAscending};
ghost use Rattle.bug_images.specs.Kept.{is_above, ascends};
ghost use Rattle.bug_core.specs.Joins.{with_members, number_of, AreByNumber};
ghost use Rattle.bug_core.specs.Merged.{front_below, rest_from, starts_with, unless_first};
ghost use Rattle.bug_core.specs.Others.{those_meant};
ghost use Rattle.bug_core.specs.Named.{named_numbers};

use crate::images::{Replaced, has_any};
use bug_record::{Member, Members, Sequence, SetImage};
use std::alloc::{AllocError, Global};
use std::collections::BTreeMap;

// Adds a copy of the member, unless there is one of its number.
fn add_member(map: &mut BTreeMap<u64, Member>, member: &Member) -> Result<(), AllocError>
    requires keyed { AreByNumber map.old.entries }
    ensures keyed { OnOk result (AreByNumber map.new.entries) }
    ensures members { OnOk result (values map.new ≡ with_item number_of (values map.old) member.now) }
{
    if !map.contains_key(&member.number) {
        map.insert(member.number, member.copy()?)?;
    }
    Ok(())
}

// Adds copies of the members.
fn add_members(map: &mut BTreeMap<u64, Member>, members: &[Member]) -> Result<(), AllocError>
    requires keyed { AreByNumber map.old.entries }
    ensures keyed { OnOk result (AreByNumber map.new.entries) }
    ensures members { OnOk result (values map.new ≡ with_items number_of (values map.old) members.now) }
{
    for member in members {
        add_member(map, member)?;
    }
    Ok(())
}

// The members of all sets of the bugs, by number.
fn members_by_number(
    alloc: Global,
    images: &[SetImage],
    named: Replaced,
) -> Result<BTreeMap<u64, Member>, AllocError>
    ensures { IfOk result (λ map. values map ≡ with_members [] (those_meant (named_numbers named.entry) images.now)) }
{
    let mut map = BTreeMap::new(alloc);
    for image in images {
        if has_any(image, named) {
            add_members(&mut map, image.members.as_slice())?;
        }
    }
    Ok(map)
}

// Adds the members of the map at the end.
fn add_values(members: &mut Sequence<Member>, map: BTreeMap<u64, Member>) -> Result<(), AllocError>
    ensures { OnOk result (members.new ≡ members.old ++ values map) }
{
    for member in map.into_values() {
        members.push(member)?;
    }
    Ok(())
}

// The members of all sets of the bugs, sorted one by one.
fn sorted_members(
    alloc: Global,
    images: &[SetImage],
    named: Replaced,
) -> Result<Members, AllocError>
    ensures { IfOk result (λ ms. ms ≡ with_members [] (those_meant (named_numbers named.entry) images.now)) }
{
    let map = members_by_number(alloc, images, named)?;
    let mut members = Sequence::new(alloc);
    match add_values(&mut members, map) {
        Ok(()) => Members::of(members),
        Err(error) => {
            // In one call, for the proof's sake: the parts are many.
            drop(members);
            Err(error)
        }
    }
}

// Whether the number is above the last one, if there is one.
fn is_above(last: Option<u64>, number: u64) -> bool
    ensures { result ≡ is_above last number }
{
    match last {
        Some(last) => last < number,
        None => true,
    }
}

// Whether the members ascend by number.
fn is_ascending(members: &[Member]) -> bool
    ensures { result ≡ ascends None (numbers_of members.now) }
{
    let mut last = None;
    for member in members {
        if !is_above(last, member.number) {
            return false;
        }
        last = Some(member.number);
    }
    true
}

/// Adds a copy of the member at the end.
pub(crate) fn add_copy(members: &mut Sequence<Member>, member: &Member) -> Result<(), AllocError>
    ensures { OnOk result (members.new ≡ members.old ++ member.now ∷ []) }
{
    members.push(member.copy()?)
}

// Adds copies of the members up to the first one that is not below the number, and answers that
// one and those after it.
fn add_below<'a>(
    merged: &mut Sequence<Member>,
    members: &'a [Member],
    number: u64,
) -> Result<&'a [Member], AllocError>
    ensures added { OnOk result (merged.new ≡ merged.old ++ front_below number members.now) }
    ensures rest { IfOk result (λ rest. rest.now ≡ rest_from number members.now) }
{
    for (i, member) in members.iter().enumerate() {
        if member.number >= number {
            return Ok(&members[i..]);
        }
        add_copy(merged, member)?;
    }
    Ok(&[])
}

// Whether the first member has the number.
fn starts_with(members: &[Member], number: u64) -> bool
    ensures { result ≡ starts_with members.now number }
{
    match members.first() {
        Some(member) => member.number == number,
        None => false,
    }
}

// Adds a copy of the member, unless the first of the rest has its number.
fn add_unless_first(
    merged: &mut Sequence<Member>,
    rest: &[Member],
    member: &Member,
) -> Result<(), AllocError>
    ensures { OnOk result (merged.new ≡ merged.old ++ unless_first rest.now member.now) }
{
    if starts_with(rest, member.number) {
        return Ok(());
    }
    add_copy(merged, member)
}

// Adds copies of the members at the end.
fn add_copies(merged: &mut Sequence<Member>, members: &[Member]) -> Result<(), AllocError>
    ensures { OnOk result (merged.new ≡ merged.old ++ members.now) }
{
    for member in members {
        add_copy(merged, member)?;
    }
    Ok(())
}

// Adds copies of the members and of the others, which ascend: in one pass, and of two with one
// number that of the members.
fn add_merged(
    merged: &mut Sequence<Member>,
    members: &[Member],
    others: &[Member],
) -> Result<(), AllocError>
    requires ascending { IsAscending (numbers_of others.now) }
    ensures { OnOk result (merged.new ≡ merged.old ++ with_items number_of members.now others.now) }
{
    let mut rest = members;
    for other in others {
        rest = add_below(merged, rest, other.number)?;
        add_unless_first(merged, rest, other)?;
    }
    add_copies(merged, rest)
}

// Copies of the members and of the others, which ascend.
fn merged(
    alloc: Global,
    members: &[Member],
    others: &[Member],
) -> Result<Sequence<Member>, AllocError>
    requires ascending { IsAscending (numbers_of others.now) }
    ensures { IfOk result (λ ms. ms ≡ with_items number_of members.now others.now) }
{
    let room = members.len().saturating_add(others.len());
    let mut merged = Sequence::from_vec(Vec::with_capacity(alloc, room)?);
    match add_merged(&mut merged, members, others) {
        Ok(()) => Ok(merged),
        Err(error) => {
            // In one call, for the proof's sake: the parts are many.
            drop(merged);
            Err(error)
        }
    }
}

// The first image that has one of the bugs, and the images after it.
fn first_meant<'a>(
    images: &'a [SetImage],
    named: Replaced,
) -> Option<(&'a SetImage, &'a [SetImage])>
    ensures { MatchOption result (those_meant (named_numbers named.entry) images.now ≡ [])
        (λ p. those_meant (named_numbers named.entry) images.now ≡ p.0.now ∷ those_meant (named_numbers named.entry) p.1.now) }
{
    for (i, image) in images.iter().enumerate() {
        if has_any(image, named) {
            return Some((image, &images[i + 1..]));
        }
    }
    None
}

/// The members of all sets of the bugs.
/// Those of one set are shared, and two that ascend are merged in one pass; on a desk each does.
pub(crate) fn joined_members(
    alloc: Global,
    images: &[SetImage],
    named: Replaced,
) -> Result<Members, AllocError>
    ensures { IfOk result (λ ms. ms ≡ with_members [] (those_meant (named_numbers named.entry) images.now)) }
{
    let Some((first, rest)) = first_meant(images, named) else {
        return Members::of(Sequence::new(alloc));
    };
    if !is_ascending(first.members.as_slice()) {
        return sorted_members(alloc, images, named);
    }
    let Some((second, rest)) = first_meant(rest, named) else {
        return first.members.copy();
    };
    let others = second.members.as_slice();
    if !is_ascending(others) || first_meant(rest, named).is_some() {
        return sorted_members(alloc, images, named);
    }
    Members::of(merged(alloc, first.members.as_slice(), others)?)
}
