//! Which bugs a change touches.

ghost use Rattle.std.specs.Prelude.{◌≡◌, ◌==◌, ◌&&◌, ℕ, List, is_some, slice_get, IfOk, OnOk, Some};
ghost use Rattle.bug_record.specs.Sets.{has, with_item, IsAscending};
ghost use Rattle.bug_record.specs.Desk.{Desk};
ghost use Rattle.bug_record.specs.Images.{numbers_of, bug_in, put};
ghost use Rattle.bug_record.specs.Changed.{same_at, AreChanged, changed_numbers, Replaces};
ghost use Rattle.bug_record.specs.declared.bug.SetImage.{SetImage};
ghost use Rattle.bug_images.specs.Changes.{differs, same_set, IsRight};
ghost use Rattle.bug_images.specs.Alike.{BeginAlike};
ghost use Rattle.bug_images.specs.Numbers.{IsJoined};

use crate::equal::{same_images, same_set, same_texts};
use crate::index::Index;
use crate::kept::{changed_in_place, changed_together, is_ascending, is_kept};
use crate::parted::{changed_parted, is_parted};
use bug_record::{Member, Numbers, Sequence, SetImage, add_number as insert_number};
use std::alloc::{AllocError, Global};
use std::collections::BTreeSet;

// The positions of the two sets that were compared last, and whether they are the same.
#[derive(Clone, Copy)]
struct Compared {
    before: usize,
    after: usize,
    same: bool,
}

// Whether the sets at two positions are the same.
// Those that were compared last are not compared again.
fn same_sets(last: &mut Compared, i: usize, old: &SetImage, j: usize, new: &SetImage) -> bool
    ensures { (olds news : List SetImage) → IsRight olds news last.old → slice_get olds i ≡ Some old.now
        → slice_get news j ≡ Some new.now
        → IsRight olds news last.new × (result ≡ same_set old.now new.now) }
{
    if last.before == i && last.after == j {
        return last.same;
    }
    let same = same_set(old, new);
    *last = Compared {
        before: i,
        after: j,
        same,
    };
    same
}

// Whether both sides show the same of the bug.
fn same_bug(last: &mut Compared, before: &Index, after: &Index, number: u64) -> bool
    requires right { IsRight before.now after.now last.old }
    ensures value { result ≡ same_at (bug_in before.now number) (bug_in after.now number) }
    ensures right { IsRight before.now after.now last.new }
{
    match (before.find(number), after.find(number)) {
        (Some((i, old, member)), Some((j, new, other))) => {
            let same = same_sets(last, i, old, j, new);
            same && same_texts(member, other)
        }
        (None, None) => true,
        _ => false,
    }
}

// Adds the number of a bug that differs.
fn add_number(
    set: &mut BTreeSet<u64>,
    last: &mut Compared,
    before: &Index,
    after: &Index,
    number: u64,
) -> Result<(), AllocError>
    requires right { IsRight before.now after.now last.old }
    ensures right { OnOk result (IsRight before.now after.now last.new) }
    ensures numbers { OnOk result (IsJoined set.old.keys (λ n. (number == n) && differs before.now after.now n) set.new.keys) }
{
    if same_bug(last, before, after, number) {
        return Ok(());
    }
    insert_number(set, number)
}

// Adds the numbers of the members that differ.
fn add_members(
    set: &mut BTreeSet<u64>,
    last: &mut Compared,
    before: &Index,
    after: &Index,
    members: &[Member],
) -> Result<(), AllocError>
    requires right { IsRight before.now after.now last.old }
    ensures right { OnOk result (IsRight before.now after.now last.new) }
    ensures numbers { OnOk result
        (IsJoined set.old.keys (λ n. has (numbers_of members.now) n && differs before.now after.now n) set.new.keys) }
{
    for member in members {
        add_number(set, last, before, after, member.number)?;
    }
    Ok(())
}

// Adds the numbers of all bugs of the images that differ.
fn add_images(
    set: &mut BTreeSet<u64>,
    last: &mut Compared,
    before: &Index,
    after: &Index,
    images: &[SetImage],
) -> Result<(), AllocError>
    requires right { IsRight before.now after.now last.old }
    ensures right { OnOk result (IsRight before.now after.now last.new) }
    ensures numbers { OnOk result
        (IsJoined set.old.keys (λ n. is_some (bug_in images.now n) && differs before.now after.now n) set.new.keys) }
{
    for image in images {
        add_members(set, last, before, after, image.members.as_slice())?;
    }
    Ok(())
}

// The numbers of the bugs that differ, of images with where their bugs stand.
fn changed_among(
    alloc: Global,
    before: &Index,
    after: &Index,
    old: &[SetImage],
    new: &[SetImage],
) -> Result<Numbers, AllocError>
    requires before { before.now ≡ old.now }
    requires after { after.now ≡ new.now }
    ensures { IfOk result (λ r. AreChanged (bug_in old.now) (bug_in new.now) r) }
{
    let mut set = BTreeSet::new(alloc);
    let mut last = Compared {
        before: old.len(),
        after: 0,
        same: false,
    };
    add_images(&mut set, &mut last, before, after, new)?;
    add_images(&mut set, &mut last, before, after, old)?;
    Sequence::in_order(alloc, &set)
}

// The numbers of the bugs that differ, of any images.
fn changed_between(alloc: Global, old: &[SetImage], new: &[SetImage]) -> Result<Numbers, AllocError>
    ensures { IfOk result (λ r. AreChanged (bug_in old.now) (bug_in new.now) r) }
{
    let before = Index::of(alloc, old)?;
    let after = Index::of(alloc, new)?;
    changed_among(alloc, &before, &after, old, new)
}

// The numbers of the bugs that differ.
// Mostly the first image alone differs, which is that of the bug that a line names first.
fn changed_bugs(alloc: Global, old: &[SetImage], new: &[SetImage]) -> Result<Numbers, AllocError>
    ensures { IfOk result (λ r. AreChanged (bug_in old.now) (bug_in new.now) r) }
{
    if let (Some((before, others)), Some((after, new_others))) = (
        old.split_first(),
        new.split_first(),
    ) {
        if is_kept(before, after) && same_images(others, new_others) {
            return changed_in_place(alloc, before, after);
        }
    }
    if is_parted(old, new) {
        return changed_parted(alloc, old, new);
    }
    changed_between(alloc, old, new)
}

// The numbers of the bugs that differ, where the first images have the same members.
fn changed_alike(alloc: Global, old: &[SetImage], new: &[SetImage]) -> Result<Numbers, AllocError>
    requires { BeginAlike old.now new.now }
    ensures { IfOk result (λ r. AreChanged (bug_in old.now) (bug_in new.now) r) }
{
    if let (Some((before, others)), Some((after, new_others))) = (
        old.split_first(),
        new.split_first(),
    ) {
        if is_ascending(after.members.as_slice()) && same_images(others, new_others) {
            return changed_together(alloc, before, after);
        }
    }
    changed_bugs(alloc, old, new)
}

/// The same as `changed`, of images the first of which have the same members: no title or submitter
/// of theirs is compared.
///
/// # Errors
///
/// Only where there was no memory.
pub fn changed_fields(
    alloc: Global,
    old: &[SetImage],
    new: &[SetImage],
) -> Result<Numbers, AllocError>
    requires { BeginAlike old.now new.now }
    ensures images { IfOk result (λ r. AreChanged (bug_in old.now) (bug_in new.now) r) }
    ensures desks { IfOk result
        (λ r. (d : Desk) (next : ℕ) → Replaces d old.now new.now next
        → r ≡ changed_numbers d (put d (record { images = new.now; next = next }))) }
{
    changed_alike(alloc, old, new)
}

/// The numbers of the bugs that the new images show otherwise than the old ones, ascending: those
/// whose record or set differs, and those that only one side has.
///
/// # Errors
///
/// Only where there was no memory.
pub fn changed(alloc: Global, old: &[SetImage], new: &[SetImage]) -> Result<Numbers, AllocError>
    ensures images { IfOk result (λ r. AreChanged (bug_in old.now) (bug_in new.now) r) }
    ensures desks { IfOk result
        (λ r. (d : Desk) (next : ℕ) → Replaces d old.now new.now next
        → r ≡ changed_numbers d (put d (record { images = new.now; next = next }))) }
{
    changed_bugs(alloc, old, new)
}
