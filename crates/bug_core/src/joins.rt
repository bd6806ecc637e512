//! The image of the set that merged bugs become.

ghost use Rattle.std.specs.Prelude.{◌≡◌, ◌∷◌, [], ℕ, false, IsTrue, IfOk, OnOk};
ghost use Rattle.std.specs.Option.{option_copied};
ghost use Rattle.bug_record.specs.Bugs.{bugs_at};
ghost use Rattle.bug_record.specs.Images.{numbers_of, bug_in};
ghost use Rattle.bug_record.specs.Merges.{first_owner};
ghost use Rattle.bug_record.specs.Sets.{has, with_items};
ghost use Rattle.bug_record.specs.Tags.{tag_place};
ghost use Rattle.bug_core.specs.Joins.{with_shared, with_all_shared, without_gathered, gathered_shared};
ghost use Rattle.bug_core.specs.Joins.{without_own, joined_image};
ghost use Rattle.bug_core.specs.Others.{has_any, those_meant};
ghost use Rattle.bug_core.specs.Named.{named_numbers};

use crate::by_number::joined_members;
use crate::images::{Replaced, has_any};
use bug_fields::GatheredNodes;
use bug_images::{FEW, Lookup, member_numbers};
use bug_record::{
    Agreed, Member, Nodes, Sequence, SetImage, Shared, Tag, Tags, add_names, add_numbers, member_at,
};
use debver::Text;
use std::alloc::{AllocError, Global};
use std::collections::BTreeSet;
use std::marker::Model;
use std::mem::replace;

// Fields that are joined, which contracts see as such.
// The affected packages, the marks and the blockers are kept apart from the others, so that one
// more is added in the logarithm of their number.
#[derive(Drop)]
struct Joined {
    shared: Shared,
    affects: BTreeSet<Text>,
    found: GatheredNodes,
    fixed: GatheredNodes,
    blockers: BTreeSet<u64>,
}

impl Model for Joined {
    ghost use Rattle.bug_record.specs.declared.bug.Shared.{Shared};

    ghost Value = { Shared };

    ghost view = { λ j. record j.shared { affects = j.affects.keys; found = j.found; fixed = j.fixed; blockers = j.blockers.keys } };
}

// The owner of a bug, if it is there and has one.
fn owner_of<'a>(lookup: &'a Lookup, number: u64) -> Option<&'a Text>
    ensures { option_copied result ≡ first_owner (bugs_at (bug_in lookup.now) (number ∷ [])) }
{
    match lookup.find_bug(number) {
        Some((image, _)) => image.shared.fields().owner.as_ref(),
        None => None,
    }
}

// A copy of the owner of the first bug that has one.
fn first_owner(lookup: &Lookup, numbers: &[u64]) -> Result<Option<Text>, AllocError>
    ensures { IfOk result (λ owner. owner ≡ first_owner (bugs_at (bug_in lookup.now) numbers.now)) }
{
    for number in numbers {
        if let Some(owner) = owner_of(lookup, *number) {
            return Ok(Some(owner.copy()?));
        }
    }
    Ok(None)
}

fn add_tags(set: &mut Tags, tags: &[Tag]) -> Result<(), AllocError>
    ensures { OnOk result (set.new ≡ with_items tag_place set.old tags.now) }
{
    for tag in tags {
        set.add(*tag)?;
    }
    Ok(())
}

// Puts the nodes that were gathered in the place of these.
fn put_nodes(alloc: Global, nodes: &mut Nodes, marks: &mut GatheredNodes) -> Result<(), AllocError>
    ensures { OnOk result (nodes.new ≡ marks.old) }
{
    *nodes = replace(marks, GatheredNodes::new(alloc)).into_nodes(alloc)?;
    Ok(())
}

// Puts the affected packages, the marks and the blockers that were gathered into the fields.
fn put_gathered(
    alloc: Global,
    shared: &mut Shared,
    affects: &mut BTreeSet<Text>,
    found: &mut GatheredNodes,
    fixed: &mut GatheredNodes,
    blockers: &BTreeSet<u64>,
) -> Result<(), AllocError>
    ensures { OnOk result
        (shared.new ≡ record shared.old { affects = affects.old.keys; found = found.old; fixed = fixed.old; blockers = blockers.now.keys }) }
{
    shared.affects = Sequence::of_set(alloc, replace(affects, BTreeSet::new(alloc)))?;
    put_nodes(alloc, &mut shared.found, found)?;
    put_nodes(alloc, &mut shared.fixed, fixed)?;
    shared.blockers = Sequence::in_order(alloc, blockers)?;
    Ok(())
}

impl Joined {
    // The fields of the first set, without affected packages, marks and blockers.
    fn new(alloc: Global, first: &Shared) -> Result<Joined, AllocError>
        ensures { IfOk result (λ joined. joined ≡ without_gathered first.now) }
    {
        Ok(Joined {
            shared: first.copy()?,
            affects: BTreeSet::new(alloc),
            found: GatheredNodes::new(alloc),
            fixed: GatheredNodes::new(alloc),
            blockers: BTreeSet::new(alloc),
        })
    }

    // Adds the tags, affected packages, marks and blockers of another set.
    fn add_shared(&mut self, alloc: Global, other: &Shared) -> Result<(), AllocError>
        ensures { OnOk result (self.new ≡ with_shared self.old other.now) }
    {
        add_tags(&mut self.shared.tags, other.tags.as_slice())?;
        add_names(&mut self.affects, other.affects.as_slice())?;
        self.found.add(alloc, &other.found)?;
        self.fixed.add(alloc, &other.fixed)?;
        add_numbers(&mut self.blockers, other.blockers.as_slice())
    }

    // The fields.
    fn into_shared(mut self, alloc: Global) -> Result<Shared, AllocError>
        ensures { IfOk result (λ shared. shared ≡ self) }
    {
        let put = put_gathered(
            alloc,
            &mut self.shared,
            &mut self.affects,
            &mut self.found,
            &mut self.fixed,
            &self.blockers,
        );
        match put {
            Ok(()) => Ok(self.shared),
            Err(error) => {
                // In one call, for the proof's sake: the parts are many.
                drop(self);
                Err(error)
            }
        }
    }
}

// Adds the tags, affected packages, marks and blockers of all sets of the bugs.
fn add_all_shared(
    alloc: Global,
    joined: &mut Joined,
    images: &[SetImage],
    named: Replaced,
) -> Result<(), AllocError>
    ensures { OnOk result (joined.new ≡ with_all_shared joined.old (those_meant (named_numbers named.entry) images.now)) }
{
    for image in images {
        if has_any(image, named) {
            joined.add_shared(alloc, image.shared.fields())?;
        }
    }
    Ok(())
}

// The shared fields of those sets, with all blockers, and the owner of the first.
fn joined_shared(
    alloc: Global,
    first: &Shared,
    images: &[SetImage],
    named: Replaced,
) -> Result<Shared, AllocError>
    ensures { IfOk result
        (λ f. f ≡ with_all_shared (without_gathered first.now) (those_meant (named_numbers named.entry) images.now)) }
{
    let mut joined = Joined::new(alloc, first)?;
    match add_all_shared(alloc, &mut joined, images, named) {
        Ok(()) => joined.into_shared(alloc),
        Err(error) => {
            // In one call, for the proof's sake: the parts are many.
            drop(joined);
            Err(error)
        }
    }
}

// Whether the number is that of a member.
fn is_member(members: &[Member], number: u64) -> bool
    ensures { result ≡ has (numbers_of members.now) number }
{
    member_at(members, number).is_some()
}

// Whether one of the numbers is that of a member.
fn has_own(members: &[Member], numbers: &[u64]) -> bool
    ensures { result ≡ has_any (numbers_of members.now) numbers.now }
{
    for number in numbers {
        if is_member(members, *number) {
            return true;
        }
    }
    false
}

// Whether the numbers are few, and none is that of a member.
fn are_few_others(members: &[Member], numbers: &[u64]) -> bool
    ensures { IsTrue result → has_any (numbers_of members.now) numbers.now ≡ false }
{
    numbers.len() <= FEW && !has_own(members, numbers)
}

// Takes the blockers out that are among these members.
fn drop_own(alloc: Global, shared: &mut Shared, members: &[Member]) -> Result<(), AllocError>
    ensures { OnOk result (shared.new ≡ without_own members.now shared.old) }
{
    if are_few_others(members, shared.blockers.as_slice()) {
        return Ok(());
    }
    let own = member_numbers(alloc, members)?;
    shared.blockers.remove_set(&own);
    Ok(())
}

// Puts the owner of the first of the bugs that has one into the fields, and takes the blockers out
// that are among these members.
fn settle(
    alloc: Global,
    shared: &mut Shared,
    lookup: &Lookup,
    numbers: &[u64],
    members: &[Member],
) -> Result<(), AllocError>
    ensures { OnOk result (shared.new
        ≡ without_own members.now (record shared.old { owner = first_owner (bugs_at (bug_in lookup.now) numbers.now) })) }
{
    shared.owner = first_owner(lookup, numbers)?;
    drop_own(alloc, shared, members)
}

// The shared fields of those sets, without the blockers that are among these members.
// The named bugs are those of the numbers.
fn gathered_shared(
    alloc: Global,
    first: &Shared,
    lookup: &Lookup,
    images: &[SetImage],
    numbers: &[u64],
    named: Replaced,
    members: &[Member],
) -> Result<Agreed, AllocError>
    requires images { lookup.now ≡ images.now }
    requires named { (n : ℕ) → has (named_numbers named) n ≡ has numbers.now n }
    ensures { IfOk result (λ f. f ≡ without_own members.now (gathered_shared first.now images.now numbers.now)) }
{
    let mut shared = joined_shared(alloc, first, images, named)?;
    match settle(alloc, &mut shared, lookup, numbers, members) {
        Ok(()) => Agreed::of(alloc, shared),
        Err(error) => {
            // In one call, for the proof's sake: the parts are many.
            drop(shared);
            Err(error)
        }
    }
}

/// The image of the set that the bugs' sets become: with the fields of the first one, the tags,
/// affected packages and marks of all, the blockers of all but for those that are in the set, and
/// the owner of the first bug that has one.
/// The bugs are looked up in the images, and the set is that of the numbers.
pub(crate) fn joined_image(
    alloc: Global,
    first: &Shared,
    lookup: &Lookup,
    images: &[SetImage],
    numbers: &[u64],
    set: &BTreeSet<u64>,
) -> Result<SetImage, AllocError>
    requires images { lookup.now ≡ images.now }
    requires set { (n : ℕ) → has set.now.keys n ≡ has numbers.now n }
    ensures { IfOk result (λ i. i ≡ joined_image first.now images.now numbers.now) }
{
    let named = Replaced::Several(set);
    let members = joined_members(alloc, images, named)?;
    let own = members.as_slice();
    let shared = gathered_shared(alloc, first, lookup, images, numbers, named, own)?;
    Ok(SetImage { shared, members })
}
