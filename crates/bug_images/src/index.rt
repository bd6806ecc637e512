//! Images with an index: where each bug stands.

ghost use Rattle.std.specs.Prelude.{◌≡◌, ℕ, IfOk, OnOk, MatchOption, Some, None, slice_get, if◌then◌else◌, ◌==◌};
ghost use Rattle.std.specs.BTreeMap.{get};
ghost use Rattle.std.specs.Option.{option_or};
ghost use Rattle.std.specs.Ordering.{nat_cmp};
ghost use Rattle.bug_record.specs.Images.{bug_of, bug_in};
ghost use Rattle.bug_images.specs.Index.{position_among, position_in};

use bug_record::{Member, SetImage};
use std::alloc::{AllocError, Global};
use std::collections::BTreeMap;
use std::marker::Model;

/// Where a bug stands: the position of its image, and its position among the members.
#[derive(Clone, Copy)]
pub(crate) struct Position {
    image: usize,
    member: usize,
}

/// Images, which contracts see as their list, with the position of each bug: the first one, where a
/// number is there twice.
#[derive(Drop)]
pub struct Index<'a> {
    images: &'a [SetImage],
    positions: BTreeMap<u64, Position>,
}

impl<'a> Model for Index<'a> {
    ghost use Rattle.std.specs.Prelude.{◌≡◌, ℕ, List};
    ghost use Rattle.std.specs.BTreeMap.{get};
    ghost use Rattle.std.specs.Ordering.{nat_cmp};
    ghost use Rattle.bug_record.specs.Images.{bug_in};
    ghost use Rattle.bug_record.specs.declared.bug.SetImage.{SetImage};
    ghost use Rattle.bug_images.specs.Index.{bug_at};

    ghost Value = { List SetImage };

    ghost view = { λ a. a.images.now };

    ghost invariant = { λ a. (n : ℕ) → bug_at a.images.now (get nat_cmp a.positions n) ≡ bug_in a.images.now n };
}

// Adds the position of a bug, unless it has one.
fn add_position(
    positions: &mut BTreeMap<u64, Position>,
    number: u64,
    position: Position,
) -> Result<(), AllocError>
    ensures { OnOk result
        ((n : ℕ) → get nat_cmp positions.new n ≡ option_or (get nat_cmp positions.old n)
        (if number == n then Some position else None)) }
{
    if !positions.contains_key(&number) {
        positions.insert(number, position)?;
    }
    Ok(())
}

// Adds the positions of the members of the image that stands at `image`.
fn add_members(
    positions: &mut BTreeMap<u64, Position>,
    image: usize,
    members: &[Member],
) -> Result<(), AllocError>
    ensures { OnOk result
        ((n : ℕ) → get nat_cmp positions.new n ≡ option_or (get nat_cmp positions.old n) (position_among image 0 members.now n)) }
{
    for (member, item) in members.iter().enumerate() {
        add_position(positions, item.number, Position { image, member })?;
    }
    Ok(())
}

// The positions of all bugs of the images.
fn positions_of(alloc: Global, images: &[SetImage]) -> Result<BTreeMap<u64, Position>, AllocError>
    ensures { IfOk result (λ positions. (n : ℕ) → get nat_cmp positions n ≡ position_in 0 images.now n) }
{
    let mut positions = BTreeMap::new(alloc);
    for (position, image) in images.iter().enumerate() {
        add_members(&mut positions, position, image.members.as_slice())?;
    }
    Ok(positions)
}

impl<'a> Index<'a> {
    /// The images with their index.
    ///
    /// # Errors
    ///
    /// Only where there was no memory.
    pub fn of(alloc: Global, images: &'a [SetImage]) -> Result<Index<'a>, AllocError>
        ensures { IfOk result (λ index. index ≡ images.now) }
    {
        let positions = positions_of(alloc, images)?;
        Ok(Index { images, positions })
    }

    /// The position of a bug's image, the image, and the member.
    pub(crate) fn find(&self, number: u64) -> Option<(usize, &SetImage, &Member)>
        ensures { MatchOption result (bug_in self.now number ≡ None)
            (λ p. (bug_in self.now number ≡ Some (bug_of p.1.now p.2.now)) × (slice_get self.now p.0 ≡ Some p.1.now)) }
    {
        let Some(position) = self.positions.get(&number) else {
            return None;
        };
        let Some(image) = self.images.get(position.image) else {
            return None;
        };
        match image.members.as_slice().get(position.member) {
            Some(member) => Some((position.image, image, member)),
            None => None,
        }
    }

    /// The image and the member of a bug.
    pub fn find_bug(&self, number: u64) -> Option<(&SetImage, &Member)>
        ensures { MatchOption result (bug_in self.now number ≡ None)
            (λ p. bug_in self.now number ≡ Some (bug_of p.0.now p.1.now)) }
    {
        match self.find(number) {
            Some((_, image, member)) => Some((image, member)),
            None => None,
        }
    }
}
