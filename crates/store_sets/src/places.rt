//! The places of bugs in their sets, and the images of a change, which are put into them.
//! All of them are put, or none where there is no memory.

ghost use Rattle.std.specs.Prelude.{◌≡◌, ℕ, Some, None, [], ◌∷◌, false, is_some, IsTrue, IsOk, IfOk, IfSome, OnOk};
ghost use Rattle.std.specs.Prelude.{OnErr, ◌==◌, nat_eq, if◌then◌else◌};
ghost use Rattle.std.specs.HashMap.{get};
ghost use Rattle.std.specs.Option.{option_or, option_and_then, option_copied};
ghost use Rattle.bug_record.specs.Sets.{has};
ghost use Rattle.bug_record.specs.Images.{numbers_of};
ghost use Rattle.store_keys.specs.Keys.{IsKeyed};
ghost use Rattle.store_sets.specs.Places.{keys, sets};
ghost use Rattle.store_sets.specs.PlacesOfImages.{place_in, is_there, KeepsSet, IsOnlyPlace};

use crate::fresh::fresh_numbers;
use crate::summed_image::SummedImage;
use bug_images::same_numbers;
use bug_record::{Member, SetImage};
use std::alloc::{AllocError, Global};
use std::collections::HashMap;

/// A bug's place in its set.
#[derive(Drop)]
pub(crate) enum Place {
    /// The first of its members, where the image of the set stands.
    First(SummedImage),
    /// Another one, and the number of the first.
    After(u64),
}

/// The image of the set that the bug is in.
pub(crate) fn image_of(bugs: &HashMap<u64, Place>, number: u64) -> Option<&SetImage>
    ensures { option_copied result ≡ option_and_then (sets bugs.now) (keys bugs.now number) }
{
    match bugs.get(&number)? {
        Place::First(image) => Some(image.image()),
        Place::After(first) => match bugs.get(first)? {
            Place::First(image) => Some(image.image()),
            Place::After(_) => None,
        },
    }
}

// Whether the image's members are those of the set whose image stands at the first of them.
fn keeps_set(bugs: &HashMap<u64, Place>, image: &SetImage) -> bool
    ensures { IsTrue result → KeepsSet (sets bugs.now) image.now }
{
    let members = image.members.as_slice();
    let Some(first) = members.first() else {
        return false;
    };
    match bugs.get(&first.number) {
        Some(Place::First(old)) => same_numbers(old.image().members.as_slice(), members),
        _ => false,
    }
}

// The number of the image's first member, where the image is put by being put there: where it has
// no other member, or those of a set that is there.
fn only_place(bugs: &HashMap<u64, Place>, image: &SetImage) -> Option<u64>
    requires { IsKeyed (keys bugs.now) (sets bugs.now) }
    ensures { IfSome result (λ key. IsOnlyPlace bugs.now image.now key) }
{
    match image.members.as_slice() {
        [only] => Some(only.number),
        [first, ..] if keeps_set(bugs, image) => Some(first.number),
        _ => None,
    }
}

// Copies of the images.
fn copies_of(alloc: Global, images: &[SetImage]) -> Result<Vec<SetImage>, AllocError>
    ensures { IfOk result (λ copies. copies.items ≡ images.now) }
{
    let mut copies = Vec::new(alloc);
    for image in images {
        copies.push(image.copy()?)?;
    }
    Ok(copies)
}

// Gives the bug of this number a place.
// No memory is taken where it has one already.
fn put(bugs: &mut HashMap<u64, Place>, number: u64, place: Place) -> Result<(), AllocError>
    ensures ok { OnOk result ((n : ℕ) → get nat_eq bugs.new n ≡ (if number == n then Some place else get nat_eq bugs.old n)) }
    ensures err { OnErr result ((n : ℕ) → get nat_eq bugs.new n ≡ get nat_eq bugs.old n) }
    ensures known { IsTrue (is_there bugs.old number) → IsOk result }
{
    bugs.insert(number, place)?;
    Ok(())
}

// Takes the bug of this number out of the map.
fn take_out(bugs: &mut HashMap<u64, Place>, number: u64)
    ensures { (n : ℕ) → get nat_eq bugs.new n ≡ (if number == n then None else get nat_eq bugs.old n) }
{
    bugs.remove(&number);
}

// Gives each of these numbers a place, which stands for itself.
// Where there is no memory, some of them may have it, and all else is as before.
fn add_places(bugs: &mut HashMap<u64, Place>, numbers: &[u64]) -> Result<(), AllocError>
    ensures ok { OnOk result
        ((n : ℕ) → get nat_eq bugs.new n ≡ (if has numbers.now n then Some (Place.After n) else get nat_eq bugs.old n)) }
    ensures err { OnErr result ((n : ℕ) → has numbers.now n ≡ false → get nat_eq bugs.new n ≡ get nat_eq bugs.old n) }
{
    for number in numbers {
        put(bugs, *number, Place::After(*number))?;
    }
    Ok(())
}

// Takes these numbers out of the map.
fn remove_all(bugs: &mut HashMap<u64, Place>, numbers: &[u64])
    ensures { (n : ℕ) → get nat_eq bugs.new n ≡ (if has numbers.now n then None else get nat_eq bugs.old n) }
{
    for number in numbers {
        take_out(bugs, *number);
    }
}

// Whether the bug of this number stands after that one.
fn is_after(bugs: &HashMap<u64, Place>, number: u64, key: u64) -> bool
    ensures { IsTrue result → get nat_eq bugs.now number ≡ Some (Place.After key) }
{
    match bugs.get(&number) {
        Some(Place::After(first)) => *first == key,
        _ => false,
    }
}

// Puts the bug of this number after that one, unless it stands there.
// No memory is taken where it has a place already.
fn put_one_after(bugs: &mut HashMap<u64, Place>, number: u64, key: u64) -> Result<(), AllocError>
    ensures ok { OnOk result
        ((n : ℕ) → get nat_eq bugs.new n ≡ (if number == n then Some (Place.After key) else get nat_eq bugs.old n)) }
    ensures known { IsTrue (is_there bugs.old number) → IsOk result }
{
    if is_after(bugs, number, key) {
        return Ok(());
    }
    put(bugs, number, Place::After(key))
}

// Puts members after the bug of this number.
// No memory is taken for those that have a place already.
fn put_after(bugs: &mut HashMap<u64, Place>, key: u64, members: &[Member]) -> Result<(), AllocError>
    ensures ok { OnOk result
        ((n : ℕ) → get nat_eq bugs.new n
        ≡ (if has (numbers_of members.now) n then Some (Place.After key) else get nat_eq bugs.old n)) }
    ensures known { ((n : ℕ) → IsTrue (has (numbers_of members.now) n) → IsTrue (is_there bugs.old n)) → IsOk result }
{
    for member in members {
        put_one_after(bugs, member.number, key)?;
    }
    Ok(())
}

// Puts an image at the first of its members, and the others after it.
// No memory is taken where all of them have a place already.
fn put_image(bugs: &mut HashMap<u64, Place>, image: SetImage) -> Result<(), AllocError>
    ensures ok { OnOk result ((n : ℕ) → get nat_eq bugs.new n ≡ option_or (place_in (image ∷ []) n) (get nat_eq bugs.old n)) }
    ensures known { ((n : ℕ) → IsTrue (has (numbers_of image.members) n) → IsTrue (is_there bugs.old n)) → IsOk result }
{
    match image.members.as_slice().split_first() {
        Some((first, others)) => {
            let key = first.number;
            match put_after(bugs, key, others) {
                Ok(()) => put(bugs, key, Place::First(SummedImage::of(image))),
                Err(error) => Err(error),
            }
        }
        None => Ok(()),
    }
}

// Puts images, from the last to the first, so that a bug is in the first that has it.
// No memory is taken where all of their members have a place already.
fn put_copies(bugs: &mut HashMap<u64, Place>, mut images: Vec<SetImage>) -> Result<(), AllocError>
    ensures ok { OnOk result ((n : ℕ) → get nat_eq bugs.new n ≡ option_or (place_in images.items n) (get nat_eq bugs.old n)) }
    ensures known { ((n : ℕ) → IsTrue (is_some (place_in images.items n)) → IsTrue (is_there bugs.old n)) → IsOk result }
{
    while let Some(image) = images.pop() {
        put_image(bugs, image)?;
    }
    Ok(())
}

// Puts the images, once each of their bugs has a place: only a new number can want memory.
fn put_all(
    alloc: Global,
    bugs: &mut HashMap<u64, Place>,
    images: &[SetImage],
) -> Result<(), AllocError>
    requires { IsKeyed (keys bugs.old) (sets bugs.old) }
    ensures ok { OnOk result ((n : ℕ) → get nat_eq bugs.new n ≡ option_or (place_in images.now n) (get nat_eq bugs.old n)) }
    ensures err { OnErr result ((n : ℕ) → get nat_eq bugs.new n ≡ get nat_eq bugs.old n) }
{
    let copies = copies_of(alloc, images)?;
    let fresh = fresh_numbers(alloc, bugs, images)?;
    match add_places(bugs, fresh.as_slice()) {
        Ok(()) => {}
        Err(error) => {
            remove_all(bugs, fresh.as_slice());
            return Err(error);
        }
    }
    put_copies(bugs, copies)
}

/// Puts the images into the map, and retires the keys that their bugs were, but the first of each.
/// Where there is no memory, the map is as before.
/// One image that keeps its set, or has one bug alone, is put with one or two look-ups.
pub(crate) fn put_images(
    alloc: Global,
    bugs: &mut HashMap<u64, Place>,
    images: &[SetImage],
) -> Result<(), AllocError>
    requires { IsKeyed (keys bugs.old) (sets bugs.old) }
    ensures ok { OnOk result ((n : ℕ) → get nat_eq bugs.new n ≡ option_or (place_in images.now n) (get nat_eq bugs.old n)) }
    ensures err { OnErr result ((n : ℕ) → get nat_eq bugs.new n ≡ get nat_eq bugs.old n) }
{
    if let [image] = images {
        if let Some(key) = only_place(bugs, image) {
            let copy = SummedImage::of(image.copy()?);
            put(bugs, key, Place::First(copy))?;
            return Ok(());
        }
    }
    put_all(alloc, bugs, images)
}
