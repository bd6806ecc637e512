//! The images of the sets of the bugs that a command names, asked of a store.

ghost use Rattle.std.specs.Prelude.{◌≡◌, ◌||◌, ◌++◌, ℕ, [], ◌∷◌, IfOk, OnOk};
ghost use Rattle.std.specs.BTreeSet.{contains};
ghost use Rattle.std.specs.Ordering.{nat_cmp};
ghost use Rattle.bug_record.specs.Sets.{has};
ghost use Rattle.bug_record.specs.Images.{numbers_of, AreApart};
ghost use Rattle.bug_record.specs.Commands.{bugs_named};
ghost use Rattle.store_contract.specs.Store.{Asks, Answers, faults_after};
ghost use Rattle.message_plans.specs.Images.{is_gathered, meets, Lists, Gather, ShowBugs};

use base_faults::StoreFault;
use bug_images::{bug_named, other_bugs};
use bug_record::{Command, Member, Sequence, SetImage};
use std::alloc::{AllocError, Global};
use std::collections::BTreeSet;
use store_contract::Records;

// Up to so many members are looked for one by one; for more a set of the bugs is made first.
const FEW: usize = 4;

// Whether one of the images has the bug.
fn is_gathered(images: &[SetImage], number: u64) -> bool
    ensures { result ≡ is_gathered images.now number }
{
    images.iter().any(|image| image.has(number))
}

// Whether one of the images has one of the members.
fn any_is_gathered(images: &[SetImage], members: &[Member]) -> bool
    ensures { result ≡ meets (is_gathered images.now) members.now }
{
    members
        .iter()
        .any(|member| is_gathered(images, member.number))
}

/// Whether one of the members is one of the bugs.
pub(crate) fn meets(bugs: &BTreeSet<u64>, members: &[Member]) -> bool
    ensures { result ≡ meets (contains nat_cmp bugs.now) members.now }
{
    members.iter().any(|member| bugs.contains(&member.number))
}

// Adds the members' numbers.
fn add_members(bugs: &mut BTreeSet<u64>, members: &[Member]) -> Result<(), AllocError>
    ensures { OnOk result
        ((n : ℕ) → contains nat_cmp bugs.new n ≡ (has (numbers_of members.now) n || contains nat_cmp bugs.old n)) }
{
    for member in members {
        bugs.insert(member.number)?;
    }
    Ok(())
}

// The bugs of the images.
fn bugs_of(alloc: Global, images: &[SetImage]) -> Result<BTreeSet<u64>, AllocError>
    ensures { IfOk result (λ bugs. Lists (contains nat_cmp bugs) images.now) }
{
    let mut bugs = BTreeSet::new(alloc);
    for image in images {
        add_members(&mut bugs, image.members.as_slice())?;
    }
    Ok(bugs)
}

// The same, with a set of the images' bugs where there are more than a few members.
fn share_a_bug(alloc: Global, images: &[SetImage], members: &[Member]) -> Result<bool, AllocError>
    ensures { IfOk result (λ share. share ≡ meets (is_gathered images.now) members.now) }
{
    if members.len() <= FEW {
        return Ok(any_is_gathered(images, members));
    }
    let bugs = bugs_of(alloc, images)?;
    Ok(meets(&bugs, members))
}

// Adds the image of the set that the bug is in, if there is one, unless one of the images has the
// bug.
// One that shares a bug with them is left out: no desk has such sets.
fn gather_one<S: Records>(
    alloc: Global,
    store: &mut S,
    images: &mut Sequence<SetImage>,
    number: u64,
) -> Result<(), StoreFault>
    requires { AreApart images.old }
    ensures answer { Asks S.is_kept S.is_honest S.leaves store.old store.new
        (Answers (S.desk store.old) (S.desk store.new) result
        (λ _. Gather (S.desk store.old) (number ∷ []) images.old images.new)) }
    ensures apart { OnOk result (AreApart images.new) }
    ensures stays { S.keeping store.new ≡ S.keeping store.old }
    ensures count { S.faults store.new ≡ faults_after result (S.faults store.old) }
{
    if is_gathered(images.as_slice(), number) {
        return Ok(());
    }
    let Some(other) = store.set_of(number)? else {
        return Ok(());
    };
    if share_a_bug(alloc, images.as_slice(), other.members.as_slice())? {
        return Ok(());
    }
    Ok(images.push(other)?)
}

// Adds an image, and its bugs to those of the images.
fn add_image(
    images: &mut Sequence<SetImage>,
    bugs: &mut BTreeSet<u64>,
    image: SetImage,
) -> Result<(), AllocError>
    requires { Lists (contains nat_cmp bugs.old) images.old }
    ensures images { OnOk result (images.new ≡ images.old ++ image ∷ []) }
    ensures bugs { OnOk result (Lists (contains nat_cmp bugs.new) images.new) }
{
    add_members(bugs, image.members.as_slice())?;
    images.push(image)
}

// Adds the image of the set that the bug is in, if there is one, unless the bug is in one of the
// images, whose bugs these are.
// One that shares a bug with them is left out: no desk has such sets.
fn gather<S: Records>(
    store: &mut S,
    images: &mut Sequence<SetImage>,
    bugs: &mut BTreeSet<u64>,
    number: u64,
) -> Result<(), StoreFault>
    requires apart { AreApart images.old }
    requires bugs { Lists (contains nat_cmp bugs.old) images.old }
    ensures answer { Asks S.is_kept S.is_honest S.leaves store.old store.new
        (Answers (S.desk store.old) (S.desk store.new) result
        (λ _. Gather (S.desk store.old) (number ∷ []) images.old images.new)) }
    ensures apart { OnOk result (AreApart images.new) }
    ensures bugs { OnOk result (Lists (contains nat_cmp bugs.new) images.new) }
    ensures stays { S.keeping store.new ≡ S.keeping store.old }
    ensures count { S.faults store.new ≡ faults_after result (S.faults store.old) }
{
    if bugs.contains(&number) {
        return Ok(());
    }
    let Some(image) = store.set_of(number)? else {
        return Ok(());
    };
    if meets(bugs, image.members.as_slice()) {
        return Ok(());
    }
    Ok(add_image(images, bugs, image)?)
}

// Adds the images of the sets that these bugs are in, each once.
fn gather_all<S: Records>(
    store: &mut S,
    images: &mut Sequence<SetImage>,
    bugs: &mut BTreeSet<u64>,
    numbers: &[u64],
) -> Result<(), StoreFault>
    requires apart { AreApart images.old }
    requires bugs { Lists (contains nat_cmp bugs.old) images.old }
    ensures answer { Asks S.is_kept S.is_honest S.leaves store.old store.new
        (Answers (S.desk store.old) (S.desk store.new) result
        (λ _. Gather (S.desk store.old) numbers.now images.old images.new)) }
    ensures apart { OnOk result (AreApart images.new) }
    ensures stays { S.keeping store.new ≡ S.keeping store.old }
    ensures count { S.faults store.new ≡ faults_after result (S.faults store.old) }
{
    for number in numbers {
        gather(store, images, bugs, *number)?;
    }
    Ok(())
}

// The same, of images whose bugs stand in no set; for one bug none is made.
fn gather_others<S: Records>(
    alloc: Global,
    store: &mut S,
    images: &mut Sequence<SetImage>,
    numbers: &[u64],
) -> Result<(), StoreFault>
    requires { AreApart images.old }
    ensures answer { Asks S.is_kept S.is_honest S.leaves store.old store.new
        (Answers (S.desk store.old) (S.desk store.new) result
        (λ _. Gather (S.desk store.old) numbers.now images.old images.new)) }
    ensures apart { OnOk result (AreApart images.new) }
    ensures stays { S.keeping store.new ≡ S.keeping store.old }
    ensures count { S.faults store.new ≡ faults_after result (S.faults store.old) }
{
    if let [number] = numbers {
        return gather_one(alloc, store, images, *number);
    }
    let mut bugs = bugs_of(alloc, images.as_slice())?;
    gather_all(store, images, &mut bugs, numbers)
}

// The image of the set that the bug is in, if there is one.
fn first_image<S: Records>(
    alloc: Global,
    store: &mut S,
    number: u64,
) -> Result<Sequence<SetImage>, StoreFault>
    ensures answer { Asks S.is_kept S.is_honest S.leaves store.old store.new
        (Answers (S.desk store.old) (S.desk store.new) result (Gather (S.desk store.old) (number ∷ []) [])) }
    ensures apart { IfOk result AreApart }
    ensures stays { S.keeping store.new ≡ S.keeping store.old }
    ensures count { S.faults store.new ≡ faults_after result (S.faults store.old) }
{
    match store.set_of(number)? {
        Some(image) => Ok(Sequence::one(alloc, image)),
        None => Ok(Sequence::new(alloc)),
    }
}

/// The images of the sets of the bugs that a command names, each once.
pub(crate) fn images_of<S: Records>(
    alloc: Global,
    store: &mut S,
    command: &Command<u64>,
) -> Result<Sequence<SetImage>, StoreFault>
    ensures answer { Asks S.is_kept S.is_honest S.leaves store.old store.new
        (Answers (S.desk store.old) (S.desk store.new) result (ShowBugs (S.desk store.old) (bugs_named command.now))) }
    ensures apart { IfOk result AreApart }
    ensures stays { S.keeping store.new ≡ S.keeping store.old }
    ensures count { S.faults store.new ≡ faults_after result (S.faults store.old) }
{
    let mut images = first_image(alloc, store, bug_named(command))?;
    let others = other_bugs(command);
    if others.is_empty() {
        return Ok(images);
    }
    gather_others(alloc, store, &mut images, others)?;
    Ok(images)
}
