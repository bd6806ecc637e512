//! What is asked of all bugs of a desk in memory: those whose shared fields pass a test.

ghost use Rattle.std.specs.Prelude.{◌≡◌, ◌++◌, ℕ, false, IfOk, OnOk};
ghost use Rattle.std.specs.Option.{option_copied};
ghost use Rattle.std.specs.Str.{bytes_eq};
ghost use Rattle.version_nodes.specs.Statuses.{status_on};
ghost use Rattle.version_nodes.specs.Trees.{Ancestry};
ghost use Rattle.bug_record.specs.Asked.{numbers_where};
ghost use Rattle.bug_record.specs.Desk.{IsSound};
ghost use Rattle.bug_record.specs.Heads.{is_found};
ghost use Rattle.bug_record.specs.Images.{numbers_of};
ghost use Rattle.bug_record.specs.PackageSets.{has_name};
ghost use Rattle.store_sets.specs.Plain.{desk_of};
ghost use Rattle.bug_record.specs.Lists.{concerns};
ghost use Rattle.store_keys.specs.Listing.{is_listed_on};
ghost use Rattle.store_sets.specs.Passing.{test_of, image_passing, passing_there};
ghost use Rattle.store_sets.specs.Sums.{IsSumAsked};
ghost use Rattle.store_sets.specs.declared.passing.Question.{Question as Asked};

use crate::bug_sets::BugSets;
use crate::heads::is_there;
use crate::places::Place;
use crate::summed_image::{SummedImage, name_sum};
use ancestry::IndexedLine;
use bug_images::in_order;
use bug_record::{Member, Numbers, Sequence, SetImage, Shared};
use debver::Text;
use std::alloc::{AllocError, Global};

/// What is asked of a bug.
#[derive(Clone, Copy)]
pub(crate) enum Question<'a> {
    /// Whether it waits on the bug of this number.
    WaitsOn(u64),
    /// Whether it is a bug of this package or affects it, is not archived, and is found at the node
    /// of this line.
    IsListed(&'a str, &'a IndexedLine),
}

// Whether a bug with these fields is found at the node of this line.
fn is_found_on(shared: &Shared, line: &IndexedLine) -> bool
    ensures { result ≡ is_found (status_on line.now shared.now.found shared.now.fixed shared.now.closed) }
{
    let (found, fixed) = (shared.found.as_slice(), shared.fixed.as_slice());
    is_there(line.status(found, fixed, shared.closed))
}

// Whether a package has this name.
fn is_named(package: &str, name: &Text) -> bool
    ensures { result ≡ bytes_eq «package».now name.now }
{
    package == name.as_str()
}

// Whether this package is among those.
fn is_among(package: &str, names: &[Text]) -> bool
    ensures { result ≡ has_name names.now «package».now }
{
    names.iter().any(|name| is_named(package, name))
}

// Whether a bug with these fields is one of this package or affects it.
fn concerns(shared: &Shared, package: &str) -> bool
    ensures { result ≡ concerns shared.now «package».now }
{
    shared.package.as_str() == package || is_among(package, shared.affects.as_slice())
}

// Whether a bug with these fields is listed for this package, at the node of this line.
fn is_listed(shared: &Shared, package: &str, line: &IndexedLine) -> bool
    ensures { result ≡ is_listed_on line.now «package».now shared.now }
{
    concerns(shared, package) && !shared.archived && is_found_on(shared, line)
}

// Whether the answer is yes, of a bug of this set.
fn holds(question: Question, image: &SummedImage) -> bool
    ensures { result ≡ test_of question.entry image.now.shared }
{
    match question {
        Question::WaitsOn(number) => image.waits_on(number),
        Question::IsListed(package, line) => {
            is_listed(image.image().shared.fields(), package, line)
        }
    }
}

// The sum of the name of the package that is asked for, if one is.
pub(crate) fn sum_asked(question: Question) -> Option<u32>
    ensures { IsSumAsked question.entry result }
{
    match question {
        Question::WaitsOn(_) => None,
        Question::IsListed(package, _) => Some(name_sum(package)),
    }
}

// Whether the answer may be yes, by that sum.
fn may_hold(sum: Option<u32>, image: &SummedImage) -> bool
    ensures { (q : Asked) → IsSumAsked q sum → result ≡ false → test_of q image.now.shared ≡ false }
{
    match sum {
        Some(sum) => image.may_concern(sum),
        None => true,
    }
}

// Adds the numbers of these members.
fn add_members(numbers: &mut Vec<u64>, members: &[Member]) -> Result<(), AllocError>
    ensures { OnOk result (numbers.new.items ≡ numbers.old.items ++ numbers_of members.now) }
{
    for member in members {
        numbers.push(member.number)?;
    }
    Ok(())
}

// The image that stands at a place, where the answer is yes of the bugs of its set.
// The fields of a set are not looked at where the sum of its package's name is another.
pub(crate) fn image_passing<'a>(
    place: &'a Place,
    question: Question,
    sum: Option<u32>,
) -> Option<&'a SetImage>
    requires { IsSumAsked question sum }
    ensures { option_copied result ≡ image_passing (test_of question.entry) place.now }
{
    let Place::First(image) = place else {
        return None;
    };
    if may_hold(sum, image) && holds(question, image) {
        return Some(image.image());
    }
    None
}

// Adds the bugs of the set whose image stands at a place, where the answer is yes.
fn add_passing(
    numbers: &mut Vec<u64>,
    place: &Place,
    question: Question,
    sum: Option<u32>,
) -> Result<(), AllocError>
    requires { IsSumAsked question sum }
    ensures { OnOk result
        (numbers.new.items ≡ numbers.old.items ++ passing_there (test_of question.entry) place.now) }
{
    match image_passing(place, question, sum) {
        Some(image) => add_members(numbers, image.members.as_slice()),
        None => Ok(()),
    }
}

impl BugSets {
    /// The bugs of which the answer is yes, ascending.
    /// Each set is looked at once, not once for each of its bugs, and the numbers are sorted once.
    pub(crate) fn passing(&self, alloc: Global, question: Question) -> Result<Numbers, AllocError>
        ensures { (tree : Ancestry) (next : ℕ) → IsSound (desk_of self.now tree next)
            → IfOk result (λ numbers. numbers ≡ numbers_where (test_of question.entry) (desk_of self.now tree next)) }
    {
        let sum = sum_asked(question);
        let mut numbers = Vec::new(alloc);
        for place in self.places.values() {
            add_passing(&mut numbers, place, question, sum)?;
        }
        Ok(Sequence::from_vec(in_order(numbers)))
    }
}
