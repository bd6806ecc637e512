//! Lists that contracts see as lists.

ghost use Rattle.std.specs.Prelude.{◌≡◌, ℕ, List, [], ◌∷◌, ◌++◌, ◌-◌, ◌≤◌, length, take, insert, OnOk, OnErr, MatchResult, slice_get};
ghost use Rattle.std.specs.Fn.{CalledAt};
ghost use Rattle.std.specs.List.Retain.{IsFiltered};
ghost use Rattle.std.specs.Cmp.Lexicographic.{pointwise, lists_per, lists_equiv};
ghost use Rattle.base_sequences.specs.Kept.{kept_items};
ghost use Rattle.base_sequences.specs.Sets.{with_item};
ghost use Rattle.base_sequences.specs.Places.{place_for, is_at};

use std::alloc::{AllocError, Global};
use std::marker::Model;
use std::mem::replace;

mod numbers;
mod ordered;

pub use numbers::{Numbers, add_number, add_numbers, number_set};

/// A list of values, which contracts see as that list.
/// One that is made alone, or added to an empty list, takes no memory of its own.
#[derive(Drop)]
pub struct Sequence<T> {
    kept: Kept<T>,
}

// The elements of a list: one by itself, beside the allocator for more, or a `Vec` of them.
#[derive(Drop)]
enum Kept<T> {
    One([T; 1], Global),
    Many(Vec<T>),
}

impl<T> Model for Sequence<T> {
    ghost Value = { List T };

    ghost view = { λ s. kept_items s.kept };
}

impl<T> Sequence<T> {
    /// The empty list.
    /// It takes no memory.
    pub fn new(alloc: Global) -> Self
        ensures { result ≡ [] }
    {
        Sequence::from_vec(Vec::new(alloc))
    }

    /// The list of one value.
    /// It takes no memory.
    pub fn one(alloc: Global, item: T) -> Self
        ensures { result ≡ item ∷ [] }
    {
        let kept = Kept::One([item], alloc);
        Sequence { kept }
    }

    /// The list of a `Vec`'s elements.
    pub fn from_vec(items: Vec<T>) -> Self
        ensures { result ≡ items.items }
    {
        let kept = Kept::Many(items);
        Sequence { kept }
    }

    /// The allocator of the list.
    pub fn allocator(&self) -> Global {
        match &self.kept {
            Kept::One(_, alloc) => *alloc,
            Kept::Many(items) => *items.allocator(),
        }
    }

    /// An empty list over the same allocator.
    /// It takes no memory.
    pub fn empty<U>(&self) -> Sequence<U>
        ensures { result ≡ [] }
    {
        Sequence::new(self.allocator())
    }

    /// The elements.
    pub fn as_slice(&self) -> &[T]
        ensures { result.now ≡ self.now }
    {
        match &self.kept {
            Kept::One(one, _) => one.as_slice(),
            Kept::Many(items) => items.as_slice(),
        }
    }

    /// The element of a list that keeps one by itself; the `Vec` of the elements of any other.
    /// It takes no memory.
    pub fn into_kept(self) -> Result<T, Vec<T>>
        ensures { MatchResult result (λ item. item ∷ [] ≡ self) (λ items. items.items ≡ self) }
    {
        match self.kept {
            Kept::One(one, _alloc) => Ok(only(one)),
            Kept::Many(items) => Err(items),
        }
    }
}

// The element of an array of one.
fn only<T>(one: [T; 1]) -> T
    ensures { result ∷ [] ≡ one }
{
    let [item] = one;
    item
}

// Adds an element at a place; where there is no memory, the list is as before.
fn put<T: Drop>(kept: &mut Kept<T>, place: usize, item: T) -> Result<(), AllocError>
    requires { place ≤ length (kept_items kept.old) }
    ensures ok { OnOk result (kept_items kept.new ≡ insert (kept_items kept.old) place item) }
    ensures err { OnErr result (kept_items kept.new ≡ kept_items kept.old) }
{
    match kept {
        Kept::Many(items) => {
            if items.capacity() > 0 {
                items.insert(place, item)?;
                return Ok(());
            }
            *kept = Kept::One([item], *items.allocator());
        }
        Kept::One(_, alloc) => {
            let alloc = *alloc;
            let mut items = Vec::with_capacity(alloc, 4)?;
            match replace(kept, Kept::Many(Vec::new(alloc))) {
                Kept::One(one, _alloc) => {
                    let _ = items.push(only(one));
                    let _ = items.insert(place, item);
                }
                Kept::Many(_items) => {}
            }
            *kept = Kept::Many(items);
        }
    }
    Ok(())
}

impl<T: Drop> Sequence<T> {
    /// Adds an element at the end.
    /// Where there is no memory, the list is as before.
    pub fn push(&mut self, item: T) -> Result<(), AllocError>
        ensures ok { OnOk result (self.new ≡ self.old ++ item ∷ []) }
        ensures err { OnErr result (self.new ≡ self.old) }
    {
        if let Kept::Many(items) = &mut self.kept {
            if items.capacity() > 0 {
                items.push(item)?;
                return Ok(());
            }
        }
        let place = self.as_slice().len();
        put(&mut self.kept, place, item)
    }

    /// Keeps the elements that pass the test.
    /// It takes no memory.
    pub fn retain<F: FnMut(&T) -> bool>(&mut self, mut test: F)
        requires { F.IsAlwaysCallable test }
        ensures { IsFiltered (CalledAt F.FnMut) test self.old self.new }
    {
        let alloc = self.allocator();
        match replace(&mut self.kept, Kept::Many(Vec::new(alloc))) {
            Kept::One(one, _alloc) => {
                let item = only(one);
                if test(&item) {
                    self.kept = Kept::One([item], alloc);
                }
            }
            Kept::Many(mut items) => {
                items.retain(test);
                self.kept = Kept::Many(items);
            }
        }
    }

    /// Takes the last element away, if there is one.
    /// It takes no memory.
    pub fn remove_last(&mut self)
        ensures { self.new ≡ take (length self.old - 1) self.old }
    {
        let alloc = self.allocator();
        match replace(&mut self.kept, Kept::Many(Vec::new(alloc))) {
            Kept::One(one, _alloc) => drop(only(one)),
            Kept::Many(mut items) => {
                items.pop();
                self.kept = Kept::Many(items);
            }
        }
    }
}

/// Two lists are equal where their elements are, one by one.
impl<T: PartialEq> PartialEq for Sequence<T> {
    ghost eq = { λ x y. pointwise T.eq x y };

    ghost laws = { lists_per T.laws };

    fn eq(&self, other: &Sequence<T>) -> bool {
        self.as_slice() == other.as_slice()
    }
}

impl<T: Eq> Eq for Sequence<T> {
    ghost laws = { lists_equiv T.Eq.laws };
}

/// An item that has a number.
pub trait Numbered {
    ghost number: { Self → ℕ };

    fn number(&self) -> u64
        ensures { result ≡ number self.now };
}

impl Numbered for u64 {
    ghost number = { λ n. n };

    fn number(&self) -> u64 {
        *self
    }
}

// Where an item of the number stands, or is to stand.
fn place_for<T: Numbered>(items: &[T], number: u64) -> usize
    ensures { result ≡ place_for T.number items.now number }
{
    for (i, item) in items.iter().enumerate() {
        if item.number() >= number {
            return i;
        }
    }
    items.len()
}

// Whether the item at a place has the number.
fn is_at<T: Numbered>(items: &[T], place: usize, number: u64) -> bool
    ensures { result ≡ is_at T.number (slice_get items.now place) number }
{
    match items.get(place) {
        Some(item) => item.number() == number,
        None => false,
    }
}

impl<T: Numbered + Drop> Sequence<T> {
    /// Adds the item to a list that ascends by number, unless it has one of its number.
    /// Where there is no memory, the list is as before.
    pub fn add(&mut self, item: T) -> Result<(), AllocError>
        ensures ok { OnOk result (self.new ≡ with_item T.number self.old item) }
        ensures err { OnErr result (self.new ≡ self.old) }
    {
        let number = item.number();
        let place = place_for(self.as_slice(), number);
        if is_at(self.as_slice(), place, number) {
            return Ok(());
        }
        put(&mut self.kept, place, item)?;
        Ok(())
    }
}
