//! Sets in the order of their items.

ghost use Rattle.std.specs.Prelude.{◌≡◌, slice_get, IfOk, OnOk, OnErr};
ghost use Rattle.std.specs.BTreeSet.{insert_key};
ghost use Rattle.base_sequences.specs.Places.{place_in, is_this};

use super::{Sequence, put};
use std::alloc::{AllocError, Global};
use std::cmp::Ordering;
use std::collections::BTreeSet;

// Where an item stands, or is to stand.
fn place_in<T: Ord>(items: &[T], item: &T) -> usize
    ensures { result ≡ place_in T.cmp items.now item.now }
{
    for (i, other) in items.iter().enumerate() {
        match item.cmp(other) {
            Ordering::Greater => {}
            _ => return i,
        }
    }
    items.len()
}

// Whether the item at a place is this one.
fn is_this<T: Ord>(items: &[T], place: usize, item: &T) -> bool
    ensures { result ≡ is_this T.cmp (slice_get items.now place) item.now }
{
    match items.get(place) {
        Some(other) => item.cmp(other).is_eq(),
        None => false,
    }
}

impl<T: Ord + Drop> Sequence<T> {
    /// The items of a set, in order.
    pub fn of_set(alloc: Global, set: BTreeSet<T>) -> Result<Sequence<T>, AllocError>
        ensures { IfOk result (λ r. r ≡ set.keys) }
    {
        let mut items = Sequence::new(alloc);
        for item in set {
            items.push(item)?;
        }
        Ok(items)
    }

    /// Adds the item to a list in the order of items, unless it is there.
    /// Where there is no memory, the list is as before.
    pub fn add_ordered(&mut self, item: T) -> Result<(), AllocError>
        ensures ok { OnOk result (self.new ≡ insert_key T.cmp self.old item) }
        ensures err { OnErr result (self.new ≡ self.old) }
    {
        let place = place_in(self.as_slice(), &item);
        if is_this(self.as_slice(), place, &item) {
            return Ok(());
        }
        put(&mut self.kept, place, item)?;
        Ok(())
    }
}
