//! Sets of numbers, as blockers are, and the numbers of merged bugs.

ghost use Rattle.std.specs.Prelude.{◌≡◌, ◌∷◌, [], ◌++◌, not, filter, IfOk, OnOk, OnErr};
ghost use Rattle.base_sequences.specs.Sets.{has, with_item, with_items, number_set};

use super::Sequence;
use std::alloc::{AllocError, Global};
use std::collections::BTreeSet;

/// A list of numbers; where it is a set, it ascends.
pub type Numbers = Sequence<u64>;

/// Adds a number to a set, unless it is there.
pub fn add_number(set: &mut BTreeSet<u64>, number: u64) -> Result<(), AllocError>
    ensures { OnOk result (set.new.keys ≡ with_item (λ n. n) set.old.keys number) }
{
    set.insert(number)?;
    Ok(())
}

/// Adds these numbers to a set, each in its place, unless it is there.
pub fn add_numbers(set: &mut BTreeSet<u64>, numbers: &[u64]) -> Result<(), AllocError>
    ensures { OnOk result (set.new.keys ≡ with_items (λ n. n) set.old.keys numbers.now) }
{
    for number in numbers {
        add_number(set, *number)?;
    }
    Ok(())
}

/// The set of these numbers.
pub fn number_set(alloc: Global, numbers: &[u64]) -> Result<BTreeSet<u64>, AllocError>
    ensures { IfOk result (λ set. set.keys ≡ number_set numbers.now) }
{
    let mut set = BTreeSet::new(alloc);
    add_numbers(&mut set, numbers)?;
    Ok(set)
}

impl Sequence<u64> {
    /// The numbers of a set, ascending.
    pub fn in_order(alloc: Global, set: &BTreeSet<u64>) -> Result<Sequence<u64>, AllocError>
        ensures { IfOk result (λ numbers. numbers ≡ set.now.keys) }
    {
        let mut numbers = Sequence::new(alloc);
        for number in set {
            numbers.push(*number)?;
        }
        Ok(numbers)
    }

    /// Adds these numbers, and makes the list the ascending set of all.
    /// Where there is no memory, the list is as before.
    pub fn add_all(&mut self, numbers: &[u64]) -> Result<(), AllocError>
        ensures ok { OnOk result (self.new ≡ number_set (self.old ++ numbers.now)) }
        ensures err { OnErr result (self.new ≡ self.old) }
    {
        let alloc = self.allocator();
        let mut set = number_set(alloc, self.as_slice())?;
        add_numbers(&mut set, numbers)?;
        *self = Sequence::in_order(alloc, &set)?;
        Ok(())
    }

    /// Takes the numbers of a set out.
    pub fn remove_set(&mut self, set: &BTreeSet<u64>)
        ensures { self.new ≡ filter (λ n. not (has set.now.keys n)) self.old }
    {
        self.retain(|number| !set.contains(number));
    }

    /// Takes these numbers out.
    /// Where there is no memory, the list is as before.
    pub fn remove_all(&mut self, numbers: &[u64]) -> Result<(), AllocError>
        ensures ok { OnOk result (self.new ≡ filter (λ n. not (has numbers.now n)) self.old) }
        ensures err { OnErr result (self.new ≡ self.old) }
    {
        let set = number_set(self.allocator(), numbers)?;
        self.remove_set(&set);
        Ok(())
    }

    /// An equal list of its own.
    /// It answers out of memory where there is none for the list.
    pub fn copy(&self) -> Result<Sequence<u64>, AllocError>
        ensures { IfOk result (λ r. r ≡ self.now) }
    {
        Ok(Sequence::from_vec(Vec::from_slice(self.allocator(), self.as_slice())?))
    }
}
