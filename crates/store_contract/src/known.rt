//! The names that are known within a message.

ghost use Rattle.std.specs.Prelude.{◌≡◌, ◌≤◌, ◌++◌, ℕ, [], length, zip, nat_lt, count_by, None, IfOk, OnOk, is_some};
ghost use Rattle.std.specs.BTreeSet.{contains};
ghost use Rattle.std.specs.Ordering.{nat_cmp};
ghost use Rattle.bug_record.specs.Words.{number_of_name};
ghost use Rattle.bug_record.specs.Clones.{name_refusal};
ghost use Rattle.store_contract.specs.Twice.{stands_twice};

use bug_record::Refusal;
use indexmap::IndexMap;
use std::alloc::{AllocError, Global};
use std::collections::BTreeSet;
use std::marker::Model;

/// The names that a message has given to copies of bugs, each with the number of its copy, in the
/// order in which they were given.
/// Contracts see them as a list, and beside it how many more names there is room for.
#[derive(Drop)]
pub struct KnownNames {
    numbers: IndexMap<u32, u64>,
}

impl Model for KnownNames {
    ghost use Rattle.indexmap.specs.IndexMap.{spare};
    ghost use Rattle.store_contract.specs.Known.{Known};

    ghost Value = { Known };

    ghost view = { λ k. record { names = k.numbers.entries; room = spare k.numbers } };
}

// The names that stand more than once in a list.
fn repeated(alloc: Global, names: &[u32]) -> Result<BTreeSet<u32>, AllocError>
    ensures { IfOk result (λ found. (k : ℕ) → contains nat_cmp found k ≡ stands_twice names.now k) }
{
    let mut seen = BTreeSet::new(alloc);
    let mut found = BTreeSet::new(alloc);
    for name in names {
        if !seen.insert(*name)? {
            found.insert(*name)?;
        }
    }
    Ok(found)
}

impl KnownNames {
    /// No name is known.
    /// It takes no memory.
    pub fn new(alloc: Global) -> KnownNames
        ensures { result.names ≡ [] }
    {
        KnownNames {
            numbers: IndexMap::new(alloc),
        }
    }

    /// The number that the name -k stands for; `None` where it is not known.
    pub fn number_of(&self, name: u32) -> Option<u64>
        ensures { result ≡ number_of_name self.now.names name }
    {
        self.numbers.get(&name).copied()
    }

    /// The refusal of the first of these names that can't be given: `NameTaken(k)` of a name -k
    /// that is known, or stands more than once among them; `None` where all can be given.
    /// Where there are none of them, it takes no memory.
    pub fn refusal(&self, alloc: Global, names: &[u32]) -> Result<Option<Refusal>, AllocError>
        ensures { IfOk result (λ refusal. refusal ≡ name_refusal self.now.names names.now) }
    {
        if names.is_empty() {
            return Ok(None);
        }
        let repeated = repeated(alloc, names)?;
        for name in names {
            if self.number_of(*name).is_some() || repeated.contains(name) {
                return Ok(Some(Refusal::NameTaken(u64::from(*name))));
            }
        }
        Ok(None)
    }

    /// Makes room for so many more names.
    /// Where there is no memory, the names are as before.
    pub fn make_room(&mut self, count: usize) -> Result<(), AllocError>
        ensures same { self.new.names ≡ self.old.names }
        ensures room { OnOk result (count ≤ self.new.room) }
    {
        self.numbers.reserve(count)
    }

    /// Gives each of these names its number.
    /// It takes no memory.
    /// Names for which there is no number are not given.
    pub fn bind(&mut self, names: &[u32], numbers: &[u64])
        requires room { length names.now ≤ self.old.room }
        requires free { name_refusal self.old.names names.now ≡ None }
        ensures { self.new.names ≡ self.old.names ++ zip names.now numbers.now }
    {
        for (name, number) in names.iter().zip(numbers) {
            let _ = self.numbers.insert(*name, *number);
        }
    }
}
