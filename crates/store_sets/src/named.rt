//! The numbers that images name as blockers.

ghost use Rattle.std.specs.Prelude.{ℕ, IsTrue, OnOk, nat_eq};
ghost use Rattle.std.specs.HashSet.{contains};
ghost use Rattle.bug_record.specs.Sets.{has, Each};
ghost use Rattle.store_sets.specs.Named.{NamesAmong};

use bug_record::SetImage;
use std::alloc::AllocError;
use std::collections::HashSet;

// Adds numbers to those that are named; where there is no memory, perhaps some alone.
fn add_numbers(named: &mut HashSet<u64>, numbers: &[u64]) -> Result<(), AllocError>
    ensures keeps { (n : ℕ) → IsTrue (contains nat_eq named.old n) → IsTrue (contains nat_eq named.new n) }
    ensures adds { OnOk result ((n : ℕ) → IsTrue (has numbers.now n) → IsTrue (contains nat_eq named.new n)) }
{
    for number in numbers {
        named.insert(*number)?;
    }
    Ok(())
}

/// Adds the blockers of images to the numbers that are named; where there is no memory, perhaps
/// some alone.
pub(crate) fn add_blockers(named: &mut HashSet<u64>, images: &[SetImage]) -> Result<(), AllocError>
    ensures keeps { (n : ℕ) → IsTrue (contains nat_eq named.old n) → IsTrue (contains nat_eq named.new n) }
    ensures adds { OnOk result (Each (NamesAmong (contains nat_eq named.new)) images.now) }
{
    for image in images {
        add_numbers(named, image.shared.fields().blockers.as_slice())?;
    }
    Ok(())
}
