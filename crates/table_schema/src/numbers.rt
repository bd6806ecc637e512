//! Rows of one number.

ghost use Rattle.std.specs.Prelude.{◌≡◌, ℕ, List, [], ◌∷◌, Option, IfOk, IfErr, map};
ghost use Rattle.std.specs.Option.{option_map_or};
ghost use Rattle.base_faults.specs.declared.store_fault.StoreFault.TheVariants.{Memory};
ghost use Rattle.table_forms.specs.Numbers.{number_row};

use crate::cells::number_at;
use base_faults::StoreFault;
use bug_record::{Numbers, Sequence};
use sqlite::Row;
use std::alloc::Global;

// The number in a row.
fn number_of(row: &Row) -> Result<u64, StoreFault>
    ensures value { (n : ℕ) → row.now ≡ number_row n → IfOk result (λ v. v ≡ n) }
    ensures memory { (n : ℕ) → row.now ≡ number_row n → IfErr result (λ fault. fault ≡ Memory) }
{
    number_at(row, 0)
}

/// The number of the only row, if there is one.
/// A number above the largest u64 can't be read.
pub fn number_in(rows: &[Row]) -> Result<Option<u64>, StoreFault>
    ensures value { (o : Option ℕ) → rows.now ≡ option_map_or (λ n. number_row n ∷ []) o [] → IfOk result (λ v. v ≡ o) }
    ensures memory { (o : Option ℕ) → rows.now ≡ option_map_or (λ n. number_row n ∷ []) o [] →
        IfErr result (λ fault. fault ≡ Memory) }
{
    match rows {
        [] => Ok(None),
        [row, ..] => match number_of(row) {
            Ok(number) => Ok(Some(number)),
            Err(fault) => Err(fault),
        },
    }
}

/// The numbers of rows that have one number each, in their order.
/// `Memory` where there is none for them; a number above the largest u64 can't be read.
pub fn numbers_of(alloc: Global, rows: &[Row]) -> Result<Numbers, StoreFault>
    ensures value { (ns : List ℕ) → rows.now ≡ map number_row ns → IfOk result (λ numbers. numbers ≡ ns) }
    ensures memory { (ns : List ℕ) → rows.now ≡ map number_row ns → IfErr result (λ fault. fault ≡ Memory) }
{
    let mut numbers = Sequence::new(alloc);
    for row in rows {
        let number = number_of(row)?;
        match numbers.push(number) {
            Ok(()) => {}
            Err(_) => return Err(StoreFault::Memory),
        }
    }
    Ok(numbers)
}
