//! Numbers as parameters of statements.

ghost use Rattle.std.specs.Prelude.{◌≡◌, ◌≤◌, ◌^◌, ℕ, Some, IfOk, IfErr};
ghost use Rattle.base_faults.specs.declared.store_fault.StoreFault.TheVariants.{Memory};

use base_faults::StoreFault;

/// A number as a statement takes it: a larger one is told as `Memory`, since the store has not
/// failed, and no bug has one.
pub fn parameter(number: u64) -> Result<u32, StoreFault>
    ensures same { IfOk result (λ n. n ≡ number) }
    ensures large { IfErr result (λ fault. (fault ≡ Memory) × (2 ^ 32 ≤ number)) }
{
    match u32::try_from(number) {
        Ok(small) => Ok(small),
        Err(_) => Err(StoreFault::Memory),
    }
}

/// The same of a number that may be missing.
pub fn maybe_parameter(number: Option<u64>) -> Result<Option<u32>, StoreFault>
    ensures same { IfOk result (λ n. n ≡ number) }
    ensures large { IfErr result (λ fault. (fault ≡ Memory) × ((n : ℕ) × (number ≡ Some n) × (2 ^ 32 ≤ n))) }
{
    match number {
        Some(number) => match parameter(number) {
            Ok(small) => Ok(Some(small)),
            Err(fault) => Err(fault),
        },
        None => Ok(None),
    }
}
