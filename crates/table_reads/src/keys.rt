//! Keys of sets, as statements take them.

ghost use Rattle.std.specs.Prelude.{◌≡◌, ◌<◌, ◌^◌, IfOk, IfErr};
ghost use Rattle.bug_record.specs.Sets.{Each};
ghost use Rattle.base_faults.specs.declared.store_fault.StoreFault.TheVariants.{Memory};

use base_faults::StoreFault;
use std::alloc::{AllocError, Global};

// A key that was read; no set of a desk has one that is no u32.
pub(crate) fn small_key(key: u64) -> Result<u32, StoreFault>
    ensures value { IfOk result (λ k. k ≡ key) }
    ensures memory { key < 2 ^ 32 → IfErr result (λ fault. fault ≡ Memory) }
{
    match u32::try_from(key) {
        Ok(key) => Ok(key),
        Err(_) => Err(StoreFault::Foreign),
    }
}

// The same of several keys.
pub(crate) fn small_keys(alloc: Global, keys: &[u64]) -> Result<Vec<u32>, StoreFault>
    ensures value { IfOk result (λ ks. ks.items ≡ keys.now) }
    ensures memory { Each (λ k. k < 2 ^ 32) keys.now → IfErr result (λ fault. fault ≡ Memory) }
{
    let mut small = Vec::new(alloc);
    for key in keys {
        let key = small_key(*key)?;
        small.push(key).map_err(AllocError::from)?;
    }
    Ok(small)
}

// A key, or the number of a set's first bug, as a statement takes it.
// One that is no u32 is asked for as the largest u32, which no set and no bug of a desk has.
pub(crate) fn key_asked(key: u64) -> u32
    ensures { key < 2 ^ 32 → result ≡ key }
{
    match u32::try_from(key) {
        Ok(key) => key,
        Err(_) => u32::MAX,
    }
}
