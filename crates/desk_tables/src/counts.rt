//! How often a store has failed.

ghost use Rattle.std.specs.Prelude.{◌≡◌};
ghost use Rattle.store_contract.specs.Store.{faults_after, no_faults, total};

use base_faults::StoreFault;
use std::marker::Model;

/// How often a store has answered each kind of fault, up to `u64::MAX`; out of memory is not
/// counted.
#[derive(Drop)]
pub(crate) struct Counts {
    device: u64,
    full: u64,
    foreign: u64,
}

impl Model for Counts {
    ghost use Rattle.store_contract.specs.Store.{Faults};

    ghost Value = { Faults };

    ghost view = { λ c. record { device = c.device; full = c.full; foreign = c.foreign } };
}

impl Counts {
    // No fault.
    pub(crate) fn new() -> Counts
        ensures { result ≡ no_faults }
    {
        Counts {
            device: 0,
            full: 0,
            foreign: 0,
        }
    }

    // Counts the fault of an answer, if it is one, and hands the answer on.
    pub(crate) fn note<T>(&mut self, answer: Result<T, StoreFault>) -> Result<T, StoreFault>
        ensures same { result ≡ answer }
        ensures count { self.new ≡ faults_after answer self.old }
    {
        match &answer {
            Ok(_) | Err(StoreFault::Memory) => {}
            Err(StoreFault::Device) => self.device = self.device.saturating_add(1),
            Err(StoreFault::Full) => self.full = self.full.saturating_add(1),
            Err(StoreFault::Foreign) => self.foreign = self.foreign.saturating_add(1),
        }
        answer
    }

    // All faults together, up to `u64::MAX`.
    pub(crate) fn total(&self) -> u64
        ensures { result ≡ total self.now }
    {
        self.device
            .saturating_add(self.full)
            .saturating_add(self.foreign)
    }
}
