//! A store that fails once, at any of its calls, in any way.

ghost use Rattle.std.specs.Prelude.{◌≡◌, ◌⊎◌, ◌||◌, true, false, Err};
ghost use Rattle.store_failing.specs.FailAt.{faults_with};

use base_faults::StoreFault;
use bug_record::{Change, ListRow, Numbers, Outcome, Sequence, SetImage};
use store_contract::{Kept, Records};
use version_nodes::{BranchFault, Node};

/// A store round another.
/// One call of `set_of`, `next`, `open_head`, `waiting_on`, `listed`, `kept`, `apply`, `branch` or
/// `keep` answers this fault, and changes nothing; every other call is the other store's.
/// Its calls are counted, and the images of the changes that `apply` is given.
#[derive(Drop)]
pub(crate) struct FailsAtAnyCall<S> {
    inner: S,
    fault: StoreFault,
    // Which call is to fail, counted from 1.
    at: u64,
    calls: u64,
    images: usize,
    has_failed: bool,
}

impl<S: Records> FailsAtAnyCall<S> {
    /// The call of this number is to fail, counted from 1; none where it is 0.
    pub fn new(inner: S, at: u64, fault: StoreFault) -> FailsAtAnyCall<S> {
        FailsAtAnyCall {
            inner,
            fault,
            at,
            calls: 0,
            images: 0,
            has_failed: false,
        }
    }

    /// How often the store has been called.
    pub fn calls(&self) -> u64 {
        self.calls
    }

    /// How many images the changes had that `apply` was given.
    pub fn images(&self) -> usize {
        self.images
    }

    // Counts a call, and says whether it is the one that is to fail.
    fn is_due(&mut self) -> bool
        ensures first { result ≡ true → self.old.has_failed ≡ false }
        ensures has_failed { self.new.has_failed ≡ (self.old.has_failed || result) }
        ensures inner { self.new.inner ≡ self.old.inner }
        ensures fault { self.new.fault ≡ self.old.fault }
    {
        self.calls = self.calls.saturating_add(1);
        let due = !self.has_failed && self.calls == self.at;
        self.has_failed = self.has_failed || due;
        due
    }
}

impl<S: Records> Records for FailsAtAnyCall<S> {
    ghost desk = { λ s. S.desk s.inner };

    ghost keeping = { λ s. S.keeping s.inner };

    ghost is_kept = { λ s. S.is_kept s.inner };

    ghost is_honest = { λ s. S.is_honest s.inner };

    ghost leaves = { λ s a b. S.leaves s.inner a b };

    ghost faults = { λ s. faults_with s.has_failed s.fault (S.faults s.inner) };

    ghost next_gives = { λ old new answer. (answer ≡ Err old.fault) ⊎ S.next_gives old.inner new.inner answer };

    fn set_of(&mut self, number: u64) -> Result<Option<SetImage>, StoreFault> {
        if self.is_due() {
            return Err(self.fault);
        }
        self.inner.set_of(number)
    }

    fn next(&mut self) -> Result<u64, StoreFault> {
        if self.is_due() {
            return Err(self.fault);
        }
        self.inner.next()
    }

    fn open_head(&mut self, image: &SetImage) -> Result<Option<Node>, StoreFault> {
        if self.is_due() {
            return Err(self.fault);
        }
        self.inner.open_head(image)
    }

    fn waiting_on(&mut self, number: u64) -> Result<Numbers, StoreFault> {
        if self.is_due() {
            return Err(self.fault);
        }
        self.inner.waiting_on(number)
    }

    fn listed(&mut self, package: &str, node: &Node) -> Result<Sequence<ListRow>, StoreFault> {
        if self.is_due() {
            return Err(self.fault);
        }
        self.inner.listed(package, node)
    }

    fn apply(&mut self, change: &Change) -> Result<(), StoreFault> {
        if self.is_due() {
            return Err(self.fault);
        }
        self.images = self.images.saturating_add(change.images.as_slice().len());
        self.inner.apply(change)
    }

    fn branch(&mut self, nodes: &[Node]) -> Result<Result<(), BranchFault>, StoreFault> {
        if self.is_due() {
            return Err(self.fault);
        }
        self.inner.branch(nodes)
    }

    fn kept(&mut self, id: &str) -> Result<Option<Kept>, StoreFault> {
        if self.is_due() {
            return Err(self.fault);
        }
        self.inner.kept(id)
    }

    fn keep(
        &mut self,
        id: &str,
        from: &str,
        message: &str,
        outcome: &Outcome,
        change: Option<&Change>,
    ) -> Result<(), StoreFault> {
        if self.is_due() {
            return Err(self.fault);
        }
        self.inner.keep(id, from, message, outcome, change)
    }

    fn faults(&self) -> u64 {
        let faults = self.inner.faults();
        if !self.has_failed {
            return faults;
        }
        match self.fault {
            StoreFault::Memory => faults,
            StoreFault::Device => faults.saturating_add(1),
            StoreFault::Full => faults.saturating_add(1),
            StoreFault::Foreign => faults.saturating_add(1),
        }
    }

    ghost sound = { λ s kept. S.sound s.inner kept };

    ghost good = { λ s kept. S.good s.inner kept };

    ghost either = { λ s a b alone. S.either s.inner a b alone };
}
