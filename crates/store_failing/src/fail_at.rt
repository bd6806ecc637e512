//! A store that fails once, for tests.

ghost use Rattle.std.specs.Prelude.{◌≡◌, ◌≢◌, ◌-◌, ◌||◌, ◌==◌, true, false, Err, IfOk};
ghost use Rattle.std.specs.Option.{option_copied};
ghost use Rattle.bug_record.specs.Sets.{Each};
ghost use Rattle.bug_record.specs.Images.{AreApart, HasMember, IsSetOf, FitsDesk, put};
ghost use Rattle.store_contract.specs.Store.{Holds, Asks, Answers, IsImageOf, IsNext, IsOpenHead, AreWaitingOn, AreListed};
ghost use Rattle.base_words.specs.Texts.{IsText, IfGiven};
ghost use Rattle.base_words.specs.Ids.{IsId};
ghost use Rattle.store_contract.specs.Store.{Applies, Branches, IsRefusal, Since, MayBeKept, Keeps, with_change};
ghost use Rattle.store_contract.specs.Kept.{kept_also};
ghost use Rattle.store_contract.specs.Crashes.{LeavesAfter, LeavesBranched, after_branch};
ghost use Rattle.store_contract.specs.Store.{faults_after};
ghost use Rattle.store_failing.specs.FailAt.{faults_with};

use base_faults::StoreFault;
use bug_record::{Change, ListRow, Numbers, Outcome, Sequence, SetImage};
use store_contract::{Kept, Records};
use version_nodes::{BranchFault, Node};

/// A store round another.
/// One call of `apply`, `branch` or `keep` answers the fault that it was made with, changes nothing
/// and is counted, but for `Memory`; every other call is the other store's.
#[derive(Drop)]
pub struct FailAt<S> {
    inner: S,
    // Which call of `apply`, `branch` or `keep` is to fail, counted from 1; 0: none, or none any
    // more.
    left: u64,
    // What that call answers.
    fault: StoreFault,
    has_failed: bool,
    ghost once: { has_failed ≡ true → left ≡ 0 },
}

impl<S: Records> FailAt<S> {
    /// The k-th call of `apply`, `branch` or `keep` is to answer this fault, counted from 1; none
    /// where k is 0.
    pub fn new(inner: S, k: u64, fault: StoreFault) -> FailAt<S>
        ensures inner { result.inner ≡ inner }
        ensures left { result.left ≡ k }
        ensures fault { result.fault ≡ fault }
        ensures has_failed { result.has_failed ≡ false }
    {
        FailAt {
            inner,
            left: k,
            fault,
            has_failed: false,
        }
    }

    // Counts a call, and says whether it is the one that is to fail.
    fn is_due(&mut self) -> bool
        ensures value { result ≡ (self.old.left == 1) }
        ensures countdown { self.new.left ≡ self.old.left - 1 }
        ensures has_failed { self.new.has_failed ≡ (self.old.has_failed || (self.old.left == 1)) }
        ensures fault { self.new.fault ≡ self.old.fault }
        ensures inner { self.new.inner ≡ self.old.inner }
    {
        let due = self.left == 1;
        self.left = self.left.saturating_sub(1);
        self.has_failed = self.has_failed || due;
        due
    }
}

impl<S: Records> Records for FailAt<S> {
    ghost desk = { λ s. S.desk s.inner };

    ghost keeping = { λ s. S.keeping s.inner };

    ghost is_kept = { λ s. S.is_kept s.inner };

    ghost is_honest = { λ s. S.is_honest s.inner };

    ghost leaves = { λ s a b. S.leaves s.inner a b };

    ghost faults = { λ s. faults_with s.has_failed s.fault (S.faults s.inner) };

    ghost next_gives = { λ old new answer. S.next_gives old.inner new.inner answer };

    fn set_of(&mut self, number: u64) -> Result<Option<SetImage>, StoreFault>
        ensures answer { Asks S.is_kept S.is_honest S.leaves self.old.inner self.new.inner
            (Answers (S.desk self.old.inner) (S.desk self.new.inner) result (IsImageOf (S.desk self.old.inner) number)) }
        ensures stays { S.keeping self.new.inner ≡ S.keeping self.old.inner }
        ensures count { S.faults self.new.inner ≡ faults_after result (S.faults self.old.inner) }
        ensures left { self.new.left ≡ self.old.left }
        ensures has_failed { self.new.has_failed ≡ self.old.has_failed }
        ensures fault { self.new.fault ≡ self.old.fault }
    {
        self.inner.set_of(number)
    }

    fn next(&mut self) -> Result<u64, StoreFault>
        ensures answer { Asks S.is_kept S.is_honest S.leaves self.old.inner self.new.inner
            (Answers (S.desk self.old.inner) (S.desk self.new.inner) result (IsNext (S.desk self.old.inner))) }
        ensures gives { S.next_gives self.old.inner self.new.inner result }
        ensures stays { S.keeping self.new.inner ≡ S.keeping self.old.inner }
        ensures count { S.faults self.new.inner ≡ faults_after result (S.faults self.old.inner) }
        ensures left { self.new.left ≡ self.old.left }
        ensures has_failed { self.new.has_failed ≡ self.old.has_failed }
        ensures fault { self.new.fault ≡ self.old.fault }
    {
        self.inner.next()
    }

    fn open_head(&mut self, image: &SetImage) -> Result<Option<Node>, StoreFault>
        requires member { HasMember image.now }
        requires set { S.is_kept self.old.inner → S.is_honest self.old.inner → IsSetOf (S.desk self.old.inner) image.now }
        ensures answer { Asks S.is_kept S.is_honest S.leaves self.old.inner self.new.inner
            (Answers (S.desk self.old.inner) (S.desk self.new.inner) result (IsOpenHead (S.desk self.old.inner) image.now)) }
        ensures stays { S.keeping self.new.inner ≡ S.keeping self.old.inner }
        ensures count { S.faults self.new.inner ≡ faults_after result (S.faults self.old.inner) }
        ensures left { self.new.left ≡ self.old.left }
        ensures has_failed { self.new.has_failed ≡ self.old.has_failed }
        ensures fault { self.new.fault ≡ self.old.fault }
    {
        self.inner.open_head(image)
    }

    fn waiting_on(&mut self, number: u64) -> Result<Numbers, StoreFault>
        ensures answer { Asks S.is_kept S.is_honest S.leaves self.old.inner self.new.inner
            (Answers (S.desk self.old.inner) (S.desk self.new.inner) result (AreWaitingOn (S.desk self.old.inner) number)) }
        ensures stays { S.keeping self.new.inner ≡ S.keeping self.old.inner }
        ensures count { S.faults self.new.inner ≡ faults_after result (S.faults self.old.inner) }
        ensures left { self.new.left ≡ self.old.left }
        ensures has_failed { self.new.has_failed ≡ self.old.has_failed }
        ensures fault { self.new.fault ≡ self.old.fault }
    {
        self.inner.waiting_on(number)
    }

    fn listed(&mut self, package: &str, node: &Node) -> Result<Sequence<ListRow>, StoreFault>
        ensures answer { Asks S.is_kept S.is_honest S.leaves self.old.inner self.new.inner
            (Answers (S.desk self.old.inner) (S.desk self.new.inner) result
            (AreListed (S.desk self.old.inner) «package».now node.now)) }
        ensures stays { S.keeping self.new.inner ≡ S.keeping self.old.inner }
        ensures count { S.faults self.new.inner ≡ faults_after result (S.faults self.old.inner) }
        ensures left { self.new.left ≡ self.old.left }
        ensures has_failed { self.new.has_failed ≡ self.old.has_failed }
        ensures fault { self.new.fault ≡ self.old.fault }
    {
        self.inner.listed(package, node)
    }

    fn apply(&mut self, change: &Change) -> Result<(), StoreFault>
        requires apart { S.is_kept self.old.inner → S.is_honest self.old.inner → AreApart change.now.images }
        requires members { Each HasMember change.now.images }
        requires fits { S.is_kept self.old.inner → S.is_honest self.old.inner → FitsDesk (S.desk self.old.inner) change.now }
        ensures answer { Holds S.is_kept S.is_honest self.old.inner self.new.inner
            (Applies (S.desk self.old.inner) (S.desk self.new.inner) result change.now) }
        ensures stays { Holds S.is_kept S.is_honest self.old.inner self.new.inner
            (S.keeping self.new.inner ≡ S.keeping self.old.inner) }
        ensures crash { Holds S.is_kept S.is_honest self.old.inner self.new.inner
            (LeavesAfter S.leaves self.old.inner self.new.inner
            (put (S.desk self.old.inner) change.now, S.keeping self.old.inner) result) }
        ensures count { faults_with self.new.has_failed self.new.fault (S.faults self.new.inner)
            ≡ faults_after result (faults_with self.old.has_failed self.old.fault (S.faults self.old.inner)) }
        ensures countdown { self.new.left ≡ self.old.left - 1 }
        ensures has_failed { self.new.has_failed ≡ (self.old.has_failed || (self.old.left == 1)) }
        ensures fault { self.new.fault ≡ self.old.fault }
        ensures due { self.old.left ≡ 1 → result ≡ Err self.old.fault }
        ensures unchanged { self.old.left ≡ 1 → self.new.inner ≡ self.old.inner }
        ensures passed_on { self.old.left ≢ 1 → S.faults self.new.inner ≡ faults_after result (S.faults self.old.inner) }
    {
        if self.is_due() {
            return Err(self.fault);
        }
        self.inner.apply(change)
    }

    fn branch(&mut self, nodes: &[Node]) -> Result<Result<(), BranchFault>, StoreFault>
        ensures answer { Holds S.is_kept S.is_honest self.old.inner self.new.inner
            (Branches (S.desk self.old.inner) (S.desk self.new.inner) result nodes.now) }
        ensures refusal { IfOk result IsRefusal }
        ensures stays { Holds S.is_kept S.is_honest self.old.inner self.new.inner
            (S.keeping self.new.inner ≡ S.keeping self.old.inner) }
        ensures crash { Holds S.is_kept S.is_honest self.old.inner self.new.inner
            (LeavesBranched S.leaves self.old.inner self.new.inner
            (after_branch (S.desk self.old.inner) nodes.now, S.keeping self.old.inner) result) }
        ensures count { faults_with self.new.has_failed self.new.fault (S.faults self.new.inner)
            ≡ faults_after result (faults_with self.old.has_failed self.old.fault (S.faults self.old.inner)) }
        ensures countdown { self.new.left ≡ self.old.left - 1 }
        ensures has_failed { self.new.has_failed ≡ (self.old.has_failed || (self.old.left == 1)) }
        ensures fault { self.new.fault ≡ self.old.fault }
        ensures due { self.old.left ≡ 1 → result ≡ Err self.old.fault }
        ensures unchanged { self.old.left ≡ 1 → self.new.inner ≡ self.old.inner }
        ensures passed_on { self.old.left ≢ 1 → S.faults self.new.inner ≡ faults_after result (S.faults self.old.inner) }
    {
        if self.is_due() {
            Err(self.fault)
        } else {
            self.inner.branch(nodes)
        }
    }

    fn kept(&mut self, id: &str) -> Result<Option<Kept>, StoreFault>
        ensures answer { Asks S.is_kept S.is_honest S.leaves self.old.inner self.new.inner
            (Answers (S.desk self.old.inner) (S.desk self.new.inner) result
            (λ kept. kept ≡ S.keeping self.old.inner id.now)) }
        ensures stays { S.keeping self.new.inner ≡ S.keeping self.old.inner }
        ensures count { S.faults self.new.inner ≡ faults_after result (S.faults self.old.inner) }
        ensures left { self.new.left ≡ self.old.left }
        ensures has_failed { self.new.has_failed ≡ self.old.has_failed }
        ensures fault { self.new.fault ≡ self.old.fault }
    {
        self.inner.kept(id)
    }

    fn keep(
        &mut self,
        id: &str,
        from: &str,
        message: &str,
        outcome: &Outcome,
        change: Option<&Change>,
    ) -> Result<(), StoreFault>
        requires id { IsId id.now }
        requires sender { IsText from.now }
        requires members { IfGiven (λ (c : Change). Each HasMember c.images) (option_copied change) }
        requires apart { S.is_kept self.old.inner → S.is_honest self.old.inner
            → IfGiven (λ (c : Change). AreApart c.images) (option_copied change) }
        requires fits { S.is_kept self.old.inner → S.is_honest self.old.inner
            → IfGiven (FitsDesk (S.desk self.old.inner)) (option_copied change) }
        requires next { Since S.is_kept S.is_honest self.old.inner
            (MayBeKept id.now from.now message.now (S.keeping self.old.inner) (S.desk self.old.inner) outcome.now
            (option_copied change)) }
        ensures answer { (earlier : S) → Holds S.is_kept S.is_honest earlier self.old.inner
            (MayBeKept id.now from.now message.now (S.keeping self.old.inner) (S.desk self.old.inner) outcome.now
            (option_copied change.entry))
            → Holds S.is_kept S.is_honest earlier self.new.inner
            (Keeps id.now from.now message.now outcome.now (option_copied change.entry) (S.desk self.old.inner)
            (S.keeping self.old.inner) result (S.desk self.new.inner) (S.keeping self.new.inner)) }
        ensures crash { (earlier : S) → Holds S.is_kept S.is_honest earlier self.old.inner
            (MayBeKept id.now from.now message.now (S.keeping self.old.inner) (S.desk self.old.inner) outcome.now
            (option_copied change.entry))
            → Holds S.is_kept S.is_honest earlier self.new.inner
            (LeavesAfter S.leaves self.old.inner self.new.inner (
              with_change (option_copied change.entry) (S.desk self.old.inner),
              kept_also id.now from.now message.now outcome.now (S.keeping self.old.inner),
            ) result) }
        ensures honest { S.is_honest self.new.inner → S.is_honest self.old.inner }
        ensures count { faults_with self.new.has_failed self.new.fault (S.faults self.new.inner)
            ≡ faults_after result (faults_with self.old.has_failed self.old.fault (S.faults self.old.inner)) }
        ensures countdown { self.new.left ≡ self.old.left - 1 }
        ensures has_failed { self.new.has_failed ≡ (self.old.has_failed || (self.old.left == 1)) }
        ensures fault { self.new.fault ≡ self.old.fault }
        ensures due { self.old.left ≡ 1 → result ≡ Err self.old.fault }
        ensures unchanged { self.old.left ≡ 1 → self.new.inner ≡ self.old.inner }
        ensures passed_on { self.old.left ≢ 1 → S.faults self.new.inner ≡ faults_after result (S.faults self.old.inner) }
    {
        match self.is_due() {
            true => Err(self.fault),
            false => self.inner.keep(id, from, message, outcome, change),
        }
    }

    fn faults(&self) -> u64 {
        let faults = self.inner.faults();
        if self.has_failed && self.fault != StoreFault::Memory {
            faults.saturating_add(1)
        } else {
            faults
        }
    }

    ghost sound = { λ s kept. S.sound s.inner kept };

    ghost good = { λ s kept. S.good s.inner kept };

    ghost either = { λ s a b alone. S.either s.inner a b alone };
}
