//! What a store of a desk does, whatever keeps the desk.

ghost use Rattle.std.specs.Prelude.{◌≡◌, ℕ, Option, Result, IfOk, IfSome};
ghost use Rattle.std.specs.Option.{option_copied};
ghost use Rattle.bug_record.specs.Sets.{Each};
ghost use Rattle.bug_record.specs.Desk.{Desk, IsSound};
ghost use Rattle.bug_record.specs.Images.{AreApart, HasMember, IsSetOf, FitsDesk, put};
ghost use Rattle.store_contract.specs.Store.{Holds, Asks, Answers, IsImageOf, IsNext, IsOpenHead, AreWaitingOn, AreListed};
ghost use Rattle.store_contract.specs.Store.{Applies, Branches, IsRefusal, Since, MayBeKept, Keeps, with_change};
ghost use Rattle.base_faults.specs.declared.store_fault.StoreFault.{StoreFault};
ghost use Rattle.store_contract.specs.Store.{Faults, faults_after, total};
ghost use Rattle.base_words.specs.Texts.{IsText, IfGiven};
ghost use Rattle.base_words.specs.Ids.{IsId};
ghost use Rattle.store_contract.specs.Kept.{Keeping, AreGoodKept, kept_also};
ghost use Rattle.store_contract.specs.Crashes.{Holding, LeavesAfter, LeavesBranched, after_branch};

use crate::kept::Kept;
use base_faults::StoreFault;
use bug_record::{Change, ListRow, Numbers, Outcome, Sequence, SetImage};
use debver::Text;
use version_nodes::{BranchFault, Node};

/// A store of a desk, in memory or in tables, and of what is kept of messages that have an id.
///
/// What it says of its content holds where its tables are kept as a call begins and the disk was
/// honest up to its end, and then they are kept again.
/// After a fault the content is as before.
pub trait Records {
    /// The desk.
    ghost desk: { Self → Desk };

    /// What is kept of messages that have an id.
    ghost keeping: { Self → Keeping };

    /// The content is kept as it has to be.
    /// Always so of a desk in memory.
    ghost is_kept: { Self → Type 0 };

    /// So far the disk has returned what was written to it.
    /// Always so of a desk in memory.
    ghost is_honest: { Self → Type 0 };

    /// How often the store has answered `Device`, `Full` and `Foreign`, each up to `u64::MAX`.
    ghost faults: { Self → Faults };

    /// A crash at this moment leaves the first holding or the second, and no other.
    /// A desk in memory has none but its own.
    ghost leaves: { Self → Holding → Holding → Type 0 };

    /// What `next` may answer, and what it leaves of the store.
    ghost next_gives: { Self → Self → Result ℕ StoreFault → Type 0 };

    /// The image of the set that the bug is in; `None` exactly where there is no bug of this
    /// number.
    fn set_of(&mut self, number: u64) -> Result<Option<SetImage>, StoreFault>
        ensures answer { Asks is_kept is_honest leaves self.old self.new
            (Answers (desk self.old) (desk self.new) result (IsImageOf (desk self.old) number)) }
        ensures stays { keeping self.new ≡ keeping self.old }
        ensures count { faults self.new ≡ faults_after result (faults self.old) };

    /// The number of the next bug: 1,000,000,000 where no number is left.
    fn next(&mut self) -> Result<u64, StoreFault>
        ensures answer { Asks is_kept is_honest leaves self.old self.new
            (Answers (desk self.old) (desk self.new) result (IsNext (desk self.old))) }
        ensures gives { next_gives self.old self.new result }
        ensures stays { keeping self.new ≡ keeping self.old }
        ensures count { faults self.new ≡ faults_after result (faults self.old) };

    /// The first head of the package of a set's bugs, in node order, at which they are still found;
    /// `None` where there is none.
    /// It is asked of an image of the desk, which has a member.
    fn open_head(&mut self, image: &SetImage) -> Result<Option<Node>, StoreFault>
        requires member { HasMember image.now }
        requires set { is_kept self.old → is_honest self.old → IsSetOf (desk self.old) image.now }
        ensures answer { Asks is_kept is_honest leaves self.old self.new
            (Answers (desk self.old) (desk self.new) result (IsOpenHead (desk self.old) image.now)) }
        ensures stays { keeping self.new ≡ keeping self.old }
        ensures count { faults self.new ≡ faults_after result (faults self.old) };

    /// The numbers of all bugs that wait on the bug of this number, ascending: those that have it
    /// among their blockers.
    /// Archived bugs are among them, and each bug of a set that waits.
    /// This is this project's own rule.
    /// Its errors are the store's faults, and `Memory` where there is none for the numbers.
    fn waiting_on(&mut self, number: u64) -> Result<Numbers, StoreFault>
        ensures answer { Asks is_kept is_honest leaves self.old self.new
            (Answers (desk self.old) (desk self.new) result (AreWaitingOn (desk self.old) number)) }
        ensures stays { keeping self.new ≡ keeping self.old }
        ensures count { faults self.new ≡ faults_after result (faults self.old) };

    /// The bugs of a package, and those that affect it, that are not archived and are found at a
    /// node, by severity, from critical to wishlist, and then by number; each bug of a set stands
    /// by itself.
    /// The node's source may be another package.
    /// This is this project's own rule.
    /// Its errors are the store's faults, and `Memory` where there is none for the rows.
    fn listed(&mut self, package: &str, node: &Node) -> Result<Sequence<ListRow>, StoreFault>
        ensures answer { Asks is_kept is_honest leaves self.old self.new
            (Answers (desk self.old) (desk self.new) result (AreListed (desk self.old) «package».now node.now)) }
        ensures stays { keeping self.new ≡ keeping self.old }
        ensures count { faults self.new ≡ faults_after result (faults self.old) };

    /// Carries a change out, in one step.
    /// Of the change it asks that each image has a member, and, of kept tables over an honest disk,
    /// that no bug is in two images, and that it covers whole sets and leaves a sound desk.
    fn apply(&mut self, change: &Change) -> Result<(), StoreFault>
        requires apart { is_kept self.old → is_honest self.old → AreApart change.now.images }
        requires members { Each HasMember change.now.images }
        requires fits { is_kept self.old → is_honest self.old → FitsDesk (desk self.old) change.now }
        ensures answer { Holds is_kept is_honest self.old self.new (Applies (desk self.old) (desk self.new) result change.now) }
        ensures stays { Holds is_kept is_honest self.old self.new (keeping self.new ≡ keeping self.old) }
        ensures crash { Holds is_kept is_honest self.old self.new
            (LeavesAfter leaves self.old self.new (put (desk self.old) change.now, keeping self.old) result) }
        ensures count { faults self.new ≡ faults_after result (faults self.old) };

    /// Takes a branch, a list of 1 to 200 nodes of which each is based on the next.
    /// The inner answer is why the branch is refused, never for being out of memory; then, and
    /// after a fault, all is as before.
    /// Bugs and the next number stay.
    fn branch(&mut self, nodes: &[Node]) -> Result<Result<(), BranchFault>, StoreFault>
        ensures answer { Holds is_kept is_honest self.old self.new (Branches (desk self.old) (desk self.new) result nodes.now) }
        ensures refusal { IfOk result IsRefusal }
        ensures stays { Holds is_kept is_honest self.old self.new (keeping self.new ≡ keeping self.old) }
        ensures crash { Holds is_kept is_honest self.old self.new
            (LeavesBranched leaves self.old self.new (after_branch (desk self.old) nodes.now, keeping self.old) result) }
        ensures count { faults self.new ≡ faults_after result (faults self.old) };

    /// What is kept of the message of this id; `None` where the id is not known.
    fn kept(&mut self, id: &str) -> Result<Option<Kept>, StoreFault>
        ensures answer { Asks is_kept is_honest leaves self.old self.new
            (Answers (desk self.old) (desk self.new) result (λ kept. kept ≡ keeping self.old id.now)) }
        ensures stays { keeping self.new ≡ keeping self.old }
        ensures count { faults self.new ≡ faults_after result (faults self.old) };

    /// In one step, keeps an outcome of a line of the message of this id, behind those that are
    /// kept of it, and carries the line's change out, if there is one.
    /// Of kept tables over an honest disk it asks what `apply` asks of a change.
    /// Where the tables were kept at some earlier moment, as when the message began, and the disk
    /// was honest since, it asks that the outcome is good, and that it and the change are what
    /// comes of the message's first line that has an outcome and has none kept; and what it says
    /// then holds since that moment.
    fn keep(
        &mut self,
        id: &str,
        from: &str,
        message: &str,
        outcome: &Outcome,
        change: Option<&Change>,
    ) -> Result<(), StoreFault>
        requires id { IsId id.now }
        requires sender { IsText from.now }
        requires members { IfGiven (λ (c : Change). Each HasMember c.images) (option_copied change) }
        requires apart { is_kept self.old → is_honest self.old
            → IfGiven (λ (c : Change). AreApart c.images) (option_copied change) }
        requires fits { is_kept self.old → is_honest self.old → IfGiven (FitsDesk (desk self.old)) (option_copied change) }
        requires next { Since is_kept is_honest self.old
            (MayBeKept id.now from.now message.now (keeping self.old) (desk self.old) outcome.now (option_copied change)) }
        ensures answer { (earlier : Self) → Holds is_kept is_honest earlier self.old
            (MayBeKept id.now from.now message.now (keeping self.old) (desk self.old) outcome.now (option_copied change.entry))
            → Holds is_kept is_honest earlier self.new
            (Keeps id.now from.now message.now outcome.now (option_copied change.entry) (desk self.old) (keeping self.old) result
            (desk self.new) (keeping self.new)) }
        ensures crash { (earlier : Self) → Holds is_kept is_honest earlier self.old
            (MayBeKept id.now from.now message.now (keeping self.old) (desk self.old) outcome.now (option_copied change.entry))
            → Holds is_kept is_honest earlier self.new
            (LeavesAfter leaves self.old self.new (
              with_change (option_copied change.entry) (desk self.old),
              kept_also id.now from.now message.now outcome.now (keeping self.old),
            ) result) }
        ensures honest { is_honest self.new → is_honest self.old }
        ensures count { faults self.new ≡ faults_after result (faults self.old) };

    /// This text, where the store has one whose memory it can share.
    /// It takes no memory, and no answer of the store depends on it.
    fn shared_text(&self, text: &str) -> Option<Text>
        ensures { IfSome result (λ shared. shared ≡ text.now) }
    {
        None
    }

    /// How often the store has answered `Device`, `Full` or `Foreign` in all, up to `u64::MAX`.
    fn faults(&self) -> u64
        ensures { result ≡ total (faults self.now) };

    /// A desk that is kept is sound.
    ghost sound: { (s : Self) → is_kept s → IsSound (desk s) };

    /// What is kept of a message is right.
    ghost good: { (s : Self) → is_kept s → AreGoodKept (keeping s) };

    /// A holding that a crash leaves alone it leaves, or another.
    ghost either: { (s : Self) (a b : Holding) → leaves s a a → leaves s a b };
}
