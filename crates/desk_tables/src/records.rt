//! The desk over a connection as a store.
//!
//! A crash at any moment of a question leaves what it would have left before.

ghost use Rattle.std.specs.Prelude.{◌≡◌, IfOk, OnOk, IsTrue, ⊤};
ghost use Rattle.std.specs.Option.{option_copied};
ghost use Rattle.sqlite.specs.State.{Survives};
ghost use Rattle.bug_record.specs.Images.{AreApart, HasMember, IsSetOf, FitsDesk};
ghost use Rattle.bug_record.specs.Sets.{Each};
ghost use Rattle.base_words.specs.Texts.{IsText, IfGiven};
ghost use Rattle.table_content.specs.Changes.{changed};
ghost use Rattle.table_content.specs.KeptOutcomes.{kept_after};
ghost use Rattle.store_contract.specs.Store.{Holds, Since, Applies, Branches, IsRefusal, faults_after, total};
ghost use Rattle.store_contract.specs.Store.{IsImageOf, IsNext, IsOpenHead, AreWaitingOn, AreListed};
ghost use Rattle.store_contract.proofs.CrashLemmas.{or_other};
ghost use Rattle.base_words.specs.Ids.{IsId};
ghost use Rattle.desk_tables.specs.Desk.{state_of, content_shown, desk_of, keeping_of, faults_of, MayKeep, KeepsOf};
ghost use Rattle.desk_tables.specs.Desk.{HasHonestDisk, HasKeptTables, LeavesTables, IsAnswered, HasItsCause};
ghost use Rattle.table_opening.specs.Shown.{AreTablesOf};
ghost use Rattle.desk_tables.specs.Crashes.{AreTablesAfter};
ghost use Rattle.desk_tables.specs.declared.desk.TableDesk.{TableDesk as SeenDesk};

use crate::desk::TableDesk;
use crate::questions::{KeptOf, Listed, WaitingOn};
use base_faults::StoreFault;
use bug_record::{Change, ListRow, Numbers, Outcome, Sequence, SetImage};
use sqlite::Alter;
use store_contract::{Kept, Records};
use version_nodes::{BranchFault, Node};

impl<S: Alter> Records for TableDesk<S> {
    ghost desk = { desk_of };

    ghost keeping = { keeping_of };

    ghost is_kept = { HasKeptTables };

    ghost is_honest = { HasHonestDisk };

    ghost leaves = { LeavesTables };

    ghost faults = { faults_of };

    ghost next_gives = { λ old new answer. IsAnswered old new answer (IsNext (desk_of old))
        × (faults_of new ≡ faults_after answer (faults_of old)) };

    /// The image of the set that the bug is in; `None` exactly where there is no bug of this
    /// number.
    fn set_of(&mut self, number: u64) -> Result<Option<SetImage>, StoreFault>
        ensures answer { IsAnswered self.old self.new result (IsImageOf (desk_of self.old) number) }
        ensures cause { HasItsCause self.old self.new result }
        ensures stays { keeping_of self.new ≡ keeping_of self.old }
        ensures count { faults_of self.new ≡ faults_after result (faults_of self.old) }
        ensures crash { Survives (state_of self.old) (state_of self.new) (λ _. ⊥) }
    {
        let answer = self.find_set(number);
        self.counts.note(answer)
    }

    /// The number of the next bug: 1,000,000,000 where no number is left.
    fn next(&mut self) -> Result<u64, StoreFault>
        ensures answer { IsAnswered self.old self.new result (IsNext (desk_of self.old)) }
        ensures cause { HasItsCause self.old self.new result }
        ensures stays { keeping_of self.new ≡ keeping_of self.old }
        ensures count { faults_of self.new ≡ faults_after result (faults_of self.old) }
        ensures crash { Survives (state_of self.old) (state_of self.new) (λ _. ⊥) }
    {
        let answer = self.find_next();
        self.counts.note(answer)
    }

    /// The numbers of all bugs that wait on the bug of this number, ascending: those that have it
    /// among their blockers.
    /// Its errors are the store's faults, and `Memory` where there is none for the numbers.
    fn waiting_on(&mut self, number: u64) -> Result<Numbers, StoreFault>
        ensures answer { IsAnswered self.old self.new result
            (AreWaitingOn (desk_of self.old) number) }
        ensures cause { HasItsCause self.old self.new result }
        ensures stays { keeping_of self.new ≡ keeping_of self.old }
        ensures count { faults_of self.new ≡ faults_after result (faults_of self.old) }
        ensures crash { Survives (state_of self.old) (state_of self.new) (λ _. ⊥) }
    {
        let alloc = self.alloc;
        let answer = self.ask(&WaitingOn { alloc, number });
        self.counts.note(answer)
    }

    /// The bugs of a package, and those that affect it, that are not archived and are found at a
    /// node, by severity, from critical to wishlist, and then by number; each bug of a set stands
    /// by itself.
    /// It looks at the marks of each such set and one row of nearest marks, and reads no tree.
    /// Its errors are the store's faults, and `Memory` where there is none for the rows.
    fn listed(&mut self, package: &str, node: &Node) -> Result<Sequence<ListRow>, StoreFault>
        ensures answer { IsAnswered self.old self.new result
            (AreListed (desk_of self.old) «package».now node.now) }
        ensures cause { HasItsCause self.old self.new result }
        ensures stays { keeping_of self.new ≡ keeping_of self.old }
        ensures count { faults_of self.new ≡ faults_after result (faults_of self.old) }
        ensures crash { Survives (state_of self.old) (state_of self.new) (λ _. ⊥) }
    {
        let question = Listed {
            alloc: self.alloc,
            package,
            node,
        };
        let answer = self.ask(&question);
        self.counts.note(answer)
    }

    /// The first head of the package of a set's bugs, in node order, at which they are still found;
    /// `None` where there is none.
    /// It is asked of an image of the desk, which has a member.
    fn open_head(&mut self, image: &SetImage) -> Result<Option<Node>, StoreFault>
        requires member { HasMember image.now }
        requires set { HasKeptTables self.old → HasHonestDisk self.old →
            IsSetOf (desk_of self.old) image.now }
        ensures answer { IsAnswered self.old self.new result
            (IsOpenHead (desk_of self.old) image.now) }
        ensures cause { HasItsCause self.old self.new result }
        ensures stays { keeping_of self.new ≡ keeping_of self.old }
        ensures count { faults_of self.new ≡ faults_after result (faults_of self.old) }
        ensures crash { Survives (state_of self.old) (state_of self.new) (λ _. ⊥) }
    {
        let answer = self.load_and_ask_head(image);
        self.counts.note(answer)
    }

    /// Carries a change out, in one step.
    /// Of the change it asks that each image has a member, and, of kept tables over an honest disk,
    /// that no bug is in two images, and that it covers whole sets and leaves a sound desk.
    /// Once it has answered `Ok` the change is committed: a crash between two calls leaves it.
    /// A crash at any moment of the call leaves what it would have left before, or the desk after
    /// the change.
    fn apply(&mut self, change: &Change) -> Result<(), StoreFault>
        requires apart { HasKeptTables self.old → HasHonestDisk self.old →
            AreApart change.now.images }
        requires members { Each HasMember change.now.images }
        requires fits { HasKeptTables self.old → HasHonestDisk self.old →
            FitsDesk (desk_of self.old) change.now }
        ensures answer { Holds HasKeptTables HasHonestDisk self.old self.new
            (Applies (desk_of self.old) (desk_of self.new) result change.now) }
        ensures cause { HasItsCause self.old self.new result }
        ensures stays { Holds HasKeptTables HasHonestDisk self.old self.new
            (keeping_of self.new ≡ keeping_of self.old) }
        ensures count { faults_of self.new ≡ faults_after result (faults_of self.old) }
        ensures serves { HasKeptTables self.old → HasHonestDisk self.new →
            OnOk result (IsTrue (state_of self.new).is_open) }
        ensures crash { HasKeptTables self.old →
            Survives (state_of self.old) (state_of self.new)
            (AreTablesOf (changed (content_shown self.old) change.now)) }
    {
        let done = self.load_and_make(change);
        self.counts.note(done)
    }

    /// Takes a branch, a list of 1 to 200 nodes of which each is based on the next.
    /// The inner answer is why the branch is refused, never for being out of memory; then, and
    /// after a fault, all is as before.
    /// Once it is taken the branch is committed: a crash between two calls leaves it.
    /// A crash at any moment of the call leaves what it would have left before, or the desk after
    /// the branch.
    fn branch(&mut self, nodes: &[Node]) -> Result<Result<(), BranchFault>, StoreFault>
        ensures answer { Holds HasKeptTables HasHonestDisk self.old self.new
            (Branches (desk_of self.old) (desk_of self.new) result nodes.now) }
        ensures refusal { IfOk result IsRefusal }
        ensures cause { HasItsCause self.old self.new result }
        ensures stays { Holds HasKeptTables HasHonestDisk self.old self.new
            (keeping_of self.new ≡ keeping_of self.old) }
        ensures count { faults_of self.new ≡ faults_after result (faults_of self.old) }
        ensures serves { HasKeptTables self.old → HasHonestDisk self.new →
            IfOk result (λ taken. OnOk taken (IsTrue (state_of self.new).is_open)) }
        ensures crash { HasKeptTables self.old →
            Survives (state_of self.old) (state_of self.new)
            (AreTablesAfter (content_shown self.old) nodes.now) }
    {
        let done = self.load_and_take(nodes);
        self.counts.note(done)
    }

    /// What is kept of the message of this id; `None` where the id is not known.
    /// Its errors are the store's faults, and `Memory` where there is none for it.
    fn kept(&mut self, id: &str) -> Result<Option<Kept>, StoreFault>
        ensures answer { IsAnswered self.old self.new result
            (λ kept. kept ≡ keeping_of self.old id.now) }
        ensures cause { HasItsCause self.old self.new result }
        ensures stays { keeping_of self.new ≡ keeping_of self.old }
        ensures count { faults_of self.new ≡ faults_after result (faults_of self.old) }
        ensures crash { Survives (state_of self.old) (state_of self.new) (λ _. ⊥) }
    {
        let alloc = self.alloc;
        let answer = self.ask(&KeptOf { alloc, id });
        self.counts.note(answer)
    }

    /// In one step, keeps an outcome of a line of the message of this id, behind those that are
    /// kept of it, and carries the line's change out, if there is one.
    /// Once it has answered `Ok` both are committed, in one transaction: a crash between two calls
    /// leaves them.
    /// A crash at any moment of the call leaves what it would have left before, or both.
    fn keep(
        &mut self,
        id: &str,
        from: &str,
        message: &str,
        outcome: &Outcome,
        change: Option<&Change>,
    ) -> Result<(), StoreFault>
        requires id { IsId id.now }
        requires sender { IsText from.now }
        requires members { IfGiven (λ (c : Change). Each HasMember c.images)
            (option_copied change) }
        requires apart { HasKeptTables self.old → HasHonestDisk self.old →
            IfGiven (λ (c : Change). AreApart c.images) (option_copied change) }
        requires fits { HasKeptTables self.old → HasHonestDisk self.old →
            IfGiven (FitsDesk (desk_of self.old)) (option_copied change) }
        requires next { Since HasKeptTables HasHonestDisk self.old
            (MayKeep self.old id.now from.now message.now outcome.now (option_copied change)) }
        ensures answer { (earlier : SeenDesk S S.Store) →
            Holds HasKeptTables HasHonestDisk earlier self.old
            (MayKeep self.old id.now from.now message.now outcome.now
            (option_copied change.entry)) → Holds HasKeptTables HasHonestDisk earlier self.new
            (KeepsOf self.old self.new id.now from.now message.now outcome.now
            (option_copied change.entry) result) }
        ensures honest { HasHonestDisk self.new → HasHonestDisk self.old }
        ensures cause { MayKeep self.old id.now from.now message.now outcome.now
            (option_copied change.entry) → HasItsCause self.old self.new result }
        ensures count { faults_of self.new ≡ faults_after result (faults_of self.old) }
        ensures serves { MayKeep self.old id.now from.now message.now outcome.now
            (option_copied change.entry) → HasKeptTables self.old → HasHonestDisk self.new →
            OnOk result (IsTrue (state_of self.new).is_open) }
        ensures crash { MayKeep self.old id.now from.now message.now outcome.now
            (option_copied change.entry) → HasKeptTables self.old →
            Survives (state_of self.old) (state_of self.new)
            (AreTablesOf (kept_after id.now from.now message.now outcome.now
            (option_copied change.entry) (content_shown self.old))) }
    {
        let done = self.load_and_keep(id, from, message, outcome, change);
        self.counts.note(done)
    }

    /// How often the store has answered `Device`, `Full` or `Foreign` in all, up to `u64::MAX`.
    fn faults(&self) -> u64
        ensures { result ≡ total (faults_of self.now) }
    {
        self.counts.total()
    }

    ghost sound = { λ d kept. kept.content.sound };

    ghost good = { λ d kept. kept.content.good };

    ghost either = { λ d a b alone db may. or_other (alone db may) };
}
