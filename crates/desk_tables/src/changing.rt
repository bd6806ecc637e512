//! How a desk changes its tables.
//!
//! After each change it notes anew what the connection shows.

ghost use Rattle.std.specs.Prelude.{◌≡◌, IfOk, is_some, true};
ghost use Rattle.std.specs.Option.{option_copied};
ghost use Rattle.base_words.specs.Texts.{IsText};
ghost use Rattle.store_contract.specs.Store.{IsRefusal};
ghost use Rattle.table_writes.specs.Needs.{HasTree, HasTreeIfAny, IsKnownIn, IsNextPlace};
ghost use Rattle.desk_tables.specs.Changing.{FitsTables, FitsTablesIfAny, MakesChange, TakesBranch, KeepsLine};
ghost use Rattle.desk_tables.specs.Changing.{LeavesMessages, ServesAfter, ServesAfterBranch};
ghost use Rattle.desk_tables.specs.Changing.{SurvivesChange, SurvivesBranch, SurvivesLine};
ghost use Rattle.desk_tables.specs.Desk.{content_shown, faults_of, HasHonestDisk, HasKeptTables, HasItsCause, MayKeep};

use crate::calls::{change_sets, keep_line, take_nodes};
use crate::desk::TableDesk;
use crate::remembering::next_after;
use base_faults::StoreFault;
use bug_record::{Change, Outcome, SetImage};
use sqlite::Alter;
use std::snapshot::Snapshot;
use version_nodes::{BranchFault, Node};

impl<S: Alter> TableDesk<S> {
    // Carries a change out over the tree that was read, or over none where no mark changes.
    fn make(&mut self, change: &Change, before: Option<&SetImage>) -> Result<(), StoreFault>
        requires tree { HasKeptTables self.old → HasHonestDisk self.old →
            HasTree self.old.family (content_shown self.old) change.now }
        requires before { HasKeptTables self.old → HasHonestDisk self.old →
            IsKnownIn (option_copied before) (content_shown self.old) }
        requires fits { FitsTables self.old change.now }
        ensures answer { MakesChange self.old self.new result change.now }
        ensures stays { LeavesMessages self.old self.new }
        ensures cause { HasItsCause self.old self.new result }
        ensures serves { ServesAfter self.old self.new result }
        ensures crash { (HasHonestDisk self.new → HasKeptTables self.old) →
            SurvivesChange self.old self.new change.now }
        ensures counts { faults_of self.new ≡ faults_of self.old }
    {
        change_sets(
            self.alloc,
            &mut self.conn,
            self.family.as_ref(),
            change,
            before,
        )?;
        self.last = Snapshot::of(&self.conn);
        self.known.follow(self.alloc, change.images.as_slice());
        self.next = Some(change.next);
        Ok(())
    }

    // Reads the tree, where that is still to be done, and carries a change out over it.
    // Of a set that is known nothing else is read.
    pub(crate) fn load_and_make(&mut self, change: &Change) -> Result<(), StoreFault>
        requires fits { FitsTables self.old change.now }
        ensures answer { MakesChange self.old self.new result change.now }
        ensures stays { LeavesMessages self.old self.new }
        ensures cause { HasItsCause self.old self.new result }
        ensures serves { ServesAfter self.old self.new result }
        ensures crash { HasKeptTables self.old → SurvivesChange self.old self.new change.now }
        ensures counts { faults_of self.new ≡ faults_of self.old }
    {
        self.load_for(Some(change))?;
        let before = self.known.recall_for(Some(change));
        self.make(change, before.as_ref())
    }

    // Keeps an outcome at the place that comes next, and carries its change out over the tree that
    // was read, if there is one.
    fn keep_outcome(
        &mut self,
        id: &str,
        from: &str,
        message: &str,
        place: u64,
        outcome: &Outcome,
        change: Option<&Change>,
        before: Option<&SetImage>,
    ) -> Result<(), StoreFault>
        requires tree { HasKeptTables self.old → HasHonestDisk self.old →
            HasTreeIfAny self.old.family (content_shown self.old) (option_copied change) }
        requires before { HasKeptTables self.old → HasHonestDisk self.old →
            IsKnownIn (option_copied before) (content_shown self.old) }
        requires place { HasKeptTables self.old → HasHonestDisk self.old →
            IsNextPlace id.now place (content_shown self.old) }
        requires sender { IsText from.now }
        requires fits { FitsTablesIfAny self.old (option_copied change) }
        ensures honest { HasHonestDisk self.new → HasHonestDisk self.old }
        ensures answer { MayKeep self.old id.now from.now message.now outcome.now
            (option_copied change.entry) → KeepsLine self.old self.new id.now from.now message.now
            outcome.now (option_copied change.entry) result }
        ensures cause { MayKeep self.old id.now from.now message.now outcome.now
            (option_copied change.entry) → HasItsCause self.old self.new result }
        ensures serves { MayKeep self.old id.now from.now message.now outcome.now
            (option_copied change.entry) → ServesAfter self.old self.new result }
        ensures crash { MayKeep self.old id.now from.now message.now outcome.now
            (option_copied change.entry) → (HasHonestDisk self.new → HasKeptTables self.old) →
            SurvivesLine self.old self.new id.now from.now message.now outcome.now
            (option_copied change.entry) }
        ensures counts { faults_of self.new ≡ faults_of self.old }
    {
        keep_line(
            self.alloc,
            &mut self.conn,
            self.family.as_ref(),
            id,
            from,
            message,
            place,
            outcome,
            change,
            before,
        )?;
        self.last = Snapshot::of(&self.conn);
        self.known.follow_line(self.alloc, change);
        self.place.follow(self.alloc, id, place);
        self.next = next_after(change, self.next);
        Ok(())
    }

    // Reads the tree, where that is still to be done, and keeps an outcome.
    pub(crate) fn load_and_keep(
        &mut self,
        id: &str,
        from: &str,
        message: &str,
        outcome: &Outcome,
        change: Option<&Change>,
    ) -> Result<(), StoreFault>
        requires sender { IsText from.now }
        requires fits { FitsTablesIfAny self.old (option_copied change) }
        ensures honest { HasHonestDisk self.new → HasHonestDisk self.old }
        ensures answer { MayKeep self.old id.now from.now message.now outcome.now
            (option_copied change.entry) → KeepsLine self.old self.new id.now from.now message.now
            outcome.now (option_copied change.entry) result }
        ensures cause { MayKeep self.old id.now from.now message.now outcome.now
            (option_copied change.entry) → HasItsCause self.old self.new result }
        ensures serves { MayKeep self.old id.now from.now message.now outcome.now
            (option_copied change.entry) → ServesAfter self.old self.new result }
        ensures crash { MayKeep self.old id.now from.now message.now outcome.now
            (option_copied change.entry) → HasKeptTables self.old →
            SurvivesLine self.old self.new id.now from.now message.now outcome.now
            (option_copied change.entry) }
        ensures counts { faults_of self.new ≡ faults_of self.old }
    {
        let place = self.find_place(id)?;
        self.load_for(change)?;
        let before = self.known.recall_for(change);
        self.keep_outcome(id, from, message, place, outcome, change, before.as_ref())
    }

    // Takes a branch into the tree that was read, and into the tables.
    // After a fault the tree is read again when it is needed.
    fn take(&mut self, nodes: &[Node]) -> Result<Result<(), BranchFault>, StoreFault>
        requires loaded { is_some self.old.family ≡ true }
        ensures answer { TakesBranch self.old self.new result nodes.now }
        ensures stays { LeavesMessages self.old self.new }
        ensures refusal { IfOk result IsRefusal }
        ensures cause { HasItsCause self.old self.new result }
        ensures serves { ServesAfterBranch self.old self.new result }
        ensures crash { (HasHonestDisk self.new → HasKeptTables self.old) →
            SurvivesBranch self.old self.new nodes.now }
        ensures counts { faults_of self.new ≡ faults_of self.old }
    {
        let Some(mut family) = self.family.take() else {
            return Err(StoreFault::Foreign);
        };
        let taken = take_nodes(self.alloc, &mut self.conn, &mut family, nodes)?;
        self.family = Some(family);
        match taken {
            Ok(()) => {
                self.last = Snapshot::of(&self.conn);
                Ok(Ok(()))
            }
            Err(refusal) => Ok(Err(refusal)),
        }
    }

    // Reads the tree, where that is still to be done, and takes a branch.
    pub(crate) fn load_and_take(
        &mut self,
        nodes: &[Node],
    ) -> Result<Result<(), BranchFault>, StoreFault>
        ensures answer { TakesBranch self.old self.new result nodes.now }
        ensures stays { LeavesMessages self.old self.new }
        ensures refusal { IfOk result IsRefusal }
        ensures cause { HasItsCause self.old self.new result }
        ensures serves { ServesAfterBranch self.old self.new result }
        ensures crash { HasKeptTables self.old → SurvivesBranch self.old self.new nodes.now }
        ensures counts { faults_of self.new ≡ faults_of self.old }
    {
        self.load()?;
        self.take(nodes)
    }
}
