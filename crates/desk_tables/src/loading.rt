//! What a desk reads of its tables, and the tree, which it reads once.

ghost use Rattle.std.specs.Prelude.{◌≡◌, OnOk, IfOk, is_some, true};
ghost use Rattle.std.specs.Option.{option_copied};
ghost use Rattle.sqlite.specs.State.{Survives};
ghost use Rattle.bug_record.specs.Images.{HasMember, IsSetOf};
ghost use Rattle.table_content.specs.Changes.{all_stay};
ghost use Rattle.store_contract.specs.Store.{Asks, IsOpenHead};
ghost use Rattle.table_writes.specs.Needs.{HasTreeIfAny};
ghost use Rattle.desk_tables.specs.Desk.{state_of, content_shown, desk_of, faults_of};
ghost use Rattle.desk_tables.specs.Desk.{HasHonestDisk, HasKeptTables, LeavesTables, IsAnswered, HasItsCause};

use crate::asking::Question;
use crate::calls::ask_within;
use crate::desk::TableDesk;
use crate::questions::{MarksStay, OpenHead, Tree};
use base_faults::StoreFault;
use bug_record::{Change, SetImage};
use sqlite::Alter;
use table_writes::known_marks_stay;
use version_nodes::Node;

impl<S: Alter> TableDesk<S> {
    // Asks a question of what the tables say, which a desk keeps.
    pub(crate) fn ask<Q: Question>(&mut self, question: &Q) -> Result<Q::Answer, StoreFault>
        requires fits { HasKeptTables self.old → HasHonestDisk self.old →
            Q.fits question.now (content_shown self.old) }
        ensures answer { IsAnswered self.old self.new result
            (Q.right question.now (content_shown self.old)) }
        ensures cause { HasItsCause self.old self.new result }
        ensures last { self.new.last.value ≡ self.old.last.value }
        ensures family { self.new.family ≡ self.old.family }
        ensures known { self.new.known ≡ self.old.known }
        ensures next { self.new.next ≡ self.old.next }
        ensures survives { Survives (state_of self.old) (state_of self.new) (λ _. ⊥) }
        ensures counts { faults_of self.new ≡ faults_of self.old }
    {
        ask_within(&mut self.conn, question)
    }

    // Reads the tree, where no call has read it yet.
    pub(crate) fn load(&mut self) -> Result<(), StoreFault>
        ensures answer { Asks HasKeptTables HasHonestDisk LeavesTables self.old self.new
            (self.new.last.value ≡ self.old.last.value) }
        ensures cause { HasItsCause self.old self.new result }
        ensures some { OnOk result (is_some self.new.family ≡ true) }
        ensures last { self.new.last.value ≡ self.old.last.value }
        ensures survives { Survives (state_of self.old) (state_of self.new) (λ _. ⊥) }
        ensures counts { faults_of self.new ≡ faults_of self.old }
    {
        if self.family.is_some() {
            return Ok(());
        }
        let family = self.ask(&Tree { alloc: self.alloc })?;
        self.family = Some(family);
        Ok(())
    }

    // Whether the marks of a change's images stand already, which is asked where the image that is
    // known does not say it.
    fn find_stay(&mut self, change: &Change) -> Result<bool, StoreFault>
        ensures answer { Asks HasKeptTables HasHonestDisk LeavesTables self.old self.new
            (self.new.last.value ≡ self.old.last.value) }
        ensures cause { HasItsCause self.old self.new result }
        ensures stay { HasKeptTables self.new → HasHonestDisk self.new →
            IfOk result (λ stay. stay ≡ all_stay (content_shown self.new) change.now.images) }
        ensures last { self.new.last.value ≡ self.old.last.value }
        ensures family { self.new.family ≡ self.old.family }
        ensures survives { Survives (state_of self.old) (state_of self.new) (λ _. ⊥) }
        ensures counts { faults_of self.new ≡ faults_of self.old }
    {
        let before = self.known.recall_for(Some(change));
        if let Some(stay) = known_marks_stay(change, before.as_ref()) {
            return Ok(stay);
        }
        let alloc = self.alloc;
        self.ask(&MarksStay { alloc, change })
    }

    // Reads the tree, where no call has read it yet, there is a change, and a mark changes.
    pub(crate) fn load_for(&mut self, change: Option<&Change>) -> Result<(), StoreFault>
        ensures answer { Asks HasKeptTables HasHonestDisk LeavesTables self.old self.new
            (self.new.last.value ≡ self.old.last.value) }
        ensures cause { HasItsCause self.old self.new result }
        ensures tree { HasKeptTables self.new → HasHonestDisk self.new →
            OnOk result (HasTreeIfAny self.new.family (content_shown self.new)
            (option_copied change.entry)) }
        ensures last { self.new.last.value ≡ self.old.last.value }
        ensures survives { Survives (state_of self.old) (state_of self.new) (λ _. ⊥) }
        ensures counts { faults_of self.new ≡ faults_of self.old }
    {
        let Some(change) = change else {
            return Ok(());
        };
        if self.family.is_some() {
            return Ok(());
        }
        let stay = self.find_stay(change)?;
        if stay {
            return Ok(());
        }
        self.load()
    }

    // The first head of the package of a set's bugs at which they are still found, in the tree that
    // was read.
    fn ask_head(&mut self, image: &SetImage) -> Result<Option<Node>, StoreFault>
        requires loaded { is_some self.old.family ≡ true }
        requires member { HasMember image.now }
        requires set { HasKeptTables self.old → HasHonestDisk self.old →
            IsSetOf (desk_of self.old) image.now }
        ensures answer { IsAnswered self.old self.new result
            (IsOpenHead (desk_of self.old) image.now) }
        ensures cause { HasItsCause self.old self.new result }
        ensures last { self.new.last.value ≡ self.old.last.value }
        ensures survives { Survives (state_of self.old) (state_of self.new) (λ _. ⊥) }
        ensures counts { faults_of self.new ≡ faults_of self.old }
    {
        match &self.family {
            Some(family) => ask_within(&mut self.conn, &OpenHead { family, image }),
            None => Err(StoreFault::Foreign),
        }
    }

    // Reads the tree, where that is still to be done, and asks for an open head in it.
    pub(crate) fn load_and_ask_head(&mut self, image: &SetImage) -> Result<Option<Node>, StoreFault>
        requires member { HasMember image.now }
        requires set { HasKeptTables self.old → HasHonestDisk self.old →
            IsSetOf (desk_of self.old) image.now }
        ensures answer { IsAnswered self.old self.new result
            (IsOpenHead (desk_of self.old) image.now) }
        ensures cause { HasItsCause self.old self.new result }
        ensures last { self.new.last.value ≡ self.old.last.value }
        ensures survives { Survives (state_of self.old) (state_of self.new) (λ _. ⊥) }
        ensures counts { faults_of self.new ≡ faults_of self.old }
    {
        self.load()?;
        self.ask_head(image)
    }
}
