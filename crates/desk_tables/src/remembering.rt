//! What a desk in tables knows of sets, of messages and of the next number, so that it need not
//! read it again.

ghost use Rattle.std.specs.Prelude.{◌≡◌, None};
ghost use Rattle.std.specs.Option.{option_copied};
ghost use Rattle.sqlite.specs.State.{Survives};
ghost use Rattle.store_contract.specs.Store.{IsImageOf, IsNext};
ghost use Rattle.table_writes.specs.Needs.{IsNextPlace};
ghost use Rattle.desk_tables.specs.Kept.{next_after};
ghost use Rattle.desk_tables.specs.Desk.{state_of, content_shown, desk_of, faults_of, IsAnswered, HasItsCause};

use crate::desk::TableDesk;
use crate::questions::{Next, NextPlace, SetOf};
use base_faults::StoreFault;
use bug_record::{Change, SetImage};
use sqlite::Alter;

// The next number that is known after the change of a line, if there is one.
pub(crate) fn next_after(change: Option<&Change>, known: Option<u64>) -> Option<u64>
    ensures { result ≡ next_after (option_copied change.entry) known }
{
    match change {
        Some(change) => Some(change.next),
        None => known,
    }
}

impl<S: Alter> TableDesk<S> {
    // Reads the set of a bug, and learns it.
    fn read_set(&mut self, number: u64) -> Result<Option<SetImage>, StoreFault>
        ensures answer { IsAnswered self.old self.new result (IsImageOf (desk_of self.old) number) }
        ensures cause { HasItsCause self.old self.new result }
        ensures last { self.new.last.value ≡ self.old.last.value }
        ensures survives { Survives (state_of self.old) (state_of self.new) (λ _. ⊥) }
        ensures counts { faults_of self.new ≡ faults_of self.old }
    {
        let alloc = self.alloc;
        match self.ask(&SetOf { alloc, number })? {
            Some(found) => {
                self.known.learn(alloc, found.key, &found.image);
                Ok(Some(found.image))
            }
            None => Ok(None),
        }
    }

    // The image of the set of a bug, which is read where it is not known.
    // A store that has failed is asked, so that it is not answered for.
    pub(crate) fn find_set(&mut self, number: u64) -> Result<Option<SetImage>, StoreFault>
        ensures answer { IsAnswered self.old self.new result (IsImageOf (desk_of self.old) number) }
        ensures cause { HasItsCause self.old self.new result }
        ensures last { self.new.last.value ≡ self.old.last.value }
        ensures survives { Survives (state_of self.old) (state_of self.new) (λ _. ⊥) }
        ensures counts { faults_of self.new ≡ faults_of self.old }
    {
        if self.counts.total() != 0 {
            return self.read_set(number);
        }
        match self.known.recall(number) {
            Some(image) => Ok(Some(image)),
            None => self.read_set(number),
        }
    }

    // The place that comes next of a message, which is asked where it is not known.
    pub(crate) fn find_place(&mut self, id: &str) -> Result<u64, StoreFault>
        ensures answer { IsAnswered self.old self.new result
            (λ place. IsNextPlace id.now place (content_shown self.old)) }
        ensures cause { HasItsCause self.old self.new result }
        ensures last { self.new.last.value ≡ self.old.last.value }
        ensures survives { Survives (state_of self.old) (state_of self.new) (λ _. ⊥) }
        ensures counts { faults_of self.new ≡ faults_of self.old }
    {
        match self.place.of(id) {
            Some(place) => Ok(place),
            None => self.ask(&NextPlace { id }),
        }
    }

    // Reads the next number, which no call has read yet, and notes it.
    fn read_next(&mut self) -> Result<u64, StoreFault>
        requires unknown { self.old.next ≡ None }
        ensures answer { IsAnswered self.old self.new result (IsNext (desk_of self.old)) }
        ensures cause { HasItsCause self.old self.new result }
        ensures last { self.new.last.value ≡ self.old.last.value }
        ensures survives { Survives (state_of self.old) (state_of self.new) (λ _. ⊥) }
        ensures counts { faults_of self.new ≡ faults_of self.old }
    {
        let next = self.ask(&Next)?;
        self.next = Some(next);
        Ok(next)
    }

    // The next number, which is read where no call has read it yet.
    // A store that has failed is asked, so that it is not answered for.
    pub(crate) fn find_next(&mut self) -> Result<u64, StoreFault>
        ensures answer { IsAnswered self.old self.new result (IsNext (desk_of self.old)) }
        ensures cause { HasItsCause self.old self.new result }
        ensures last { self.new.last.value ≡ self.old.last.value }
        ensures survives { Survives (state_of self.old) (state_of self.new) (λ _. ⊥) }
        ensures counts { faults_of self.new ≡ faults_of self.old }
    {
        match self.next {
            Some(_) if self.counts.total() != 0 => self.ask(&Next),
            Some(next) => Ok(next),
            None => self.read_next(),
        }
    }
}
