//! The questions of what the tables of a desk say.

ghost use Rattle.std.specs.Prelude.{◌≡◌};
ghost use Rattle.table_content.specs.Changes.{all_stay};
ghost use Rattle.table_content.specs.Kept.{IsKeptContent};
ghost use Rattle.table_content.specs.View.{desk_in, keeping_in};
ghost use Rattle.table_reads.specs.Asked.{IsAskedFor};
ghost use Rattle.table_reads.specs.FoundSets.{IsSetFound};
ghost use Rattle.store_contract.specs.Store.{IsNext, AreWaitingOn, AreListed, IsOpenHead};
ghost use Rattle.table_writes.specs.Needs.{IsNextPlace};

use crate::asking::Question;
use base_faults::StoreFault;
use bug_record::{Change, ListRow, Numbers, Sequence, SetImage};
use sqlite::{Alter, Transaction};
use std::alloc::Global;
use store_contract::Kept;
use table_nodes::{read_family, read_next, read_next_place};
use table_reads::{FoundSet, read_listed, read_open_head, read_set_of, read_waiting_on};
use table_writes::{read_kept, read_marks_stay};
use version_marks::Family;
use version_nodes::Node;

/// The set that the bug is in, if there is such a bug; none has a number that is no u32.
#[derive(Drop)]
pub(crate) struct SetOf {
    pub(crate) alloc: Global,
    pub(crate) number: u64,
}

impl Question for SetOf {
    type Answer = Option<FoundSet>;

    ghost fits = { λ _. IsKeptContent };

    ghost right = { λ q c found. IsSetFound c q.number found };

    fn ask<S: Alter>(&self, tx: &mut Transaction<'_, S>) -> Result<Option<FoundSet>, StoreFault> {
        match u32::try_from(self.number) {
            Ok(number) => read_set_of(self.alloc, tx, number),
            Err(_) => Ok(None),
        }
    }
}

/// The next number.
#[derive(Drop)]
pub(crate) struct Next;

impl Question for Next {
    type Answer = u64;

    ghost fits = { λ _. IsKeptContent };

    ghost right = { λ _ c next. IsNext (desk_in c) next };

    fn ask<S: Alter>(&self, tx: &mut Transaction<'_, S>) -> Result<u64, StoreFault> {
        read_next(tx)
    }
}

/// The numbers of the bugs whose set waits on the bug; none waits on a number that is no u32.
#[derive(Drop)]
pub(crate) struct WaitingOn {
    pub(crate) alloc: Global,
    pub(crate) number: u64,
}

impl Question for WaitingOn {
    type Answer = Numbers;

    ghost fits = { λ _. IsKeptContent };

    ghost right = { λ q c numbers. AreWaitingOn (desk_in c) q.number numbers };

    fn ask<S: Alter>(&self, tx: &mut Transaction<'_, S>) -> Result<Numbers, StoreFault> {
        match u32::try_from(self.number) {
            Ok(number) => read_waiting_on(self.alloc, tx, number),
            Err(_) => Ok(Sequence::new(self.alloc)),
        }
    }
}

/// The bugs that are listed for a package at a node.
#[derive(Drop)]
pub(crate) struct Listed<'a> {
    pub(crate) alloc: Global,
    pub(crate) package: &'a str,
    pub(crate) node: &'a Node,
}

impl Question for Listed<'_> {
    type Answer = Sequence<ListRow>;

    ghost fits = { λ _. IsKeptContent };

    ghost right = { λ q c rows. AreListed (desk_in c) q.package.now q.node.now rows };

    fn ask<S: Alter>(&self, tx: &mut Transaction<'_, S>) -> Result<Sequence<ListRow>, StoreFault> {
        read_listed(self.alloc, tx, self.package, self.node)
    }
}

/// The first head of the package of a set's bugs at which they are still found.
#[derive(Drop)]
pub(crate) struct OpenHead<'a> {
    pub(crate) family: &'a Family,
    pub(crate) image: &'a SetImage,
}

impl Question for OpenHead<'_> {
    type Answer = Option<Node>;

    ghost fits = { λ q. IsAskedFor q.family.now q.image.now };

    ghost right = { λ q c head. IsOpenHead (desk_in c) q.image.now head };

    fn ask<S: Alter>(&self, tx: &mut Transaction<'_, S>) -> Result<Option<Node>, StoreFault> {
        read_open_head(tx, self.family, self.image)
    }
}

/// The tree.
#[derive(Drop)]
pub(crate) struct Tree {
    pub(crate) alloc: Global,
}

impl Question for Tree {
    type Answer = Family;

    ghost fits = { λ _. IsKeptContent };

    ghost right = { λ _ c family. family ≡ c.nodes };

    fn ask<S: Alter>(&self, tx: &mut Transaction<'_, S>) -> Result<Family, StoreFault> {
        read_family(self.alloc, tx)
    }
}

/// What is kept of the message of an id, if it is known.
#[derive(Drop)]
pub(crate) struct KeptOf<'a> {
    pub(crate) alloc: Global,
    pub(crate) id: &'a str,
}

impl Question for KeptOf<'_> {
    type Answer = Option<Kept>;

    ghost fits = { λ _. IsKeptContent };

    ghost right = { λ q c kept. kept ≡ keeping_in c q.id.now };

    fn ask<S: Alter>(&self, tx: &mut Transaction<'_, S>) -> Result<Option<Kept>, StoreFault> {
        read_kept(self.alloc, tx, self.id)
    }
}

/// The place that comes next of the message of an id.
#[derive(Drop)]
pub(crate) struct NextPlace<'a> {
    pub(crate) id: &'a str,
}

impl Question for NextPlace<'_> {
    type Answer = u64;

    ghost fits = { λ _. IsKeptContent };

    ghost right = { λ q c place. IsNextPlace q.id.now place c };

    fn ask<S: Alter>(&self, tx: &mut Transaction<'_, S>) -> Result<u64, StoreFault> {
        read_next_place(tx, self.id)
    }
}

/// Whether the marks of a change's images stand already: then it needs no tree.
#[derive(Drop)]
pub(crate) struct MarksStay<'a> {
    pub(crate) alloc: Global,
    pub(crate) change: &'a Change,
}

impl Question for MarksStay<'_> {
    type Answer = bool;

    ghost fits = { λ _. IsKeptContent };

    ghost right = { λ q c stay. stay ≡ all_stay c q.change.now.images };

    fn ask<S: Alter>(&self, tx: &mut Transaction<'_, S>) -> Result<bool, StoreFault> {
        let images = self.change.images.as_slice();
        if images.is_empty() {
            return Ok(true);
        }
        read_marks_stay(self.alloc, tx, images)
    }
}
