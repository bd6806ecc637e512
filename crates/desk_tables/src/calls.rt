//! Transactions over a connection, one for each call.

ghost use Rattle.std.specs.Prelude.{◌≡◌};
ghost use Rattle.std.specs.Option.{option_copied};
ghost use Rattle.sqlite.specs.Held.{state};
ghost use Rattle.version_nodes.specs.Trees.{IsForest};
ghost use Rattle.table_nodes.specs.Grown.{IsGrown, unknown_of, roots_of, changed_of};
ghost use Rattle.table_content.specs.Branches.{with_nodes};
ghost use Rattle.table_content.specs.Changes.{FitsContent, changed};
ghost use Rattle.table_content.specs.KeptOutcomes.{MayBePut, kept_after};
ghost use Rattle.table_content.specs.Kept.{IsKeptContent};
ghost use Rattle.table_writes.specs.Needs.{HasTree, HasTreeIfAny, IsKnownIn, IsNextPlace};
ghost use Rattle.table_opening.specs.Idle.{IsIdle};
ghost use Rattle.desk_tables.specs.Transactions.{IsAsked, IsChanged, IsTaken};

use crate::asking::Question;
use base_faults::StoreFault;
use bug_record::{Change, Outcome, SetImage};
use sqlite::{Alter, Connection};
use std::alloc::Global;
use table_nodes::{OpenNodes, branches_grow, changed_nodes, open_nodes};
use table_opening::finish;
use table_writes::{put_branch, put_change, put_kept};
use version_marks::Family;
use version_nodes::{BranchFault, Node};

// Asks a question in a transaction of its own, which is rolled back.
pub(crate) fn ask_within<S: Alter, Q: Question>(
    conn: &mut Connection<S>,
    question: &Q,
) -> Result<Q::Answer, StoreFault>
    requires idle { IsIdle conn.old }
    ensures idle { IsIdle conn.new }
    ensures asked { IsAsked (state S.Store conn.old) (state S.Store conn.new) result
        (Q.fits question.now) (Q.right question.now) }
{
    let mut tx = conn.transaction();
    let answer = question.ask(&mut tx);
    tx.rollback();
    answer
}

// Keeps an outcome at the place that comes next, and carries its change out, if there is one; the
// tree may be missing where no mark changes, and the image of a set may be known as it is before.
pub(crate) fn keep_line<S: Alter>(
    alloc: Global,
    conn: &mut Connection<S>,
    family: Option<&Family>,
    id: &str,
    from: &str,
    message: &str,
    place: u64,
    outcome: &Outcome,
    change: Option<&Change>,
    before: Option<&SetImage>,
) -> Result<(), StoreFault>
    requires idle { IsIdle conn.old }
    ensures idle { IsIdle conn.new }
    ensures changed { IsChanged (state S.Store conn.old) (state S.Store conn.new) result
        (λ c. IsKeptContent c
        × MayBePut id.now from.now message.now outcome.now (option_copied change.entry) c
        × HasTreeIfAny (option_copied family.entry) c (option_copied change.entry)
        × IsKnownIn (option_copied before.entry) c × IsNextPlace id.now place c)
        (λ c. kept_after id.now from.now message.now outcome.now (option_copied change.entry) c) }
{
    let mut tx = conn.transaction();
    let done = put_kept(
        alloc, &mut tx, family, id, from, message, place, outcome, change, before,
    );
    finish(tx, done)
}

// Carries a change out; the tree may be missing where no mark changes, and the image of a set may
// be known as it is before.
pub(crate) fn change_sets<S: Alter>(
    alloc: Global,
    conn: &mut Connection<S>,
    family: Option<&Family>,
    change: &Change,
    before: Option<&SetImage>,
) -> Result<(), StoreFault>
    requires idle { IsIdle conn.old }
    ensures idle { IsIdle conn.new }
    ensures changed { IsChanged (state S.Store conn.old) (state S.Store conn.new) result
        (λ c. IsKeptContent c × FitsContent c change.now
        × HasTree (option_copied family.entry) c change.now
        × IsKnownIn (option_copied before.entry) c)
        (λ c. changed c change.now) }
{
    let mut tx = conn.transaction();
    let done = put_change(alloc, &mut tx, family, change, before);
    finish(tx, done)
}

// The tables follow a branch that was taken, before which these nodes were open to change.
fn put_open<S: Alter>(
    alloc: Global,
    conn: &mut Connection<S>,
    family: &Family,
    before: OpenNodes,
) -> Result<(), StoreFault>
    requires idle { IsIdle conn.old }
    ensures idle { IsIdle conn.new }
    ensures changed { IsChanged (state S.Store conn.old) (state S.Store conn.new) result
        (λ c. IsKeptContent c × IsGrown c.nodes family.now
        (changed_of family.now before.unknown.items before.roots.items))
        (λ c. with_nodes family.now c) }
{
    let changed = changed_nodes(family.tree(), before)?;
    let mut tx = conn.transaction();
    let done = put_branch(alloc, &mut tx, family, changed.as_slice());
    finish(tx, done)
}

// Takes a branch into the tree, before which these nodes are open to change, and into the tables.
fn take_open<S: Alter>(
    alloc: Global,
    conn: &mut Connection<S>,
    family: &mut Family,
    nodes: &[Node],
    before: OpenNodes,
) -> Result<Result<(), BranchFault>, StoreFault>
    requires idle { IsIdle conn.old }
    requires unknown { before.unknown.items ≡ unknown_of family.old nodes.now }
    requires roots { before.roots.items ≡ roots_of family.old nodes.now }
    requires forest { IsForest family.old }
    ensures idle { IsIdle conn.new }
    ensures taken { IsTaken family.old family.new nodes.now (state S.Store conn.old)
        (state S.Store conn.new) result }
    ensures forest { IsForest family.new }
{
    branches_grow();
    match family.take_branch(nodes) {
        Ok(()) => {
            put_open(alloc, conn, family, before)?;
            Ok(Ok(()))
        }
        Err(BranchFault::Memory) => Err(StoreFault::Memory),
        Err(refusal) => Ok(Err(refusal)),
    }
}

// Takes a branch into the tree and into the tables; after a fault the tree may be another one.
pub(crate) fn take_nodes<S: Alter>(
    alloc: Global,
    conn: &mut Connection<S>,
    family: &mut Family,
    nodes: &[Node],
) -> Result<Result<(), BranchFault>, StoreFault>
    requires idle { IsIdle conn.old }
    ensures idle { IsIdle conn.new }
    ensures taken { IsTaken family.old family.new nodes.now (state S.Store conn.old)
        (state S.Store conn.new) result }
    ensures forest { IsForest family.new }
{
    let before = open_nodes(alloc, family.tree(), nodes)?;
    take_open(alloc, conn, family, nodes, before)
}
