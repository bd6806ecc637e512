//! Edits, played.

ghost use Rattle.std.specs.Prelude.{◌≡◌};
ghost use Rattle.sqlite.specs.Held.{state};
ghost use Rattle.table_schema.specs.Steps.{Plays, PlaysAll, Serves};

use crate::puts::{
    put_affects, put_blocker, put_fields, put_mark, put_member, put_near, put_outcome,
    put_outcome_number,
};
use base_faults::StoreFault;
use sqlite::{Alter, Transaction};
use table_content::Edit;
use table_nodes::{add_message, add_node, clear_near, clear_near_at, clear_node, read_next};
use table_schema::parameter;
use table_sets::{clear_affected, clear_blockers, clear_bug, clear_fields, clear_marks};

// Makes one edit.
fn play<S: Alter>(tx: &mut Transaction<'_, S>, edit: &Edit) -> Result<(), StoreFault>
    ensures same_reference { tx.new.conn.ghost_name ≡ tx.old.conn.ghost_name }
    ensures plays { Plays edit.now (state S.Store tx.old.conn.now) (state S.Store tx.new.conn.now) result }
    ensures serves { Serves (state S.Store tx.old.conn.now) (state S.Store tx.new.conn.now) result }
{
    match edit {
        Edit::DropFields { key } => clear_fields(tx, parameter(*key)?),
        Edit::PutFields { key, fields } => put_fields(tx, *key, fields),
        Edit::DropMember { number } => clear_bug(tx, parameter(*number)?),
        Edit::PutMember { key, member } => put_member(tx, *key, member),
        Edit::DropMarks { key } => clear_marks(tx, parameter(*key)?),
        Edit::PutMark { key, kind, node } => put_mark(tx, *key, *kind, node),
        Edit::DropBlockers { key } => clear_blockers(tx, parameter(*key)?),
        Edit::PutBlocker { key, blocker } => put_blocker(tx, *key, *blocker),
        Edit::DropAffects { key } => clear_affected(tx, parameter(*key)?),
        Edit::PutAffects { key, package } => put_affects(tx, *key, package.as_str()),
        Edit::DropNear { key } => clear_near(tx, parameter(*key)?),
        Edit::DropNearAt { key, node } => clear_near_at(tx, parameter(*key)?, node),
        Edit::PutNear { key, node, near } => put_near(tx, *key, node, near),
        Edit::DropLink { node } => clear_node(tx, node),
        Edit::PutLink { node, parent } => add_node(tx, node, parent),
        Edit::PutMessage { id, from, message } => {
            add_message(tx, id.as_str(), from.as_str(), message.as_str())
        }
        Edit::PutOutcome { id, place, outcome } => put_outcome(tx, id.as_str(), *place, outcome),
        Edit::PutOutcomeNumber { id, place, number } => {
            put_outcome_number(tx, id.as_str(), *place, *number)
        }
    }
}

/// Makes edits, one after another.
/// It fails for memory, the disk or its size alone, where no row stands in the way of one.
pub fn play_all<S: Alter>(tx: &mut Transaction<'_, S>, edits: &[Edit]) -> Result<(), StoreFault>
    ensures same_reference { tx.new.conn.ghost_name ≡ tx.old.conn.ghost_name }
    ensures plays { PlaysAll edits.now (state S.Store tx.old.conn.now) (state S.Store tx.new.conn.now) result }
{
    for edit in edits {
        play(tx, edit)?;
    }
    Ok(())
}

/// The same; where there is none, the next number is asked for, so that a store which a fault has
/// shut is noticed.
pub fn play_or_ask<S: Alter>(tx: &mut Transaction<'_, S>, edits: &[Edit]) -> Result<(), StoreFault>
    ensures same_reference { tx.new.conn.ghost_name ≡ tx.old.conn.ghost_name }
    ensures plays { PlaysAll edits.now (state S.Store tx.old.conn.now) (state S.Store tx.new.conn.now) result }
    ensures serves { Serves (state S.Store tx.old.conn.now) (state S.Store tx.new.conn.now) result }
{
    match edits {
        [] => {
            read_next(tx)?;
            Ok(())
        }
        [first, others @ ..] => {
            play(tx, first)?;
            play_all(tx, others)
        }
    }
}
