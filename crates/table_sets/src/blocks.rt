//! The blockers of sets.

ghost use Rattle.std.specs.Prelude.{◌≡◌, ℕ, List, map};
ghost use Rattle.sqlite.specs.Held.{state};
ghost use Rattle.bug_record.specs.Sets.{has};
ghost use Rattle.table_content.specs.declared.edit.Edit.TheVariants.{PutBlocker, DropBlockers};
ghost use Rattle.table_schema.specs.Steps.{Plays, Reads, Serves};
ghost use Rattle.table_forms.specs.Numbers.{number_row};
ghost use Rattle.table_sets.specs.Waiting.{AreKeysOf};

use base_faults::StoreFault;
use bug_record::Numbers;
use sqlite::{Alter, Row, Transaction, params};
use std::alloc::Global;
use table_schema::{numbers_of, told, written};

/// The set of the key waits on one more bug.
pub fn add_blocker<S: Alter>(
    tx: &mut Transaction<'_, S>,
    key: u32,
    blocker: u32,
) -> Result<(), StoreFault>
    ensures same_reference { tx.new.conn.ghost_name ≡ tx.old.conn.ghost_name }
    ensures plays { Plays (PutBlocker key blocker) (state S.Store tx.old.conn.now) (state S.Store tx.new.conn.now) result }
    ensures serves { Serves (state S.Store tx.old.conn.now) (state S.Store tx.new.conn.now) result }
{
    written(tx.execute("INSERT INTO blocks VALUES (?1, ?2)", params![key, blocker]))
}

/// The set of the key waits on no bug any more.
pub fn clear_blockers<S: Alter>(tx: &mut Transaction<'_, S>, key: u32) -> Result<(), StoreFault>
    ensures same_reference { tx.new.conn.ghost_name ≡ tx.old.conn.ghost_name }
    ensures plays { Plays (DropBlockers key) (state S.Store tx.old.conn.now) (state S.Store tx.new.conn.now) result }
    ensures serves { Serves (state S.Store tx.old.conn.now) (state S.Store tx.new.conn.now) result }
{
    written(tx.execute("DELETE FROM blocks WHERE set_key = ?1", params![key]))
}

// The rows of a set's blockers.
fn blocker_rows<S: Alter>(tx: &mut Transaction<'_, S>, key: u32) -> Result<Vec<Row>, StoreFault>
    ensures same_reference { tx.new.conn.ghost_name ≡ tx.old.conn.ghost_name }
    ensures reads { Reads (λ c rows. rows.items ≡ map number_row (c.blockers key)) (state S.Store tx.old.conn.now) (state S.Store tx.new.conn.now) result }
    ensures serves { Serves (state S.Store tx.old.conn.now) (state S.Store tx.new.conn.now) result }
{
    told(tx.query_all(
        "SELECT blocker FROM blocks WHERE set_key = ?1 ORDER BY blocker",
        params![key],
    ))
}

/// The bugs that the set of the key waits on, ascending.
pub fn read_blockers<S: Alter>(
    alloc: Global,
    tx: &mut Transaction<'_, S>,
    key: u32,
) -> Result<Numbers, StoreFault>
    ensures same_reference { tx.new.conn.ghost_name ≡ tx.old.conn.ghost_name }
    ensures reads { Reads (λ c numbers. numbers ≡ c.blockers key) (state S.Store tx.old.conn.now) (state S.Store tx.new.conn.now) result }
    ensures serves { Serves (state S.Store tx.old.conn.now) (state S.Store tx.new.conn.now) result }
{
    let rows = blocker_rows(tx, key)?;
    numbers_of(alloc, rows.as_slice())
}

// The rows of the keys whose sets wait on a bug.
fn waiting_rows<S: Alter>(tx: &mut Transaction<'_, S>, blocker: u32) -> Result<Vec<Row>, StoreFault>
    ensures same_reference { tx.new.conn.ghost_name ≡ tx.old.conn.ghost_name }
    ensures reads { Reads (λ c rows. (keys : List ℕ) × (rows.items ≡ map number_row keys) × AreKeysOf blocker c keys)
        (state S.Store tx.old.conn.now) (state S.Store tx.new.conn.now) result }
    ensures serves { Serves (state S.Store tx.old.conn.now) (state S.Store tx.new.conn.now) result }
{
    told(tx.query_all(
        "SELECT set_key FROM blocks WHERE blocker = ?1",
        params![blocker],
    ))
}

/// The keys of the sets that wait on the bug, in any order.
pub fn read_waiting<S: Alter>(
    alloc: Global,
    tx: &mut Transaction<'_, S>,
    blocker: u32,
) -> Result<Numbers, StoreFault>
    ensures same_reference { tx.new.conn.ghost_name ≡ tx.old.conn.ghost_name }
    ensures reads { Reads (AreKeysOf blocker) (state S.Store tx.old.conn.now) (state S.Store tx.new.conn.now) result }
    ensures serves { Serves (state S.Store tx.old.conn.now) (state S.Store tx.new.conn.now) result }
{
    let rows = waiting_rows(tx, blocker)?;
    numbers_of(alloc, rows.as_slice())
}
