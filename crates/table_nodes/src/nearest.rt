//! The nearest marks of sets.

ghost use Rattle.std.specs.Prelude.{◌≡◌};
ghost use Rattle.sqlite.specs.Held.{state};
ghost use Rattle.table_content.specs.declared.edit.Edit.TheVariants.{PutNear, DropNear, DropNearAt};
ghost use Rattle.table_schema.specs.Steps.{Plays, Serves};

use base_faults::StoreFault;
use sqlite::{Alter, Transaction, params};
use table_encodings::number_of_kind;
use table_schema::written;
use version_marks::Near;
use version_nodes::Node;

/// The set of the key has a nearest mark as seen from a node.
pub fn add_near<S: Alter>(
    tx: &mut Transaction<'_, S>,
    key: u32,
    node: &Node,
    near: &Near,
) -> Result<(), StoreFault>
    ensures same_reference { tx.new.conn.ghost_name ≡ tx.old.conn.ghost_name }
    ensures plays { Plays (PutNear key node.now near.now) (state S.Store tx.old.conn.now) (state S.Store tx.new.conn.now) result }
    ensures serves { Serves (state S.Store tx.old.conn.now) (state S.Store tx.new.conn.now) result }
{
    written(tx.execute(
        "INSERT INTO nearest VALUES (?1, ?2, ?3, ?4, ?5, ?6)",
        params![
            key,
            node.source(),
            node.version(),
            near.mark.source(),
            near.mark.version(),
            number_of_kind(near.kind)
        ],
    ))
}

/// The set of the key has no nearest marks any more.
pub fn clear_near<S: Alter>(tx: &mut Transaction<'_, S>, key: u32) -> Result<(), StoreFault>
    ensures same_reference { tx.new.conn.ghost_name ≡ tx.old.conn.ghost_name }
    ensures plays { Plays (DropNear key) (state S.Store tx.old.conn.now) (state S.Store tx.new.conn.now) result }
    ensures serves { Serves (state S.Store tx.old.conn.now) (state S.Store tx.new.conn.now) result }
{
    written(tx.execute("DELETE FROM nearest WHERE set_key = ?1", params![key]))
}

/// The set of the key has no nearest mark any more, as seen from a node.
pub fn clear_near_at<S: Alter>(
    tx: &mut Transaction<'_, S>,
    key: u32,
    node: &Node,
) -> Result<(), StoreFault>
    ensures same_reference { tx.new.conn.ghost_name ≡ tx.old.conn.ghost_name }
    ensures plays { Plays (DropNearAt key node.now) (state S.Store tx.old.conn.now) (state S.Store tx.new.conn.now) result }
    ensures serves { Serves (state S.Store tx.old.conn.now) (state S.Store tx.new.conn.now) result }
{
    written(tx.execute(
        "DELETE FROM nearest WHERE set_key = ?1 AND source = ?2 AND version = ?3",
        params![key, node.source(), node.version()],
    ))
}
