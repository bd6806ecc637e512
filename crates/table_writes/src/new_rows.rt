//! The rows of nearest marks of one node that are not there yet.

ghost use Rattle.std.specs.Prelude.{◌≡◌, ◌++◌, [], ◌∷◌, is_some, IfOk, OnOk};
ghost use Rattle.std.specs.Ordering.{nat_cmp};
ghost use Rattle.std.specs.List.Sorted.{IsStrictlySortedBy};
ghost use Rattle.std.specs.Map.{keys_of};
ghost use Rattle.sqlite.specs.Held.{state};
ghost use Rattle.table_nodes.specs.Missing.{set_near, new_rows};
ghost use Rattle.table_schema.specs.Steps.{Reads};

use base_faults::StoreFault;
use sqlite::{Alter, Transaction};
use std::alloc::AllocError;
use std::collections::BTreeMap;
use table_content::SetNear;
use table_schema::parameter;
use table_sets::read_near_kind;
use version_marks::{Near, NearRow};
use version_nodes::Node;

// Whether the set of the key has a row at the node.
fn has_row<S: Alter>(tx: &mut Transaction<'_, S>, key: u64, node: &Node) -> Result<bool, StoreFault>
    ensures same_reference { tx.new.conn.ghost_name ≡ tx.old.conn.ghost_name }
    ensures reads { Reads (λ c there. there ≡ is_some (c.near key node.now)) (state S.Store tx.old.conn.now) (state S.Store tx.new.conn.now) result }
{
    let key = parameter(key)?;
    let kind = read_near_kind(tx, key, node)?;
    Ok(kind.is_some())
}

// The row of the set of the key and the node.
fn set_near(key: u64, node: &Node, near: &Near) -> Result<SetNear, AllocError>
    ensures { IfOk result (λ row. row ≡ set_near key node.now near.now) }
{
    let node = node.copy()?;
    let mark = near.mark.copy()?;
    let near = Near {
        mark,
        kind: near.kind,
    };
    Ok(SetNear {
        key,
        row: NearRow { node, near },
    })
}

// The row comes behind the others.
fn push_row(rows: &mut Vec<SetNear>, node: &Node, key: u64, near: &Near) -> Result<(), AllocError>
    ensures { OnOk result (rows.new.items ≡ rows.old.items ++ set_near key node.now near.now ∷ []) }
{
    let row = set_near(key, node, near)?;
    rows.push(row)?;
    Ok(())
}

// The row of the set of the key and the node comes behind the others, unless it is there.
fn push_new_row<S: Alter>(
    tx: &mut Transaction<'_, S>,
    rows: &mut Vec<SetNear>,
    node: &Node,
    key: u64,
    near: &Near,
) -> Result<(), StoreFault>
    ensures same_reference { tx.new.conn.ghost_name ≡ tx.old.conn.ghost_name }
    ensures reads { Reads (λ c _. rows.new.items ≡ rows.old.items ++ new_rows c node.now ((key, near.now) ∷ []))
        (state S.Store tx.old.conn.now) (state S.Store tx.new.conn.now) result }
{
    if has_row(tx, key, node)? {
        return Ok(());
    }
    push_row(rows, node, key, near)?;
    Ok(())
}

// Those rows of a node come behind the others that are not there yet; the sets see these first
// marks on its line.
pub(crate) fn push_new_rows<S: Alter>(
    tx: &mut Transaction<'_, S>,
    rows: &mut Vec<SetNear>,
    node: &Node,
    first: &BTreeMap<u64, Near>,
) -> Result<(), StoreFault>
    ensures same_reference { tx.new.conn.ghost_name ≡ tx.old.conn.ghost_name }
    ensures ordered { IsStrictlySortedBy nat_cmp (keys_of first.now.entries) }
    ensures reads { Reads (λ c _. rows.new.items ≡ rows.old.items ++ new_rows c node.now first.now.entries)
        (state S.Store tx.old.conn.now) (state S.Store tx.new.conn.now) result }
{
    for (key, near) in first {
        push_new_row(tx, rows, node, *key, near)?;
    }
    Ok(())
}
