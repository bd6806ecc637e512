//! As what the mark is set that a node sees nearest.

ghost use Rattle.std.specs.Prelude.{◌≡◌, Option, IfOk, IfErr, option_map};
ghost use Rattle.sqlite.specs.Held.{state};
ghost use Rattle.version_nodes.specs.declared.statuses.MarkKind.{MarkKind as SeenKind};
ghost use Rattle.base_faults.specs.declared.store_fault.StoreFault.TheVariants.{Memory};
ghost use Rattle.table_schema.specs.Steps.{Reads, Serves};
ghost use Rattle.table_sets.specs.KindAnswers.{kind_row, kind_rows};

use base_faults::StoreFault;
use sqlite::{Alter, Row, Transaction, params};
use table_encodings::kind_of_number;
use table_schema::{number_at, told};
use version_nodes::{MarkKind, Node};

// The row of the kind, if the set sees a mark.
fn near_rows<S: Alter>(
    tx: &mut Transaction<'_, S>,
    key: u32,
    node: &Node,
) -> Result<Vec<Row>, StoreFault>
    ensures same_reference { tx.new.conn.ghost_name ≡ tx.old.conn.ghost_name }
    ensures reads { Reads (λ c rows. rows.items ≡ kind_rows (option_map (λ near. near.kind) (c.near key node.now)))
        (state S.Store tx.old.conn.now) (state S.Store tx.new.conn.now) result }
    ensures serves { Serves (state S.Store tx.old.conn.now) (state S.Store tx.new.conn.now) result }
{
    told(tx.query_all(
        "SELECT kind FROM nearest WHERE set_key = ?1 AND source = ?2 AND version = ?3",
        params![key, node.source(), node.version()],
    ))
}

// The kind of a row.
fn kind_of(row: &Row) -> Result<MarkKind, StoreFault>
    ensures value { (kind : SeenKind) → row.now ≡ kind_row kind → IfOk result (λ k. k ≡ kind) }
    ensures memory { (kind : SeenKind) → row.now ≡ kind_row kind → IfErr result (λ fault. fault ≡ Memory) }
{
    let number = number_at(row, 0)?;
    match kind_of_number(number) {
        Some(kind) => Ok(kind),
        None => Err(StoreFault::Foreign),
    }
}

// The kind of the only row, if there is one.
fn kind_in(rows: &[Row]) -> Result<Option<MarkKind>, StoreFault>
    ensures value { (o : Option SeenKind) → rows.now ≡ kind_rows o → IfOk result (λ kind. kind ≡ o) }
    ensures memory { (o : Option SeenKind) → rows.now ≡ kind_rows o → IfErr result (λ fault. fault ≡ Memory) }
{
    match rows {
        [] => Ok(None),
        [row, ..] => Ok(Some(kind_of(row)?)),
    }
}

/// As what the node is marked that the set of the key sees nearest from a node, if it sees one.
pub fn read_near_kind<S: Alter>(
    tx: &mut Transaction<'_, S>,
    key: u32,
    node: &Node,
) -> Result<Option<MarkKind>, StoreFault>
    ensures same_reference { tx.new.conn.ghost_name ≡ tx.old.conn.ghost_name }
    ensures reads { Reads (λ c kind. kind ≡ option_map (λ near. near.kind) (c.near key node.now))
        (state S.Store tx.old.conn.now) (state S.Store tx.new.conn.now) result }
    ensures serves { Serves (state S.Store tx.old.conn.now) (state S.Store tx.new.conn.now) result }
{
    let rows = near_rows(tx, key, node)?;
    kind_in(rows.as_slice())
}
