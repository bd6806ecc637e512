//! The marks of sets.

ghost use Rattle.std.specs.Prelude.{◌≡◌, IfOk, IfErr, OnOk, List, map};
ghost use Rattle.std.specs.List.{AllByRecursion};
ghost use Rattle.sqlite.specs.Held.{state};
ghost use Rattle.base_faults.specs.declared.store_fault.StoreFault.TheVariants.{Memory};
ghost use Rattle.table_content.specs.declared.edit.Edit.TheVariants.{PutMark, DropMarks};
ghost use Rattle.table_schema.specs.Steps.{Plays, Reads, Serves};
ghost use Rattle.table_sets.specs.Marked.{Mark, mark_row, IsMark, no_marks, with_marked, all_marked, AreMarksOf};

use base_faults::StoreFault;
use bug_record::{Nodes, Sequence, add_node};
use sqlite::{Alter, Row, Transaction, params};
use std::alloc::Global;
use table_encodings::{kind_of_number, number_of_kind};
use table_schema::{node_at, number_at, told, written};
use version_nodes::{MarkKind, Node};

/// The set of the key is marked at a node.
pub fn add_mark<S: Alter>(
    tx: &mut Transaction<'_, S>,
    key: u32,
    kind: MarkKind,
    node: &Node,
) -> Result<(), StoreFault>
    ensures same_reference { tx.new.conn.ghost_name ≡ tx.old.conn.ghost_name }
    ensures plays { Plays (PutMark key kind node.now) (state S.Store tx.old.conn.now) (state S.Store tx.new.conn.now) result }
    ensures serves { Serves (state S.Store tx.old.conn.now) (state S.Store tx.new.conn.now) result }
{
    written(tx.execute(
        "INSERT INTO marks VALUES (?1, ?2, ?3, ?4)",
        params![key, number_of_kind(kind), node.source(), node.version()],
    ))
}

/// The set of the key has no marks any more.
pub fn clear_marks<S: Alter>(tx: &mut Transaction<'_, S>, key: u32) -> Result<(), StoreFault>
    ensures same_reference { tx.new.conn.ghost_name ≡ tx.old.conn.ghost_name }
    ensures plays { Plays (DropMarks key) (state S.Store tx.old.conn.now) (state S.Store tx.new.conn.now) result }
    ensures serves { Serves (state S.Store tx.old.conn.now) (state S.Store tx.new.conn.now) result }
{
    written(tx.execute("DELETE FROM marks WHERE set_key = ?1", params![key]))
}

/// The nodes at which a set is marked, as each kind.
#[derive(Drop)]
pub struct Marks {
    pub found: Nodes,
    pub fixed: Nodes,
}

// The rows of a set's marks, in any order.
fn mark_rows<S: Alter>(tx: &mut Transaction<'_, S>, key: u32) -> Result<Vec<Row>, StoreFault>
    ensures same_reference { tx.new.conn.ghost_name ≡ tx.old.conn.ghost_name }
    ensures reads { Reads (λ c rows. (ms : List Mark) × (rows.items ≡ map mark_row ms) × AreMarksOf key c ms)
        (state S.Store tx.old.conn.now) (state S.Store tx.new.conn.now) result }
    ensures serves { Serves (state S.Store tx.old.conn.now) (state S.Store tx.new.conn.now) result }
{
    told(tx.query_all(
        "SELECT kind, source, version FROM marks WHERE set_key = ?1",
        params![key],
    ))
}

// The kind of a row's mark.
fn kind_of(row: &Row) -> Result<MarkKind, StoreFault>
    ensures value { (m : Mark) → row.now ≡ mark_row m → IfOk result (λ kind. kind ≡ m.kind) }
    ensures memory { (m : Mark) → row.now ≡ mark_row m → IfErr result (λ fault. fault ≡ Memory) }
{
    let number = number_at(row, 0)?;
    match kind_of_number(number) {
        Some(kind) => Ok(kind),
        None => Err(StoreFault::Foreign),
    }
}

// One more node is marked.
fn add_marked(marks: &mut Marks, kind: MarkKind, node: Node) -> Result<(), StoreFault>
    ensures value { OnOk result (marks.new ≡ with_marked marks.old kind node) }
    ensures memory { IfErr result (λ fault. fault ≡ Memory) }
{
    match kind {
        MarkKind::Found => add_node(&mut marks.found, node)?,
        MarkKind::Fixed => add_node(&mut marks.fixed, node)?,
    }
    Ok(())
}

// The mark of one more row.
fn add_row(alloc: Global, marks: &mut Marks, row: &Row) -> Result<(), StoreFault>
    ensures value { (m : Mark) → IsMark m → row.now ≡ mark_row m → OnOk result (marks.new ≡ with_marked marks.old m.kind m.node) }
    ensures memory { (m : Mark) → IsMark m → row.now ≡ mark_row m → IfErr result (λ fault. fault ≡ Memory) }
{
    let kind = kind_of(row)?;
    let node = node_at(alloc, row, 1)?;
    add_marked(marks, kind, node)
}

// The marks of rows.
fn marks_of(alloc: Global, rows: &[Row]) -> Result<Marks, StoreFault>
    ensures value { (ms : List Mark) → AllByRecursion IsMark ms → rows.now ≡ map mark_row ms → IfOk result (λ marks. marks ≡ all_marked no_marks ms) }
    ensures memory { (ms : List Mark) → AllByRecursion IsMark ms → rows.now ≡ map mark_row ms → IfErr result (λ fault. fault ≡ Memory) }
{
    let mut marks = Marks {
        found: Sequence::new(alloc),
        fixed: Sequence::new(alloc),
    };
    for row in rows {
        add_row(alloc, &mut marks, row)?;
    }
    Ok(marks)
}

/// The nodes at which the set of the key is marked.
pub fn read_marks<S: Alter>(
    alloc: Global,
    tx: &mut Transaction<'_, S>,
    key: u32,
) -> Result<Marks, StoreFault>
    ensures same_reference { tx.new.conn.ghost_name ≡ tx.old.conn.ghost_name }
    ensures reads { Reads (λ c marks. (marks.found ≡ c.found key) × (marks.fixed ≡ c.fixed key))
        (state S.Store tx.old.conn.now) (state S.Store tx.new.conn.now) result }
    ensures serves { Serves (state S.Store tx.old.conn.now) (state S.Store tx.new.conn.now) result }
{
    let rows = mark_rows(tx, key)?;
    marks_of(alloc, rows.as_slice())
}
