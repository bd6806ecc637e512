//! The marks of all sets at a node.

ghost use Rattle.std.specs.Prelude.{◌≡◌, IfOk, IfErr, List, map};
ghost use Rattle.sqlite.specs.Held.{state};
ghost use Rattle.base_faults.specs.declared.store_fault.StoreFault.TheVariants.{Memory};
ghost use Rattle.table_schema.specs.Steps.{Reads, Serves};
ghost use Rattle.table_sets.specs.MarkedAt.{AreMarksAt};
ghost use Rattle.table_sets.specs.MarkAnswers.{mark_row};
ghost use Rattle.table_sets.specs.declared.node_marks.SetMark.{SetMark as SeenMark};

use base_faults::StoreFault;
use sqlite::{Alter, Row, Transaction, params};
use std::alloc::Global;
use table_encodings::kind_of_number;
use table_schema::{number_at, told};
use version_nodes::{MarkKind, Node};

/// A mark of a set at a node that was asked for.
#[derive(Clone, Copy, Drop)]
pub struct SetMark {
    /// The key of the set.
    pub key: u64,
    /// As what the node is marked.
    pub kind: MarkKind,
}

// The rows of the marks at a node, in any order.
fn mark_rows<S: Alter>(tx: &mut Transaction<'_, S>, node: &Node) -> Result<Vec<Row>, StoreFault>
    ensures same_reference { tx.new.conn.ghost_name ≡ tx.old.conn.ghost_name }
    ensures reads { Reads (λ c rows. (ms : List SeenMark) × (rows.items ≡ map mark_row ms) × AreMarksAt node.now c ms)
        (state S.Store tx.old.conn.now) (state S.Store tx.new.conn.now) result }
    ensures serves { Serves (state S.Store tx.old.conn.now) (state S.Store tx.new.conn.now) result }
{
    told(tx.query_all(
        "SELECT set_key, kind FROM marks WHERE source = ?1 AND version = ?2",
        params![node.source(), node.version()],
    ))
}

// The kind in a row of a mark.
fn kind_in(row: &Row) -> Result<MarkKind, StoreFault>
    ensures value { (m : SeenMark) → row.now ≡ mark_row m → IfOk result (λ kind. kind ≡ m.kind) }
    ensures memory { (m : SeenMark) → row.now ≡ mark_row m → IfErr result (λ fault. fault ≡ Memory) }
{
    let number = number_at(row, 1)?;
    match kind_of_number(number) {
        Some(kind) => Ok(kind),
        None => Err(StoreFault::Foreign),
    }
}

// The mark of a row.
fn mark_in(row: &Row) -> Result<SetMark, StoreFault>
    ensures value { (m : SeenMark) → row.now ≡ mark_row m → IfOk result (λ mark. mark ≡ m) }
    ensures memory { (m : SeenMark) → row.now ≡ mark_row m → IfErr result (λ fault. fault ≡ Memory) }
{
    let key = number_at(row, 0)?;
    let kind = kind_in(row)?;
    Ok(SetMark { key, kind })
}

// The marks of rows, in their order.
fn marks_in(alloc: Global, rows: &[Row]) -> Result<Vec<SetMark>, StoreFault>
    ensures value { (ms : List SeenMark) → rows.now ≡ map mark_row ms → IfOk result (λ marks. marks.items ≡ ms) }
    ensures memory { (ms : List SeenMark) → rows.now ≡ map mark_row ms → IfErr result (λ fault. fault ≡ Memory) }
{
    let mut marks = Vec::new(alloc);
    for row in rows {
        let mark = mark_in(row)?;
        match marks.push(mark) {
            Ok(()) => {}
            Err(_) => return Err(StoreFault::Memory),
        }
    }
    Ok(marks)
}

/// The marks of all sets at a node, in any order.
/// `Memory` where there is none for them.
pub fn read_marks_at<S: Alter>(
    alloc: Global,
    tx: &mut Transaction<'_, S>,
    node: &Node,
) -> Result<Vec<SetMark>, StoreFault>
    ensures same_reference { tx.new.conn.ghost_name ≡ tx.old.conn.ghost_name }
    ensures reads { Reads (λ c marks. AreMarksAt node.now c marks.items) (state S.Store tx.old.conn.now) (state S.Store tx.new.conn.now) result }
    ensures serves { Serves (state S.Store tx.old.conn.now) (state S.Store tx.new.conn.now) result }
{
    let rows = mark_rows(tx, node)?;
    marks_in(alloc, rows.as_slice())
}
