//! The sets of a package, as a list asks for them.

ghost use Rattle.std.specs.Prelude.{◌≡◌, List, map, IfOk, IfErr};
ghost use Rattle.sqlite.specs.Held.{state};
ghost use Rattle.base_faults.specs.declared.store_fault.StoreFault.TheVariants.{Memory};
ghost use Rattle.table_schema.specs.Steps.{Reads, Serves};
ghost use Rattle.table_sets.specs.Listed.{AreSetsOf};
ghost use Rattle.table_sets.specs.SetAnswers.{listed_row};
ghost use Rattle.table_sets.specs.declared.listed.ListedSet.{ListedSet as SeenSet};

use crate::sets::{flag_at, severity_at};
use base_faults::StoreFault;
use bug_record::Severity;
use sqlite::{Alter, Row, Transaction, params};
use std::alloc::Global;
use table_schema::{number_at, told};

/// What the rows of a list have of a set.
#[derive(Clone, Copy, Drop)]
pub struct RowFields {
    pub severity: Severity,
    pub closed: bool,
}

/// A set of which a list asks, and what its rows have of it.
#[derive(Clone, Copy, Drop)]
pub struct ListedSet {
    pub key: u64,
    pub fields: RowFields,
}

// The rows of a package's sets that are not archived, in any order.
fn listed_rows<S: Alter>(tx: &mut Transaction<'_, S>, package: &str) -> Result<Vec<Row>, StoreFault>
    ensures same_reference { tx.new.conn.ghost_name ≡ tx.old.conn.ghost_name }
    ensures reads { Reads (λ c rows. (sets : List SeenSet) × (rows.items ≡ map listed_row sets) × AreSetsOf «package».now c sets)
        (state S.Store tx.old.conn.now) (state S.Store tx.new.conn.now) result }
    ensures serves { Serves (state S.Store tx.old.conn.now) (state S.Store tx.new.conn.now) result }
{
    told(tx.query_all(
        "SELECT set_key, severity, closed FROM sets WHERE package = ?1 AND archived = 0",
        params![package],
    ))
}

// The set of a row.
fn set_in(row: &Row) -> Result<ListedSet, StoreFault>
    ensures value { (s : SeenSet) → row.now ≡ listed_row s → IfOk result (λ set. set ≡ s) }
    ensures memory { (s : SeenSet) → row.now ≡ listed_row s → IfErr result (λ fault. fault ≡ Memory) }
{
    let key = number_at(row, 0)?;
    let severity = severity_at(row, 1)?;
    let closed = flag_at(row, 2)?;
    Ok(ListedSet {
        key,
        fields: RowFields { severity, closed },
    })
}

// The sets of rows, in their order.
fn sets_in(alloc: Global, rows: &[Row]) -> Result<Vec<ListedSet>, StoreFault>
    ensures value { (ss : List SeenSet) → rows.now ≡ map listed_row ss → IfOk result (λ sets. sets.items ≡ ss) }
    ensures memory { (ss : List SeenSet) → rows.now ≡ map listed_row ss → IfErr result (λ fault. fault ≡ Memory) }
{
    let mut sets = Vec::new(alloc);
    for row in rows {
        let set = set_in(row)?;
        match sets.push(set) {
            Ok(()) => {}
            Err(_) => return Err(StoreFault::Memory),
        }
    }
    Ok(sets)
}

/// The sets of a package that are not archived, in any order, with what the rows of a list have of
/// them.
/// `Memory` where there is none for them.
pub fn read_sets_of<S: Alter>(
    alloc: Global,
    tx: &mut Transaction<'_, S>,
    package: &str,
) -> Result<Vec<ListedSet>, StoreFault>
    ensures same_reference { tx.new.conn.ghost_name ≡ tx.old.conn.ghost_name }
    ensures reads { Reads (λ c sets. AreSetsOf «package».now c sets.items) (state S.Store tx.old.conn.now) (state S.Store tx.new.conn.now) result }
    ensures serves { Serves (state S.Store tx.old.conn.now) (state S.Store tx.new.conn.now) result }
{
    let rows = listed_rows(tx, package)?;
    sets_in(alloc, rows.as_slice())
}
