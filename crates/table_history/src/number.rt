//! The number of a schema, as its row in `meta` says it.

ghost use Rattle.std.specs.Prelude.{◌≡◌, [], ◌∷◌, length, IfOk, IfErr};
ghost use Rattle.sqlite.specs.Held.{state};
ghost use Rattle.base_faults.specs.declared.store_fault.StoreFault.TheVariants.{Memory};
ghost use Rattle.table_history.specs.Number as spec;
ghost use Rattle.table_history.specs.Said as said;

use base_faults::StoreFault;
use sqlite::{Alter, Row, Transaction};
use table_schema::{fault_of, told};

/// What a database says of the number of its schema.
#[derive(Clone, Copy, Debug, PartialEq, Eq, Drop)]
pub enum SchemaRead {
    /// It has this number, from 1 on.
    Number(u64),
    /// It has none: there is no such table, no such row, or something else in it.
    NoNumber,
}

// What a row says, if it is the only one.
fn number_of(row: &Row) -> Result<SchemaRead, StoreFault>
    ensures said { IfOk result (λ read. said.IsSaid (row.now ∷ []) read) }
    ensures memory { IfErr result (λ fault. fault ≡ Memory) }
{
    if row.column_count() != 1 {
        return Ok(SchemaRead::NoNumber);
    }
    match row.get::<u64>(0) {
        Ok(0) => Ok(SchemaRead::NoNumber),
        Ok(number) => Ok(SchemaRead::Number(number)),
        Err(error) => match fault_of(&error) {
            StoreFault::Foreign => Ok(SchemaRead::NoNumber),
            fault => Err(fault),
        },
    }
}

// What rows say.
fn number_in(rows: &[Row]) -> Result<SchemaRead, StoreFault>
    ensures said { IfOk result (λ read. said.IsSaid rows.now read) }
    ensures memory { IfErr result (λ fault. fault ≡ Memory) }
{
    match rows {
        [row] => number_of(row),
        _ => Ok(SchemaRead::NoNumber),
    }
}

// An answer, and none where a foreign fault is told.
fn unless_foreign<T>(answer: Result<T, StoreFault>) -> Result<Option<T>, StoreFault>
    ensures told { result ≡ said.unless_foreign answer }
{
    match answer {
        Ok(found) => Ok(Some(found)),
        Err(StoreFault::Foreign) => Ok(None),
        Err(fault) => Err(fault),
    }
}

// The rows that the database answers; none where it refuses the text.
fn asked_rows<S: Alter>(tx: &mut Transaction<'_, S>) -> Result<Option<Vec<Row>>, StoreFault>
    ensures same_reference { tx.new.conn.ghost_name ≡ tx.old.conn.ghost_name }
    ensures reads { said.ReadsRows (λ rows. rows.items) (state S.Store tx.old.conn.now) (state S.Store tx.new.conn.now) result }
{
    unless_foreign(told(tx.query_all("SELECT schema FROM meta WHERE id = 1", &[])))
}

/// What the database says of the number of its schema, whatever that schema is.
pub fn read_schema<S: Alter>(tx: &mut Transaction<'_, S>) -> Result<SchemaRead, StoreFault>
    ensures same_reference { tx.new.conn.ghost_name ≡ tx.old.conn.ghost_name }
    ensures reads { spec.ReadsSchema (state S.Store tx.old.conn.now) (state S.Store tx.new.conn.now) result }
{
    match asked_rows(tx)? {
        Some(rows) => number_in(rows.as_slice()),
        None => Ok(SchemaRead::NoNumber),
    }
}
