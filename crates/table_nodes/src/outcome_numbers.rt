//! The numbers of accepted lines.

ghost use Rattle.std.specs.Prelude.{◌≡◌, map};
ghost use Rattle.sqlite.specs.Held.{state};
ghost use Rattle.table_content.specs.declared.edit.Edit.TheVariants.{PutOutcomeNumber};
ghost use Rattle.table_schema.specs.Steps.{Plays, Reads, Serves};
ghost use Rattle.table_forms.specs.Numbers.{number_row};

use base_faults::StoreFault;
use bug_record::Numbers;
use sqlite::{Alter, Row, Transaction, params};
use std::alloc::Global;
use table_schema::{numbers_of, told, written};

/// The accepted line at the place of the message of the id has one more number.
pub fn add_outcome_number<S: Alter>(
    tx: &mut Transaction<'_, S>,
    id: &str,
    place: u32,
    number: u32,
) -> Result<(), StoreFault>
    ensures same_reference { tx.new.conn.ghost_name ≡ tx.old.conn.ghost_name }
    ensures plays { Plays (PutOutcomeNumber id.now place number) (state S.Store tx.old.conn.now) (state S.Store tx.new.conn.now) result }
    ensures serves { Serves (state S.Store tx.old.conn.now) (state S.Store tx.new.conn.now) result }
{
    written(tx.execute(
        "INSERT INTO outcome_numbers VALUES (?1, ?2, ?3)",
        params![id, place, number],
    ))
}

// The rows of the numbers of an accepted line.
fn number_rows<S: Alter>(
    tx: &mut Transaction<'_, S>,
    id: &str,
    place: u32,
) -> Result<Vec<Row>, StoreFault>
    ensures same_reference { tx.new.conn.ghost_name ≡ tx.old.conn.ghost_name }
    ensures reads { Reads (λ c rows. rows.items ≡ map number_row (c.outcome_numbers id.now place))
        (state S.Store tx.old.conn.now) (state S.Store tx.new.conn.now) result }
    ensures serves { Serves (state S.Store tx.old.conn.now) (state S.Store tx.new.conn.now) result }
{
    told(tx.query_all(
        "SELECT number FROM outcome_numbers WHERE id = ?1 AND place = ?2 ORDER BY number",
        params![id, place],
    ))
}

/// The numbers of the accepted line at the place of the message of the id, ascending.
pub fn read_outcome_numbers<S: Alter>(
    alloc: Global,
    tx: &mut Transaction<'_, S>,
    id: &str,
    place: u32,
) -> Result<Numbers, StoreFault>
    ensures same_reference { tx.new.conn.ghost_name ≡ tx.old.conn.ghost_name }
    ensures reads { Reads (λ c numbers. numbers ≡ c.outcome_numbers id.now place)
        (state S.Store tx.old.conn.now) (state S.Store tx.new.conn.now) result }
    ensures serves { Serves (state S.Store tx.old.conn.now) (state S.Store tx.new.conn.now) result }
{
    let rows = number_rows(tx, id, place)?;
    numbers_of(alloc, rows.as_slice())
}
