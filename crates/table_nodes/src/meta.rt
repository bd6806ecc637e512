//! The next number to give to a bug.

ghost use Rattle.std.specs.Prelude.{◌≡◌, ℕ, [], ◌∷◌, IfOk, IfErr, ⊤};
ghost use Rattle.sqlite.specs.Held.{state};
ghost use Rattle.table_forms.specs.Numbers.{number_row};
ghost use Rattle.base_faults.specs.declared.store_fault.StoreFault.TheVariants.{Memory};
ghost use Rattle.table_schema.specs.Steps.{Acts, Reads, Serves};

use base_faults::StoreFault;
use sqlite::{Alter, Row, Transaction, params};
use table_schema::{number_in, told, written};

/// The next number is this one.
pub fn write_next<S: Alter>(tx: &mut Transaction<'_, S>, next: u32) -> Result<(), StoreFault>
    ensures same_reference { tx.new.conn.ghost_name ≡ tx.old.conn.ghost_name }
    ensures acts { Acts (state S.Store tx.old.conn.now) (state S.Store tx.new.conn.now) result (λ _. ⊤) (λ c d _. d ≡ record c { next = next }) }
    ensures serves { Serves (state S.Store tx.old.conn.now) (state S.Store tx.new.conn.now) result }
{
    written(tx.execute("UPDATE meta SET next = ?1 WHERE id = 1", params![next]))
}

// The row of the next number.
fn next_rows<S: Alter>(tx: &mut Transaction<'_, S>) -> Result<Vec<Row>, StoreFault>
    ensures same_reference { tx.new.conn.ghost_name ≡ tx.old.conn.ghost_name }
    ensures reads { Reads (λ c rows. rows.items ≡ number_row c.next ∷ []) (state S.Store tx.old.conn.now) (state S.Store tx.new.conn.now) result }
    ensures serves { Serves (state S.Store tx.old.conn.now) (state S.Store tx.new.conn.now) result }
{
    told(tx.query_all("SELECT next FROM meta WHERE id = 1", &[]))
}

// The number of the only row; where there is none, the tables are no desk's.
fn next_in(rows: &[Row]) -> Result<u64, StoreFault>
    ensures value { (n : ℕ) → rows.now ≡ number_row n ∷ [] → IfOk result (λ v. v ≡ n) }
    ensures memory { (n : ℕ) → rows.now ≡ number_row n ∷ [] → IfErr result (λ fault. fault ≡ Memory) }
{
    match number_in(rows)? {
        Some(next) => Ok(next),
        None => Err(StoreFault::Foreign),
    }
}

/// The next number.
pub fn read_next<S: Alter>(tx: &mut Transaction<'_, S>) -> Result<u64, StoreFault>
    ensures same_reference { tx.new.conn.ghost_name ≡ tx.old.conn.ghost_name }
    ensures reads { Reads (λ c next. next ≡ c.next) (state S.Store tx.old.conn.now) (state S.Store tx.new.conn.now) result }
    ensures serves { Serves (state S.Store tx.old.conn.now) (state S.Store tx.new.conn.now) result }
{
    let rows = next_rows(tx)?;
    next_in(rows.as_slice())
}
