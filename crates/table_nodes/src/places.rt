//! The place of one more outcome of a message that has an id.

ghost use Rattle.std.specs.Prelude.{◌≡◌, ◌+◌, ℕ, Option, [], ◌∷◌, IfOk, IfErr};
ghost use Rattle.std.specs.Option.{option_map_or};
ghost use Rattle.sqlite.specs.Held.{state};
ghost use Rattle.table_forms.specs.Numbers.{number_row, next_above, AreGreatest};
ghost use Rattle.base_faults.specs.declared.store_fault.StoreFault.TheVariants.{Memory};
ghost use Rattle.table_content.specs.Edits.{places_of};
ghost use Rattle.table_schema.specs.Steps.{Reads, Serves};

use base_faults::StoreFault;
use sqlite::{Alter, Row, Transaction, params};
use table_schema::{number_in, told};

// The row of the last place of a message's outcomes, if there is one.
fn last_rows<S: Alter>(tx: &mut Transaction<'_, S>, id: &str) -> Result<Vec<Row>, StoreFault>
    ensures same_reference { tx.new.conn.ghost_name ≡ tx.old.conn.ghost_name }
    ensures reads { Reads (λ c rows. AreGreatest (places_of (c.outcomes id.now)) rows.items)
        (state S.Store tx.old.conn.now) (state S.Store tx.new.conn.now) result }
    ensures serves { Serves (state S.Store tx.old.conn.now) (state S.Store tx.new.conn.now) result }
{
    told(tx.query_all(
        "SELECT place FROM outcomes WHERE id = ?1 ORDER BY place DESC LIMIT 1",
        params![id],
    ))
}

// One above the number of the only row, or 0 where there is none: what is too large for the tables
// is told as want of memory.
fn above_row(rows: &[Row]) -> Result<u64, StoreFault>
    ensures value { (o : Option ℕ) → rows.now ≡ option_map_or (λ n. number_row n ∷ []) o [] → IfOk result (λ v. v ≡ option_map_or (λ n. n + 1) o 0) }
    ensures memory { (o : Option ℕ) → rows.now ≡ option_map_or (λ n. number_row n ∷ []) o [] →
        IfErr result (λ fault. fault ≡ Memory) }
{
    let Some(last) = number_in(rows)? else {
        return Ok(0);
    };
    match last.checked_add(1) {
        Some(next) => Ok(next),
        None => Err(StoreFault::Memory),
    }
}

/// The place behind all outcomes that are kept of the message of the id; 0 where there is none.
/// No outcome is read for it.
pub fn read_next_place<S: Alter>(tx: &mut Transaction<'_, S>, id: &str) -> Result<u64, StoreFault>
    ensures same_reference { tx.new.conn.ghost_name ≡ tx.old.conn.ghost_name }
    ensures reads { Reads (λ c place. place ≡ next_above (places_of (c.outcomes id.now))) (state S.Store tx.old.conn.now) (state S.Store tx.new.conn.now) result }
    ensures serves { Serves (state S.Store tx.old.conn.now) (state S.Store tx.new.conn.now) result }
{
    let rows = last_rows(tx, id)?;
    above_row(rows.as_slice())
}
