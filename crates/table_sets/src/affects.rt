//! The packages that sets affect.

ghost use Rattle.std.specs.Prelude.{◌≡◌, ℕ, List, [], map, IfOk, IfErr, OnOk};
ghost use Rattle.std.specs.List.{AllByRecursion};
ghost use Rattle.std.specs.Str.{IsUtf8};
ghost use Rattle.sqlite.specs.Held.{state};
ghost use Rattle.bug_record.specs.Ordered.{with_each};
ghost use Rattle.bug_record.specs.PackageSets.{name_cmp, with_name};
ghost use Rattle.base_faults.specs.declared.store_fault.StoreFault.TheVariants.{Memory};
ghost use Rattle.table_content.specs.declared.edit.Edit.TheVariants.{PutAffects, DropAffects};
ghost use Rattle.table_schema.specs.Steps.{Plays, Reads, Serves};
ghost use Rattle.table_forms.specs.Numbers.{number_row};
ghost use Rattle.table_sets.specs.Affecting.{AreKeysAffecting};
ghost use Rattle.table_sets.specs.Names.{text_row, AreNamesOf};

use base_faults::StoreFault;
use bug_record::{Names, Numbers, Sequence};
use debver::Text;
use sqlite::{Alter, Row, Transaction, params};
use std::alloc::Global;
use table_schema::{numbers_of, text_at, told, written};

/// The set of the key affects one more package.
pub fn add_affected<S: Alter>(
    tx: &mut Transaction<'_, S>,
    key: u32,
    package: &str,
) -> Result<(), StoreFault>
    ensures same_reference { tx.new.conn.ghost_name ≡ tx.old.conn.ghost_name }
    ensures plays { Plays (PutAffects key «package».now) (state S.Store tx.old.conn.now) (state S.Store tx.new.conn.now) result }
    ensures serves { Serves (state S.Store tx.old.conn.now) (state S.Store tx.new.conn.now) result }
{
    written(tx.execute("INSERT INTO affects VALUES (?1, ?2)", params![key, package]))
}

/// The set of the key affects no package any more.
pub fn clear_affected<S: Alter>(tx: &mut Transaction<'_, S>, key: u32) -> Result<(), StoreFault>
    ensures same_reference { tx.new.conn.ghost_name ≡ tx.old.conn.ghost_name }
    ensures plays { Plays (DropAffects key) (state S.Store tx.old.conn.now) (state S.Store tx.new.conn.now) result }
    ensures serves { Serves (state S.Store tx.old.conn.now) (state S.Store tx.new.conn.now) result }
{
    written(tx.execute("DELETE FROM affects WHERE set_key = ?1", params![key]))
}

// The rows of the packages that a set affects, in any order.
fn name_rows<S: Alter>(tx: &mut Transaction<'_, S>, key: u32) -> Result<Vec<Row>, StoreFault>
    ensures same_reference { tx.new.conn.ghost_name ≡ tx.old.conn.ghost_name }
    ensures reads { Reads (λ c rows. (ns : List (List ℕ)) × (rows.items ≡ map text_row ns) × AreNamesOf (c.affects key) ns)
        (state S.Store tx.old.conn.now) (state S.Store tx.new.conn.now) result }
    ensures serves { Serves (state S.Store tx.old.conn.now) (state S.Store tx.new.conn.now) result }
{
    told(tx.query_all(
        "SELECT package FROM affects WHERE set_key = ?1",
        params![key],
    ))
}

// One more package.
fn add_name(names: &mut Names, name: Text) -> Result<(), StoreFault>
    ensures value { OnOk result (names.new ≡ with_name names.old name) }
    ensures memory { IfErr result (λ fault. fault ≡ Memory) }
{
    names.add_ordered(name)?;
    Ok(())
}

// The package of one more row.
fn add_row(alloc: Global, names: &mut Names, row: &Row) -> Result<(), StoreFault>
    ensures value { (n : List ℕ) → IsUtf8 n → row.now ≡ text_row n → OnOk result (names.new ≡ with_name names.old n) }
    ensures memory { (n : List ℕ) → IsUtf8 n → row.now ≡ text_row n → IfErr result (λ fault. fault ≡ Memory) }
{
    let name = text_at(alloc, row, 0)?;
    add_name(names, name)
}

// The packages of rows, in the order of their bytes.
fn names_of(alloc: Global, rows: &[Row]) -> Result<Names, StoreFault>
    ensures value { (ns : List (List ℕ)) → AllByRecursion IsUtf8 ns → rows.now ≡ map text_row ns → IfOk result (λ names. names ≡ with_each name_cmp [] ns) }
    ensures memory { (ns : List (List ℕ)) → AllByRecursion IsUtf8 ns → rows.now ≡ map text_row ns → IfErr result (λ fault. fault ≡ Memory) }
{
    let mut names = Sequence::new(alloc);
    for row in rows {
        add_row(alloc, &mut names, row)?;
    }
    Ok(names)
}

/// The packages that the set of the key affects, in the order of their bytes.
pub fn read_affected<S: Alter>(
    alloc: Global,
    tx: &mut Transaction<'_, S>,
    key: u32,
) -> Result<Names, StoreFault>
    ensures same_reference { tx.new.conn.ghost_name ≡ tx.old.conn.ghost_name }
    ensures reads { Reads (λ c names. names ≡ c.affects key) (state S.Store tx.old.conn.now) (state S.Store tx.new.conn.now) result }
    ensures serves { Serves (state S.Store tx.old.conn.now) (state S.Store tx.new.conn.now) result }
{
    let rows = name_rows(tx, key)?;
    names_of(alloc, rows.as_slice())
}

// The rows of the keys of the sets that affect a package, in any order.
fn key_rows<S: Alter>(tx: &mut Transaction<'_, S>, package: &str) -> Result<Vec<Row>, StoreFault>
    ensures same_reference { tx.new.conn.ghost_name ≡ tx.old.conn.ghost_name }
    ensures reads { Reads (λ c rows. (keys : List ℕ) × (rows.items ≡ map number_row keys) × AreKeysAffecting «package».now c keys)
        (state S.Store tx.old.conn.now) (state S.Store tx.new.conn.now) result }
    ensures serves { Serves (state S.Store tx.old.conn.now) (state S.Store tx.new.conn.now) result }
{
    told(tx.query_all(
        "SELECT set_key FROM affects WHERE package = ?1",
        params![package],
    ))
}

/// The keys of the sets that affect a package, archived ones among them, in any order.
/// `Memory` where there is none for them.
pub fn read_affecting<S: Alter>(
    alloc: Global,
    tx: &mut Transaction<'_, S>,
    package: &str,
) -> Result<Numbers, StoreFault>
    ensures same_reference { tx.new.conn.ghost_name ≡ tx.old.conn.ghost_name }
    ensures reads { Reads (λ c keys. AreKeysAffecting «package».now c keys) (state S.Store tx.old.conn.now) (state S.Store tx.new.conn.now) result }
    ensures serves { Serves (state S.Store tx.old.conn.now) (state S.Store tx.new.conn.now) result }
{
    let rows = key_rows(tx, package)?;
    numbers_of(alloc, rows.as_slice())
}
