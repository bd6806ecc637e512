//! The bugs that are listed for a package at a node.

ghost use Rattle.std.specs.Prelude.{◌≡◌, ◌<◌, ◌^◌, ℕ, List, filter, flat_map, IfOk, IfErr, OnOk, if◌then◌else◌};
ghost use Rattle.std.specs.BTreeMap.{get};
ghost use Rattle.std.specs.List.{AllByRecursion};
ghost use Rattle.std.specs.List.Sorted.{IsStrictlySortedBy};
ghost use Rattle.std.specs.Map.{keys_of, values_of};
ghost use Rattle.std.specs.Option.{option_or, option_and_then};
ghost use Rattle.std.specs.Ordering.{nat_cmp};
ghost use Rattle.sqlite.specs.Held.{state};
ghost use Rattle.bug_record.specs.Sets.{Each};
ghost use Rattle.bug_record.specs.Severities.{all_severities};
ghost use Rattle.base_faults.specs.declared.store_fault.StoreFault.TheVariants.{Memory};
ghost use Rattle.store_keys.specs.Listing.{is_row_of};
ghost use Rattle.table_content.specs.Kept.{IsKeptContent};
ghost use Rattle.table_content.specs.View.{desk_in};
ghost use Rattle.table_schema.specs.Steps.{Reads, Serves};
ghost use Rattle.table_sets.specs.Affecting.{AreKeysAffecting};
ghost use Rattle.table_sets.specs.Listed.{row_fields, keys_in, IsListedSet, AreKeysFor};
ghost use Rattle.store_contract.specs.Store.{AreListed};
ghost use Rattle.table_reads.specs.Kept.{ReadsKept};
ghost use Rattle.table_reads.specs.Found.{is_found_in};
ghost use Rattle.table_reads.specs.Keys.{AreKeysToList};
ghost use Rattle.table_reads.specs.Rows.{row_among, row_in, row_for};

use crate::found::read_found_in;
use crate::keys::key_asked;
use crate::rows::{put_rows, row_fields, sorted_rows};
use base_faults::StoreFault;
use bug_record::{ListRow, Member, Sequence};
use sqlite::{Alter, Transaction};
use std::alloc::Global;
use std::collections::BTreeMap;
use table_sets::{ListedSet, RowFields, read_affecting, read_fields, read_members, read_sets_of};
use version_nodes::Node;

// The rows of these bugs of a set come into the map.
fn put_bugs(
    rows: &mut BTreeMap<u64, ListRow>,
    fields: RowFields,
    members: &[Member],
) -> Result<(), StoreFault>
    ensures value { OnOk result ((n : ℕ) → get nat_cmp rows.new n ≡ option_or (row_among fields members.now n) (get nat_cmp rows.old n)) }
    ensures memory { IfErr result (λ fault. fault ≡ Memory) }
{
    put_rows(rows, fields, members)?;
    Ok(())
}

// The rows of the bugs of the key's set, of which they have these fields, come into the map.
fn add_bugs<S: Alter>(
    alloc: Global,
    tx: &mut Transaction<'_, S>,
    rows: &mut BTreeMap<u64, ListRow>,
    key: u32,
    fields: RowFields,
) -> Result<(), StoreFault>
    ensures same_reference { tx.new.conn.ghost_name ≡ tx.old.conn.ghost_name }
    ensures reads { Reads (λ c _. (n : ℕ) → get nat_cmp rows.new n ≡ option_or (row_among fields (c.members key) n) (get nat_cmp rows.old n))
        (state S.Store tx.old.conn.now) (state S.Store tx.new.conn.now) result }
{
    let members = read_members(alloc, tx, key)?;
    put_bugs(rows, fields, members.as_slice())
}

// The same, where they are found at a node.
fn add_found<S: Alter>(
    alloc: Global,
    tx: &mut Transaction<'_, S>,
    rows: &mut BTreeMap<u64, ListRow>,
    key: u32,
    fields: RowFields,
    node: &Node,
) -> Result<(), StoreFault>
    ensures same_reference { tx.new.conn.ghost_name ≡ tx.old.conn.ghost_name }
    ensures reads { Reads (λ c _. IsKeptContent c → (n : ℕ) → get nat_cmp rows.new n ≡ (if is_found_in c key node.now fields.closed
        then option_or (row_among fields (c.members key) n) (get nat_cmp rows.old n) else get nat_cmp rows.old n))
        (state S.Store tx.old.conn.now) (state S.Store tx.new.conn.now) result }
{
    let found = read_found_in(alloc, tx, key, fields.closed, node)?;
    if !found {
        return Ok(());
    }
    add_bugs(alloc, tx, rows, key, fields)
}

// What rows have of the key's set, if there is such a set and it is not archived.
fn read_row_fields<S: Alter>(
    alloc: Global,
    tx: &mut Transaction<'_, S>,
    key: u32,
) -> Result<Option<RowFields>, StoreFault>
    ensures same_reference { tx.new.conn.ghost_name ≡ tx.old.conn.ghost_name }
    ensures reads { Reads (λ c fields. fields ≡ option_and_then row_fields (c.fields key)) (state S.Store tx.old.conn.now) (state S.Store tx.new.conn.now) result }
{
    match read_fields(alloc, tx, key)? {
        Some(fields) => Ok(row_fields(&fields)),
        None => Ok(None),
    }
}

// The rows of the bugs of the key's set come into the map, where they are not archived and are
// found at a node.
fn add_set<S: Alter>(
    alloc: Global,
    tx: &mut Transaction<'_, S>,
    rows: &mut BTreeMap<u64, ListRow>,
    key: u32,
    node: &Node,
) -> Result<(), StoreFault>
    ensures same_reference { tx.new.conn.ghost_name ≡ tx.old.conn.ghost_name }
    ensures reads { Reads (λ c _. IsKeptContent c → (n : ℕ) → get nat_cmp rows.new n ≡ option_or (row_in c key node.now n) (get nat_cmp rows.old n))
        (state S.Store tx.old.conn.now) (state S.Store tx.new.conn.now) result }
{
    match read_row_fields(alloc, tx, key)? {
        Some(fields) => add_found(alloc, tx, rows, key, fields, node),
        None => Ok(()),
    }
}

// The rows of the bugs of all sets of the keys come into the map, where they are not archived and
// are found at a node.
fn add_keys<S: Alter>(
    alloc: Global,
    tx: &mut Transaction<'_, S>,
    rows: &mut BTreeMap<u64, ListRow>,
    keys: &[u64],
    node: &Node,
) -> Result<(), StoreFault>
    ensures same_reference { tx.new.conn.ghost_name ≡ tx.old.conn.ghost_name }
    ensures reads { Reads (λ c _. IsKeptContent c → Each (λ k. k < 2 ^ 32) keys.now → (n : ℕ) →
        get nat_cmp rows.new n ≡ option_or (row_for c node.now keys.now n) (get nat_cmp rows.old n))
        (state S.Store tx.old.conn.now) (state S.Store tx.new.conn.now) result }
{
    for key in keys {
        add_set(alloc, tx, rows, key_asked(*key), node)?;
    }
    Ok(())
}

// The same of the sets that affect the package.
fn add_affecting<S: Alter>(
    alloc: Global,
    tx: &mut Transaction<'_, S>,
    rows: &mut BTreeMap<u64, ListRow>,
    package: &str,
    node: &Node,
) -> Result<(), StoreFault>
    ensures same_reference { tx.new.conn.ghost_name ≡ tx.old.conn.ghost_name }
    ensures reads { Reads (λ c _. IsKeptContent c → (keys : List ℕ) × AreKeysAffecting «package».now c keys × ((n : ℕ) →
        get nat_cmp rows.new n ≡ option_or (row_for c node.now keys n) (get nat_cmp rows.old n)))
        (state S.Store tx.old.conn.now) (state S.Store tx.new.conn.now) result }
{
    let keys = read_affecting(alloc, tx, package)?;
    add_keys(alloc, tx, rows, keys.as_slice(), node)
}

// The rows of the bugs of the set, which is as it is said to be, come into the map, where they are
// found at a node.
fn add_listed<S: Alter>(
    alloc: Global,
    tx: &mut Transaction<'_, S>,
    rows: &mut BTreeMap<u64, ListRow>,
    set: &ListedSet,
    node: &Node,
) -> Result<(), StoreFault>
    ensures same_reference { tx.new.conn.ghost_name ≡ tx.old.conn.ghost_name }
    ensures reads { Reads (λ c _. IsKeptContent c → IsListedSet c set.now → (n : ℕ) →
        get nat_cmp rows.new n ≡ option_or (row_in c set.now.key node.now n) (get nat_cmp rows.old n))
        (state S.Store tx.old.conn.now) (state S.Store tx.new.conn.now) result }
{
    add_found(alloc, tx, rows, key_asked(set.key), set.fields, node)
}

// The same of several sets.
fn add_sets<S: Alter>(
    alloc: Global,
    tx: &mut Transaction<'_, S>,
    rows: &mut BTreeMap<u64, ListRow>,
    sets: &[ListedSet],
    node: &Node,
) -> Result<(), StoreFault>
    ensures same_reference { tx.new.conn.ghost_name ≡ tx.old.conn.ghost_name }
    ensures reads { Reads (λ c _. IsKeptContent c → AllByRecursion (IsListedSet c) sets.now → (n : ℕ) →
        get nat_cmp rows.new n ≡ option_or (row_for c node.now (keys_in sets.now) n) (get nat_cmp rows.old n))
        (state S.Store tx.old.conn.now) (state S.Store tx.new.conn.now) result }
{
    for set in sets {
        add_listed(alloc, tx, rows, set, node)?;
    }
    Ok(())
}

// The same of the package's own sets that are not archived.
fn add_own<S: Alter>(
    alloc: Global,
    tx: &mut Transaction<'_, S>,
    rows: &mut BTreeMap<u64, ListRow>,
    package: &str,
    node: &Node,
) -> Result<(), StoreFault>
    ensures same_reference { tx.new.conn.ghost_name ≡ tx.old.conn.ghost_name }
    ensures reads { Reads (λ c _. IsKeptContent c → (keys : List ℕ) × AreKeysFor «package».now c keys × ((n : ℕ) →
        get nat_cmp rows.new n ≡ option_or (row_for c node.now keys n) (get nat_cmp rows.old n)))
        (state S.Store tx.old.conn.now) (state S.Store tx.new.conn.now) result }
    ensures serves { Serves (state S.Store tx.old.conn.now) (state S.Store tx.new.conn.now) result }
{
    let sets = read_sets_of(alloc, tx, package)?;
    add_sets(alloc, tx, rows, sets.as_slice(), node)
}

// The rows of the bugs of the package's sets, and of those that affect it, that are not archived
// and are found at a node, by number.
fn read_rows<S: Alter>(
    alloc: Global,
    tx: &mut Transaction<'_, S>,
    package: &str,
    node: &Node,
) -> Result<BTreeMap<u64, ListRow>, StoreFault>
    ensures same_reference { tx.new.conn.ghost_name ≡ tx.old.conn.ghost_name }
    ensures reads { Reads (λ c rows. IsKeptContent c → (keys : List ℕ) × AreKeysToList «package».now c keys × ((n : ℕ) →
        get nat_cmp rows n ≡ row_for c node.now keys n))
        (state S.Store tx.old.conn.now) (state S.Store tx.new.conn.now) result }
    ensures serves { Serves (state S.Store tx.old.conn.now) (state S.Store tx.new.conn.now) result }
{
    let mut rows = BTreeMap::new(alloc);
    add_own(alloc, tx, &mut rows, package, node)?;
    add_affecting(alloc, tx, &mut rows, package, node)?;
    Ok(rows)
}

// The rows of the map, sorted.
fn sorted(alloc: Global, rows: BTreeMap<u64, ListRow>) -> Result<Sequence<ListRow>, StoreFault>
    ensures value { IfOk result (λ sorted. sorted ≡ flat_map (λ severity. filter (is_row_of severity) (values_of rows.entries)) all_severities) }
    ensures ordered { IsStrictlySortedBy nat_cmp (keys_of rows.entries) }
    ensures memory { IfErr result (λ fault. fault ≡ Memory) }
{
    Ok(sorted_rows(alloc, rows)?)
}

/// The rows of the bugs of a package, and of those that affect it, that are not archived and are
/// found at a node, by severity, from critical to wishlist, and then by number; each bug of a set
/// stands by itself.
/// `Memory` where there is none for them.
/// The tree of the known nodes is not read.
pub fn read_listed<S: Alter>(
    alloc: Global,
    tx: &mut Transaction<'_, S>,
    package: &str,
    node: &Node,
) -> Result<Sequence<ListRow>, StoreFault>
    ensures same_reference { tx.new.conn.ghost_name ≡ tx.old.conn.ghost_name }
    ensures reads { ReadsKept (λ c rows. AreListed (desk_in c) «package».now node.now rows) (state S.Store tx.old.conn.now) (state S.Store tx.new.conn.now) result }
    ensures serves { Serves (state S.Store tx.old.conn.now) (state S.Store tx.new.conn.now) result }
{
    let rows = read_rows(alloc, tx, package, node)?;
    sorted(alloc, rows)
}
