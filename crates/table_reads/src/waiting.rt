//! The bugs that wait on a bug.

ghost use Rattle.std.specs.Prelude.{◌≡◌, [], IfOk, IfErr, OnOk};
ghost use Rattle.sqlite.specs.Held.{state};
ghost use Rattle.bug_record.specs.Images.{numbers_of};
ghost use Rattle.bug_record.specs.Sets.{with_items};
ghost use Rattle.base_faults.specs.declared.store_fault.StoreFault.TheVariants.{Memory};
ghost use Rattle.table_content.specs.View.{desk_in};
ghost use Rattle.table_schema.specs.Steps.{Reads, Serves};
ghost use Rattle.table_sets.specs.Waiting.{AreKeysOf};
ghost use Rattle.store_contract.specs.Store.{AreWaitingOn};
ghost use Rattle.table_reads.specs.Kept.{ReadsKept};
ghost use Rattle.table_reads.specs.Bugs.{bugs_of};

use crate::keys::small_keys;
use base_faults::StoreFault;
use bug_record::{Member, Numbers, Sequence, add_number};
use sqlite::{Alter, Transaction};
use std::alloc::Global;
use std::collections::BTreeSet;
use table_sets::{read_members, read_waiting};

// The keys of the sets that wait on the bug, in any order, as statements take them.
fn waiting_keys<S: Alter>(
    alloc: Global,
    tx: &mut Transaction<'_, S>,
    number: u32,
) -> Result<Vec<u32>, StoreFault>
    ensures same_reference { tx.new.conn.ghost_name ≡ tx.old.conn.ghost_name }
    ensures reads { ReadsKept (λ c keys. AreKeysOf number c keys.items) (state S.Store tx.old.conn.now) (state S.Store tx.new.conn.now) result }
    ensures serves { Serves (state S.Store tx.old.conn.now) (state S.Store tx.new.conn.now) result }
{
    let keys = read_waiting(alloc, tx, number)?;
    small_keys(alloc, keys.as_slice())
}

// The numbers of these bugs come into the set.
fn add_members(numbers: &mut BTreeSet<u64>, members: &[Member]) -> Result<(), StoreFault>
    ensures value { OnOk result (numbers.new.keys ≡ with_items (λ n. n) numbers.old.keys (numbers_of members.now)) }
    ensures memory { IfErr result (λ fault. fault ≡ Memory) }
{
    for member in members {
        add_number(numbers, member.number)?;
    }
    Ok(())
}

// The numbers of the bugs of the key's set come into the set.
fn add_set<S: Alter>(
    alloc: Global,
    tx: &mut Transaction<'_, S>,
    numbers: &mut BTreeSet<u64>,
    key: u32,
) -> Result<(), StoreFault>
    ensures same_reference { tx.new.conn.ghost_name ≡ tx.old.conn.ghost_name }
    ensures reads { Reads (λ c _. numbers.new.keys ≡ with_items (λ n. n) numbers.old.keys (numbers_of (c.members key)))
        (state S.Store tx.old.conn.now) (state S.Store tx.new.conn.now) result }
{
    let members = read_members(alloc, tx, key)?;
    add_members(numbers, members.as_slice())
}

// The numbers of the bugs of all sets of the keys.
fn read_sets<S: Alter>(
    alloc: Global,
    tx: &mut Transaction<'_, S>,
    keys: &[u32],
) -> Result<BTreeSet<u64>, StoreFault>
    ensures same_reference { tx.new.conn.ghost_name ≡ tx.old.conn.ghost_name }
    ensures reads { Reads (λ c numbers. numbers.keys ≡ with_items (λ n. n) [] (bugs_of c keys.now)) (state S.Store tx.old.conn.now) (state S.Store tx.new.conn.now) result }
{
    let mut numbers = BTreeSet::new(alloc);
    for key in keys {
        add_set(alloc, tx, &mut numbers, *key)?;
    }
    Ok(numbers)
}

// The numbers of the set, ascending.
fn in_order(alloc: Global, numbers: &BTreeSet<u64>) -> Result<Numbers, StoreFault>
    ensures value { IfOk result (λ listed. listed ≡ numbers.now.keys) }
    ensures memory { IfErr result (λ fault. fault ≡ Memory) }
{
    Ok(Sequence::in_order(alloc, numbers)?)
}

// The numbers of the bugs of all sets of the keys, ascending.
fn read_bugs_of<S: Alter>(
    alloc: Global,
    tx: &mut Transaction<'_, S>,
    keys: &[u32],
) -> Result<Numbers, StoreFault>
    ensures same_reference { tx.new.conn.ghost_name ≡ tx.old.conn.ghost_name }
    ensures reads { Reads (λ c numbers. numbers ≡ with_items (λ n. n) [] (bugs_of c keys.now)) (state S.Store tx.old.conn.now) (state S.Store tx.new.conn.now) result }
{
    let numbers = read_sets(alloc, tx, keys)?;
    in_order(alloc, &numbers)
}

/// The numbers of all bugs whose set waits on the bug, ascending.
/// `Memory` where there is none for them.
pub fn read_waiting_on<S: Alter>(
    alloc: Global,
    tx: &mut Transaction<'_, S>,
    number: u32,
) -> Result<Numbers, StoreFault>
    ensures same_reference { tx.new.conn.ghost_name ≡ tx.old.conn.ghost_name }
    ensures reads { ReadsKept (λ c numbers. AreWaitingOn (desk_in c) number numbers) (state S.Store tx.old.conn.now) (state S.Store tx.new.conn.now) result }
    ensures serves { Serves (state S.Store tx.old.conn.now) (state S.Store tx.new.conn.now) result }
{
    let keys = waiting_keys(alloc, tx, number)?;
    read_bugs_of(alloc, tx, keys.as_slice())
}
