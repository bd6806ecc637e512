//! The images of sets.

ghost use Rattle.std.specs.Prelude.{◌≡◌, IfOk, IfErr, option_map};
ghost use Rattle.sqlite.specs.Held.{state};
ghost use Rattle.base_faults.specs.declared.store_fault.StoreFault.TheVariants.{Memory};
ghost use Rattle.table_content.specs.View.{image, shared_of};
ghost use Rattle.table_schema.specs.Steps.{Reads, Serves};
ghost use Rattle.table_reads.specs.Kept.{ReadsKept};
ghost use Rattle.table_reads.specs.Bugs.{image_with};
ghost use Rattle.table_reads.specs.FoundSets.{IsSetFound, found_under};

use crate::keys::small_key;
use base_faults::StoreFault;
use bug_record::{Agreed, SetImage, Shared};
use sqlite::{Alter, Transaction};
use std::alloc::Global;
use table_content::SetFields;
use table_sets::{read_fields, read_key, read_members, read_shared};

/// A set that was found: its image, and the key under which it stands, the number of one of its
/// bugs.
#[derive(Drop)]
pub struct FoundSet {
    pub key: u64,
    pub image: SetImage,
}

// The fields, to be shared by copies of an image.
fn agreed(alloc: Global, shared: Shared) -> Result<Agreed, StoreFault>
    ensures value { IfOk result (λ agreed. agreed ≡ shared) }
    ensures memory { IfErr result (λ fault. fault ≡ Memory) }
{
    Ok(Agreed::of(alloc, shared)?)
}

// The shared fields of the set of the key, to be shared by copies of its image.
fn read_agreed<S: Alter>(
    alloc: Global,
    tx: &mut Transaction<'_, S>,
    key: u32,
    fields: SetFields,
) -> Result<Agreed, StoreFault>
    ensures same_reference { tx.new.conn.ghost_name ≡ tx.old.conn.ghost_name }
    ensures reads { Reads (λ c shared. shared ≡ shared_of c key fields) (state S.Store tx.old.conn.now) (state S.Store tx.new.conn.now) result }
    ensures serves { Serves (state S.Store tx.old.conn.now) (state S.Store tx.new.conn.now) result }
{
    let shared = read_shared(alloc, tx, key, fields)?;
    agreed(alloc, shared)
}

// The image of the set of the key, which has these fields in its own row.
fn read_rest<S: Alter>(
    alloc: Global,
    tx: &mut Transaction<'_, S>,
    key: u32,
    fields: SetFields,
) -> Result<Option<SetImage>, StoreFault>
    ensures same_reference { tx.new.conn.ghost_name ≡ tx.old.conn.ghost_name }
    ensures reads { Reads (λ c found. found ≡ image_with c key fields) (state S.Store tx.old.conn.now) (state S.Store tx.new.conn.now) result }
    ensures serves { Serves (state S.Store tx.old.conn.now) (state S.Store tx.new.conn.now) result }
{
    let shared = read_agreed(alloc, tx, key, fields)?;
    let members = read_members(alloc, tx, key)?;
    Ok(Some(SetImage { shared, members }))
}

/// The image of the set of the key, if there is such a set.
/// `Memory` where there is none for it.
pub fn read_image<S: Alter>(
    alloc: Global,
    tx: &mut Transaction<'_, S>,
    key: u32,
) -> Result<Option<SetImage>, StoreFault>
    ensures same_reference { tx.new.conn.ghost_name ≡ tx.old.conn.ghost_name }
    ensures reads { Reads (λ c found. found ≡ image c key) (state S.Store tx.old.conn.now) (state S.Store tx.new.conn.now) result }
    ensures serves { Serves (state S.Store tx.old.conn.now) (state S.Store tx.new.conn.now) result }
{
    match read_fields(alloc, tx, key)? {
        Some(fields) => read_rest(alloc, tx, key, fields),
        None => Ok(None),
    }
}

// The key of the set that the bug is in, if there is such a bug, as a statement takes it.
fn read_small_key<S: Alter>(
    tx: &mut Transaction<'_, S>,
    number: u32,
) -> Result<Option<u32>, StoreFault>
    ensures same_reference { tx.new.conn.ghost_name ≡ tx.old.conn.ghost_name }
    ensures reads { ReadsKept (λ c key. key ≡ c.key number) (state S.Store tx.old.conn.now) (state S.Store tx.new.conn.now) result }
    ensures serves { Serves (state S.Store tx.old.conn.now) (state S.Store tx.new.conn.now) result }
{
    match read_key(tx, number)? {
        Some(key) => Ok(Some(small_key(key)?)),
        None => Ok(None),
    }
}

// The set of the key, if there is one.
fn read_found_set<S: Alter>(
    alloc: Global,
    tx: &mut Transaction<'_, S>,
    key: u32,
) -> Result<Option<FoundSet>, StoreFault>
    ensures same_reference { tx.new.conn.ghost_name ≡ tx.old.conn.ghost_name }
    ensures reads { Reads (λ c found. found ≡ option_map (found_under key) (image c key)) (state S.Store tx.old.conn.now) (state S.Store tx.new.conn.now) result }
    ensures serves { Serves (state S.Store tx.old.conn.now) (state S.Store tx.new.conn.now) result }
{
    match read_image(alloc, tx, key)? {
        Some(image) => Ok(Some(FoundSet {
            key: u64::from(key),
            image,
        })),
        None => Ok(None),
    }
}

/// The set that the bug is in, if there is such a bug.
/// `Memory` where there is none for its image.
pub fn read_set_of<S: Alter>(
    alloc: Global,
    tx: &mut Transaction<'_, S>,
    number: u32,
) -> Result<Option<FoundSet>, StoreFault>
    ensures same_reference { tx.new.conn.ghost_name ≡ tx.old.conn.ghost_name }
    ensures reads { ReadsKept (λ c found. IsSetFound c number found) (state S.Store tx.old.conn.now) (state S.Store tx.new.conn.now) result }
    ensures serves { Serves (state S.Store tx.old.conn.now) (state S.Store tx.new.conn.now) result }
{
    match read_small_key(tx, number)? {
        Some(key) => read_found_set(alloc, tx, key),
        None => Ok(None),
    }
}
