//! The edits of a set whose bugs stay.

ghost use Rattle.std.specs.Prelude.{◌≡◌, Some, IfOk, IfErr, IfSome};
ghost use Rattle.store_keys.specs.Keys.{key_of};
ghost use Rattle.std.specs.Option.{option_copied};
ghost use Rattle.sqlite.specs.Held.{state};
ghost use Rattle.base_faults.specs.declared.store_fault.StoreFault.TheVariants.{Memory};
ghost use Rattle.table_schema.specs.Steps.{Reads};
ghost use Rattle.table_content.specs.Content.{Content};
ghost use Rattle.table_writes.specs.Needs.{IsKnownIn};
ghost use Rattle.table_writes.specs.Plans.{IsStay, IsStayOf, IsStayPlan};

use base_faults::StoreFault;
use bug_images::equal_members;
use bug_record::{Sequence, SetImage, Shared};
use sqlite::{Alter, Transaction};
use std::alloc::Global;
use store_keys::key_of;
use table_content::{Edit, SetFields, stay_edits};
use table_schema::parameter;
use table_sets::{has_members, read_fields, read_shared};
use version_marks::Family;

// The edits of an image whose bugs stay, where these shared fields stand under its key.
fn stay_of(
    alloc: Global,
    family: &Family,
    image: &SetImage,
    before: &Shared,
) -> Result<Sequence<Edit>, StoreFault>
    ensures plan { IfOk result (λ edits. IsStay family.now before.now image.now edits) }
    ensures memory { IfErr result (λ fault. fault ≡ Memory) }
{
    Ok(stay_edits(alloc, family, image, before)?)
}

// The same, where its set has these fields in its own row, as its other rows stand now.
fn stay_image<S: Alter>(
    alloc: Global,
    tx: &mut Transaction<'_, S>,
    family: &Family,
    image: &SetImage,
    fields: SetFields,
) -> Result<Sequence<Edit>, StoreFault>
    ensures same_reference { tx.new.conn.ghost_name ≡ tx.old.conn.ghost_name }
    ensures reads { Reads (λ c edits. c.fields (key_of image.now) ≡ Some fields → IsStayOf c family.now image.now edits)
        (state S.Store tx.old.conn.now) (state S.Store tx.new.conn.now) result }
{
    let key = parameter(key_of(image))?;
    let before = read_shared(alloc, tx, key, fields)?;
    stay_of(alloc, family, image, &before)
}

// The same, if there is such a set, as all its rows stand now.
fn stay_set<S: Alter>(
    alloc: Global,
    tx: &mut Transaction<'_, S>,
    family: &Family,
    image: &SetImage,
) -> Result<Option<Sequence<Edit>>, StoreFault>
    ensures same_reference { tx.new.conn.ghost_name ≡ tx.old.conn.ghost_name }
    ensures reads { Reads (λ c plan. IfSome plan (λ edits. IsStayOf c family.now image.now edits)) (state S.Store tx.old.conn.now) (state S.Store tx.new.conn.now) result }
{
    let key = parameter(key_of(image))?;
    let Some(fields) = read_fields(alloc, tx, key)? else {
        return Ok(None);
    };
    Ok(Some(stay_image(alloc, tx, family, image, fields)?))
}

// The edits of an image, if its bugs, with their titles and submitters, are those that stand under
// its key.
fn read_plan<S: Alter>(
    alloc: Global,
    tx: &mut Transaction<'_, S>,
    family: &Family,
    image: &SetImage,
) -> Result<Option<Sequence<Edit>>, StoreFault>
    ensures same_reference { tx.new.conn.ghost_name ≡ tx.old.conn.ghost_name }
    ensures reads { Reads (λ c plan. IfSome plan (λ edits. IsStayPlan c family.now image.now edits)) (state S.Store tx.old.conn.now) (state S.Store tx.new.conn.now) result }
{
    let key = parameter(key_of(image))?;
    let stays = has_members(tx, key, image.members.as_slice())?;
    if !stays {
        return Ok(None);
    }
    stay_set(alloc, tx, family, image)
}

// The edits of an image, if an old one is known that has the same bugs.
fn known_plan(
    alloc: Global,
    family: &Family,
    image: &SetImage,
    old: Option<&SetImage>,
) -> Result<Option<Sequence<Edit>>, StoreFault>
    ensures plan { IfOk result (λ plan. IfSome plan (λ edits. (c : Content) → IsKnownIn (option_copied old.entry) c → IsStayPlan c family.now image.now edits)) }
    ensures memory { IfErr result (λ fault. fault ≡ Memory) }
{
    let Some(old) = old else {
        return Ok(None);
    };
    if !equal_members(old.members.as_slice(), image.members.as_slice()) {
        return Ok(None);
    }
    let before = old.shared.fields();
    Ok(Some(stay_of(alloc, family, image, before)?))
}

/// The edits of an image, if its bugs, with their titles and submitters, are those of the set whose
/// image is known, or else those that stand under its key.
/// Where the first is so, nothing is read.
pub(crate) fn stay_plan<S: Alter>(
    alloc: Global,
    tx: &mut Transaction<'_, S>,
    family: &Family,
    image: &SetImage,
    old: Option<&SetImage>,
) -> Result<Option<Sequence<Edit>>, StoreFault>
    ensures same_reference { tx.new.conn.ghost_name ≡ tx.old.conn.ghost_name }
    ensures reads { Reads (λ c plan. IsKnownIn (option_copied old.entry) c → IfSome plan (λ edits. IsStayPlan c family.now image.now edits)) (state S.Store tx.old.conn.now) (state S.Store tx.new.conn.now) result }
{
    match known_plan(alloc, family, image, old)? {
        Some(edits) => Ok(Some(edits)),
        None => read_plan(alloc, tx, family, image),
    }
}
