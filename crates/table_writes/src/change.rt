//! A change of sets, carried out within one transaction.

ghost use Rattle.std.specs.Prelude.{◌≡◌, [], ◌∷◌, None, IfOk, IfErr, ⊤};
ghost use Rattle.std.specs.Option.{option_copied};
ghost use Rattle.sqlite.specs.Held.{state};
ghost use Rattle.table_content.specs.Changes.{FitsContent, changed, with_images, cleared_for};
ghost use Rattle.table_content.specs.Kept.{IsKeptContent};
ghost use Rattle.table_schema.specs.Steps.{Acts, PlaysAll, Reads, Serves};
ghost use Rattle.table_writes.specs.Needs.{IsTreeFor, HasTree, IsKnownIn};
ghost use Rattle.table_writes.specs.Plans.{IsPlan, IsPlanOf, ArePlans, cleared_edits, put_edits};
ghost use Rattle.base_faults.specs.declared.store_fault.StoreFault.TheVariants.{Memory};

use crate::play::play_all;
use crate::staying::stay_plan;
use base_faults::StoreFault;
use bug_record::{Change, SetImage};
use sqlite::{Alter, Transaction};
use std::alloc::{AllocError, Global};
use store_keys::key_of;
use table_content::{RowEdits, row_edits};
use table_nodes::{read_next, write_next};
use table_schema::parameter;
use table_sets::{Marks, read_marks};
use version_marks::Family;

// The edits of an image, where these marks stand under its key.
fn plan_of(
    alloc: Global,
    family: &Family,
    image: &SetImage,
    marks: &Marks,
) -> Result<RowEdits, StoreFault>
    ensures plan { IfOk result (λ plan. IsPlan family.now marks.now.found marks.now.fixed image.now plan) }
    ensures memory { IfErr result (λ fault. fault ≡ Memory) }
{
    let found = marks.found.as_slice();
    let fixed = marks.fixed.as_slice();
    Ok(row_edits(alloc, family, image, found, fixed)?)
}

// The edits of an image, as its marks stand now.
fn plan_image<S: Alter>(
    alloc: Global,
    tx: &mut Transaction<'_, S>,
    family: &Family,
    image: &SetImage,
) -> Result<RowEdits, StoreFault>
    ensures same_reference { tx.new.conn.ghost_name ≡ tx.old.conn.ghost_name }
    ensures reads { Reads (λ c plan. IsPlanOf c family.now image.now plan) (state S.Store tx.old.conn.now) (state S.Store tx.new.conn.now) result }
{
    let key = parameter(key_of(image))?;
    let marks = read_marks(alloc, tx, key)?;
    plan_of(alloc, family, image, &marks)
}

// The edits of all images, as the marks stand now.
fn plan_images<S: Alter>(
    alloc: Global,
    tx: &mut Transaction<'_, S>,
    family: &Family,
    images: &[SetImage],
) -> Result<Vec<RowEdits>, StoreFault>
    ensures same_reference { tx.new.conn.ghost_name ≡ tx.old.conn.ghost_name }
    ensures reads { Reads (λ c plans. ArePlans c family.now images.now plans.items) (state S.Store tx.old.conn.now) (state S.Store tx.new.conn.now) result }
{
    let mut plans = Vec::new(alloc);
    for image in images {
        let plan = plan_image(alloc, tx, family, image)?;
        plans.push(plan).map_err(AllocError::from)?;
    }
    Ok(plans)
}

// What goes of all images goes.
fn clear_images<S: Alter>(tx: &mut Transaction<'_, S>, plans: &[RowEdits]) -> Result<(), StoreFault>
    ensures same_reference { tx.new.conn.ghost_name ≡ tx.old.conn.ghost_name }
    ensures plays { PlaysAll (cleared_edits plans.now) (state S.Store tx.old.conn.now) (state S.Store tx.new.conn.now) result }
{
    for plan in plans {
        play_all(tx, plan.cleared.as_slice())?;
    }
    Ok(())
}

// What comes of all images comes.
fn put_images<S: Alter>(tx: &mut Transaction<'_, S>, plans: &[RowEdits]) -> Result<(), StoreFault>
    ensures same_reference { tx.new.conn.ghost_name ≡ tx.old.conn.ghost_name }
    ensures plays { PlaysAll (put_edits plans.now) (state S.Store tx.old.conn.now) (state S.Store tx.new.conn.now) result }
{
    for plan in plans {
        play_all(tx, plan.put.as_slice())?;
    }
    Ok(())
}

// The sets of all images are written anew: what stands under the numbers of their bugs goes, and
// then they come.
fn rewrite_sets<S: Alter>(
    alloc: Global,
    tx: &mut Transaction<'_, S>,
    family: &Family,
    change: &Change,
) -> Result<(), StoreFault>
    ensures same_reference { tx.new.conn.ghost_name ≡ tx.old.conn.ghost_name }
    ensures acts { Acts (state S.Store tx.old.conn.now) (state S.Store tx.new.conn.now) result
        (λ c. IsKeptContent c × FitsContent c change.now × IsTreeFor family.now c change.now)
        (λ c d _. IsKeptContent c → FitsContent c change.now → IsTreeFor family.now c change.now → d ≡ with_images change.now.images (cleared_for c change.now)) }
{
    let plans = plan_images(alloc, tx, family, change.images.as_slice())?;
    clear_images(tx, plans.as_slice())?;
    put_images(tx, plans.as_slice())
}

// The set of the only image is written: where its bugs stay, they are not touched.
fn put_one<S: Alter>(
    alloc: Global,
    tx: &mut Transaction<'_, S>,
    family: &Family,
    change: &Change,
    image: &SetImage,
    old: Option<&SetImage>,
) -> Result<(), StoreFault>
    requires { change.now.images ≡ image.now ∷ [] }
    ensures same_reference { tx.new.conn.ghost_name ≡ tx.old.conn.ghost_name }
    ensures acts { Acts (state S.Store tx.old.conn.now) (state S.Store tx.new.conn.now) result
        (λ c. IsKeptContent c × FitsContent c change.now × IsTreeFor family.now c change.now × IsKnownIn (option_copied old.entry) c)
        (λ c d _. IsKeptContent c → FitsContent c change.now → IsTreeFor family.now c change.now → IsKnownIn (option_copied old.entry) c → d ≡ with_images change.now.images (cleared_for c change.now)) }
{
    match stay_plan(alloc, tx, family, image, old)? {
        Some(edits) => play_all(tx, edits.as_slice()),
        None => rewrite_sets(alloc, tx, family, change),
    }
}

// The sets of all images are written.
fn put_sets<S: Alter>(
    alloc: Global,
    tx: &mut Transaction<'_, S>,
    family: &Family,
    change: &Change,
    old: Option<&SetImage>,
) -> Result<(), StoreFault>
    ensures same_reference { tx.new.conn.ghost_name ≡ tx.old.conn.ghost_name }
    ensures acts { Acts (state S.Store tx.old.conn.now) (state S.Store tx.new.conn.now) result
        (λ c. IsKeptContent c × FitsContent c change.now × IsTreeFor family.now c change.now × IsKnownIn (option_copied old.entry) c)
        (λ c d _. IsKeptContent c → FitsContent c change.now → IsTreeFor family.now c change.now → IsKnownIn (option_copied old.entry) c → d ≡ with_images change.now.images (cleared_for c change.now)) }
{
    match change.images.as_slice() {
        [image] => put_one(alloc, tx, family, change, image, old),
        _ => rewrite_sets(alloc, tx, family, change),
    }
}

// The next number to give is written where it is another one.
fn put_next<S: Alter>(tx: &mut Transaction<'_, S>, next: u64) -> Result<(), StoreFault>
    ensures same_reference { tx.new.conn.ghost_name ≡ tx.old.conn.ghost_name }
    ensures acts { Acts (state S.Store tx.old.conn.now) (state S.Store tx.new.conn.now) result (λ _. ⊤) (λ c d _. d ≡ record c { next = next }) }
    ensures serves { Serves (state S.Store tx.old.conn.now) (state S.Store tx.new.conn.now) result }
{
    let number = parameter(next)?;
    if read_next(tx)? == next {
        return Ok(());
    }
    write_next(tx, number)
}

// Carries a change out, over a tree that is the tables' where a mark changes.
fn put_over<S: Alter>(
    alloc: Global,
    tx: &mut Transaction<'_, S>,
    family: &Family,
    change: &Change,
    old: Option<&SetImage>,
) -> Result<(), StoreFault>
    ensures same_reference { tx.new.conn.ghost_name ≡ tx.old.conn.ghost_name }
    ensures acts { Acts (state S.Store tx.old.conn.now) (state S.Store tx.new.conn.now) result
        (λ c. IsKeptContent c × FitsContent c change.now × IsTreeFor family.now c change.now × IsKnownIn (option_copied old.entry) c)
        (λ c d _. IsKeptContent c → FitsContent c change.now → IsTreeFor family.now c change.now → IsKnownIn (option_copied old.entry) c → d ≡ changed c change.now) }
    ensures serves { Serves (state S.Store tx.old.conn.now) (state S.Store tx.new.conn.now) result }
{
    put_sets(alloc, tx, family, change, old)?;
    put_next(tx, change.next)
}

// Carries a change out in which no mark changes.
fn put_without_tree<S: Alter>(
    alloc: Global,
    tx: &mut Transaction<'_, S>,
    change: &Change,
    old: Option<&SetImage>,
) -> Result<(), StoreFault>
    ensures same_reference { tx.new.conn.ghost_name ≡ tx.old.conn.ghost_name }
    ensures acts { Acts (state S.Store tx.old.conn.now) (state S.Store tx.new.conn.now) result
        (λ c. IsKeptContent c × FitsContent c change.now × HasTree None c change.now × IsKnownIn (option_copied old.entry) c)
        (λ c d _. IsKeptContent c → FitsContent c change.now → HasTree None c change.now → IsKnownIn (option_copied old.entry) c → d ≡ changed c change.now) }
    ensures serves { Serves (state S.Store tx.old.conn.now) (state S.Store tx.new.conn.now) result }
{
    let family = Family::new(alloc);
    put_over(alloc, tx, &family, change, old)
}

/// Carries a change out: what stands under the numbers of its bugs goes, its sets come, and last
/// the next number.
/// Where it has one image, whose bugs stay, these are not touched, and the next number is written
/// only where it is another one.
/// The tree may be missing where no mark changes.
/// Where the image of a set is known as the tables say it, it is not read: if the only new image
/// has its bugs, with their titles and submitters.
/// It fails for memory, the disk or its size alone, where the change fits kept tables.
pub fn put_change<S: Alter>(
    alloc: Global,
    tx: &mut Transaction<'_, S>,
    family: Option<&Family>,
    change: &Change,
    old: Option<&SetImage>,
) -> Result<(), StoreFault>
    ensures same_reference { tx.new.conn.ghost_name ≡ tx.old.conn.ghost_name }
    ensures acts { Acts (state S.Store tx.old.conn.now) (state S.Store tx.new.conn.now) result
        (λ c. IsKeptContent c × FitsContent c change.now × HasTree (option_copied family.entry) c change.now × IsKnownIn (option_copied old.entry) c)
        (λ c d _. IsKeptContent c → FitsContent c change.now → HasTree (option_copied family.entry) c change.now → IsKnownIn (option_copied old.entry) c → d ≡ changed c change.now) }
    ensures serves { Serves (state S.Store tx.old.conn.now) (state S.Store tx.new.conn.now) result }
{
    match family {
        Some(family) => put_over(alloc, tx, family, change, old),
        None => put_without_tree(alloc, tx, change, old),
    }
}
