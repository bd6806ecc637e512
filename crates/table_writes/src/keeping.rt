//! An outcome that is kept, with a change of sets, within one transaction.

ghost use Rattle.std.specs.Prelude.{◌≡◌, Some, IfOk, IfErr};
ghost use Rattle.std.specs.Option.{option_copied};
ghost use Rattle.sqlite.specs.Held.{state};
ghost use Rattle.table_content.specs.KeptOutcomes.{MayBePut, kept_after, with_kept};
ghost use Rattle.table_content.specs.Kept.{IsKeptContent};
ghost use Rattle.table_schema.specs.Steps.{Acts, Serves};
ghost use Rattle.base_faults.specs.declared.store_fault.StoreFault.TheVariants.{Memory};
ghost use Rattle.table_writes.specs.Needs.{HasTree, HasTreeIfAny, IsKnownIn, IsNextPlace};
ghost use Rattle.table_writes.specs.Lines.{IsLine, AreEditsOf};

use crate::change::put_change;
use crate::play::play_or_ask;
use base_faults::StoreFault;
use bug_record::{Change, Outcome, Sequence, SetImage};
use sqlite::{Alter, Transaction};
use std::alloc::Global;
use table_content::{Edit, keep_edits};
use version_marks::Family;

// The edits of an outcome at the place of a message, or that there was no memory.
fn edits_at(
    alloc: Global,
    id: &str,
    from: &str,
    message: &str,
    place: u64,
    outcome: &Outcome,
) -> Result<Sequence<Edit>, StoreFault>
    ensures value { IfOk result (AreEditsOf id.now from.now message.now place outcome.now) }
    ensures memory { IfErr result (λ fault. fault ≡ Memory) }
{
    Ok(keep_edits(alloc, id, from, message, place, outcome)?)
}

// Keeps an outcome behind those that are kept of its message, where this place comes next.
fn put_outcome<S: Alter>(
    alloc: Global,
    tx: &mut Transaction<'_, S>,
    id: &str,
    from: &str,
    message: &str,
    place: u64,
    outcome: &Outcome,
) -> Result<(), StoreFault>
    ensures same_reference { tx.new.conn.ghost_name ≡ tx.old.conn.ghost_name }
    ensures acts { Acts (state S.Store tx.old.conn.now) (state S.Store tx.new.conn.now) result
        (λ c. IsLine id.now from.now message.now outcome.now c × IsNextPlace id.now place c)
        (λ c d _. IsLine id.now from.now message.now outcome.now c → IsNextPlace id.now place c → d ≡ with_kept id.now from.now message.now outcome.now c) }
    ensures serves { Serves (state S.Store tx.old.conn.now) (state S.Store tx.new.conn.now) result }
{
    let edits = edits_at(alloc, id, from, message, place, outcome)?;
    play_or_ask(tx, edits.as_slice())
}

// Carries a change out, and keeps the outcome of its line.
fn put_both<S: Alter>(
    alloc: Global,
    tx: &mut Transaction<'_, S>,
    family: Option<&Family>,
    id: &str,
    from: &str,
    message: &str,
    place: u64,
    outcome: &Outcome,
    change: &Change,
    old: Option<&SetImage>,
) -> Result<(), StoreFault>
    ensures same_reference { tx.new.conn.ghost_name ≡ tx.old.conn.ghost_name }
    ensures acts { Acts (state S.Store tx.old.conn.now) (state S.Store tx.new.conn.now) result
        (λ c. IsKeptContent c × MayBePut id.now from.now message.now outcome.now (Some change.now) c × HasTree (option_copied family.entry) c change.now × IsKnownIn (option_copied old.entry) c × IsNextPlace id.now place c)
        (λ c d _. IsKeptContent c → MayBePut id.now from.now message.now outcome.now (Some change.now) c → HasTree (option_copied family.entry) c change.now → IsKnownIn (option_copied old.entry) c → IsNextPlace id.now place c →
        d ≡ kept_after id.now from.now message.now outcome.now (Some change.now) c) }
    ensures serves { Serves (state S.Store tx.old.conn.now) (state S.Store tx.new.conn.now) result }
{
    put_change(alloc, tx, family, change, old)?;
    put_outcome(alloc, tx, id, from, message, place, outcome)
}

/// Carries a change out, if there is one, and keeps the outcome of its line behind those that are
/// kept of the message of the id, where this place comes next; the message becomes known with its
/// first outcome.
/// The tree may be missing where no mark changes, and an image that is known is as in `put_change`.
/// It fails for memory, the disk or its size alone, where the change fits kept tables, and the
/// outcome and the message may be kept in them.
pub fn put_kept<S: Alter>(
    alloc: Global,
    tx: &mut Transaction<'_, S>,
    family: Option<&Family>,
    id: &str,
    from: &str,
    message: &str,
    place: u64,
    outcome: &Outcome,
    change: Option<&Change>,
    old: Option<&SetImage>,
) -> Result<(), StoreFault>
    ensures same_reference { tx.new.conn.ghost_name ≡ tx.old.conn.ghost_name }
    ensures acts { Acts (state S.Store tx.old.conn.now) (state S.Store tx.new.conn.now) result
        (λ c. IsKeptContent c × MayBePut id.now from.now message.now outcome.now (option_copied change.entry) c × HasTreeIfAny (option_copied family.entry) c (option_copied change.entry) × IsKnownIn (option_copied old.entry) c × IsNextPlace id.now place c)
        (λ c d _. IsKeptContent c → MayBePut id.now from.now message.now outcome.now (option_copied change.entry) c → HasTreeIfAny (option_copied family.entry) c (option_copied change.entry) → IsKnownIn (option_copied old.entry) c → IsNextPlace id.now place c →
        d ≡ kept_after id.now from.now message.now outcome.now (option_copied change.entry) c) }
    ensures serves { Serves (state S.Store tx.old.conn.now) (state S.Store tx.new.conn.now) result }
{
    match change {
        Some(change) => put_both(
            alloc, tx, family, id, from, message, place, outcome, change, old,
        ),
        None => put_outcome(alloc, tx, id, from, message, place, outcome),
    }
}
