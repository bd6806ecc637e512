//! Edits that put something under a number, or at a place.

ghost use Rattle.std.specs.Prelude.{◌≡◌};
ghost use Rattle.sqlite.specs.Held.{state};
ghost use Rattle.table_content.specs.declared.edit.Edit.TheVariants.{PutFields, PutMember, PutMark, PutBlocker, PutAffects, PutNear, PutOutcome, PutOutcomeNumber};
ghost use Rattle.table_schema.specs.Steps.{Plays, Serves};

use base_faults::StoreFault;
use bug_record::{Member, Outcome};
use sqlite::{Alter, Transaction};
use table_content::SetFields;
use table_nodes::{add_near, add_outcome, add_outcome_number};
use table_schema::parameter;
use table_sets::{add_affected, add_blocker, add_bug, add_fields, add_mark};
use version_marks::Near;
use version_nodes::{MarkKind, Node};

// The set of the key gets these fields.
pub(crate) fn put_fields<S: Alter>(
    tx: &mut Transaction<'_, S>,
    key: u64,
    fields: &SetFields,
) -> Result<(), StoreFault>
    ensures same_reference { tx.new.conn.ghost_name ≡ tx.old.conn.ghost_name }
    ensures plays { Plays (PutFields key fields.now) (state S.Store tx.old.conn.now) (state S.Store tx.new.conn.now) result }
    ensures serves { Serves (state S.Store tx.old.conn.now) (state S.Store tx.new.conn.now) result }
{
    let key = parameter(key)?;
    add_fields(tx, key, fields)
}

// The bug comes into the set of the key.
pub(crate) fn put_member<S: Alter>(
    tx: &mut Transaction<'_, S>,
    key: u64,
    member: &Member,
) -> Result<(), StoreFault>
    ensures same_reference { tx.new.conn.ghost_name ≡ tx.old.conn.ghost_name }
    ensures plays { Plays (PutMember key member.now) (state S.Store tx.old.conn.now) (state S.Store tx.new.conn.now) result }
    ensures serves { Serves (state S.Store tx.old.conn.now) (state S.Store tx.new.conn.now) result }
{
    let key = parameter(key)?;
    let number = parameter(member.number)?;
    add_bug(
        tx,
        key,
        number,
        member.title.as_str(),
        member.submitter.as_str(),
    )
}

// The set of the key is marked at a node.
pub(crate) fn put_mark<S: Alter>(
    tx: &mut Transaction<'_, S>,
    key: u64,
    kind: MarkKind,
    node: &Node,
) -> Result<(), StoreFault>
    ensures same_reference { tx.new.conn.ghost_name ≡ tx.old.conn.ghost_name }
    ensures plays { Plays (PutMark key kind node.now) (state S.Store tx.old.conn.now) (state S.Store tx.new.conn.now) result }
    ensures serves { Serves (state S.Store tx.old.conn.now) (state S.Store tx.new.conn.now) result }
{
    let key = parameter(key)?;
    add_mark(tx, key, kind, node)
}

// The set of the key waits on one more bug.
pub(crate) fn put_blocker<S: Alter>(
    tx: &mut Transaction<'_, S>,
    key: u64,
    blocker: u64,
) -> Result<(), StoreFault>
    ensures same_reference { tx.new.conn.ghost_name ≡ tx.old.conn.ghost_name }
    ensures plays { Plays (PutBlocker key blocker) (state S.Store tx.old.conn.now) (state S.Store tx.new.conn.now) result }
    ensures serves { Serves (state S.Store tx.old.conn.now) (state S.Store tx.new.conn.now) result }
{
    let key = parameter(key)?;
    let blocker = parameter(blocker)?;
    add_blocker(tx, key, blocker)
}

// The set of the key affects one more package.
pub(crate) fn put_affects<S: Alter>(
    tx: &mut Transaction<'_, S>,
    key: u64,
    package: &str,
) -> Result<(), StoreFault>
    ensures same_reference { tx.new.conn.ghost_name ≡ tx.old.conn.ghost_name }
    ensures plays { Plays (PutAffects key «package».now) (state S.Store tx.old.conn.now) (state S.Store tx.new.conn.now) result }
    ensures serves { Serves (state S.Store tx.old.conn.now) (state S.Store tx.new.conn.now) result }
{
    let key = parameter(key)?;
    add_affected(tx, key, package)
}

// The nearest mark of the set of the key, as seen from a node.
pub(crate) fn put_near<S: Alter>(
    tx: &mut Transaction<'_, S>,
    key: u64,
    node: &Node,
    near: &Near,
) -> Result<(), StoreFault>
    ensures same_reference { tx.new.conn.ghost_name ≡ tx.old.conn.ghost_name }
    ensures plays { Plays (PutNear key node.now near.now) (state S.Store tx.old.conn.now) (state S.Store tx.new.conn.now) result }
    ensures serves { Serves (state S.Store tx.old.conn.now) (state S.Store tx.new.conn.now) result }
{
    let key = parameter(key)?;
    add_near(tx, key, node, near)
}

// The outcome is kept at this place of the message of the id.
pub(crate) fn put_outcome<S: Alter>(
    tx: &mut Transaction<'_, S>,
    id: &str,
    place: u64,
    outcome: &Outcome,
) -> Result<(), StoreFault>
    ensures same_reference { tx.new.conn.ghost_name ≡ tx.old.conn.ghost_name }
    ensures plays { Plays (PutOutcome id.now place outcome.now) (state S.Store tx.old.conn.now) (state S.Store tx.new.conn.now) result }
    ensures serves { Serves (state S.Store tx.old.conn.now) (state S.Store tx.new.conn.now) result }
{
    let place = parameter(place)?;
    add_outcome(tx, id, place, outcome)
}

// The accepted line at this place of the message of the id has one more number.
pub(crate) fn put_outcome_number<S: Alter>(
    tx: &mut Transaction<'_, S>,
    id: &str,
    place: u64,
    number: u64,
) -> Result<(), StoreFault>
    ensures same_reference { tx.new.conn.ghost_name ≡ tx.old.conn.ghost_name }
    ensures plays { Plays (PutOutcomeNumber id.now place number) (state S.Store tx.old.conn.now) (state S.Store tx.new.conn.now) result }
    ensures serves { Serves (state S.Store tx.old.conn.now) (state S.Store tx.new.conn.now) result }
{
    let place = parameter(place)?;
    let number = parameter(number)?;
    add_outcome_number(tx, id, place, number)
}
