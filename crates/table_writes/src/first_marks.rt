//! The first marks of a line, of all sets at once.

ghost use Rattle.std.specs.Prelude.{◌≡◌, [], ◌∷◌, ℕ, IfOk, OnOk};
ghost use Rattle.std.specs.Option.{option_or};
ghost use Rattle.std.specs.Ordering.{nat_cmp};
ghost use Rattle.std.specs.BTreeMap.{get};
ghost use Rattle.sqlite.specs.Held.{state};
ghost use Rattle.version_nodes.specs.declared.statuses.MarkKind.TheVariants.{Found, Fixed};
ghost use Rattle.version_marks.specs.Nearest.{nearest_on};
ghost use Rattle.table_nodes.specs.FirstMarks.{mark_at};
ghost use Rattle.table_schema.specs.Steps.{Reads};
ghost use Rattle.table_writes.specs.Marked.{keys_of_kind};

use base_faults::StoreFault;
use sqlite::{Alter, Transaction};
use std::alloc::{AllocError, Global};
use std::collections::BTreeMap;
use table_encodings::number_of_kind;
use table_nodes::add_first_marks;
use table_sets::{SetMark, read_marks_at};
use version_marks::Near;
use version_nodes::{MarkKind, Node};

// The keys of the marks of a kind.
fn keys_of_kind(alloc: Global, kind: MarkKind, marks: &[SetMark]) -> Result<Vec<u64>, AllocError>
    ensures { IfOk result (λ keys. keys.items ≡ keys_of_kind kind marks.now) }
{
    let mut keys = Vec::new(alloc);
    for mark in marks {
        if number_of_kind(mark.kind) == number_of_kind(kind) {
            keys.push(mark.key)?;
        }
    }
    Ok(keys)
}

// Adds the marks at one more node of a line to the first marks of the line.
fn add_marks(
    alloc: Global,
    first: &mut BTreeMap<u64, Near>,
    node: &Node,
    marks: &[SetMark],
) -> Result<(), AllocError>
    ensures { OnOk result ((k : ℕ) → get nat_cmp first.new k
        ≡ option_or (get nat_cmp first.old k) (mark_at node.now (keys_of_kind Found marks.now) (keys_of_kind Fixed marks.now) k)) }
{
    let found = keys_of_kind(alloc, MarkKind::Found, marks)?;
    let fixed = keys_of_kind(alloc, MarkKind::Fixed, marks)?;
    add_first_marks(first, node, found.as_slice(), fixed.as_slice())
}

// Adds the marks of all sets at one more node of a line to the first marks of the line.
fn read_marks_of<S: Alter>(
    alloc: Global,
    tx: &mut Transaction<'_, S>,
    first: &mut BTreeMap<u64, Near>,
    node: &Node,
) -> Result<(), StoreFault>
    ensures same_reference { tx.new.conn.ghost_name ≡ tx.old.conn.ghost_name }
    ensures reads { Reads (λ c _. (k : ℕ) → get nat_cmp first.new k
        ≡ option_or (get nat_cmp first.old k) (nearest_on (c.found k) (c.fixed k) (node.now ∷ [])))
        (state S.Store tx.old.conn.now) (state S.Store tx.new.conn.now) result }
{
    let marks = read_marks_at(alloc, tx, node)?;
    add_marks(alloc, first, node, marks.as_slice())?;
    Ok(())
}

// The first marks of all sets along a line, by their keys.
pub(crate) fn read_first_marks<S: Alter>(
    alloc: Global,
    tx: &mut Transaction<'_, S>,
    line: &[Node],
) -> Result<BTreeMap<u64, Near>, StoreFault>
    ensures same_reference { tx.new.conn.ghost_name ≡ tx.old.conn.ghost_name }
    ensures reads { Reads (λ c first. (k : ℕ) → get nat_cmp first k ≡ nearest_on (c.found k) (c.fixed k) line.now)
        (state S.Store tx.old.conn.now) (state S.Store tx.new.conn.now) result }
{
    let mut first = BTreeMap::new(alloc);
    for node in line {
        read_marks_of(alloc, tx, &mut first, node)?;
    }
    Ok(first)
}
