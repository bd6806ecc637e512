//! The first marks of a line, of all sets at once.

ghost use Rattle.std.specs.Prelude.{◌≡◌, ◌==◌, ℕ, Some, None, OnOk, if◌then◌else◌};
ghost use Rattle.std.specs.Option.{option_or};
ghost use Rattle.std.specs.Ordering.{nat_cmp};
ghost use Rattle.std.specs.BTreeMap.{get};
ghost use Rattle.bug_record.specs.Sets.{has};
ghost use Rattle.table_nodes.specs.FirstMarks.{mark, mark_at};

use std::alloc::AllocError;
use std::collections::BTreeMap;
use version_marks::Near;
use version_nodes::{MarkKind, Node};

// Adds the mark of the set of this key, unless it has one.
fn add_first(
    first: &mut BTreeMap<u64, Near>,
    node: &Node,
    key: u64,
    kind: MarkKind,
) -> Result<(), AllocError>
    ensures { OnOk result ((k : ℕ) → get nat_cmp first.new k
        ≡ option_or (get nat_cmp first.old k) (if key == k then Some (mark node.now kind) else None)) }
{
    if !first.contains_key(&key) {
        let mark = node.copy()?;
        first.insert(key, Near { mark, kind })?;
    }
    Ok(())
}

// Adds the marks of this kind of the sets of these keys, unless they have one.
fn add_kind(
    first: &mut BTreeMap<u64, Near>,
    node: &Node,
    keys: &[u64],
    kind: MarkKind,
) -> Result<(), AllocError>
    ensures { OnOk result ((k : ℕ) → get nat_cmp first.new k
        ≡ option_or (get nat_cmp first.old k) (if has keys.now k then Some (mark node.now kind) else None)) }
{
    for key in keys {
        add_first(first, node, *key, kind)?;
    }
    Ok(())
}

/// Adds the marks at one more node of a line to the first marks of the line, by the keys of their
/// sets: a set that has one keeps it, and one that is found and fixed at the node is found there.
/// The error is that there was no memory; some of the marks may have been added then.
/// This project's own rule.
pub fn add_first_marks(
    first: &mut BTreeMap<u64, Near>,
    node: &Node,
    found: &[u64],
    fixed: &[u64],
) -> Result<(), AllocError>
    ensures { OnOk result ((k : ℕ) → get nat_cmp first.new k
        ≡ option_or (get nat_cmp first.old k) (mark_at node.now found.now fixed.now k)) }
{
    add_kind(first, node, found, MarkKind::Found)?;
    add_kind(first, node, fixed, MarkKind::Fixed)
}
