//! The rows of nearest marks that a branch makes.

ghost use Rattle.std.specs.Prelude.{◌≡◌, ◌&&◌, true, All, IfOk, IfErr};
ghost use Rattle.sqlite.specs.Held.{state};
ghost use Rattle.version_nodes.specs.Trees.{has_node, knows, line};
ghost use Rattle.version_marks.specs.Nearest.{meets, is_once};
ghost use Rattle.base_faults.specs.declared.store_fault.StoreFault.TheVariants.{Memory};
ghost use Rattle.table_content.specs.Branches.{AreMissing};
ghost use Rattle.table_content.specs.Kept.{IsKeptContent};
ghost use Rattle.table_nodes.specs.Grown.{IsGrown};
ghost use Rattle.table_nodes.specs.Missing.{AreRowsOn};
ghost use Rattle.table_schema.specs.Steps.{Reads};
ghost use Rattle.table_writes.specs.Steps.{AddsRows};

use crate::first_marks::read_first_marks;
use crate::new_rows::push_new_rows;
use base_faults::StoreFault;
use sqlite::{Alter, Transaction};
use std::alloc::Global;
use table_content::SetNear;
use version_marks::{Family, affected};
use version_nodes::Node;

// The line of a node.
fn line_of(family: &Family, node: &Node) -> Result<Vec<Node>, StoreFault>
    ensures value { IfOk result (λ nodes. nodes.items ≡ line family.now node.now) }
    ensures memory { IfErr result (λ fault. fault ≡ Memory) }
{
    Ok(family.tree().line(node)?)
}

// Those rows of a node come behind the others that are not there yet.
fn push_rows_of<S: Alter>(
    alloc: Global,
    tx: &mut Transaction<'_, S>,
    family: &Family,
    rows: &mut Vec<SetNear>,
    node: &Node,
) -> Result<(), StoreFault>
    ensures same_reference { tx.new.conn.ghost_name ≡ tx.old.conn.ghost_name }
    ensures reads { Reads (λ c _. AddsRows c family.now node.now rows.old.items rows.new.items)
        (state S.Store tx.old.conn.now) (state S.Store tx.new.conn.now) result }
{
    let line = line_of(family, node)?;
    let first = read_first_marks(alloc, tx, line.as_slice())?;
    push_new_rows(tx, rows, node, &first)
}

// The rows of known nodes that are not there yet.
fn read_rows<S: Alter>(
    alloc: Global,
    tx: &mut Transaction<'_, S>,
    family: &Family,
    nodes: &[Node],
) -> Result<Vec<SetNear>, StoreFault>
    requires once { is_once nodes.now ≡ true }
    requires known { All (λ n. knows family.now n ≡ true) nodes.now }
    ensures same_reference { tx.new.conn.ghost_name ≡ tx.old.conn.ghost_name }
    ensures reads { Reads (λ c rows. IsKeptContent c → AreRowsOn c family.now nodes.now rows.items)
        (state S.Store tx.old.conn.now) (state S.Store tx.new.conn.now) result }
{
    let mut rows = Vec::new(alloc);
    for node in nodes {
        push_rows_of(alloc, tx, family, &mut rows, node)?;
    }
    Ok(rows)
}

// The known nodes whose line has a changed node.
fn affected_nodes(alloc: Global, family: &Family, changed: &[Node]) -> Result<Vec<Node>, StoreFault>
    ensures once { IfOk result (λ nodes. is_once nodes.items ≡ true) }
    ensures known { IfOk result (λ nodes. All (λ n. knows family.now n ≡ true) nodes.items) }
    ensures are { IfOk result (λ nodes. (v : Node) →
        has_node nodes.items v ≡ (knows family.now v && meets changed.now (line family.now v))) }
    ensures memory { IfErr result (λ fault. fault ≡ Memory) }
{
    Ok(affected(alloc, family, changed)?)
}

// The rows of the nodes whose line has a changed node that are not there yet.
pub(crate) fn read_missing<S: Alter>(
    alloc: Global,
    tx: &mut Transaction<'_, S>,
    family: &Family,
    changed: &[Node],
) -> Result<Vec<SetNear>, StoreFault>
    ensures same_reference { tx.new.conn.ghost_name ≡ tx.old.conn.ghost_name }
    ensures reads { Reads (λ c rows. IsKeptContent c → IsGrown c.nodes family.now changed.now → AreMissing c family.now rows.items)
        (state S.Store tx.old.conn.now) (state S.Store tx.new.conn.now) result }
{
    let nodes = affected_nodes(alloc, family, changed)?;
    read_rows(alloc, tx, family, nodes.as_slice())
}
