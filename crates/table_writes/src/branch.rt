//! A branch of versions, carried out within one transaction.

ghost use Rattle.std.specs.Prelude.{◌≡◌, IfOk, IfErr};
ghost use Rattle.sqlite.specs.Held.{state};
ghost use Rattle.version_nodes.specs.Trees.{IsForest};
ghost use Rattle.base_faults.specs.declared.store_fault.StoreFault.TheVariants.{Memory};
ghost use Rattle.table_content.specs.Content.{Content};
ghost use Rattle.table_content.specs.Kept.{IsKeptContent};
ghost use Rattle.table_content.specs.Branches.{with_nodes, AreMissing};
ghost use Rattle.table_nodes.specs.Grown.{IsGrown};
ghost use Rattle.table_schema.specs.Steps.{Acts, Reads, Serves};
ghost use Rattle.table_writes.specs.Steps.{Makes};

use crate::missing::read_missing;
use crate::play::play_or_ask;
use base_faults::StoreFault;
use bug_record::Sequence;
use sqlite::{Alter, Transaction};
use std::alloc::Global;
use table_content::{Edit, SetNear, branch_edits};
use version_marks::Family;
use version_nodes::Node;

// The edits of a branch, where these rows are missing.
fn edits_of(
    alloc: Global,
    family: &Family,
    changed: &[Node],
    rows: Vec<SetNear>,
) -> Result<Sequence<Edit>, StoreFault>
    ensures made { IfOk result (λ edits. (c : Content) → IsKeptContent c → IsGrown c.nodes family.now changed.now →
        AreMissing c family.now rows.items → Makes family.now edits c) }
    ensures memory { IfErr result (λ fault. fault ≡ Memory) }
{
    Ok(branch_edits(alloc, family.tree(), changed, rows)?)
}

// The edits of a branch, as the tables are now.
fn plan_branch<S: Alter>(
    alloc: Global,
    tx: &mut Transaction<'_, S>,
    family: &Family,
    changed: &[Node],
) -> Result<Sequence<Edit>, StoreFault>
    ensures same_reference { tx.new.conn.ghost_name ≡ tx.old.conn.ghost_name }
    ensures reads { Reads (λ c edits. IsKeptContent c → IsGrown c.nodes family.now changed.now → Makes family.now edits c)
        (state S.Store tx.old.conn.now) (state S.Store tx.new.conn.now) result }
{
    let rows = read_missing(alloc, tx, family, changed)?;
    edits_of(alloc, family, changed, rows)
}

/// The tables follow a branch that was taken: the nodes that it changed are put anew, each with its
/// parent or none, and for each known node whose line has one of them the nearest marks come that
/// were not there.
/// It fails for memory, the disk or its size alone, where the tables are kept and the tree has
/// grown out of theirs by the changed nodes.
pub fn put_branch<S: Alter>(
    alloc: Global,
    tx: &mut Transaction<'_, S>,
    family: &Family,
    changed: &[Node],
) -> Result<(), StoreFault>
    ensures same_reference { tx.new.conn.ghost_name ≡ tx.old.conn.ghost_name }
    ensures acts { Acts (state S.Store tx.old.conn.now) (state S.Store tx.new.conn.now) result
        (λ c. IsKeptContent c × IsGrown c.nodes family.now changed.now)
        (λ c d _. IsKeptContent c → IsGrown c.nodes family.now changed.now → d ≡ with_nodes family.now c) }
    ensures serves { Serves (state S.Store tx.old.conn.now) (state S.Store tx.new.conn.now) result }
{
    let edits = plan_branch(alloc, tx, family, changed)?;
    play_or_ask(tx, edits.as_slice())
}
