//! The shared fields that stand under a key.

ghost use Rattle.std.specs.Prelude.{◌≡◌};
ghost use Rattle.sqlite.specs.Held.{state};
ghost use Rattle.table_content.specs.View.{shared_of};
ghost use Rattle.table_schema.specs.Steps.{Reads, Serves};

use crate::affects::read_affected;
use crate::blocks::read_blockers;
use crate::marks::read_marks;
use base_faults::StoreFault;
use bug_record::Shared;
use sqlite::{Alter, Transaction};
use std::alloc::Global;
use table_content::SetFields;

/// All shared fields of the set of the key, which has these in its own row.
/// `Memory` where there is none for them.
pub fn read_shared<S: Alter>(
    alloc: Global,
    tx: &mut Transaction<'_, S>,
    key: u32,
    fields: SetFields,
) -> Result<Shared, StoreFault>
    ensures same_reference { tx.new.conn.ghost_name ≡ tx.old.conn.ghost_name }
    ensures reads { Reads (λ c shared. shared ≡ shared_of c key fields) (state S.Store tx.old.conn.now) (state S.Store tx.new.conn.now) result }
    ensures serves { Serves (state S.Store tx.old.conn.now) (state S.Store tx.new.conn.now) result }
{
    let marks = read_marks(alloc, tx, key)?;
    let blockers = read_blockers(alloc, tx, key)?;
    let affects = read_affected(alloc, tx, key)?;
    Ok(Shared {
        package: fields.package,
        severity: fields.severity,
        closed: fields.closed,
        forwarded: fields.forwarded,
        owner: fields.owner,
        tags: fields.tags,
        affects,
        found: marks.found,
        fixed: marks.fixed,
        blockers,
        archived: fields.archived,
    })
}
