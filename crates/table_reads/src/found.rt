//! Whether the bugs of a set are found at a node.

ghost use Rattle.std.specs.Prelude.{◌≡◌};
ghost use Rattle.sqlite.specs.Held.{state};
ghost use Rattle.bug_record.specs.Heads.{is_found};
ghost use Rattle.table_content.specs.Kept.{IsKeptContent};
ghost use Rattle.table_schema.specs.Steps.{Reads, Serves};
ghost use Rattle.table_reads.specs.Found.{decided, is_found_by, is_found_at, is_found_in};

use ancestry::status_from;
use base_faults::StoreFault;
use bug_record::{SetImage, Shared};
use sqlite::{Alter, Transaction};
use std::alloc::Global;
use table_content::kind_here;
use table_sets::{Marks, read_marks, read_near_kind};
use version_nodes::{MarkKind, Node, Status};

// Whether a bug of this status is there.
fn is_there(status: Status) -> bool
    ensures { result ≡ is_found status }
{
    match status {
        Status::Found => true,
        Status::Fixed | Status::Absent | Status::Done => false,
    }
}

// Whether bugs with these marks, closed or not, are found at a node, where the nearest mark from
// there is of this kind.
fn is_found_by(
    found: &[Node],
    fixed: &[Node],
    closed: bool,
    nearest: Option<MarkKind>,
    node: &Node,
) -> bool
    ensures { result ≡ is_found_by found.now fixed.now closed nearest node.now }
{
    let kind = kind_here(found, fixed, nearest, node);
    is_there(status_from(kind, found.is_empty(), fixed.is_empty(), closed))
}

// The same of bugs with these fields.
fn is_found(shared: &Shared, nearest: Option<MarkKind>, node: &Node) -> bool
    ensures { result ≡ is_found_by shared.now.found shared.now.fixed shared.now.closed nearest node.now }
{
    let (found, fixed) = (shared.found.as_slice(), shared.fixed.as_slice());
    is_found_by(found, fixed, shared.closed, nearest, node)
}

// The same of bugs with these marks, closed or not.
fn is_marked_found(marks: &Marks, closed: bool, nearest: Option<MarkKind>, node: &Node) -> bool
    ensures { result ≡ is_found_by marks.now.found marks.now.fixed closed nearest node.now }
{
    let (found, fixed) = (marks.found.as_slice(), marks.fixed.as_slice());
    is_found_by(found, fixed, closed, nearest, node)
}

// Whether the bugs of the set of the key, which has this image, are found at a node.
pub(crate) fn read_found<S: Alter>(
    tx: &mut Transaction<'_, S>,
    key: u32,
    image: &SetImage,
    node: &Node,
) -> Result<bool, StoreFault>
    ensures same_reference { tx.new.conn.ghost_name ≡ tx.old.conn.ghost_name }
    ensures reads { Reads (λ c found. found ≡ is_found_at c key node.now image.now.shared)
        (state S.Store tx.old.conn.now) (state S.Store tx.new.conn.now) result }
    ensures serves { Serves (state S.Store tx.old.conn.now) (state S.Store tx.new.conn.now) result }
{
    let nearest = read_near_kind(tx, key, node)?;
    Ok(is_found(image.shared.fields(), nearest, node))
}

// Whether bugs, closed or not, are found where their nearest mark is of this kind; `None` where
// that alone does not decide.
fn decided(nearest: Option<MarkKind>, closed: bool) -> Option<bool>
    ensures { result ≡ decided nearest closed }
{
    match nearest {
        Some(MarkKind::Found) => {
            if closed {
                return None;
            }
            Some(true)
        }
        Some(MarkKind::Fixed) => Some(false),
        None => None,
    }
}

// Whether the bugs of the set of the key, closed or not, are found at a node, by the set's own
// marks and the kind of the nearest one.
fn read_found_by<S: Alter>(
    alloc: Global,
    tx: &mut Transaction<'_, S>,
    key: u32,
    closed: bool,
    nearest: Option<MarkKind>,
    node: &Node,
) -> Result<bool, StoreFault>
    ensures same_reference { tx.new.conn.ghost_name ≡ tx.old.conn.ghost_name }
    ensures reads { Reads (λ c found. found ≡ is_found_by (c.found key) (c.fixed key) closed nearest node.now)
        (state S.Store tx.old.conn.now) (state S.Store tx.new.conn.now) result }
{
    let marks = read_marks(alloc, tx, key)?;
    Ok(is_marked_found(&marks, closed, nearest, node))
}

// The same, as the tables say it.
// The set's own marks are read only where the nearest one does not decide.
pub(crate) fn read_found_in<S: Alter>(
    alloc: Global,
    tx: &mut Transaction<'_, S>,
    key: u32,
    closed: bool,
    node: &Node,
) -> Result<bool, StoreFault>
    ensures same_reference { tx.new.conn.ghost_name ≡ tx.old.conn.ghost_name }
    ensures reads { Reads (λ c found. IsKeptContent c → found ≡ is_found_in c key node.now closed)
        (state S.Store tx.old.conn.now) (state S.Store tx.new.conn.now) result }
{
    let nearest = read_near_kind(tx, key, node)?;
    match decided(nearest, closed) {
        Some(found) => Ok(found),
        None => read_found_by(alloc, tx, key, closed, nearest, node),
    }
}
