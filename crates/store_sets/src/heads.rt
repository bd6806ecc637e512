//! The heads in which a bug is still found.

ghost use Rattle.std.specs.Prelude.{◌≡◌, IfOk};
ghost use Rattle.version_nodes.specs.Statuses.{status};
ghost use Rattle.bug_record.specs.Heads.{is_found, open_head};

use ancestry::{Tree, status};
use bug_record::Shared;
use std::alloc::AllocError;
use version_nodes::{Node, Status};

/// Whether a bug of this status is there.
pub(crate) fn is_there(status: Status) -> bool
    ensures { result ≡ is_found status }
{
    match status {
        Status::Found => true,
        Status::Fixed | Status::Absent | Status::Done => false,
    }
}

// Whether a bug with these fields is found at a node.
fn is_found(tree: &Tree, shared: &Shared, node: &Node) -> bool
    ensures { result ≡ is_found (status tree.now shared.now.found shared.now.fixed shared.now.closed node.now) }
{
    let (found, fixed) = (shared.found.as_slice(), shared.fixed.as_slice());
    is_there(status(tree, found, fixed, shared.closed, node))
}

/// The first head of a bug's package, in node order, at which a bug with these fields is still
/// found.
pub fn open_head(tree: &Tree, shared: &Shared) -> Result<Option<Node>, AllocError>
    ensures { IfOk result (λ head. head ≡ open_head tree.now shared.now) }
{
    let heads = tree.heads(shared.package.as_str())?;
    Ok(heads.into_iter().find(|node| is_found(tree, shared, node)))
}
