//! The bugs of a desk in memory that are listed for a package at a node.

ghost use Rattle.std.specs.Prelude.{◌≡◌, ℕ, IfOk};
ghost use Rattle.bug_record.specs.Desk.{IsSound};
ghost use Rattle.bug_record.specs.Lists.{listed};
ghost use Rattle.store_sets.specs.Plain.{desk_of};
ghost use Rattle.bug_record.specs.Rows.{rows_of};

use crate::bug_sets::BugSets;
use crate::passing::Question;
use ancestry::{IndexedLine, Tree};
use bug_record::{ListRow, Sequence};
use std::alloc::{AllocError, Global};
use store_keys::by_severity;
use version_nodes::Node;

impl BugSets {
    /// The bugs of a package, and those that affect it, that are not archived and are found at a
    /// node, by severity, from critical to wishlist, and then by number; each bug of a set stands
    /// by itself.
    /// The node's line is taken once, and each set is looked at once: each of its marks is looked
    /// up in the line.
    /// The only error is that there is no memory for the rows.
    pub fn listed(
        &self,
        alloc: Global,
        tree: &Tree,
        package: &str,
        node: &Node,
    ) -> Result<Sequence<ListRow>, AllocError>
        ensures { (next : ℕ) → IsSound (desk_of self.now tree.now next)
            → IfOk result (λ rows. rows ≡ rows_of (desk_of self.now tree.now next).bug
            (listed (desk_of self.now tree.now next) «package».now node.now)) }
    {
        let nodes = tree.line(node)?;
        let line = IndexedLine::of(alloc, nodes)?;
        let rows = self.rows_passing(alloc, Question::IsListed(package, &line))?;
        by_severity(alloc, rows)
    }
}
