//! Rows of a set that a change leaves as they are.

ghost use Rattle.std.specs.Prelude.{◌≡◌, ◌↔◌, IsTrue};
ghost use Rattle.table_content.specs.View.{fields_of};
ghost use Rattle.table_content.specs.Sparing.{is_spared, spared};

use crate::edit::Edit;
use bug_record::{Sequence, Shared, Tags};
use debver::Text;

/// Which rows of a set are the same before and after a change.
#[derive(Clone, Copy, Drop)]
pub(crate) struct SameRows {
    /// Its fields.
    fields: bool,
    /// All its blockers.
    blockers: bool,
    /// All packages that it affects.
    affects: bool,
}

// Whether the tags are the same, in the same order.
fn same_tags(a: &Tags, b: &Tags) -> bool
    ensures { IsTrue result ↔ a.now ≡ b.now }
{
    a == b
}

// Whether the packages that the sets affect are the same.
fn same_names(a: &[Text], b: &[Text]) -> bool
    ensures { IsTrue result ↔ a.now ≡ b.now }
{
    a == b
}

// Whether the fields that stand in a set's own row are equal.
fn same_fields(a: &Shared, b: &Shared) -> bool
    ensures { IsTrue result ↔ fields_of a.now ≡ fields_of b.now }
{
    a.package == b.package
        && a.severity == b.severity
        && a.closed == b.closed
        && a.forwarded == b.forwarded
        && a.owner == b.owner
        && same_tags(&a.tags, &b.tags)
        && a.archived == b.archived
}

// Which rows are the same where the shared fields change.
pub(crate) fn same_rows(before: &Shared, after: &Shared) -> SameRows
    ensures fields { IsTrue result.fields ↔ fields_of before.now ≡ fields_of after.now }
    ensures blockers { IsTrue result.blockers ↔ before.now.blockers ≡ after.now.blockers }
    ensures affects { IsTrue result.affects ↔ before.now.affects ≡ after.now.affects }
{
    SameRows {
        fields: same_fields(before, after),
        blockers: before.blockers == after.blockers,
        affects: same_names(before.affects.as_slice(), after.affects.as_slice()),
    }
}

// Whether the edit is of a row that is the same.
fn is_spared(same: SameRows, edit: &Edit) -> bool
    ensures { result ≡ is_spared same edit.now }
{
    match edit {
        Edit::DropFields { .. } | Edit::PutFields { .. } => same.fields,
        Edit::DropBlockers { .. } | Edit::PutBlocker { .. } => same.blockers,
        Edit::DropAffects { .. } | Edit::PutAffects { .. } => same.affects,
        _ => false,
    }
}

// The edits but for those of rows that are the same.
pub(crate) fn spare(mut edits: Sequence<Edit>, same: SameRows) -> Sequence<Edit>
    ensures { result ≡ spared same edits }
{
    edits.retain(|edit| !is_spared(same, edit));
    edits
}
