//! What is cleared and what is put for the image of a set.

ghost use Rattle.std.specs.Prelude.{◌≡◌, ◌++◌, false, List, OnOk, IfOk};
ghost use Rattle.version_nodes.specs.Nodes.{Node};
ghost use Rattle.store_keys.specs.Keys.{key_of};
ghost use Rattle.version_marks.specs.Nearest.{nearest_of, row_at, once};
ghost use Rattle.version_marks.specs.declared.near.NearRow.{NearRow};
ghost use Rattle.table_content.specs.Content.{Content};
ghost use Rattle.table_content.specs.Edits.{edited_all};
ghost use Rattle.table_content.specs.Free.{AreFree};
ghost use Rattle.table_content.specs.Images.{same_marks, without_image, with_image, IsCleared, IsGoodImage};
ghost use Rattle.table_content.specs.View.{fields_of};
ghost use Rattle.table_content.specs.EditLists.{drops_of, drops, mark_drops, member_puts, blocker_puts, affected_puts};
ghost use Rattle.table_content.specs.EditLists.{mark_puts, near_puts, all_mark_puts, shared_puts, set_puts};

use crate::edit::{Edit, SetFields};
use bug_record::{Member, Sequence, SetImage, Shared};
use debver::Text;
use std::alloc::{AllocError, Global};
use store_keys::key_of;
use version_marks::{Family, NearRow, nearest_rows};
use version_nodes::{MarkKind, Node};

/// The edits that put the image of a set, in two parts: those of all images of a change are played
/// first in the one, then in the other.
#[derive(Drop)]
pub struct RowEdits {
    /// What goes: all that stands under the numbers of the set's bugs.
    pub cleared: Sequence<Edit>,
    /// What comes: the bugs, the fields, the blockers, the affected packages, and the marks where
    /// they are new.
    pub put: Sequence<Edit>,
}

// What goes of the marks of a number, unless it is a key that keeps them.
pub(crate) fn drop_marks(
    edits: &mut Sequence<Edit>,
    keeps: bool,
    key: u64,
    number: u64,
) -> Result<(), AllocError>
    ensures { OnOk result (edits.new ≡ edits.old ++ mark_drops keeps key number) }
{
    if keeps && key == number {
        return Ok(());
    }
    edits.push(Edit::DropMarks { key: number })?;
    edits.push(Edit::DropNear { key: number })?;
    Ok(())
}

// What goes of a number.
fn drop_number(
    edits: &mut Sequence<Edit>,
    keeps: bool,
    key: u64,
    number: u64,
) -> Result<(), AllocError>
    ensures { OnOk result (edits.new ≡ edits.old ++ drops_of keeps key number) }
{
    edits.push(Edit::DropMember { number })?;
    edits.push(Edit::DropFields { key: number })?;
    edits.push(Edit::DropBlockers { key: number })?;
    edits.push(Edit::DropAffects { key: number })?;
    drop_marks(edits, keeps, key, number)
}

// What goes of all members.
fn drop_members(
    alloc: Global,
    keeps: bool,
    key: u64,
    members: &[Member],
) -> Result<Sequence<Edit>, AllocError>
    ensures { IfOk result (λ edits. edits ≡ drops keeps key members.now) }
{
    let mut edits = Sequence::new(alloc);
    for member in members {
        drop_number(&mut edits, keeps, key, member.number)?;
    }
    Ok(edits)
}

// The members come.
fn put_members(edits: &mut Sequence<Edit>, key: u64, members: &[Member]) -> Result<(), AllocError>
    ensures { OnOk result (edits.new ≡ edits.old ++ member_puts key members.now) }
{
    for member in members {
        let member = member.copy()?;
        edits.push(Edit::PutMember { key, member })?;
    }
    Ok(())
}

// The blockers come.
fn put_blockers(edits: &mut Sequence<Edit>, key: u64, blockers: &[u64]) -> Result<(), AllocError>
    ensures { OnOk result (edits.new ≡ edits.old ++ blocker_puts key blockers.now) }
{
    for blocker in blockers {
        let blocker = *blocker;
        edits.push(Edit::PutBlocker { key, blocker })?;
    }
    Ok(())
}

// The affected packages come.
fn put_affects(edits: &mut Sequence<Edit>, key: u64, names: &[Text]) -> Result<(), AllocError>
    ensures { OnOk result (edits.new ≡ edits.old ++ affected_puts key names.now) }
{
    for name in names {
        let package = name.copy()?;
        edits.push(Edit::PutAffects { key, package })?;
    }
    Ok(())
}

// Marks of a kind come.
pub(crate) fn put_marks(
    edits: &mut Sequence<Edit>,
    key: u64,
    kind: MarkKind,
    nodes: &[Node],
) -> Result<(), AllocError>
    ensures { OnOk result (edits.new ≡ edits.old ++ mark_puts key kind nodes.now) }
{
    for node in nodes {
        let node = node.copy()?;
        edits.push(Edit::PutMark { key, kind, node })?;
    }
    Ok(())
}

// Nearest marks come.
fn put_near(edits: &mut Sequence<Edit>, key: u64, rows: Vec<NearRow>) -> Result<(), AllocError>
    ensures { OnOk result (edits.new ≡ edits.old ++ near_puts key rows.items) }
{
    for row in rows {
        edits.push(Edit::PutNear {
            key,
            node: row.node,
            near: row.near,
        })?;
    }
    Ok(())
}

// All marks come, with the nearest ones.
pub(crate) fn put_all_marks(
    alloc: Global,
    edits: &mut Sequence<Edit>,
    family: &Family,
    key: u64,
    image: &SetImage,
) -> Result<(), AllocError>
    requires { key ≡ key_of image.now }
    ensures { OnOk result ((rows : List NearRow) × once rows
        × ((v : Node) → row_at rows v ≡ nearest_of family.now image.now.shared.found image.now.shared.fixed v)
        × (edits.new ≡ edits.old ++ all_mark_puts image.now rows)) }
{
    let shared = image.shared.fields();
    let rows = nearest_rows(
        alloc,
        family,
        shared.found.as_slice(),
        shared.fixed.as_slice(),
    )?;
    put_marks(edits, key, MarkKind::Found, shared.found.as_slice())?;
    put_marks(edits, key, MarkKind::Fixed, shared.fixed.as_slice())?;
    put_near(edits, key, rows)
}

// The fields of a set's own row.
fn copy_fields(shared: &Shared) -> Result<SetFields, AllocError>
    ensures { IfOk result (λ fields. fields ≡ fields_of shared.now) }
{
    let copy = shared.copy()?;
    Ok(SetFields {
        package: copy.package,
        severity: copy.severity,
        closed: copy.closed,
        forwarded: copy.forwarded,
        owner: copy.owner,
        tags: copy.tags,
        archived: copy.archived,
    })
}

/// Whether these are the marks of an image.
pub fn has_marks(image: &SetImage, found: &[Node], fixed: &[Node]) -> bool
    ensures { result ≡ same_marks image.now found.now fixed.now }
{
    let shared = image.shared.fields();
    found == shared.found.as_slice() && fixed == shared.fixed.as_slice()
}

// The fields, the blockers and the affected packages come.
pub(crate) fn put_shared(
    edits: &mut Sequence<Edit>,
    key: u64,
    image: &SetImage,
) -> Result<(), AllocError>
    requires { key ≡ key_of image.now }
    ensures { OnOk result (edits.new ≡ edits.old ++ shared_puts image.now) }
{
    let shared = image.shared.fields();
    let fields = copy_fields(shared)?;
    edits.push(Edit::PutFields { key, fields })?;
    put_blockers(edits, key, shared.blockers.as_slice())?;
    put_affects(edits, key, shared.affects.as_slice())
}

// All but the marks comes.
fn put_set(alloc: Global, key: u64, image: &SetImage) -> Result<Sequence<Edit>, AllocError>
    requires { key ≡ key_of image.now }
    ensures { IfOk result (λ edits. edits ≡ set_puts image.now) }
{
    let mut edits = Sequence::new(alloc);
    put_members(&mut edits, key, image.members.as_slice())?;
    put_shared(&mut edits, key, image)?;
    Ok(edits)
}

/// What is cleared and what is put for the image of a set, where these are the marks that stand
/// under its key, the number of its first bug.
/// Where they are the image's marks, they and their nearest marks stay as they are, whatever the
/// tree is.
/// The edits are free, where the image is one of a sound desk and its rows are cleared before they
/// are put.
/// The error is that there was no memory.
/// This project's own rule.
pub fn row_edits(
    alloc: Global,
    family: &Family,
    image: &SetImage,
    found: &[Node],
    fixed: &[Node],
) -> Result<RowEdits, AllocError>
    ensures cleared { IfOk result (λ edits. (c : Content) →
        edited_all edits.cleared c ≡ without_image (same_marks image.now found.now fixed.now) image.now c) }
    ensures put { IfOk result (λ edits. (c : Content) →
        (same_marks image.now found.now fixed.now ≡ false → c.nodes ≡ family.now) → IsGoodImage image.now →
        IsCleared (same_marks image.now found.now fixed.now) image.now c → edited_all edits.put c ≡ with_image image.now c) }
    ensures free { IfOk result (λ edits. (c : Content) → IsGoodImage image.now → AreFree edits.cleared c) }
    ensures put_free { IfOk result (λ edits. (c : Content) → IsGoodImage image.now →
        IsCleared (same_marks image.now found.now fixed.now) image.now c → AreFree edits.put c) }
{
    let key = key_of(image);
    let keeps = has_marks(image, found, fixed);
    let cleared = drop_members(alloc, keeps, key, image.members.as_slice())?;
    let mut put = put_set(alloc, key, image)?;
    if keeps {
        return Ok(RowEdits { cleared, put });
    }
    put_all_marks(alloc, &mut put, family, key, image)?;
    Ok(RowEdits { cleared, put })
}
