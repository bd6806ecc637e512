//! What goes and what comes for the image of a set whose bugs stay.

ghost use Rattle.std.specs.Prelude.{◌≡◌, false, IfOk};
ghost use Rattle.bug_record.specs.Sets.{Each};
ghost use Rattle.table_content.specs.Content.{Content};
ghost use Rattle.table_content.specs.Edits.{edited_all};
ghost use Rattle.table_content.specs.Free.{AreFree};
ghost use Rattle.table_content.specs.Images.{same_marks, without_image, with_image, IsCleared, IsGoodImage};
ghost use Rattle.table_content.specs.Staying.{Stays, HasNearest, StandThere, HasRows, IsNeeded};
ghost use Rattle.table_content.specs.EditLists.{key_drops};

use crate::edit::Edit;
use crate::image_edits::{drop_marks, has_marks, put_all_marks, put_shared};
use crate::moving::{drop_rows, loses_none, moving_edits};
use crate::sparing::{same_rows, spare};
use bug_record::{Sequence, SetImage, Shared};
use std::alloc::{AllocError, Global};
use store_keys::key_of;
use version_marks::Family;
use version_nodes::Node;

// What goes and what comes, where these are the marks that stand; all other rows are written anew.
fn all_edits(
    alloc: Global,
    family: &Family,
    image: &SetImage,
    found: &[Node],
    fixed: &[Node],
) -> Result<Sequence<Edit>, AllocError>
    ensures edits { IfOk result (λ edits. (c : Content) →
        (same_marks image.now found.now fixed.now ≡ false → c.nodes ≡ family.now) → HasNearest image.now found.now fixed.now c →
        StandThere image.now found.now fixed.now c → IsGoodImage image.now → Stays image.now c →
        IsCleared (same_marks image.now found.now fixed.now) image.now (without_image (same_marks image.now found.now fixed.now) image.now c) →
        edited_all edits c ≡ with_image image.now (without_image (same_marks image.now found.now fixed.now) image.now c)) }
    ensures free { IfOk result (λ edits. (c : Content) → StandThere image.now found.now fixed.now c → IsGoodImage image.now → Stays image.now c →
        IsCleared (same_marks image.now found.now fixed.now) image.now (without_image (same_marks image.now found.now fixed.now) image.now c) →
        AreFree edits c) }
{
    let keeps = has_marks(image, found, fixed);
    if !keeps && loses_none(image, found, fixed) {
        return Ok(moving_edits(alloc, family, image, found, fixed)?);
    }
    let key = key_of(image);
    let mut edits = drop_rows(alloc, key)?;
    drop_marks(&mut edits, keeps, key, key)?;
    put_shared(&mut edits, key, image)?;
    if keeps {
        return Ok(edits);
    }
    put_all_marks(alloc, &mut edits, family, key, image)?;
    Ok(edits)
}

/// What goes and what comes for the image of a set whose bugs stay as they are, titles and
/// submitters among it, where these are the shared fields that stand under its key.
/// Where their marks are the image's, they and their nearest marks stay too, whatever the tree is;
/// where the image has a mark at each of their nodes, of the nearest marks those alone are written
/// whose mark is new; and where it has all of them, each as what it is, the new marks alone are.
/// The row of fields, the blockers and the affected packages are each written only where they
/// differ.
/// The edits make what clearing all rows of the image and putting them again would make, and are
/// free, where the image is one of a sound desk.
/// The error is that there was no memory.
/// This project's own rule.
pub fn stay_edits(
    alloc: Global,
    family: &Family,
    image: &SetImage,
    before: &Shared,
) -> Result<Sequence<Edit>, AllocError>
    ensures edits { IfOk result (λ edits. (c : Content) →
        (same_marks image.now before.now.found before.now.fixed ≡ false → c.nodes ≡ family.now) →
        HasNearest image.now before.now.found before.now.fixed c → HasRows image.now before.now c →
        IsGoodImage image.now → Stays image.now c →
        IsCleared (same_marks image.now before.now.found before.now.fixed) image.now
        (without_image (same_marks image.now before.now.found before.now.fixed) image.now c) →
        edited_all edits c ≡ with_image image.now (without_image (same_marks image.now before.now.found before.now.fixed) image.now c)) }
    ensures free { IfOk result (λ edits. (c : Content) → HasRows image.now before.now c → IsGoodImage image.now → Stays image.now c →
        IsCleared (same_marks image.now before.now.found before.now.fixed) image.now
        (without_image (same_marks image.now before.now.found before.now.fixed) image.now c) →
        AreFree edits c) }
    ensures needed { IfOk result (λ edits. Each (IsNeeded before.now image.now.shared) edits) }
{
    let found = before.found.as_slice();
    let fixed = before.fixed.as_slice();
    let edits = all_edits(alloc, family, image, found, fixed)?;
    let same = same_rows(before, image.shared.fields());
    Ok(spare(edits, same))
}
