//! Whether the marks of a change's images stand already.

ghost use Rattle.std.specs.Prelude.{◌≡◌, ◌<◌, length, IfSome};
ghost use Rattle.std.specs.Option.{option_copied};
ghost use Rattle.sqlite.specs.Held.{state};
ghost use Rattle.table_content.specs.Changes.{keeps_marks, all_stay};
ghost use Rattle.table_content.specs.Content.{Content};
ghost use Rattle.table_schema.specs.Steps.{Reads, Serves};
ghost use Rattle.table_writes.specs.Needs.{IsKnownIn};

use base_faults::StoreFault;
use bug_record::{Change, SetImage};
use sqlite::{Alter, Transaction};
use std::alloc::Global;
use store_keys::key_of;
use table_content::has_marks;
use table_schema::parameter;
use table_sets::read_marks;

// Whether the marks of an image stand under its key.
fn read_stays<S: Alter>(
    alloc: Global,
    tx: &mut Transaction<'_, S>,
    image: &SetImage,
) -> Result<bool, StoreFault>
    ensures same_reference { tx.new.conn.ghost_name ≡ tx.old.conn.ghost_name }
    ensures reads { Reads (λ c stays. stays ≡ keeps_marks c image.now) (state S.Store tx.old.conn.now) (state S.Store tx.new.conn.now) result }
    ensures serves { Serves (state S.Store tx.old.conn.now) (state S.Store tx.new.conn.now) result }
{
    let key = parameter(key_of(image))?;
    let marks = read_marks(alloc, tx, key)?;
    Ok(has_marks(image, marks.found.as_slice(), marks.fixed.as_slice()))
}

/// Whether the marks of all images stand under their keys: then a change that has these needs no
/// tree.
/// `Memory` where there is none for the marks.
pub fn read_marks_stay<S: Alter>(
    alloc: Global,
    tx: &mut Transaction<'_, S>,
    images: &[SetImage],
) -> Result<bool, StoreFault>
    requires { 0 < length images.now }
    ensures same_reference { tx.new.conn.ghost_name ≡ tx.old.conn.ghost_name }
    ensures reads { Reads (λ c stay. stay ≡ all_stay c images.now) (state S.Store tx.old.conn.now) (state S.Store tx.new.conn.now) result }
    ensures serves { Serves (state S.Store tx.old.conn.now) (state S.Store tx.new.conn.now) result }
{
    for image in images {
        let stays = read_stays(alloc, tx, image)?;
        if !stays {
            return Ok(false);
        }
    }
    Ok(true)
}

/// Whether the marks of a change's only image stand already, as the image that is known of its set
/// says it; `None` where it does not.
/// It takes no memory, and reads nothing.
pub fn known_marks_stay(change: &Change, known: Option<&SetImage>) -> Option<bool>
    ensures { IfSome result (λ stay. (c : Content) → IsKnownIn (option_copied known.entry) c → stay ≡ all_stay c change.now.images) }
{
    let Some(old) = known else {
        return None;
    };
    let [image] = change.images.as_slice() else {
        return None;
    };
    if key_of(image) != key_of(old) {
        return None;
    }
    let fields = old.shared.fields();
    let found = fields.found.as_slice();
    let fixed = fields.fixed.as_slice();
    Some(has_marks(image, found, fixed))
}
