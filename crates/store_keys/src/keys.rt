//! The key of a set.

ghost use Rattle.std.specs.Prelude.{◌≡◌};
ghost use Rattle.store_keys.specs.Keys.{key_of};

use bug_record::SetImage;

/// The key of an image's set: the number of its first bug, and 0 where it has none.
/// It takes no memory.
/// This project's own rule.
pub fn key_of(image: &SetImage) -> u64
    ensures { result ≡ key_of image.now }
{
    match image.members.as_slice() {
        [first, ..] => first.number,
        [] => 0,
    }
}
