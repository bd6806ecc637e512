//! The text of a part of a path.

ghost use Rattle.std.specs.Prelude.{◌≡◌, IfOk, option_map, string_bytes};
ghost use Rattle.http_routes.specs.Parts.{decoded_text};

use percent_encoding::{DecodeError, percent_decode};
use std::alloc::{AllocError, Global};

/// The text of a part of a path: its bytes with each escape `%XX` decoded, once.
/// A `%` that begins no escape stands for itself (the URL Standard's percent-decoding).
/// There is none exactly where the decoded bytes are no UTF-8.
///
/// # Errors
///
/// Where there is no memory for the text.
pub fn decoded_text(alloc: Global, part: &[u8]) -> Result<Option<String>, AllocError>
    ensures { IfOk result (λ text. option_map string_bytes text ≡ decoded_text part.now) }
{
    match percent_decode(part).decode_utf8(alloc) {
        Ok(text) => Ok(Some(text.into_owned(alloc)?)),
        Err(DecodeError::Utf8(_)) => Ok(None),
        Err(DecodeError::OutOfMemory) => Err(AllocError),
    }
}
