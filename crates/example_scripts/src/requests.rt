//! The bytes of a request, out of its lines.

use std::alloc::{AllocError, Global};
use test_doubles::add_text;

/// The bytes of a request; `None` where a sign in it is none.
/// Its lines up to the first empty one end with a carriage return and a line feed each, but for a
/// line that ends with `<>`, which has no end.
/// Those after it are the body, with a line feed between two of them.
pub(crate) fn request_of(alloc: Global, lines: &[&str]) -> Result<Option<Vec<u8>>, AllocError> {
    let mut bytes = Vec::new(alloc);
    let mut before = "";
    let mut after = "\r\n";
    for line in lines {
        bytes.extend_from_slice(before.as_bytes())?;
        if !add_text(&mut bytes, line)? {
            return Ok(None);
        }
        if !line.ends_with("<>") {
            bytes.extend_from_slice(after.as_bytes())?;
        }
        if after.is_empty() {
            before = "\n";
        }
        if line.is_empty() {
            after = "";
        }
    }
    Ok(Some(bytes))
}
