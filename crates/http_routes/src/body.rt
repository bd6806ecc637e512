//! The JSON value that a body is.

ghost use Rattle.std.specs.Prelude.{◌≡◌, IfOk, option_map};
ghost use Rattle.serde_json.specs.View.{view};
ghost use Rattle.http_routes.specs.Body.{json_of};

use serde_json::Value;
use std::alloc::{AllocError, Global};

/// The JSON value that a body is, as `serde_json` reads it (RFC 8259).
/// Of two members of one name the last stays.
/// There is none exactly where the body is no UTF-8, or `serde_json` refuses anything in it: a
/// number out of range, a lone surrogate, a byte order mark, or more than 127 levels among them.
///
/// # Errors
///
/// Where there is no memory for the value.
pub fn parse(alloc: Global, body: &[u8]) -> Result<Option<Value>, AllocError>
    ensures { IfOk result (λ value. option_map view value ≡ json_of body.now) }
{
    match Value::from_slice(alloc, body) {
        Ok(value) => Ok(Some(value)),
        Err(error) => {
            if error.is_memory() {
                Err(AllocError)
            } else {
                Ok(None)
            }
        }
    }
}
