//! Bytes, written whole.

ghost use Rattle.std.specs.Prelude.{◌≡◌, ℕ, ◌<◌, length, take, OnOk, OnErr};
ghost use Rattle.std.specs.Io.KnownBytes.{Appends};

use std::io::Write;
use thiserror::Error;

/// Bytes were not all written: a write failed, an interrupted one too, or took no byte.
#[derive(Clone, Copy, Debug, PartialEq, Eq, Drop, Error)]
#[error("the bytes could not be written")]
pub struct WriteFault;

/// Writes all bytes.
/// It takes no memory.
///
/// # Errors
///
/// `WriteFault`: a write failed, an interrupted one too, or took no byte.
/// A front of the bytes is then written.
pub fn write_whole<W: Write>(writer: &mut W, bytes: &[u8]) -> Result<(), WriteFault>
    ensures all { OnOk result (Appends (W.contents writer.old) (W.contents writer.new) bytes.now) }
    ensures unfinished { OnErr result
        ((n : ℕ) × (n < length bytes.now) × Appends (W.contents writer.old) (W.contents writer.new) (take n bytes.now)) }
{
    let mut written = 0;
    while written < bytes.len() {
        match writer.write(&bytes[written..]) {
            Ok(0) => return Err(WriteFault),
            Ok(count) => written += count,
            Err(_) => return Err(WriteFault),
        }
    }
    Ok(())
}
