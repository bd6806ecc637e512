//! The pieces in which bytes come.

ghost use Rattle.std.specs.Prelude.{◌≡◌, ◌+◌, ◌<◌, length, IfOk, OnErr};
ghost use Rattle.std.specs.Io.KnownBytes.{IsAtEnd, Keeps};
ghost use Rattle.http_bytes.specs.Pieces.{Came};

use std::io;
use std::io::Read;

// Reads once, into the room behind the bytes that are there.
pub(crate) fn read_piece<R: Read>(
    reader: &mut R,
    buf: &mut [u8],
    filled: usize,
) -> io::Result<usize>
    requires { filled < length buf.old }
    ensures came { IfOk result (λ n. Came (R.remaining reader.old) (R.remaining reader.new)
        buf.old buf.new filled (filled + n)) }
    ensures ended { IfOk result (λ n. n ≡ 0 → IsAtEnd (R.remaining reader.new)) }
    ensures none_lost { OnErr result (Keeps (R.remaining reader.old) (R.remaining reader.new)) }
{
    reader.read(&mut buf[filled..])
}
