//! The head of a request: its first line, and its headers.

ghost use Rattle.std.specs.Prelude.{◌≡◌, length, IfOk, OnErr};
ghost use Rattle.http_bytes.specs.Head.{max_head, max_headers};
ghost use Rattle.http_bytes.specs.Found.{IsFound, LosesNoHead, TakesHead};

use crate::pieces::read_piece;
use httparse::Status;
use httparse::spans::{HeaderSpan, RequestSpans, parse_request};
use std::io;
use std::io::Read;

/// The longest head, in bytes.
pub const MAX_HEAD: usize = 8_192;

/// The most headers of a head.
pub const MAX_HEADERS: usize = 32;

/// What the input begins with.
#[derive(Drop)]
pub enum Head {
    /// The input was empty.
    Nothing,
    /// The input was not empty, and began with no head within the limits.
    Wrong,
    /// A head, whose parts the spans cover; the first `filled` bytes of the buffer have come.
    Complete { spans: RequestSpans, filled: usize },
}

/// Reads until a head is complete, by the grammar of `httparse`, with at most 8,192 bytes and 32
/// headers.
/// It takes no memory, and reads no further once the head is complete, or wrong: what it takes from
/// the reader beyond a head came with the head's last byte.
/// The limits are this project's own rule.
///
/// # Errors
///
/// A read failed, an interrupted one too; of which kind the error is is left open.
/// The bytes that the reader has lost by then begin with no head.
pub fn read_head<R: Read>(
    reader: &mut R,
    buf: &mut [u8],
    headers: &mut [HeaderSpan],
) -> io::Result<Head>
    requires room { length buf.old ≡ max_head }
    requires slots { length headers.old ≡ max_headers }
    ensures found { IfOk result (IsFound (R.remaining reader.old) (R.remaining reader.new) buf.new headers.new) }
    ensures cut { OnErr result (LosesNoHead (R.remaining reader.old) (R.remaining reader.new)) }
    ensures taken { TakesHead (R.remaining reader.old) (R.remaining reader.new) buf.new result }
{
    let mut filled = 0;
    'pieces: while filled < buf.len() {
        let n = read_piece(reader, buf, filled)?;
        if n == 0 {
            return Ok(if filled == 0 {
                Head::Nothing
            } else {
                Head::Wrong
            });
        }
        filled += n;
        match parse_request(&buf[..filled], headers) {
            Ok(Status::Complete(spans)) => return Ok(Head::Complete { spans, filled }),
            Ok(Status::Partial) => {}
            Err(_) => return Ok(Head::Wrong),
        }
    }
    Ok(Head::Wrong)
}
