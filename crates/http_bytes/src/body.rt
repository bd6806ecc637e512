//! The body of a request: the bytes after its head.

ghost use Rattle.std.specs.Prelude.{◌≡◌, ◌≢◌, ◌++◌, ◌≤◌, ◌<◌, ◌-◌, Ok, Err, Some, length, take, drop, map, min, All, IfOk, IfErr, IsOk, OnErr};
ghost use Rattle.std.specs.Io.KnownBytes.{Consumes, IsAtEnd};
ghost use Rattle.httparse.specs.Spans.{IsHeaderWithin, header_bytes};
ghost use Rattle.http_bytes.specs.Found.{HadBytes, LosesFewer};
ghost use Rattle.http_bytes.specs.Pieces.{Came};
ghost use Rattle.http_bytes.specs.Headers.{body_length};
ghost use Rattle.http_bytes.specs.Body.{body_of, whole, IfRead, size_told, TakesBody};

use crate::body_size::body_length;
use crate::pieces::read_piece;
use crate::refusal::{BodyFault, BodyRefusal};
use httparse::spans::HeaderSpan;
use std::alloc::{AllocError, Global};
use std::io;
use std::io::Read;

// Reads until the buffer is full or the input ends.
fn fill<R: Read>(reader: &mut R, buf: &mut [u8], filled: usize) -> io::Result<usize>
    requires { filled ≤ length buf.old }
    ensures came { IfOk result (Came (R.remaining reader.old) (R.remaining reader.new) buf.old buf.new filled) }
    ensures ended { IfOk result (λ total. total < length buf.new → IsAtEnd (R.remaining reader.new)) }
    ensures cut { OnErr result (LosesFewer (R.remaining reader.old) (R.remaining reader.new)
        (length buf.new - filled)) }
{
    let mut total = filled;
    'pieces: while total < buf.len() {
        let n = read_piece(reader, buf, total)?;
        if n == 0 {
            return Ok(total);
        }
        total += n;
    }
    Ok(total)
}

// Room for a body of this size, which begins with the bytes that are here.
fn room(alloc: Global, here: &[u8], size: usize) -> Result<Vec<u8>, AllocError>
    ensures long { IfOk result (λ body. length body.items ≡ size) }
    ensures empty { size ≡ 0 → IsOk result }
    ensures begins { IfOk result (λ body. let known = min (length here.now) size in
        take known body.items ≡ take known here.now) }
{
    let known = here.len().min(size);
    let mut body = Vec::with_capacity(alloc, size)?;
    body.extend_from_slice(&here[..known])?;
    body.resize(size, 0)?;
    Ok(body)
}

// A body of this size, out of the bytes that are here and those that come.
fn read_whole<R: Read>(
    alloc: Global,
    reader: &mut R,
    here: &[u8],
    size: usize,
) -> Result<Vec<u8>, BodyFault>
    ensures whole { IfRead result (λ body. HadBytes (R.remaining reader.old)
        (λ more. body ≡ whole size (here.now ++ more))) }
    ensures taken { IfOk result (λ body.
        Consumes (R.remaining reader.old) (R.remaining reader.new) (drop (length here.now) body.items)) }
    ensures memory { result ≡ Err BodyFault.Memory → (reader.new ≡ reader.old) × (size ≢ 0) }
    ensures cut { result ≡ Err BodyFault.Read → LosesFewer (R.remaining reader.old) (R.remaining reader.new)
        (size - length here.now) }
    ensures within { TakesBody (Some size) here.now (R.remaining reader.old) (R.remaining reader.new) }
{
    let mut body = room(alloc, here, size)?;
    let known = here.len().min(size);
    let total = fill(reader, &mut body, known)?;
    if total < size {
        return Err(BodyFault::Refused(BodyRefusal::BadRequest));
    }
    Ok(body)
}

/// Reads the body of a request whose head the buffer has up to `start`, with what else has come:
/// of the length that the headers say, out of the bytes after the head.
/// No byte after the body is taken from the reader.
/// A request that its headers refuse is not read, and takes no memory.
///
/// # Errors
///
/// `Refused` where the headers refuse the request, or the input ended before the body was whole;
/// `Memory` where there was none for the body, which is not empty, and then nothing was read;
/// `Read` where a read failed, an interrupted one too, before the body was whole.
pub fn read_body<R: Read>(
    alloc: Global,
    reader: &mut R,
    buf: &[u8],
    headers: &[HeaderSpan],
    start: usize,
) -> Result<Vec<u8>, BodyFault>
    requires within { All (IsHeaderWithin (length buf.now)) headers.now }
    requires started { start ≤ length buf.now }
    ensures body { IfRead result (λ body. HadBytes (R.remaining reader.old)
        (λ more. body ≡ body_of (map (header_bytes buf.now) headers.now) (drop start buf.now ++ more))) }
    ensures taken { IfOk result (λ body.
        Consumes (R.remaining reader.old) (R.remaining reader.new) (drop (length buf.now - start) body.items)) }

    // However it ends, no byte after the body is taken.
    ensures within { TakesBody (size_told (body_length (map (header_bytes buf.now) headers.now)))
        (drop start buf.now) (R.remaining reader.old) (R.remaining reader.new) }

    // What the headers refuse is not read, and takes no memory.
    ensures refused { IfErr (body_length (map (header_bytes buf.now) headers.now))
        (λ refusal. (result ≡ Err (BodyFault.Refused refusal)) × (reader.new ≡ reader.old)) }

    // An empty body takes no memory, and a body that is at hand is not read.
    ensures memory { result ≡ Err BodyFault.Memory → (reader.new ≡ reader.old)
        × (body_length (map (header_bytes buf.now) headers.now) ≢ Ok 0) }
    ensures cut { result ≡ Err BodyFault.Read → IfOk (body_length (map (header_bytes buf.now) headers.now))
        (λ size. LosesFewer (R.remaining reader.old) (R.remaining reader.new) (size - (length buf.now - start))) }
{
    let size = body_length(buf, headers)?;
    read_whole(alloc, reader, &buf[start..], size as usize)
}
