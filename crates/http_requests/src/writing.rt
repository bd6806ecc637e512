//! The bytes of an answer, written out.

ghost use Rattle.std.specs.Prelude.{◌≡◌, ◌++◌, ℕ, take, OnOk, OnErr, option_map, unwrap_or, codes};
ghost use Rattle.std.specs.Io.KnownBytes.{Appends};
ghost use Rattle.http.specs.StatusCode.{reason_phrase};
ghost use Rattle.http_requests.specs.Answer.{status_line, allow_line, length_lines, head_bytes, answer_bytes};
ghost use Rattle.http_requests.specs.Shown.{shown};

use crate::reply::Reply;
use arrayvec::ArrayVec;
use base_output::{WriteFault, write_whole};
use http::StatusCode;
use itoa::Buffer;
use std::io::Write;

/// The most bytes that the first write of an answer has.
const FRONT: usize = 8_192;

/// Writes three texts, one after another.
///
/// # Errors
///
/// A write failed, an interrupted one too, or took no byte.
pub fn write_three<W: Write>(
    writer: &mut W,
    first: &[u8],
    second: &[u8],
    third: &[u8],
) -> Result<(), WriteFault>
    ensures all { OnOk result (Appends (W.contents writer.old) (W.contents writer.new)
        (first.now ++ second.now ++ third.now)) }
{
    write_whole(writer, first)?;
    write_whole(writer, second)?;
    write_whole(writer, third)
}

// The phrase of a status, as `http` has it.
fn phrase(status: StatusCode) -> &'static str
    ensures { result.now ≡ unwrap_or (reason_phrase status) (codes "<unknown status code>") }
{
    match status.canonical_reason() {
        Some(phrase) => phrase,
        None => "<unknown status code>",
    }
}

fn write_status<W: Write>(writer: &mut W, status: StatusCode) -> Result<(), WriteFault>
    ensures all { OnOk result (Appends (W.contents writer.old) (W.contents writer.new) (status_line status)) }
{
    write_whole(writer, b"HTTP/1.1 ")?;
    let mut number = Buffer::new();
    let number = number.format(status.as_u16());
    write_three(writer, number.as_bytes(), b" ", phrase(status).as_bytes())?;
    write_whole(writer, b"\r\n")
}

fn write_allow<W: Write>(writer: &mut W, allow: Option<&'static str>) -> Result<(), WriteFault>
    ensures all { OnOk result (Appends (W.contents writer.old) (W.contents writer.new)
        (allow_line (option_map (λ s. s.now) allow.entry))) }
{
    match allow {
        Some(method) => write_three(writer, b"Allow: ", method.as_bytes(), b"\r\n"),
        None => Ok(()),
    }
}

fn write_length<W: Write>(writer: &mut W, length: usize) -> Result<(), WriteFault>
    ensures all { OnOk result (Appends (W.contents writer.old) (W.contents writer.new) (length_lines length)) }
{
    let mut number = Buffer::new();
    let number = number.format(length);
    write_three(
        writer,
        b"Connection: close\r\nContent-Length: ",
        number.as_bytes(),
        b"\r\n",
    )
}

// Writes what stands before the body: the status line, the headers and an empty line.
fn write_head<W: Write>(writer: &mut W, reply: &Reply, length: usize) -> Result<(), WriteFault>
    ensures all { OnOk result (Appends (W.contents writer.old) (W.contents writer.new)
        (head_bytes (shown reply.now) length)) }
{
    write_status(writer, reply.status)?;
    write_allow(writer, reply.allow)?;
    write_length(writer, length)?;
    write_three(
        writer,
        b"Content-Type: ",
        reply.body.media().as_bytes(),
        b"\r\n",
    )?;
    write_whole(writer, b"\r\n")
}

/// Writes an answer: the status line, `Allow` where it has a method, `Connection: close`,
/// `Content-Length` in bytes, `Content-Type`, an empty line, and the body (RFC 9112, sections 4
/// and 5).
/// Its first 8,192 bytes are handed over in one write, and what is left in another.
/// It takes no memory.
///
/// # Errors
///
/// A write failed, an interrupted one too, or took no byte; so it is where the head has more than
/// 8,192 bytes, which no answer of the desk has.
/// A beginning of the answer is then written.
pub fn write_reply<W: Write>(writer: &mut W, reply: &Reply) -> Result<(), WriteFault>
    ensures all { OnOk result (Appends (W.contents writer.old) (W.contents writer.new) (answer_bytes (shown reply.now))) }
    ensures unfinished { OnErr result
        ((n : ℕ) × Appends (W.contents writer.old) (W.contents writer.new) (take n (answer_bytes (shown reply.now)))) }
{
    let body = reply.body.bytes();
    let mut front = ArrayVec::<u8, FRONT>::new();
    write_head(&mut front, reply, body.len())?;
    let (first, rest) = body.split_at(body.len().min(FRONT - front.len()));
    write_whole(&mut front, first)?;
    write_whole(writer, front.as_slice())?;
    write_whole(writer, rest)
}
