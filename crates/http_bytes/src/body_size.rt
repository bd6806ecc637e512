//! What the headers of a request say of its body.

ghost use Rattle.std.specs.Prelude.{◌≡◌, length, map, All};
ghost use Rattle.std.specs.List.{list_any};
ghost use Rattle.httparse.specs.Spans.{IsHeaderWithin, header_bytes};
ghost use Rattle.http_bytes.specs.Headers.{is_named, values_of, number_of, body_length, length_of_value};
ghost use Rattle.http_bytes.specs.Shown.{AreShown};

use crate::refusal::BodyRefusal;
use httparse::spans::HeaderSpan;

/// The longest body, in bytes.
pub const MAX_BODY: u64 = 65_536;

// The values of the headers of one name.
#[derive(Clone, Copy)]
enum Values<'b> {
    None,
    One(&'b [u8]),
    Several,
}

// Whether a header has this name, in any ASCII case.
fn is_named(buf: &[u8], header: &HeaderSpan, name: &[u8]) -> bool
    requires { IsHeaderWithin (length buf.now) header.now }
    ensures { result ≡ is_named name.now (header_bytes buf.now header.now) }
{
    header.name.of(buf).eq_ignore_ascii_case(name)
}

// Whether some header has this name.
fn has_header(buf: &[u8], headers: &[HeaderSpan], name: &[u8]) -> bool
    requires { All (IsHeaderWithin (length buf.now)) headers.now }
    ensures { result ≡ list_any (λ header. is_named name.now (header_bytes buf.now header)) headers.now }
{
    headers.iter().any(|header| is_named(buf, header, name))
}

// The values of the headers of this name.
fn values_of<'b>(buf: &'b [u8], headers: &[HeaderSpan], name: &[u8]) -> Values<'b>
    requires { All (IsHeaderWithin (length buf.now)) headers.now }
    ensures { AreShown result (values_of name.now (map (header_bytes buf.now) headers.now)) }
{
    let mut values = Values::None;
    for header in headers {
        if is_named(buf, header, name) {
            values = match values {
                Values::None => Values::One(header.value.of(buf)),
                _ => Values::Several,
            };
        }
    }
    values
}

// The number that one to nine digits write.
#[tactic(auto, unfolding(crate::specs::Headers::number_of))]
fn number_of(text: &[u8]) -> Option<u64>
    ensures { result ≡ number_of text.now }
{
    if text.is_empty() || text.len() > 9 {
        return None;
    }
    let mut number = 0;
    for digit in text {
        if !digit.is_ascii_digit() {
            return None;
        }
        number = number * 10 + u64::from(*digit - b'0');
    }
    Some(number)
}

// The length that one value says.
fn length_of_value(value: &[u8]) -> Result<u64, BodyRefusal>
    ensures { result ≡ length_of_value value.now }
{
    let Some(length) = number_of(value) else {
        return Err(BodyRefusal::BadRequest);
    };
    if length > MAX_BODY {
        return Err(BodyRefusal::TooLarge);
    }
    Ok(length)
}

/// The length of the body of a request, in bytes, by its headers, whose names have any ASCII case
/// (RFC 9110, section 8.6); the limit and the refusals are this project's own rule.
///
/// # Errors
///
/// In this order: `NotImplemented` where there is a `Transfer-Encoding`; `LengthRequired` where
/// there is no `Content-Length`; `BadRequest` where there are several, or where it is not one to
/// nine digits; `TooLarge` where it says more than 65,536.
pub fn body_length(buf: &[u8], headers: &[HeaderSpan]) -> Result<u64, BodyRefusal>
    requires { All (IsHeaderWithin (length buf.now)) headers.now }
    ensures { result ≡ body_length (map (header_bytes buf.now) headers.now) }
{
    if has_header(buf, headers, b"transfer-encoding") {
        return Err(BodyRefusal::NotImplemented);
    }
    match values_of(buf, headers, b"content-length") {
        Values::None => Err(BodyRefusal::LengthRequired),
        Values::One(value) => length_of_value(value),
        Values::Several => Err(BodyRefusal::BadRequest),
    }
}
