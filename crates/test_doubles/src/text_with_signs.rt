//! Bytes out of a text in which signs stand for some of them.

use std::alloc::AllocError;

// Adds a text so many times.
fn add_times(bytes: &mut Vec<u8>, times: u64, text: &[u8]) -> Result<(), AllocError> {
    for _ in 0..times {
        bytes.extend_from_slice(text)?;
    }
    Ok(())
}

// The byte of two hexadecimal digits.
fn hex_byte(sign: &str) -> Option<u8> {
    if sign.len() == 2 {
        u8::from_str_radix(sign, 16).ok()
    } else {
        None
    }
}

// Adds the byte of two hexadecimal digits; answers whether it is one.
fn add_hex(bytes: &mut Vec<u8>, sign: &str) -> Result<bool, AllocError> {
    match hex_byte(sign) {
        Some(byte) => {
            bytes.push(byte)?;
            Ok(true)
        }
        None => Ok(sign.is_empty()),
    }
}

// Adds what stands between `<` and `>`: nothing; `N*TEXT`, which is the text N times; or two
// hexadecimal digits, which are one byte.
// Answers whether it is one of them.
fn add_sign(bytes: &mut Vec<u8>, sign: &str) -> Result<bool, AllocError> {
    match sign.split_once('*') {
        Some((number, text)) => match number.parse::<u64>() {
            Ok(times) => {
                add_times(bytes, times, text.as_bytes())?;
                Ok(true)
            }
            Err(_) => Ok(false),
        },
        None => add_hex(bytes, sign),
    }
}

/// Adds the bytes of a text with its signs.
/// Answers whether they all are signs.
pub fn add_text(bytes: &mut Vec<u8>, text: &str) -> Result<bool, AllocError> {
    let mut is_good = true;
    for (place, piece) in text.split('<').enumerate() {
        if place == 0 {
            bytes.extend_from_slice(piece.as_bytes())?;
            continue;
        }
        let Some((sign, rest)) = piece.split_once('>') else {
            return Ok(false);
        };
        is_good = add_sign(bytes, sign)? && is_good;
        bytes.extend_from_slice(rest.as_bytes())?;
    }
    Ok(is_good)
}
