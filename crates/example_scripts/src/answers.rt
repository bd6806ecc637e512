//! An answer as lines.

use std::alloc::{AllocError, Global};

/// What ends the head of an answer.
const HEAD_END: &str = "\r\n\r\n";

// Adds two hexadecimal digits between `<` and `>`.
fn add_byte(shown: &mut String, byte: u8) -> Result<(), AllocError> {
    shown.push('<')?;
    for digit in [byte / 16, byte % 16] {
        shown.push(char::from_digit(u32::from(digit), 16).unwrap_or('?'))?;
    }
    shown.push('>')
}

// Adds a text: an ASCII control character and `<` as their bytes, and any other character as it is.
fn add_text(shown: &mut String, text: &str) -> Result<(), AllocError> {
    for character in text.chars() {
        match u8::try_from(u32::from(character)) {
            Ok(byte) if byte.is_ascii_control() || byte == b'<' => add_byte(shown, byte)?,
            _ => shown.push(character)?,
        }
    }
    Ok(())
}

// Adds a text, whose ends of lines are line feeds.
fn add_lines(shown: &mut String, text: &str, end: &str) -> Result<(), AllocError> {
    for (place, line) in text.split(end).enumerate() {
        if place > 0 {
            shown.push('\n')?;
        }
        add_text(shown, line)?;
    }
    Ok(())
}

// An answer that is UTF-8.
fn shown_text(alloc: Global, text: &str) -> Result<String, AllocError> {
    let mut shown = String::new(alloc);
    match text.split_once(HEAD_END) {
        Some((head, body)) => {
            add_lines(&mut shown, head, "\r\n")?;
            shown.push_str("\n\n")?;
            add_lines(&mut shown, body, "\n")?;
        }
        None => add_lines(&mut shown, text, "\r\n")?,
    }
    Ok(shown)
}

// Any other answer: each byte between `<` and `>`.
fn shown_bytes(alloc: Global, bytes: &[u8]) -> Result<String, AllocError> {
    let mut shown = String::new(alloc);
    for byte in bytes {
        add_byte(&mut shown, *byte)?;
    }
    Ok(shown)
}

/// An answer as lines, from which its bytes can be told.
/// In its head, which ends with its first empty line, a carriage return and a line feed end a line,
/// and in its body a line feed does.
/// Every other ASCII control character, and `<`, is two hexadecimal digits between `<` and `>`.
/// Where the answer is no UTF-8, every byte is.
pub(crate) fn shown(alloc: Global, answer: &[u8]) -> Result<String, AllocError> {
    match str::from_utf8(answer) {
        Ok(text) => shown_text(alloc, text),
        Err(_) => shown_bytes(alloc, answer),
    }
}
