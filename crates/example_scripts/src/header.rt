//! The headers of scripts.

use base_words::number_word;

/// The line above a script: `== ` and its name, and after that ` from ` and the number of the
/// desk's first bug, where that is not 1.
#[derive(Clone, Copy)]
pub(crate) struct Header<'a> {
    /// The line without its sign.
    pub text: &'a str,
    /// The number of the desk's first bug.
    pub first: u64,
}

/// The header of a line, where it is one.
pub(crate) fn read_header(line: &[u8]) -> Option<Header<'_>> {
    let text = str::from_utf8(line).ok()?;
    let text = text.strip_prefix("== ")?.strip_suffix('\n')?;
    match text.split_once(" from ") {
        Some((_, number)) => Some(Header {
            text,
            first: number_word(number)?,
        }),
        None => Some(Header { text, first: 1 }),
    }
}
