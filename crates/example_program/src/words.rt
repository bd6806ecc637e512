//! The words of a line of a table: a bar stands between two of them, and a `^` in a word is a line
//! feed.

use std::alloc::{AllocError, Global};

// A word of the table, with its line feeds.
fn word_of(alloc: Global, text: &str) -> Result<String, AllocError> {
    let mut word = String::new(alloc);
    for (place, piece) in text.split('^').enumerate() {
        if place > 0 {
            word.push_str("\n")?;
        }
        word.push_str(piece)?;
    }
    Ok(word)
}

/// Keeps the words of a line of a table.
pub(crate) fn keep_words(
    alloc: Global,
    kept: &mut Vec<String>,
    line: &str,
) -> Result<(), AllocError> {
    for text in line.split('|') {
        kept.push(word_of(alloc, text)?)?;
    }
    Ok(())
}

/// Adds words that are kept.
pub(crate) fn add_words<'a>(
    words: &mut Vec<&'a str>,
    kept: &'a [String],
) -> Result<(), AllocError> {
    for word in kept {
        words.push(word.as_str())?;
    }
    Ok(())
}
