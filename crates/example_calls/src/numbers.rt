//! The numbers that stand for tags and severities in tables.

use bug_record::{Tag, Tags};
use std::alloc::{AllocError, Global};
use table_encodings::{number_of_tags, severity_of_number, tags_of_number};

// Adds the names of tags; `-` where there is none.
fn add_names(out: &mut String, tags: &[Tag]) -> Result<(), AllocError> {
    if tags.is_empty() {
        return out.push('-');
    }
    for (place, tag) in tags.iter().enumerate() {
        if place > 0 {
            out.push(' ')?;
        }
        out.push_str(tag.name())?;
    }
    Ok(())
}

// Puts the tag of a word into a set; answers whether the word is a tag.
fn read_tag(tags: &mut Tags, word: &str) -> Result<bool, AllocError> {
    let Some(tag) = Tag::read(word) else {
        return Ok(false);
    };
    tags.add(tag)?;
    Ok(true)
}

// Puts the tags of these words into a set; answers whether each word is a tag.
fn read_tags(tags: &mut Tags, text: &str) -> Result<bool, AllocError> {
    for word in text.split_ascii_whitespace() {
        if !read_tag(tags, word)? {
            return Ok(false);
        }
    }
    Ok(true)
}

/// Adds the number of these tags, and the tags of that number.
/// Answers whether each word is a tag.
pub(crate) fn add_tags(alloc: Global, out: &mut String, text: &str) -> Result<bool, AllocError> {
    let mut tags = Tags::new(alloc);
    if !read_tags(&mut tags, text)? {
        return Ok(false);
    }
    let number = number_of_tags(&tags);
    write!(out, "{number}, ")?;
    add_names(out, tags_of_number(alloc, u64::from(number))?.as_slice())?;
    Ok(true)
}

/// Adds the tags of a number.
/// Answers whether the text is a number.
pub(crate) fn add_tags_of(alloc: Global, out: &mut String, text: &str) -> Result<bool, AllocError> {
    let Ok(number) = text.parse::<u64>() else {
        return Ok(false);
    };
    add_names(out, tags_of_number(alloc, number)?.as_slice())?;
    Ok(true)
}

/// Adds the severity of a number.
/// Answers whether the text is a number.
pub(crate) fn add_severity(out: &mut String, text: &str) -> Result<bool, AllocError> {
    let Ok(number) = text.parse::<u64>() else {
        return Ok(false);
    };
    match severity_of_number(number) {
        Some(severity) => out.push_str(severity.name())?,
        None => out.push_str("none")?,
    }
    Ok(true)
}
