//! The lines of a file of exchanges.

use base_words::number_word;

/// A line of a file of exchanges, by its sign.
#[derive(Clone, Copy)]
pub(crate) enum DataLine<'a> {
    /// `== NAME` or `== NAME from N`: a new desk, whose first bug has the number N, or 1.
    Desk { first: u64 },
    /// `-- NAME`: what the next exchange shows.
    Note,
    /// `> TEXT`: the first line of a request.
    Request(&'a str),
    /// Any other line belongs to the request above it.
    More(&'a str),
}

// The number of the first bug that a heading tells.
fn first_number(heading: &str) -> u64 {
    match heading.split_once(" from ") {
        Some((_, word)) => number_word(word).unwrap_or(1),
        None => 1,
    }
}

/// What a line is.
pub(crate) fn read_data_line(line: &str) -> DataLine<'_> {
    if let Some(heading) = line.strip_prefix("== ") {
        return DataLine::Desk {
            first: first_number(heading),
        };
    }
    if line.starts_with("-- ") {
        return DataLine::Note;
    }
    match line.strip_prefix("> ") {
        Some(text) => DataLine::Request(text),
        None => DataLine::More(line),
    }
}
