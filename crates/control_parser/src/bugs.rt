//! Words that are bugs.

ghost use Rattle.base_words.specs.Words.{words_between, is_separator};
ghost use Rattle.control_grammar.specs.Commands.{read_bug, each_word, some_bugs};
ghost use Rattle.control_parser.specs.Reads.{Reads};

use crate::fault::LineFault;
use crate::shapes::{MALFORMED, read_bug};
use base_words::{Named, Separators, split_word_by};
use bug_record::Sequence;
use std::alloc::Global;

// The bug of each word between these separators.
fn all_bugs(alloc: Global, separators: Separators, text: &str) -> Result<Sequence<Named>, LineFault>
    ensures { Reads (each_word read_bug (words_between (is_separator separators) text.now)) result }
{
    let mut bugs = Sequence::new(alloc);
    let mut rest = text;
    while let Some((word, more)) = split_word_by(separators, rest) {
        let bug = read_bug(word)?;
        bugs.push(bug)?;
        rest = more;
    }
    Ok(bugs)
}

/// `m ..`: one bug or more, which stand between these separators.
pub(crate) fn some_bugs(
    alloc: Global,
    separators: Separators,
    text: &str,
) -> Result<Sequence<Named>, LineFault>
    ensures { Reads (some_bugs (words_between (is_separator separators) text.now)) result }
{
    if split_word_by(separators, text).is_none() {
        return Err(MALFORMED);
    }
    all_bugs(alloc, separators, text)
}
