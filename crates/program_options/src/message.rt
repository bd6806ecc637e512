//! The lines of the message that words are.

ghost use Rattle.std.specs.Prelude.{◌≡◌, IfOk, map};
ghost use Rattle.std.specs.String.{string_bytes};
ghost use Rattle.program_options.specs.Jobs.{lines_in};

use crate::job::Lines;
use bug_record::Sequence;
use control_text::{WordsFault, words_to_lines};
use debver::Text;
use std::alloc::{AllocError, Global};

// The lines, kept as texts.
fn kept_lines(alloc: Global, lines: &[String]) -> Result<Lines, AllocError>
    ensures { IfOk result (λ kept. kept ≡ map string_bytes lines.now) }
{
    let mut kept = Sequence::new(alloc);
    for line in lines {
        kept.push(Text::of(alloc, line.as_str())?)?;
    }
    Ok(kept)
}

/// The lines that words are, in the manner of bts(1); `None` where they are none.
pub(crate) fn message_lines(alloc: Global, words: &[&str]) -> Result<Option<Lines>, AllocError>
    ensures { IfOk result (λ kept. kept ≡ lines_in (map (λ s. s.now) words.now)) }
{
    match words_to_lines(alloc, words) {
        Ok(lines) => Ok(Some(kept_lines(alloc, lines.as_slice())?)),
        Err(WordsFault::Memory) => Err(AllocError),
        Err(_) => Ok(None),
    }
}
