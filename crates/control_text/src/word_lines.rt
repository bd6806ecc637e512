//! Words as lines.

ghost use Rattle.std.specs.Prelude.{◌≡◌, IfOk, IfErr, map};
ghost use Rattle.std.specs.List.{list_any, position};
ghost use Rattle.std.specs.String.{string_bytes};
ghost use Rattle.base_words.specs.Blanks.{is_control};
ghost use Rattle.control_text.specs.WordLines.{first_fault, lines, IsFaultOf};
ghost use Rattle.control_text.specs.Unset.{unset, IsUnsetIn};

use crate::fault::WordsFault;
use crate::writer::Writer;
use base_words::has_control;
use std::alloc::Global;

/// The place of the first word with a control character other than tab.
fn bad_word(words: &[&str]) -> Option<usize>
    ensures { result ≡ position (λ word. list_any is_control word.now) words.now }
{
    words.iter().position(|word| has_control(word))
}

/// The lines of words none of which is bad.
fn lines_of<'a>(alloc: Global, words: &[&'a str]) -> Result<Vec<String>, WordsFault>
    ensures ok { IfOk result (λ v. (unset (map (λ s. s.now) words.now) ≡ None)
        × (map string_bytes v.items ≡ lines (map (λ s. s.now) words.now))) }
    ensures err { IfErr result (IsUnsetIn (map (λ s. s.now) words.now)) }
{
    let mut writer = Writer::new(alloc);
    for (place, word) in words.iter().enumerate() {
        writer.read(alloc, place, word)?;
    }
    writer.end(alloc)?;
    Ok(writer.lines)
}

/// The lines of a message that words of a command line stand for, in the manner of bts(1).
///
/// A word `,` or `.`, and the comma at the very end of a longer word, ends a command.
/// Empty words and empty commands are skipped; the words of a command are joined by one space.
///
/// All words after the first of `merge`, `forcemerge`, `block` and `unblock` are at bug places, and
/// the second word of any other command.
/// The word `it`, in any ASCII case, at a bug place stands for the last bug word at a bug place
/// before it, in the same or an earlier command, as written there.
/// All but a `,` or `.` by itself and the word `it` are this project's own rules.
///
/// A fault says what is wrong first: a bad word, then no command, then an `it` that has no bug word
/// before it.
pub fn words_to_lines(alloc: Global, words: &[&str]) -> Result<Vec<String>, WordsFault>
    ensures ok { IfOk result (λ v. (first_fault (map (λ s. s.now) words.now) ≡ None)
        × (map string_bytes v.items ≡ lines (map (λ s. s.now) words.now))) }
    ensures err { IfErr result (IsFaultOf (map (λ s. s.now) words.now)) }
{
    match bad_word(words) {
        Some(place) => return Err(WordsFault::BadWord(place)),
        None => {}
    }
    let lines = lines_of(alloc, words)?;
    if lines.is_empty() {
        return Err(WordsFault::NoCommand);
    }
    Ok(lines)
}
