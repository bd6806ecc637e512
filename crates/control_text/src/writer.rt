//! Writes the words of commands as lines.

ghost use Rattle.std.specs.Prelude.{◌≡◌, IfOk, IfErr};
ghost use Rattle.std.specs.Option.{option_copied};
ghost use Rattle.control_text.specs.Writer.{state_of, start, meant_at, with_line, taken, ended, read};
ghost use Rattle.control_text.specs.Writer.{IsUnsetAt};

use crate::bug_places::{Place, is_bug_word, is_it};
use crate::cut::cut;
use crate::fault::WordsFault;
use std::alloc::{AllocError, Global};
use std::mem;

/// The words that were read, as far as they are written.
#[derive(Drop)]
pub(crate) struct Writer<'a> {
    /// The lines of the commands that have ended.
    pub lines: Vec<String>,
    /// The command that is being read.
    pub line: String,
    /// Where its next word stands.
    pub place: Place,
    /// The last bug word at a bug place.
    pub last: Option<&'a str>,
}

impl<'a> Writer<'a> {
    pub(crate) fn new(alloc: Global) -> Writer<'a>
        ensures { state_of result ≡ start }
    {
        Writer {
            lines: Vec::new(alloc),
            line: String::new(alloc),
            place: Place::First,
            last: None,
        }
    }

    /// The word that is written for this one; `None` where it is an `it` with no bug to stand for.
    fn meant(&self, word: &'a str) -> Option<&'a str>
        ensures { option_copied result
            ≡ meant_at self.now.place (option_copied self.now.last) word.now }
    {
        if self.place.stands_for_bug() && is_it(word) {
            self.last
        } else {
            Some(word)
        }
    }

    /// Writes a word at the end of the line.
    fn write(&mut self, alloc: Global, word: &str) -> Result<(), AllocError>
        ensures { IfOk result (λ u. state_of self.new ≡ with_line (state_of self.old) word.now) }
    {
        if self.place.is_begun() {
            self.line.push_str(" ")?;
            self.line.push_str(word)?;
        } else {
            self.line = String::from_str(alloc, word)?;
        }
        Ok(())
    }

    /// Takes one more word of the command, from this place among all words.
    fn take(&mut self, alloc: Global, place: usize, word: &'a str) -> Result<(), WordsFault>
        ensures ok { IfOk result (λ u.
            taken (state_of self.old) word.now ≡ Some (state_of self.new)) }
        ensures err { IfErr result (IsUnsetAt place (taken (state_of self.old) word.now)) }
    {
        let Some(written) = self.meant(word) else {
            return Err(WordsFault::ItUnset(place));
        };
        if self.write(alloc, written).is_err() {
            return Err(WordsFault::Memory);
        }
        if self.place.stands_for_bug() && is_bug_word(word) {
            self.last = Some(word);
        }
        self.place = self.place.after(word);
        Ok(())
    }

    /// Ends the command, if it has begun.
    pub(crate) fn end(&mut self, alloc: Global) -> Result<(), AllocError>
        ensures { IfOk result (λ u. state_of self.new ≡ ended (state_of self.old)) }
    {
        if self.place.is_begun() {
            let line = mem::replace(&mut self.line, String::new(alloc));
            self.lines.push(line)?;
            self.place = Place::First;
        }
        Ok(())
    }

    /// Reads the word that was handed in at this place.
    pub(crate) fn read(
        &mut self,
        alloc: Global,
        place: usize,
        word: &'a str,
    ) -> Result<(), WordsFault>
        ensures ok { IfOk result (λ u.
            read (state_of self.old) word.now ≡ Some (state_of self.new)) }
        ensures err { IfErr result (IsUnsetAt place (read (state_of self.old) word.now)) }
    {
        let (text, ends) = cut(word);
        if !text.is_empty() {
            self.take(alloc, place, text)?;
        }
        if ends && self.end(alloc).is_err() {
            return Err(WordsFault::Memory);
        }
        Ok(())
    }
}
