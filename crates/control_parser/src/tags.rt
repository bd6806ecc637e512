//! The command `tags`.

ghost use Rattle.std.specs.Prelude.{◌≡◌, true};
ghost use Rattle.base_words.specs.Words.{words_with_commas};
ghost use Rattle.control_grammar.specs.Commands.{adds_after, tag_step, word_steps, all_steps, tags_command};
ghost use Rattle.control_parser.specs.Reads.{Reads};
ghost use Rattle.control_parser.specs.Growing.{ReadsMore};

use crate::fault::LineFault;
use crate::shapes::{MALFORMED, read_bug};
use crate::signs::sign_and_rest;
use base_words::{Named, next_word, split_word_with_commas};
use bug_record::{Command, Refusal, Sequence, Tag, TagStep};
use control_grammar::Sign;
use std::alloc::Global;

// Whether tags are added after a sign, or without one as before.
fn adds_after(sign: Option<Sign>, adds: bool) -> bool
    ensures { result ≡ adds_after sign adds }
{
    match sign {
        Some(Sign::Plus | Sign::Equals) => true,
        Some(Sign::Minus) => false,
        None => adds,
    }
}

fn tag_step(adds: bool, tag: Tag) -> TagStep
    ensures { result ≡ tag_step adds tag }
{
    if adds {
        TagStep::Add(tag)
    } else {
        TagStep::Remove(tag)
    }
}

// Puts the steps of a sign and of the tag after it behind those before them.
fn push_steps(
    steps: &mut Sequence<TagStep>,
    adds: bool,
    sign: Option<Sign>,
    tag: &str,
) -> Result<(), LineFault>
    ensures { ReadsMore (word_steps adds sign tag.now) steps.old steps.new result }
{
    if let Some(Sign::Equals) = sign {
        steps.push(TagStep::Clear)?;
    }
    if tag.is_empty() {
        return Ok(());
    }
    match Tag::read(tag) {
        Some(tag) => steps.push(tag_step(adds, tag))?,
        None => return Err(LineFault::Refused(Refusal::BadTag)),
    }
    Ok(())
}

// The steps of all words of a text, which begin with adding tags.
fn all_steps(alloc: Global, text: &str) -> Result<Sequence<TagStep>, LineFault>
    ensures { Reads (all_steps true (words_with_commas text.now)) result }
{
    let mut steps = Sequence::new(alloc);
    let mut adds = true;
    let mut rest = text;
    while let Some((word, more)) = split_word_with_commas(rest) {
        let (sign, tag) = sign_and_rest(word);
        adds = adds_after(sign, adds);
        push_steps(&mut steps, adds, sign, tag)?;
        rest = more;
    }
    Ok(steps)
}

/// The command that the text after the word `tags` gives: `tags n ..`, tags and signs, between
/// which commas may stand.
pub(crate) fn read_tags(alloc: Global, arguments: &str) -> Result<Command<Named>, LineFault>
    ensures { Reads (tags_command arguments.now) result }
{
    let (first, rest) = next_word(arguments);
    let bug = read_bug(first)?;
    if split_word_with_commas(rest).is_none() {
        return Err(MALFORMED);
    }
    let steps = all_steps(alloc, rest)?;
    Ok(Command::Tags(bug, steps))
}
