//! The text of a message that is made of lines.

ghost use Rattle.std.specs.Prelude.{◌≡◌, ◌++◌, IfOk, OnOk};
ghost use Rattle.std.specs.String.{string_bytes};
ghost use Rattle.program_options.specs.Message.{with_feeds, message_text};

use debver::Text;
use std::alloc::{AllocError, Global};

// Adds lines to a text, each with a line feed before it.
#[tactic(auto, using(crate::proofs::TextLemmas::feeds_step))]
fn add_lines(text: &mut String, lines: &[Text]) -> Result<(), AllocError>
    ensures { OnOk result (string_bytes text.new ≡ string_bytes text.old ++ with_feeds lines.now) }
{
    for line in lines {
        text.push_str("\n")?;
        text.push_str(line.as_str())?;
    }
    Ok(())
}

/// The text of a message of these lines: one after another, with a line feed between two of them.
pub fn message_text(alloc: Global, lines: &[Text]) -> Result<String, AllocError>
    ensures { IfOk result (λ text. string_bytes text ≡ message_text lines.now) }
{
    let mut text = String::new(alloc);
    if let Some((first, rest)) = lines.split_first() {
        text.push_str(first.as_str())?;
        add_lines(&mut text, rest)?;
    }
    Ok(text)
}
