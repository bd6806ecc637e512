//! The lines of a text.

ghost use Rattle.std.specs.Prelude.{◌≡◌, ◌<◌, ◌∷◌, length, IfOk};
ghost use Rattle.control_lines.specs.Lines.{without_return, raw_lines, lines_of};

use debver::Text;
use std::alloc::{AllocError, Global};

/// The line without one carriage return at its end.
pub fn without_return(line: &str) -> &str
    ensures { result.now ≡ without_return line.now }
{
    match line.strip_suffix('\r') {
        Some(rest) => rest,
        None => line,
    }
}

// The first line of a text that is not empty, and what follows its line feed.
fn cut_line(text: &str) -> (&str, &str)
    requires { 0 < length text.now }
    ensures lines { raw_lines text.now ≡ result.0.now ∷ raw_lines result.1.now }
    ensures shorter { length result.1.now < length text.now }
{
    match text.split_once('\n') {
        Some((line, rest)) => (line, rest),
        None => (text, ""),
    }
}

/// The lines of a message.
#[tactic(auto, unfolding(crate::specs::Lines::lines_of))]
pub fn split_lines(alloc: Global, message: &str) -> Result<Vec<Text>, AllocError>
    ensures { IfOk result (λ lines. lines.items ≡ lines_of message.now) }
{
    let mut lines = Vec::new(alloc);
    let mut rest = message;
    while !rest.is_empty() {
        let (line, more) = cut_line(rest);
        lines.push(Text::of(alloc, without_return(line))?)?;
        rest = more;
    }
    Ok(lines)
}
