//! Texts within their limits: titles, addresses and senders.

ghost use Rattle.std.specs.Prelude.{◌≡◌, not};
ghost use Rattle.std.specs.List.{list_all};
ghost use Rattle.base_words.specs.Blanks.{is_control, begins_blank};
ghost use Rattle.base_words.specs.Texts.{ends_blank, is_text};

use crate::blanks::{has_control, is_blank};

fn is_clean(text: &str) -> bool
    ensures { result ≡ list_all (λ c. not (is_control c)) text.now }
{
    !has_control(text)
}

fn begins_blank(bytes: &[u8]) -> bool
    ensures { result ≡ begins_blank bytes.now }
{
    match bytes.first() {
        Some(byte) => is_blank(*byte),
        None => false,
    }
}

fn ends_blank(bytes: &[u8]) -> bool
    ensures { result ≡ ends_blank bytes.now }
{
    match bytes.last() {
        Some(byte) => is_blank(*byte),
        None => false,
    }
}

/// Whether this is a text of 1 to 200 bytes, with no control character other than tab, and with no
/// blank (a space or a tab) at its beginning or end.
/// This project's own rule.
#[tactic(auto, unfolding(crate::specs::Texts::is_text))]
pub fn is_text(text: &str) -> bool
    ensures { result ≡ is_text text.now }
{
    let bytes = text.as_bytes();
    if bytes.is_empty() || bytes.len() > 200 {
        return false;
    }
    is_clean(text) && !begins_blank(bytes) && !ends_blank(bytes)
}
