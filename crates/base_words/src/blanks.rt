//! Blanks and control characters.
//! This project's own rule.

ghost use Rattle.std.specs.Prelude.{◌≡◌};
ghost use Rattle.std.specs.List.{list_any};
ghost use Rattle.base_words.specs.Blanks.{is_blank, is_control};

/// Whether the byte is a blank: a space or a tab.
pub fn is_blank(byte: u8) -> bool
    ensures { result ≡ is_blank byte }
{
    byte == b' ' || byte == b'\t'
}

/// Whether the byte is an ASCII control character (0 to 31, and 127) other than tab.
pub fn is_control(byte: u8) -> bool
    ensures { result ≡ is_control byte }
{
    byte.is_ascii_control() && byte != b'\t'
}

/// Whether the text holds a control character other than tab.
pub fn has_control(text: &str) -> bool
    ensures { result ≡ list_any is_control text.now }
{
    // Every byte is looked at, so that the machine tests several at a time.
    let mut found = false;
    for byte in text.as_bytes() {
        found = found | is_control(*byte);
    }
    found
}
