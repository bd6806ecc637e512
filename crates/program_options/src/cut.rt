//! Where the options end and the command begins.

ghost use Rattle.std.specs.Prelude.{◌≡◌, map};
ghost use Rattle.std.specs.List.{prefix_len, list_any};
ghost use Rattle.program_options.specs.Cut.{is_option, option_words, command_words, is_lone_dash};

// Whether the word begins with `-`.
fn is_option(word: &str) -> bool
    ensures { result ≡ is_option word.now }
{
    match word.as_bytes().first() {
        Some(byte) => *byte == b'-',
        None => false,
    }
}

// How many words stand before the command.
fn option_count(words: &[&str]) -> usize
    ensures { result ≡ prefix_len (λ word. is_option word.now) words.now }
{
    words.iter().take_while(|word| is_option(word)).count()
}

/// The words of the options, which are the leading words that begin with `-`, and the words of the
/// command.
pub(crate) fn cut<'a>(words: &'a [&'a str]) -> (&'a [&'a str], &'a [&'a str])
    ensures options { map (λ s. s.now) result.0.now
        ≡ option_words (map (λ s. s.now) words.entry.now) }
    ensures command { map (λ s. s.now) result.1.now
        ≡ command_words (map (λ s. s.now) words.entry.now) }
{
    words.split_at(option_count(words))
}

// Whether the word is a lone `-`.
fn is_lone_dash(word: &str) -> bool
    ensures { result ≡ is_lone_dash word.now }
{
    word == "-"
}

/// Whether one of the words is a lone `-`.
pub(crate) fn has_lone_dash(words: &[&str]) -> bool
    ensures { result ≡ list_any (λ word. is_lone_dash word.now) words.now }
{
    words.iter().any(|word| is_lone_dash(word))
}
