//! Words that stand for bugs.

ghost use Rattle.std.specs.Prelude.{◌≡◌};
ghost use Rattle.base_words.specs.Numbers.{without_hash, number_of_digits, number_of_word};
ghost use Rattle.base_words.specs.Bugs.{bug_of_word, name_of_word};

/// The largest number of a bug.
/// The names that `clone` gives end with the same number.
pub const LARGEST_NUMBER: u64 = 999_999_999;

/// The number after the largest one, which no bug has: the next number where none is left.
pub const AFTER_LARGEST: u64 = LARGEST_NUMBER + 1;

/// A bug as a line names it.
#[derive(Clone, Copy, Debug, PartialEq, Eq, Drop)]
pub enum Named {
    /// The bug of this number, from 1 to 999,999,999.
    Number(u64),
    /// The bug that `clone` gave the name -k, k from 1 to 999,999,999.
    Name(u32),
}

// The word without one `#` at its beginning.
fn without_hash(word: &[u8]) -> &[u8]
    ensures { result.now ≡ without_hash word.now }
{
    match word.split_first() {
        Some((first, rest)) if *first == b'#' => rest,
        _ => word,
    }
}

// The value of one to nine digits, of at least 1.
fn number_of_digits(digits: &[u8]) -> Option<u32>
    ensures { result ≡ number_of_digits digits.now }
{
    if digits.len() > 9 {
        return None;
    }
    let mut number = 0;
    for digit in digits {
        if !digit.is_ascii_digit() {
            return None;
        }
        number = number * 10 + u32::from(*digit - b'0');
    }
    if number > 0 { Some(number) } else { None }
}

/// The number of a number word, an optional `#` and one to nine ASCII digits of a value of at least
/// 1; `None` for another text.
pub fn number_word(text: &str) -> Option<u64>
    ensures { result ≡ number_of_word text.now }
{
    let number = number_of_digits(without_hash(text.as_bytes()))?;
    Some(u64::from(number))
}

/// The bug of a bug word, which is a number word, or an optional `#`, a `-` and such digits; `None`
/// for another text.
pub fn bug_word(text: &str) -> Option<Named>
    ensures { result ≡ bug_of_word text.now }
{
    let word = without_hash(text.as_bytes());
    match word.split_first() {
        Some((first, digits)) if *first == b'-' => Some(Named::Name(number_of_digits(digits)?)),
        _ => Some(Named::Number(u64::from(number_of_digits(word)?))),
    }
}

/// The number k, from 1 to 999,999,999, of a word that is the name -k: an optional `#`, a `-` and
/// one to nine ASCII digits of a value of at least 1; `None` for another text.
pub fn name_word(text: &str) -> Option<u32>
    ensures { result ≡ name_of_word text.now }
{
    match bug_word(text) {
        Some(Named::Name(name)) => Some(name),
        _ => None,
    }
}
