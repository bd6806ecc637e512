//! Names of packages.

ghost use Rattle.std.specs.Prelude.{◌≡◌, not, position, Some, None, MatchResult};
ghost use Rattle.debver.specs.Names.{starts_name, in_name, has_name_start, wrong_in_name, IsName, name_fault};

use thiserror::Error;

/// Why a text is no name of a package: the first fault, in the order in which they stand here.
#[derive(Clone, Copy, Debug, PartialEq, Eq, Error)]
pub enum NameFault {
    /// Less than two bytes.
    #[error("the package name has less than two bytes")]
    Short,
    /// The byte offset of the first wrong byte.
    #[error("the package name is wrong at byte {0}")]
    BadByte(usize),
    /// More than 100 bytes.
    #[error("the package name has more than 100 bytes")]
    TooLong,
}

fn starts_name(c: u8) -> bool
    ensures { result ≡ starts_name c }
{
    c.is_ascii_lowercase() || c.is_ascii_digit()
}

fn in_name(c: u8) -> bool
    ensures { result ≡ in_name c }
{
    starts_name(c) || c == b'+' || c == b'-' || c == b'.'
}

fn has_name_start(name: &[u8]) -> bool
    ensures { result ≡ has_name_start name.now }
{
    match name.first() {
        Some(c) => starts_name(*c),
        None => false,
    }
}

fn first_outside_name(s: &[u8]) -> Option<usize>
    ensures { result ≡ position (λ c. not (in_name c)) s.now }
{
    s.iter().position(|c| !in_name(*c))
}

// The place of the first wrong byte.
fn wrong_in_name(name: &[u8]) -> Option<usize>
    ensures { result ≡ wrong_in_name name.now }
{
    if has_name_start(name) {
        first_outside_name(name)
    } else {
        Some(0)
    }
}

/// Whether a text is a name of a package: lower-case letters, digits, `+`, `-` and `.`, the first a
/// letter or a digit, 2 to 100 bytes.
pub fn check_name(name: &str) -> Result<(), NameFault>
    ensures exact { MatchResult result
        (λ _. name_fault name.now ≡ None)
        (λ fault. name_fault name.now ≡ Some fault) }
    ensures name { MatchResult result (λ _. IsName name.now) (λ _. ¬ IsName name.now) }
{
    if name.len() < 2 {
        return Err(NameFault::Short);
    }
    if let Some(place) = wrong_in_name(name.as_bytes()) {
        return Err(NameFault::BadByte(place));
    }
    if name.len() > 100 {
        Err(NameFault::TooLong)
    } else {
        Ok(())
    }
}
