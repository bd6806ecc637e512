//! Numbers as values of options.

ghost use Rattle.std.specs.Prelude.{◌≡◌};
ghost use Rattle.std.specs.List.{list_all};
ghost use Rattle.std.specs.Char.{is_ascii_digit};
ghost use Rattle.std.specs.Option.{option_copied};
ghost use Rattle.program_options.specs.Numbers.{number_in, number_or};

fn all_digits(bytes: &[u8]) -> bool
    ensures { result ≡ list_all is_ascii_digit bytes.now }
{
    bytes.iter().all(|byte| byte.is_ascii_digit())
}

/// The number that the text writes in ASCII digits, where it lies in the range, whose ends count.
#[tactic(auto, unfolding(crate::specs::Numbers::number_in))]
pub(crate) fn number_in(least: u64, most: u64, text: &str) -> Option<u64>
    ensures { result ≡ number_in least most text.now }
{
    if text.is_empty() || !all_digits(text.as_bytes()) {
        return None;
    }
    match text.parse::<u64>() {
        Ok(number) if least <= number && number <= most => Some(number),
        _ => None,
    }
}

/// The same of a value that may be left out, and stands for `usual` then.
pub(crate) fn number_or(usual: u64, least: u64, most: u64, text: Option<&str>) -> Option<u64>
    ensures { result ≡ number_or usual least most (option_copied text.entry) }
{
    match text {
        Some(text) => number_in(least, most, text),
        None => Some(usual),
    }
}
