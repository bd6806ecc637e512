//! Words that are read in any ASCII case.

ghost use Rattle.std.specs.Prelude.{◌≡◌, ℕ, List};
ghost use Rattle.std.specs.List.{find};
ghost use Rattle.base_words.specs.AnyCase.{is_word};

/// Whether the word is this name, in any ASCII case.
pub fn is_word(word: &str, name: &str) -> bool
    ensures { result ≡ is_word word.now name.now }
{
    word.eq_ignore_ascii_case(name)
}

/// A value that is spelled by a name.
pub trait Spelled {
    ghost spelled: { Self → List ℕ };

    fn spelled(&self) -> &'static str
        ensures { result.now ≡ spelled self.now };
}

/// The first of the values whose name the word is, in any ASCII case; `None` where it is the name
/// of none.
pub fn find_spelled<T: Spelled + Copy>(values: &[T], word: &str) -> Option<T>
    ensures { result ≡ find (λ value. is_word word.now (T.spelled value)) values.now }
{
    values
        .iter()
        .copied()
        .find(|value| is_word(word, value.spelled()))
}
