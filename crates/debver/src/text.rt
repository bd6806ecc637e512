//! Texts that are kept.

ghost use Rattle.std.specs.Prelude.{◌≡◌, refl, IfOk, bytes_eq};
ghost use Rattle.std.specs.Ordering.{as_partial_cmp, nat_cmp};
ghost use Rattle.std.specs.Cmp.{partial_equiv_from_equiv};
ghost use Rattle.std.specs.Cmp.Lexicographic.{slice_cmp, nat_list_eq_equiv, nat_list_cmp_total, texts_ties, texts_po};

use arrayvec::ArrayString;
use std::alloc::{AllocError, Global};
use std::cmp::Ordering;
use std::fmt;
use std::marker::Model;
use std::rc::Rc;

// A text of at most so many bytes stands beside the count of its copies, in one piece of memory.
const SHORT: usize = 24;

// The bytes of a text.
#[derive(Drop)]
enum Kept {
    Short(ArrayString<SHORT>),
    Long(String),
}

/// A text, which contracts see as its bytes.
/// Its copies share its memory, which for a text of up to 24 bytes is one piece.
#[derive(Drop)]
pub struct Text {
    kept: Rc<Kept>,
}

impl Model for Text {
    ghost use Rattle.std.specs.Prelude.{List, ℕ};
    ghost use Rattle.debver.specs.Kept.{kept_bytes};

    ghost Value = { List ℕ };

    ghost view = { λ t. kept_bytes t.kept.value };
}

impl Text {
    /// Keeps a copy of a text.
    pub fn of(alloc: Global, text: &str) -> Result<Text, AllocError>
        ensures { IfOk result (λ t. t ≡ text.now) }
    {
        let kept = match ArrayString::from(text) {
            Ok(short) => Kept::Short(short),
            Err(_) => Kept::Long(String::from_str(alloc, text)?),
        };
        Ok(Text {
            kept: Rc::new(alloc, kept)?,
        })
    }

    /// The text.
    pub fn as_str(&self) -> &str
        ensures { result.now ≡ self.now }
    {
        match self.kept.as_ref() {
            Kept::Short(text) => text.as_str(),
            Kept::Long(text) => text.as_str(),
        }
    }

    /// A second such text, which shares the memory of this one.
    /// It takes none itself, and answers out of memory only where no more copies can be counted.
    pub fn copy(&self) -> Result<Text, AllocError>
        ensures { IfOk result (λ t. t ≡ self.now) }
    {
        Ok(Text {
            kept: self.kept.clone()?,
        })
    }
}

/// A text is shown in quotes.
impl fmt::Debug for Text {
    fn fmt<W: fmt::Write>(&self, f: &mut fmt::Formatter<W>) -> fmt::Result {
        fmt::Debug::fmt(self.as_str(), f)
    }
}

impl PartialEq for Text {
    ghost eq = { bytes_eq };

    ghost laws = { partial_equiv_from_equiv nat_list_eq_equiv };

    fn eq(&self, other: &Text) -> bool {
        self.as_str() == other.as_str()
    }
}

impl Eq for Text {
    ghost laws = { nat_list_eq_equiv };
}

impl PartialOrd for Text {
    ghost partial_cmp = { as_partial_cmp (slice_cmp nat_cmp) };

    ghost laws = { texts_po };

    fn partial_cmp(&self, other: &Text) -> Option<Ordering> {
        Some(self.cmp(other))
    }
}

/// Texts are ordered by their bytes.
impl Ord for Text {
    ghost cmp = { slice_cmp nat_cmp };

    ghost total = { nat_list_cmp_total };

    ghost matches_partial_cmp = { λ a b. refl };

    ghost matches_eq = { texts_ties };

    fn cmp(&self, other: &Text) -> Ordering {
        self.as_str().as_bytes().cmp(other.as_str().as_bytes())
    }
}
