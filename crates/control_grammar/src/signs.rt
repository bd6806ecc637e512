//! Signs that words begin with.

/// A sign that a word begins with: that of the tags or packages after it.
#[derive(Clone, Copy, Debug, PartialEq, Eq, Drop)]
pub enum Sign {
    /// `+`: they are added.
    Plus,
    /// `-`: they are taken out.
    Minus,
    /// `=`: all are taken out, and these are added.
    Equals,
}
