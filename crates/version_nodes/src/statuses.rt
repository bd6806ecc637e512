//! What a bug may be at a node, and what a mark says of it.

/// Whether a bug is in a version.
#[derive(Clone, Copy, Debug, PartialEq, Eq, Drop)]
pub enum Status {
    /// The bug is there.
    Found,
    /// It is fixed there.
    Fixed,
    /// No node of the line is marked, and it is marked as found elsewhere.
    Absent,
    /// It is closed, and no version is named that fixes it.
    Done,
}

/// What the mark of a bug at a node says.
#[derive(Clone, Copy, Drop)]
pub enum MarkKind {
    /// The bug is there.
    Found,
    /// It is fixed there.
    Fixed,
}
