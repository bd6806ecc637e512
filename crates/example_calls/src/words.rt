//! The words of texts that have several parts.

/// The words of `FIRST, found NODES, fixed NODES`.
#[derive(Clone, Copy)]
pub(crate) struct MarkWords<'a> {
    pub first: &'a str,
    pub found: &'a str,
    pub fixed: &'a str,
}

/// The words of `NODE STATE, found NODES, fixed NODES`.
#[derive(Clone, Copy)]
pub(crate) struct StatusWords<'a> {
    pub node: &'a str,
    pub state: &'a str,
    pub found: &'a str,
    pub fixed: &'a str,
}

/// The words of `NUMBERS, found NODES, fixed NODES, waits NUMBERS, had NODES, had fixed NODES`: of
/// the set, and after `waits` of what it waits on and had.
#[derive(Clone, Copy)]
pub(crate) struct EditWords<'a> {
    pub set: MarkWords<'a>,
    pub had: MarkWords<'a>,
}

// What stands before these bytes in a text, and after them, where they stand first.
fn cut<'a>(text: &'a str, bytes: &str) -> Option<(&'a str, &'a str)> {
    text.split_once(bytes)
}

/// The words of a text with marks, if it is one.
pub(crate) fn mark_words(text: &str) -> Option<MarkWords<'_>> {
    let (first, marks) = cut(text, ", found")?;
    let (found, fixed) = cut(marks, ", fixed")?;
    Some(MarkWords {
        first,
        found,
        fixed,
    })
}

/// The words of a status, if the text is one.
pub(crate) fn status_words(text: &str) -> Option<StatusWords<'_>> {
    let words = mark_words(text)?;
    let (node, state) = cut(words.first, " ")?;
    Some(StatusWords {
        node,
        state,
        found: words.found,
        fixed: words.fixed,
    })
}

// The words of `NUMBERS, had NODES, had fixed NODES`, if the text is so.
fn had_words(text: &str) -> Option<MarkWords<'_>> {
    let (first, marks) = cut(text, ", had")?;
    let (found, fixed) = cut(marks, ", had fixed")?;
    Some(MarkWords {
        first,
        found,
        fixed,
    })
}

/// The words of edits, if the text has them.
pub(crate) fn edit_words(text: &str) -> Option<EditWords<'_>> {
    let words = mark_words(text)?;
    let (fixed, rest) = cut(words.fixed, ", waits")?;
    let had = had_words(rest)?;
    let set = MarkWords { fixed, ..words };
    Some(EditWords { set, had })
}
