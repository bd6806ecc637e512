//! The edits of the rows that a set is made of.

use crate::rows::{MarkSets, kind_word, no_marks, read_marks};
use crate::words::{EditWords, MarkWords, edit_words};
use bug_record::{
    Agreed, Member, Members, Numbers, Sequence, SetImage, Severity, Shared, Tags, copy_nodes,
};
use debver::Text;
use std::alloc::{AllocError, Global};
use table_content::{Edit, RowEdits, row_edits};
use version_marks::Family;
use version_nodes::{MarkKind, Node};

// Puts the number that a word is into a list; answers whether it is one.
fn read_number(numbers: &mut Numbers, word: &str) -> Result<bool, AllocError> {
    let Ok(number) = word.parse::<u64>() else {
        return Ok(false);
    };
    numbers.add(number)?;
    Ok(true)
}

// Puts numbers that are written with blanks between them into a list; answers whether each is one.
fn read_numbers(numbers: &mut Numbers, text: &str) -> Result<bool, AllocError> {
    for word in text.split_ascii_whitespace() {
        if !read_number(numbers, word)? {
            return Ok(false);
        }
    }
    Ok(true)
}

// The bug of this number.
fn member_of(alloc: Global, number: u64) -> Result<Member, AllocError> {
    let title = Text::of(alloc, "a title")?;
    let submitter = Text::of(alloc, "ann")?;
    Ok(Member {
        number,
        title,
        submitter,
    })
}

// The bugs of these numbers.
fn members_of(alloc: Global, numbers: &[u64]) -> Result<Members, AllocError> {
    let mut members = Sequence::new(alloc);
    for number in numbers {
        members.push(member_of(alloc, *number)?)?;
    }
    Members::of(members)
}

// Numbers and marks: of a set its bugs and marks, or what it waits on and the marks that it had.
#[derive(Drop)]
struct EditPart {
    numbers: Numbers,
    marks: MarkSets,
}

// A part with no numbers and no marks.
fn empty_part(alloc: Global) -> EditPart {
    EditPart {
        numbers: Numbers::new(alloc),
        marks: no_marks(alloc),
    }
}

// Reads a part; answers whether each word is a number or a node, as it has to be.
fn read_part(alloc: Global, part: &mut EditPart, words: MarkWords<'_>) -> Result<bool, AllocError> {
    Ok(read_numbers(&mut part.numbers, words.first)? && read_marks(alloc, &mut part.marks, words)?)
}

// The parts of the text of edits.
#[derive(Drop)]
struct EditParts {
    set: EditPart,
    had: EditPart,
}

// Reads the parts; answers whether each word is a number or a node, as it has to be.
fn read_parts(
    alloc: Global,
    parts: &mut EditParts,
    words: EditWords<'_>,
) -> Result<bool, AllocError> {
    Ok(read_part(alloc, &mut parts.set, words.set)? && read_part(alloc, &mut parts.had, words.had)?)
}

// The shared fields of a set of the package `foo`, with these marks and blockers.
fn fields_of(alloc: Global, marks: &MarkSets, blockers: &Numbers) -> Result<Shared, AllocError> {
    let package = Text::of(alloc, "foo")?;
    let found = copy_nodes(&marks.found)?;
    let fixed = copy_nodes(&marks.fixed)?;
    let blockers = blockers.copy()?;
    Ok(Shared {
        package,
        severity: Severity::Normal,
        closed: false,
        forwarded: None,
        owner: None,
        tags: Tags::new(alloc),
        found,
        fixed,
        blockers,
        affects: Sequence::new(alloc),
        archived: false,
    })
}

// The image of a set of these bugs and marks, with these blockers.
fn image_of(alloc: Global, set: &EditPart, blockers: &Numbers) -> Result<SetImage, AllocError> {
    let shared = Agreed::of(alloc, fields_of(alloc, &set.marks, blockers)?)?;
    let members = members_of(alloc, set.numbers.as_slice())?;
    Ok(SetImage { shared, members })
}

// Adds a word of an edit, and the number after it.
fn add_numbered(out: &mut String, word: &str, number: u64) -> Result<(), AllocError> {
    write!(out, " {word} {number}")
}

// Adds that a set gets a mark.
fn add_mark(out: &mut String, key: u64, kind: MarkKind, node: &Node) -> Result<(), AllocError> {
    write!(out, " +{} {node}", kind_word(kind))?;
    add_numbered(out, "of", key)
}

// Adds what an edit puts, in a few words; of nearest marks nothing, since their order is none, and
// of the packages that the set affects nothing, since the examples have none.
fn add_put(out: &mut String, edit: &Edit) -> Result<(), AllocError> {
    match edit {
        Edit::PutMember { key, member } => write!(out, " +bug {} in {key}", member.number),
        Edit::PutFields { key, .. } => add_numbered(out, "+set", *key),
        Edit::PutBlocker { key, blocker } => write!(out, " +blocker {blocker} of {key}"),
        Edit::PutMark { key, kind, node } => add_mark(out, *key, *kind, node),
        _ => Ok(()),
    }
}

// Adds an edit in a few words.
fn add_edit(out: &mut String, edit: &Edit) -> Result<(), AllocError> {
    match edit {
        Edit::DropMember { number } => add_numbered(out, "-bug", *number),
        Edit::DropFields { key } => add_numbered(out, "-set", *key),
        Edit::DropBlockers { key } => add_numbered(out, "-blockers", *key),
        Edit::DropMarks { key } => add_numbered(out, "-marks", *key),
        Edit::DropNear { key } => add_numbered(out, "-nearest", *key),
        _ => add_put(out, edit),
    }
}

// Adds edits, and how many nearest marks they put.
fn add_all(out: &mut String, edits: &[Edit]) -> Result<(), AllocError> {
    let mut near = 0usize;
    for edit in edits {
        add_edit(out, edit)?;
        if matches!(edit, Edit::PutNear { .. }) {
            near = near.wrapping_add(1);
        }
    }
    if near > 0 {
        write!(out, " +{near} nearest")?;
    }
    Ok(())
}

// Adds what is cleared, and what is put.
fn add_cleared_and_put(out: &mut String, edits: &RowEdits) -> Result<(), AllocError> {
    out.push_str("clear")?;
    add_all(out, edits.cleared.as_slice())?;
    out.push_str("; put")?;
    add_all(out, edits.put.as_slice())
}

// Adds the edits of a set that waits on such bugs, where its key had such marks.
fn add_edits_of(
    alloc: Global,
    out: &mut String,
    family: &Family,
    set: &EditPart,
    had: &EditPart,
) -> Result<(), AllocError> {
    let image = image_of(alloc, set, &had.numbers)?;
    let found = had.marks.found.as_slice();
    let fixed = had.marks.fixed.as_slice();
    let edits = row_edits(alloc, family, &image, found, fixed)?;
    add_cleared_and_put(out, &edits)
}

// Adds the edits of a set that is written so.
// Answers whether each word is a number or a node, as it has to be.
fn add_told_edits(
    alloc: Global,
    out: &mut String,
    family: &Family,
    words: EditWords<'_>,
) -> Result<bool, AllocError> {
    let mut parts = EditParts {
        set: empty_part(alloc),
        had: empty_part(alloc),
    };
    let are_read = read_parts(alloc, &mut parts, words)?;
    if are_read {
        add_edits_of(alloc, out, family, &parts.set, &parts.had)?;
    }
    Ok(are_read)
}

/// Adds what is cleared and what is put for the set of these bugs, where its key has such marks.
/// Answers whether the text tells all of these.
pub(crate) fn add_edits(
    alloc: Global,
    out: &mut String,
    family: &Family,
    text: &str,
) -> Result<bool, AllocError> {
    match edit_words(text) {
        Some(words) => add_told_edits(alloc, out, family, words),
        None => Ok(false),
    }
}
