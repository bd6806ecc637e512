//! The text of a list of bugs.

ghost use Rattle.std.specs.Prelude.{◌≡◌, ◌++◌, ◌-◌, length, replicate, flat_map, OnOk, OnErr, codes};
ghost use Rattle.std.specs.Io.{StartsWith};
ghost use Rattle.std.specs.Fmt.{decimal};
ghost use Rattle.version_nodes.specs.Nodes.{node_text};
ghost use Rattle.bug_record.specs.Severities.{severity_name};
ghost use Rattle.desk_text.specs.Lists.{right_aligned, left_aligned, state_word, row_text, list_head, list_text};

use crate::texts::{append_between, append_node, append_text, append_three};
use bug_record::{ListRow, Severity};
use itoa::Buffer;
use std::alloc::AllocError;
use version_nodes::Node;

// As many spaces as there are places for a number.
const SPACES: &[u8] = b"         ";

// Appends the spaces that a text leaves of its places.
fn append_spaces(out: &mut Vec<u8>, text: &str) -> Result<(), AllocError>
    ensures ok { OnOk result (out.new.items ≡ out.old.items ++ replicate (9 - length text.now) 32) }
    ensures err { OnErr result (StartsWith out.new.items out.old.items) }
{
    let taken = text.len().min(SPACES.len());
    out.extend_from_slice(&SPACES[taken..])
}

// Appends a text in its places, with spaces before it.
fn append_right(out: &mut Vec<u8>, text: &str) -> Result<(), AllocError>
    ensures ok { OnOk result (out.new.items ≡ out.old.items ++ right_aligned 9 text.now) }
    ensures err { OnErr result (StartsWith out.new.items out.old.items) }
{
    append_spaces(out, text)?;
    append_text(out, text)
}

/// Whether a bug is closed, in a word.
pub(crate) fn state_word(closed: bool) -> &'static str
    ensures { result.now ≡ state_word closed }
{
    if closed { "done" } else { "open" }
}

// The severity of a row in its places, and its state, with two spaces before and after each, so
// that a row is written in few pieces.
fn severity_and_state(severity: Severity, closed: bool) -> &'static str
    ensures { result.now ≡ codes "  " ++ left_aligned 9 (severity_name severity) ++ codes "  " ++ state_word closed ++ codes "  " }
{
    match (severity, closed) {
        (Severity::Critical, false) => "  critical   open  ",
        (Severity::Critical, true) => "  critical   done  ",
        (Severity::Grave, false) => "  grave      open  ",
        (Severity::Grave, true) => "  grave      done  ",
        (Severity::Serious, false) => "  serious    open  ",
        (Severity::Serious, true) => "  serious    done  ",
        (Severity::Important, false) => "  important  open  ",
        (Severity::Important, true) => "  important  done  ",
        (Severity::Normal, false) => "  normal     open  ",
        (Severity::Normal, true) => "  normal     done  ",
        (Severity::Minor, false) => "  minor      open  ",
        (Severity::Minor, true) => "  minor      done  ",
        (Severity::Wishlist, false) => "  wishlist   open  ",
        (Severity::Wishlist, true) => "  wishlist   done  ",
    }
}

// Appends the line of a row.
fn append_row(out: &mut Vec<u8>, row: &ListRow) -> Result<(), AllocError>
    ensures ok { OnOk result (out.new.items ≡ out.old.items ++ row_text row.now) }
    ensures err { OnErr result (StartsWith out.new.items out.old.items) }
{
    append_right(out, Buffer::new().format(row.number))?;
    append_three(
        out,
        severity_and_state(row.severity, row.closed),
        row.title.as_str(),
        "\n",
    )
}

// Appends the lines of rows.
fn append_rows(out: &mut Vec<u8>, rows: &[ListRow]) -> Result<(), AllocError>
    ensures ok { OnOk result (out.new.items ≡ out.old.items ++ flat_map row_text rows.now) }
    ensures err { OnErr result (StartsWith out.new.items out.old.items) }
{
    for row in rows {
        append_row(out, row)?;
    }
    Ok(())
}

// Appends what a list is of: the bugs in a package at a node.
fn append_subject(out: &mut Vec<u8>, package: &str, node: &Node) -> Result<(), AllocError>
    ensures ok { OnOk result (out.new.items ≡ out.old.items
        ++ (codes "Bugs in " ++ «package».now ++ codes " at " ++ node_text node.now)) }
    ensures err { OnErr result (StartsWith out.new.items out.old.items) }
{
    append_three(out, "Bugs in ", package, " at ")?;
    append_node(out, node)
}

// Appends the first line of a list.
fn append_head(
    out: &mut Vec<u8>,
    package: &str,
    node: &Node,
    count: usize,
) -> Result<(), AllocError>
    ensures ok { OnOk result (out.new.items ≡ out.old.items ++ list_head «package».now node.now count) }
    ensures err { OnErr result (StartsWith out.new.items out.old.items) }
{
    append_subject(out, package, node)?;
    append_between(out, ": ", count as u64, "\n")
}

fn append_list(
    out: &mut Vec<u8>,
    package: &str,
    node: &Node,
    rows: &[ListRow],
) -> Result<(), AllocError>
    ensures ok { OnOk result (out.new.items ≡ out.old.items ++ list_text «package».now node.now rows.now) }
    ensures err { OnErr result (StartsWith out.new.items out.old.items) }
{
    append_head(out, package, node, rows.len())?;
    append_rows(out, rows)
}

/// Appends the list of a package's bugs at a node: a line that says how many there are, and one for
/// each of these rows, in their order.
/// Where there is no memory, `out` is as before.
pub fn list_text(
    out: &mut Vec<u8>,
    package: &str,
    node: &Node,
    rows: &[ListRow],
) -> Result<(), AllocError>
    ensures ok { OnOk result (out.new.items ≡ out.old.items ++ list_text «package».now node.now rows.now) }
    ensures err { OnErr result (out.new.items ≡ out.old.items) }
{
    let before = out.len();
    let done = append_list(out, package, node, rows);
    if done.is_err() {
        out.truncate(before);
    }
    done
}
