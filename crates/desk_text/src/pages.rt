//! The text of a bug's page.

ghost use Rattle.std.specs.Prelude.{◌≡◌, ◌++◌, ◌∷◌, flat_map, IfOk, OnOk, OnErr, codes};
ghost use Rattle.std.specs.Fmt.{decimal};
ghost use Rattle.version_nodes.specs.Nodes.{node_text};
ghost use Rattle.bug_record.specs.Tags.{tag_name};
ghost use Rattle.bug_record.specs.Images.{numbers_of, member_at, bug_of};
ghost use Rattle.bug_record.specs.Merges.{others_merged};
ghost use Rattle.desk_text.specs.Pages.{page_line, text_or_dash, yes_or_no, names_or_dash};
ghost use Rattle.desk_text.specs.Pages.{bug_lines, people_lines, mark_lines, relation_lines, page_text, page_in};

use crate::lists::state_word;
use crate::texts::{append_node, append_numbers, append_text, append_three};
use bug_record::{Member, Numbers, Sequence, SetImage, Shared, Tag, member_at};
use debver::Text;
use itoa::Buffer;
use std::alloc::{AllocError, Global};
use version_nodes::Node;

/// What the page of a bug tells: the image of the set that it is in, its number, and the numbers of
/// the bugs that wait on it, ascending.
#[derive(Drop)]
pub struct BugPage {
    pub image: SetImage,
    pub number: u64,
    pub waiting: Numbers,
}

// Appends a line: what it tells of, and what is told.
#[tactic(auto, unfolding(crate::specs::Pages::page_line))]
fn append_line(out: &mut Vec<u8>, label: &str, text: &str) -> Result<(), AllocError>
    ensures { OnOk result (out.new.items ≡ out.old.items ++ page_line label.now text.now) }
{
    append_three(out, label, text, "\n")
}

fn yes_or_no(answer: bool) -> &'static str
    ensures { result.now ≡ yes_or_no answer }
{
    if answer { "yes" } else { "no" }
}

fn text_or_dash(text: &Option<Text>) -> &str
    ensures { result.now ≡ text_or_dash text.now }
{
    match text {
        Some(text) => text.as_str(),
        None => "-",
    }
}

// Appends what a bug is.
fn append_bug(
    out: &mut Vec<u8>,
    number: u64,
    member: &Member,
    image: &SetImage,
) -> Result<(), AllocError>
    ensures { OnOk result (out.new.items ≡ out.old.items ++ bug_lines number (bug_of image.now member.now)) }
{
    let shared = image.shared.fields();
    append_line(out, "Bug ", Buffer::new().format(number))?;
    append_line(out, "Title: ", member.title.as_str())?;
    append_line(out, "Package: ", shared.package.as_str())?;
    append_line(out, "Severity: ", shared.severity.name())?;
    append_line(out, "State: ", state_word(shared.closed))?;
    append_line(out, "Archived: ", yes_or_no(shared.archived))
}

// Appends who has to do with it.
fn append_people(out: &mut Vec<u8>, member: &Member, image: &SetImage) -> Result<(), AllocError>
    ensures { OnOk result (out.new.items ≡ out.old.items ++ people_lines (bug_of image.now member.now)) }
{
    let shared = image.shared.fields();
    append_line(out, "Submitter: ", member.submitter.as_str())?;
    append_line(out, "Owner: ", text_or_dash(&shared.owner))?;
    append_line(out, "Forwarded: ", text_or_dash(&shared.forwarded))?;
    Ok(())
}

// Appends each tag after a space.
fn append_each_tag(out: &mut Vec<u8>, tags: &[Tag]) -> Result<(), AllocError>
    ensures { OnOk result (out.new.items ≡ out.old.items ++ flat_map (λ tag. 32 ∷ tag_name tag) tags.now) }
{
    for tag in tags {
        append_text(out, " ")?;
        append_text(out, tag.name())?;
    }
    Ok(())
}

// Appends the line of the tags.
fn append_tags(out: &mut Vec<u8>, tags: &[Tag]) -> Result<(), AllocError>
    ensures { OnOk result (out.new.items ≡ out.old.items ++ page_line (codes "Tags:") (names_or_dash tag_name tags.now)) }
{
    if tags.is_empty() {
        return append_line(out, "Tags:", " -");
    }
    append_text(out, "Tags:")?;
    append_each_tag(out, tags)?;
    append_text(out, "\n")
}

// Appends each name after a space.
fn append_each_name(out: &mut Vec<u8>, names: &[Text]) -> Result<(), AllocError>
    ensures { OnOk result (out.new.items ≡ out.old.items ++ flat_map (λ name. 32 ∷ name) names.now) }
{
    for name in names {
        append_text(out, " ")?;
        append_text(out, name.as_str())?;
    }
    Ok(())
}

// Appends the line of the packages that a bug affects.
fn append_affects(out: &mut Vec<u8>, names: &[Text]) -> Result<(), AllocError>
    ensures { OnOk result (out.new.items ≡ out.old.items ++ page_line (codes "Affects:") (names_or_dash (λ name. name) names.now)) }
{
    if names.is_empty() {
        return append_line(out, "Affects:", " -");
    }
    append_text(out, "Affects:")?;
    append_each_name(out, names)?;
    append_text(out, "\n")
}

// Appends each node after a space.
fn append_each_node(out: &mut Vec<u8>, nodes: &[Node]) -> Result<(), AllocError>
    ensures { OnOk result (out.new.items ≡ out.old.items ++ flat_map (λ node. 32 ∷ node_text node) nodes.now) }
{
    for node in nodes {
        append_text(out, " ")?;
        append_node(out, node)?;
    }
    Ok(())
}

// Appends a line of nodes.
fn append_nodes(out: &mut Vec<u8>, label: &str, nodes: &[Node]) -> Result<(), AllocError>
    ensures { OnOk result (out.new.items ≡ out.old.items ++ page_line label.now (names_or_dash node_text nodes.now)) }
{
    if nodes.is_empty() {
        return append_line(out, label, " -");
    }
    append_text(out, label)?;
    append_each_node(out, nodes)?;
    append_text(out, "\n")
}

// Appends the tags of a bug, the packages that it affects, and its marks.
fn append_marks(out: &mut Vec<u8>, shared: &Shared) -> Result<(), AllocError>
    ensures { OnOk result (out.new.items ≡ out.old.items ++ mark_lines shared.now) }
{
    append_tags(out, shared.tags.as_slice())?;
    append_affects(out, shared.affects.as_slice())?;
    append_nodes(out, "Found:", shared.found.as_slice())?;
    append_nodes(out, "Fixed:", shared.fixed.as_slice())
}

// Appends a line of numbers.
fn append_number_line(out: &mut Vec<u8>, label: &str, numbers: &[u64]) -> Result<(), AllocError>
    ensures { OnOk result (out.new.items ≡ out.old.items ++ page_line label.now (names_or_dash decimal numbers.now)) }
{
    if numbers.is_empty() {
        return append_line(out, label, " -");
    }
    append_text(out, label)?;
    append_numbers(out, numbers)?;
    append_text(out, "\n")
}

// The numbers of the other members.
fn other_numbers(alloc: Global, members: &[Member], number: u64) -> Result<Numbers, AllocError>
    ensures { IfOk result (λ numbers. numbers ≡ others_merged number (numbers_of members.now)) }
{
    let mut others = Sequence::new(alloc);
    for member in members {
        if member.number != number {
            others.push(member.number)?;
        }
    }
    Ok(others)
}

// Appends the bugs on which a bug waits, those that wait on it, and those merged with it.
fn append_relations(
    out: &mut Vec<u8>,
    blockers: &[u64],
    waiting: &[u64],
    others: &[u64],
) -> Result<(), AllocError>
    ensures { OnOk result (out.new.items ≡ out.old.items ++ relation_lines blockers.now waiting.now others.now) }
{
    append_number_line(out, "Blocked by:", blockers)?;
    append_number_line(out, "Blocks:", waiting)?;
    append_number_line(out, "Merged with:", others)?;
    Ok(())
}

// Appends the page of a bug that is this member of the image, and is merged with these others.
fn append_page(
    out: &mut Vec<u8>,
    page: &BugPage,
    member: &Member,
    others: &[u64],
) -> Result<(), AllocError>
    ensures { OnOk result (out.new.items ≡ out.old.items ++ (bug_lines page.now.number (bug_of page.now.image member.now)
        ++ people_lines (bug_of page.now.image member.now) ++ mark_lines page.now.image.shared
        ++ relation_lines page.now.image.shared.blockers page.now.waiting others.now)) }
{
    let image = &page.image;
    append_bug(out, page.number, member, image)?;
    append_people(out, member, image)?;
    let shared = image.shared.fields();
    append_marks(out, shared)?;
    append_relations(
        out,
        shared.blockers.as_slice(),
        page.waiting.as_slice(),
        others,
    )
}

// The page of a bug that is this member of the image.
fn page_of(alloc: Global, page: &BugPage, member: &Member) -> Result<Vec<u8>, AllocError>
    ensures { IfOk result (λ text. text.items
        ≡ page_text page.now.number (bug_of page.now.image member.now) page.now.waiting) }
{
    let others = other_numbers(alloc, page.image.members.as_slice(), page.number)?;
    let mut text = Vec::new(alloc);
    match append_page(&mut text, page, member, others.as_slice()) {
        Ok(()) => Ok(text),
        Err(fault) => Err(fault),
    }
}

/// Appends the page of a bug, which is a member of the page's image: sixteen lines that tell its
/// whole record, the bugs on which it waits, those that wait on it, and those merged with it.
/// What is not there is told as `-`.
/// Where the bug is no member, it appends nothing.
/// Where there is no memory, `out` is as before.
pub fn bug_text(alloc: Global, out: &mut Vec<u8>, page: &BugPage) -> Result<(), AllocError>
    ensures ok { OnOk result (out.new.items ≡ out.old.items
        ++ page_in page.now.image page.now.number page.now.waiting (member_at page.now.image.members page.now.number)) }
    ensures err { OnErr result (out.new.items ≡ out.old.items) }
{
    match member_at(page.image.members.as_slice(), page.number) {
        Some(member) => {
            let text = page_of(alloc, page, member)?;
            out.extend_from_slice(text.as_slice())
        }
        None => Ok(()),
    }
}
