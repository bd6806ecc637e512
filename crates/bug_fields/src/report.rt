//! The change that a new report makes.

ghost use Rattle.std.specs.Prelude.{◌≡◌, ◌<◌, IfOk};
ghost use Rattle.debver.specs.Names.{IsName};
ghost use Rattle.bug_record.specs.Sets.{Each};
ghost use Rattle.base_words.specs.Texts.{IsText, IfGiven};
ghost use Rattle.bug_record.specs.Desk.{Desk, IsSound};
ghost use Rattle.version_nodes.specs.Nodes.{IsNode};
ghost use Rattle.bug_record.specs.Steps.{found_first, reported};
ghost use Rattle.bug_record.specs.Images.{put, AreApart, HasMember, FitsDesk};
ghost use Rattle.bug_fields.specs.Reports.{only_member, shared_of_report, image_of_report};
ghost use Rattle.base_words.specs.declared.named.TheConstants.{AFTER_LARGEST};

use bug_record::{Agreed, Change, Member, Members, Nodes, Sequence, SetImage, Severity, Shared};
use debver::Text;
use std::alloc::{AllocError, Global};
use version_nodes::Node;

// The set of the node, if one is given.
fn found_first(alloc: Global, node: Option<Node>) -> Nodes
    ensures { result ≡ found_first node }
{
    match node {
        Some(node) => Sequence::one(alloc, node),
        None => Sequence::new(alloc),
    }
}

// The new bug, as the only member of its set.
fn only_member(alloc: Global, number: u64, title: &str, from: &Text) -> Result<Members, AllocError>
    ensures { IfOk result (λ members. members ≡ only_member number title.now from.now) }
{
    Ok(Members::one(Member {
        number,
        title: Text::of(alloc, title)?,
        submitter: from.copy()?,
    }))
}

// The package's name, which is shared with the first of the nodes where that is of the package.
fn package_text(alloc: Global, package: &str, found: &[Node]) -> Result<Text, AllocError>
    ensures { IfOk result (λ text. text ≡ «package».now) }
{
    if let Some(node) = found.first() {
        if node.is_of(package) {
            return node.copy_source();
        }
    }
    Text::of(alloc, package)
}

// The shared fields of a new bug, which is open.
fn shared_of_report(
    alloc: Global,
    package: &str,
    severity: Severity,
    found: Nodes,
) -> Result<Shared, AllocError>
    ensures { IfOk result (λ shared. shared ≡ shared_of_report «package».now severity found) }
{
    Ok(Shared {
        package: package_text(alloc, package, found.as_slice())?,
        severity,
        closed: false,
        forwarded: None,
        owner: None,
        tags: Sequence::new(alloc),
        affects: Sequence::new(alloc),
        found,
        fixed: Sequence::new(alloc),
        blockers: Sequence::new(alloc),
        archived: false,
    })
}

// The image of the new bug, alone in its set.
fn image_of_report(
    alloc: Global,
    from: &Text,
    package: &str,
    severity: Severity,
    title: &str,
    node: Option<Node>,
    number: u64,
) -> Result<SetImage, AllocError>
    ensures { IfOk result (λ i. i ≡ image_of_report from.now «package».now severity title.now node number) }
{
    let shared = shared_of_report(alloc, package, severity, found_first(alloc, node))?;
    Ok(SetImage {
        shared: Agreed::of(alloc, shared)?,
        members: only_member(alloc, number, title, from)?,
    })
}

/// The change that a report makes: the bug of the next number is new, open, merged with none, and
/// found at the node, if one is given.
/// It shares the sender's text, and the source of that node where that is the package.
/// `next` is the desk's next number, from 1 to 999,999,999, so that a number is left.
///
/// # Errors
///
/// Only where there was no memory.
pub fn report_change(
    alloc: Global,
    from: &Text,
    package: &str,
    severity: Severity,
    title: &str,
    node: Option<Node>,
    next: u64,
) -> Result<Change, AllocError>
    requires sender { IsText from.now }
    requires name { IsName «package».now }
    requires title { IsText title.now }
    requires node { IfGiven IsNode node }
    requires some_left { next < AFTER_LARGEST }
    ensures right { (d : Desk) → IsSound d → d.next ≡ next
        → IfOk result (λ change. put d change ≡ reported d from.now «package».now severity title.now node) }
    ensures fits { (d : Desk) → IsSound d → d.next ≡ next → IfOk result (λ change. FitsDesk d change) }
    ensures apart { IfOk result (λ change. AreApart change.images) }
    ensures members { IfOk result (λ change. Each HasMember change.images) }
{
    // A look at the sender's text, so that it is known to be UTF-8.
    let _ = from.as_str();
    let image = image_of_report(alloc, from, package, severity, title, node, next)?;
    Ok(Change {
        images: Sequence::one(alloc, image),
        next: next + 1,
    })
}
