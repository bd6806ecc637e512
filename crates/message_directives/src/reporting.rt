//! Reports of bugs.

ghost use Rattle.std.specs.Prelude.{◌≡◌, ◌<◌, false, is_some, OnOk, IfOk, IfErr, IfSome};
ghost use Rattle.std.specs.Option.{option_copied};
ghost use Rattle.debver.specs.Names.{IsName, name_fault};
ghost use Rattle.debver.specs.Cut.{IsVersion};
ghost use Rattle.version_nodes.specs.Nodes.{node};
ghost use Rattle.base_words.specs.Texts.{IsText, IfGiven};
ghost use Rattle.base_words.specs.declared.named.TheConstants.{AFTER_LARGEST};
ghost use Rattle.bug_record.specs.Sets.{Each};
ghost use Rattle.bug_record.specs.Desk.{Desk, IsSound};
ghost use Rattle.bug_record.specs.Images.{put, AreApart, HasMember, FitsDesk};
ghost use Rattle.bug_record.specs.Steps.{reported};
ghost use Rattle.store_contract.specs.Store.{Holds};
ghost use Rattle.store_contract.specs.Tried.{LeavesTried, tried_by};
ghost use Rattle.message_directives.specs.Reports.{has_bad_version, node_reported, report_severity, report_of, desk_after, IsReported};
ghost use Rattle.message_directives.specs.ReportWords.{IsOfWords};
ghost use Rattle.message_directives.specs.Reports.{faults_after_report, AsksForNext};

use base_faults::StoreFault;
use base_words::{AFTER_LARGEST, is_text};
use bug_fields::report_change;
use bug_record::{Change, Severity};
use debver::{Text, check, check_name};
use desk_text::ReportFault;
use std::alloc::{AllocError, Global};
use store_contract::Records;
use version_nodes::{Node, NodeFault};

fn has_bad_version(version: Option<&str>) -> bool
    ensures value { result ≡ has_bad_version (option_copied version.entry) }
    ensures version { result ≡ false → IfGiven IsVersion (option_copied version.entry) }
{
    match version {
        Some(version) => check(version).is_err(),
        None => false,
    }
}

fn has_bad_name(package: &str) -> bool
    ensures value { result ≡ is_some (name_fault «package».now) }
    ensures name { result ≡ false → IsName «package».now }
{
    match check_name(package) {
        Ok(()) => false,
        Err(_) => true,
    }
}

// The severity of a report whose words are good, or its first refusal.
#[tactic(auto, unfolding(crate::specs::Reports::report_severity))]
fn report_severity(
    package: &str,
    version: Option<&str>,
    severity: &str,
    title: &str,
) -> Result<Severity, ReportFault>
    ensures value { result ≡ report_severity «package».now (option_copied version.entry) severity.now title.now }
    ensures named { OnOk result (IsName «package».now) }
    ensures titled { OnOk result (IsText title.now) }
    ensures versioned { OnOk result (IfGiven IsVersion (option_copied version.entry)) }
    ensures own { IfErr result IsOfWords }
{
    if has_bad_name(package) {
        return Err(ReportFault::BadPackage);
    }
    if has_bad_version(version) {
        return Err(ReportFault::BadVersion);
    }
    match Severity::read(severity) {
        None => Err(ReportFault::BadSeverity),
        Some(severity) => {
            if is_text(title) {
                Ok(severity)
            } else {
                Err(ReportFault::BadTitle)
            }
        }
    }
}

// A text of a report: the one of the store, where it has an equal one.
fn text_of<S: Records>(alloc: Global, store: &S, text: &str) -> Result<Text, AllocError>
    ensures { IfOk result (λ kept. kept ≡ text.now) }
{
    match store.shared_text(text) {
        Some(shared) => Ok(shared),
        None => Text::of(alloc, text),
    }
}

// The node of a package name and a version.
fn node_of<S: Records>(
    alloc: Global,
    store: &S,
    package: &str,
    version: &str,
) -> Result<Node, NodeFault>
    requires name { IsName «package».now }
    requires version { IsVersion version.now }
    ensures { IfOk result (λ n. n ≡ node «package».now version.now) }
{
    let source = text_of(alloc, store, package)?;
    let version = text_of(alloc, store, version)?;
    Node::with_version(&source, &version)
}

// The node of a report: the version of the package, if one is given.
fn node_reported<S: Records>(
    alloc: Global,
    store: &S,
    package: &str,
    version: Option<&str>,
) -> Result<Option<Node>, ReportFault>
    requires name { IsName «package».now }
    requires version { IfGiven IsVersion (option_copied version) }
    ensures node { IfOk result (λ node. node ≡ node_reported «package».now (option_copied version.entry)) }
    ensures memory { IfErr result (λ fault. fault ≡ ReportFault.Store StoreFault.Memory) }
{
    let Some(version) = version else {
        return Ok(None);
    };
    match node_of(alloc, store, package, version) {
        Ok(node) => Ok(Some(node)),
        Err(_) => Err(ReportFault::Store(StoreFault::Memory)),
    }
}

// The change of a report whose words are good: the new bug of the next number.
// `None` where there was no memory.
fn change_of<S: Records>(
    alloc: Global,
    store: &S,
    from: &Text,
    package: &str,
    version: Option<&str>,
    severity: Severity,
    title: &str,
    next: u64,
) -> Option<Change>
    requires sender { IsText from.now }
    requires name { IsName «package».now }
    requires version { IfGiven IsVersion (option_copied version) }
    requires title { IsText title.now }
    requires some_left { next < AFTER_LARGEST }
    ensures right { (d : Desk) → IsSound d → d.next ≡ next → IfSome result (λ change. put d change
        ≡ reported d from.now «package».now severity title.now (node_reported «package».now (option_copied version.entry))) }
    ensures fits { (d : Desk) → IsSound d → d.next ≡ next → IfSome result (λ change. FitsDesk d change) }
    ensures apart { IfSome result (λ change. AreApart change.images) }
    ensures members { IfSome result (λ change. Each HasMember change.images) }
{
    match node_reported(alloc, store, package, version) {
        Ok(node) => report_change(alloc, from, package, severity, title, node, next).ok(),
        Err(_) => None,
    }
}

/// Takes a report: a new bug of the next number, open and merged with none, whose submitter is the
/// sender, whose text it shares, and which is found in the version of its package, if one is given.
/// Answers its number.
/// Where its words are good, the store is asked for the next number first, so that `Full` is
/// answered first, also where memory runs out later.
pub fn report<S: Records>(
    alloc: Global,
    store: &mut S,
    from: &Text,
    package: &str,
    version: Option<&str>,
    severity: &str,
    title: &str,
) -> Result<u64, ReportFault>
    requires { IsText from.now }
    ensures answer { Holds S.is_kept S.is_honest store.old store.new
        (IsReported from.now «package».now (option_copied version.entry) severity.now title.now (S.desk store.old) result
        (S.desk store.new)) }
    ensures stays { Holds S.is_kept S.is_honest store.old store.new (S.keeping store.new ≡ S.keeping store.old) }
    ensures crash { Holds S.is_kept S.is_honest store.old store.new
        (LeavesTried S.leaves store.old store.new (S.keeping store.old) (S.desk store.old) (S.desk store.new)
        (tried_by result (S.desk store.new) (desk_after (S.desk store.old)
        (report_of (S.desk store.old) from.now «package».now (option_copied version.entry) severity.now title.now)))) }
    ensures first { OnOk (report_severity «package».now (option_copied version.entry) severity.now title.now)
        (AsksForNext S.next_gives store.old result) }
    ensures count { S.faults store.new ≡ faults_after_report result (S.faults store.old) }
{
    let severity = report_severity(package, version, severity, title)?;
    let next = store.next()?;
    if next >= AFTER_LARGEST {
        return Err(ReportFault::Full);
    }
    let Some(change) = change_of(alloc, store, from, package, version, severity, title, next) else {
        return Err(ReportFault::Store(StoreFault::Memory));
    };
    store.apply(&change)?;
    Ok(next)
}
