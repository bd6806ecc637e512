//! What a command makes of the shared fields of a set of merged bugs.

ghost use Rattle.std.specs.Prelude.{◌≡◌, if◌then◌else◌, Some, None, IfOk, IfErr, OnOk};
ghost use Rattle.bug_record.specs.Commands.{node_meant, person, IsGoodVersion, HasGoodParts};
ghost use Rattle.bug_record.specs.Marks.{without_node};
ghost use Rattle.base_words.specs.Texts.{IfGiven};
ghost use Rattle.bug_record.specs.Steps.{marked_fixed, opened, moved_to, reassigned, blocked_by, unblocked_by, shared_after};
ghost use Rattle.bug_fields.specs.Fields.{IsVersionFault};
ghost use Rattle.bug_fields.specs.Parts.{found_in, closed_in};

use crate::affects::affect;
use crate::tags::take_steps;
use crate::versions::{mark_fixed, mark_found, mark_found_at, node_meant};
use bug_record::{Command, PlanFault, Severity, Shared, VersionArg, Who, remove_node};
use debver::Text;
use std::alloc::{AllocError, Global};

// Opens a bug, which is then nowhere fixed.
fn open_bug(shared: &mut Shared)
    ensures { shared.new ≡ opened shared.old }
{
    shared.closed = false;
    shared.fixed = shared.fixed.empty();
}

// Opens a bug, where it is closed.
fn open_if_closed(shared: &mut Shared)
    ensures { shared.new ≡ (if shared.old.closed then opened shared.old else shared.old) }
{
    if shared.closed {
        open_bug(shared);
    }
}

// Marks a bug found in the version; without one it is open, and nowhere fixed.
fn mark_found_in(shared: &mut Shared, version: &Option<VersionArg>) -> Result<(), PlanFault>
    requires { IfGiven IsGoodVersion version.now }
    ensures done { OnOk result (shared.new ≡ found_in version.now shared.old) }
    ensures fault { IfErr result (IsVersionFault shared.old.«package») }
{
    let Some(version) = version else {
        open_bug(shared);
        return Ok(());
    };
    let node = node_meant(&shared.package, version)?;
    mark_found_at(shared, node)?;
    Ok(())
}

// Takes back the mark that a bug is found in the version.
fn unmark_found(shared: &mut Shared, version: &VersionArg) -> Result<(), PlanFault>
    requires { IsGoodVersion version.now }
    ensures done { OnOk result (shared.new ≡ record shared.old {
      found = without_node shared.old.found (node_meant shared.old.«package» version.now);
    }) }
    ensures fault { IfErr result (IsVersionFault shared.old.«package») }
{
    let node = node_meant(&shared.package, version)?;
    remove_node(&mut shared.found, &node);
    Ok(())
}

// Marks the version as one that does not have the bug.
fn mark_fixed_in(shared: &mut Shared, version: &VersionArg) -> Result<(), PlanFault>
    requires { IsGoodVersion version.now }
    ensures done { OnOk result (shared.new ≡ marked_fixed (node_meant shared.old.«package» version.now) shared.old) }
    ensures fault { IfErr result (IsVersionFault shared.old.«package») }
{
    let node = node_meant(&shared.package, version)?;
    mark_fixed(shared, node)?;
    Ok(())
}

// Takes that mark back.
fn unmark_fixed(shared: &mut Shared, version: &VersionArg) -> Result<(), PlanFault>
    requires { IsGoodVersion version.now }
    ensures done { OnOk result (shared.new ≡ record shared.old {
      fixed = without_node shared.old.fixed (node_meant shared.old.«package» version.now);
    }) }
    ensures fault { IfErr result (IsVersionFault shared.old.«package») }
{
    let node = node_meant(&shared.package, version)?;
    remove_node(&mut shared.fixed, &node);
    Ok(())
}

// Closes a bug, as one that the version, if there is one, does not have.
fn close_in(shared: &mut Shared, version: &Option<VersionArg>) -> Result<(), PlanFault>
    requires { IfGiven IsGoodVersion version.now }
    ensures done { OnOk result (shared.new ≡ closed_in version.now shared.old) }
    ensures fault { IfErr result (IsVersionFault shared.old.«package») }
{
    if let Some(version) = version {
        let node = node_meant(&shared.package, version)?;
        mark_fixed(shared, node)?;
    }
    shared.closed = true;
    Ok(())
}

// Moves a bug to a package: to another one without its marks.
fn move_to(shared: &mut Shared, package: &Text) -> Result<(), AllocError>
    ensures { OnOk result (shared.new ≡ moved_to «package».now shared.old) }
{
    if *package == shared.package {
        return Ok(());
    }
    shared.package = package.copy()?;
    shared.found = shared.found.empty();
    shared.fixed = shared.fixed.empty();
    Ok(())
}

// Moves a bug to a package, and marks it found in the version there.
fn move_and_mark(
    shared: &mut Shared,
    package: &Text,
    version: &Option<VersionArg>,
) -> Result<(), PlanFault>
    requires { IfGiven IsGoodVersion version.now }
    ensures done { OnOk result (shared.new ≡ reassigned «package».now version.now shared.old) }
    ensures fault { IfErr result (IsVersionFault «package».now) }
{
    move_to(shared, package)?;
    if let Some(version) = version {
        let node = node_meant(package, version)?;
        mark_found(shared, node)?;
    }
    Ok(())
}

/// Who is meant, where this is the sender.
pub(crate) fn person<'a>(from: &'a str, who: &'a Who) -> &'a str
    ensures { result.now ≡ person from.now who.now }
{
    match who {
        Who::Sender => from,
        Who::Given(text) => text.as_str(),
    }
}

fn set_severity(shared: &mut Shared, severity: Severity)
    ensures { shared.new ≡ record shared.old { severity = severity } }
{
    shared.severity = severity;
}

fn set_forwarded(shared: &mut Shared, text: &Text) -> Result<(), AllocError>
    ensures { OnOk result (shared.new ≡ record shared.old { forwarded = Some text.now }) }
{
    shared.forwarded = Some(text.copy()?);
    Ok(())
}

fn clear_forwarded(shared: &mut Shared)
    ensures { shared.new ≡ record shared.old { forwarded = None } }
{
    shared.forwarded = None;
}

fn set_owner(alloc: Global, shared: &mut Shared, from: &str, who: &Who) -> Result<(), AllocError>
    ensures { OnOk result (shared.new ≡ record shared.old { owner = Some (person from.now who.now) }) }
{
    shared.owner = Some(Text::of(alloc, person(from, who))?);
    Ok(())
}

fn clear_owner(shared: &mut Shared)
    ensures { shared.new ≡ record shared.old { owner = None } }
{
    shared.owner = None;
}

// A bug waits on these bugs too.
fn add_blockers(shared: &mut Shared, numbers: &[u64]) -> Result<(), AllocError>
    ensures { OnOk result (shared.new ≡ blocked_by numbers.now shared.old) }
{
    shared.blockers.add_all(numbers)
}

// A bug waits on none of these.
fn remove_blockers(shared: &mut Shared, numbers: &[u64]) -> Result<(), AllocError>
    ensures { OnOk result (shared.new ≡ unblocked_by numbers.now shared.old) }
{
    shared.blockers.remove_all(numbers)
}

// Puts a bug into the archive, or takes it out.
fn set_archived(shared: &mut Shared, archived: bool)
    ensures { shared.new ≡ record shared.old { archived = archived } }
{
    shared.archived = archived;
}

// Makes of the shared fields of a set what a command makes of them.
fn change(
    alloc: Global,
    shared: &mut Shared,
    command: &Command<u64>,
    from: &str,
) -> Result<(), PlanFault>
    requires { HasGoodParts command.now }
    ensures value { OnOk result (shared.new ≡ shared_after from.now command.now shared.old) }
    ensures fault { IfErr result (IsVersionFault shared.old.«package») }
{
    match command {
        Command::Found(_, version) => mark_found_in(shared, version)?,
        Command::NotFound(_, version) => unmark_found(shared, version)?,
        Command::Fixed(_, version) => mark_fixed_in(shared, version)?,
        Command::NotFixed(_, version) => unmark_fixed(shared, version)?,
        Command::Close(_, version) => close_in(shared, version)?,
        Command::Reopen(_, _) => open_if_closed(shared),
        Command::Severity(_, severity) => set_severity(shared, *severity),
        Command::Tags(_, steps) => take_steps(&mut shared.tags, steps.as_slice())?,
        Command::Reassign(_, to, version) => move_and_mark(shared, to, version)?,
        Command::Forwarded(_, text) => set_forwarded(shared, text)?,
        Command::NotForwarded(_) => clear_forwarded(shared),
        Command::Owner(_, who) => set_owner(alloc, shared, from, who)?,
        Command::NoOwner(_) => clear_owner(shared),
        Command::Block(_, numbers) => add_blockers(shared, numbers.as_slice())?,
        Command::Unblock(_, numbers) => remove_blockers(shared, numbers.as_slice())?,
        Command::Archive(_) => set_archived(shared, true),
        Command::Unarchive(_) => set_archived(shared, false),
        Command::Affects(_, step, names) => affect(&mut shared.affects, *step, names.as_slice())?,
        Command::Retitle(_, _)
        | Command::Submitter(_, _)
        | Command::Merge(_, _)
        | Command::ForceMerge(_, _)
        | Command::Unmerge(_)
        | Command::Clone(_, _) => {}
    }
    Ok(())
}

/// The shared fields of a set of merged bugs after a command of the sender `from`, where those
/// before it are `old` (the BTS page 'control and manipulation').
/// Whether the set has the bug that the command names is not looked at.
/// `retitle` and `submitter` leave the shared fields as they were, and so do `merge`, `forcemerge`,
/// `unmerge` and `clone`: what a merge makes of them is not told by one set alone.
/// The command's versions, package names and texts are within their limits.
///
/// # Errors
///
/// `Memory` where there was none.
/// `Refused(BadPackage)` where the command has a version of the set's own package and that is no
/// package name; every package of a sound desk is one.
pub fn shared_after(
    alloc: Global,
    command: &Command<u64>,
    from: &str,
    old: &Shared,
) -> Result<Shared, PlanFault>
    requires { HasGoodParts command.now }
    ensures value { IfOk result (λ shared. shared ≡ shared_after from.now command.now old.now) }
    ensures fault { IfErr result (IsVersionFault old.now.«package») }
{
    let mut shared = old.copy()?;
    change(alloc, &mut shared, command, from)?;
    Ok(shared)
}
