//! Which commands can be written.

ghost use Rattle.std.specs.Prelude.{◌≡◌, ◌<◌, ◌∷◌, length, IsTrue, Decides};
ghost use Rattle.debver.specs.Names.{IsName};
ghost use Rattle.bug_record.specs.Commands.{IsGoodVersion, IsGoodPerson};
ghost use Rattle.bug_record.specs.Sets.{Each};
ghost use Rattle.base_words.specs.Texts.{IfGiven};
ghost use Rattle.base_words.specs.Numbers.{IsGoodNumber};
ghost use Rattle.base_words.specs.Bugs.{IsGoodBug};
ghost use Rattle.control_grammar.specs.WellFormed.{IsPlain, IsAddress, HasPackages, IsWellFormed};

use base_words::{LARGEST_NUMBER, Named, is_text};
use bug_record::{AffectsStep, Command, VersionArg, Who};
use debver::{Text, check, check_name};

fn is_good_number(number: u64) -> bool
    ensures { Decides result (IsGoodNumber number) }
{
    1 <= number && number <= LARGEST_NUMBER
}

fn is_good_bug(bug: Named) -> bool
    ensures { Decides result (IsGoodBug bug) }
{
    match bug {
        Named::Number(number) => is_good_number(number),
        Named::Name(name) => is_good_number(u64::from(name)),
    }
}

fn are_good_bugs(bugs: &[Named]) -> bool
    ensures { Decides result (Each IsGoodBug bugs.now) }
{
    bugs.iter().all(|bug| is_good_bug(*bug))
}

// A bug, and one or more besides.
fn are_bug_and_others(bug: Named, others: &[Named]) -> bool
    ensures { Decides result (Each IsGoodBug (bug ∷ others.now) × (0 < length others.now)) }
{
    is_good_bug(bug) && are_good_bugs(others) && !others.is_empty()
}

// One name or more, each from 1 to 999,999,999.
fn are_good_names(names: &[u32]) -> bool
    ensures { Decides result (Each IsGoodNumber names.now × (0 < length names.now)) }
{
    names.iter().all(|name| is_good_number(u64::from(*name))) && !names.is_empty()
}

fn is_good_source(source: &Option<Text>) -> bool
    ensures { Decides result (IfGiven IsName source.now) }
{
    match source {
        Some(source) => check_name(source.as_str()).is_ok(),
        None => true,
    }
}

fn is_good_version(version: &VersionArg) -> bool
    ensures { Decides result (IsGoodVersion version.now) }
{
    is_good_source(&version.source) && check(version.version.as_str()).is_ok()
}

fn is_good_optional_version(version: &Option<VersionArg>) -> bool
    ensures { Decides result (IfGiven IsGoodVersion version.now) }
{
    match version {
        Some(version) => is_good_version(version),
        None => true,
    }
}

// Somebody whose text is a text, and not `!`.
fn is_good_who(who: &Who) -> bool
    ensures { Decides result (IsGoodPerson who.now × IsAddress who.now) }
{
    match who {
        Who::Given(text) => {
            let text = text.as_str();
            is_text(text) && text != "!"
        }
        Who::Sender => true,
    }
}

// Somebody, if somebody is given, whose text is a text, and neither `!` nor `=`.
fn is_good_optional_who(who: &Option<Who>) -> bool
    ensures { Decides result (IfGiven IsGoodPerson who.now × IsPlain who.now) }
{
    match who {
        Some(Who::Given(text)) => {
            let text = text.as_str();
            is_text(text) && text != "!" && text != "="
        }
        _ => true,
    }
}

fn is_good_package(name: &Text) -> bool
    ensures { Decides result (IsName name.now) }
{
    check_name(name.as_str()).is_ok()
}

fn are_packages(names: &[Text]) -> bool
    ensures { Decides result (Each IsName names.now) }
{
    names.iter().all(|name| is_good_package(name))
}

// Package names, of which there is one where they are added or taken out.
fn are_good_packages(step: AffectsStep, names: &[Text]) -> bool
    ensures { Decides result (Each IsName names.now × HasPackages step names.now) }
{
    match step {
        AffectsStep::Add | AffectsStep::Remove => are_packages(names) && !names.is_empty(),
        AffectsStep::Replace => are_packages(names),
    }
}

/// Whether a command can be written: its numbers and names are from 1 to 999,999,999, its versions,
/// package names and texts are within their limits, no text that is given for a submitter or an
/// owner is `!`, which stands for the sender, none that is given for `reopen` is `=`, which stands
/// for nobody, a merge has a second bug, `block` and `unblock` name a blocker, `clone` gives a
/// name, and `affects` a package where it adds packages or takes them out.
/// This project's own rule.
/// It holds of all that `read_line` gives.
pub fn well_formed(command: &Command<Named>) -> bool
    ensures { Decides result (IsWellFormed command.now) }
{
    match command {
        Command::Found(bug, version) => is_good_bug(*bug) && is_good_optional_version(version),
        Command::NotFound(bug, version) => is_good_bug(*bug) && is_good_version(version),
        Command::Fixed(bug, version) => is_good_bug(*bug) && is_good_version(version),
        Command::NotFixed(bug, version) => is_good_bug(*bug) && is_good_version(version),
        Command::Close(bug, version) => is_good_bug(*bug) && is_good_optional_version(version),
        Command::Reopen(bug, who) => is_good_bug(*bug) && is_good_optional_who(who),
        Command::Severity(bug, _) => is_good_bug(*bug),
        Command::Reassign(bug, package, version) => {
            is_good_bug(*bug)
                && check_name(package.as_str()).is_ok()
                && is_good_optional_version(version)
        }
        Command::Tags(bug, _) => is_good_bug(*bug),
        Command::Retitle(bug, text) => is_good_bug(*bug) && is_text(text.as_str()),
        Command::Submitter(bug, who) => is_good_bug(*bug) && is_good_who(who),
        Command::Merge(bug, others) => are_bug_and_others(*bug, others.as_slice()),
        Command::ForceMerge(bug, others) => are_bug_and_others(*bug, others.as_slice()),
        Command::Unmerge(bug) => is_good_bug(*bug),
        Command::Clone(bug, names) => is_good_bug(*bug) && are_good_names(names.as_slice()),
        Command::Block(bug, others) => are_bug_and_others(*bug, others.as_slice()),
        Command::Unblock(bug, others) => are_bug_and_others(*bug, others.as_slice()),
        Command::Forwarded(bug, text) => is_good_bug(*bug) && is_text(text.as_str()),
        Command::NotForwarded(bug) => is_good_bug(*bug),
        Command::Owner(bug, who) => is_good_bug(*bug) && is_good_who(who),
        Command::NoOwner(bug) => is_good_bug(*bug),
        Command::Archive(bug) => is_good_bug(*bug),
        Command::Unarchive(bug) => is_good_bug(*bug),
        Command::Affects(bug, step, names) => {
            is_good_bug(*bug) && are_good_packages(*step, names.as_slice())
        }
    }
}
