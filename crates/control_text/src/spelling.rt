//! The canonical spelling of commands.

ghost use Rattle.std.specs.Prelude.{◌≡◌, ◌∷◌, [], ◌++◌, map, IfOk, OnOk, string_bytes, codes};
ghost use Rattle.control_text.specs.Spelling.{name_text, bug_text, version_text, who_text, step_text, step_words, word_if, affects_sign};
ghost use Rattle.control_text.specs.Spaces.{after_spaces};
ghost use Rattle.control_text.specs.Spelling.{joined_by_blanks, spelling};
ghost use Rattle.control_grammar.specs.WellFormed.{IsWellFormed};

use base_words::Named;
use bug_record::{AffectsStep, Command, TagStep, VersionArg, Who};
use debver::Text;
use std::alloc::{AllocError, Global};

fn who_text(who: &Who) -> &str
    ensures { result.now ≡ who_text who.now }
{
    match who {
        Who::Sender => "!",
        Who::Given(text) => text.as_str(),
    }
}

// Adds a word after a space.
fn push_word(line: &mut String, word: &str) -> Result<(), AllocError>
    ensures { OnOk result (string_bytes line.new ≡ string_bytes line.old ++ 32 ∷ word.now) }
{
    write!(line, " {word}")
}

// Adds a name after a space.
fn push_name(line: &mut String, name: u32) -> Result<(), AllocError>
    ensures { OnOk result (string_bytes line.new ≡ string_bytes line.old ++ 32 ∷ name_text name) }
{
    write!(line, " -{name}")
}

// Adds a bug after a space.
fn push_bug(line: &mut String, bug: Named) -> Result<(), AllocError>
    ensures { OnOk result (string_bytes line.new ≡ string_bytes line.old ++ 32 ∷ bug_text bug) }
{
    match bug {
        Named::Number(number) => write!(line, " {number}"),
        Named::Name(name) => push_name(line, name),
    }
}

// Adds a version after a space.
fn push_version(line: &mut String, version: &VersionArg) -> Result<(), AllocError>
    ensures { OnOk result (string_bytes line.new ≡ string_bytes line.old ++ 32 ∷ version_text version.now) }
{
    let text = version.version.as_str();
    match &version.source {
        Some(source) => {
            let source = source.as_str();
            write!(line, " {source}/{text}")
        }
        None => write!(line, " {text}"),
    }
}

// A command's word and its bug.
fn with_bug(alloc: Global, word: &str, bug: Named) -> Result<String, AllocError>
    ensures { IfOk result (λ s. string_bytes s ≡ joined_by_blanks (word.now ∷ bug_text bug ∷ [])) }
{
    let mut line = String::from_str(alloc, word)?;
    push_bug(&mut line, bug)?;
    Ok(line)
}

// The same, and a text.
fn with_text(alloc: Global, word: &str, bug: Named, text: &str) -> Result<String, AllocError>
    ensures { IfOk result (λ s. string_bytes s ≡ joined_by_blanks (word.now ∷ bug_text bug ∷ text.now ∷ [])) }
{
    let mut line = with_bug(alloc, word, bug)?;
    push_word(&mut line, text)?;
    Ok(line)
}

// The same with a version.
fn with_version(
    alloc: Global,
    word: &str,
    bug: Named,
    version: &VersionArg,
) -> Result<String, AllocError>
    ensures { IfOk result (λ s. string_bytes s ≡ joined_by_blanks (word.now ∷ bug_text bug ∷ version_text version.now ∷ [])) }
{
    let mut line = with_bug(alloc, word, bug)?;
    push_version(&mut line, version)?;
    Ok(line)
}

// The same with a version, if there is one.
fn with_optional_version(
    alloc: Global,
    word: &str,
    bug: Named,
    version: &Option<VersionArg>,
) -> Result<String, AllocError>
    ensures { IfOk result (λ s. string_bytes s ≡ joined_by_blanks (word.now ∷ bug_text bug ∷ word_if version_text version.now)) }
{
    match version {
        Some(version) => with_version(alloc, word, bug, version),
        None => with_bug(alloc, word, bug),
    }
}

// `reopen`, its bug and who is to be the submitter, if somebody is.
fn reopen(alloc: Global, bug: Named, who: &Option<Who>) -> Result<String, AllocError>
    ensures { IfOk result (λ s. string_bytes s ≡ joined_by_blanks (codes "reopen" ∷ bug_text bug ∷ word_if who_text who.now)) }
{
    match who {
        Some(who) => with_text(alloc, "reopen", bug, who_text(who)),
        None => with_bug(alloc, "reopen", bug),
    }
}

// `reassign`, its bug, the package and a version, if there is one.
fn reassign(
    alloc: Global,
    bug: Named,
    package: &str,
    version: &Option<VersionArg>,
) -> Result<String, AllocError>
    ensures { IfOk result (λ s. string_bytes s
        ≡ joined_by_blanks (codes "reassign" ∷ bug_text bug ∷ «package».now ∷ word_if version_text version.now)) }
{
    let mut line = with_text(alloc, "reassign", bug, package)?;
    match version {
        Some(version) => {
            push_version(&mut line, version)?;
            Ok(line)
        }
        None => Ok(line),
    }
}

// Adds bugs, each after a space.
fn push_bugs(line: &mut String, bugs: &[Named]) -> Result<(), AllocError>
    ensures { OnOk result (string_bytes line.new ≡ string_bytes line.old ++ after_spaces (map bug_text bugs.now)) }
{
    for bug in bugs {
        push_bug(line, *bug)?;
    }
    Ok(())
}

// A command's word and two bugs or more.
fn with_bugs(alloc: Global, word: &str, bug: Named, others: &[Named]) -> Result<String, AllocError>
    ensures { IfOk result (λ s. string_bytes s ≡ joined_by_blanks (word.now ∷ bug_text bug ∷ map bug_text others.now)) }
{
    let mut line = with_bug(alloc, word, bug)?;
    push_bugs(&mut line, others)?;
    Ok(line)
}

// Adds names, each after a space.
fn push_names(line: &mut String, names: &[u32]) -> Result<(), AllocError>
    ensures { OnOk result (string_bytes line.new ≡ string_bytes line.old ++ after_spaces (map name_text names.now)) }
{
    for name in names {
        push_name(line, *name)?;
    }
    Ok(())
}

// `clone`, its bug and the names that it gives.
fn clone_with_names(alloc: Global, bug: Named, names: &[u32]) -> Result<String, AllocError>
    ensures { IfOk result (λ s. string_bytes s ≡ joined_by_blanks (codes "clone" ∷ bug_text bug ∷ map name_text names.now)) }
{
    let mut line = with_bug(alloc, "clone", bug)?;
    push_names(&mut line, names)?;
    Ok(line)
}

// A command's word, a bug, `by` and other bugs.
fn bug_by_bugs(
    alloc: Global,
    word: &str,
    bug: Named,
    others: &[Named],
) -> Result<String, AllocError>
    ensures { IfOk result (λ s. string_bytes s ≡ joined_by_blanks (word.now ∷ bug_text bug ∷ codes "by" ∷ map bug_text others.now)) }
{
    let mut line = with_text(alloc, word, bug, "by")?;
    push_bugs(&mut line, others)?;
    Ok(line)
}

// Adds a step after a space.
fn push_step(line: &mut String, step: TagStep) -> Result<(), AllocError>
    ensures { OnOk result (string_bytes line.new ≡ string_bytes line.old ++ 32 ∷ step_text step) }
{
    match step {
        TagStep::Add(tag) => {
            line.push_str(" +")?;
            line.push_str(tag.name())
        }
        TagStep::Remove(tag) => {
            line.push_str(" -")?;
            line.push_str(tag.name())
        }
        TagStep::Clear => line.push_str(" ="),
    }
}

// `tags`, its bug and the steps; for no step a sign alone.
fn tags(alloc: Global, bug: Named, steps: &[TagStep]) -> Result<String, AllocError>
    ensures { IfOk result (λ s. string_bytes s ≡ joined_by_blanks (codes "tags" ∷ bug_text bug ∷ step_words steps.now)) }
{
    if steps.is_empty() {
        return with_text(alloc, "tags", bug, "+");
    }
    let mut line = with_bug(alloc, "tags", bug)?;
    for step in steps {
        push_step(&mut line, *step)?;
    }
    Ok(line)
}

fn affects_sign(step: AffectsStep) -> &'static str
    ensures { result.now ≡ affects_sign step }
{
    match step {
        AffectsStep::Add => "+",
        AffectsStep::Remove => "-",
        AffectsStep::Replace => "=",
    }
}

// Adds packages, each after a space.
fn push_packages(line: &mut String, names: &[Text]) -> Result<(), AllocError>
    ensures { OnOk result (string_bytes line.new ≡ string_bytes line.old ++ after_spaces names.now) }
{
    for name in names {
        push_word(line, name.as_str())?;
    }
    Ok(())
}

// `affects`, its bug, a sign and the packages.
fn affects(
    alloc: Global,
    bug: Named,
    step: AffectsStep,
    names: &[Text],
) -> Result<String, AllocError>
    ensures { IfOk result (λ s. string_bytes s ≡ joined_by_blanks (codes "affects" ∷ bug_text bug ∷ affects_sign step ∷ names.now)) }
{
    let mut line = with_text(alloc, "affects", bug, affects_sign(step))?;
    push_packages(&mut line, names)?;
    Ok(line)
}

/// The canonical spelling of a command, which is read back as it: its words in lower case with one
/// space between them, numbers without `#` and leading zeros, a version with its source as
/// `source/version`, each tag with its own sign, the packages of `affects` after a sign, blockers
/// after `by`, all without commas, and the sender as `!`.
/// This project's own rule.
/// The command has to be well formed (see `well_formed`).
///
/// # Errors
///
/// Where there was no memory.
#[tactic(auto, unfolding(crate::specs::Spelling::spelling))]
pub fn write_command(alloc: Global, command: &Command<Named>) -> Result<String, AllocError>
    requires { IsWellFormed command.now }
    ensures { IfOk result (λ s. string_bytes s ≡ spelling command.now) }
{
    match command {
        Command::Found(bug, version) => with_optional_version(alloc, "found", *bug, version),
        Command::NotFound(bug, version) => with_version(alloc, "notfound", *bug, version),
        Command::Fixed(bug, version) => with_version(alloc, "fixed", *bug, version),
        Command::NotFixed(bug, version) => with_version(alloc, "notfixed", *bug, version),
        Command::Close(bug, version) => with_optional_version(alloc, "close", *bug, version),
        Command::Reopen(bug, who) => reopen(alloc, *bug, who),
        Command::Severity(bug, severity) => { with_text(alloc, "severity", *bug, severity.name()) }
        Command::Reassign(bug, package, version) => {
            reassign(alloc, *bug, package.as_str(), version)
        }
        Command::Tags(bug, steps) => tags(alloc, *bug, steps.as_slice()),
        Command::Retitle(bug, text) => with_text(alloc, "retitle", *bug, text.as_str()),
        Command::Submitter(bug, who) => with_text(alloc, "submitter", *bug, who_text(who)),
        Command::Merge(bug, others) => with_bugs(alloc, "merge", *bug, others.as_slice()),
        Command::ForceMerge(bug, others) => with_bugs(alloc, "forcemerge", *bug, others.as_slice()),
        Command::Unmerge(bug) => with_bug(alloc, "unmerge", *bug),
        Command::Clone(bug, names) => clone_with_names(alloc, *bug, names.as_slice()),
        Command::Block(bug, others) => bug_by_bugs(alloc, "block", *bug, others.as_slice()),
        Command::Unblock(bug, others) => bug_by_bugs(alloc, "unblock", *bug, others.as_slice()),
        Command::Forwarded(bug, text) => with_text(alloc, "forwarded", *bug, text.as_str()),
        Command::NotForwarded(bug) => with_bug(alloc, "notforwarded", *bug),
        Command::Owner(bug, who) => with_text(alloc, "owner", *bug, who_text(who)),
        Command::NoOwner(bug) => with_bug(alloc, "noowner", *bug),
        Command::Archive(bug) => with_bug(alloc, "archive", *bug),
        Command::Unarchive(bug) => with_bug(alloc, "unarchive", *bug),
        Command::Affects(bug, step, names) => affects(alloc, *bug, *step, names.as_slice()),
    }
}
