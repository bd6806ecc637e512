//! Words that several commands take: a bug, a version, a package, a text.

ghost use Rattle.std.specs.Prelude.{◌≡◌};
ghost use Rattle.std.specs.Option.{ok_or};
ghost use Rattle.base_words.specs.Words.{words};
ghost use Rattle.control_grammar.specs.Versions.{bare_version, sourced_version, without_src};
ghost use Rattle.control_grammar.specs.Commands.{read_bug, read_version, read_package, bug_alone, bug_and_version};
ghost use Rattle.control_grammar.specs.Commands.{bug_and_optional_version};
ghost use Rattle.control_parser.specs.Reads.{Reads};
ghost use Rattle.bug_record.specs.declared.command.Refusal.TheVariants.{BadVersion};

use crate::fault::LineFault;
use crate::few_words::{one_word, two_words};
use base_words::{Named, bug_word};
use bug_record::{Refusal, VersionArg};
use debver::{Text, check, check_name};
use std::alloc::Global;
use version_nodes::at_first_slash;

/// The refusal of a line whose shape is wrong.
pub(crate) const MALFORMED: LineFault = LineFault::Refused(Refusal::Malformed);

const BAD_VERSION: LineFault = LineFault::Refused(Refusal::BadVersion);

/// The bug of a bug word.
pub(crate) fn read_bug(word: &str) -> Result<Named, LineFault>
    ensures { Reads (read_bug word.now) result }
{
    bug_word(word).ok_or(MALFORMED)
}

// A version of the bug's own package.
fn read_bare(alloc: Global, version: &str) -> Result<VersionArg, LineFault>
    ensures { Reads (ok_or (bare_version version.now) BadVersion) result }
{
    if check(version).is_err() {
        return Err(BAD_VERSION);
    }
    Ok(VersionArg {
        source: None,
        version: Text::of(alloc, version)?,
    })
}

// A version of a source package.
fn read_sourced(alloc: Global, source: &str, version: &str) -> Result<VersionArg, LineFault>
    ensures { Reads (ok_or (sourced_version source.now version.now) BadVersion) result }
{
    if check_name(source).is_err() || check(version).is_err() {
        return Err(BAD_VERSION);
    }
    Ok(VersionArg {
        source: Some(Text::of(alloc, source)?),
        version: Text::of(alloc, version)?,
    })
}

/// The version of a version word.
pub(crate) fn read_version(alloc: Global, word: &str) -> Result<VersionArg, LineFault>
    ensures { Reads (read_version word.now) result }
{
    match at_first_slash(word) {
        Some((source, version)) => read_sourced(alloc, source, version),
        None => read_bare(alloc, word),
    }
}

// The word without one `src:` at its beginning.
fn without_src(word: &str) -> &str
    ensures { result.now ≡ without_src word.now }
{
    word.strip_prefix("src:").unwrap_or(word)
}

/// The package that a word names.
pub(crate) fn read_package(alloc: Global, word: &str) -> Result<Text, LineFault>
    ensures { Reads (read_package word.now) result }
{
    let name = without_src(word);
    if check_name(name).is_err() {
        return Err(LineFault::Refused(Refusal::BadPackage));
    }
    Ok(Text::of(alloc, name)?)
}

/// `n`: a bug alone.
#[tactic(auto, using(crate::proofs::ShapeLemmas::not_alone))]
pub(crate) fn bug_alone(arguments: &str) -> Result<Named, LineFault>
    ensures { Reads (bug_alone (words arguments.now)) result }
{
    read_bug(one_word(arguments).ok_or(MALFORMED)?)
}

/// `n v`: a bug and a version.
#[tactic(auto, using(crate::proofs::ShapeLemmas::no_version))]
pub(crate) fn bug_and_version(
    alloc: Global,
    arguments: &str,
) -> Result<(Named, VersionArg), LineFault>
    ensures { Reads (bug_and_version (words arguments.now)) result }
{
    let (first, second) = two_words(arguments).ok_or(MALFORMED)?;
    let bug = read_bug(first)?;
    let version = read_version(alloc, second)?;
    Ok((bug, version))
}

/// `n [v]`: a bug, and a version, if one is given.
#[tactic(auto, using(crate::proofs::ShapeLemmas::no_optional_version))]
pub(crate) fn bug_and_optional_version(
    alloc: Global,
    arguments: &str,
) -> Result<(Named, Option<VersionArg>), LineFault>
    ensures { Reads (bug_and_optional_version (words arguments.now)) result }
{
    if let Some(word) = one_word(arguments) {
        return Ok((read_bug(word)?, None));
    }
    let (first, second) = two_words(arguments).ok_or(MALFORMED)?;
    let bug = read_bug(first)?;
    let version = read_version(alloc, second)?;
    Ok((bug, Some(version)))
}
