//! The directives of a script.

ghost use Rattle.std.specs.Prelude.{◌≡◌};
ghost use Rattle.std.specs.Option.{option_copied};
ghost use Rattle.base_words.specs.Words.{has_bytes, words};
ghost use Rattle.base_words.specs.Numbers.{number_of_word};
ghost use Rattle.desk_run.specs.Script.{is_directive, given_version, from_directive, report_directive, list_directive};
ghost use Rattle.desk_run.specs.Script.{show_directive_of, show_directive, directive_of};
ghost use Rattle.desk_run.specs.Directives.{HasGoodSender, said};

use base_words::{is_text, next_word, number_word, split_word, trim};

/// What a directive's line says.
#[derive(Clone, Copy)]
pub(crate) enum Directive<'a> {
    /// The sender of the messages that follow.
    From(&'a str),
    /// A report.
    Report(ReportWords<'a>),
    /// A branch, by the text of its words.
    Branch(&'a str),
    /// The list of a package at a version.
    ListOf(ListWords<'a>),
    /// The page of a bug.
    Show(u64),
    /// The line is no directive.
    Bad,
}

/// The words of a report.
#[derive(Clone, Copy)]
pub(crate) struct ReportWords<'a> {
    pub package: &'a str,
    pub version: Option<&'a str>,
    pub severity: &'a str,
    pub title: &'a str,
}

/// The words of a list.
#[derive(Clone, Copy)]
pub(crate) struct ListWords<'a> {
    pub package: &'a str,
    pub version: &'a str,
}

/// Whether the line is a directive's: whether its first byte is `@`.
pub(crate) fn is_directive(line: &str) -> bool
    ensures { result ≡ is_directive line.now }
{
    match line.as_bytes().first() {
        Some(byte) => *byte == b'@',
        None => false,
    }
}

fn from_directive(text: &str) -> Directive<'_>
    ensures value { said result ≡ from_directive text.now }
    ensures sender { HasGoodSender (said result) }
{
    if is_text(text) {
        Directive::From(text)
    } else {
        Directive::Bad
    }
}

fn given_version(word: &str) -> Option<&str>
    ensures { option_copied result ≡ given_version word.now }
{
    if word == "-" { None } else { Some(word) }
}

fn report_directive(text: &str) -> Directive<'_>
    ensures value { said result ≡ report_directive text.now }
    ensures sender { HasGoodSender (said result) }
{
    let (package, after_package) = next_word(text);
    let (version, after_version) = next_word(after_package);
    let (severity, rest) = next_word(after_version);
    if severity.is_empty() {
        return Directive::Bad;
    }
    Directive::Report(ReportWords {
        package,
        version: given_version(version),
        severity,
        title: trim(rest),
    })
}

fn list_directive(text: &str) -> Directive<'_>
    ensures value { said result ≡ list_directive (words text.now) }
    ensures sender { HasGoodSender (said result) }
{
    let Some((package, after_package)) = split_word(text) else {
        return Directive::Bad;
    };
    let Some((version, rest)) = split_word(after_package) else {
        return Directive::Bad;
    };
    match split_word(rest) {
        Some(_) => Directive::Bad,
        None => Directive::ListOf(ListWords { package, version }),
    }
}

// The bug of a page.
fn show_number(word: &str) -> Directive<'_>
    ensures value { said result ≡ show_directive_of (number_of_word word.now) }
    ensures sender { HasGoodSender (said result) }
{
    match number_word(word) {
        Some(number) => Directive::Show(number),
        None => Directive::Bad,
    }
}

fn show_directive(text: &str) -> Directive<'_>
    ensures value { said result ≡ show_directive (words text.now) }
    ensures sender { HasGoodSender (said result) }
{
    let Some((word, rest)) = split_word(text) else {
        return Directive::Bad;
    };
    match split_word(rest) {
        Some(_) => Directive::Bad,
        None => show_number(word),
    }
}

/// The directive of a line that begins with `@`.
#[tactic(auto, unfolding(crate::specs::Script::directive_of))]
pub(crate) fn read_directive(line: &str) -> Directive<'_>
    ensures value { said result ≡ directive_of line.now }
    ensures sender { HasGoodSender (said result) }
{
    let (name, rest) = next_word(line);
    if name == "@from" {
        from_directive(trim(rest))
    } else if name == "@report" {
        report_directive(rest)
    } else if name == "@branch" {
        Directive::Branch(rest)
    } else if name == "@list" {
        list_directive(rest)
    } else if name == "@show" {
        show_directive(rest)
    } else {
        Directive::Bad
    }
}
