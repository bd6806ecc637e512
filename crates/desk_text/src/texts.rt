//! The texts of outcomes and ends, appended to a transcript.

ghost use Rattle.std.specs.Prelude.{◌≡◌, ◌+◌, ◌<◌, ◌≤◌, [], ◌∷◌, ◌++◌, length, drop, IsOk, OnOk, OnErr, IsUtf8, codes, decimal};
ghost use Rattle.std.specs.Io.{StartsWith};
ghost use Rattle.version_nodes.specs.Nodes.{node_text};
ghost use Rattle.desk_text.specs.Texts.{full_text, said_of_bug, still_found_text};
ghost use Rattle.desk_text.specs.Texts.{as_line, echo, field_word, refusal_text, numbers_text, changed_text, answer_text};
ghost use Rattle.desk_text.specs.Texts.{fault_text, too_many_text, outcome_text, store_end_text, end_text};

use base_faults::{End, StoreFault};
use bug_record::{Field, Outcome, Refusal};
use itoa::{Buffer, write_digits};
use std::alloc::{AllocError, Global};
use version_nodes::Node;

// What of a difference follows the bug's number.
fn difference_end(field: Field) -> &'static str
    ensures { result.now ≡ codes " differs in " ++ field_word field }
{
    match field {
        Field::Package => " differs in package",
        Field::State => " differs in state",
        Field::Forwarded => " differs in forwarded",
        Field::Severity => " differs in severity",
    }
}

/// What is said where more numbers are asked for than are left.
pub(crate) fn full_text() -> &'static str
    ensures { result.now ≡ full_text }
{
    "no bug number is left"
}

/// Appends a text.
pub(crate) fn append_text(out: &mut Vec<u8>, text: &str) -> Result<(), AllocError>
    ensures ok { OnOk result (out.new.items ≡ out.old.items ++ text.now) }
    ensures err { OnErr result (out.new.items ≡ out.old.items) }
    ensures utf8 { IsUtf8 out.old.items → IsUtf8 out.new.items }
{
    out.extend_from_slice(text.as_bytes())
}

/// Appends three texts.
pub(crate) fn append_three(
    out: &mut Vec<u8>,
    first: &str,
    second: &str,
    third: &str,
) -> Result<(), AllocError>
    ensures ok { OnOk result (out.new.items ≡ out.old.items ++ (first.now ++ (second.now ++ third.now))) }
    ensures err { OnErr result (StartsWith out.new.items out.old.items) }
    ensures utf8 { IsUtf8 out.old.items → IsUtf8 out.new.items }
{
    append_text(out, first)?;
    append_text(out, second)?;
    append_text(out, third)
}

/// Appends a number between two texts.
pub(crate) fn append_between(
    out: &mut Vec<u8>,
    before: &str,
    number: u64,
    after: &str,
) -> Result<(), AllocError>
    ensures ok { OnOk result (out.new.items ≡ out.old.items ++ (before.now ++ (decimal number ++ after.now))) }
    ensures err { OnErr result (StartsWith out.new.items out.old.items) }
    ensures utf8 { IsUtf8 out.old.items → IsUtf8 out.new.items }
{
    append_three(out, before, Buffer::new().format(number), after)
}

// Appends what is said of a bug.
#[tactic(auto, unfolding(crate::specs::Texts::said_of_bug))]
fn append_of_bug(out: &mut Vec<u8>, number: u64, said: &str) -> Result<(), AllocError>
    ensures ok { OnOk result (out.new.items ≡ out.old.items ++ said_of_bug number said.now) }
    ensures err { OnErr result (StartsWith out.new.items out.old.items) }
    ensures utf8 { IsUtf8 out.old.items → IsUtf8 out.new.items }
{
    append_between(out, "bug ", number, said)
}

/// Appends a node as it is written, `source/version`.
pub(crate) fn append_node(out: &mut Vec<u8>, node: &Node) -> Result<(), AllocError>
    ensures ok { OnOk result (out.new.items ≡ out.old.items ++ node_text node.now) }
    ensures err { OnErr result (StartsWith out.new.items out.old.items) }
    ensures utf8 { IsUtf8 out.old.items → IsUtf8 out.new.items }
{
    append_three(out, node.source(), "/", node.version())
}

// Appends that a bug is still found at a node.
fn append_still_found(out: &mut Vec<u8>, node: &Node) -> Result<(), AllocError>
    ensures ok { OnOk result (out.new.items ≡ out.old.items ++ still_found_text node.now) }
    ensures err { OnErr result (StartsWith out.new.items out.old.items) }
    ensures utf8 { IsUtf8 out.old.items → IsUtf8 out.new.items }
{
    append_text(out, "still found in ")?;
    append_node(out, node)
}

fn append_refusal(out: &mut Vec<u8>, refusal: &Refusal) -> Result<(), AllocError>
    ensures ok { OnOk result (out.new.items ≡ out.old.items ++ refusal_text refusal.now) }
    ensures err { OnErr result (StartsWith out.new.items out.old.items) }
    ensures utf8 { IsUtf8 out.old.items → IsUtf8 out.new.items }
{
    match refusal {
        Refusal::Unknown => append_text(out, "unknown command"),
        Refusal::Malformed => append_text(out, "malformed command"),
        Refusal::TooLong => append_text(out, "text too long"),
        Refusal::BadSeverity => append_text(out, "unknown severity"),
        Refusal::BadTag => append_text(out, "unknown tag"),
        Refusal::BadVersion => append_text(out, "bad version"),
        Refusal::BadPackage => append_text(out, "bad package name"),
        Refusal::NoName(name) => append_between(out, "no such name -", *name, ""),
        Refusal::NoBug(number) => append_between(out, "no such bug ", *number, ""),
        Refusal::Archived(number) => append_of_bug(out, *number, " is archived"),
        Refusal::NotArchived(number) => append_of_bug(out, *number, " is not archived"),
        Refusal::Differ(field, number) => append_of_bug(out, *number, difference_end(*field)),
        Refusal::NotMerged(number) => append_of_bug(out, *number, " is not merged"),
        Refusal::Merged(number) => append_of_bug(out, *number, " is merged"),
        Refusal::NameTaken(name) => append_between(out, "name -", *name, " is taken"),
        Refusal::OwnSet(number) => append_of_bug(out, *number, " is in the same set"),
        Refusal::NotDone(number) => append_of_bug(out, *number, " is open"),
        Refusal::StillFound(node) => append_still_found(out, node),
        Refusal::Full => append_text(out, full_text()),
    }
}

// Writes a number after a space so that both end at a place, and returns where the space stands.
fn write_spaced(text: &mut [u8], end: usize, number: u64) -> usize
    requires room { 21 ≤ end }
    requires within { end ≤ length text.old }
    ensures length { length text.new ≡ length text.old }
    ensures room { end ≤ result + 21 }
    ensures before { result < end }
    ensures written { drop result text.new ≡ codes " " ++ (decimal number ++ drop end text.old) }
{
    let start = write_digits(number, text, end) - 1;
    text[start] = b' ';
    start
}

// Appends a number after a space, both at once.
fn append_spaced(out: &mut Vec<u8>, number: u64) -> Result<(), AllocError>
    ensures ok { OnOk result (out.new.items ≡ out.old.items ++ numbers_text (number ∷ [])) }
    ensures err { OnErr result (out.new.items ≡ out.old.items) }
    ensures utf8 { IsUtf8 out.old.items → IsUtf8 out.new.items }
{
    let mut text = [0; 21];
    let end = text.len();
    let start = write_spaced(&mut text, end, number);
    out.extend_from_slice(&text[start..])
}

// Appends four numbers, each after a space, all at once.
fn append_four(out: &mut Vec<u8>, a: u64, b: u64, c: u64, d: u64) -> Result<(), AllocError>
    ensures ok { OnOk result (out.new.items ≡ out.old.items ++ numbers_text (a ∷ b ∷ c ∷ d ∷ [])) }
    ensures err { OnErr result (out.new.items ≡ out.old.items) }
    ensures utf8 { IsUtf8 out.old.items → IsUtf8 out.new.items }
{
    let mut text = [0; 84];
    let end = text.len();
    let fourth = write_spaced(&mut text, end, d);
    let third = write_spaced(&mut text, fourth, c);
    let second = write_spaced(&mut text, third, b);
    let first = write_spaced(&mut text, second, a);
    out.extend_from_slice(&text[first..])
}

/// Appends each number after a space.
/// Four go at once, since a list of changed bugs may be long.
pub(crate) fn append_numbers(out: &mut Vec<u8>, numbers: &[u64]) -> Result<(), AllocError>
    ensures ok { OnOk result (out.new.items ≡ out.old.items ++ numbers_text numbers.now) }
    ensures err { OnErr result (StartsWith out.new.items out.old.items) }
    ensures utf8 { IsUtf8 out.old.items → IsUtf8 out.new.items }
{
    let mut rest = numbers;
    loop {
        match rest {
            [a, b, c, d, more @ ..] => {
                append_four(out, *a, *b, *c, *d)?;
                rest = more;
            }
            [only, more @ ..] => {
                append_spaced(out, *only)?;
                rest = more;
            }
            [] => return Ok(()),
        }
    }
}

fn append_changed(out: &mut Vec<u8>, numbers: &[u64]) -> Result<(), AllocError>
    ensures ok { OnOk result (out.new.items ≡ out.old.items ++ changed_text numbers.now) }
    ensures err { OnErr result (StartsWith out.new.items out.old.items) }
    ensures utf8 { IsUtf8 out.old.items → IsUtf8 out.new.items }
{
    if numbers.is_empty() {
        return append_text(out, "OK, no change.");
    }
    append_text(out, "OK")?;
    append_numbers(out, numbers)
}

fn append_answer(out: &mut Vec<u8>, outcome: &Outcome) -> Result<(), AllocError>
    ensures ok { OnOk result (out.new.items ≡ out.old.items ++ answer_text outcome.now) }
    ensures err { OnErr result (StartsWith out.new.items out.old.items) }
    ensures utf8 { IsUtf8 out.old.items → IsUtf8 out.new.items }
{
    match outcome {
        Outcome::Changed(numbers) => append_changed(out, numbers.as_slice()),
        Outcome::Refused(refusal) => {
            append_text(out, "NO ")?;
            append_refusal(out, refusal)
        }
        Outcome::Stopped => append_text(out, "Stopped."),
    }
}

// Appends a line as it was written, after `> `.
fn append_echo(out: &mut Vec<u8>, line: &str) -> Result<(), AllocError>
    ensures ok { OnOk result (out.new.items ≡ out.old.items ++ as_line (echo line.now)) }
    ensures err { OnErr result (StartsWith out.new.items out.old.items) }
    ensures utf8 { IsUtf8 out.old.items → IsUtf8 out.new.items }
{
    append_three(out, "> ", line, "\n")
}

fn append_outcome(out: &mut Vec<u8>, line: &str, outcome: &Outcome) -> Result<(), AllocError>
    ensures ok { OnOk result (out.new.items ≡ out.old.items ++ outcome_text line.now outcome.now) }
    ensures err { OnErr result (StartsWith out.new.items out.old.items) }
    ensures utf8 { IsUtf8 out.old.items → IsUtf8 out.new.items }
{
    append_echo(out, line)?;
    append_answer(out, outcome)?;
    append_text(out, "\n")
}

/// The line of a store fault, which is at hand, so that it is told whatever memory there is.
#[tactic(auto, unfolding(crate::specs::Texts::fault_answer))]
pub fn fault_line(fault: StoreFault) -> &'static str
    ensures { result.now ≡ fault_text fault }
{
    match fault {
        StoreFault::Memory => "Store fault: memory.\n",
        StoreFault::Device => "Store fault: device.\n",
        StoreFault::Full => "Store fault: full.\n",
        StoreFault::Foreign => "Store fault: foreign.\n",
    }
}

/// The line that follows the fifth line that could not be read.
pub fn too_many_line() -> &'static str
    ensures { result.now ≡ too_many_text }
{
    "Too many unreadable lines.\n"
}

fn append_fault(out: &mut Vec<u8>, fault: StoreFault) -> Result<(), AllocError>
    ensures ok { OnOk result (out.new.items ≡ out.old.items ++ fault_text fault) }
    ensures err { OnErr result (StartsWith out.new.items out.old.items) }
    ensures utf8 { IsUtf8 out.old.items → IsUtf8 out.new.items }
{
    append_text(out, fault_line(fault))
}

// The line at which the store failed, and the fault's line.
fn append_store_end(out: &mut Vec<u8>, fault: StoreFault, line: &str) -> Result<(), AllocError>
    ensures ok { OnOk result (out.new.items ≡ out.old.items ++ store_end_text fault line.now) }
    ensures err { OnErr result (StartsWith out.new.items out.old.items) }
    ensures utf8 { IsUtf8 out.old.items → IsUtf8 out.new.items }
{
    append_echo(out, line)?;
    append_fault(out, fault)
}

/// Appends the two lines of an outcome: `> ` and the line as it was written, then the answer.
/// Where there is no memory, `out` is as before.
/// What is appended is UTF-8.
pub fn outcome_text(
    alloc: Global,
    out: &mut Vec<u8>,
    line: &str,
    outcome: &Outcome,
) -> Result<(), AllocError>
    ensures ok { OnOk result (out.new.items ≡ out.old.items ++ outcome_text line.now outcome.now) }
    ensures err { OnErr result (out.new.items ≡ out.old.items) }
    ensures utf8 { IsUtf8 out.old.items → IsUtf8 out.new.items }
{
    let before = out.len();
    let done = append_outcome(out, line, outcome);
    if done.is_err() {
        out.truncate(before);
    }
    done
}

/// Appends the line of a store fault.
/// Where there is no memory, `out` is as before.
/// What is appended is UTF-8.
pub fn fault_text(alloc: Global, out: &mut Vec<u8>, fault: StoreFault) -> Result<(), AllocError>
    ensures ok { OnOk result (out.new.items ≡ out.old.items ++ fault_text fault) }
    ensures err { OnErr result (out.new.items ≡ out.old.items) }
    ensures utf8 { IsUtf8 out.old.items → IsUtf8 out.new.items }
{
    let before = out.len();
    let done = append_fault(out, fault);
    if done.is_err() {
        out.truncate(before);
    }
    done
}

fn store_end_text(out: &mut Vec<u8>, fault: StoreFault, line: &str) -> Result<(), AllocError>
    ensures ok { OnOk result (out.new.items ≡ out.old.items ++ store_end_text fault line.now) }
    ensures err { OnErr result (out.new.items ≡ out.old.items) }
    ensures utf8 { IsUtf8 out.old.items → IsUtf8 out.new.items }
{
    let before = out.len();
    let done = append_store_end(out, fault, line);
    if done.is_err() {
        out.truncate(before);
    }
    done
}

/// Appends what follows the last outcome: nothing for `All` and `Stopped`; a line for
/// `TooManyUnreadable`; for a store fault `> ` and the line at which it came, handed in, and the
/// fault's line.
/// `line` is looked at for a store fault alone.
/// Where there is no memory, `out` is as before.
/// An end that appends nothing takes no memory.
/// What is appended is UTF-8.
pub fn end_text(alloc: Global, out: &mut Vec<u8>, end: End, line: &str) -> Result<(), AllocError>
    ensures ok { OnOk result (out.new.items ≡ out.old.items ++ end_text end line.now) }
    ensures err { OnErr result (out.new.items ≡ out.old.items) }
    ensures utf8 { IsUtf8 out.old.items → IsUtf8 out.new.items }
    ensures nothing { end_text end line.now ≡ [] → IsOk result }
{
    match end {
        End::All => Ok(()),
        End::Stopped => Ok(()),
        End::TooManyUnreadable => append_text(out, too_many_line()),
        End::Store(fault, _) => store_end_text(out, fault, line),
    }
}
