//! Versions, their order, and package names.

ghost use Rattle.std.specs.Prelude.{◌≤◌, length};

use debver::{Parts, check, check_name, order, total};
use std::alloc::{AllocError, Global};
use std::cmp::Ordering;

/// Adds the parts of a version, or the fault of a text that is none.
pub(crate) fn add_parts(out: &mut String, text: &str) -> Result<(), AllocError> {
    match check(text) {
        Ok(parts) => add_parts_of(out, &parts),
        Err(fault) => write!(out, "{fault:?}"),
    }
}

// Adds the epoch, where there is one.
fn add_epoch(out: &mut String, parts: &Parts<'_>) -> Result<(), AllocError> {
    match parts.epoch() {
        Some(epoch) => write!(out, "epoch {epoch}, "),
        None => Ok(()),
    }
}

// Adds the revision, where there is one.
fn add_revision(out: &mut String, parts: &Parts<'_>) -> Result<(), AllocError> {
    match parts.revision() {
        Some(revision) => write!(out, ", revision {revision}"),
        None => Ok(()),
    }
}

// Adds the parts of a version.
fn add_parts_of(out: &mut String, parts: &Parts<'_>) -> Result<(), AllocError> {
    add_epoch(out, parts)?;
    write!(out, "upstream {}", parts.upstream())?;
    add_revision(out, parts)
}

/// Adds `good`, or the fault of a text that is no package name.
pub(crate) fn add_name(out: &mut String, text: &str) -> Result<(), AllocError> {
    match check_name(text) {
        Ok(()) => out.push_str("good"),
        Err(fault) => write!(out, "{fault:?}"),
    }
}

// Whether a version comes before another one in total order.
fn is_before(first: &Parts<'_>, second: &Parts<'_>) -> bool {
    total(first, second) == Ordering::Less
}

// Where a version belongs among versions in total order.
fn place_for(sorted: &[Parts<'_>], parts: &Parts<'_>) -> usize
    ensures { result ≤ length sorted.now }
{
    for (place, other) in sorted.iter().enumerate() {
        if is_before(parts, other) {
            return place;
        }
    }
    sorted.len()
}

// How a version compares with the next one.
fn sign(first: &Parts<'_>, second: &Parts<'_>) -> &'static str {
    match order(first, second) {
        Ordering::Less => " < ",
        Ordering::Equal => " = ",
        Ordering::Greater => " > ",
    }
}

// Adds versions in the order of the list, with a sign between neighbours.
fn add_signed(out: &mut String, versions: &[Parts<'_>]) -> Result<(), AllocError> {
    let mut before: Option<&Parts<'_>> = None;
    for parts in versions {
        if let Some(before) = before {
            out.push_str(sign(before, parts))?;
        }
        out.push_str(parts.text())?;
        before = Some(parts);
    }
    Ok(())
}

// Puts the versions of a list in their total order; answers whether each word is one.
fn sort<'a>(sorted: &mut Vec<Parts<'a>>, list: &'a str) -> Result<bool, AllocError> {
    for word in list.split(' ') {
        let Ok(parts) = check(word) else {
            return Ok(false);
        };
        let place = place_for(sorted, &parts);
        sorted.insert(place, parts)?;
    }
    Ok(true)
}

/// Adds the versions of a list in their total order, with a sign between neighbours.
/// Answers whether each word is a version.
pub(crate) fn add_sorted(alloc: Global, out: &mut String, list: &str) -> Result<bool, AllocError> {
    let mut sorted = Vec::new(alloc);
    let are_versions = sort(&mut sorted, list)?;
    if are_versions {
        add_signed(out, &sorted)?;
    }
    Ok(are_versions)
}
