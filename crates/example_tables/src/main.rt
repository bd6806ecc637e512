//! Runs examples of desks in tables, which lie in its data: SQL, scripts, disks that stop.
#![tactic(auto)]

mod desk_calls;
mod example;
mod memory;
mod questions;
mod random;
mod stops;
mod tables;
mod words;

use std::{fs, io};

/// The name of the file that lists the files with examples.
const FILES: &str = "files";

// Runs the examples of a file, whose kind its folder tells.
fn run_file(rt: &HostRuntime, name: &str) -> io::Result<()> {
    let (folder, _) = name.split_once('/').unwrap_or(("", name));
    let text = fs::read_to_string(rt, name)?;
    match folder {
        "tables" => tables::run_file(rt, text.as_str()),
        "stops" => stops::run_file(rt, text.as_str()),
        "memory" => memory::run_file(rt, text.as_str()),
        "random" => random::run_file(rt, text.as_str()),
        _ => println!(rt; "-- no folder of examples"),
    }
}

fn main(rt: HostRuntime) -> io::Result<()> {
    for name in fs::read_to_string(&rt, FILES)?.lines() {
        run_file(&rt, name)?;
    }
    Ok(())
}
