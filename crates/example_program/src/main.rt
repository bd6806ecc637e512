//! Runs the program's command lines, which lie in its data.
#![tactic(auto)]

mod files;
mod help;
mod jobs;
mod messages;
mod ports;
mod statuses;
mod streams;
mod words;

use std::{fs, io};

/// The name of the file that lists the files with examples.
const FILES: &str = "files";

// Runs the examples of a file, whose kind its folder tells.
fn run_file(rt: &HostRuntime, name: &str) -> io::Result<()> {
    let (folder, _) = name.split_once('/').unwrap_or(("", name));
    let text = fs::read_to_string(rt, name)?;
    match folder {
        "jobs" => jobs::run_file(rt, text.as_str()),
        "statuses" => statuses::run_file(rt, text.as_str()),
        "words" => messages::run_file(rt, text.as_str()),
        _ => println!(rt; "-- no folder of examples"),
    }
}

fn main(rt: HostRuntime) -> io::Result<()> {
    for name in fs::read_to_string(&rt, FILES)?.lines() {
        run_file(&rt, name)?;
    }
    statuses::run_process(&rt)
}
