//! Runs scripts, HTTP exchanges and messages sent again, which lie in its data.
#![tactic(auto)]

mod answers;
mod attempt;
mod data_lines;
mod exchanges;
mod first_calls;
mod header;
mod message_with_id;
mod plan;
mod requests;
mod scripts;
mod sends;
mod serving;
mod stops;

use std::{fs, io};

/// The name of the file that lists the files with examples.
const FILES: &str = "files";

// Runs the examples of a file, whose kind its folder tells.
fn run_file(rt: &HostRuntime, name: &str) -> io::Result<()> {
    let (folder, _) = name.split_once('/').unwrap_or(("", name));
    match folder {
        "exchanges" => exchanges::run_file(rt, fs::read_to_string(rt, name)?.as_str()),
        "scripts" => scripts::run_file(rt, &fs::read(rt, name)?),
        "sends" => sends::run_file(rt, fs::read_to_string(rt, name)?.as_str()),
        "stops" => stops::run_file(rt, fs::read_to_string(rt, name)?.as_str()),
        _ => println!(rt; "-- no folder of examples"),
    }
}

fn main(rt: HostRuntime) -> io::Result<()> {
    for name in fs::read_to_string(&rt, FILES)?.lines() {
        run_file(&rt, name)?;
    }
    first_calls::print_all(&rt)
}
