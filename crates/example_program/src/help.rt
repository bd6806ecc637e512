//! What the help names.

use std::io;

/// What the help has to name.
const NAMES: [&str; 13] = [
    "--store <FILE>",
    "--from <TEXT>",
    "--id <TEXT>",
    "--port <N>",
    "--count <N>",
    "--first <N>",
    "--help",
    "none, or run   Carries out the script on standard input",
    "init           Makes the file of a new desk",
    "serve          Answers HTTP on 127.0.0.1",
    "other words    Sends them as one message, as bts(1) does",
    "severity N LEVEL",
    "Examples",
];

/// Prints what a text of help names.
pub(crate) fn print_help(rt: &HostRuntime, text: &str) -> io::Result<()> {
    println!(rt; "-- help, which names")?;
    for name in NAMES {
        if text.contains(name) {
            println!(rt; "   {name}")?;
        }
    }
    Ok(())
}
