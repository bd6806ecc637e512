//! `bts`: a bug desk, which does what the words of its command line ask.
#![tactic(auto)]

mod output;

use output::{Answers, Errors, Input, Output};
use program_jobs::{end_output, read_args, run_program_from};
use sqlite::Wary;
use std::io;
use std::process::ExitCode;

// Whether no more is asked for than a script over a desk in memory, of which nothing is left where
// an answer is lost.
fn is_plain_script(args: &[String]) -> bool {
    match args {
        [] | [_] => true,
        [_, word] => word.as_str() == "run",
        _ => false,
    }
}

fn main(rt: HostRuntime) -> ExitCode {
    let args = read_args(&rt, rt.alloc());
    let holds = match &args {
        Ok(args) => is_plain_script(args),
        Err(_) => false,
    };
    let output = Output::new(io::writer(&rt), holds);
    let mut errors = Errors::new(rt.stderr(), &output);
    let (ending, left) = run_program_from(
        &rt,
        rt.alloc(),
        Wary,
        args,
        &mut Input::new(rt.reader(), &output),
        &mut Answers::new(&output),
        &mut errors,
    );
    // Here the files of the desk are closed, before anybody waits for an output that is held.
    drop(left);
    let ending = end_output(ending, output.hand_on().is_ok(), &mut errors);
    ExitCode::from(ending.end.status())
}
