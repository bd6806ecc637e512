//! What the program does for a job, over the input and the outputs that are handed in.
#![tactic(auto)]

mod cause_text;
mod complaint;
mod connecting;
mod ending;
mod file_desk;
mod jobs;
mod laws;
mod left;
mod making;
mod program;
mod repeats;
mod script;
mod sending;
mod server;

pub use ending::{Cause, Ending, JobEnd, end_output};
pub use file_desk::{FileDesk, close_desk, create_desk, open_desk};
pub use jobs::{do_job_from, run_job, run_job_from};
pub use laws::{a_job_leaves_a_desk, init_overwrites_no_desk, the_next_job_finds_the_desk};
pub use left::LeftFiles;
pub use program::{
    read_args, run_args, run_args_from, run_program, run_program_from, run_words, run_words_from,
};
pub use repeats::send_once_over;
pub use script::{run_script_job, run_script_over};
pub use sending::send_over;
pub use server::{serve_job, serve_over};
