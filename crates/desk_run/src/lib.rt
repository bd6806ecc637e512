//! Scripts, over any store of a desk, any reader and any writer.
//! The names of messages, ids and reports, of stores and of faults stand here too.
//! Laws say what comes of messages with an id over every list of calls.
#![tactic(auto)]

mod branch;
mod carrying;
mod directive;
mod laws;
mod refused_and_failed;
mod script;
mod writing;

pub use control_lines::ScriptFault;
pub use desk_text::End;
pub use laws::{
    a_kept_outcome_takes_its_line, a_sent_message_takes_its_next_lines, each_line_acts_once,
};
pub use memory_desk::PlainDesk;
pub use message_directives::{ReportFault, received_text, report};
pub use message_receiving::{OnceFault, Received, receive, receive_once};
pub use refused_and_failed::refuses;
pub use script::{ScriptEnd, run_script};
pub use store_contract::{Kept, Records, is_id};
pub use store_failing::FailAt;
