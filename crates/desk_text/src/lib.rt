//! The exact texts of outcomes, of ends, and of the answers to directives.
#![tactic(auto)]

mod answers;
mod lists;
mod pages;
mod report_fault;
mod texts;

pub use answers::{
    bad_directive_answer, bad_package_answer, bad_version_answer, no_bug_answer, nodes_refusal,
    report_refusal,
};
pub use base_faults::{End, StoreFault};
pub use bug_record::{ListRow, Outcome};
pub use lists::list_text;
pub use pages::{BugPage, bug_text};
pub use report_fault::ReportFault;
pub use texts::{end_text, fault_line, fault_text, outcome_text, too_many_line};
