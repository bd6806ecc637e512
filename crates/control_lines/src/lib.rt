//! Lines, cut out of a text, or out of what a script gives in pieces; how a script ends early.
#![tactic(auto)]

mod fault;
mod lines;
mod source;

pub use fault::ScriptFault;
pub use lines::{split_lines, without_return};
pub use source::{Piece, Source, next_line, write_out};
