//! Bytes that are written: all of them, or the fault; and a writer that holds them back.
#![tactic(auto)]

mod held;
mod whole;

pub use held::HeldOutput;
pub use whole::{WriteFault, write_whole};
