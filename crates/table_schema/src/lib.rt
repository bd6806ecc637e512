//! The tables in which a desk is kept, their rows, and how a call of the database is told.
#![tactic(auto)]

mod cells;
mod faults;
mod numbers;
mod parameters;

pub use cells::{
    bytes_text_at, is_number_at, is_text_at, maybe_number_at, maybe_text_at, node_at, number_at,
    text_at,
};
pub use faults::{fault_of, told, written};
pub use numbers::{number_in, numbers_of};
pub use parameters::{maybe_parameter, parameter};
